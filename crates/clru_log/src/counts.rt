//! How many lines count, and why others do not.

use crate::cut::Left;

/// What was read of a log.
#[derive(Clone, Copy, Debug, Default, Drop)]
pub struct CutCounts {
    pub lines: u64,
    pub kept: u64,
    /// Lines of another method.
    pub methods: u64,
    /// Lines of another status.
    pub statuses: u64,
    /// Lines with too few columns.
    pub columns: u64,
}

impl CutCounts {
    // Counts a line, which is left out for this reason, if for one.
    pub(crate) fn count(&mut self, left: Option<Left>) {
        self.lines = self.lines.saturating_add(1);
        let kind = match left {
            None => &mut self.kept,
            Some(Left::Method) => &mut self.methods,
            Some(Left::Status) => &mut self.statuses,
            Some(Left::Columns) => &mut self.columns,
        };
        *kind = kind.saturating_add(1);
    }
}
