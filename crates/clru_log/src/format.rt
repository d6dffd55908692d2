//! How the lines of a log are built, and what is wanted of them.

use std::alloc::{Allocator, Global};

/// What parts the columns of a line.
#[derive(Clone, Copy, Debug, Drop)]
pub enum Columns {
    /// Runs of blanks and tabs, as in awk.
    Blanks,
    /// Single tabs.
    Tabs,
}

/// How the lines of a log are built. Columns are counted from 1.
#[derive(Drop)]
pub struct Format<A: Allocator = Global> {
    pub columns: Columns,
    /// The columns of the key, joined by a blank.
    pub key: Vec<usize, A>,
    /// The column of the method, if lines have one.
    pub method: Option<usize>,
    /// The column of the status, if lines have one.
    pub status: Option<usize>,
}

/// What a plain line is to have.
#[derive(Clone, Copy, Debug, Drop)]
pub struct Wanted {
    /// Lines with any method and status count.
    pub all_requests: bool,
    /// Keys end before a question mark.
    pub no_query: bool,
}
