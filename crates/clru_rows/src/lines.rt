//! A script as lines: what stands before the arrow, and the call in it.

use crate::words::Words;
use std::alloc::{AllocError, Global};

/// A line of a script, without its answer.
#[derive(Clone, Copy)]
pub struct Line {
    /// What is written again, up to the arrow, and
    pub text: &'static str,
    /// how far that reaches with its blanks, where an arrow stood.
    pub width: Option<usize>,
    /// The call, without the comment. It is empty where the line has none.
    pub call: &'static str,
}

/// What begins a block of lines.
const SUBJECTS: [&str; 19] = [
    "cache",
    "costs",
    "list",
    "store",
    "store_costs",
    "replay",
    "misses",
    "distances",
    "idle_distances",
    "sizes",
    "spans",
    "idle_spans",
    "aged_misses",
    "aged_sizes",
    "floor",
    "least",
    "foresight",
    "makers",
    "runs",
];

impl Line {
    /// A line of the text, or `None` for one that has an answer alone: it is made again.
    fn new(text: &'static str) -> Option<Line> {
        let (before, width) = match text.split_once("->") {
            Some((before, _)) if !before.contains("#") => (before, Some(before.len())),
            _ => (text, None),
        };
        let kept = before.trim_end();
        if kept.is_empty() && width.is_some() {
            return None;
        }
        let (call, _) = before.split_once("#").unwrap_or((before, ""));
        Some(Line {
            text: kept,
            width,
            call: call.trim(),
        })
    }

    /// The first word of the call.
    pub fn name(&self) -> &'static str {
        Words::new(self.call).next().unwrap_or("")
    }
}

/// The lines of a script.
pub fn lines_of(alloc: Global, script: &'static str) -> Result<Vec<Line>, AllocError> {
    let mut lines = Vec::new(alloc);
    for text in script.lines() {
        if let Some(line) = Line::new(text) {
            lines.push(line)?;
        }
    }
    Ok(lines)
}

/// The block that begins at a line. What stands before a line that begins one is a block too.
pub fn block_at(lines: &[Line], start: usize) -> &[Line] {
    let rest = lines.get(start..).unwrap_or(&[]);
    rest.get(..block_len(rest)).unwrap_or(rest)
}

/// How many lines the first block has. `list` alone is a call.
fn block_len(lines: &[Line]) -> usize {
    for (at, line) in lines.iter().enumerate() {
        if at > 0 && SUBJECTS.contains(&line.name()) && line.call != "list" {
            return at;
        }
    }
    lines.len()
}
