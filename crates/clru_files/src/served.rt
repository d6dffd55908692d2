//! What became of a request, and how it is shown.
ghost use Rattle.std.specs.Prelude.{Some};
ghost use Rattle.clru_files.specs.Serving.{served_text, summary_text};

use crate::fault::Fault;
use std::fmt;

/// The length of a page and its checksum.
#[derive(Clone, Copy)]
pub struct PageSummary {
    pub length: usize,
    pub checksum: u32,
}

impl fmt::Display for PageSummary {
    ghost output = { λ summary. Some (summary_text summary) };

    fn fmt<W: fmt::Write>(&self, f: &mut fmt::Formatter<W>) -> fmt::Result {
        write!(f, "{} bytes, {:08x}", self.length, self.checksum)
    }
}

/// What became of a request.
#[derive(Clone, Copy)]
pub enum Served {
    /// The page was held, and no file was opened.
    Hit(PageSummary),
    /// It was fetched, or could not be.
    Fetched(Result<PageSummary, Fault>),
    /// The line is no text, so the store was not asked.
    NoText,
    /// No memory was found for the path, so the store was not asked.
    NoMemory,
}

impl fmt::Display for Served {
    ghost output = { λ served. Some (served_text served) };

    fn fmt<W: fmt::Write>(&self, f: &mut fmt::Formatter<W>) -> fmt::Result {
        match self {
            Served::Hit(summary) => write!(f, "{summary}, held"),
            Served::Fetched(Ok(summary)) => write!(f, "{summary}, fetched"),
            Served::Fetched(Err(fault)) => write!(f, "{fault}"),
            Served::NoText => f.write_str("the path is no text"),
            Served::NoMemory => f.write_str("out of memory"),
        }
    }
}
