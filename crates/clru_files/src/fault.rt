//! Why a path has no page.
ghost use Rattle.std.specs.Prelude.{Some};
ghost use Rattle.clru_files.specs.Serving.{fault_text};

use std::fmt;
use std::io::{self, ErrorKind};

#[derive(Clone, Copy, PartialEq)]
pub enum Fault {
    Outside,
    Missing,
    Unreadable,
    Folder,
    Special,
    TooLong,
    Longer,
    Memory,
}

impl fmt::Display for Fault {
    ghost output = { λ fault. Some (fault_text fault) };

    fn fmt<W: fmt::Write>(&self, f: &mut fmt::Formatter<W>) -> fmt::Result {
        f.write_str(match self {
            Fault::Outside => "outside of the folder",
            Fault::Missing => "missing",
            Fault::Unreadable => "not readable",
            Fault::Folder => "a folder",
            Fault::Special => "no regular file",
            Fault::TooLong => "longer than the capacity",
            Fault::Longer => "longer than it said",
            Fault::Memory => "out of memory",
        })
    }
}

impl From<io::Error> for Fault {
    fn from(error: io::Error) -> Fault {
        match error.kind() {
            ErrorKind::NotFound | ErrorKind::NotADirectory => Fault::Missing,
            ErrorKind::OutOfMemory => Fault::Memory,
            _ => Fault::Unreadable,
        }
    }
}
