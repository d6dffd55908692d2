//! What can go wrong in a program, the exit status of each fault, and the faults of a reader and a writer.
ghost use Rattle.std.specs.Prelude.{◌≡◌, true, false, IfErr, IsOk, Some};
ghost use Rattle.std.specs.IoError.{error_kind};
ghost use Rattle.clru_text.specs.Faults.{fault_text, is_of_input, is_of_writing, status_of};

use crate::input::ReadError;
use std::error::Error;
use std::fmt;
use std::io::{self, ErrorKind};

/// Why a program ends without its whole output.
#[derive(Clone, Copy, Debug, PartialEq, Eq)]
pub enum Fault {
    /// The first line is no capacity, or there is none.
    BadCapacity,
    /// A request for memory was refused.
    Memory,
    /// A read returned an error.
    Reading,
    /// A write returned an error or took nothing, or the flush failed.
    Writing,
    /// The writer is a pipe that nobody reads any more.
    Closed,
    /// The line of this number, counted from 1, begins with no size.
    NoSize(usize),
    /// The sizes of all lines together pass the greatest `usize`.
    TooLarge,
    /// A capacity that was named is below this one, which is the greatest size.
    TooSmall(usize),
}

impl fmt::Display for Fault {
    ghost output = { λ fault. Some (fault_text fault) };

    fn fmt<W: fmt::Write>(&self, f: &mut fmt::Formatter<W>) -> fmt::Result {
        match self {
            Fault::BadCapacity => f.write_str("the first line is no capacity"),
            Fault::Memory => f.write_str("memory ran out"),
            Fault::Reading => f.write_str("standard input cannot be read"),
            Fault::Writing => f.write_str("standard output cannot be written"),
            Fault::Closed => f.write_str("standard output was closed"),
            Fault::NoSize(number) => write!(
                f,
                "line {number} has no size: with --sizes each begins with one and a blank, as in 512 /index.html"
            ),
            Fault::TooLarge => {
                f.write_str("the sizes of all lines add up to more than 18446744073709551615")
            }
            Fault::TooSmall(first) => write!(
                f,
                "--at names a capacity below the greatest size: name numbers from {first} on"
            ),
        }
    }
}

impl Error for Fault {}

/// Returns the exit status of a run.
pub fn exit_status(outcome: &Result<(), Fault>) -> u8
    ensures success { IsOk outcome.now → result ≡ 0 }
    ensures fault { IfErr outcome.now (λ f. result ≡ status_of f) }
{
    match outcome {
        Ok(()) => 0,
        Err(Fault::BadCapacity | Fault::TooSmall(_)) => 2,
        Err(Fault::Memory) => 3,
        Err(Fault::Reading) => 4,
        Err(Fault::Writing | Fault::Closed) => 5,
        Err(Fault::NoSize(_) | Fault::TooLarge) => 6,
    }
}

/// Returns why an input was not read.
/// Cost: none.
pub fn read_fault(error: ReadError) -> Fault
    ensures memory { error ≡ ReadError.Memory → result ≡ Fault.Memory }
    ensures reading { error ≡ ReadError.Reading → result ≡ Fault.Reading }
    ensures not_of_input { is_of_input result ≡ false }
    ensures not_of_writing { is_of_writing result ≡ false }
{
    match error {
        ReadError::Memory => Fault::Memory,
        ReadError::Reading => Fault::Reading,
    }
}

/// Returns why a report was not written. A pipe that was closed early is told from the other faults, since it is no news to who
/// closed it.
pub(crate) fn write_fault(error: &io::Error) -> Fault
    ensures of_writing { is_of_writing result ≡ true }
    ensures closed { error_kind error.now ≡ ErrorKind.BrokenPipe → result ≡ Fault.Closed }
    ensures not_closed { result ≡ Fault.Closed → error_kind error.now ≡ ErrorKind.BrokenPipe }
{
    match error.kind() {
        ErrorKind::BrokenPipe => Fault::Closed,
        _ => Fault::Writing,
    }
}
