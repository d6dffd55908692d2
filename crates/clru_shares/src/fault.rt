//! Why an input has no table of a split, and the exit status of each fault.
ghost use Rattle.std.specs.Prelude.{◌≡◌, IfErr, IsOk, Some};
ghost use Rattle.clru_shares.specs.Faults.{split_fault_text, split_status_of};

use clru_text::{Fault, exit_status};
use std::error::Error;
use std::fmt;

/// Why a split ends without its whole output.
#[derive(Clone, Copy, Debug, PartialEq, Eq)]
pub enum SplitFault {
    /// With times: the line of this number, counted from 1, begins with none.
    NoTime(usize),
    /// The line of this number, counted from 1, begins with no class, behind its time if it has one.
    NoClass(usize),
    /// The line of this number has a class, and the lines before it have as many others as can be.
    TooManyClasses(usize),
    /// By size: the line of this number has a class, but no size follows it.
    NoSize(usize),
    /// The sizes of all lines together pass the greatest `usize`.
    TooLarge,
    /// By size: a class has an object of this size, and the whole budget is less.
    NoRoom(usize),
    /// What any report may meet.
    Other(Fault),
}

impl fmt::Display for SplitFault {
    ghost output = { λ fault. Some (split_fault_text fault) };

    fn fmt<W: fmt::Write>(&self, f: &mut fmt::Formatter<W>) -> fmt::Result {
        match self {
            SplitFault::NoTime(number) => write!(
                f,
                "line {number} has no time: with --split and --times each begins with one, as in 1700000000 images /logo.png"
            ),
            SplitFault::NoClass(number) => write!(
                f,
                "line {number} has no class: with --split each begins with one and a blank, as in images /logo.png"
            ),
            SplitFault::TooManyClasses(number) => write!(
                f,
                "line {number} has one class too many: with --split there are at most 256"
            ),
            SplitFault::NoSize(number) => write!(
                f,
                "line {number} has no size: with --split and --sizes one follows the class, as in images 512 /logo.png"
            ),
            SplitFault::TooLarge => {
                f.write_str("the sizes of all lines add up to more than 18446744073709551615")
            }
            SplitFault::NoRoom(size) => write!(
                f,
                "a class has an object of {size} bytes, more than the budget"
            ),
            SplitFault::Other(fault) => write!(f, "{fault}"),
        }
    }
}

impl Error for SplitFault {}

/// Returns the exit status of a split.
/// Cost: none.
pub fn split_status(outcome: &Result<(), SplitFault>) -> u8
    ensures success { IsOk outcome.now → result ≡ 0 }
    ensures fault { IfErr outcome.now (λ f. result ≡ split_status_of f) }
{
    match outcome {
        Ok(()) => 0,
        Err(
            SplitFault::NoTime(_)
            | SplitFault::NoClass(_)
            | SplitFault::TooManyClasses(_)
            | SplitFault::NoSize(_)
            | SplitFault::TooLarge
            | SplitFault::NoRoom(_),
        ) => 6,
        Err(SplitFault::Other(fault)) => exit_status(&Err(*fault)),
    }
}
