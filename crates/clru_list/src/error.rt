//! The errors of calls that may ask for memory.
ghost use Rattle.std.specs.Prelude.{Some, codes};
ghost use Rattle.clru_list.specs.Errors.{push_error_debug, push_error_text};

use std::alloc::AllocError;
use std::error::Error;
use std::fmt;

/// Memory was refused.
#[derive(Clone, Copy, Debug, PartialEq, Eq)]
pub struct NoMemory;

impl fmt::Display for NoMemory {
    ghost output = { λ _. Some (codes "out of memory") };

    fn fmt<W: fmt::Write>(&self, f: &mut fmt::Formatter<W>) -> fmt::Result {
        f.write_str("out of memory")
    }
}

impl Error for NoMemory {}

/// Lets `?` turn it into std's own refusal of memory.
impl From<NoMemory> for AllocError {
    fn from(_refused: NoMemory) -> AllocError {
        AllocError
    }
}

/// Why a push was refused, with the item. The list is as it was.
#[derive(Drop, PartialEq, Eq)]
pub enum PushError<T> {
    /// The length is the capacity.
    Full(T),

    /// Memory for one more item was refused.
    NoMemory(T),
}

// No item is printed, so that each type of item makes an error.
impl<T> fmt::Debug for PushError<T> {
    ghost debug_output = { λ e. Some (push_error_debug e) };

    fn fmt<W: fmt::Write>(&self, f: &mut fmt::Formatter<W>) -> fmt::Result {
        match self {
            PushError::Full(_) => f.write_str("Full(..)"),
            PushError::NoMemory(_) => f.write_str("NoMemory(..)"),
        }
    }
}

impl<T> fmt::Display for PushError<T> {
    ghost output = { λ e. Some (push_error_text e) };

    fn fmt<W: fmt::Write>(&self, f: &mut fmt::Formatter<W>) -> fmt::Result {
        match self {
            PushError::Full(_) => f.write_str("the list is full"),
            PushError::NoMemory(_) => f.write_str("out of memory"),
        }
    }
}

impl<T: Drop> Error for PushError<T> {}
