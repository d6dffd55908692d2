//! Why a request of a key with a size was not taken.
ghost use Rattle.std.specs.Prelude.{Some};
ghost use Rattle.clru_curve.specs.Errors.{sized_request_error_debug, sized_request_error_text};

use std::error::Error;
use std::fmt;

/// Why a pass by size did not take a request. The key comes back, or `()` from a `SizedPositionPass`, and the pass is as before.
#[derive(Drop, PartialEq, Eq)]
pub enum SizedRequestError<K> {
    /// Memory was refused.
    NoMemory(K),

    /// The sizes of all requests, with this one, pass `usize::MAX`.
    TooLarge(K),
}

// No key is printed, so that each type of them makes an error.
impl<K> fmt::Debug for SizedRequestError<K> {
    ghost debug_output = { λ e. Some (sized_request_error_debug e) };

    fn fmt<W: fmt::Write>(&self, f: &mut fmt::Formatter<W>) -> fmt::Result {
        match self {
            SizedRequestError::NoMemory(_) => f.write_str("NoMemory(..)"),
            SizedRequestError::TooLarge(_) => f.write_str("TooLarge(..)"),
        }
    }
}

impl<K> fmt::Display for SizedRequestError<K> {
    ghost output = { λ e. Some (sized_request_error_text e) };

    fn fmt<W: fmt::Write>(&self, f: &mut fmt::Formatter<W>) -> fmt::Result {
        match self {
            SizedRequestError::NoMemory(_) => f.write_str("out of memory"),
            SizedRequestError::TooLarge(_) => {
                f.write_str("the sizes of the requests are too large for a number")
            }
        }
    }
}

impl<K: Drop> Error for SizedRequestError<K> {}
