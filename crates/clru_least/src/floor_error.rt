//! Why a `FloorPass` did not take a request.
ghost use Rattle.std.specs.Prelude.{Some};
ghost use Rattle.clru_least.specs.FloorErrors.{floor_request_error_text};

use std::error::Error;
use std::fmt;

/// Why a `FloorPass` did not take a request. The pass is as before.
#[derive(Clone, Copy, Debug, PartialEq, Eq)]
pub enum FloorRequestError {
    /// Memory was refused.
    NoMemory,

    /// The sizes of all requests, with this one, pass `usize::MAX`.
    TooLarge,
}

impl fmt::Display for FloorRequestError {
    ghost output = { λ e. Some (floor_request_error_text e) };

    fn fmt<W: fmt::Write>(&self, f: &mut fmt::Formatter<W>) -> fmt::Result {
        match self {
            FloorRequestError::NoMemory => f.write_str("out of memory"),
            FloorRequestError::TooLarge => {
                f.write_str("the sizes of the requests are too large for a number")
            }
        }
    }
}

impl Error for FloorRequestError {}
