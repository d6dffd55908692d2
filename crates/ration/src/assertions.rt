//! What the crates of tests share: the assertion, as a call, what `{:?}` prints, and capacities. std's `assert_eq!` writes the
//! comparison and the message out wherever it stands, and each copy is proved; a call is proved in a fifth of the time.
ghost use Rattle.std.specs.Prelude.{◌≡◌, IfOk, IsErr};
ghost use Rattle.std.specs.Int.NonZero.{non_zero_usize_get};

use std::alloc::{AllocError, Global};
use std::fmt::Debug;
use std::num::NonZeroUsize;

/// Asserts that two values are equal. It takes both, which have one type. A third value stands in the message of a failure,
/// as `{:?}` prints it. The calling crate has the functions that this calls, in its module `asserts`: they may end the process, so
/// they have no place in a library.
#[macro_export]
macro_rules! equal {
    ($rt:expr; $left:expr, $right:expr $(,)?) => {
        crate::asserts::equal(&$rt, $left, $right)
    };
    ($rt:expr; $left:expr, $right:expr, $of:expr $(,)?) => {
        crate::asserts::equal_of(&$rt, $left, $right, $of)
    };
}

/// Returns whether `{:?}` prints the text.
pub fn shows(alloc: Global, value: &impl Debug, text: &str) -> Result<bool, AllocError> {
    let printed = format!(in alloc; "{value:?}")?;
    Ok(printed.as_str() == text)
}

/// Returns a capacity, or fails the test if it is 0.
pub fn capacity_of(n: usize) -> Result<NonZeroUsize, &'static str>
    ensures capacity { IfOk result (λ c. non_zero_usize_get c ≡ n) }
    ensures refused { IsErr result → n ≡ 0 }
{
    NonZeroUsize::new(n).ok_or("a capacity is no 0")
}
