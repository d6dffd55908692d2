//! The codes that calls return: numbers, because no enum crosses to C. `include/clru.h` has the same.

/// All was written.
pub(crate) const OK: u32 = 0;
/// A capacity or a room was 0.
pub(crate) const NO_CAPACITY: u32 = 1;
/// An array was not as long as it has to be.
pub(crate) const WRONG_LENGTH: u32 = 2;
/// Memory was refused.
pub(crate) const NO_MEMORY: u32 = 3;
/// The sizes of all requests pass `usize::MAX`.
pub(crate) const TOO_LARGE: u32 = 4;
/// A capacity was less than the greatest size.
pub(crate) const TOO_SMALL: u32 = 5;
