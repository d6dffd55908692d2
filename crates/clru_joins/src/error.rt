//! Why parts are not joined.

/// Why parts are not joined.
#[derive(Clone, Copy, Debug, PartialEq, Eq)]
pub enum JoinError {
    /// A request for memory was refused.
    Memory,
    /// A part is of a sample of the keys.
    Sampled,
    /// Together there are more requests or bytes than `usize::MAX`.
    TooMany,
}
