//! A step of a curve by size.

/// A capacity at which the misses of a curve by size fall by one request, with what they come to.
#[derive(Clone, Copy, Debug, PartialEq, Eq)]
pub struct Step {
    /// The least capacity at which the request hits.
    pub capacity: usize,

    /// The size that is missed from there up to the next step.
    pub missed_size: usize,
}
