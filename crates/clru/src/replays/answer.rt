//! What a replay returns.

use std::alloc::{Allocator, Global};

/// Which requests of a replay hit.
#[derive(Debug, Drop)]
pub struct Replay<A: Allocator = Global> {
    /// Whether each request hit, in order.
    pub marks: Vec<bool, A>,

    /// How many requests missed.
    pub misses: usize,
}
