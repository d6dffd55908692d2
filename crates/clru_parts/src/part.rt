//! What is known of a part of a log, and why its text is refused.
use std::alloc::{Allocator, Global};

/// What was counted.
#[derive(Clone, Copy)]
pub struct Counts {
    /// One key in so many was kept: 1 where all were.
    pub one_in: usize,

    /// How many requests and bytes the part has.
    pub requests: usize,
    pub bytes: usize,
}

/// What is known of a part of a log.
#[derive(Drop)]
pub struct Part<A: Allocator = Global> {
    pub counts: Counts,

    /// The first request for each distinct line, in order, as lines with their newlines.
    pub firsts: Vec<u8, A>,

    /// The latest request for each distinct line, in order.
    pub lasts: Vec<u8, A>,

    /// The misses at each capacity from 1 on.
    pub curve: Vec<usize, A>,
}

/// Why no part was read.
#[derive(Clone, Copy, Debug, PartialEq, Eq)]
pub enum PartError {
    /// A request for memory was refused.
    Memory,
    /// The text begins otherwise than a part of this version.
    Version,
    /// The text ends before the part does.
    Short,
    /// The text differs from what was written.
    Changed,
}
