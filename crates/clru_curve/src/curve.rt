//! `MissCurve`: what a pass returns.
ghost use Rattle.std.specs.Prelude.{◌≡◌, [], length, IfOk, IsOk};
ghost use Rattle.std.specs.Int.NonZero.{non_zero_usize_get};
ghost use Rattle.clru_curve.specs.Curves.{misses_at};

use crate::pass::copied;
use clru_list::NoMemory;
use std::alloc::{Allocator, Global};
use std::marker::Model;
use std::num::NonZeroUsize;

/// The misses of a list of requests at every capacity. A clause sees it as the misses at the capacities 1, 2 and so on, up to
/// the number of distinct keys.
#[derive(Drop)]
pub struct MissCurve<A: Allocator = Global> {
    misses: Vec<usize, A>,
}

impl<A: Allocator> Model for MissCurve<A> {
    ghost use Rattle.std.specs.Prelude.{ℕ, List};

    ghost Value = { List ℕ };

    ghost view = { λ c. c.misses.items };
}

impl<A: Allocator> MissCurve<A> {
    /// Creates a curve from its misses at the capacities 1, 2 and so on, as `as_slice` lends them. They are not checked.
    /// Cost: a copy; one request for memory, and none of an empty curve.
    pub fn from_slice(alloc: A, misses: &[usize]) -> Result<Self, NoMemory>
        ensures curve { IfOk result (λ curve. curve ≡ misses.now) }
        ensures never_refused { misses.now ≡ [] → IsOk result }
    {
        Ok(MissCurve {
            misses: copied(alloc, misses)?,
        })
    }

    /// Returns the number of misses at any capacity. Where all keys have room, it stays the same.
    /// Cost: a read.
    pub fn misses(&self, capacity: NonZeroUsize) -> usize
        ensures { result ≡ misses_at self.now (non_zero_usize_get capacity) }
    {
        match self.misses.get(capacity.get() - 1) {
            Some(misses) => *misses,
            None => self.misses.last().copied().unwrap_or(0),
        }
    }

    /// Returns the number of distinct keys. From that capacity on the misses stay the same.
    /// Cost: a read.
    pub fn distinct(&self) -> usize
        ensures { result ≡ length self.now }
    {
        self.misses.len()
    }

    /// Returns the misses at the capacities 1, 2 and so on, up to the number of distinct keys.
    /// Cost: a read.
    pub fn as_slice(&self) -> &[usize]
        ensures { result.now ≡ self.now }
    {
        self.misses.as_slice()
    }

    pub(crate) fn from_misses(misses: Vec<usize, A>) -> Self
        ensures { result ≡ misses.items }
    {
        MissCurve { misses }
    }
}
