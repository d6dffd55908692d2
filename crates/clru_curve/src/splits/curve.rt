//! `Curve`: what a cache misses at every capacity.
ghost use Rattle.std.specs.Prelude.{◌≡◌, ℕ, ◌+◌, ◌*◌, ◌^◌, ◌<◌, ◌≤◌, Option, None, length, slice_index_or, IfOk};
ghost use Rattle.std.specs.Int.NonZero.{non_zero_usize_get};
ghost use Rattle.clru_curve.specs.Splits.{missed_at};

use std::alloc::{AllocError, Allocator};
use std::num::NonZeroUsize;

/// What a cache misses at every capacity, in requests or in size.
pub trait Curve {
    // What misses with no cache.
    ghost all: { Self → ℕ };

    // What misses at a capacity, if the curve has a number there.
    ghost missed: { Self → ℕ → Option ℕ };

    /// Returns what misses with no cache: all requests, or their size.
    fn all(&self) -> usize
        ensures { result ≡ all self.now };

    /// Returns what misses at the capacity, or `None` if the curve has no number there.
    fn missed(&self, capacity: NonZeroUsize) -> Option<usize>
        ensures { result ≡ missed self.now (non_zero_usize_get capacity) };
}

/// What misses at a capacity that may be 0.
fn missed_at<C: Curve>(curve: &C, capacity: usize) -> Option<usize>
    ensures { result ≡ missed_at C.all C.missed curve.now capacity }
{
    match NonZeroUsize::new(capacity) {
        Some(capacity) => curve.missed(capacity),
        None => Some(curve.all()),
    }
}

/// What misses at each number of units from 0 on, so many numbers.
pub(crate) fn prices<C: Curve, A: Allocator>(
    alloc: A,
    step: usize,
    width: usize,
    curve: &C,
) -> Result<Vec<Option<usize>, A>, AllocError>
    requires fits { width * step < 2 ^ 64 + step }
    ensures length { IfOk result (λ ps. length ps.items ≡ width) }
    ensures prices { IfOk result (λ ps. (x : ℕ) → x < width
        → slice_index_or ps.items x None ≡ missed_at C.all C.missed curve.now (x * step)) }
{
    let mut prices = Vec::new(alloc);
    for units in 0..width {
        prices.push(missed_at(curve, units * step))?;
    }
    Ok(prices)
}
