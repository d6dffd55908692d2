//! `SizedCurve`: what a pass over keys with sizes returns.
ghost use Rattle.std.specs.Prelude.{◌≡◌, ◌<◌, ◌≤◌, nat_le, length, IsNone, Some};
ghost use Rattle.std.specs.Int.NonZero.{non_zero_usize_get};
ghost use Rattle.std.specs.List.{sum_by};
ghost use Rattle.std.specs.List.Sorted.{IsNonDecreasingBy};
ghost use Rattle.clru_curve.specs.SizedCurves.{misses_within, missed_size_within, hits_within, IsCurveOfHits, IsFalling, IsMissed};

use crate::sized::step::Step;
use std::alloc::{Allocator, Global};
use std::marker::Model;
use std::num::NonZeroUsize;

/// The misses of a list of requests, and the size that they miss, at every capacity above the greatest requested weight. A
/// capacity is a number of bytes, say, instead of entries.
///
/// At lesser capacities a cache refuses the puts of some keys, and may miss others more or less often than a curve would say.
/// The curve therefore says nothing there.
#[derive(Drop)]
pub struct SizedCurve<A: Allocator = Global> {
    steps: Vec<Step, A>,
    requests: usize,
    size: usize,
    distinct_size: usize,
    greatest_weight: usize,
}

impl<A: Allocator> Model for SizedCurve<A> {
    ghost use Rattle.std.specs.Prelude.{ℕ, List, length, ◌≤◌};
    ghost use Rattle.std.specs.List.Sorted.{IsNonDecreasingBy};
    ghost use Rattle.clru_curve.specs.SizedCurves.{CurveBySize, IsFalling, curve_by_size, curve_by_size_code};

    ghost Value = { CurveBySize };

    ghost coded = { curve_by_size_code };

    ghost view = { λ c. curve_by_size c.steps.items c.requests c.size c.distinct_size c.greatest_weight };

    ghost invariant = { λ c. IsNonDecreasingBy (λ s. s.capacity) c.steps.items × (length c.steps.items ≤ c.requests)
        × IsFalling c.size c.steps.items };
}

impl<A: Allocator> SizedCurve<A> {
    /// Returns the number of misses at the capacity, or `None` if that is not above the greatest weight.
    /// Cost: steps that grow as the logarithm of the number of requests.
    pub fn misses(&self, capacity: NonZeroUsize) -> Option<usize>
        ensures refused { non_zero_usize_get capacity ≤ self.now.greatest_weight → IsNone result }
        ensures answer { self.now.greatest_weight < non_zero_usize_get capacity
            → result ≡ Some (misses_within self.now (non_zero_usize_get capacity)) }
    {
        if capacity.get() <= self.greatest_weight {
            return None;
        }
        Some(self.requests - hits_at(&self.steps, capacity.get()))
    }

    /// Returns the size of the requests that miss at the capacity, or `None` if that is not above the greatest weight.
    /// Cost: steps that grow as the logarithm of the number of requests.
    pub fn missed_size(&self, capacity: NonZeroUsize) -> Option<usize>
        ensures refused { non_zero_usize_get capacity ≤ self.now.greatest_weight → IsNone result }
        ensures answer { self.now.greatest_weight < non_zero_usize_get capacity
            → result ≡ Some (missed_size_within self.now (non_zero_usize_get capacity)) }
    {
        if self.greatest_weight >= capacity.get() {
            return None;
        }
        match hits_at(&self.steps, capacity.get()) {
            0 => Some(self.size),
            hits => Some(self.steps[hits - 1].missed_size),
        }
    }

    /// Returns the number of requests.
    /// Cost: a read.
    pub fn requests(&self) -> usize
        ensures { result ≡ self.now.requests }
    {
        self.requests
    }

    /// Returns the size of all requests together.
    /// Cost: a read.
    pub fn size(&self) -> usize
        ensures { result ≡ self.now.size }
    {
        self.size
    }

    /// Returns the size of the distinct keys together: from that capacity on the misses stay the same.
    /// Cost: a read.
    pub fn distinct_size(&self) -> usize
        ensures { result ≡ self.now.distinct_size }
    {
        self.distinct_size
    }

    /// Returns the greatest weight that was requested, or 0 if there were no requests.
    /// Cost: a read.
    pub fn greatest_weight(&self) -> usize
        ensures { result ≡ self.now.greatest_weight }
    {
        self.greatest_weight
    }

    /// Returns the steps, the least capacity first. There is one for each request that can hit at all; if a capacity comes
    /// several times, its last one counts. A step that is not above the greatest weight says nothing: there a cache refuses puts.
    /// What misses after a step is never more than after the one before, nor than the size of all requests.
    /// Cost: a read.
    pub fn as_slice(&self) -> &[Step]
        ensures steps { result.now ≡ self.now.steps }
        ensures rising { IsNonDecreasingBy (λ s. s.capacity) result.now }
        ensures falling { IsFalling self.now.size result.now }
        ensures few { length result.now ≤ self.now.requests }
    {
        self.steps.as_slice()
    }

    pub(crate) fn from_hits(
        hits: Vec<Step, A>,
        requests: usize,
        size: usize,
        distinct_size: usize,
        greatest_weight: usize,
    ) -> Self
        requires few { length hits.items ≤ requests }
        requires within { sum_by (λ h. h.missed_size) hits.items ≤ size }
        ensures { IsCurveOfHits hits.items requests size distinct_size greatest_weight result }
    {
        let mut steps = hits;
        steps.sort_unstable_by_key(|hit| hit.capacity);
        miss_sizes(&mut steps, size);
        SizedCurve {
            steps,
            requests,
            size,
            distinct_size,
            greatest_weight,
        }
    }
}

/// How many steps there are up to the capacity.
fn hits_at(steps: &[Step], capacity: usize) -> usize
    requires { IsNonDecreasingBy (λ s. s.capacity) steps.now }
    ensures { result ≡ hits_within capacity steps.now }
{
    steps.partition_point(
        |step: &Step| -> bool
            ensures { result ≡ nat_le step.now.capacity capacity }
        { step.capacity <= capacity },
    )
}

/// Turns the size of each hit, which stands there as missed, into the size that misses where it hits, and those before it.
fn miss_sizes(hits: &mut [Step], size: usize)
    requires within { sum_by (λ h. h.missed_size) hits.old ≤ size }
    ensures { IsMissed size hits.old hits.new }
{
    let mut missed = size;
    for hit in hits.iter_mut() {
        missed -= hit.missed_size;
        *hit = Step {
            capacity: hit.capacity,
            missed_size: missed,
        };
    }
}
