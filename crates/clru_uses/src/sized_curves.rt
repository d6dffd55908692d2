//! What misses at every capacity in bytes.
ghost use Rattle.std.specs.Prelude.{◌≡◌, ℕ, ◌-◌, ◌≤◌, ◌↔◌, List, nat_eq, reverse, slice_index_or, IfOk, IfSome, IsNone};
ghost use Rattle.std.specs.Int.NonZero.{non_zero_usize_get};
ghost use Rattle.clru_curve.specs.SizedCurves.{IsSizedCurveOf, greatest_of};
ghost use Rattle.clru_model.specs.SizedSchedule.{IsCompetitiveBySize, IsCompetitiveBySizeFromAnyStart};
ghost use Rattle.clru_model.specs.Sizes.{SameWeights, missed_size};

use clru::law_size_bound;
use clru_curve::{
    DefaultState, NonZeroUsize, SizedCurve, SizedRequestError, WeightScale, sized_curve,
};
use std::alloc::Global;

/// How many bytes each file has, by its number. An empty one counts as one byte, and so does one that is not listed.
#[derive(Clone, Copy, Drop)]
pub struct FileSizes<'a> {
    pub bytes: &'a [usize],
}

impl WeightScale<usize, ()> for FileSizes<'_> {
    ghost weight = { λ sizes file _. slice_index_or sizes.bytes.now file 1 - 1 };

    fn weight(&self, file: &usize, _value: &()) -> usize {
        match self.bytes.get(*file) {
            Some(bytes) => bytes.saturating_sub(1),
            None => 0,
        }
    }
}

/// Returns the bytes that a cache of so many bytes misses, which starts empty and is sent the requests for files of these
/// sizes, or `None` if it has no room for the greatest of them.
pub fn missed_bytes(
    alloc: Global,
    requests: &[usize],
    bytes: &[usize],
    capacity: NonZeroUsize,
) -> Result<Option<usize>, SizedRequestError<usize>>
    ensures missed { let weight = λ (file : ℕ). slice_index_or bytes.now file 1 - 1 in
        IfOk result (λ answer. IfSome answer (λ n.
        n ≡ missed_size nat_eq weight (non_zero_usize_get capacity) requests.now)) }
    ensures too_small { let weight = λ (file : ℕ). slice_index_or bytes.now file 1 - 1 in
        IfOk result (λ answer. IsNone answer ↔ (non_zero_usize_get capacity ≤ greatest_of weight (reverse requests.now))) }
{
    let curve = sized_curve(alloc, requests, FileSizes { bytes }, DefaultState)?;
    Ok(curve.missed_size(capacity))
}

/// Returns the size that a cache of the capacity misses, by a curve of its requests. It keeps the competitive bound by size at
/// every capacity. `None` is for a capacity that is not above each weight.
pub fn size_within_bound<K: Eq>(curve: &SizedCurve, capacity: NonZeroUsize) -> Option<usize>
    ensures bound { (weight : K → ℕ) (requests : List K) → SameWeights K.eq weight
        → IsSizedCurveOf K.eq weight requests curve.now
        → IfSome result (λ n. IsCompetitiveBySize K.eq weight (non_zero_usize_get capacity) requests n) }
    ensures bound_any_start { (weight : K → ℕ) (requests : List K) → SameWeights K.eq weight
        → IsSizedCurveOf K.eq weight requests curve.now
        → IfSome result (λ n. IsCompetitiveBySizeFromAnyStart K.eq weight (non_zero_usize_get capacity) requests n) }
{
    law_size_bound::<K, ()>();
    curve.missed_size(capacity)
}
