//! Callers that are proved over the contracts of curves and the laws alone.
ghost use Rattle.std.specs.Prelude.{◌≡◌, ℕ, ◌+◌, ◌*◌, ◌≤◌, length, reverse, nat_eq, IfSome};
ghost use Rattle.std.specs.Int.NonZero.{non_zero_usize_get};
ghost use Rattle.std.specs.List.{All};
ghost use Rattle.clru_model.specs.ByPosition.{IsFirstAt};
ghost use Rattle.clru_model.specs.Requests.{distinct, misses};
ghost use Rattle.clru_model.specs.Sizes.{misses_by_size, missed_size};
ghost use Rattle.clru_model.specs.SpansByPosition.{IsSumOf, size_at};
ghost use Rattle.clru_curve.specs.SizedCurves.{size_of_all};

use clru_curve::{
    DefaultState, NonZeroUsize, WeightScale, law_bounds, law_spans_by_position, miss_curve,
    sized_curve,
};
use clru_model::law_growth;
use std::alloc::Global;

/// Returns the number of requests that hit; first requests miss. `None` means that memory is refused.
pub fn hits_at(alloc: Global, pages: &[usize], capacity: NonZeroUsize) -> Option<usize>
    ensures hits { IfSome result (λ n. n + misses nat_eq (non_zero_usize_get capacity) pages.now ≡ length pages.now) }
    ensures not_first { IfSome result (λ n. n + distinct nat_eq (reverse pages.now) ≤ length pages.now) }
{
    law_bounds::<usize>();
    match miss_curve(alloc, pages, DefaultState) {
        Ok(curve) => Some(pages.len() - curve.misses(capacity)),
        Err(_) => None,
    }
}

/// Returns how many misses more room saves. `None` is for want of memory.
pub fn misses_saved(
    alloc: Global,
    pages: &[usize],
    room: NonZeroUsize,
    more: NonZeroUsize,
) -> Option<usize>
    requires { non_zero_usize_get room ≤ non_zero_usize_get more }
    ensures { IfSome result (λ n. n + misses nat_eq (non_zero_usize_get more) pages.now
        ≡ misses nat_eq (non_zero_usize_get room) pages.now) }
{
    law_growth::<usize>();
    match miss_curve(alloc, pages, DefaultState) {
        Ok(curve) => Some(curve.misses(room) - curve.misses(more)),
        Err(_) => None,
    }
}

/// Returns the misses of pages that weigh nothing. If pages weigh something, as much room misses no fewer, and room for so many
/// of the greatest page no more. `None` means that memory is refused.
pub fn misses_between(alloc: Global, pages: &[usize], capacity: NonZeroUsize) -> Option<usize>
    ensures below { (weight : ℕ → ℕ)
        → IfSome result (λ n. n ≤ misses_by_size nat_eq weight (non_zero_usize_get capacity) pages.now) }
    ensures above { (weight : ℕ → ℕ) (g : ℕ) → All (λ page. weight page ≤ g) pages.now
        → IfSome result (λ n. misses_by_size nat_eq weight ((g + 1) * non_zero_usize_get capacity) pages.now ≤ n) }
{
    law_bounds::<usize>();
    match miss_curve(alloc, pages, DefaultState) {
        Ok(curve) => Some(curve.misses(capacity)),
        Err(_) => None,
    }
}

/// Returns the size of the requests that hit, or `None` if the pass is refused or the capacity is not above each weight.
pub fn size_hit<W: WeightScale<usize, ()> + Drop>(
    alloc: Global,
    pages: &[usize],
    scale: W,
    capacity: NonZeroUsize,
) -> Option<usize>
    ensures { IfSome result (λ n.
        n + missed_size nat_eq (λ page. W.weight scale page tt) (non_zero_usize_get capacity) pages.now
        ≡ size_of_all (λ page. W.weight scale page tt) pages.now) }
{
    law_bounds::<usize>();
    let Ok(curve) = sized_curve(alloc, pages, scale, DefaultState) else {
        return None;
    };
    match curve.missed_size(capacity) {
        Some(missed) => Some(curve.size() - missed),
        None => None,
    }
}

/// Returns the size of all pages, each by its first request, or `None` if the pass is refused.
pub fn size_of_pages<W: WeightScale<usize, ()> + Drop>(
    alloc: Global,
    pages: &[usize],
    scale: W,
) -> Option<usize>
    ensures { IfSome result (λ n. IsSumOf (IsFirstAt nat_eq pages.now)
        (size_at (λ page. W.weight scale page tt) pages.now) n) }
{
    law_spans_by_position::<usize>();
    match sized_curve(alloc, pages, scale, DefaultState) {
        Ok(curve) => Some(curve.distinct_size()),
        Err(_) => None,
    }
}
