//! One budget for two caches.
ghost use Rattle.std.specs.Prelude.{◌≡◌, ◌⊎◌, ℕ, ◌+◌, ◌*◌, ◌<◌, ◌≤◌, nat_eq, slice_index, sum, IfOk, Some};
ghost use Rattle.std.specs.Int.NonZero.{non_zero_usize_get};
ghost use Rattle.std.specs.List.{slice_get};
ghost use Rattle.clru_curve.specs.SizedCurves.{CurveBySize};
ghost use Rattle.clru_model.specs.Requests.{misses};

use clru_curve::{Class, DefaultState, NoMemory, NonZeroUsize, SizedCurve, miss_curve, split};
use std::alloc::{AllocError, Global};

/// Returns the capacities of a cache for pages and of one for images, in multiples of the step and together within the budget,
/// such that no others miss less together. At capacity 0 there is no cache, and each request misses.
pub fn room_for_each(
    alloc: Global,
    step: NonZeroUsize,
    budget: usize,
    pages: &[u64],
    images: &[u64],
) -> Result<(usize, usize), NoMemory>
    ensures within { IfOk result (λ room. room.0 + room.1 ≤ budget) }
    ensures best { IfOk result (λ room. (p i : ℕ) → p * non_zero_usize_get step + i * non_zero_usize_get step ≤ budget
        → misses nat_eq room.0 pages.now + misses nat_eq room.1 images.now
        ≤ misses nat_eq (p * non_zero_usize_get step) pages.now + misses nat_eq (i * non_zero_usize_get step) images.now) }
{
    let of_pages = miss_curve(alloc, pages, DefaultState)?;
    let of_images = miss_curve(alloc, images, DefaultState)?;
    let classes = [
        Class::new(pages.len(), &of_pages),
        Class::new(images.len(), &of_images),
    ];
    match split(alloc, step, budget, &classes) {
        Ok(room) => Ok((room[0], room[1])),
        Err(_) => Err(NoMemory),
    }
}

/// Returns the bytes of a cache for each of these curves, as `split` chooses them; that no others miss less together is a clause of
/// `split`, and none here. Each cache has room for every object that is requested of it, or gets nothing.
pub fn bytes_for_each(
    alloc: Global,
    step: NonZeroUsize,
    budget: usize,
    curves: &[SizedCurve],
) -> Result<Vec<usize>, AllocError>
    ensures within { IfOk result (λ bytes. sum bytes.items ≤ budget) }
    ensures all_or_none { IfOk result (λ bytes. (i : ℕ) (curve : CurveBySize) → slice_get curves.now i ≡ Some curve
        → (slice_index bytes.items i ≡ 0) ⊎ (curve.greatest_weight < slice_index bytes.items i)) }
{
    split(alloc, step, budget, curves)
}
