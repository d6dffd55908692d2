//! The hit ratio that a capacity is to have.
ghost use Rattle.std.specs.Prelude.{◌≡◌, length, map, IfOk};
ghost use Rattle.std.specs.Int.NonZero.{non_zero_usize_get};
ghost use Rattle.clru_curve.specs.Curves.{misses_at};
ghost use Rattle.clru_report.specs.Ratios.{has_ratio as has_ratio_by, is_enough as is_enough_by, least_with};

use crate::capacities::push_capacity;
use crate::faithful::misses_by_keys;
use clru_text::Billionths;
use std::alloc::{AllocError, Allocator};
use std::num::NonZeroUsize;

const BILLION: u128 = 1_000_000_000;

/// Returns whether at least that part of the whole hits, where so many miss.
fn has_ratio(ratio: Billionths, whole: usize, missed: usize) -> bool
    ensures { result ≡ has_ratio_by ratio.number whole missed }
{
    BILLION * missed as u128 <= (BILLION - ratio.number as u128) * whole as u128
}

/// Returns whether so many misses are few enough, where no capacity has fewer than the fewest.
pub(crate) fn is_enough(ratio: Billionths, whole: usize, fewest: usize, missed: usize) -> bool
    ensures { result ≡ is_enough_by ratio.number whole fewest missed }
{
    has_ratio(ratio, whole, missed) || missed <= fewest
}

/// Returns the least capacity with the hit ratio, over the misses at 1, 2 and so on, or where none has it the least with the
/// fewest misses. An empty curve has none.
pub(crate) fn least_by_keys<A: Allocator>(
    alloc: A,
    ratio: Billionths,
    curve: &[usize],
    whole: usize,
) -> Result<Vec<NonZeroUsize, A>, AllocError>
    ensures { IfOk result (λ chosen. map non_zero_usize_get chosen.items
        ≡ least_with ratio.number whole (misses_at curve.now) 1 (length curve.now)) }
{
    let mut chosen = Vec::new(alloc);
    let fewest = misses_by_keys(curve, curve.len());
    for index in 0..curve.len() {
        if is_enough(ratio, whole, fewest, curve[index]) {
            push_capacity(&mut chosen, index + 1)?;
            return Ok(chosen);
        }
    }
    Ok(chosen)
}
