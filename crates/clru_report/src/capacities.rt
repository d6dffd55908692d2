//! Which capacities a table has.
ghost use Rattle.std.specs.Prelude.{◌≡◌, ◌<◌, ◌+◌, ◌++◌, [], ◌∷◌, length, map, IfOk, OnOk};
ghost use Rattle.std.specs.Int.NonZero.{non_zero_usize_get};
ghost use Rattle.clru_curve.specs.Curves.{misses_at};
ghost use Rattle.clru_report.specs.Capacities.{capacities_of, falls, is_fall, usual};

use crate::ratio::least_by_keys;
use clru_text::{Capacities, ROUND_NUMBERS, round_at};
use std::alloc::{AllocError, Allocator};
use std::num::NonZeroUsize;

/// The capacities for a curve, which is given as its misses at 1, 2 and so on, where so many requests are the whole, and its usual
/// table has these.
pub(crate) fn capacities_for<A: Allocator + Copy>(
    alloc: A,
    capacities: &Capacities<A>,
    curve: &[usize],
    whole: usize,
    table: &[NonZeroUsize],
) -> Result<Vec<NonZeroUsize, A>, AllocError>
    ensures { IfOk result (λ chosen. map non_zero_usize_get chosen.items
        ≡ capacities_of capacities.now (misses_at curve.now) whole (length curve.now) (map non_zero_usize_get table.now)) }
{
    match capacities {
        Capacities::Usual => Vec::from_slice(alloc, table),
        Capacities::Each => each_fall(alloc, curve),
        Capacities::Named(named) => Vec::from_slice(alloc, named),
        Capacities::HitRatio(ratio) | Capacities::ByteHitRatio(ratio) => {
            least_by_keys(alloc, *ratio, curve, whole)
        }
    }
}

pub(crate) fn usual_capacities<A: Allocator>(
    alloc: A,
    distinct: usize,
) -> Result<Vec<NonZeroUsize, A>, AllocError>
    ensures { IfOk result (λ chosen. map non_zero_usize_get chosen.items ≡ usual distinct) }
{
    let mut chosen = Vec::new(alloc);
    for index in 0..ROUND_NUMBERS {
        let capacity = round_at(index);
        if capacity < distinct as u128 {
            push_capacity(&mut chosen, capacity as usize)?;
        }
    }
    if distinct > 0 {
        push_capacity(&mut chosen, distinct)?;
    }
    Ok(chosen)
}

fn each_fall<A: Allocator>(alloc: A, curve: &[usize]) -> Result<Vec<NonZeroUsize, A>, AllocError>
    ensures { IfOk result (λ chosen. map non_zero_usize_get chosen.items
        ≡ falls (misses_at curve.now) (length curve.now)) }
{
    let mut chosen = Vec::new(alloc);
    for index in 0..curve.len() {
        if falls_at(curve, index) {
            push_capacity(&mut chosen, index + 1)?;
        }
    }
    Ok(chosen)
}

// Whether the capacity after `index` has fewer misses than the one before it, or is 1.
fn falls_at(curve: &[usize], index: usize) -> bool
    requires { index < length curve.now }
    ensures { result ≡ is_fall (misses_at curve.now) (index + 1) }
{
    index == 0 || curve[index] < curve[index - 1]
}

pub(crate) fn push_capacity<A: Allocator>(
    chosen: &mut Vec<NonZeroUsize, A>,
    capacity: usize,
) -> Result<(), AllocError>
    requires { 0 < capacity }
    ensures { OnOk result (map non_zero_usize_get chosen.new.items
        ≡ map non_zero_usize_get chosen.old.items ++ capacity ∷ []) }
{
    if let Some(capacity) = NonZeroUsize::new(capacity) {
        chosen.push(capacity)?;
    }
    Ok(())
}
