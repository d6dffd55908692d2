//! Which capacities a table by size has.
ghost use Rattle.std.specs.Prelude.{◌≡◌, ◌+◌, ◌<◌, map, nat_le, IfOk};
ghost use Rattle.std.specs.Int.NonZero.{non_zero_usize_get};
ghost use Rattle.std.specs.List.{filter};
ghost use Rattle.clru_curve.specs.SizedCurves.{misses_within};
ghost use Rattle.clru_report.specs.Capacities.{falls_from, usual_from as usual_capacities_from};
ghost use Rattle.clru_report.specs.Passes.{capacities_on, IsSettled, IsUsualOn};

use super::faithful::BySize;
use super::ratio::least_by_size;
use crate::capacities::{push_capacity, usual_capacities};
use crate::knees::{UsualTable, table_with_knees};
use clru_curve::SizedCurve;
use clru_text::Capacities;
use std::alloc::{AllocError, Allocator};
use std::num::NonZeroUsize;

/// The least capacity of a curve, which is the greatest size, or 1 if there is none.
pub(crate) fn first_capacity<A: Allocator>(curve: &SizedCurve<A>) -> usize
    requires { IsSettled curve.now }
    ensures { result ≡ 1 + curve.now.greatest_weight }
{
    // It tells that the size is below 2^64.
    let _ = curve.distinct_size();
    curve.greatest_weight() + 1
}

/// Returns the usual table of a curve, to which so much is the whole.
pub(super) fn sized_usual_table<A: Allocator + Copy>(
    alloc: A,
    curve: &SizedCurve<A>,
    whole: usize,
) -> Result<UsualTable<A>, AllocError>
    requires { IsSettled curve.now }
    ensures { IfOk result (λ t. IsUsualOn curve.now whole (map non_zero_usize_get t.capacities.items) t.knees.items) }
{
    let usual = usual_from(alloc, first_capacity(curve), curve.distinct_size())?;
    table_with_knees(alloc, &BySize(curve), whole, &usual)
}

/// The capacities for a curve, where so many requests of this size together are the whole, and its usual table has these.
pub(crate) fn sized_capacities_for<A: Allocator + Copy>(
    alloc: A,
    capacities: &Capacities<A>,
    curve: &SizedCurve<A>,
    requests: usize,
    size: usize,
    table: &[NonZeroUsize],
) -> Result<Vec<NonZeroUsize, A>, AllocError>
    requires { IsSettled curve.now }
    ensures { IfOk result (λ chosen. map non_zero_usize_get chosen.items
        ≡ capacities_on curve.now capacities.now requests size (map non_zero_usize_get table.now)) }
{
    match capacities {
        Capacities::Usual => Vec::from_slice(alloc, table),
        Capacities::Each => each_fall_by_size(alloc, curve),
        Capacities::Named(named) => Vec::from_slice(alloc, named),
        Capacities::HitRatio(ratio) => least_by_size(alloc, *ratio, false, curve, requests),
        Capacities::ByteHitRatio(ratio) => least_by_size(alloc, *ratio, true, curve, size),
    }
}

pub(super) fn usual_from<A: Allocator>(
    alloc: A,
    first: usize,
    distinct_size: usize,
) -> Result<Vec<NonZeroUsize, A>, AllocError>
    ensures { IfOk result (λ chosen. map non_zero_usize_get chosen.items ≡ usual_capacities_from first distinct_size) }
{
    let mut chosen = usual_capacities(alloc, distinct_size)?;
    chosen.retain(|capacity| capacity.get() >= first);
    Ok(chosen)
}

// The steps come by their capacities, several where more than one request begins to hit.
pub(super) fn each_fall_by_size<A: Allocator>(
    alloc: A,
    curve: &SizedCurve<A>,
) -> Result<Vec<NonZeroUsize, A>, AllocError>
    requires { IsSettled curve.now }
    ensures { IfOk result (λ chosen. map non_zero_usize_get chosen.items
        ≡ falls_from (misses_within curve.now) (1 + curve.now.greatest_weight) curve.now.distinct_size) }
{
    let mut chosen = Vec::new(alloc);
    if curve.distinct_size() == 0 {
        return Ok(chosen);
    }
    let mut last = first_capacity(curve);
    push_capacity(&mut chosen, last)?;
    for step in curve.as_slice() {
        if step.capacity > last {
            last = step.capacity;
            push_capacity(&mut chosen, last)?;
        }
    }
    Ok(chosen)
}
