//! The least size with a hit ratio, of the requests or of their bytes.
ghost use Rattle.std.specs.Prelude.{◌≡◌, ◌+◌, ◌<◌, ◌≤◌, [], ◌∷◌, Bool, length, map, IfOk};
ghost use Rattle.std.specs.Int.NonZero.{non_zero_usize_get};
ghost use Rattle.clru_report.specs.Passes.{IsSettled};
ghost use Rattle.clru_report.specs.Ratios.{least_with};
ghost use Rattle.clru_report.specs.Scans.{missing_after as missing_by, missing_within};
ghost use Rattle.clru_report.specs.SizedAfterPasses.{missing_left, StaysBetween};

use super::behind::{missed_behind, misses_behind};
use super::capacities::{each_fall_by_size, first_capacity};
use super::faithful::missed_after;
use crate::capacities::push_capacity;
use crate::ratio::is_enough;
use clru_curve::SizedCurve;
use clru_text::Billionths;
use std::alloc::{AllocError, Allocator};
use std::num::NonZeroUsize;

/// Returns the least capacity with the hit ratio, of the bytes or of the requests, or where none has it the least with the fewest
/// misses. A curve of no requests has none.
pub(super) fn least_by_size<A: Allocator>(
    alloc: A,
    ratio: Billionths,
    bytes: bool,
    curve: &SizedCurve<A>,
    whole: usize,
) -> Result<Vec<NonZeroUsize, A>, AllocError>
    requires { IsSettled curve.now }
    ensures { IfOk result (λ chosen. map non_zero_usize_get chosen.items ≡ least_with ratio.number whole
        (missing_within bytes curve.now) (1 + curve.now.greatest_weight) curve.now.distinct_size) }
{
    let mut chosen = Vec::new(alloc);
    if curve.distinct_size() > 0 {
        push_capacity(&mut chosen, least_on(ratio, bytes, curve, whole))?;
    }
    Ok(chosen)
}

// From one step up to the next the misses stay the same, so the least is the first capacity, or that of a step.
fn least_on<A: Allocator>(
    ratio: Billionths,
    bytes: bool,
    curve: &SizedCurve<A>,
    whole: usize,
) -> usize
    requires settled { IsSettled curve.now }
    requires some { 0 < curve.now.distinct_size }
    ensures least { least_with ratio.number whole (missing_within bytes curve.now) (1 + curve.now.greatest_weight)
        curve.now.distinct_size ≡ result ∷ [] }
    ensures positive { 0 < result }
{
    let steps = curve.as_slice();
    let fewest = missing_after(bytes, curve, steps.len());
    let mut last = first_capacity(curve);
    for index in 0..steps.len() {
        let next = steps[index].capacity;
        if next > last {
            if is_enough(ratio, whole, fewest, missing_after(bytes, curve, index)) {
                return last;
            }
            last = next;
        }
    }
    last
}

// What misses after so many steps: requests, or their bytes.
fn missing_after<A: Allocator>(bytes: bool, curve: &SizedCurve<A>, hits: usize) -> usize
    requires { hits ≤ length curve.now.steps }
    ensures { result ≡ missing_by bytes curve.now hits }
{
    if bytes {
        missed_after(curve, hits)
    } else {
        // It tells that there are no more steps than requests.
        let _ = curve.as_slice();
        curve.requests() - hits
    }
}

/// Returns the same of what the head leaves of a curve: where it falls, the curve does, so the least is a capacity of a fall.
pub(super) fn least_behind<A: Allocator + Copy>(
    alloc: A,
    ratio: Billionths,
    bytes: bool,
    curve: &SizedCurve<A>,
    head: &SizedCurve<A>,
    whole: usize,
) -> Result<Vec<NonZeroUsize, A>, AllocError>
    requires settled { IsSettled curve.now }
    requires stays { StaysBetween curve.now head.now }
    ensures { IfOk result (λ chosen. map non_zero_usize_get chosen.items ≡ least_with ratio.number whole
        (missing_left curve.now head.now bytes) (1 + curve.now.greatest_weight) curve.now.distinct_size) }
{
    // It tells that there are no more steps than requests.
    let _ = curve.as_slice();
    let each = each_fall_by_size(alloc, curve)?;
    let fewest = missing_behind(bytes, curve, head, curve.distinct_size());
    let mut chosen = Vec::new(alloc);
    for capacity in &each {
        let missed = missing_behind(bytes, curve, head, capacity.get());
        if is_enough(ratio, whole, fewest, missed) {
            chosen.push(*capacity)?;
            return Ok(chosen);
        }
    }
    Ok(chosen)
}

// What misses at a capacity without that of the head: requests, or their bytes.
fn missing_behind<A: Allocator>(
    bytes: bool,
    curve: &SizedCurve<A>,
    head: &SizedCurve<A>,
    capacity: usize,
) -> usize
    ensures { result ≡ missing_left curve.now head.now bytes capacity }
{
    if bytes {
        missed_behind(curve, head, capacity)
    } else {
        misses_behind(curve, head, capacity)
    }
}
