//! What the first lines leave of a curve by size: its table, its capacities and its rows.
ghost use Rattle.std.specs.Prelude.{◌≡◌, ℕ, ◌+◌, ◌-◌, List, Option, None, map, IfNone, IfOk, IfSome};
ghost use Rattle.std.specs.Int.NonZero.{non_zero_usize_get};
ghost use Rattle.clru_curve.specs.SizedCurves.{CurveBySize, misses_within, missed_size_within};
ghost use Rattle.clru_report.specs.Capacities.{falls_from};
ghost use Rattle.clru_report.specs.Faithful.{IsFurthest, IsNearLine, point_at};
ghost use Rattle.clru_report.specs.Passes.{AreRowsOf, IsSettled};
ghost use Rattle.clru_report.specs.SizedAfterPasses.{AreRowsLeft, capacities_left, is_fall_left, IsUsualLeft, missed_left, misses_left, StaysBetween};
ghost use Rattle.clru_report.specs.SizedTables.{capacity_of_sized_row};
ghost use Rattle.clru_report.specs.declared.sized.floors.Floors.{Floors};

use super::capacities::{each_fall_by_size, first_capacity, usual_from};
use super::faithful::{further_on, missed_after, steps_up_to};
use super::ratio::least_behind;
use super::rows::SizedRow;
use super::sample::Totals;
use crate::faithful::{Curve, Point, if_far};
use crate::knees::{UsualTable, table_with_knees};
use clru_curve::SizedCurve;
use clru_text::Capacities;
use std::alloc::{AllocError, Allocator};
use std::num::NonZeroUsize;

/// The curve of all lines, and that of the first ones.
#[derive(Drop)]
struct Behind<'a, A: Allocator> {
    curve: &'a SizedCurve<A>,
    head: &'a SizedCurve<A>,

    ghost stays: { StaysBetween curve.now head.now },
}

impl<'a, A: Allocator> Curve for Behind<'a, A> {
    ghost misses = { λ two. missed_left two.curve.now two.head.now };

    fn point_of(&self, capacity: usize) -> Point {
        point_behind(self.curve, self.head, capacity)
    }

    fn furthest(&self, whole: usize, a: usize, b: usize) -> Option<usize> {
        furthest_behind(self.curve, self.head, whole, a, b)
    }
}

/// Returns the misses at a capacity.
pub(crate) fn misses_at<A: Allocator>(curve: &SizedCurve<A>, capacity: usize) -> usize
    ensures { result ≡ misses_within curve.now capacity }
{
    let hits = steps_up_to(curve.as_slice(), capacity);
    curve.requests().saturating_sub(hits)
}

/// Returns their size.
pub(crate) fn missed_size_at<A: Allocator>(curve: &SizedCurve<A>, capacity: usize) -> usize
    ensures { result ≡ missed_size_within curve.now capacity }
{
    let hits = steps_up_to(curve.as_slice(), capacity);
    missed_after(curve, hits)
}

fn point_behind<A: Allocator>(curve: &SizedCurve<A>, head: &SizedCurve<A>, capacity: usize) -> Point
    ensures { result ≡ point_at (missed_left curve.now head.now) capacity }
{
    Point {
        capacity,
        misses: missed_behind(curve, head, capacity),
    }
}

/// Returns the size that misses at a capacity, without that of the head.
pub(crate) fn missed_behind<A: Allocator>(
    curve: &SizedCurve<A>,
    head: &SizedCurve<A>,
    capacity: usize,
) -> usize
    ensures { result ≡ missed_left curve.now head.now capacity }
{
    missed_size_at(curve, capacity).saturating_sub(missed_size_at(head, capacity))
}

// From one step of the curve up to the next what is left stays the same, as the curve does.
fn furthest_behind<A: Allocator>(
    curve: &SizedCurve<A>,
    head: &SizedCurve<A>,
    whole: usize,
    a: usize,
    b: usize,
) -> Option<usize>
    requires { StaysBetween curve.now head.now }
    ensures found { IfSome result (λ x. IsFurthest (missed_left curve.now head.now) whole a b x) }
    ensures none { IfNone result (IsNearLine (missed_left curve.now head.now) whole a b) }
{
    if b <= a {
        return None;
    }
    let start = point_behind(curve, head, a);
    let end = point_behind(curve, head, b);
    let steps = curve.as_slice();
    let from = steps_up_to(steps, a);
    let to = steps_up_to(steps, b - 1);
    let mut last = a;
    let mut best = a;
    let mut most = 0;
    for index in from..to {
        let next = steps[index].capacity;
        if next > last {
            let misses = missed_behind(curve, head, last);
            let found = further_on(start, end, last, next, misses, best, most);
            last = next;
            best = found.0;
            most = found.1;
        }
    }
    let misses = missed_behind(curve, head, last);
    let found = further_on(start, end, last, b, misses, best, most);
    if_far(whole, a, b, found.0, found.1)
}

/// Returns the usual table of what the head leaves, to which so much is the whole.
pub(super) fn usual_table_behind<A: Allocator + Copy>(
    alloc: A,
    curve: &SizedCurve<A>,
    head: &SizedCurve<A>,
    whole: usize,
) -> Result<UsualTable<A>, AllocError>
    requires settled { IsSettled curve.now }
    requires stays { StaysBetween curve.now head.now }
    ensures { IfOk result (λ t. IsUsualLeft curve.now head.now whole (map non_zero_usize_get t.capacities.items) t.knees.items) }
{
    let usual = usual_from(alloc, first_capacity(curve), curve.distinct_size())?;
    table_with_knees(alloc, &Behind { curve, head }, whole, &usual)
}

/// Returns the capacities that are asked for, where these are counted, and the usual table has these.
pub(super) fn capacities_behind<A: Allocator + Copy>(
    alloc: A,
    capacities: &Capacities<A>,
    curve: &SizedCurve<A>,
    head: &SizedCurve<A>,
    totals: Totals,
    table: &[NonZeroUsize],
) -> Result<Vec<NonZeroUsize, A>, AllocError>
    requires settled { IsSettled curve.now }
    requires stays { StaysBetween curve.now head.now }
    ensures { IfOk result (λ chosen. map non_zero_usize_get chosen.items
        ≡ capacities_left curve.now head.now capacities.now totals.requests totals.size (map non_zero_usize_get table.now)) }
{
    match capacities {
        Capacities::Usual => Vec::from_slice(alloc, table),
        Capacities::Each => each_fall_behind(alloc, curve, head),
        Capacities::Named(named) => Vec::from_slice(alloc, named),
        Capacities::HitRatio(ratio) => {
            least_behind(alloc, *ratio, false, curve, head, totals.requests)
        }
        Capacities::ByteHitRatio(ratio) => {
            least_behind(alloc, *ratio, true, curve, head, totals.size)
        }
    }
}

// Where what is left falls, the curve does.
fn each_fall_behind<A: Allocator + Copy>(
    alloc: A,
    curve: &SizedCurve<A>,
    head: &SizedCurve<A>,
) -> Result<Vec<NonZeroUsize, A>, AllocError>
    requires { IsSettled curve.now }
    ensures { IfOk result (λ chosen. map non_zero_usize_get chosen.items
        ≡ falls_from (misses_left curve.now head.now) (1 + curve.now.greatest_weight) curve.now.distinct_size) }
{
    let first = first_capacity(curve);
    let each = each_fall_by_size(alloc, curve)?;
    let mut chosen = Vec::new(alloc);
    for capacity in &each {
        if falls_behind(curve, head, first, capacity.get()) {
            chosen.push(*capacity)?;
        }
    }
    Ok(chosen)
}

fn falls_behind<A: Allocator>(
    curve: &SizedCurve<A>,
    head: &SizedCurve<A>,
    first: usize,
    capacity: usize,
) -> bool
    requires { first ≡ 1 + curve.now.greatest_weight }
    ensures { result ≡ is_fall_left curve.now head.now capacity }
{
    if capacity == first {
        return true;
    }
    misses_behind(curve, head, capacity) < misses_behind(curve, head, capacity.saturating_sub(1))
}

/// Returns the misses at a capacity, without those of the head.
pub(crate) fn misses_behind<A: Allocator>(
    curve: &SizedCurve<A>,
    head: &SizedCurve<A>,
    capacity: usize,
) -> usize
    ensures { result ≡ misses_left curve.now head.now capacity }
{
    misses_at(curve, capacity).saturating_sub(misses_at(head, capacity))
}

/// Returns the rows without what the head misses.
pub(super) fn sized_rows_behind<A: Allocator + Copy>(
    alloc: A,
    head: &SizedCurve<A>,
    rows: &[SizedRow],
) -> Result<Vec<SizedRow, A>, AllocError>
    ensures { (curve : CurveBySize) (floors : Option (Floors A)) (capacities : List ℕ) → AreRowsOf curve floors capacities rows.now
        → IfOk result (λ found. AreRowsLeft curve head.now capacities found.items) }
{
    let mut found = Vec::new(alloc);
    for row in rows {
        found.push(sized_row_behind(head, row))?;
    }
    Ok(found)
}

fn sized_row_behind<A: Allocator>(head: &SizedCurve<A>, row: &SizedRow) -> SizedRow
    ensures capacity { capacity_of_sized_row result ≡ capacity_of_sized_row row.now }
    ensures misses { result.misses ≡ row.now.misses - misses_within head.now (capacity_of_sized_row row.now) }
    ensures missed_size { result.missed_size ≡ row.now.missed_size - missed_size_within head.now (capacity_of_sized_row row.now) }
    ensures floor { result.floor ≡ None }
{
    let capacity = row.capacity.get();
    SizedRow {
        capacity: row.capacity,
        misses: row.misses.saturating_sub(misses_at(head, capacity)),
        missed_size: row
            .missed_size
            .saturating_sub(missed_size_at(head, capacity)),
        floor: None,
    }
}
