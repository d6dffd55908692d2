//! The faithful table of a curve, between whose rows one may interpolate.
ghost use Rattle.std.specs.Prelude.{◌≡◌, ◌<◌, ◌≤◌, ◌+◌, ◌*◌, ◌++◌, ℕ, List, map, nat_lt, if◌then◌else◌, IfOk, IfNone, IfSome, OnOk};
ghost use Rattle.std.specs.Int.NonZero.{non_zero_usize_get};
ghost use Rattle.clru_curve.specs.Curves.{misses_at};
ghost use Rattle.clru_report.specs.Faithful.{AreWithAdded, IsFurthest, IsNearLine, off as off_line, off_at, point_at};
ghost use Rattle.clru_report.specs.Scans.{IsGreatestOf, LeadTo};

use crate::capacities::push_capacity;
use std::alloc::{AllocError, Allocator};
use std::num::NonZeroUsize;

/// A capacity, and how much is missed there.
#[derive(Clone, Copy, Debug, PartialEq, Eq)]
pub struct Point {
    pub capacity: usize,
    pub misses: usize,
}

/// A curve, whatever its capacities and misses count.
pub(crate) trait Curve {
    /// The misses at each capacity.
    ghost misses: { Self → ℕ → ℕ };

    fn point_of(&self, capacity: usize) -> Point
        ensures { result ≡ point_at (misses self.now) capacity };

    /// Returns the capacity between `a` and `b` that lies furthest off the straight line between both, the least of several, if
    /// that is more than a fiftieth of the whole.
    fn furthest(&self, whole: usize, a: usize, b: usize) -> Option<usize>
        ensures found { IfSome result (λ x. IsFurthest (misses self.now) whole a b x) }
        ensures none { IfNone result (IsNearLine (misses self.now) whole a b) };
}

/// A curve that is given as its misses at 1, 2 and so on.
#[derive(Clone, Copy)]
pub(crate) struct ByKeys<'a>(pub(crate) &'a [usize]);

impl<'a> Curve for ByKeys<'a> {
    ghost misses = { λ curve. misses_at curve.0.now };

    fn point_of(&self, capacity: usize) -> Point {
        point_by_keys(self.0, capacity)
    }

    fn furthest(&self, whole: usize, a: usize, b: usize) -> Option<usize> {
        furthest_by_keys(self.0, whole, a, b)
    }
}

fn point_by_keys(curve: &[usize], capacity: usize) -> Point
    ensures { result ≡ point_at (misses_at curve.now) capacity }
{
    Point {
        capacity,
        misses: misses_by_keys(curve, capacity),
    }
}

/// Returns the misses at a capacity.
pub(crate) fn misses_by_keys(curve: &[usize], capacity: usize) -> usize
    ensures { result ≡ misses_at curve.now capacity }
{
    match curve.get(capacity.saturating_sub(1)) {
        Some(misses) => *misses,
        None => curve.last().copied().unwrap_or(0),
    }
}

fn furthest_by_keys(curve: &[usize], whole: usize, a: usize, b: usize) -> Option<usize>
    ensures found { IfSome result (λ x. IsFurthest (misses_at curve.now) whole a b x) }
    ensures none { IfNone result (IsNearLine (misses_at curve.now) whole a b) }
{
    if b <= a {
        return None;
    }
    let start = point_by_keys(curve, a);
    let end = point_by_keys(curve, b);
    let mut best = a;
    let mut most = 0;
    for capacity in a..b {
        let here = point_by_keys(curve, capacity);
        let found = further(start, end, here, best, most);
        best = found.0;
        most = found.1;
    }
    if_far(whole, a, b, best, most)
}

/// Looks at one capacity more: returns it if it lies further off the line than any before, and how far that is.
pub(crate) fn further(
    start: Point,
    end: Point,
    here: Point,
    best: usize,
    most: u128,
) -> (usize, u128)
    ensures { (f : ℕ → ℕ) (a b k : ℕ) → f here.capacity ≡ off_line start end here → IsGreatestOf f a b k best most
        → a ≤ here.capacity → here.capacity < b → k ≤ here.capacity + 1
        → ((y : ℕ) → k ≤ y → y < here.capacity → most < f y → f y < f here.capacity)
        → IsGreatestOf f a b (here.capacity + 1) result.0 result.1 }
{
    let found = off(start, end, here);
    if found > most {
        (here.capacity, found)
    } else {
        (best, most)
    }
}

/// Returns how far a point lies off the straight line between two others, times its length. It is below 2^128.
pub(crate) fn off(start: Point, end: Point, here: Point) -> u128
    ensures { result ≡ off_line start end here }
{
    let length = end.capacity.saturating_sub(start.capacity);
    let missed = product(here.misses, length);
    let at_line = product(start.misses, end.capacity.saturating_sub(here.capacity))
        + product(end.misses, here.capacity.saturating_sub(start.capacity));
    missed.saturating_sub(at_line) + at_line.saturating_sub(missed)
}

/// Returns the product, which is below 2^128.
pub(crate) fn product(a: usize, b: usize) -> u128
    ensures { result ≡ a * b }
{
    a as u128 * b as u128
}

/// Returns the capacity that was found between `a` and `b` if it lies more than a fiftieth of the whole off their line.
pub(crate) fn if_far(whole: usize, a: usize, b: usize, best: usize, most: u128) -> Option<usize>
    ensures found { (m : ℕ → ℕ) → IsGreatestOf (off_at m a b) a b b best most → IfSome result (λ x. IsFurthest m whole a b x) }
    ensures none { (m : ℕ → ℕ) → IsGreatestOf (off_at m a b) a b b best most → IfNone result (IsNearLine m whole a b) }
{
    if most > product(whole, b.saturating_sub(a)) / 50 {
        Some(best)
    } else {
        None
    }
}

/// Returns the faithful table of these capacities, of which each is greater than 0.
pub(crate) fn faithful_table<C: Curve, A: Allocator>(
    alloc: A,
    curve: &C,
    whole: usize,
    capacities: &[NonZeroUsize],
) -> Result<Vec<NonZeroUsize, A>, AllocError>
    ensures { IfOk result (λ table. AreWithAdded (C.misses curve.now) whole
        (map non_zero_usize_get capacities.now) (map non_zero_usize_get table.items)) }
{
    let mut table = Vec::new(alloc);
    let Some((first, rest)) = capacities.split_first() else {
        return Ok(table);
    };
    let mut before = first.get();
    push_capacity(&mut table, before)?;
    for capacity in rest {
        let next = capacity.get();
        add_up_to(&mut table, curve, whole, before, next)?;
        before = next;
    }
    Ok(table)
}

// Adds the rows behind `a`, up to `b`. What lies on both sides of an added row is divided further.
fn add_up_to<C: Curve, A: Allocator>(
    table: &mut Vec<NonZeroUsize, A>,
    curve: &C,
    whole: usize,
    a: usize,
    b: usize,
) -> Result<(), AllocError>
    requires { 0 < b }
    ensures { OnOk result ((rows : List ℕ) × (map non_zero_usize_get table.new.items ≡ map non_zero_usize_get table.old.items ++ rows)
        × LeadTo (C.misses curve.now) whole a b rows) }
{
    match curve.furthest(whole, a, b) {
        None => push_capacity(table, b),
        Some(x) => {
            add_up_to(table, curve, whole, a, x)?;
            add_up_to(table, curve, whole, x, b)
        }
    }
}
