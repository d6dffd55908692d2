//! The curve of missed sizes, as one that a faithful table is made of.
ghost use Rattle.std.specs.Prelude.{◌≡◌, ℕ, ◌+◌, ◌-◌, ◌≤◌, ◌<◌, nat_le, length, slice_index_or, IfNone, IfSome};
ghost use Rattle.std.specs.List.Sorted.{IsNonDecreasingBy, IsPartitionPoint};
ghost use Rattle.clru_curve.specs.SizedCurves.{hits_within, missed_size_within, size_after, step};
ghost use Rattle.clru_report.specs.Faithful.{IsFurthest, IsNearLine, off_at, point_at};
ghost use Rattle.clru_report.specs.Scans.{IsGreatestOf};

use crate::faithful::{Curve, Point, further, off, product};
use clru_curve::{SizedCurve, Step};
use std::alloc::Allocator;

/// The steps of the first block, and the most steps that are looked at before any block.
const FEW_STEPS: usize = 64;

/// A curve by size.
#[derive(Drop)]
pub(crate) struct BySize<'a, A: Allocator>(pub(crate) &'a SizedCurve<A>);

impl<'a, A: Allocator> Curve for BySize<'a, A> {
    ghost misses = { λ curve. missed_size_within curve.0.now };

    fn point_of(&self, capacity: usize) -> Point {
        point_by_size(self.0, capacity)
    }

    fn furthest(&self, whole: usize, a: usize, b: usize) -> Option<usize> {
        furthest_by_size(self.0, whole, a, b)
    }
}

fn point_by_size<A: Allocator>(curve: &SizedCurve<A>, capacity: usize) -> Point
    ensures { result ≡ point_at (missed_size_within curve.now) capacity }
{
    let hits = steps_up_to(curve.as_slice(), capacity);
    Point {
        capacity,
        misses: missed_after(curve, hits),
    }
}

// What misses after so many steps.
pub(super) fn missed_after<A: Allocator>(curve: &SizedCurve<A>, hits: usize) -> usize
    requires { hits ≤ length curve.now.steps }
    ensures { result ≡ size_after curve.now.size curve.now.steps hits }
{
    if hits == 0 {
        curve.size()
    } else {
        curve.as_slice()[hits - 1].missed_size
    }
}

fn furthest_by_size<A: Allocator>(
    curve: &SizedCurve<A>,
    whole: usize,
    a: usize,
    b: usize,
) -> Option<usize>
    ensures found { IfSome result (λ x. IsFurthest (missed_size_within curve.now) whole a b x) }
    ensures none { IfNone result (IsNearLine (missed_size_within curve.now) whole a b) }
{
    if b.saturating_sub(a) <= 1 {
        return None;
    }
    let near = product(whole, b - a) / 50;
    let found = greatest_by_size(curve, a, b, near);
    if found.1 > near { Some(found.0) } else { None }
}

// Returns the capacity that lies furthest off the line, and how far, if that is more than `near`; else a bound up to `near`. Misses are
// constant between two steps, so only the ends of such a piece can lie furthest off. If anything lies further off than `near`, it also
// lies further off than `found` says at first, so `a` is replaced. After a skipped block the next one is twice as long.
fn greatest_by_size<A: Allocator>(
    curve: &SizedCurve<A>,
    a: usize,
    b: usize,
    near: u128,
) -> (usize, u128)
    requires { a + 1 < b }
    ensures covered { (y : ℕ) → a ≤ y → y < b → off_at (missed_size_within curve.now) a b y ≤ result.1 }
    ensures far { near < result.1 → IsGreatestOf (off_at (missed_size_within curve.now) a b) a b b result.0 result.1 }
{
    let start = point_by_size(curve, a);
    let end = point_by_size(curve, b);
    let steps = curve.as_slice();
    let to = steps_up_to(steps, b - 1);
    let mut index = steps_up_to(steps, a);
    let mut last = a + 1;
    let mut found = (a, far_somewhere(curve, a, b).saturating_sub(1).max(near));
    let mut count = FEW_STEPS;
    while index < to {
        let after = index.saturating_add(count).min(to);
        if index % FEW_STEPS == 0
            && most_of_block(curve, start, end, index, after, last) <= found.1
        {
            last = last.max(steps[after - 1].capacity);
            index = after;
            count = count.saturating_mul(2);
            continue;
        }
        let next = steps[index].capacity;
        if next > last {
            let misses = missed_after(curve, index);
            found = further_on(start, end, last, next, misses, found.0, found.1);
            last = next;
        }
        index += 1;
        count = FEW_STEPS;
    }
    let misses = missed_after(curve, to);
    further_on(start, end, last, b, misses, found.0, found.1)
}

// The greatest distance of a few steps, which is a lower bound of that of all.
fn far_somewhere<A: Allocator>(curve: &SizedCurve<A>, a: usize, b: usize) -> u128
    requires { a < b }
    ensures { (p : ℕ) × (a ≤ p) × (p < b) × (result ≡ off_at (missed_size_within curve.now) a b p) }
{
    let start = point_by_size(curve, a);
    let end = point_by_size(curve, b);
    let steps = curve.as_slice();
    let to = steps_up_to(steps, b - 1);
    let mut index = steps_up_to(steps, a);
    let stride = to.saturating_sub(index) / FEW_STEPS + 1;
    let mut far = 0;
    while index < to {
        let here = point_by_size(curve, steps[index].capacity);
        far = off(start, end, here).max(far);
        index = index.saturating_add(stride);
    }
    far
}

// Returns a bound of how far off a capacity lies, from `last` up to the last step before `after`.
fn most_of_block<A: Allocator>(
    curve: &SizedCurve<A>,
    start: Point,
    end: Point,
    index: usize,
    after: usize,
    last: usize,
) -> u128
    requires order { index < after }
    requires inside { after ≤ length curve.now.steps }
    ensures { (a b : ℕ) → start ≡ point_at (missed_size_within curve.now) a → end ≡ point_at (missed_size_within curve.now) b
        → a ≤ last → (slice_index_or curve.now.steps (after - 1) (step 0 0)).capacity ≤ b
        → ((j : ℕ) → j < index → (slice_index_or curve.now.steps j (step 0 0)).capacity ≤ last)
        → (y : ℕ) → last ≤ y → y < (slice_index_or curve.now.steps (after - 1) (step 0 0)).capacity
        → off_at (missed_size_within curve.now) a b y ≤ result }
{
    let left = Point {
        capacity: last,
        misses: missed_after(curve, index),
    };
    let right = Point {
        capacity: curve.as_slice()[after - 1].capacity,
        misses: missed_after(curve, after - 1),
    };
    most_between(start, end, left, right)
}

// A falling curve between two points lies within their rectangle, so nothing lies further off than a corner.
fn most_between(start: Point, end: Point, left: Point, right: Point) -> u128
    ensures { (m : ℕ → ℕ) (a b : ℕ) → start ≡ point_at m a → end ≡ point_at m b → a ≤ left.capacity → right.capacity ≤ b
        → (y : ℕ) → left.capacity ≤ y → y < right.capacity → right.misses ≤ m y → m y ≤ left.misses → off_at m a b y ≤ result }
{
    let above = Point {
        capacity: right.capacity,
        misses: left.misses,
    };
    let below = Point {
        capacity: left.capacity,
        misses: right.misses,
    };
    let at_ends = off(start, end, left).max(off(start, end, right));
    at_ends
        .max(off(start, end, above))
        .max(off(start, end, below))
}

// Looks at a piece of the curve, from `first` up to the capacity before `next`. `f` is how far each capacity of the piece lies off.
pub(super) fn further_on(
    start: Point,
    end: Point,
    first: usize,
    next: usize,
    misses: usize,
    best: usize,
    most: u128,
) -> (usize, u128)
    requires { first < next }
    ensures { (m f : ℕ → ℕ) (a b : ℕ) → start ≡ point_at m a → end ≡ point_at m b → a ≤ first → next ≤ b
        → ((y : ℕ) → first ≤ y → y < next → m y ≡ misses) → ((y : ℕ) → first ≤ y → y < next → f y ≡ off_at m a b y)
        → IsGreatestOf f a b first best most → IsGreatestOf f a b next result.0 result.1 }
{
    let left = Point {
        capacity: first,
        misses,
    };
    let found = further(start, end, left, best, most);
    let right = Point {
        capacity: next - 1,
        misses,
    };
    further(start, end, right, found.0, found.1)
}

// How many steps there are up to a capacity.
pub(super) fn steps_up_to(steps: &[Step], capacity: usize) -> usize
    requires { IsNonDecreasingBy (λ s. s.capacity) steps.now }
    ensures bound { result ≤ length steps.now }
    ensures count { result ≡ hits_within capacity steps.now }
    ensures point { IsPartitionPoint (λ s. s.capacity ≤ capacity) (λ s. capacity < s.capacity) steps.now result }
{
    steps.partition_point(
        |step: &Step| -> bool
            ensures { result ≡ nat_le step.now.capacity capacity }
        { step.capacity <= capacity },
    )
}
