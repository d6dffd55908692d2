//! The usual table of a curve, and its knees: the rows at which a fall ends.
ghost use Rattle.std.specs.Prelude.{◌≡◌, ◌*◌, ◌+◌, ◌^◌, ◌++◌, ◌<◌, [], ◌∷◌, map, nat_lt, if◌then◌else◌, IfOk, OnOk};
ghost use Rattle.std.specs.Int.NonZero.{non_zero_usize_get};
ghost use Rattle.clru_report.specs.Faithful.{AreWithAdded, point_at};
ghost use Rattle.clru_report.specs.Knees.{is_among, is_foot as is_a_foot, knees};

use crate::faithful::{Curve, Point, faithful_table, product};
use std::alloc::{AllocError, Allocator};
use std::num::NonZeroUsize;

/// The capacities of the usual table of a curve, and which of them are knees.
#[derive(Drop)]
pub(crate) struct UsualTable<A: Allocator> {
    pub(crate) capacities: Vec<NonZeroUsize, A>,
    pub(crate) knees: Vec<usize, A>,
}

/// Returns the faithful table of these capacities, and its knees.
pub(crate) fn table_with_knees<C: Curve, A: Allocator + Copy>(
    alloc: A,
    curve: &C,
    whole: usize,
    capacities: &[NonZeroUsize],
) -> Result<UsualTable<A>, AllocError>
    ensures table { IfOk result (λ t. AreWithAdded (C.misses curve.now) whole
        (map non_zero_usize_get capacities.now) (map non_zero_usize_get t.capacities.items)) }
    ensures knees { IfOk result (λ t. t.knees.items
        ≡ knees (C.misses curve.now) whole (map non_zero_usize_get t.capacities.items)) }
{
    let table = faithful_table(alloc, curve, whole, capacities)?;
    let knees = knees_of(alloc, curve, whole, &table)?;
    Ok(UsualTable {
        capacities: table,
        knees,
    })
}

/// Returns whether a capacity is one of the knees.
pub(crate) fn is_knee(knees: &[usize], capacity: usize) -> bool
    ensures { result ≡ is_among knees.now capacity }
{
    knees.contains(&capacity)
}

// Returns the knees of a table.
fn knees_of<C: Curve, A: Allocator>(
    alloc: A,
    curve: &C,
    whole: usize,
    table: &[NonZeroUsize],
) -> Result<Vec<usize, A>, AllocError>
    ensures { IfOk result (λ found. found.items ≡ knees (C.misses curve.now) whole (map non_zero_usize_get table.now)) }
{
    let mut found = Vec::new(alloc);
    let Some((first, more)) = table.split_first() else {
        return Ok(found);
    };
    let Some((second, rest)) = more.split_first() else {
        return Ok(found);
    };
    let mut before = first.get();
    let mut here = second.get();
    for capacity in rest {
        let next = capacity.get();
        push_if_foot(&mut found, curve, whole, before, here, next)?;
        before = here;
        here = next;
    }
    Ok(found)
}

fn push_if_foot<C: Curve, A: Allocator>(
    found: &mut Vec<usize, A>,
    curve: &C,
    whole: usize,
    a: usize,
    c: usize,
    b: usize,
) -> Result<(), AllocError>
    ensures { OnOk result (found.new.items ≡ found.old.items
        ++ (if is_a_foot whole (point_at (C.misses curve.now) a) (point_at (C.misses curve.now) c) (point_at (C.misses curve.now) b)
        then c ∷ [] else [])) }
{
    let before = curve.point_of(a);
    let here = curve.point_of(c);
    let next = curve.point_of(b);
    if is_foot(whole, before, here, next) {
        found.push(c)?;
    }
    Ok(())
}

fn is_foot(whole: usize, before: Point, here: Point, next: Point) -> bool
    ensures { result ≡ is_a_foot whole before here next }
{
    let saved = before.misses.saturating_sub(here.misses);
    let saved_behind = here.misses.saturating_sub(next.misses);
    product(saved, 50) >= whole as u128
        && is_less(
            product(saved_behind, here.capacity.saturating_sub(before.capacity)),
            next.capacity,
            product(saved, next.capacity.saturating_sub(here.capacity)),
            before.capacity,
        )
}

// Whether `x * p` is less than `y * q`, where these are too large for a number.
fn is_less(x: u128, p: usize, y: u128, q: usize) -> bool
    ensures { result ≡ nat_lt (x * p) (y * q) }
{
    let (high, low) = halves(x, p);
    let (other_high, other_low) = halves(y, q);
    high < other_high || high == other_high && low < other_low
}

// A product in multiples of 2^64, and what is left.
fn halves(x: u128, p: usize) -> (u128, u128)
    ensures sum { result.0 * 2 ^ 64 + result.1 ≡ x * p }
    ensures left { result.1 < 2 ^ 64 }
{
    let low = (x % WORD) * p as u128;
    let high = (x / WORD) * p as u128;
    (high + low / WORD, low % WORD)
}

const WORD: u128 = 18_446_744_073_709_551_616;
