//! The best split of a budget.
ghost use Rattle.std.specs.Prelude.{◌≡◌, ◌+◌, ◌-◌, ◌*◌, ◌^◌, ◌<◌, ◌≤◌, [], IfOk, IsOk};
ghost use Rattle.std.specs.Int.NonZero.{non_zero_usize_get};
ghost use Rattle.clru_curve.specs.Rows.{AreChoices};
ghost use Rattle.clru_curve.specs.Splits.{IsBestSplit, IsFirstBest};

use crate::splits::curve::{Curve, prices};
use crate::splits::row::next_row;
use std::alloc::{AllocError, Allocator};
use std::num::NonZeroUsize;

/// Returns a capacity for each curve, in their order, such that no other split misses less in total. Each capacity is a multiple
/// of the step at which its curve has a number, or 0 for no cache, and together they are within the budget.
///
/// Of several best splits it returns the one with the least first capacity, of those the one with the least second, and so on. Memory
/// may be refused; without curves none is asked for.
/// Cost: with `n` for the budget divided by the step, a reading of each curve at `n` capacities, and `n * n / 2` sums for each
/// curve; memory for a number for each capacity that is read, and two rows of `n` sums.
pub fn split<C: Curve, A: Allocator + Copy>(
    alloc: A,
    step: NonZeroUsize,
    budget: usize,
    curves: &[C],
) -> Result<Vec<usize, A>, AllocError>
    ensures best { IfOk result (λ capacities.
        IsBestSplit C.all C.missed (non_zero_usize_get step) budget curves.now capacities.items) }
    ensures first { IfOk result (λ capacities.
        IsFirstBest C.all C.missed (non_zero_usize_get step) budget curves.now capacities.items) }
    ensures never_refused { curves.now ≡ [] → IsOk result }
{
    if curves.is_empty() {
        return Ok(Vec::new(alloc));
    }
    let step = step.get();
    let Some(width) = (budget / step).checked_add(1) else {
        return Err(AllocError);
    };
    let choices = choices(alloc, step, width, curves)?;
    follow(alloc, step, width, curves, &choices)
}

/// For each curve, the last one first, the units that lead to a best split, at each number of units below `width`.
fn choices<C: Curve, A: Allocator + Copy>(
    alloc: A,
    step: usize,
    width: usize,
    curves: &[C],
) -> Result<Vec<usize, A>, AllocError>
    requires step { 0 < step }
    requires width { 0 < width }
    requires fits { width * step < 2 ^ 64 + step }
    ensures { IfOk result (λ cs. AreChoices C.all C.missed step width curves.now cs.items) }
{
    let mut choices = Vec::new(alloc);
    let mut row: Vec<u128, A> = Vec::new(alloc);
    row.resize(width, 0)?;
    for done in 0..curves.len() {
        let curve = &curves[curves.len() - 1 - done];
        let prices = prices(alloc, step, width, curve)?;
        row = next_row(alloc, curve.all(), &prices, &row, &mut choices)?;
    }
    Ok(choices)
}

/// The capacities to which the choices lead from all units.
fn follow<C: Curve, A: Allocator>(
    alloc: A,
    step: usize,
    width: usize,
    curves: &[C],
    choices: &[usize],
) -> Result<Vec<usize, A>, AllocError>
    requires width { 0 < width }
    requires fits { width * step < 2 ^ 64 + step }
    requires choices { AreChoices C.all C.missed step width curves.now choices.now }
    ensures best { IfOk result (λ cs. IsBestSplit C.all C.missed step ((width - 1) * step) curves.now cs.items) }
    ensures first { IfOk result (λ cs. IsFirstBest C.all C.missed step ((width - 1) * step) curves.now cs.items) }
{
    let mut capacities = Vec::new(alloc);
    let mut left = width - 1;
    let mut unread = choices.len();
    for _ in 0..curves.len() {
        unread -= width;
        let units = choices[unread + left];
        capacities.push(units * step)?;
        left -= units;
    }
    Ok(capacities)
}
