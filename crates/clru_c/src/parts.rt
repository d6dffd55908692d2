//! The parts of a budget that several caches get, by arrays of what each misses.
ghost use Rattle.std.specs.Prelude.{◌≡◌, ◌≢◌, ◌+◌, ◌*◌, [], length, IfOk, IsOk};
ghost use Rattle.clru_curve.specs.Splits.{IsBestSplit};
ghost use Rattle.clru_c.specs.Codes.{IsCode};
ghost use Rattle.clru_c.specs.Parts.{missed_without, missed_with, rows_of};

use crate::codes::{NO_MEMORY, OK, WRONG_LENGTH};
use clru_curve::{Curve, NonZeroUsize, split};
use std::alloc::{AllocError, Allocator};
use std::marker::Model;

/// What one cache misses with 0 units, with 1 and so on; the greatest number is none.
#[derive(Drop)]
struct Row<'a> {
    numbers: &'a [usize],
}

impl<'a> Model for Row<'a> {
    ghost use Rattle.std.specs.Prelude.{ℕ, List};
    ghost use Rattle.std.specs.Coded.{coded_list, coded_ℕ};

    ghost Value = { List ℕ };

    ghost coded = { coded_list coded_ℕ };

    ghost view = { λ row. row.numbers.now };
}

impl<'a> Curve for Row<'a> {
    ghost all = { missed_without };

    ghost missed = { missed_with };

    fn all(&self) -> usize {
        match self.numbers.first() {
            Some(number) => *number,
            None => 0,
        }
    }

    fn missed(&self, capacity: NonZeroUsize) -> Option<usize> {
        match self.numbers.get(capacity.get()) {
            Some(number) if *number < usize::MAX => Some(*number),
            _ => None,
        }
    }
}

/// How many units each cache gets.
pub(crate) fn parts_of<A: Allocator + Copy>(
    alloc: A,
    missed: &[usize],
    budget: usize,
    parts: &mut [usize],
) -> u32
    ensures parts { result ≡ OK
        → IsBestSplit missed_without missed_with 1 budget (rows_of (budget + 1) (length parts.old) missed.now) parts.new }
    ensures left { result ≢ OK → parts.new ≡ parts.old }
    ensures codes { IsCode ⊥ (length missed.now ≡ length parts.old * (budget + 1)) result }
    ensures never_refused { parts.old ≡ [] → result ≢ NO_MEMORY }
{
    if missed.len() as u128 != parts.len() as u128 * (budget as u128 + 1) {
        return WRONG_LENGTH;
    }
    let Ok(rows) = rows_in(alloc, missed, budget, parts.len()) else {
        return NO_MEMORY;
    };
    let Ok(found) = split(alloc, NonZeroUsize::MIN, budget, &rows) else {
        return NO_MEMORY;
    };
    parts.copy_from_slice(&found);
    OK
}

/// The rows that stand one behind the other, so many.
fn rows_in<'a, A: Allocator>(
    alloc: A,
    missed: &'a [usize],
    budget: usize,
    count: usize,
) -> Result<Vec<Row<'a>, A>, AllocError>
    requires many { length missed.now ≡ count * (budget + 1) }
    ensures rows { IfOk result (λ rows. rows.items ≡ rows_of (budget + 1) count missed.now) }
    ensures never_refused { count ≡ 0 → IsOk result }
{
    let mut rows = Vec::new(alloc);
    let mut rest = missed;
    for _ in 0..count {
        let (numbers, more) = rest.split_at(budget.saturating_add(1));
        rows.push(Row { numbers })?;
        rest = more;
    }
    Ok(rows)
}
