//! One row of the table: the least that misses at each number of units, once one more curve is given its part.
ghost use Rattle.std.specs.Prelude.{◌≡◌, ℕ, ◌+◌, ◌-◌, ◌^◌, ◌<◌, ◌≤◌, ◌++◌, Some, None, List, length, slice_index, slice_index_or, IfOk};
ghost use Rattle.clru_curve.specs.Rows.{IsMinimum};

use std::alloc::{AllocError, Allocator};

/// The least sum of a price and of what is in the row at the units that are left, and the units of that price. Of several that
/// are least it is the one with the fewest units. `all` is the price of no units.
pub(crate) fn cheapest(
    all: usize,
    prices: &[Option<usize>],
    before: &[u128],
    units: usize,
) -> (u128, usize)
    requires inside { units < length before.now }
    requires priced { length prices.now ≡ length before.now }
    requires all { slice_index_or prices.now 0 None ≡ Some all }
    requires fits { (j : ℕ) → j < length before.now → slice_index before.now j + 2 ^ 64 ≤ 2 ^ 128 }
    ensures least { IsMinimum (λ x. slice_index_or prices.now x None) before.now units result.0 result.1 }
    ensures grows { result.0 < slice_index before.now units + 2 ^ 64 }
{
    let mut least = all as u128 + before[units];
    let mut choice = 0;
    for taken in 1..units + 1 {
        if let Some(price) = prices[taken] {
            let total = price as u128 + before[units - taken];
            if total < least {
                least = total;
                choice = taken;
            }
        }
    }
    (least, choice)
}

/// The next row: at each number of units the least that misses, with one more curve at these prices. The units that its part
/// has there come behind the choices.
pub(crate) fn next_row<A: Allocator + Copy>(
    alloc: A,
    all: usize,
    prices: &[Option<usize>],
    before: &[u128],
    choices: &mut Vec<usize, A>,
) -> Result<Vec<u128, A>, AllocError>
    requires priced { length prices.now ≡ length before.now }
    requires all { slice_index_or prices.now 0 None ≡ Some all }
    requires fits { (j : ℕ) → j < length before.now → slice_index before.now j + 2 ^ 64 ≤ 2 ^ 128 }
    ensures length { IfOk result (λ row. length row.items ≡ length before.now) }
    ensures least { IfOk result (λ row. (added : List ℕ) × (choices.new.items ≡ choices.old.items ++ added)
        × (length added ≡ length before.now)
        × ((j : ℕ) → j < length before.now → IsMinimum (λ x. slice_index_or prices.now x None) before.now j
        (slice_index row.items j) (slice_index added j))) }
    ensures grows { IfOk result (λ row. (j : ℕ) → j < length before.now
        → slice_index row.items j < slice_index before.now j + 2 ^ 64) }
{
    let mut row = Vec::new(alloc);
    for units in 0..before.len() {
        let (least, choice) = cheapest(all, prices, before, units);
        row.push(least)?;
        choices.push(choice)?;
    }
    Ok(row)
}
