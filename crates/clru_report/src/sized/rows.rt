//! The rows of a table by size, before they are text.
ghost use Rattle.std.specs.Prelude.{◌≡◌, ◌+◌, ◌<◌, map, IfErr, IfOk, OnErr};
ghost use Rattle.std.specs.Int.NonZero.{non_zero_usize_get};
ghost use Rattle.clru_report.specs.Passes.{capacities_on, AreRowsOf, IsOfCapacities, IsRowOf, IsSettled};
ghost use Rattle.clru_report.specs.SizedTables.{capacity_of_sized_row};

use super::capacities::{first_capacity, sized_capacities_for};
use super::floors::{Floors, RowFloor, floor_at};
use clru_curve::SizedCurve;
use clru_text::{Capacities, Fault};
use std::alloc::Allocator;
use std::num::NonZeroUsize;

/// What is known of one capacity, which is a sum of sizes.
#[derive(Clone, Copy, Debug, PartialEq, Eq)]
pub struct SizedRow {
    pub capacity: NonZeroUsize,
    pub misses: usize,

    /// The size of the requests that miss.
    pub missed_size: usize,

    /// What every policy misses at least, where it is asked for.
    pub floor: Option<RowFloor>,
}

/// The rows of a curve at the capacities that are asked for, with the floors if they are there.
pub(crate) fn sized_rows_for<A: Allocator + Copy>(
    alloc: A,
    curve: &SizedCurve<A>,
    floors: &Option<Floors<A>>,
    capacities: &Capacities<A>,
    table: &[NonZeroUsize],
) -> Result<Vec<SizedRow, A>, Fault>
    requires { IsSettled curve.now }
    ensures rows { IfOk result (λ rows. AreRowsOf curve.now floors.now
        (capacities_on curve.now capacities.now curve.now.requests curve.now.size (map non_zero_usize_get table.now)) rows.items) }
    ensures refused { IfErr result (λ fault.
        IsOfCapacities curve.now fault (capacities_on curve.now capacities.now curve.now.requests curve.now.size (map non_zero_usize_get table.now))) }
{
    let Ok(capacities) = sized_capacities_for(
        alloc,
        capacities,
        curve,
        curve.requests(),
        curve.size(),
        table,
    ) else {
        return Err(Fault::Memory);
    };
    sized_rows_at(alloc, curve, floors, &capacities)
}

/// A row for each capacity.
pub(super) fn sized_rows_at<A: Allocator>(
    alloc: A,
    curve: &SizedCurve<A>,
    floors: &Option<Floors<A>>,
    capacities: &[NonZeroUsize],
) -> Result<Vec<SizedRow, A>, Fault>
    requires { IsSettled curve.now }
    ensures rows { IfOk result (λ rows. AreRowsOf curve.now floors.now (map non_zero_usize_get capacities.now) rows.items) }
    ensures refused { IfErr result (λ fault. IsOfCapacities curve.now fault (map non_zero_usize_get capacities.now)) }
{
    let mut rows = Vec::new(alloc);
    for capacity in capacities {
        let row = match sized_row_at(curve, floors, *capacity) {
            Ok(row) => row,
            Err(fault) => return Err(fault),
        };
        let Ok(()) = rows.push(row) else {
            return Err(Fault::Memory);
        };
    }
    Ok(rows)
}

fn sized_row_at<A: Allocator>(
    curve: &SizedCurve<A>,
    floors: &Option<Floors<A>>,
    capacity: NonZeroUsize,
) -> Result<SizedRow, Fault>
    requires { IsSettled curve.now }
    ensures row { IfOk result (λ row. IsRowOf curve.now floors.now row) }
    ensures capacity { IfOk result (λ row. capacity_of_sized_row row ≡ non_zero_usize_get capacity) }
    ensures refused { IfErr result (λ fault. fault ≡ Fault.TooSmall (1 + curve.now.greatest_weight)) }
    ensures below { OnErr result (non_zero_usize_get capacity < 1 + curve.now.greatest_weight) }
{
    match (curve.misses(capacity), curve.missed_size(capacity)) {
        (Some(misses), Some(missed_size)) => Ok(SizedRow {
            capacity,
            misses,
            missed_size,
            floor: floor_at(floors, capacity),
        }),
        _ => Err(Fault::TooSmall(first_capacity(curve))),
    }
}
