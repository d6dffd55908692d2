//! The rows of a table, before they are text.
ghost use Rattle.std.specs.Prelude.{◌≡◌, ◌<◌, ℕ, List, Bool, None, true, false, length, map, reverse, IfOk};
ghost use Rattle.std.specs.Int.NonZero.{non_zero_usize_get};
ghost use Rattle.std.specs.Str.{bytes_eq};
ghost use Rattle.clru_curve.specs.Curves.{HasMissesOf, misses_at};
ghost use Rattle.clru_least.specs.FloorNumbers.{IsFloorOf};
ghost use Rattle.clru_model.specs.Requests.{distinct};
ghost use Rattle.clru_report.specs.Capacities.{capacities_of, usual};
ghost use Rattle.clru_report.specs.Faithful.{IsFaithful};
ghost use Rattle.clru_report.specs.Passes.{HasForeseen, HasMisses, IsFloorFor, IsForeseenFor};
ghost use Rattle.clru_report.specs.Knees.{knees};
ghost use Rattle.clru_report.specs.PlainRows.{ArePlainRows};
ghost use Rattle.clru_report.specs.Report.{AreRows, capacities_asked};
ghost use Rattle.clru_report.specs.Tables.{capacity_of_row};

use crate::capacities::{capacities_for, usual_capacities};
use crate::faithful::ByKeys;
use crate::knees::{UsualTable, table_with_knees};
use clru_curve::MissCurve;
use clru_least::{Floor, ForesightPass};
use clru_text::{Options, OwnedKey};
use std::alloc::{AllocError, Allocator};
use std::num::NonZeroUsize;

/// What is known of one capacity.
#[derive(Clone, Copy, Debug, PartialEq, Eq)]
pub struct Row {
    pub capacity: NonZeroUsize,
    pub misses: usize,

    /// The least possible misses, where they are asked for.
    pub least: Option<usize>,

    /// What every policy misses at least, also one that bypasses keys, where it is asked for.
    pub floor: Option<usize>,
}

/// Returns the usual table of the curve of requests, to which so many are the whole.
pub(crate) fn usual_table<A: Allocator + Copy>(
    alloc: A,
    curve: &MissCurve<A>,
    whole: usize,
) -> Result<UsualTable<A>, AllocError>
    ensures table { (m : ℕ → ℕ) (keys : ℕ) → HasMisses m curve.now → length curve.now ≡ keys
        → IfOk result (λ t. IsFaithful m whole (usual keys) (map non_zero_usize_get t.capacities.items)) }
    ensures knees { (m : ℕ → ℕ) (keys : ℕ) → HasMisses m curve.now → length curve.now ≡ keys
        → IfOk result (λ t. t.knees.items ≡ knees m whole (map non_zero_usize_get t.capacities.items)) }
{
    let usual = usual_capacities(alloc, curve.distinct())?;
    table_with_knees(alloc, &ByKeys(curve.as_slice()), whole, &usual)
}

/// The rows that the options ask for, over the curve of requests, to which so many are the whole, and its usual table, with their
/// misses alone.
pub(crate) fn rows_for<A: Allocator + Copy>(
    alloc: A,
    options: &Options<A>,
    curve: &MissCurve<A>,
    whole: usize,
    table: &[NonZeroUsize],
) -> Result<Vec<Row, A>, AllocError>
    ensures { (m : ℕ → ℕ) (keys : ℕ) → HasMisses m curve.now → length curve.now ≡ keys → IfOk result (λ rows. ArePlainRows m
        (capacities_of options.now.capacities m whole keys (map non_zero_usize_get table.now)) rows.items) }
{
    let capacities = capacities_for(alloc, &options.capacities, curve.as_slice(), whole, table)?;
    rows_at(alloc, curve, &capacities)
}

/// A row for each capacity.
pub(crate) fn rows_at<A: Allocator>(
    alloc: A,
    curve: &MissCurve<A>,
    capacities: &[NonZeroUsize],
) -> Result<Vec<Row, A>, AllocError>
    ensures { (m : ℕ → ℕ) → HasMisses m curve.now
        → IfOk result (λ rows. ArePlainRows m (map non_zero_usize_get capacities.now) rows.items) }
{
    let mut rows = Vec::new(alloc);
    for capacity in capacities {
        rows.push(row_at(curve, *capacity))?;
    }
    Ok(rows)
}

fn row_at<A: Allocator>(curve: &MissCurve<A>, capacity: NonZeroUsize) -> Row
    ensures capacity { capacity_of_row result ≡ non_zero_usize_get capacity }
    ensures positive { 0 < capacity_of_row result }
    ensures misses { result.misses ≡ misses_at curve.now (non_zero_usize_get capacity) }
    ensures least { result.least ≡ None }
    ensures floor { result.floor ≡ None }
{
    // It tells that the capacity is no 0.
    let _ = capacity.get();
    Row {
        capacity,
        misses: curve.misses(capacity),
        least: None,
        floor: None,
    }
}

/// The rows that the options ask for, over the curve of requests and its usual table, and with their floor if it is there.
pub(crate) fn rows_and_floor<A: Allocator + Copy>(
    alloc: A,
    options: &Options<A>,
    curve: &MissCurve<A>,
    whole: usize,
    table: &[NonZeroUsize],
    floor: &Option<Floor<A>>,
) -> Result<Vec<Row, A>, AllocError>
    ensures { (lines : List (List ℕ)) (floored : Bool) → HasMissesOf bytes_eq lines curve.now
        → length curve.now ≡ distinct bytes_eq (reverse lines) → IsFloorFor floored lines floor.now
        → IfOk result (λ rows. AreRows bytes_eq lines false floored
        (capacities_asked options.now whole lines (map non_zero_usize_get table.now)) rows.items) }
{
    let rows = rows_for(alloc, options, curve, whole, table)?;
    match floor {
        None => Ok(rows),
        Some(floor) => rows_with_floor(alloc, floor, &rows),
    }
}

// The rows with the floor.
fn rows_with_floor<A: Allocator + Copy>(
    alloc: A,
    floor: &Floor<A>,
    rows: &[Row],
) -> Result<Vec<Row, A>, AllocError>
    ensures { (lines : List (List ℕ)) (capacities : List ℕ) → IsFloorOf bytes_eq (λ _. 0) lines floor.now
        → AreRows bytes_eq lines false false capacities rows.now
        → IfOk result (λ found. AreRows bytes_eq lines false true capacities found.items) }
{
    let mut found = Vec::new(alloc);
    for row in rows {
        found.push(Row {
            capacity: row.capacity,
            misses: row.misses,
            least: row.least,
            floor: Some(floor.misses(row.capacity)),
        })?;
    }
    Ok(found)
}

/// The rows that the options ask for, of all requests; the foresight tells the least possible misses, and the floor what every
/// policy misses.
pub(crate) fn rows_of_all<A: Allocator + Copy>(
    alloc: A,
    options: &Options<A>,
    curve: &MissCurve<A>,
    whole: usize,
    table: &[NonZeroUsize],
    foresight: &Option<ForesightPass<OwnedKey<A>, A>>,
    floor: &Option<Floor<A>>,
) -> Result<Vec<Row, A>, AllocError>
    ensures { (lines : List (List ℕ)) (least floored : Bool) → HasMissesOf bytes_eq lines curve.now
        → length curve.now ≡ distinct bytes_eq (reverse lines) → IsForeseenFor A least lines foresight.now
        → IsFloorFor floored lines floor.now
        → IfOk result (λ rows. AreRows bytes_eq lines least floored
        (capacities_asked options.now whole lines (map non_zero_usize_get table.now)) rows.items) }
{
    let rows = rows_and_floor(alloc, options, curve, whole, table, floor)?;
    match foresight {
        None => Ok(rows),
        Some(foresight) => rows_with_least(alloc, foresight, &rows),
    }
}

// The rows with the least possible misses.
fn rows_with_least<A: Allocator + Copy>(
    alloc: A,
    foresight: &ForesightPass<OwnedKey<A>, A>,
    rows: &[Row],
) -> Result<Vec<Row, A>, AllocError>
    ensures { (lines : List (List ℕ)) (floored : Bool) (capacities : List ℕ) → HasForeseen A lines foresight.now
        → AreRows bytes_eq lines false floored capacities rows.now
        → IfOk result (λ found. AreRows bytes_eq lines true floored capacities found.items) }
{
    let mut found = Vec::new(alloc);
    for row in rows {
        let least = foresight.least(row.capacity)?;
        found.push(Row {
            capacity: row.capacity,
            misses: row.misses,
            least: Some(least),
            floor: row.floor,
        })?;
    }
    Ok(found)
}
