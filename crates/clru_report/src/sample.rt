//! The text of a report of a sample.
ghost use Rattle.std.specs.Prelude.{◌≡◌, ℕ, ◌-◌, ◌^◌, Bool, List, length, map, reverse, IfOk, string_bytes};
ghost use Rattle.std.specs.Int.NonZero.{non_zero_usize_get};
ghost use Rattle.std.specs.Option.{option_map};
ghost use Rattle.std.specs.Str.{bytes_eq};
ghost use Rattle.clru_curve.specs.Curves.{HasMissesOf};
ghost use Rattle.clru_model.specs.Requests.{distinct};
ghost use Rattle.clru_text.specs.Samples.{times as times_of};
ghost use Rattle.clru_report.specs.Passes.{IsFloorFor, wants_floor};
ghost use Rattle.clru_report.specs.Report.{AreRowsOfSample, IsInFormOfSample};
ghost use Rattle.clru_report.specs.Samples.{numbers_of, numbers_times};

use crate::rows::{Row, rows_and_floor, usual_table};
use crate::table::summary_of;
use crate::text::{Counts, text_by_keys};
use clru_curve::MissCurve;
use clru_least::Floor;
use clru_text::{Form, Options, times};
use std::alloc::{AllocError, Allocator};
use std::num::NonZeroUsize;

/// The text in the form that is asked for, of a curve of kept requests and of how many there are in all.
pub(crate) fn text_of_sample<A: Allocator + Copy>(
    alloc: A,
    options: &Options<A>,
    curve: &MissCurve<A>,
    floor: &Option<Floor<A>>,
    one_in: NonZeroUsize,
    requests: usize,
    bytes: usize,
) -> Result<String<A>, AllocError>
    ensures { (input : List ℕ) (kept : List (List ℕ)) → HasMissesOf bytes_eq kept curve.now
        → length curve.now ≡ distinct bytes_eq (reverse kept) → IsFloorFor (wants_floor options.now) kept floor.now
        → bytes ≡ length input
        → IfOk result (λ text. IsInFormOfSample options.now.form options.now (non_zero_usize_get one_in) requests kept
        input (string_bytes text)) }
{
    let distinct = times(one_in, usize::MAX, curve.distinct());
    if let Form::Summary = options.form {
        return summary_of(alloc, requests, distinct, bytes);
    }
    let table = usual_table(alloc, curve, requests / one_in.get())?;
    let rows = rows_of_sample(
        alloc,
        options,
        curve,
        &table.capacities,
        floor,
        one_in,
        requests,
    )?;
    let knees = knees_times(alloc, &table.knees, one_in)?;
    let counts = Counts {
        one_in,
        requests,
        distinct,
        bytes,
    };
    text_by_keys(
        alloc,
        options,
        curve.as_slice(),
        floor,
        &rows,
        &knees,
        false,
        counts,
    )
}

// The rows that the options ask for, each as one of all requests.
fn rows_of_sample<A: Allocator + Copy>(
    alloc: A,
    options: &Options<A>,
    curve: &MissCurve<A>,
    table: &[NonZeroUsize],
    floor: &Option<Floor<A>>,
    one_in: NonZeroUsize,
    requests: usize,
) -> Result<Vec<Row, A>, AllocError>
    ensures { (kept : List (List ℕ)) (floored : Bool) → HasMissesOf bytes_eq kept curve.now
        → length curve.now ≡ distinct bytes_eq (reverse kept) → IsFloorFor floored kept floor.now
        → IfOk result (λ shown. AreRowsOfSample options.now floored (non_zero_usize_get one_in) requests kept
        (map non_zero_usize_get table.now) shown.items) }
{
    let part = requests / one_in.get();
    let rows = rows_and_floor(alloc, options, curve, part, table, floor)?;
    rows_times(alloc, &rows, one_in, requests)
}

/// Returns the rows of a sample, each as one of all requests.
pub(crate) fn rows_times<A: Allocator>(
    alloc: A,
    rows: &[Row],
    one_in: NonZeroUsize,
    requests: usize,
) -> Result<Vec<Row, A>, AllocError>
    ensures { IfOk result (λ shown. map numbers_of shown.items
        ≡ map (numbers_times (non_zero_usize_get one_in) requests) rows.now) }
{
    let mut shown = Vec::new(alloc);
    for row in rows {
        shown.push(Row {
            capacity: row.capacity.saturating_mul(one_in),
            misses: times(one_in, requests, row.misses),
            least: None,
            floor: times_some(one_in, requests, row.floor),
        })?;
    }
    Ok(shown)
}

/// Returns the knees of a sample, as told of all requests.
pub(crate) fn knees_times<A: Allocator>(
    alloc: A,
    knees: &[usize],
    one_in: NonZeroUsize,
) -> Result<Vec<usize, A>, AllocError>
    ensures { IfOk result (λ shown. shown.items ≡ map (times_of (non_zero_usize_get one_in) (2 ^ 64 - 1)) knees.now) }
{
    let mut shown = Vec::new(alloc);
    for knee in knees {
        shown.push(times(one_in, usize::MAX, *knee))?;
    }
    Ok(shown)
}

// The same of a number that may not be there.
fn times_some(one_in: NonZeroUsize, bound: usize, number: Option<usize>) -> Option<usize>
    ensures { result ≡ option_map (times_of (non_zero_usize_get one_in) bound) number }
{
    match number {
        Some(number) => Some(times(one_in, bound, number)),
        None => None,
    }
}
