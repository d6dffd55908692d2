//! The text of a report by size of a sample.
ghost use Rattle.std.specs.Prelude.{◌≡◌, ◌+◌, ◌-◌, ◌/◌, ◌^◌, map, min, nat_le, IfOk, string_bytes};
ghost use Rattle.std.specs.Int.NonZero.{non_zero_usize_get};
ghost use Rattle.std.specs.List.{filter};
ghost use Rattle.std.specs.Option.{option_map};
ghost use Rattle.clru_text.specs.Samples.{times as times_of};
ghost use Rattle.clru_report.specs.Passes.{capacities_on, distinct_in, IsSettled};
ghost use Rattle.clru_report.specs.SampleTables.{AreSampledRows, IsSampledTable, IsSampledText};
ghost use Rattle.clru_report.specs.Samples.{floor_times, sized_numbers_of, sized_numbers_times};
ghost use Rattle.clru_report.specs.SizedTables.{sized_summary_text};

use super::capacities::{first_capacity, sized_capacities_for, sized_usual_table};
use super::floors::{Floors, RowFloor};
use super::rows::{SizedRow, sized_rows_at};
use super::table::{distinct_of, greatest_of, sized_summary, sized_table_of};
use crate::picture::picture_by_size;
use crate::sample::knees_times;
use clru_curve::SizedCurve;
use clru_text::{Capacities, Form, Options, times};
use std::alloc::{AllocError, Allocator};
use std::num::NonZeroUsize;

/// All requests, of which those for one key in so many were kept: how many there are, and their size together.
#[derive(Clone, Copy)]
pub(crate) struct Totals {
    pub(crate) one_in: NonZeroUsize,
    pub(crate) requests: usize,
    pub(crate) size: usize,
}

/// The text in the form that is asked for, of a curve of kept requests, which has so many distinct keys.
pub(crate) fn text_of_sized_sample<A: Allocator + Copy>(
    alloc: A,
    options: &Options<A>,
    curve: &SizedCurve<A>,
    floors: &Option<Floors<A>>,
    totals: Totals,
    distinct: usize,
    bytes: usize,
) -> Result<String<A>, AllocError>
    requires { IsSettled curve.now }
    ensures { IfOk result (λ text. IsSampledText curve.now floors.now options.now (non_zero_usize_get totals.one_in)
        totals.requests totals.size options.now.form bytes (string_bytes text)) }
{
    match options.form {
        Form::Table => table_of_sized_sample(alloc, options, curve, floors, totals, false),
        Form::Json => table_of_sized_sample(alloc, options, curve, floors, totals, true),
        Form::Picture => {
            let table = table_of_sized_sample(alloc, options, curve, floors, totals, false)?;
            picture_by_size(alloc, curve, floors, totals, distinct, options, &table)
        }
        Form::Summary => summary_of_sized_sample(alloc, curve, totals, bytes),
    }
}

fn table_of_sized_sample<A: Allocator + Copy>(
    alloc: A,
    options: &Options<A>,
    curve: &SizedCurve<A>,
    floors: &Option<Floors<A>>,
    totals: Totals,
    json: bool,
) -> Result<String<A>, AllocError>
    requires { IsSettled curve.now }
    ensures { IfOk result (λ text. IsSampledTable curve.now floors.now options.now (non_zero_usize_get totals.one_in)
        totals.requests totals.size json (string_bytes text)) }
{
    let table = sized_usual_table(alloc, curve, totals.size / totals.one_in.get())?;
    let rows = rows_of_sized_sample(alloc, options, curve, floors, &table.capacities, totals)?;
    let knees = knees_times(alloc, &table.knees, totals.one_in)?;
    sized_table_of(
        alloc,
        &rows,
        &knees,
        totals.requests,
        totals.size,
        options.floor,
        json,
    )
}

// The rows at the capacities that are asked for, each as one of all requests.
fn rows_of_sized_sample<A: Allocator + Copy>(
    alloc: A,
    options: &Options<A>,
    curve: &SizedCurve<A>,
    floors: &Option<Floors<A>>,
    table: &[NonZeroUsize],
    totals: Totals,
) -> Result<Vec<SizedRow, A>, AllocError>
    requires { IsSettled curve.now }
    ensures { IfOk result (λ shown. AreSampledRows curve.now floors.now options.now (non_zero_usize_get totals.one_in)
        totals.requests totals.size (map non_zero_usize_get table.now) shown.items) }
{
    let capacities = capacities_from_first(alloc, &options.capacities, curve, totals, table)?;
    let Ok(rows) = sized_rows_at(alloc, curve, floors, &capacities) else {
        return Err(AllocError);
    };
    sized_rows_times(alloc, &rows, totals)
}

// The capacities that are asked for and that the curve has.
fn capacities_from_first<A: Allocator + Copy>(
    alloc: A,
    capacities: &Capacities<A>,
    curve: &SizedCurve<A>,
    totals: Totals,
    table: &[NonZeroUsize],
) -> Result<Vec<NonZeroUsize, A>, AllocError>
    requires { IsSettled curve.now }
    ensures { IfOk result (λ chosen. map non_zero_usize_get chosen.items ≡ filter (λ c. nat_le (1 + curve.now.greatest_weight) c)
        (capacities_on curve.now capacities.now (totals.requests / non_zero_usize_get totals.one_in)
        (totals.size / non_zero_usize_get totals.one_in) (map non_zero_usize_get table.now))) }
{
    let first = first_capacity(curve);
    let one_in = totals.one_in.get();
    let mut chosen = sized_capacities_for(
        alloc,
        capacities,
        curve,
        totals.requests / one_in,
        totals.size / one_in,
        table,
    )?;
    chosen.retain(|capacity| capacity.get() >= first);
    Ok(chosen)
}

/// Returns the rows of a sample, each as one of all requests.
pub(crate) fn sized_rows_times<A: Allocator>(
    alloc: A,
    rows: &[SizedRow],
    totals: Totals,
) -> Result<Vec<SizedRow, A>, AllocError>
    ensures { IfOk result (λ shown. map sized_numbers_of shown.items
        ≡ map (sized_numbers_times (non_zero_usize_get totals.one_in) totals.requests totals.size) rows.now) }
{
    let mut shown = Vec::new(alloc);
    for row in rows {
        shown.push(SizedRow {
            capacity: row.capacity.saturating_mul(totals.one_in),
            misses: times(totals.one_in, totals.requests, row.misses),
            missed_size: times(totals.one_in, totals.size, row.missed_size),
            floor: floor_of_all(totals, row.floor),
        })?;
    }
    Ok(shown)
}

// The same of floors, if they are there.
fn floor_of_all(totals: Totals, floor: Option<RowFloor>) -> Option<RowFloor>
    ensures { result ≡ option_map
        (floor_times (non_zero_usize_get totals.one_in) totals.requests totals.size) floor }
{
    match floor {
        Some(floor) => Some(RowFloor {
            misses: times(totals.one_in, totals.requests, floor.misses),
            missed_size: times(totals.one_in, totals.size, floor.missed_size),
        }),
        None => None,
    }
}

// The greatest size is that of the kept requests.
fn summary_of_sized_sample<A: Allocator + Copy>(
    alloc: A,
    curve: &SizedCurve<A>,
    totals: Totals,
    bytes: usize,
) -> Result<String<A>, AllocError>
    requires { IsSettled curve.now }
    ensures { IfOk result (λ text. string_bytes text ≡ sized_summary_text totals.requests
        (times_of (non_zero_usize_get totals.one_in) (2 ^ 64 - 1) (distinct_in curve.now)) bytes totals.size
        (times_of (non_zero_usize_get totals.one_in) (2 ^ 64 - 1) curve.now.distinct_size)
        (min (1 + curve.now.greatest_weight) curve.now.distinct_size)) }
{
    let distinct = times(totals.one_in, usize::MAX, distinct_of(curve));
    let distinct_size = times(totals.one_in, usize::MAX, curve.distinct_size());
    sized_summary(
        alloc,
        totals.requests,
        distinct,
        bytes,
        totals.size,
        distinct_size,
        greatest_of(curve),
    )
}
