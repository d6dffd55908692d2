//! The text of a table by size, and that of the summary.
ghost use Rattle.std.specs.Prelude.{◌≡◌, ◌+◌, ◌++◌, drop, IfOk, min, string_bytes};
ghost use Rattle.clru_curve.specs.SizedCurves.{misses_within};
ghost use Rattle.clru_report.specs.Passes.{IsSettled, distinct_in};
ghost use Rattle.clru_report.specs.SizedTables.{line_of_sized_row, point_of_sized_row, sized_summary_text, sized_table_text, three_numbers as three_numbers_text};

use super::capacities::first_capacity;
use super::floors::RowFloor;
use super::rows::SizedRow;
use crate::columns::{Line, columns_of, push_header, push_row};
use crate::faithful::Point;
use crate::knees::is_knee;
use clru_curve::SizedCurve;
use std::alloc::{AllocError, Allocator};
use std::num::NonZeroUsize;

/// The table with these rows and knees, for so many requests of this size in all, in JSON or as CSV.
pub(crate) fn sized_table_of<A: Allocator + Copy>(
    alloc: A,
    rows: &[SizedRow],
    knees: &[usize],
    requests: usize,
    size: usize,
    floor: bool,
    json: bool,
) -> Result<String<A>, AllocError>
    ensures { IfOk result (λ text. string_bytes text ≡ sized_table_text json floor requests size knees.now rows.now) }
{
    let columns = columns_of(alloc, true, false, floor)?;
    let shown = columns.as_slice();
    let mut text = String::new(alloc);
    push_header(&mut text, shown, json)?;
    let mut before = Point {
        capacity: 0,
        misses: size,
    };
    for index in 0..rows.len() {
        let row = rows[index];
        let knee = is_knee(knees, row.capacity.get());
        let line = sized_line_of(&row, requests, size, before, knee);
        push_row(&mut text, shown, line, json)?;
        before = point_of(&row);
    }
    Ok(text)
}

fn point_of(row: &SizedRow) -> Point
    ensures { result ≡ point_of_sized_row row.now }
{
    Point {
        capacity: row.capacity.get(),
        misses: row.missed_size,
    }
}

fn sized_line_of(row: &SizedRow, requests: usize, size: usize, before: Point, knee: bool) -> Line
    ensures { result ≡ line_of_sized_row requests size before knee row.now }
{
    let capacity = row.capacity.get();
    let floor = row.floor.unwrap_or(RowFloor {
        misses: 0,
        missed_size: 0,
    });
    Line {
        capacity,
        misses: row.misses,
        missed_size: row.missed_size,
        requests,
        size,
        least: 0,
        floor_misses: floor.misses,
        floor_missed_size: floor.missed_size,
        saved: before.misses.saturating_sub(row.missed_size),
        added: capacity.saturating_sub(before.capacity),
        knee,
    }
}

/// The summary of a curve, and of how many bytes of input it is.
pub(crate) fn sized_summary_of<A: Allocator + Copy>(
    alloc: A,
    curve: &SizedCurve<A>,
    bytes: usize,
) -> Result<String<A>, AllocError>
    requires { IsSettled curve.now }
    ensures { IfOk result (λ text. string_bytes text ≡ sized_summary_text curve.now.requests (distinct_in curve.now)
        bytes curve.now.size curve.now.distinct_size (min (1 + curve.now.greatest_weight) curve.now.distinct_size)) }
{
    sized_summary(
        alloc,
        curve.requests(),
        distinct_of(curve),
        bytes,
        curve.size(),
        curve.distinct_size(),
        greatest_of(curve),
    )
}

/// The summary with these numbers.
pub(super) fn sized_summary<A: Allocator + Copy>(
    alloc: A,
    requests: usize,
    distinct: usize,
    bytes: usize,
    size: usize,
    distinct_size: usize,
    greatest: usize,
) -> Result<String<A>, AllocError>
    ensures { IfOk result (λ text. string_bytes text
        ≡ sized_summary_text requests distinct bytes size distinct_size greatest) }
{
    let keys = three_numbers(alloc, requests, distinct, bytes)?;
    let sizes = three_numbers(alloc, size, distinct_size, greatest)?;
    format!(in alloc;
        "requests,distinct_keys,input_bytes,requested_bytes,distinct_bytes,greatest_size\n{keys},{sizes}\n"
    )
}

fn three_numbers<A: Allocator + Copy>(
    alloc: A,
    a: usize,
    b: usize,
    c: usize,
) -> Result<String<A>, AllocError>
    ensures { IfOk result (λ text. string_bytes text ≡ three_numbers_text a b c) }
{
    format!(in alloc; "{a},{b},{c}")
}

/// The greatest size. Where there is no line, the first capacity is no size.
pub(super) fn greatest_of<A: Allocator>(curve: &SizedCurve<A>) -> usize
    requires { IsSettled curve.now }
    ensures { result ≡ min (1 + curve.now.greatest_weight) curve.now.distinct_size }
{
    let first = first_capacity(curve);
    let all = curve.distinct_size();
    if first < all { first } else { all }
}

/// How many keys there are: with room for all of them, so many requests miss.
pub(crate) fn distinct_of<A: Allocator>(curve: &SizedCurve<A>) -> usize
    requires { IsSettled curve.now }
    ensures { result ≡ distinct_in curve.now }
{
    match NonZeroUsize::new(curve.distinct_size()) {
        Some(room) => curve.misses(room).unwrap_or(0),
        None => 0,
    }
}
