//! The text of a table, and that of the summary.
ghost use Rattle.std.specs.Prelude.{◌≡◌, ◌++◌, drop, IfOk, string_bytes};
ghost use Rattle.clru_report.specs.Tables.{line_of_row, point_of_row, summary_text, table_text};

use crate::columns::{Line, columns_of, push_header, push_row};
use crate::faithful::Point;
use crate::knees::is_knee;
use crate::rows::Row;
use std::alloc::{AllocError, Allocator};

/// The table with these rows and knees, for so many requests, in JSON or as CSV.
pub(crate) fn table_of<A: Allocator + Copy>(
    alloc: A,
    rows: &[Row],
    knees: &[usize],
    requests: usize,
    least: bool,
    floor: bool,
    json: bool,
) -> Result<String<A>, AllocError>
    ensures { IfOk result (λ text. string_bytes text ≡ table_text json least floor requests knees.now rows.now) }
{
    let columns = columns_of(alloc, false, least, floor)?;
    let shown = columns.as_slice();
    let mut text = String::new(alloc);
    push_header(&mut text, shown, json)?;
    let mut before = Point {
        capacity: 0,
        misses: requests,
    };
    for index in 0..rows.len() {
        let row = rows[index];
        let knee = is_knee(knees, row.capacity.get());
        push_row(
            &mut text,
            shown,
            line_of(&row, requests, before, knee),
            json,
        )?;
        before = point_of(&row);
    }
    Ok(text)
}

fn point_of(row: &Row) -> Point
    ensures { result ≡ point_of_row row.now }
{
    Point {
        capacity: row.capacity.get(),
        misses: row.misses,
    }
}

fn line_of(row: &Row, requests: usize, before: Point, knee: bool) -> Line
    ensures { result ≡ line_of_row requests before knee row.now }
{
    let capacity = row.capacity.get();
    let floor = row.floor.unwrap_or(0);
    Line {
        capacity,
        misses: row.misses,
        missed_size: row.misses,
        requests,
        size: requests,
        least: row.least.unwrap_or(0),
        floor_misses: floor,
        floor_missed_size: floor,
        saved: before.misses.saturating_sub(row.misses),
        added: capacity.saturating_sub(before.capacity),
        knee,
    }
}

/// The summary of so many requests for so many keys.
pub(crate) fn summary_of<A: Allocator + Copy>(
    alloc: A,
    requests: usize,
    distinct: usize,
    bytes: usize,
) -> Result<String<A>, AllocError>
    ensures { IfOk result (λ text. string_bytes text ≡ summary_text requests distinct bytes) }
{
    format!(in alloc; "requests,distinct_keys,input_bytes\n{requests},{distinct},{bytes}\n")
}
