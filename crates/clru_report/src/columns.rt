//! The columns of a table, by keys or by size, and the lines that say them: as CSV or as JSON.
ghost use Rattle.std.specs.Prelude.{◌≡◌, ◌++◌, map, if◌then◌else◌, IfOk, OnOk, string_bytes};
ghost use Rattle.clru_report.specs.Columns.{begin_text, cell_text, columns, end_text, header_text, is_column, line_text, name_text, number_text, row_text, with_commas};

use clru_text::ratio_of;
use std::alloc::{AllocError, Allocator};

/// What a table may tell of each of its rows.
#[derive(Clone, Copy)]
pub enum Column {
    Capacity,
    Misses,
    MissRatio,
    MissedBytes,
    ByteMissRatio,
    LeastMisses,
    FloorMisses,
    FloorMissedBytes,
    SavedPerKey,
    SavedPerByte,
    Knee,
}

// In the order in which a line has them.
const COLUMNS: [Column; 11] = [
    Column::Capacity,
    Column::Misses,
    Column::MissRatio,
    Column::MissedBytes,
    Column::ByteMissRatio,
    Column::LeastMisses,
    Column::FloorMisses,
    Column::FloorMissedBytes,
    Column::SavedPerKey,
    Column::SavedPerByte,
    Column::Knee,
];

/// What the columns of a row are taken from. Numbers that no column of the table tells are 0.
#[derive(Clone, Copy)]
pub struct Line {
    pub capacity: usize,
    pub misses: usize,
    pub missed_size: usize,

    /// How many requests there are in all, and their size.
    pub requests: usize,
    pub size: usize,

    pub least: usize,
    pub floor_misses: usize,
    pub floor_missed_size: usize,

    /// How much less is missed than at the row before, and how much capacity is added.
    pub saved: usize,
    pub added: usize,

    pub knee: bool,
}

/// What stands in a line for each column.
#[derive(Clone, Copy)]
pub enum Cells {
    /// Its name.
    Names,
    /// Its number.
    Numbers(Line),
    /// Its name and its number, as in an object of JSON.
    Members(Line),
}

/// Returns the columns of a table by size or by keys, with the least and with the floor or without.
#[tactic(auto, unfolding(crate::specs::Columns::columns))]
pub(crate) fn columns_of<A: Allocator>(
    alloc: A,
    sizes: bool,
    least: bool,
    floor: bool,
) -> Result<Vec<Column, A>, AllocError>
    ensures { IfOk result (λ shown. shown.items ≡ columns sizes least floor) }
{
    COLUMNS
        .iter()
        .copied()
        .filter(|column| has_column(sizes, least, floor, *column))
        .collect(alloc)
}

fn has_column(sizes: bool, least: bool, floor: bool, column: Column) -> bool
    ensures { result ≡ is_column sizes least floor column }
{
    match column {
        Column::Capacity | Column::Misses | Column::MissRatio | Column::Knee => true,
        Column::MissedBytes | Column::ByteMissRatio | Column::SavedPerByte => sizes,
        Column::LeastMisses => least,
        Column::FloorMisses => floor,
        Column::FloorMissedBytes => sizes && floor,
        Column::SavedPerKey => !sizes,
    }
}

/// Adds the names of the columns, which CSV begins with.
pub(crate) fn push_header<A: Allocator>(
    text: &mut String<A>,
    columns: &[Column],
    json: bool,
) -> Result<(), AllocError>
    ensures { OnOk result (string_bytes text.new ≡ string_bytes text.old ++ header_text json columns.now) }
{
    if json {
        Ok(())
    } else {
        push_line(text, columns, Cells::Names)
    }
}

/// Adds a row.
pub(crate) fn push_row<A: Allocator>(
    text: &mut String<A>,
    columns: &[Column],
    line: Line,
    json: bool,
) -> Result<(), AllocError>
    ensures { OnOk result (string_bytes text.new ≡ string_bytes text.old ++ row_text json columns.now line) }
{
    if json {
        push_line(text, columns, Cells::Members(line))
    } else {
        push_line(text, columns, Cells::Numbers(line))
    }
}

fn push_line<A: Allocator>(
    text: &mut String<A>,
    columns: &[Column],
    cells: Cells,
) -> Result<(), AllocError>
    ensures { OnOk result (string_bytes text.new ≡ string_bytes text.old ++ line_text columns.now cells) }
{
    text.push_str(begin_of(cells))?;
    push_cells(text, columns, cells)?;
    text.push_str(end_of(cells))
}

fn begin_of(cells: Cells) -> &'static str
    ensures { result.now ≡ begin_text cells }
{
    match cells {
        Cells::Names | Cells::Numbers(_) => "",
        Cells::Members(_) => "{",
    }
}

fn end_of(cells: Cells) -> &'static str
    ensures { result.now ≡ end_text cells }
{
    match cells {
        Cells::Names | Cells::Numbers(_) => "\n",
        Cells::Members(_) => "}\n",
    }
}

// With a comma between each two.
fn push_cells<A: Allocator>(
    text: &mut String<A>,
    columns: &[Column],
    cells: Cells,
) -> Result<(), AllocError>
    ensures { OnOk result (string_bytes text.new ≡ string_bytes text.old ++ with_commas (map (cell_text cells) columns.now)) }
{
    let Some((first, rest)) = columns.split_first() else {
        return Ok(());
    };
    push_cell(text, *first, cells)?;
    for column in rest {
        text.push_str(",")?;
        push_cell(text, *column, cells)?;
    }
    Ok(())
}

fn push_cell<A: Allocator>(
    text: &mut String<A>,
    column: Column,
    cells: Cells,
) -> Result<(), AllocError>
    ensures { OnOk result (string_bytes text.new ≡ string_bytes text.old ++ cell_text cells column) }
{
    match cells {
        Cells::Names => text.push_str(name_of(column)),
        Cells::Numbers(line) => push_number(text, column, line),
        Cells::Members(line) => {
            text.push_str("\"")?;
            text.push_str(name_of(column))?;
            text.push_str("\":")?;
            push_number(text, column, line)
        }
    }
}

fn name_of(column: Column) -> &'static str
    ensures { result.now ≡ name_text column }
{
    match column {
        Column::Capacity => "capacity",
        Column::Misses => "misses",
        Column::MissRatio => "miss_ratio",
        Column::MissedBytes => "missed_bytes",
        Column::ByteMissRatio => "byte_miss_ratio",
        Column::LeastMisses => "least_misses",
        Column::FloorMisses => "floor_misses",
        Column::FloorMissedBytes => "floor_missed_bytes",
        Column::SavedPerKey => "saved_per_key",
        Column::SavedPerByte => "saved_per_byte",
        Column::Knee => "knee",
    }
}

fn push_number<A: Allocator>(
    text: &mut String<A>,
    column: Column,
    line: Line,
) -> Result<(), AllocError>
    ensures { OnOk result (string_bytes text.new ≡ string_bytes text.old ++ number_text line column) }
{
    match column {
        Column::Capacity => text.write(line.capacity),
        Column::Misses => text.write(line.misses),
        Column::MissRatio => text.write(ratio_of(line.misses, line.requests)),
        Column::MissedBytes => text.write(line.missed_size),
        Column::ByteMissRatio => text.write(ratio_of(line.missed_size, line.size)),
        Column::LeastMisses => text.write(line.least),
        Column::FloorMisses => text.write(line.floor_misses),
        Column::FloorMissedBytes => text.write(line.floor_missed_size),
        Column::SavedPerKey | Column::SavedPerByte => text.write(ratio_of(line.saved, line.added)),
        Column::Knee => text.write(mark_of(line.knee)),
    }
}

fn mark_of(knee: bool) -> u8
    ensures { result ≡ if knee then 1 else 0 }
{
    if knee { 1 } else { 0 }
}
