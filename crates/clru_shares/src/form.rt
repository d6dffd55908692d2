//! The text of a table, in each form.
ghost use Rattle.std.specs.Prelude.{◌≡◌, ◌++◌, true, map, IfOk, OnOk};
ghost use Rattle.clru_shares.specs.Forms.{IsTextOf, csv_row, csv_text, header_text, json_row, key_members, row_text, rows_text, size_cells, size_members, size_names};
ghost use Rattle.clru_shares.specs.Passes.{part_of_row, parts_of_table};

use crate::picture::picture_of;
use crate::table::{Row, Table};
use clru_text::ratio_of;
use std::alloc::{AllocError, Allocator};

/// What is written of a split.
#[derive(Clone, Copy, Debug, PartialEq, Eq)]
pub enum SplitForm {
    /// The table, as CSV.
    Table,
    /// The table as JSON: an object for each row, on a line of its own, whose names are those of the columns.
    Json,
    /// A picture of the parts beside equal ones, with the table in its description.
    Picture,
}

/// Returns the text of the table in this form.
pub(crate) fn text_of<A: Allocator + Copy>(
    alloc: A,
    form: SplitForm,
    table: &Table<A>,
) -> Result<Vec<u8, A>, AllocError>
    ensures { IfOk result (λ text. IsTextOf form table.now.by_size (parts_of_table table.now) text.items) }
{
    match form {
        SplitForm::Table => csv_of(alloc, table),
        SplitForm::Json => json_of(alloc, table),
        SplitForm::Picture => {
            let csv = csv_of(alloc, table)?;
            picture_of(alloc, table, &csv)
        }
    }
}

fn csv_of<A: Allocator + Copy>(alloc: A, table: &Table<A>) -> Result<Vec<u8, A>, AllocError>
    ensures { IfOk result (λ text. text.items ≡ csv_text table.now.by_size (parts_of_table table.now)) }
{
    let mut text = Vec::new(alloc);
    push_header(&mut text, table.by_size)?;
    push_table(alloc, &mut text, false, table)?;
    Ok(text)
}

fn json_of<A: Allocator + Copy>(alloc: A, table: &Table<A>) -> Result<Vec<u8, A>, AllocError>
    ensures { IfOk result (λ text. text.items ≡ rows_text true table.now.by_size (parts_of_table table.now)) }
{
    let mut text = Vec::new(alloc);
    push_table(alloc, &mut text, true, table)?;
    Ok(text)
}

// Adds the names of the columns.
fn push_header<A: Allocator>(text: &mut Vec<u8, A>, by_size: bool) -> Result<(), AllocError>
    ensures { OnOk result (text.new.items ≡ text.old.items ++ header_text by_size) }
{
    text.extend_from_slice(b"class,capacity,misses,miss_ratio")?;
    text.extend_from_slice(names_by_size(by_size).as_bytes())?;
    text.extend_from_slice(b"\n")
}

fn names_by_size(by_size: bool) -> &'static str
    ensures { result.now ≡ size_names by_size }
{
    if by_size {
        ",missed_bytes,byte_miss_ratio"
    } else {
        ""
    }
}

// Adds a row for each class, and one for each way to spend the budget.
fn push_table<A: Allocator + Copy>(
    alloc: A,
    text: &mut Vec<u8, A>,
    json: bool,
    table: &Table<A>,
) -> Result<(), AllocError>
    ensures { OnOk result (text.new.items ≡ text.old.items ++ rows_text json table.now.by_size (parts_of_table table.now)) }
{
    let by_size = table.by_size;
    push_rows(alloc, text, json, by_size, &table.parts)?;
    push_row(alloc, text, json, by_size, &table.best)?;
    push_row(alloc, text, json, by_size, &table.equal)?;
    push_row(alloc, text, json, by_size, &table.one)?;
    Ok(())
}

fn push_rows<A: Allocator + Copy>(
    alloc: A,
    text: &mut Vec<u8, A>,
    json: bool,
    by_size: bool,
    rows: &[Row<A>],
) -> Result<(), AllocError>
    ensures { OnOk result (text.new.items ≡ text.old.items ++ rows_text json by_size (map part_of_row rows.now)) }
{
    for row in rows {
        push_row(alloc, text, json, by_size, row)?;
    }
    Ok(())
}

fn push_row<A: Allocator + Copy>(
    alloc: A,
    text: &mut Vec<u8, A>,
    json: bool,
    by_size: bool,
    row: &Row<A>,
) -> Result<(), AllocError>
    ensures { OnOk result (text.new.items ≡ text.old.items ++ row_text json by_size (part_of_row row.now)) }
{
    if json {
        push_object(alloc, text, by_size, row)
    } else {
        push_line(alloc, text, by_size, row)
    }
}

fn push_line<A: Allocator + Copy>(
    alloc: A,
    text: &mut Vec<u8, A>,
    by_size: bool,
    row: &Row<A>,
) -> Result<(), AllocError>
    ensures { OnOk result (text.new.items ≡ text.old.items ++ csv_row by_size (part_of_row row.now)) }
{
    let capacity = row.capacity;
    let misses = row.misses;
    let ratio = ratio_of(row.misses, row.requests);
    let numbers = format!(in alloc; ",{capacity},{misses},{ratio}")?;
    text.extend_from_slice(&row.name)?;
    text.extend_from_slice(numbers.as_bytes())?;
    push_size_cells(alloc, text, by_size, row)?;
    text.extend_from_slice(b"\n")
}

fn push_size_cells<A: Allocator + Copy>(
    alloc: A,
    text: &mut Vec<u8, A>,
    by_size: bool,
    row: &Row<A>,
) -> Result<(), AllocError>
    ensures { OnOk result (text.new.items ≡ text.old.items ++ size_cells by_size (part_of_row row.now)) }
{
    if !by_size {
        return Ok(());
    }
    let missed = row.missed_size;
    let ratio = ratio_of(row.missed_size, row.size);
    let numbers = format!(in alloc; ",{missed},{ratio}")?;
    text.extend_from_slice(numbers.as_bytes())
}

fn push_object<A: Allocator + Copy>(
    alloc: A,
    text: &mut Vec<u8, A>,
    by_size: bool,
    row: &Row<A>,
) -> Result<(), AllocError>
    ensures { OnOk result (text.new.items ≡ text.old.items ++ json_row by_size (part_of_row row.now)) }
{
    text.extend_from_slice(b"{\"class\":\"")?;
    text.extend_from_slice(&row.name)?;
    text.extend_from_slice(b"\"")?;
    push_key_members(alloc, text, row)?;
    push_size_members(alloc, text, by_size, row)?;
    text.extend_from_slice(b"}\n")?;
    Ok(())
}

fn push_key_members<A: Allocator + Copy>(
    alloc: A,
    text: &mut Vec<u8, A>,
    row: &Row<A>,
) -> Result<(), AllocError>
    ensures { OnOk result (text.new.items ≡ text.old.items ++ key_members (part_of_row row.now)) }
{
    let capacity = row.capacity;
    let misses = row.misses;
    let ratio = ratio_of(row.misses, row.requests);
    let members = format!(in alloc;
        ",\"capacity\":{capacity},\"misses\":{misses},\"miss_ratio\":{ratio}"
    )?;
    text.extend_from_slice(members.as_bytes())?;
    Ok(())
}

fn push_size_members<A: Allocator + Copy>(
    alloc: A,
    text: &mut Vec<u8, A>,
    by_size: bool,
    row: &Row<A>,
) -> Result<(), AllocError>
    ensures { OnOk result (text.new.items ≡ text.old.items ++ size_members by_size (part_of_row row.now)) }
{
    if !by_size {
        return Ok(());
    }
    let missed = row.missed_size;
    let ratio = ratio_of(row.missed_size, row.size);
    let members = format!(in alloc; ",\"missed_bytes\":{missed},\"byte_miss_ratio\":{ratio}")?;
    text.extend_from_slice(members.as_bytes())?;
    Ok(())
}
