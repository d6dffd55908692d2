//! The picture of the parts, in SVG: for each class a bar as long as its capacity at the best split, and one as long as at equal parts.
ghost use Rattle.std.specs.Prelude.{◌≡◌, IfOk};
ghost use Rattle.clru_shares.specs.Forms.{HasTable, picture_head};

mod axis;
mod classes;
mod legend;
mod words;

use crate::table::Table;
use axis::draw_axis;
use classes::draw_classes;
use clru_text::STYLE;
use legend::draw_legend;
use std::alloc::{AllocError, Allocator};
use std::fmt::{self, Write};

// Where bars begin, in tenths of a pixel, as all numbers of a picture.
const LEFT: u128 = 340;

// What bars have beyond the style of all pictures.
const BARS: &str = "<style>
.clru_mrc .best{stroke-width:110}
.clru_mrc .equal{stroke-width:50;stroke-dasharray:none}
</style>
";

/// Returns the picture, with the table in its description.
pub(crate) fn picture_of<A: Allocator + Copy>(
    alloc: A,
    table: &Table<A>,
    csv: &[u8],
) -> Result<Vec<u8, A>, AllocError>
    ensures { IfOk result (λ text. HasTable csv.now text.items) }
{
    let drawn = drawn_of(alloc, table)?;
    let mut text = head(alloc, height_of(table.parts.len()))?;
    text.extend_from_slice(csv)?;
    text.extend_from_slice(b"</desc>\n")?;
    text.extend_from_slice(drawn.as_bytes())?;
    text.extend_from_slice(b"</svg>\n")?;
    Ok(text)
}

// In pixels, so that the last class has room.
fn height_of(classes: usize) -> usize {
    classes.saturating_mul(56).saturating_add(118)
}

fn head<A: Allocator + Copy>(alloc: A, height: usize) -> Result<Vec<u8, A>, AllocError>
    ensures { IfOk result (λ text. text.items ≡ picture_head height) }
{
    let tenths = height as u128 * 10;
    let begin = format!(in alloc;
        "<svg class=\"clru_mrc\" xmlns=\"http://www.w3.org/2000/svg\" role=\"img\" viewBox=\"0 0 8000 {tenths}\" width=\"800\" height=\"{height}\">\n<title>Shares of a budget</title>\n<desc>\n"
    )?;
    Vec::from_slice(alloc, begin.as_bytes())
}

fn drawn_of<A: Allocator>(alloc: A, table: &Table<A>) -> Result<String<A>, AllocError> {
    let mut text = String::new(alloc);
    match draw(&mut text, table) {
        Ok(()) => Ok(text),
        Err(_) => Err(AllocError),
    }
}

fn draw<W: Write, A: Allocator>(text: &mut W, table: &Table<A>) -> fmt::Result {
    let bottom = height_of(table.parts.len()) as u128 * 10;
    let rows = table.parts.iter().chain(table.equal_parts.iter());
    let most = rows.map(|row| row.capacity).max().unwrap_or(0);
    text.write_str(STYLE)?;
    text.write_str(BARS)?;
    write!(
        text,
        "<rect class=\"page\" width=\"8000\" height=\"{bottom}\"/>\n"
    )?;
    draw_legend(text, table)?;
    draw_axis(text, most, bottom)?;
    draw_classes(text, table, most)
}
