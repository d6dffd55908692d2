//! The bars of the classes, with their names and numbers.

use super::LEFT;
use super::axis::length_of;
use super::words::{write_capacity, write_missed, write_name};
use crate::table::{Row, Table};
use std::alloc::Allocator;
use std::fmt::{self, Write};

// Where the name of the first class stands, and from one to the next.
const TOP: u128 = 1350;

const STRIDE: u128 = 560;

// Names stand free of the axis.
const NAME: u128 = LEFT + 60;

// Of a longer name the beginning is drawn. The description and what is shown over the bars have all of it.
const MOST_LETTERS: usize = 36;

pub(super) fn draw_classes<W: Write, A: Allocator>(
    text: &mut W,
    table: &Table<A>,
    most: usize,
) -> fmt::Result {
    let both = table.parts.iter().zip(table.equal_parts.iter());
    for (index, (part, equal)) in both.enumerate() {
        let height = (index as u128).saturating_mul(STRIDE).saturating_add(TOP);
        text.write_str("<g><title>")?;
        write_all(text, table.by_size, part, equal)?;
        text.write_str("</title>\n")?;
        draw_name(text, part, height)?;
        draw_numbers(text, table.by_size, part, height)?;
        let own = length_of(part.capacity, most);
        draw_bar(text, "lru best", own, height.saturating_add(105))?;
        let other = length_of(equal.capacity, most);
        draw_bar(text, "floor equal", other, height.saturating_add(215))?;
        text.write_str("</g>\n")?;
    }
    Ok(())
}

// All that is known of a class, in words.
fn write_all<W: Write, A: Allocator>(
    text: &mut W,
    by_size: bool,
    part: &Row<A>,
    equal: &Row<A>,
) -> fmt::Result {
    write_name(text, &part.name)?;
    text.write_str(": ")?;
    write_capacity(text, by_size, part.capacity)?;
    text.write_str(", ")?;
    write_missed(text, by_size, part)?;
    text.write_str("; with an equal part ")?;
    write_capacity(text, by_size, equal.capacity)?;
    text.write_str(", ")?;
    write_missed(text, by_size, equal)
}

fn draw_name<W: Write, A: Allocator>(text: &mut W, part: &Row<A>, height: u128) -> fmt::Result {
    write!(text, "<text x=\"{NAME}\" y=\"{height}\">")?;
    match part.name.get(..MOST_LETTERS) {
        Some(beginning) => {
            write_name(text, beginning)?;
            text.write_str(if part.name.len() > MOST_LETTERS {
                "…"
            } else {
                ""
            })?;
        }
        None => write_name(text, &part.name)?,
    }
    text.write_str("</text>\n")
}

// A picture that is shown small leaves the capacity to the bar.
fn draw_numbers<W: Write, A: Allocator>(
    text: &mut W,
    by_size: bool,
    part: &Row<A>,
    height: u128,
) -> fmt::Result {
    write!(
        text,
        "<text x=\"7660\" y=\"{height}\" text-anchor=\"end\"><tspan class=\"wide\">"
    )?;
    write_capacity(text, by_size, part.capacity)?;
    text.write_str(", </tspan>")?;
    write_missed(text, by_size, part)?;
    text.write_str("</text>\n")
}

fn draw_bar<W: Write>(text: &mut W, class: &str, length: u128, height: u128) -> fmt::Result {
    write!(
        text,
        "<path class=\"{class}\" d=\"M{LEFT} {height}h{length}\"/>\n"
    )
}
