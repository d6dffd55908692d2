//! What stands above the bars: the heading, and what each way to spend the budget misses.

use super::LEFT;
use super::words::{write_capacity, write_counted, write_missed};
use crate::table::{Row, Table};
use std::alloc::Allocator;
use std::fmt::{self, Write};

pub(super) fn draw_legend<W: Write, A: Allocator>(text: &mut W, table: &Table<A>) -> fmt::Result {
    let by_size = table.by_size;
    write!(text, "<text x=\"{LEFT}\" y=\"190\">")?;
    write_counted(text, table.one.requests, "request", "requests")?;
    text.write_str(" of ")?;
    write_counted(text, table.parts.len(), "class", "classes")?;
    text.write_str(", a budget of ")?;
    write_capacity(text, by_size, table.budget)?;
    text.write_str("</text>\n")?;
    draw_mark(text, "lru best", 375)?;
    draw_way(text, "best split", by_size, &table.best, 430)?;
    draw_mark(text, "floor equal", 605)?;
    draw_way(text, "equal parts", by_size, &table.equal, 660)?;
    draw_way(text, "one for all", by_size, &table.one, 890)?;
    let unit = if by_size { "bytes" } else { "keys" };
    write!(
        text,
        "<text x=\"7660\" y=\"890\" text-anchor=\"end\">capacity in {unit}</text>\n"
    )
}

// A piece of a bar.
fn draw_mark<W: Write>(text: &mut W, class: &str, height: u128) -> fmt::Result {
    write!(
        text,
        "<path class=\"{class}\" d=\"M{LEFT} {height}h400\"/>\n"
    )
}

fn draw_way<W: Write, A: Allocator>(
    text: &mut W,
    name: &str,
    by_size: bool,
    row: &Row<A>,
    height: u128,
) -> fmt::Result {
    write!(text, "<text x=\"840\" y=\"{height}\">{name}: ")?;
    write_missed(text, by_size, row)?;
    text.write_str("</text>\n")
}
