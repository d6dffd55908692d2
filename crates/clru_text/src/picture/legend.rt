//! What stands above the axes: the heading, and the meaning of each mark.

use super::numbers::write_number;
use super::plot::{Plot, PlotLine};
use super::scale::LEFT;
use super::words::write_words;
use crate::options::Look;
use std::alloc::Allocator;
use std::fmt::{self, Write};

// From one line of the legend to the next, and where a floor stands behind several.
const STRIDE: u128 = 2200;

const NARROW_STRIDE: u128 = 1700;

// And to the one behind that of first requests.
const BEYOND_FIRST: u128 = 2100;

pub(super) fn draw_legend<W: Write, A: Allocator>(
    text: &mut W,
    plot: &Plot<A>,
    look: &Look<A>,
) -> fmt::Result {
    write!(text, "<text x=\"{LEFT}\" y=\"190\">")?;
    match &look.title {
        Some(title) => write_words(text, title)?,
        None => write_numbers(text, plot)?,
    }
    text.write_str("</text>\n")?;
    let stride = if plot.below.is_some() {
        NARROW_STRIDE
    } else {
        STRIDE
    };
    let mut left = LEFT;
    for line in plot.lines.iter() {
        draw_name(text, line, left)?;
        left = left.saturating_add(stride);
    }
    if plot.least.is_some() {
        text.write_str(
            "<circle class=\"least\" cx=\"2050\" cy=\"375\" r=\"45\"/>\n<text x=\"2170\" y=\"430\">least possible</text>\n",
        )?;
    }
    draw_floor(text, floor_of(plot))?;
    match &plot.below {
        Some(line) => draw_name(text, line, floor_of(plot).saturating_add(BEYOND_FIRST)),
        None => Ok(()),
    }
}

// A piece of the line, and its name.
fn draw_name<W: Write, A: Allocator>(text: &mut W, line: &PlotLine<A>, left: u128) -> fmt::Result {
    let class = line.class;
    let name = line.name;
    let beside = left.saturating_add(500);
    write!(
        text,
        "<path class=\"{class}\" d=\"M{left} 375h400\"/>\n<text x=\"{beside}\" y=\"430\">{name}</text>\n"
    )
}

// What a sample tells is no count.
fn write_numbers<W: Write, A: Allocator>(text: &mut W, plot: &Plot<A>) -> fmt::Result {
    write_counted(text, plot.requests, " request")?;
    if let Some(after) = plot.after {
        text.write_str(" after the first ")?;
        write_number(text, after.get() as u128)?;
        text.write_str(", ")?;
        write_counted(text, plot.distinct, " distinct key")?;
        return text.write_str(" in all");
    }
    if plot.one_in.get() == 1 {
        text.write_str(", ")?;
        return write_counted(text, plot.distinct, " distinct key");
    }
    text.write_str(", about ")?;
    write_counted(text, plot.distinct, " distinct key")?;
    text.write_str(", told from one key in ")?;
    write_number(text, plot.one_in.get() as u128)
}

// A number of things, of which one has the name.
fn write_counted<W: Write>(text: &mut W, number: usize, name: &str) -> fmt::Result {
    write_number(text, number as u128)?;
    text.write_str(name)?;
    if number == 1 {
        Ok(())
    } else {
        text.write_str("s")
    }
}

// Where the line of first requests is named, behind the others.
fn floor_of<A: Allocator>(plot: &Plot<A>) -> u128 {
    if plot.lines.len() > 1 {
        if plot.below.is_some() { 4650 } else { 5400 }
    } else if plot.least.is_some() {
        4000
    } else {
        2000
    }
}

fn draw_floor<W: Write>(text: &mut W, left: u128) -> fmt::Result {
    let beside = left.saturating_add(500);
    write!(
        text,
        "<path class=\"floor\" d=\"M{left} 375h400\"/>\n<text x=\"{beside}\" y=\"430\">first requests</text>\n"
    )
}
