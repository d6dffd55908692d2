//! The axes of the picture, with their numbers and words.

use super::numbers::{Space, are_short, first_place, last_place, write_number, write_short};
use super::scale::{BOTTOM, HEIGHT, LEFT, RIGHT, Scale, TOP};
use super::style::{LARGE_LETTERS, LETTERS};
use super::words::write_words;
use crate::options::Look;
use crate::round::{ROUND_NUMBERS, round_at};
use std::alloc::Allocator;
use std::fmt::{self, Write};

/// The axes and the lines between them.
pub(super) fn draw_axes<W: Write, A: Allocator>(
    text: &mut W,
    scale: &Scale,
    unit: &str,
    look: &Look<A>,
) -> fmt::Result {
    draw_ratios(text)?;
    draw_capacities(text, scale)?;
    write!(
        text,
        "<path class=\"axis\" d=\"M{LEFT} {TOP}V{BOTTOM}H{RIGHT}\"/>\n<text x=\"4210\" y=\"4550\" text-anchor=\"middle\">capacity in "
    )?;
    match &look.unit {
        Some(unit) => write_words(text, unit)?,
        None => text.write_str(unit)?,
    }
    text.write_str(
        "</text>\n<text transform=\"translate(200 2310) rotate(-90)\" text-anchor=\"middle\">miss ratio</text>\n",
    )
}

fn draw_ratios<W: Write>(text: &mut W) -> fmt::Result {
    let mut down = BOTTOM;
    for label in ["0", "0.2", "0.4", "0.6", "0.8", "1"] {
        write!(
            text,
            "<path class=\"grid\" d=\"M{LEFT} {down}H{RIGHT}\"/>\n<text x=\"680\" y=\"{down}\" dy=\".36em\" text-anchor=\"end\">{label}</text>\n"
        )?;
        down = down.saturating_sub(HEIGHT / 5);
    }
    Ok(())
}

// Where powers of ten stand so far apart, there is space for lines at 2 and 5 between them.
const ROOMY: u128 = 500;

fn draw_capacities<W: Write>(text: &mut W, scale: &Scale) -> fmt::Result {
    let short = are_short(scale);
    draw_end(text, LEFT, first_place(scale.first), scale.first, short)?;
    let space = Space::new(scale, LETTERS);
    let little_space = Space::new(scale, LARGE_LETTERS);
    for index in 0..ROUND_NUMBERS {
        let capacity = round_at(index);
        if capacity >= scale.last as u128 {
            break;
        }
        if capacity <= scale.first as u128 {
            continue;
        }
        let across = scale.across(capacity as usize);
        if index % 3 == 0 {
            draw_line(text, "grid", across)?;
        } else if scale.decade() >= ROOMY {
            draw_line(text, "between", across)?;
        }
        if space.has(index, capacity, across) {
            let small_too = little_space.has(index, capacity, across);
            draw_capacity(text, across, capacity, short, small_too)?;
        }
    }
    draw_end(text, RIGHT, last_place(scale), scale.last, short)
}

fn draw_line<W: Write>(text: &mut W, class: &str, across: u128) -> fmt::Result {
    write!(
        text,
        "<path class=\"{class}\" d=\"M{across} {TOP}V{BOTTOM}\"/>\n"
    )
}

fn draw_capacity<W: Write>(
    text: &mut W,
    across: u128,
    capacity: u128,
    short: bool,
    small_too: bool,
) -> fmt::Result {
    let class = if small_too { "" } else { " class=\"wide\"" };
    write!(
        text,
        "<text{class} x=\"{across}\" y=\"4290\" text-anchor=\"middle\">"
    )?;
    write_capacity(text, capacity, short)?;
    text.write_str("</text>\n")
}

// An end of the axis, and its number at a place.
fn draw_end<W: Write>(
    text: &mut W,
    end: u128,
    place: (u128, &'static str),
    capacity: usize,
    short: bool,
) -> fmt::Result {
    let (across, anchor) = place;
    draw_line(text, "grid", end)?;
    write!(
        text,
        "<text x=\"{across}\" y=\"4290\" text-anchor=\"{anchor}\">"
    )?;
    write_capacity(text, capacity as u128, short)?;
    text.write_str("</text>\n")
}

fn write_capacity<W: Write>(text: &mut W, capacity: u128, short: bool) -> fmt::Result {
    if short {
        write_short(text, capacity)
    } else {
        write_number(text, capacity)
    }
}
