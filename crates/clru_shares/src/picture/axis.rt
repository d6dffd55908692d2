//! The axis of capacities.

use super::LEFT;
use super::words::write_number;
use std::fmt::{self, Write};

// How long the longest bar is.
const WIDTH: u128 = 7320;

// Behind the line at 0 there are at most so many.
const MOST_LINES: usize = 4;

// From here on a number would reach beyond the picture.
const RIGHT_EDGE: u128 = 7000;

/// How long the bar of a capacity is, beside that of the greatest one.
pub(super) fn length_of(capacity: usize, most: usize) -> u128 {
    WIDTH * capacity as u128 / most.max(1) as u128
}

/// Lines at round capacities, with their numbers above.
pub(super) fn draw_axis<W: Write>(text: &mut W, most: usize, bottom: u128) -> fmt::Result {
    let step = step_to(most);
    for index in 0..MOST_LINES + 1 {
        let capacity = step.saturating_mul(index);
        if capacity > most {
            break;
        }
        let across = length_of(capacity, most).saturating_add(LEFT);
        let line = if index == 0 { "axis" } else { "grid" };
        write!(
            text,
            "<path class=\"{line}\" d=\"M{across} 1150V{bottom}\"/>\n"
        )?;
        let class = if index % 2 == 0 {
            ""
        } else {
            " class=\"wide\""
        };
        let anchor = if across > RIGHT_EDGE { "end" } else { "middle" };
        write!(
            text,
            "<text{class} x=\"{across}\" y=\"1120\" text-anchor=\"{anchor}\">"
        )?;
        write_number(text, capacity)?;
        text.write_str("</text>\n")?;
    }
    Ok(())
}

// The least of 1, 2, 5, 10, 20, 50 and so on by which so many lines reach the greatest capacity.
fn step_to(most: usize) -> usize {
    let mut power: usize = 1;
    for _ in 0..20 {
        for factor in [1, 2, 5] {
            let step = power.saturating_mul(factor);
            if step.saturating_mul(MOST_LINES) >= most {
                return step;
            }
        }
        power = power.saturating_mul(10);
    }
    power
}
