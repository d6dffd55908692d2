//! The capacities that were named, on the lines of the picture, each with its ratio.

use super::plot::PlotLine;
use super::scale::{LEFT, RIGHT, Scale, TOP, down};
use std::alloc::Allocator;
use std::fmt::{self, Write};

// From one ratio of a line to the next, and in letters of a picture that is shown small. With two lines both have to have room.
const STRIDE: u128 = 400;

const LARGE_STRIDE: u128 = 560;

/// A ring at each capacity that was named, and beside it the ratio, where there is room. A line falls to the right, so that there is
/// room above it on the right, and below it on the left; near the top it is flat.
pub(super) fn draw_marks<W: Write, A: Allocator>(
    text: &mut W,
    scale: &Scale,
    line: &PlotLine<A>,
    above: bool,
    lines: u128,
) -> fmt::Result {
    if line.whole == 0 {
        return Ok(());
    }
    let class = line.class;
    let mut last = 0u128;
    for (capacity, part) in line.marks.iter() {
        if !scale.has(*capacity) {
            continue;
        }
        let across = scale.across(*capacity);
        let height = down(*part, line.whole);
        write!(
            text,
            "<circle class=\"{class} mark\" cx=\"{across}\" cy=\"{height}\" r=\"45\"/>\n"
        )?;
        let stride = across.saturating_sub(last);
        if last == 0 || stride >= STRIDE.saturating_mul(lines) {
            let small_too = last == 0 || stride >= LARGE_STRIDE.saturating_mul(lines);
            let place = if above {
                place_above(across, height)
            } else {
                place_below(across, height)
            };
            draw_ratio(text, place, hundredths(*part, line.whole), small_too)?;
            last = across;
        }
    }
    Ok(())
}

// So near to an end of the axis there is no room for a ratio beyond it.
const LEFT_EDGE: u128 = 600;

const RIGHT_EDGE: u128 = 230;

// As near to the top a ratio would stand in the legend.
const TOP_EDGE: u128 = 230;

// Where a ratio stands, and which part of it.
type Place = (u128, u128, &'static str);

fn place_above(across: u128, height: u128) -> Place {
    if height < TOP + TOP_EDGE && across >= LEFT + LEFT_EDGE {
        (across.saturating_sub(70), height.saturating_add(190), "end")
    } else if height < TOP + TOP_EDGE {
        (
            across.saturating_add(70),
            height.saturating_add(230),
            "start",
        )
    } else if across.saturating_add(RIGHT_EDGE) > RIGHT {
        (across, height.saturating_sub(100), "middle")
    } else {
        (
            across.saturating_add(70),
            height.saturating_sub(60),
            "start",
        )
    }
}

fn place_below(across: u128, height: u128) -> Place {
    if height < TOP + TOP_EDGE || across < LEFT + LEFT_EDGE {
        (
            across.saturating_add(70),
            height.saturating_add(230),
            "start",
        )
    } else {
        (across.saturating_sub(70), height.saturating_add(190), "end")
    }
}

// A hundredth of the whole is one, rounded.
fn hundredths(part: usize, whole: usize) -> u128 {
    let whole = whole.max(1) as u128;
    (200 * (part as u128) + whole) / (2 * whole)
}

fn draw_ratio<W: Write>(text: &mut W, place: Place, ratio: u128, small_too: bool) -> fmt::Result {
    let (across, height, anchor) = place;
    let class = if small_too { "" } else { " class=\"wide\"" };
    let ones = ratio / 100;
    let rest = ratio % 100;
    write!(
        text,
        "<text{class} x=\"{across}\" y=\"{height}\" text-anchor=\"{anchor}\">{ones}.{rest:02}</text>\n"
    )
}
