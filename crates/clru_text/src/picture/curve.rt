//! The lines of the picture.

use super::plot::{Plot, PlotLine};
use super::scale::{LEFT, RIGHT, Scale, down};
use std::alloc::Allocator;
use std::fmt::{self, Write};

// Of steps that are nearer to one another than a pixel the last is drawn.
const NEAR: u128 = 10;

/// One line. Without requests there is none.
pub(super) fn draw_line<W: Write, A: Allocator>(
    text: &mut W,
    scale: &Scale,
    line: &PlotLine<A>,
) -> fmt::Result {
    if line.whole == 0 {
        return Ok(());
    }
    let class = line.class;
    let mut across = LEFT;
    let mut height = down(line.start, line.whole);
    write!(text, "<path class=\"{class}\" d=\"M{across} {height}")?;
    let mut next = match line.steps.first() {
        Some((capacity, _)) => scale.across(*capacity),
        None => RIGHT,
    };
    for (index, (capacity, part)) in line.steps.iter().enumerate() {
        let here = next;
        let hidden = match line.steps.get(index.saturating_add(1)) {
            Some((capacity, _)) => {
                next = scale.across(*capacity);
                next < here.saturating_add(1).max(across.saturating_add(NEAR))
            }
            None => false,
        };
        if hidden || !scale.has(*capacity) {
            continue;
        }
        let next_height = down(*part, line.whole);
        if next_height != height {
            write!(text, "H{here}V{next_height}")?;
            across = here;
            height = next_height;
        }
    }
    write!(text, "H{RIGHT}\"/>\n")
}

/// What misses at each capacity, as a line of its own.
pub(super) fn draw_floor<W: Write, A: Allocator>(text: &mut W, line: &PlotLine<A>) -> fmt::Result {
    if line.whole == 0 {
        return Ok(());
    }
    let height = down(line.floor, line.whole);
    write!(
        text,
        "<path class=\"floor\" d=\"M{LEFT} {height}H{RIGHT}\"/>\n"
    )
}

/// A dot for each least. Between two of them it is not known, so no line joins them.
pub(super) fn draw_least<W: Write, A: Allocator>(
    text: &mut W,
    scale: &Scale,
    plot: &Plot<A>,
) -> fmt::Result {
    let Some(dots) = &plot.least else {
        return Ok(());
    };
    if plot.requests == 0 {
        return Ok(());
    }
    for (capacity, least) in dots.iter() {
        if !scale.has(*capacity) {
            continue;
        }
        let across = scale.across(*capacity);
        let height = down(*least, plot.requests);
        write!(
            text,
            "<circle class=\"least\" cx=\"{across}\" cy=\"{height}\" r=\"45\"/>\n"
        )?;
    }
    Ok(())
}
