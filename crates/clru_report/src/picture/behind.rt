//! The picture by size of the requests behind the first ones.
ghost use Rattle.std.specs.Prelude.{IfOk, string_bytes};
ghost use Rattle.clru_text.specs.Pictures.{HasTable};
ghost use Rattle.clru_report.specs.Passes.{IsSettled};

use super::by_size::greatest_named;
use crate::sized::{Totals, distinct_of, first_capacity, missed_behind, misses_behind};
use clru_curve::SizedCurve;
use clru_text::{Options, Plot, PlotLine, picture_of};
use std::alloc::{AllocError, Allocator};
use std::num::NonZeroUsize;

/// The picture of what the head leaves of a curve: which part of the counted requests misses, and which of their size. Without a head
/// no requests are counted.
pub(crate) fn picture_behind<A: Allocator + Copy>(
    alloc: A,
    curve: &SizedCurve<A>,
    head: &Option<SizedCurve<A>>,
    totals: Totals,
    options: &Options<A>,
    asked: &[NonZeroUsize],
    table: &str,
) -> Result<String<A>, AllocError>
    requires { IsSettled curve.now }
    ensures { IfOk result (λ text. HasTable table.now (string_bytes text)) }
{
    let look = &options.look;
    let least = first_capacity(curve);
    let first = match look.from {
        Some(from) => from.get().max(least),
        None => least,
    };
    let last = match look.to {
        Some(last) => last.get(),
        None => curve
            .distinct_size()
            .max(greatest_named(&options.capacities)),
    };
    let plot = Plot {
        requests: totals.requests,
        distinct: distinct_of(curve),
        one_in: totals.one_in,
        after: options.after,
        unit: "bytes",
        ends: (first, last),
        lines: lines_behind(alloc, curve, head, totals, first, asked)?,
        below: None,
        least: None,
    };
    picture_of(alloc, &plot, look, table)
}

// The part of the requests that misses, and that of their size.
fn lines_behind<A: Allocator + Copy>(
    alloc: A,
    curve: &SizedCurve<A>,
    head: &Option<SizedCurve<A>>,
    totals: Totals,
    first: usize,
    asked: &[NonZeroUsize],
) -> Result<Vec<PlotLine<A>, A>, AllocError> {
    let mut lines = Vec::new(alloc);
    let all = curve.distinct_size();
    lines.push(PlotLine {
        class: "lru",
        name: "miss ratio",
        whole: totals.requests,
        start: part_at(curve, head, first, false),
        steps: steps_behind(alloc, curve, head, first, false)?,
        floor: part_at(curve, head, all, false),
        marks: marks_behind(alloc, curve, head, asked, false)?,
    })?;
    lines.push(PlotLine {
        class: "bytes",
        name: "byte miss ratio",
        whole: totals.size,
        start: part_at(curve, head, first, true),
        steps: steps_behind(alloc, curve, head, first, true)?,
        floor: part_at(curve, head, all, true),
        marks: marks_behind(alloc, curve, head, asked, true)?,
    })?;
    Ok(lines)
}

// At a capacity, the misses or their size. Without a head there are none.
fn part_at<A: Allocator>(
    curve: &SizedCurve<A>,
    head: &Option<SizedCurve<A>>,
    capacity: usize,
    sizes: bool,
) -> usize {
    match head {
        Some(head) if sizes => missed_behind(curve, head, capacity),
        Some(head) => misses_behind(curve, head, capacity),
        None => 0,
    }
}

// At each capacity behind the first one at which the whole curve falls.
fn steps_behind<A: Allocator + Copy>(
    alloc: A,
    curve: &SizedCurve<A>,
    head: &Option<SizedCurve<A>>,
    first: usize,
    sizes: bool,
) -> Result<Vec<(usize, usize), A>, AllocError> {
    let mut steps = Vec::new(alloc);
    let mut last = first;
    for step in curve.as_slice() {
        if step.capacity > last {
            last = step.capacity;
            steps.push((last, part_at(curve, head, last, sizes)))?;
        }
    }
    Ok(steps)
}

// At each capacity that is asked for.
fn marks_behind<A: Allocator + Copy>(
    alloc: A,
    curve: &SizedCurve<A>,
    head: &Option<SizedCurve<A>>,
    asked: &[NonZeroUsize],
    sizes: bool,
) -> Result<Vec<(usize, usize), A>, AllocError> {
    let mut marks = Vec::new(alloc);
    for capacity in asked {
        let at = capacity.get();
        marks.push((at, part_at(curve, head, at, sizes)))?;
    }
    Ok(marks)
}
