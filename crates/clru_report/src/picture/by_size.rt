//! The picture where each key takes the size of its requests.
ghost use Rattle.std.specs.Prelude.{IfOk, string_bytes};
ghost use Rattle.clru_text.specs.Pictures.{HasTable};
ghost use Rattle.clru_report.specs.Passes.{IsSettled};

use crate::sized::{Floors, Totals, first_capacity, sized_capacities_for};
use clru_curve::{SizedCurve, Step};
use clru_text::{Capacities, Options, Plot, PlotLine, picture_of, times};
use std::alloc::{AllocError, Allocator};
use std::num::NonZeroUsize;

/// The picture of a curve: which part of the requests misses, and which of their size, with a line for the floor of this one if it is
/// there. The curve has so many distinct keys. Where it is of one key in some number, the picture shows what that says of all
/// requests, as rows do.
pub(crate) fn picture_by_size<A: Allocator + Copy>(
    alloc: A,
    curve: &SizedCurve<A>,
    floors: &Option<Floors<A>>,
    totals: Totals,
    distinct: usize,
    options: &Options<A>,
    table: &str,
) -> Result<String<A>, AllocError>
    requires { IsSettled curve.now }
    ensures { IfOk result (λ text. HasTable table.now (string_bytes text)) }
{
    let one_in = totals.one_in;
    let look = &options.look;
    let capacities = &options.capacities;
    let least = times(one_in, usize::MAX, first_capacity(curve));
    let first = match look.from {
        Some(from) => from.get().max(least),
        None => least,
    };
    let greatest = curve.distinct_size().max(greatest_named(capacities));
    let last = match look.to {
        Some(last) => last.get(),
        None => times(one_in, usize::MAX, greatest),
    };
    let plot = Plot {
        requests: totals.requests,
        distinct: times(one_in, usize::MAX, distinct),
        one_in,
        after: options.after,
        unit: "bytes",
        ends: (first, last),
        lines: lines_of(alloc, curve, totals, first, capacities)?,
        below: match floors {
            Some(floors) => Some(line_below(alloc, floors, totals, first, last)?),
            None => None,
        },
        least: None,
    };
    picture_of(alloc, &plot, look, table)
}

// Of how many parts of a capacity one more is taken for the next step of the floor.
const PARTS: usize = 256;

// The steps from 1 to the greatest number are fewer.
const MOST_STEPS: usize = 12_000;

// The line of the floor of the missed size, which may fall at each capacity: what is missed at capacities that lie close on the axis.
fn line_below<A: Allocator + Copy>(
    alloc: A,
    floors: &Floors<A>,
    totals: Totals,
    first: usize,
    last: usize,
) -> Result<PlotLine<A>, AllocError> {
    let one_in = totals.one_in;
    let floor = &floors.missed_size;
    let end = last / one_in.get();
    let mut room = NonZeroUsize::new(first / one_in.get()).unwrap_or(NonZeroUsize::MIN);
    let start = times(one_in, totals.size, floor.missed_size(room));
    let mut steps = Vec::new(alloc);
    for _ in 0..MOST_STEPS {
        room = room.saturating_add((room.get() / PARTS).saturating_add(1));
        if room.get() > end {
            break;
        }
        let capacity = times(one_in, usize::MAX, room.get());
        steps.push((
            capacity,
            times(one_in, totals.size, floor.missed_size(room)),
        ))?;
    }
    Ok(PlotLine {
        class: "below",
        name: "floor",
        whole: totals.size,
        start,
        steps,
        floor: 0,
        marks: Vec::new(alloc),
    })
}

/// Returns the greatest capacity that is named, or 0 if none is.
pub(super) fn greatest_named<A: Allocator>(capacities: &Capacities<A>) -> usize {
    match capacities {
        Capacities::Named(named) => named
            .iter()
            .map(|capacity| capacity.get())
            .max()
            .unwrap_or(0),
        _ => 0,
    }
}

// The part of the requests that misses, and that of their size.
fn lines_of<A: Allocator + Copy>(
    alloc: A,
    curve: &SizedCurve<A>,
    totals: Totals,
    first: usize,
    capacities: &Capacities<A>,
) -> Result<Vec<PlotLine<A>, A>, AllocError>
    requires { IsSettled curve.now }
{
    let one_in = totals.one_in;
    let least = first_capacity(curve);
    let (misses, missed_size) = missed_at(curve, (first / one_in.get()).max(least));
    let (fewest, fewest_size) = missed_at(curve, curve.distinct_size());
    let hits = curve.requests().saturating_sub(misses);
    let steps = curve.as_slice().get(hits..).unwrap_or(&[]);
    let (marks, marks_of_sizes) = marks_of(alloc, curve, totals, capacities)?;
    let mut lines = Vec::new(alloc);
    lines.push(PlotLine {
        class: "lru",
        name: "miss ratio",
        whole: totals.requests,
        start: times(one_in, totals.requests, misses),
        steps: steps_of_requests(alloc, steps, totals, misses)?,
        floor: times(one_in, totals.requests, fewest),
        marks,
    })?;
    lines.push(PlotLine {
        class: "bytes",
        name: "byte miss ratio",
        whole: totals.size,
        start: times(one_in, totals.size, missed_size),
        steps: steps_of_sizes(alloc, steps, totals)?,
        floor: times(one_in, totals.size, fewest_size),
        marks: marks_of_sizes,
    })?;
    Ok(lines)
}

// The capacities that are asked for, with the misses at each, and with their size. Below the greatest size kept requests have none.
fn marks_of<A: Allocator + Copy>(
    alloc: A,
    curve: &SizedCurve<A>,
    totals: Totals,
    capacities: &Capacities<A>,
) -> Result<(Vec<(usize, usize), A>, Vec<(usize, usize), A>), AllocError>
    requires { IsSettled curve.now }
{
    let mut marks = Vec::new(alloc);
    let mut marks_of_sizes = Vec::new(alloc);
    let one_in = totals.one_in;
    for capacity in asked_for(alloc, curve, totals, capacities)?.iter() {
        if capacity.get() > curve.greatest_weight() {
            let (misses, missed_size) = missed_at(curve, capacity.get());
            let at = capacity.saturating_mul(one_in).get();
            marks.push((at, times(one_in, totals.requests, misses)))?;
            marks_of_sizes.push((at, times(one_in, totals.size, missed_size)))?;
        }
    }
    Ok((marks, marks_of_sizes))
}

// Those that are named, or the one with a hit ratio.
fn asked_for<A: Allocator + Copy>(
    alloc: A,
    curve: &SizedCurve<A>,
    totals: Totals,
    capacities: &Capacities<A>,
) -> Result<Vec<NonZeroUsize, A>, AllocError>
    requires { IsSettled curve.now }
{
    match capacities {
        Capacities::Usual | Capacities::Each => Ok(Vec::new(alloc)),
        _ => sized_capacities_for(
            alloc,
            capacities,
            curve,
            totals.requests / totals.one_in.get(),
            totals.size / totals.one_in.get(),
            &[],
        ),
    }
}

// The misses and their size at a capacity.
fn missed_at<A: Allocator>(curve: &SizedCurve<A>, capacity: usize) -> (usize, usize) {
    match NonZeroUsize::new(capacity) {
        Some(capacity) => (
            curve.misses(capacity).unwrap_or(0),
            curve.missed_size(capacity).unwrap_or(0),
        ),
        None => (0, 0),
    }
}

// Each step is of one request that hits from there on.
fn steps_of_requests<A: Allocator>(
    alloc: A,
    steps: &[Step],
    totals: Totals,
    misses: usize,
) -> Result<Vec<(usize, usize), A>, AllocError> {
    let mut left = misses;
    let mut fallen = Vec::new(alloc);
    for step in steps {
        left = left.saturating_sub(1);
        let at = times(totals.one_in, usize::MAX, step.capacity);
        fallen.push((at, times(totals.one_in, totals.requests, left)))?;
    }
    Ok(fallen)
}

fn steps_of_sizes<A: Allocator>(
    alloc: A,
    steps: &[Step],
    totals: Totals,
) -> Result<Vec<(usize, usize), A>, AllocError> {
    let mut fallen = Vec::with_capacity(alloc, steps.len())?;
    for step in steps {
        let at = times(totals.one_in, usize::MAX, step.capacity);
        let missed_size = times(totals.one_in, totals.size, step.missed_size);
        fallen.push((at, missed_size))?;
    }
    Ok(fallen)
}
