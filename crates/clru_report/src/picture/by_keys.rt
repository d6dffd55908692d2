//! The picture where each key takes a place.
ghost use Rattle.std.specs.Prelude.{IfOk, string_bytes};
ghost use Rattle.clru_text.specs.Pictures.{HasTable};

use crate::rows::Row;
use crate::text::Counts;
use clru_least::Floor;
use clru_text::{Capacities, Options, Plot, PlotLine, picture_of, times};
use std::alloc::{AllocError, Allocator};
use std::num::NonZeroUsize;

/// The picture of the misses at 1, 2 and so on, with a line for their floor if it is there, a dot for each row that has the
/// least possible ones, and a ring for each capacity that was named. Where the curve is of one key in some number, it shows what that says of all requests, as rows do.
pub(crate) fn picture_by_keys<A: Allocator + Copy>(
    alloc: A,
    curve: &[usize],
    floor: &Option<Floor<A>>,
    counts: Counts,
    options: &Options<A>,
    rows: &[Row],
    table: &str,
) -> Result<String<A>, AllocError>
    ensures { IfOk result (λ text. HasTable table.now (string_bytes text)) }
{
    let one_in = counts.one_in;
    let requests = counts.requests;
    let greatest = rows.iter().map(|row| row.capacity.get()).max();
    let distinct = counts.distinct;
    let look = &options.look;
    let first = look.from.unwrap_or(one_in);
    let last = match look.to {
        Some(last) => last.get(),
        None => distinct.max(greatest.unwrap_or(1)),
    };
    let start = curve.get((first.get() / one_in.get()).saturating_sub(1));
    let start = *start.or(curve.last()).unwrap_or(&0);
    let mut lines = Vec::new(alloc);
    lines.push(PlotLine {
        class: "lru",
        name: "LRU",
        whole: requests,
        start: times(one_in, requests, start),
        steps: steps_of(alloc, curve, one_in, requests)?,
        floor: times(one_in, requests, *curve.last().unwrap_or(&0)),
        marks: match options.capacities {
            Capacities::Usual | Capacities::Each => Vec::new(alloc),
            _ => misses_of(alloc, rows)?,
        },
    })?;
    let plot = Plot {
        requests,
        distinct,
        one_in,
        after: options.after,
        unit: "keys",
        ends: (first.get(), last),
        lines,
        below: match floor {
            Some(floor) => Some(line_below(alloc, floor, curve.len(), first, counts)?),
            None => None,
        },
        least: if options.least {
            Some(dots_of(alloc, rows)?)
        } else {
            None
        },
    };
    picture_of(alloc, &plot, look, table)
}

// The line of the floor: what misses at the first capacity, and at each at which it falls.
fn line_below<A: Allocator + Copy>(
    alloc: A,
    floor: &Floor<A>,
    keys: usize,
    first: NonZeroUsize,
    counts: Counts,
) -> Result<PlotLine<A>, AllocError> {
    let one_in = counts.one_in;
    let requests = counts.requests;
    let start = NonZeroUsize::new(first.get() / one_in.get()).unwrap_or(NonZeroUsize::MIN);
    let mut steps = Vec::new(alloc);
    let mut room = NonZeroUsize::MIN;
    let mut last = floor.misses(room);
    for _ in 0..keys {
        let misses = floor.misses(room);
        if misses != last {
            let capacity = times(one_in, usize::MAX, room.get());
            steps.push((capacity, times(one_in, requests, misses)))?;
            last = misses;
        }
        room = room.saturating_add(1);
    }
    Ok(PlotLine {
        class: "below",
        name: "floor",
        whole: requests,
        start: times(one_in, requests, floor.misses(start)),
        steps,
        floor: 0,
        marks: Vec::new(alloc),
    })
}

// The capacities at which the misses fall, and the misses there.
fn steps_of<A: Allocator>(
    alloc: A,
    curve: &[usize],
    one_in: NonZeroUsize,
    requests: usize,
) -> Result<Vec<(usize, usize), A>, AllocError> {
    let mut steps = Vec::new(alloc);
    let mut last = *curve.first().unwrap_or(&0);
    for (index, misses) in curve.iter().enumerate() {
        if *misses != last {
            let capacity = times(one_in, usize::MAX, index.saturating_add(1));
            steps.push((capacity, times(one_in, requests, *misses)))?;
            last = *misses;
        }
    }
    Ok(steps)
}

fn misses_of<A: Allocator>(alloc: A, rows: &[Row]) -> Result<Vec<(usize, usize), A>, AllocError> {
    let mut points = Vec::new(alloc);
    for row in rows {
        points.push((row.capacity.get(), row.misses))?;
    }
    Ok(points)
}

fn dots_of<A: Allocator>(alloc: A, rows: &[Row]) -> Result<Vec<(usize, usize), A>, AllocError> {
    let mut dots = Vec::new(alloc);
    for row in rows {
        if let Some(least) = row.least {
            dots.push((row.capacity.get(), least))?;
        }
    }
    Ok(dots)
}
