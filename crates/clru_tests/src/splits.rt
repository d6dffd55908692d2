//! Splits of a budget, beside those that a search over all of them finds.

use crate::plain::room;
use clru_curve::{
    DefaultState, NonZeroUsize, SizedCurve, SizedRequestError, law_split, sized_curve,
};
use clru_uses::sized_curves::FileSizes;
use clru_uses::splits::{bytes_for_each, room_for_each};
use ration::{capacity_of, equal};
use std::alloc::Global;
use std::test::Fail;

/// Five keys in a circle, which all miss below five, so that more room gains nothing at first.
static CIRCLE: [u64; 20] = [1, 2, 3, 4, 5, 1, 2, 3, 4, 5, 1, 2, 3, 4, 5, 1, 2, 3, 4, 5];

/// A few keys more often than others.
static OFTEN: [u64; 16] = [1, 1, 2, 1, 3, 1, 2, 4, 1, 2, 1, 5, 1, 2, 3, 6];

/// A step, a budget, and the room for the circle and the others.
static ROOMS: [(usize, usize, usize, usize); 11] = [
    (1, 0, 0, 0),
    (1, 2, 0, 2),
    (1, 4, 0, 3),
    (1, 5, 5, 0),
    (1, 8, 5, 3),
    (1, 13, 5, 5),
    (2, 5, 0, 4),
    (2, 6, 6, 0),
    (3, 2, 0, 0),
    (3, 9, 6, 3),
    (3, 13, 6, 6),
];

#[test]
fn no_other_room_misses_less(rt: HostRuntime) -> Result<(), Fail> {
    for row in &ROOMS {
        equal!(rt; room_for_each(rt.alloc(), capacity_of(row.0)?, row.1, &CIRCLE, &OFTEN)?, (row.2, row.3));
    }
    equal!(rt; room_for_each(rt.alloc(), capacity_of(1)?, 7, &[], &OFTEN)?, (0, 5));
    equal!(rt; room_for_each(rt.alloc(), capacity_of(usize::MAX)?, usize::MAX, &[], &OFTEN)?, (0, usize::MAX));
    law_split::<u64>();
    Ok(())
}

/// The sizes of three films and of three icons.
static SIZES: [usize; 6] = [6, 5, 4, 1, 1, 2];

/// A step, a budget, and the room for films, for nothing and for icons. A film of 6 needs as much.
static PARTS: [(usize, usize, [usize; 3]); 14] = [
    (1, 0, [0, 0, 0]),
    (1, 1, [0, 0, 0]),
    (1, 3, [0, 0, 3]),
    (1, 5, [0, 0, 4]),
    (1, 14, [0, 0, 4]),
    (1, 15, [15, 0, 0]),
    (1, 18, [15, 0, 3]),
    (1, 23, [15, 0, 4]),
    (4, 7, [0, 0, 4]),
    (4, 19, [16, 0, 0]),
    (4, 24, [16, 0, 4]),
    (7, 6, [0, 0, 0]),
    (7, 13, [0, 0, 7]),
    (7, 21, [21, 0, 0]),
];

#[test]
fn no_other_parts_miss_less(rt: HostRuntime) {
    equal!(rt; first_wrong_row(rt.alloc()), Some(PARTS.len()));
}

/// The row whose split has other parts, or the number of rows. `None` is for want of memory.
fn first_wrong_row(alloc: Global) -> Option<usize> {
    let (Ok(films), Ok(none), Ok(icons)) = (
        curve_of(alloc, &[0, 1, 2, 0, 1, 2, 0, 1, 2, 0, 1, 2]),
        curve_of(alloc, &[]),
        curve_of(alloc, &[3, 4, 3, 5, 3, 4, 5, 3]),
    ) else {
        return None;
    };
    Some(wrong_row_of(alloc, &[films, none, icons]))
}

fn curve_of(alloc: Global, files: &[usize]) -> Result<SizedCurve, SizedRequestError<usize>> {
    sized_curve(alloc, files, FileSizes { bytes: &SIZES }, DefaultState)
}

fn wrong_row_of(alloc: Global, curves: &[SizedCurve]) -> usize {
    for (at, row) in PARTS.iter().enumerate() {
        if !has_parts(alloc, room(row.0), row.1, curves, &row.2) {
            return at;
        }
    }
    PARTS.len()
}

/// Whether the split has these parts.
fn has_parts(
    alloc: Global,
    step: NonZeroUsize,
    budget: usize,
    curves: &[SizedCurve],
    parts: &[usize],
) -> bool {
    match bytes_for_each(alloc, step, budget, curves) {
        Ok(room) => room.as_slice() == parts,
        Err(_) => false,
    }
}
