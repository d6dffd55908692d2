//! Where a capacity and a number of misses stand in the picture, in tenths of a pixel.

pub(super) const LEFT: u128 = 760;

pub(super) const TOP: u128 = 560;

pub(super) const WIDTH: u128 = 6900;

pub(super) const HEIGHT: u128 = 3500;

pub(super) const RIGHT: u128 = LEFT + WIDTH;

pub(super) const BOTTOM: u128 = TOP + HEIGHT;

/// From the top edge of the picture to a part of a whole.
pub(super) fn down(part: usize, whole: usize) -> u128 {
    let whole = whole.max(1);
    let length = match part.checked_mul(HEIGHT as usize) {
        Some(product) => (product / whole) as u128,
        None => HEIGHT * part as u128 / whole as u128,
    };
    BOTTOM - length.min(HEIGHT)
}

/// The axis of capacities, by their logarithm. Computed in 64 bits, because a curve by size has a step for each hit.
#[derive(Clone, Copy, Debug)]
pub(super) struct Scale {
    pub(super) first: usize,
    pub(super) last: usize,
    // The logarithm of the first capacity, and by how much that of the last one is greater.
    begin: u64,
    length: u64,
}

impl Scale {
    // An axis that ends where it begins would have no length.
    pub(super) fn new(first: usize, last: usize) -> Scale {
        let first = first.max(1);
        let last = if last > first {
            last
        } else {
            first.saturating_mul(2)
        };
        let begin = logarithm(first);
        let length = logarithm(last).saturating_sub(begin);
        Scale {
            first,
            last,
            begin,
            length,
        }
    }

    /// Whether it shows a capacity.
    pub(super) fn has(&self, capacity: usize) -> bool {
        self.first <= capacity && capacity <= self.last
    }

    /// From the left edge of the picture.
    pub(super) fn across(&self, capacity: usize) -> u128 {
        if capacity >= self.last {
            return RIGHT;
        }
        let length = logarithm(capacity).saturating_sub(self.begin);
        LEFT + self.scaled(length).min(WIDTH)
    }

    /// From a capacity to ten times as much.
    pub(super) fn decade(&self) -> u128 {
        self.scaled(logarithm(10))
    }

    // So many parts of an octave, also beyond the end of the axis.
    fn scaled(&self, length: u64) -> u128 {
        ((WIDTH as u64).saturating_mul(length) / self.length.max(1)) as u128
    }
}

// An octave, which is a doubling.
const OCTAVE: u64 = 4_294_967_296;

// The binary logarithm, in parts of an octave, from 0 at 1. Within an octave it is `x + 0.344 x (1 - x)`, which is
// right to a hundredth of it.
fn logarithm(number: usize) -> u64 {
    let number = number.max(1) as u64;
    let octaves = number.ilog2();
    // (the 32 bits after the highest bit that is set)
    let part = (((number << (63 - octaves)) << 1) >> 32) % OCTAVE;
    let bend = part.saturating_mul(OCTAVE - part) / OCTAVE * 344 / 1000;
    octaves as u64 * OCTAVE + part + bend
}
