//! The numbers at the axis of capacities: how they are written, and which of them there is room for.
ghost use Rattle.std.specs.Prelude.{◌<◌};

use super::scale::{LEFT, RIGHT, Scale};
use super::style::LETTERS;
use std::fmt::{self, Write};

// Between two numbers.
const GAP: u128 = 60;

// As far left and right as a number may reach: on the left it stands free of the number at the other axis.
const EDGES: (u128, u128) = (700, 7960);

/// A number with a comma before each three digits.
pub(super) fn write_number<W: Write>(text: &mut W, number: u128) -> fmt::Result {
    if number < 1000 {
        return write!(text, "{number}");
    }
    write_number(text, number / 1000)?;
    let rest = number % 1000;
    write!(text, ",{rest:03}")
}

/// A number rounded to three digits, and a letter, as `12.3M` or `1G`.
pub(super) fn write_short<W: Write>(text: &mut W, number: u128) -> fmt::Result {
    let (unit, _) = unit_of(number);
    let half = match number / unit {
        0..=9 => unit / 200,
        10..=99 => unit / 20,
        _ => unit / 2,
    };
    let number = number.saturating_add(half);
    let (unit, letter) = unit_of(number);
    let whole = number / unit;
    let hundredths = (number % unit).saturating_mul(100) / unit;
    let tenth = hundredths / 10;
    let hundredth = hundredths % 10;
    if whole < 10 && hundredth > 0 {
        write!(text, "{whole}.{tenth}{hundredth}{letter}")
    } else if whole < 100 && tenth > 0 {
        write!(text, "{whole}.{tenth}{letter}")
    } else {
        write!(text, "{whole}{letter}")
    }
}

fn unit_of(number: u128) -> (u128, &'static str)
    ensures { 0 < result.0 }
{
    match number.max(1).ilog10() / 3 {
        0 => (1, ""),
        1 => (1_000, "k"),
        2 => (1_000_000, "M"),
        3 => (1_000_000_000, "G"),
        4 => (1_000_000_000_000, "T"),
        5 => (1_000_000_000_000_000, "P"),
        _ => (1_000_000_000_000_000_000, "E"),
    }
}

/// Where the number at the left end stands, and which part of it: the middle of one digit, the begin of more.
pub(super) fn first_place(first: usize) -> (u128, &'static str) {
    if first < 10 {
        (LEFT, "middle")
    } else {
        (EDGES.0, "start")
    }
}

/// Where the number at the right end stands, and which part of it: the middle of a short one, the end of a long one.
pub(super) fn last_place(scale: &Scale) -> (u128, &'static str) {
    if scale.last < 10_000 || are_short(scale) {
        (RIGHT, "middle")
    } else {
        (EDGES.1, "end")
    }
}

/// Whether numbers are shortened: all at an axis that goes up to a million or beyond.
pub(super) fn are_short(scale: &Scale) -> bool {
    scale.last >= 1_000_000
}

/// The numbers that there is room for, in letters of a size.
#[derive(Clone, Copy, Debug)]
pub(super) struct Space {
    letters: u128,
    short: bool,
    decade: u128,
    /// From one power of ten that is written to the next: 1, or 3 where only those of a thousand are.
    every: usize,
    begin: u128,
    end: u128,
}

impl Space {
    pub(super) fn new(scale: &Scale, letters: u128) -> Space {
        let short = are_short(scale);
        let first = breadth(scale.first as u128, short, letters);
        let last = breadth(scale.last as u128, short, letters);
        let decade = scale.decade();
        let every = if last.saturating_add(GAP) <= decade {
            1
        } else {
            3
        };
        let begin = match first_place(scale.first) {
            (across, "middle") => across.saturating_add(first / 2),
            (across, _) => across.saturating_add(first),
        };
        let end = match last_place(scale) {
            (across, "middle") => across.saturating_sub(last / 2),
            (across, _) => across.saturating_sub(last),
        };
        Space {
            letters,
            short,
            decade,
            every,
            begin: begin.saturating_add(GAP),
            end: end.saturating_sub(GAP),
        }
    }

    /// Whether a round number of that index is written, the middle of it so far from the left edge.
    pub(super) fn has(&self, index: usize, number: u128, across: u128) -> bool {
        let half = breadth(number, self.short, self.letters) / 2;
        self.has_between(index, number)
            && across >= self.begin.saturating_add(half)
            && across.saturating_add(half) <= self.end
    }

    // A 2 or a 5 is written where both it and the power of ten behind it have room.
    fn has_between(&self, index: usize, number: u128) -> bool {
        if index % 3 == 0 {
            return index / 3 % self.every.max(1) == 0;
        }
        let power = number.saturating_mul(5);
        let wanted = breadth(power, self.short, self.letters).saturating_add(GAP);
        self.every == 1 && wanted <= self.decade / 10 * 3
    }
}

// How wide a number is in common fonts, at most: where it is short, three digits, a point and a letter.
fn breadth(number: u128, short: bool, letters: u128) -> u128 {
    let digits = number.max(1).ilog10() as u128 + 1;
    let marks = (digits - 1) / 3;
    let parts = if short && marks > 0 {
        3 * 64 + 32 + 90
    } else {
        64 * digits + 32 * marks
    };
    letters.saturating_mul(parts) / 100
}
