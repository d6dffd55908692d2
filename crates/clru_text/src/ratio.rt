//! The part of a whole that a word names.
ghost use Rattle.std.specs.Prelude.{◌≡◌, ◌≤◌, IfSome};
ghost use Rattle.std.specs.Option.{option_map};
ghost use Rattle.clru_text.specs.Ratios.{decimal_part, in_parts as in_parts_by, IsPart, places_named as places_by, ratio_in, ratio_of as ratio_by};

use crate::capacity::digits_of;
use crate::numbers::{point_at, unit_at};

/// A part of a whole, in billionths.
#[derive(Clone, Copy, Debug, PartialEq, Eq)]
pub struct Billionths {
    pub number: u32,

    // More than nothing, and at most all.
    ghost part: { IsPart number },
}

const BILLION: u128 = 1_000_000_000;

/// Returns the part that a word names, or `None` if it names none: digits, and up to nine decimals behind a point, or up to seven
/// before a `%`.
pub(crate) fn ratio_of_word(word: &str) -> Option<Billionths>
    ensures { option_map (λ r. r.number) result ≡ ratio_in word.now }
{
    let bytes = word.trim().as_bytes();
    let at = unit_at(bytes);
    ratio_of(&bytes[..at], &bytes[at..])
}

fn ratio_of(figures: &[u8], unit: &[u8]) -> Option<Billionths>
    ensures { option_map (λ r. r.number) result ≡ ratio_by figures.now unit.now }
{
    let places = places_named(unit)?;
    match point_at(figures) {
        None => in_parts(digits_of(figures)? * 10u128.pow(places as u32)),
        Some(at) => part_in(places, &figures[..at], &figures[at + 1..]),
    }
}

// How many decimals may stand before a unit, if it is one.
fn places_named(unit: &[u8]) -> Option<usize>
    ensures value { result ≡ places_by unit.now }
    ensures few { IfSome result (λ n. n ≤ 9) }
{
    match unit {
        b"" => Some(9),
        b"%" => Some(7),
        _ => None,
    }
}

fn part_in(places: usize, whole: &[u8], decimals: &[u8]) -> Option<Billionths>
    requires { places ≤ 9 }
    ensures { option_map (λ r. r.number) result ≡ decimal_part places whole.now decimals.now }
{
    let whole = digits_of(whole)?;
    let part = digits_of(decimals)?;
    let left = places.checked_sub(decimals.len())?;
    in_parts(whole * 10u128.pow(places as u32) + part * 10u128.pow(left as u32))
}

fn in_parts(number: u128) -> Option<Billionths>
    ensures { option_map (λ r. r.number) result ≡ in_parts_by number }
{
    if number == 0 || number > BILLION {
        return None;
    }
    Some(Billionths {
        number: number as u32,
    })
}
