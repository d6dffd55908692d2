//! The number that a word of a command line names.
ghost use Rattle.std.specs.Prelude.{◌≡◌, ◌^◌, ◌<◌, ◌≤◌, ◌==◌, length, position, IfSome};
ghost use Rattle.std.specs.Int.NonZero.{non_zero_usize_get};
ghost use Rattle.std.specs.Option.{option_map};
ghost use Rattle.clru_text.specs.Numbers.{decimals_in as decimals_by, in_range as in_range_by, is_other as is_other_by, number_in, number_of as number_by, unit_at as unit_at_by, unit_named as unit_by};

use crate::capacity::digits_of;
use std::num::NonZeroUsize;

/// Returns the number that a word names, or `None` if it names none: digits and a unit, if there is one, without the blanks around
/// them. With a unit there may be decimals behind a point.
/// Cost: a step for each byte.
pub fn number_of_word(word: &str) -> Option<NonZeroUsize>
    ensures { option_map non_zero_usize_get result ≡ number_in word.now }
{
    let bytes = word.trim().as_bytes();
    let at = unit_at(bytes);
    number_of(&bytes[..at], &bytes[at..])
}

/// Returns the place of the unit: of the first byte that is neither a digit nor a point.
pub(crate) fn unit_at(word: &[u8]) -> usize
    ensures at { result ≡ unit_at_by word.now }
    ensures within { result ≤ length word.now }
{
    other_at(word).unwrap_or(word.len())
}

// The place of the first byte that is neither a digit nor a point.
fn other_at(word: &[u8]) -> Option<usize>
    ensures place { result ≡ position is_other_by word.now }
    ensures within { IfSome result (λ at. at < length word.now) }
{
    word.iter().position(|byte| is_other(*byte))
}

fn is_other(byte: u8) -> bool
    ensures { result ≡ is_other_by byte }
{
    !byte.is_ascii_digit() && byte != b'.'
}

fn number_of(figures: &[u8], unit: &[u8]) -> Option<NonZeroUsize>
    ensures { option_map non_zero_usize_get result ≡ number_by figures.now unit.now }
{
    let unit = unit_named(unit)?;
    match point_at(figures) {
        None => in_range(digits_of(figures)? * unit),
        Some(_) if unit == 1 => None,
        Some(at) => decimals_in(unit, &figures[..at], &figures[at + 1..]),
    }
}

/// Returns the place of the first point.
pub(crate) fn point_at(figures: &[u8]) -> Option<usize>
    ensures { result ≡ position (λ b. b == 46) figures.now }
{
    figures.iter().position(|byte| *byte == b'.')
}

fn decimals_in(unit: u128, whole: &[u8], decimals: &[u8]) -> Option<NonZeroUsize>
    requires { unit < 2 ^ 41 }
    ensures { option_map non_zero_usize_get result ≡ decimals_by unit whole.now decimals.now }
{
    let whole = digits_of(whole)?;
    let part = digits_of(decimals)?;
    in_range(whole * unit + part * unit / 10u128.pow(decimals.len() as u32))
}

fn in_range(number: u128) -> Option<NonZeroUsize>
    ensures { option_map non_zero_usize_get result ≡ in_range_by number }
{
    NonZeroUsize::new(usize::try_from(number).ok()?)
}

const THOUSAND: u128 = 1_000;

const MILLION: u128 = 1_000_000;

const BILLION: u128 = 1_000_000_000;

const TRILLION: u128 = 1_000_000_000_000;

// What a unit counts, if it is one.
fn unit_named(unit: &[u8]) -> Option<u128>
    ensures value { result ≡ unit_by unit.now }
    ensures small { IfSome result (λ n. n < 2 ^ 41) }
{
    match unit {
        b"" => Some(1),
        b"K" | b"k" | b"KB" | b"kB" => Some(THOUSAND),
        b"M" | b"MB" => Some(MILLION),
        b"G" | b"GB" => Some(BILLION),
        b"T" | b"TB" => Some(TRILLION),
        b"KiB" => Some(1 << 10),
        b"MiB" => Some(1 << 20),
        b"GiB" => Some(1 << 30),
        b"TiB" => Some(1 << 40),
        _ => None,
    }
}
