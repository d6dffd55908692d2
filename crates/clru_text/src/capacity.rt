//! A number in decimal digits, and a capacity.
ghost use Rattle.std.specs.Prelude.{◌≡◌, ◌<◌, ◌≤◌, ◌^◌, length, take, true, false, Some, IfSome, IfNone};
ghost use Rattle.std.specs.Char.{is_ascii_digit};
ghost use Rattle.std.specs.Int.NonZero.{non_zero_usize_get};
ghost use Rattle.std.specs.List.{list_all};
ghost use Rattle.std.specs.Str.Parse.{digits_value};
ghost use Rattle.clru_text.specs.Lines.{digits_named, is_capacity};

use std::num::NonZeroUsize;

// The greatest `usize` has 20 digits.
const MOST_DIGITS: usize = 20;

/// Returns the capacity that a word names, or `None` if it names none.
///
/// Such a word is 1 to 20 decimal digits, without sign or space, and its value is not 0 and fits a `usize`. Leading zeros count
/// as digits. Takes no memory.
pub fn capacity_of(word: &[u8]) -> Option<NonZeroUsize>
    ensures is_one { IfSome result (λ _. is_capacity word.now ≡ true) }
    ensures value { IfSome result (λ capacity. non_zero_usize_get capacity ≡ digits_value 10 word.now) }
    ensures none { IfNone result (is_capacity word.now ≡ false) }
{
    NonZeroUsize::new(usize::try_from(digits_of(word)?).ok()?)
}

/// Returns the number that a word of 1 to 20 decimal digits names, or `None` for another word. Takes no memory.
pub fn digits_of(word: &[u8]) -> Option<u128>
    ensures value { result ≡ digits_named word.now }
    ensures below { IfSome result (λ n. n < 10 ^ 20) }
    ensures few { IfSome result (λ _. length word.now ≤ 20) }
{
    if word.is_empty() || word.len() > MOST_DIGITS {
        return None;
    }
    let mut value = 0u128;
    for digit in word {
        if !digit.is_ascii_digit() {
            return None;
        }
        value = value * 10 + (*digit - b'0') as u128;
    }
    Some(value)
}

// Any number of one digit more fits 64 bits.
const FEW_DIGITS: usize = 18;

/// Returns the number of the digits that bytes begin with, and how many these are. It reads a few at most.
/// Cost: a step for each of these digits.
pub(crate) fn leading_number(bytes: &[u8]) -> (u64, usize)
    ensures within { result.1 ≤ length bytes.now }
    ensures few { result.1 ≤ 18 }
    ensures digits { list_all is_ascii_digit (take result.1 bytes.now) ≡ true }
    ensures named { 0 < result.1 → digits_named (take result.1 bytes.now) ≡ Some result.0 }
    ensures below { result.0 < 10 ^ 18 }
{
    let mut value = 0u64;
    for (at, byte) in bytes.iter().enumerate() {
        if at == FEW_DIGITS || !byte.is_ascii_digit() {
            return (value, at);
        }
        value = value * 10 + (*byte - b'0') as u64;
    }
    (value, bytes.len())
}
