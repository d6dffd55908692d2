//! A number in decimal digits, and a line of one.
ghost use Rattle.std.specs.Prelude.{◌≡◌, ◌^◌, ◌<◌, ◌≤◌, ◌==◌, ℕ, List, ◌++◌, decimal, length, position, IfOk, IfSome, MatchResult, OnOk};
ghost use Rattle.clru_parts.specs.Files.{has_leading_zero as has_leading_zero_by, number_line};

use crate::part::PartError;
use clru_text::digits_of;
use std::alloc::{AllocError, Allocator};

/// Appends a line of a number.
pub(crate) fn push_number<A: Allocator + Copy>(
    alloc: A,
    text: &mut Vec<u8, A>,
    number: usize,
) -> Result<(), AllocError>
    ensures { OnOk result (text.new.items ≡ text.old.items ++ number_line number) }
{
    let line = format!(in alloc; "{number}\n")?;
    text.extend_from_slice(line.as_bytes())
}

/// Returns the number of a line that the bytes begin with, and what follows its newline.
pub(crate) fn read_number(bytes: &[u8]) -> Result<(usize, &[u8]), PartError>
    ensures read { IfOk result (λ found. bytes.now ≡ number_line found.0 ++ found.1.now) }
    ensures shorter { IfOk result (λ found. length found.1.now < length bytes.now) }
    ensures whole { (number : ℕ) (rest : List ℕ) → number < 2 ^ 64 → bytes.now ≡ number_line number ++ rest
        → MatchResult result (λ found. (found.0 ≡ number) × (found.1.now ≡ rest)) (λ _. ⊥) }
{
    let Some(at) = newline_at(bytes) else {
        return Err(PartError::Short);
    };
    let Some(number) = number_of(&bytes[..at]) else {
        return Err(PartError::Changed);
    };
    Ok((number, &bytes[at + 1..]))
}

fn newline_at(bytes: &[u8]) -> Option<usize>
    ensures place { result ≡ position (λ b. b == 10) bytes.now }
    ensures within { IfSome result (λ at. at < length bytes.now) }
{
    bytes.iter().position(|byte| *byte == b'\n')
}

/// Returns the number that a word names as it is written: without leading zeros.
fn number_of(word: &[u8]) -> Option<usize>
    ensures named { IfSome result (λ number. word.now ≡ decimal number) }
    ensures all { (number : ℕ) → number < 2 ^ 64 → word.now ≡ decimal number → result ≡ Some number }
{
    if has_leading_zero(word) {
        return None;
    }
    match digits_of(word) {
        None => None,
        Some(number) if number > usize::MAX as u128 => None,
        Some(number) => Some(number as usize),
    }
}

fn has_leading_zero(word: &[u8]) -> bool
    ensures { result ≡ has_leading_zero_by word.now }
{
    word.len() > 1 && word[0] == b'0'
}
