//! The size that a line begins with, and what follows it.
ghost use Rattle.std.specs.Prelude.{◌≡◌, ◌==◌, position, None, Some, IfNone, IfSome};
ghost use Rattle.std.specs.Int.NonZero.{non_zero_usize_get};
ghost use Rattle.std.specs.List.{list_all};
ghost use Rattle.clru_text.specs.Sizes.{is_zero, size_in, size_of_line, tail_of_line};

use crate::capacity::{capacity_of, leading_number};
use std::num::NonZeroUsize;

/// Returns the size before the first blank of a line, in 1 to 20 digits, or `None` if there is none. A size of 0 counts as 1.
pub fn size_of(line: &[u8]) -> Option<NonZeroUsize>
    ensures size { IfSome result (λ size. size_of_line line.now ≡ Some (non_zero_usize_get size)) }
    ensures none { IfNone result (size_of_line line.now ≡ None) }
{
    match short_size(line) {
        Some(size) => Some(size),
        None => any_size(line),
    }
}

// The size, if it is not 0 and has at most 18 digits, in one reading; else `None`.
fn short_size(line: &[u8]) -> Option<NonZeroUsize>
    ensures { IfSome result (λ size. size_of_line line.now ≡ Some (non_zero_usize_get size)) }
{
    let (size, at) = leading_number(line);
    if at == 0 || size == 0 || at >= line.len() || line[at] != b' ' {
        return None;
    }
    NonZeroUsize::new(size as usize)
}

fn any_size(line: &[u8]) -> Option<NonZeroUsize>
    ensures size { IfSome result (λ size. size_of_line line.now ≡ Some (non_zero_usize_get size)) }
    ensures none { IfNone result (size_of_line line.now ≡ None) }
{
    match blank_at(line) {
        Some(at) => size_of_word(&line[..at]),
        None => None,
    }
}

/// Returns the line from its first blank on, or nothing if it has none: the key of a line that begins with a size.
/// Cost: a step for each byte up to the blank; no request for memory.
pub fn tail_of(line: &[u8]) -> &[u8]
    ensures { result.now ≡ tail_of_line line.now }
{
    match blank_at(line) {
        Some(at) => &line[at..],
        None => &[],
    }
}

fn blank_at(line: &[u8]) -> Option<usize>
    ensures { result ≡ position (λ b. b == 32) line.now }
{
    line.iter().position(|byte| *byte == b' ')
}

fn size_of_word(word: &[u8]) -> Option<NonZeroUsize>
    ensures size { IfSome result (λ size. size_in word.now ≡ Some (non_zero_usize_get size)) }
    ensures none { IfNone result (size_in word.now ≡ None) }
{
    match capacity_of(word) {
        Some(size) => Some(size),
        None if is_zeros(word) => Some(NonZeroUsize::MIN),
        None => None,
    }
}

// The greatest `usize` has 20 digits.
const MOST_DIGITS: usize = 20;

fn is_zeros(word: &[u8]) -> bool
    ensures { result ≡ is_zero word.now }
{
    !word.is_empty() && word.len() <= MOST_DIGITS && has_zeros_alone(word)
}

fn has_zeros_alone(word: &[u8]) -> bool
    ensures { result ≡ list_all (λ b. b == 48) word.now }
{
    word.iter().all(|byte| *byte == b'0')
}
