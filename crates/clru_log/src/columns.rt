//! The columns of a line.
ghost use Rattle.std.specs.Prelude.{◌≡◌, ◌<◌, ◌==◌, ℕ, suc, not, None, Some, IfNone, IfSome, length, option_map, position, slice_get};
ghost use Rattle.clru_log.specs.Columns.{column_at, columns_of, is_blank as is_blank_by, parts, words};

use crate::format::Columns;

/// Returns a column of a line, counted from 1, if the line has it.
pub(crate) fn column(columns: Columns, line: &[u8], number: usize) -> Option<&[u8]>
    ensures { option_map (λ text. text.now) result ≡ column_at (columns_of columns line.now) number }
{
    if number == 0 || line.is_empty() {
        return None;
    }
    match columns {
        Columns::Blanks => word(line, number - 1),
        Columns::Tabs => part(line, number - 1),
    }
}

// Returns the part behind so many tabs.
fn part(line: &[u8], skipped: usize) -> Option<&[u8]>
    ensures { option_map (λ text. text.now) result ≡ slice_get (parts line.now) skipped }
{
    let mut rest = line;
    'parts: for _ in 0..skipped {
        match behind_part(rest) {
            Some(more) => rest = more,
            None => return None,
        }
    }
    Some(first_part(rest))
}

// Returns what follows the first tab.
fn behind_part(bytes: &[u8]) -> Option<&[u8]>
    ensures some { IfSome result (λ rest. (n : ℕ) → slice_get (parts bytes.now) (suc n) ≡ slice_get (parts rest.now) n) }
    ensures none { IfNone result ((n : ℕ) → slice_get (parts bytes.now) (suc n) ≡ None) }
{
    match tab_at(bytes) {
        Some(at) => Some(&bytes[at + 1..]),
        None => None,
    }
}

// Returns what stands before the first tab.
fn first_part(bytes: &[u8]) -> &[u8]
    ensures { Some result.now ≡ slice_get (parts bytes.now) 0 }
{
    match tab_at(bytes) {
        Some(at) => &bytes[..at],
        None => bytes,
    }
}

fn tab_at(bytes: &[u8]) -> Option<usize>
    ensures at { result ≡ position (λ b. b == 9) bytes.now }
    ensures within { IfSome result (λ at. at < length bytes.now) }
{
    bytes.iter().position(|byte| *byte == b'\t')
}

// Returns the word behind so many words.
fn word(line: &[u8], skipped: usize) -> Option<&[u8]>
    ensures { option_map (λ text. text.now) result ≡ slice_get (words line.now) skipped }
{
    let mut rest = line;
    'words: for _ in 0..skipped {
        match behind_word(rest) {
            Some(more) => rest = more,
            None => return None,
        }
    }
    first_word(word_from(rest))
}

// Returns what follows the first word, if something does.
fn behind_word(bytes: &[u8]) -> Option<&[u8]>
    ensures some { IfSome result (λ rest. (n : ℕ) → slice_get (words bytes.now) (suc n) ≡ slice_get (words rest.now) n) }
    ensures none { IfNone result ((n : ℕ) → slice_get (words bytes.now) (suc n) ≡ None) }
{
    let word = word_from(bytes);
    match blank_at(word) {
        Some(at) => Some(&word[at..]),
        None => None,
    }
}

// Returns the bytes from the first word on.
fn word_from(bytes: &[u8]) -> &[u8]
    ensures same { words result.now ≡ words bytes.now }
    ensures first { 0 < length result.now → position (λ b. not (is_blank_by b)) result.now ≡ Some 0 }
{
    match other_at(bytes) {
        Some(at) => &bytes[at..],
        None => &[],
    }
}

// Returns the word that bytes begin with, if there are bytes.
fn first_word(bytes: &[u8]) -> Option<&[u8]>
    requires { 0 < length bytes.now → position (λ b. not (is_blank_by b)) bytes.now ≡ Some 0 }
    ensures { option_map (λ text. text.now) result ≡ slice_get (words bytes.now) 0 }
{
    let len = bytes.len();
    if len == 0 {
        return None;
    }
    match blank_at(bytes) {
        Some(at) => Some(&bytes[..at]),
        None => Some(bytes),
    }
}

fn blank_at(bytes: &[u8]) -> Option<usize>
    ensures { result ≡ position is_blank_by bytes.now }
{
    bytes.iter().position(|byte| is_blank(*byte))
}

fn other_at(bytes: &[u8]) -> Option<usize>
    ensures { result ≡ position (λ b. not (is_blank_by b)) bytes.now }
{
    bytes.iter().position(|byte| !is_blank(*byte))
}

#[inline(always)]
fn is_blank(byte: u8) -> bool
    ensures { result ≡ is_blank_by byte }
{
    byte == b' ' || byte == b'\t'
}
