//! One line of a log, cut to the plain line that the programs read.
ghost use Rattle.std.specs.Prelude.{◌≡◌, ◌++◌, ◌∷◌, [], ℕ, codes, List, ◌==◌, length, position, take, true, false, IfOk, OnErr, None, Some, Ok, MatchResult, vec_len};
ghost use Rattle.clru_log.specs.Columns.{columns_of};
ghost use Rattle.clru_log.specs.Cuts.{has_status, is_answer as is_answer_by, is_get as is_get_by, kept_bytes, key_of, left_by_method as left_by_method_of, left_by_status as left_by_status_of, line_of, shown_key, without_return as without_return_by};

use crate::columns::column;
use crate::format::{Format, Wanted};
use std::alloc::{AllocError, Allocator};

/// Why a line does not count.
#[derive(Clone, Copy, Debug, Drop)]
pub enum Left {
    /// It has another method than GET.
    Method,
    /// It has another status than 200 or 304.
    Status,
    /// It has too few columns.
    Columns,
}

/// Appends the plain line of a line, with its newline, or returns why the line does not count.
///
/// Only memory can be refused; nothing is appended then.
/// Cost: a step for each byte up to a column that is read, for each such column.
#[tactic(auto, unfolding(crate::specs::Cuts::line_of))]
pub(crate) fn cut_line<A: Allocator>(
    format: &Format<A>,
    wanted: Wanted,
    line: &[u8],
    plain: &mut Vec<u8, A>,
) -> Result<Option<Left>, AllocError>
    ensures line { IfOk result (λ left. plain.new.items ≡ plain.old.items ++ kept_bytes (line_of format.now wanted line.now)) }
    ensures why { IfOk result (λ left. MatchResult (line_of format.now wanted line.now) (λ _. left ≡ None) (λ why. left ≡ Some why)) }
    ensures err { OnErr result (plain.new.items ≡ plain.old.items) }
{
    let before = plain.len();
    let line = without_return(line);
    if let Some(why) = left_by_method(format, wanted, line) {
        return Ok(Some(why));
    }
    if let Some(why) = left_by_status(format, wanted, line) {
        return Ok(Some(why));
    }
    match append_key(format, wanted, line, plain) {
        Ok(true) => Ok(None),
        Ok(false) => {
            plain.truncate(before);
            Ok(Some(Left::Columns))
        }
        Err(error) => {
            plain.truncate(before);
            Err(error)
        }
    }
}

fn without_return(line: &[u8]) -> &[u8]
    ensures { result.now ≡ without_return_by line.now }
{
    if line.ends_with(b"\r") {
        &line[..line.len() - 1]
    } else {
        line
    }
}

// Returns why the method leaves the line out, if it does.
fn left_by_method<A: Allocator>(format: &Format<A>, wanted: Wanted, line: &[u8]) -> Option<Left>
    ensures { result ≡ left_by_method_of format.now wanted (columns_of format.now.columns line.now) }
{
    if wanted.all_requests {
        return None;
    }
    let number = format.method?;
    match column(format.columns, line, number) {
        Some(text) if is_get(text) => None,
        Some(_) => Some(Left::Method),
        None => Some(Left::Columns),
    }
}

// Returns why the status leaves the line out, if it does.
fn left_by_status<A: Allocator>(format: &Format<A>, wanted: Wanted, line: &[u8]) -> Option<Left>
    ensures { result ≡ left_by_status_of format.now wanted (columns_of format.now.columns line.now) }
{
    if wanted.all_requests {
        return None;
    }
    let number = format.status?;
    match column(format.columns, line, number) {
        Some(text) if is_answer(text) => None,
        Some(_) => Some(Left::Status),
        None => Some(Left::Columns),
    }
}

fn is_get(text: &[u8]) -> bool
    ensures { result ≡ is_get_by text.now }
{
    match text {
        b"GET" | b"\"GET" => true,
        _ => false,
    }
}

fn is_answer(text: &[u8]) -> bool
    ensures { result ≡ is_answer_by text.now }
{
    is_found(text) || is_unchanged(text)
}

fn is_found(text: &[u8]) -> bool
    ensures { result ≡ has_status (codes "200") text.now }
{
    match text {
        b"200" => true,
        _ => text.ends_with(b"/200"),
    }
}

fn is_unchanged(text: &[u8]) -> bool
    ensures { result ≡ has_status (codes "304") text.now }
{
    match text {
        b"304" => true,
        _ => text.ends_with(b"/304"),
    }
}

// Appends the columns of the key, joined by blanks, and a newline, and returns whether the line has them all.
fn append_key<A: Allocator>(
    format: &Format<A>,
    wanted: Wanted,
    line: &[u8],
    plain: &mut Vec<u8, A>,
) -> Result<bool, AllocError>
    ensures key { result ≡ Ok true → (key : List ℕ) × (key_of wanted.no_query (columns_of format.now.columns line.now) format.now.key.items ≡ Some key)
        × (plain.new.items ≡ plain.old.items ++ (key ++ 10 ∷ [])) }
    ensures none { result ≡ Ok false → key_of wanted.no_query (columns_of format.now.columns line.now) format.now.key.items ≡ None }
    ensures front { take (vec_len plain.old) plain.new.items ≡ plain.old.items }
{
    let Some((first, more)) = format.key.as_slice().split_first() else {
        return Ok(false);
    };
    let Some(text) = column(format.columns, line, *first) else {
        return Ok(false);
    };
    plain.extend_from_slice(shown(text, wanted.no_query))?;
    'columns: for number in more {
        let Some(text) = column(format.columns, line, *number) else {
            return Ok(false);
        };
        plain.push(b' ')?;
        plain.extend_from_slice(shown(text, wanted.no_query))?;
    }
    plain.push(b'\n')?;
    Ok(true)
}

// A key ends before its query, if it is to have none.
fn shown(text: &[u8], no_query: bool) -> &[u8]
    ensures { result.now ≡ shown_key no_query text.now }
{
    if !no_query {
        return text;
    }
    match query_at(text) {
        Some(at) => &text[..at],
        None => text,
    }
}

fn query_at(text: &[u8]) -> Option<usize>
    ensures { result ≡ position (λ b. b == 63) text.now }
{
    text.iter().position(|byte| *byte == b'?')
}
