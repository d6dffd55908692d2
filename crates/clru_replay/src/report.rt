//! The text of the report, taken whole before any of it is written.
ghost use Rattle.std.specs.Prelude.{◌≡◌, ◌⊎◌, ◌+◌, Err, Some, None, IfOk, IfErr, IsSome, string_bytes};
ghost use Rattle.clru_replay.specs.Report.{misses_line, report, text_of};

use crate::fault::Fault;
use clru::{DefaultState, replay};
use clru_text::{capacity_of, keys_of, next_line};
use std::alloc::{AllocError, Allocator};

/// The report of an input. The first line is tested before any memory is asked for.
pub(crate) fn make_report<A: Allocator + Copy>(alloc: A, input: &[u8]) -> Result<Vec<u8, A>, Fault>
    ensures report { IfOk result (λ text. report input.now ≡ Some text.items) }
    ensures bad_capacity { result ≡ Err Fault.BadCapacity → report input.now ≡ None }
    ensures memory { result ≡ Err Fault.Memory → IsSome (report input.now) }
    ensures fault { IfErr result (λ fault. (fault ≡ Fault.BadCapacity) ⊎ (fault ≡ Fault.Memory)) }
{
    let Some((first, requests)) = next_line(input) else {
        return Err(Fault::BadCapacity);
    };
    let Some(capacity) = capacity_of(first) else {
        return Err(Fault::BadCapacity);
    };
    let Ok(keys) = keys_of(alloc, requests) else {
        return Err(Fault::Memory);
    };
    let Ok(replayed) = replay(alloc, capacity, keys, DefaultState) else {
        return Err(Fault::Memory);
    };
    match report_text(alloc, &replayed.marks, replayed.misses) {
        Ok(text) => Ok(text),
        Err(_) => Err(Fault::Memory),
    }
}

// A line for each request, and the line of the misses.
fn report_text<A: Allocator + Copy>(
    alloc: A,
    marks: &[bool],
    misses: usize,
) -> Result<Vec<u8, A>, AllocError>
    ensures { IfOk result (λ text. text.items ≡ text_of marks.now misses) }
{
    let last = last_line(alloc, misses)?;
    let mut text = Vec::with_capacity(alloc, text_len(marks.len(), last.len())?)?;
    for hit in marks {
        // By an index: a branch on a mark is guessed wrong half of the time.
        let mark = [b'M', b'H'][*hit as usize];
        text.push_reserved(mark);
        text.push_reserved(b'\n');
    }
    text.extend_from_slice(last.as_bytes())?;
    Ok(text)
}

// The length of a text of so many marks and of a last line with so many bytes.
fn text_len(marks: usize, last: usize) -> Result<usize, AllocError>
    ensures { IfOk result (λ len. len ≡ marks + marks + last) }
{
    let Some(lines) = marks.checked_add(marks) else {
        return Err(AllocError);
    };
    let Some(len) = lines.checked_add(last) else {
        return Err(AllocError);
    };
    Ok(len)
}

fn last_line<A: Allocator + Copy>(alloc: A, misses: usize) -> Result<String<A>, AllocError>
    ensures { IfOk result (λ line. string_bytes line ≡ misses_line misses) }
{
    format!(in alloc; "misses {misses}\n")
}
