//! Reading a whole input before any of it is looked at.
ghost use Rattle.std.specs.Prelude.{◌≡◌, ◌<◌, ◌≤◌, ◌+◌, length, take, drop, vec_len, IfOk, Ok, OnOk, Some};
ghost use Rattle.std.specs.Io.KnownBytes.{Consumes, IsAtEnd};
ghost use Rattle.clru_text.specs.Errors.{read_error_text};

use std::alloc::{AllocError, Allocator};
use std::error::Error;
use std::fmt;
use std::io::{self, Read};

/// Why an input was not read.
#[derive(Clone, Copy, Debug, PartialEq, Eq)]
pub enum ReadError {
    /// A request for memory was refused.
    Memory,
    /// A read returned an error.
    Reading,
}

impl fmt::Display for ReadError {
    ghost output = { λ error. Some (read_error_text error) };

    fn fmt<W: fmt::Write>(&self, f: &mut fmt::Formatter<W>) -> fmt::Result {
        match self {
            ReadError::Memory => f.write_str("out of memory"),
            ReadError::Reading => f.write_str("a read failed"),
        }
    }
}

impl Error for ReadError {}

const FIRST_ROOM: usize = 64 * 1024;

/// Returns all bytes of the reader, up to a read that gives none.
///
/// The call ends at a read that returns an error, whatever the kind, and tries no read again. The room is 64 KiB at first and is
/// doubled when it is full, so a read is offered at least half of what was read before it.
pub fn read_input<R: Read, A: Allocator>(alloc: A, reader: &mut R) -> Result<Vec<u8, A>, ReadError>
    ensures bytes { IfOk result (λ input. Consumes (R.remaining reader.old) (R.remaining reader.new) input.items) }
    ensures end { OnOk result (IsAtEnd (R.remaining reader.new)) }
{
    let mut bytes = Vec::new(alloc);
    let mut filled = 0;
    'reads: loop {
        let count = read_chunk(reader, &mut bytes, filled)?;
        if count == 0 {
            break;
        }
        filled += count;
    }
    bytes.truncate(filled);
    Ok(bytes)
}

// One read, into the vector from `filled` on.
fn read_chunk<R: Read, A: Allocator>(
    reader: &mut R,
    bytes: &mut Vec<u8, A>,
    filled: usize,
) -> Result<usize, ReadError>
    requires { filled ≤ vec_len bytes.old }
    ensures kept { take filled bytes.new.items ≡ take filled bytes.old.items }
    ensures fits { IfOk result (λ count. filled + count ≤ vec_len bytes.new) }
    ensures bytes { IfOk result (λ count.
        Consumes (R.remaining reader.old) (R.remaining reader.new) (take count (drop filled bytes.new.items))) }
    ensures end { result ≡ Ok 0 → IsAtEnd (R.remaining reader.new) }
{
    let Ok(()) = lengthen(bytes, filled) else {
        return Err(ReadError::Memory);
    };
    match read_at(reader, bytes.as_mut_slice(), filled) {
        Ok(count) => Ok(count),
        Err(_) => Err(ReadError::Reading),
    }
}

// Makes the vector longer than `filled`, by zeros: at first by the room of one read, and then to twice its length.
fn lengthen<A: Allocator>(bytes: &mut Vec<u8, A>, filled: usize) -> Result<(), AllocError>
    requires { filled ≤ vec_len bytes.old }
    ensures room { OnOk result (filled < vec_len bytes.new) }
    ensures kept { take filled bytes.new.items ≡ take filled bytes.old.items }
{
    if filled == bytes.len() {
        bytes.resize(filled.saturating_mul(2).max(FIRST_ROOM), 0)?;
    }
    Ok(())
}

// One read, into the buffer from `at` on.
fn read_at<R: Read>(reader: &mut R, buffer: &mut [u8], at: usize) -> io::Result<usize>
    requires { at < length buffer.old }
    ensures length { length buffer.new ≡ length buffer.old }
    ensures kept { take at buffer.new ≡ take at buffer.old }
    ensures fits { IfOk result (λ count. at + count ≤ length buffer.new) }
    ensures bytes { IfOk result (λ count.
        Consumes (R.remaining reader.old) (R.remaining reader.new) (take count (drop at buffer.new))) }
    ensures end { result ≡ Ok 0 → IsAtEnd (R.remaining reader.new) }
{
    reader.read(&mut buffer[at..])
}
