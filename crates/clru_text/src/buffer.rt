//! The lines of a reader one by one, through a buffer whose size stays the same.
ghost use Rattle.std.specs.Prelude.{◌≡◌, ◌<◌, ◌+◌, ◌^◌, ℕ, List, Option, true, false, [], ◌∷◌, ◌++◌, length, IfOk, Ok};
ghost use Rattle.std.specs.Io.KnownBytes.{Consumes, IsAtEnd};
ghost use Rattle.clru_text.specs.LinesRead.{HasRead, HasReturned, IsFree};

use crate::input::ReadError;
use crate::newline::newline_at;
use std::alloc::{Allocator, Global};
use std::io::Read;
use std::marker::Model;

const ROOM: usize = 64 * 1024;

/// What was read of an input and is not yet returned as a line.
///
/// Clauses describe by `HasReturned` the lines that were returned since a reader's start: none at first, then each line comes
/// behind. Use one buffer for one reader.
///
/// Memory is one block of 64 KiB, asked for by the first read, however long the input is.
#[derive(Drop)]
pub struct LineBuffer<A: Allocator = Global> {
    bytes: Vec<u8, A>,
    // What is left stands from `start` to `end`.
    start: usize,
    end: usize,
    ended: bool,
    read: usize,
}

impl<A: Allocator> Model for LineBuffer<A> {
    ghost use Rattle.std.specs.Prelude.{slice_range, ◌≤◌, vec_len};
    ghost use Rattle.clru_text.specs.LinesRead.{Buffered, buffered, buffered_code};

    ghost Value = { Buffered };

    ghost coded = { buffered_code };

    ghost view = { λ b. buffered (slice_range b.bytes.items b.start b.end) b.ended b.read };

    ghost invariant = { λ b. (b.start ≤ b.end) × (b.end ≤ vec_len b.bytes) };
}

impl<A: Allocator> LineBuffer<A> {
    /// Creates a buffer for a reader from which the buffer has read nothing.
    /// Cost: no request for memory.
    pub fn new(alloc: A) -> Self
        ensures { (now : Option (List ℕ)) → HasReturned now now result [] }
    {
        LineBuffer {
            bytes: Vec::new(alloc),
            start: 0,
            end: 0,
            ended: false,
            read: 0,
        }
    }

    /// Reads the next line into `line`, without its newline, and returns whether there was one. Replaces what `line` held.
    ///
    /// The call ends at a read that returns an error, whatever the kind; it tries no read again, makes none after one that gave
    /// no byte, and offers each the whole buffer. What follows the last newline is a line if it is not empty.
    ///
    /// Returns `Reading` if a read failed, and `Memory` if memory for buffer or line was refused, or more bytes were read than
    /// the greatest `usize`. No clause says what is left after an error: the rest of that line may be returned as one.
    /// Cost: each byte is looked at once and copied once; requests for memory only for the buffer, at the first read, and if the line is
    /// longer than all before it.
    pub fn read_line<R: Read>(
        &mut self,
        reader: &mut R,
        line: &mut Vec<u8, A>,
    ) -> Result<bool, ReadError>
        ensures line { (start : Option (List ℕ)) (lines : List (List ℕ)) → HasReturned start (R.remaining reader.old) self.old lines
            → IfOk result (λ found. found ≡ true
            → HasReturned start (R.remaining reader.new) self.new (lines ++ line.new.items ∷ [])) }
        ensures end { (start : Option (List ℕ)) (lines : List (List ℕ)) → HasReturned start (R.remaining reader.old) self.old lines
            → IfOk result (λ found. found ≡ false → HasRead start (R.remaining reader.new) self.new.read lines) }
        ensures fits { (start : Option (List ℕ)) (lines : List (List ℕ)) → HasReturned start (R.remaining reader.old) self.old lines
            → IfOk result (λ found. found ≡ true → length lines + 1 < 2 ^ 64) }
    {
        line.clear();
        if self.ended {
            return Ok(false);
        }
        'pieces: loop {
            if self.move_to(line)? {
                return Ok(true);
            }
            if !self.fill(reader)? {
                return Ok(!line.is_empty());
            }
        }
    }

    /// Returns what was read and not yet returned as a line.
    /// Cost: none.
    pub fn buffer(&self) -> &[u8]
        ensures { result.now ≡ self.now.left }
    {
        &self.bytes.as_slice()[self.start..self.end]
    }

    /// Returns how many bytes were read.
    /// Cost: none.
    pub fn bytes_read(&self) -> usize
        ensures { result ≡ self.now.read }
    {
        self.read
    }

    // Moves what is left, up to its first newline if there is one, to the end of the line. It returns whether there was one.
    fn move_to(&mut self, line: &mut Vec<u8, A>) -> Result<bool, ReadError>
        ensures newline { result ≡ Ok true → (piece : List ℕ) × IsFree piece
            × (self.old.left ≡ piece ++ 10 ∷ self.new.left) × (line.new.items ≡ line.old.items ++ piece) }
        ensures none { result ≡ Ok false → IsFree self.old.left × (self.new.left ≡ [])
            × (line.new.items ≡ line.old.items ++ self.old.left) }
        ensures ended { self.new.ended ≡ self.old.ended }
        ensures read { self.new.read ≡ self.old.read }
    {
        let left = &self.bytes[self.start..self.end];
        let Some(at) = newline_at(left) else {
            let Ok(()) = line.extend_from_slice(left) else {
                return Err(ReadError::Memory);
            };
            self.start = self.end;
            return Ok(false);
        };
        let Ok(()) = line.extend_from_slice(&left[..at]) else {
            return Err(ReadError::Memory);
        };
        self.start += at + 1;
        Ok(true)
    }

    // One read into the buffer, if nothing is left. It returns whether it gave something.
    fn fill<R: Read>(&mut self, reader: &mut R) -> Result<bool, ReadError>
        ensures some { result ≡ Ok true → Consumes (R.remaining reader.old) (R.remaining reader.new) self.new.left
            × (0 < length self.new.left) × (self.new.ended ≡ self.old.ended)
            × (self.new.read ≡ self.old.read + length self.new.left) }
        ensures none { result ≡ Ok false → Consumes (R.remaining reader.old) (R.remaining reader.new) []
            × IsAtEnd (R.remaining reader.new) × (self.new.left ≡ []) × (self.new.ended ≡ true)
            × (self.new.read ≡ self.old.read) }
        ensures fits { self.new.read < 2 ^ 64 }
    {
        if self.bytes.is_empty() {
            let Ok(()) = self.bytes.resize(ROOM, 0) else {
                return Err(ReadError::Memory);
            };
        }
        self.start = 0;
        self.end = 0;
        match reader.read(self.bytes.as_mut_slice()) {
            Ok(0) => {
                self.ended = true;
                Ok(false)
            }
            Ok(count) => {
                let Some(read) = self.read.checked_add(count) else {
                    return Err(ReadError::Memory);
                };
                self.read = read;
                self.end = count;
                Ok(true)
            }
            Err(_) => Err(ReadError::Reading),
        }
    }
}
