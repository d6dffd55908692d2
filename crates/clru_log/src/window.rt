//! Bytes that were read and are not yet cut.
ghost use Rattle.std.specs.Prelude.{◌≡◌, ◌+◌, ◌<◌, ◌≤◌, ◌==◌, ℕ, List, [], ◌++◌, length, take, drop, position, IfOk, OnErr, OnOk, vec_len};
ghost use Rattle.std.specs.Io.KnownBytes.{Consumes, IsAtEnd, Keeps};

use crate::newline::newline_at;
use std::alloc::{AllocError, Allocator};
use std::io;
use std::io::Read;
use std::marker::Model;

const ROOM: usize = 256 * 1024;

#[derive(Drop)]
pub(crate) struct Window<A: Allocator> {
    bytes: Vec<u8, A>,
    // What is left stands from `start` to `end`.
    start: usize,
    // Before it no newline stands, so that a long line is searched once.
    searched: usize,
    end: usize,
}

impl<A: Allocator> Model for Window<A> {
    ghost use Rattle.std.specs.Prelude.{ℕ, List, slice_range, ◌≤◌, vec_len};
    ghost use Rattle.clru_text.specs.LinesRead.{IsFree};

    ghost Value = { List ℕ };

    ghost view = { λ w. slice_range w.bytes.items w.start w.end };

    ghost invariant = { λ w. (w.start ≤ w.searched) × (w.searched ≤ w.end) × (w.end ≤ vec_len w.bytes)
        × IsFree (slice_range w.bytes.items w.start w.searched) };
}

impl<A: Allocator> Window<A> {
    pub(crate) fn new(alloc: A) -> Self
        ensures { result ≡ [] }
    {
        Window {
            bytes: Vec::new(alloc),
            start: 0,
            searched: 0,
            end: 0,
        }
    }

    pub(crate) fn as_slice(&self) -> &[u8]
        ensures { result.now ≡ self.now }
    {
        &self.bytes.as_slice()[self.start..self.end]
    }

    /// Returns how many bytes stand before the first newline.
    pub(crate) fn newline_at(&mut self) -> Option<usize>
        ensures at { result ≡ position (λ b. b == 10) self.old }
        ensures same { self.new ≡ self.old }
    {
        match newline_at(&self.bytes.as_slice()[self.searched..self.end]) {
            Some(at) => Some(self.searched - self.start + at),
            None => {
                self.searched = self.end;
                None
            }
        }
    }

    /// Lets so many bytes go.
    pub(crate) fn consume(&mut self, count: usize)
        requires { count ≤ length self.old }
        ensures { self.new ≡ drop count self.old }
    {
        self.start += count;
        self.searched = self.start;
    }

    /// Lets so many bytes and the newline behind them go.
    pub(crate) fn consume_line(&mut self, len: usize)
        requires { len < length self.old }
        ensures { self.new ≡ drop (len + 1) self.old }
    {
        let newline = self.start + len;
        self.start = newline + 1;
        self.searched = self.start;
    }

    /// One read behind what is left. Returns how many bytes it gave.
    pub(crate) fn read_from<R: Read>(&mut self, reader: &mut R) -> io::Result<usize>
        ensures ok { IfOk result (λ n. (more : List ℕ) × (length more ≡ n) × (self.new ≡ self.old ++ more)
            × Consumes (R.remaining reader.old) (R.remaining reader.new) more) }
        ensures end { IfOk result (λ n. n ≡ 0 → IsAtEnd (R.remaining reader.new)) }
        ensures err { OnErr result ((self.new ≡ self.old) × Keeps (R.remaining reader.old) (R.remaining reader.new)) }
    {
        self.move_to_front();
        let count = read_behind(&mut self.bytes, self.end, reader)?;
        self.end += count;
        Ok(count)
    }

    // Moves what is left to where the buffer begins.
    fn move_to_front(&mut self)
        ensures { self.new ≡ self.old }
    {
        let (start, end) = (self.start, self.end);
        self.bytes.as_mut_slice().copy_within(start..end, 0);
        self.start = 0;
        self.searched -= start;
        self.end = end - start;
    }
}

// Makes the bytes more than these, if they are not.
fn grow_past<A: Allocator>(bytes: &mut Vec<u8, A>, end: usize) -> Result<(), AllocError>
    requires { end ≤ vec_len bytes.old }
    ensures front { take end bytes.new.items ≡ take end bytes.old.items }
    ensures within { end ≤ vec_len bytes.new }
    ensures past { OnOk result (end < vec_len bytes.new) }
{
    if end < bytes.len() {
        return Ok(());
    }
    bytes.resize(bytes.len().saturating_mul(2).max(ROOM), 0)
}

// One read behind so many bytes, which stay.
fn read_behind<R: Read, A: Allocator>(
    bytes: &mut Vec<u8, A>,
    end: usize,
    reader: &mut R,
) -> io::Result<usize>
    requires { end ≤ vec_len bytes.old }
    ensures front { take end bytes.new.items ≡ take end bytes.old.items }
    ensures within { end ≤ vec_len bytes.new }
    ensures fits { IfOk result (λ n. end + n ≤ vec_len bytes.new) }
    ensures ok { IfOk result (λ n. Consumes (R.remaining reader.old) (R.remaining reader.new) (take n (drop end bytes.new.items))) }
    ensures end { IfOk result (λ n. n ≡ 0 → IsAtEnd (R.remaining reader.new)) }
    ensures err { OnErr result (Keeps (R.remaining reader.old) (R.remaining reader.new)) }
{
    grow_past(bytes, end)?;
    read_at(reader, bytes.as_mut_slice(), end)
}

fn read_at<R: Read>(reader: &mut R, buf: &mut [u8], at: usize) -> io::Result<usize>
    requires { at < length buf.old }
    ensures front { take at buf.new ≡ take at buf.old }
    ensures fits { IfOk result (λ n. at + n ≤ length buf.new) }
    ensures ok { IfOk result (λ n. Consumes (R.remaining reader.old) (R.remaining reader.new) (take n (drop at buf.new))) }
    ensures end { IfOk result (λ n. n ≡ 0 → IsAtEnd (R.remaining reader.new)) }
    ensures err { OnErr result (Keeps (R.remaining reader.old) (R.remaining reader.new)) }
{
    reader.read(&mut buf[at..])
}
