//! What is cut and not yet given.
ghost use Rattle.std.specs.Prelude.{◌≡◌, ◌<◌, ◌++◌, [], min, length, take, true, false, IfOk, OnErr, OnOk, None, Some, MatchResult};
ghost use Rattle.clru_log.specs.Cuts.{kept_bytes, line_of};

use crate::cut::{Left, cut_line};
use crate::format::{Format, Wanted};
use std::alloc::{AllocError, Allocator};
use std::marker::Model;

#[derive(Drop)]
pub(crate) struct Output<A: Allocator> {
    bytes: Vec<u8, A>,
    // So many of them were given.
    given: usize,
}

impl<A: Allocator> Model for Output<A> {
    ghost use Rattle.std.specs.Prelude.{ℕ, List, drop, ◌≤◌, vec_len};

    ghost Value = { List ℕ };

    ghost view = { λ o. drop o.given o.bytes.items };

    ghost invariant = { λ o. o.given ≤ vec_len o.bytes };
}

impl<A: Allocator> Output<A> {
    pub(crate) fn new(alloc: A) -> Self
        ensures { result ≡ [] }
    {
        Output {
            bytes: Vec::new(alloc),
            given: 0,
        }
    }

    /// Returns whether something is left to give.
    pub(crate) fn has_some(&self) -> bool
        ensures some { result ≡ true → 0 < length self.now }
        ensures none { result ≡ false → self.now ≡ [] }
    {
        self.given < self.bytes.len()
    }

    /// Lets go what was given, if all is.
    pub(crate) fn clear_given(&mut self)
        ensures { self.new ≡ self.old }
    {
        if self.given == self.bytes.len() {
            self.bytes.clear();
            self.given = 0;
        }
    }

    /// Gives as much as there is room for.
    pub(crate) fn give(&mut self, buf: &mut [u8]) -> usize
        ensures count { result ≡ min (length buf.new) (length self.old) }
        ensures bytes { self.old ≡ take result buf.new ++ self.new }
    {
        let ready = &self.bytes.as_slice()[self.given..];
        let count = buf.len().min(ready.len());
        buf[..count].copy_from_slice(&ready[..count]);
        self.given += count;
        count
    }

    /// Appends the plain line of a line, if the line counts.
    pub(crate) fn cut_line(
        &mut self,
        format: &Format<A>,
        wanted: Wanted,
        line: &[u8],
    ) -> Result<Option<Left>, AllocError>
        ensures line { OnOk result (self.new ≡ self.old ++ kept_bytes (line_of format.now wanted line.now)) }
        ensures err { OnErr result (self.new ≡ self.old) }
    {
        cut_line(format, wanted, line, &mut self.bytes)
    }
}
