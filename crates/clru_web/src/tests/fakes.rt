//! Readers and writers that fail, a hash builder that counts, and a plain look.
ghost use Rattle.std.specs.Hash.FoldHasher as folding;

use clru_text::Look;
use std::alloc::Allocator;
use std::cell::Cell;
use std::hash::{BuildHasher, FoldHasher};
use std::io::{self, ErrorKind, Read, Write};

/// The look of a picture of which nothing is asked.
pub(crate) fn plain<A: Allocator>() -> Look<A> {
    Look {
        title: None,
        unit: None,
        from: None,
        to: None,
    }
}

/// Gives its bytes one by one, and then an error of the kind.
#[derive(Drop)]
pub(crate) struct Breaking<'a> {
    pub(crate) left: &'a [u8],
    pub(crate) kind: ErrorKind,
    pub(crate) calls: usize,
}

impl<'a> Read for Breaking<'a> {
    fn read(&mut self, buf: &mut [u8]) -> io::Result<usize> {
        self.calls = self.calls.saturating_add(1);
        match (self.left.split_first(), buf.first_mut()) {
            (Some((byte, rest)), Some(place)) => {
                *place = *byte;
                self.left = rest;
                Ok(1)
            }
            _ => Err(io::Error::from(self.kind)),
        }
    }
}

/// Gives one of its pieces a call, each of which fits what is offered, and notes the least that it was offered, and its calls.
#[derive(Drop)]
pub(crate) struct Piecewise<'a> {
    pub(crate) pieces: &'a [&'a [u8]],
    pub(crate) least: usize,
    pub(crate) calls: usize,
}

impl<'a> Read for Piecewise<'a> {
    fn read(&mut self, buf: &mut [u8]) -> io::Result<usize> {
        let piece = self.pieces.get(self.calls);
        self.calls = self.calls.saturating_add(1);
        self.least = self.least.min(buf.len());
        let Some(piece) = piece else {
            return Ok(0);
        };
        let count = piece.len().min(buf.len());
        buf[..count].copy_from_slice(&piece[..count]);
        Ok(count)
    }
}

/// Takes two bytes a call and so many in all, and then answers the error or, where there is none, takes nothing.
#[derive(Drop)]
pub(crate) struct Filling {
    pub(crate) got: Vec<u8>,
    pub(crate) most: usize,
    pub(crate) error: Option<ErrorKind>,
}

impl Write for Filling {
    fn write(&mut self, buf: &[u8]) -> io::Result<usize> {
        let room = self.most.saturating_sub(self.got.len());
        let count = buf.len().min(2).min(room);
        match self.error {
            Some(kind) if count == 0 => return Err(io::Error::from(kind)),
            _ => {}
        }
        self.got.extend_from_slice(&buf[..count])?;
        Ok(count)
    }

    fn flush(&mut self) -> io::Result<()> {
        Ok(())
    }
}

/// Counts the hashers that it makes, one for each hash.
#[derive(Clone, Copy)]
pub(crate) struct Counting<'c>(pub(crate) &'c Cell<u64>);

impl<'c> BuildHasher for Counting<'c> {
    type Hasher = FoldHasher;

    ghost build_hasher = { λ s. folding.initial };

    fn build_hasher(&self) -> FoldHasher {
        self.0.set(self.0.get().saturating_add(1));
        FoldHasher::default()
    }
}
