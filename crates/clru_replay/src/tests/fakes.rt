// A reader and a writer that do little at a time, fail where they are told to, and note how they were called.
use std::alloc::Global;
use std::io::{self, ErrorKind, Read, Write};

// Gives one byte a call, and fails at the call numbered `failing`; the first is 1.
#[derive(Drop)]
pub(crate) struct Dripping<'a> {
    pub(crate) left: &'a [u8],
    pub(crate) calls: usize,
    pub(crate) failing: usize,
    pub(crate) kind: ErrorKind,
}

impl<'a> Read for Dripping<'a> {
    fn read(&mut self, buf: &mut [u8]) -> io::Result<usize> {
        self.calls = self.calls.saturating_add(1);
        if self.calls == self.failing {
            return Err(io::Error::from(self.kind));
        }
        match (self.left.split_first(), buf.first_mut()) {
            (Some((byte, rest)), Some(place)) => {
                *place = *byte;
                self.left = rest;
                Ok(1)
            }
            _ => Ok(0),
        }
    }
}

// A call of a writer: a write that was offered so many bytes, or a flush.
#[derive(Clone, Copy, Debug, PartialEq, Eq)]
pub(crate) enum Call {
    Offer(usize),
    Flush,
}

// Takes at most so many bytes a call, and fails at the call numbered `failing`; the first is 1.
#[derive(Drop)]
pub(crate) struct Noting {
    pub(crate) got: Vec<u8>,
    pub(crate) calls: Vec<Call>,
    pub(crate) most: usize,
    pub(crate) failing: usize,
}

impl Noting {
    pub(crate) fn new(alloc: Global, most: usize, failing: usize) -> Noting {
        Noting {
            got: Vec::new(alloc),
            calls: Vec::new(alloc),
            most,
            failing,
        }
    }

    fn note(&mut self, call: Call) -> io::Result<()> {
        self.calls.push(call)?;
        if self.calls.len() == self.failing {
            return Err(io::Error::from(ErrorKind::Interrupted));
        }
        Ok(())
    }
}

impl Write for Noting {
    fn write(&mut self, buf: &[u8]) -> io::Result<usize> {
        self.note(Call::Offer(buf.len()))?;
        let count = buf.len().min(self.most);
        self.got.extend_from_slice(&buf[..count])?;
        Ok(count)
    }

    fn flush(&mut self) -> io::Result<()> {
        self.note(Call::Flush)
    }
}
