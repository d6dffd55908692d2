//! A log as a reader of plain lines.
ghost use Rattle.std.specs.Prelude.{◌≡◌, false, [], OnOk, option_map};
ghost use Rattle.std.specs.Io.KnownBytes.{Keeps, IsAtEnd};
ghost use Rattle.clru_text.specs.LinesRead.{IsFree};
ghost use Rattle.clru_log.specs.Cuts.{cut_bytes};

use crate::counts::CutCounts;
use crate::cutter::Cutter;
use crate::format::{Format, Wanted};
use std::alloc::Allocator;
use std::io;
use std::io::Read;

/// Reads a log, and gives the plain lines of the lines that count.
///
/// After an error nothing is lost: the next read goes on behind what was given.
#[derive(Drop)]
pub struct CutReader<R: Read, A: Allocator> {
    inner: R,
    cutter: Cutter<A>,
}

impl<R: Read, A: Allocator + Copy> CutReader<R, A> {
    ghost use Rattle.clru_log.specs.Cutting.{cut_remaining};

    /// Creates a reader of the plain lines of a log, as these are wanted.
    /// Cost: no request for memory.
    pub fn new(alloc: A, inner: R, format: Format<A>, wanted: Wanted) -> Self
        ensures { cut_remaining R.remaining result ≡ option_map (cut_bytes format wanted) (R.remaining inner) }
    {
        CutReader {
            inner,
            cutter: Cutter::new(alloc, format, wanted),
        }
    }
}

impl<R: Read, A: Allocator> CutReader<R, A> {
    ghost use Rattle.clru_log.specs.Cutting.{cut_remaining};

    /// Returns how many lines were read, and how many of them count.
    pub fn counts(&self) -> CutCounts {
        self.cutter.counts
    }

    // Reads and cuts until something is cut, or the log ends.
    fn prepare(&mut self) -> io::Result<()>
        ensures same { Keeps (cut_remaining R.remaining self.old) (cut_remaining R.remaining self.new) }
        ensures some { OnOk result (self.new.cutter.output ≡ [] → IsAtEnd (cut_remaining R.remaining self.new)) }
    {
        self.cutter.output.clear_given();
        'reads: for _ in 0..u64::MAX {
            if self.cutter.ended || self.cutter.output.has_some() {
                return Ok(());
            }
            self.step()?;
        }
        Err(io::Error::from(io::ErrorKind::Interrupted))
    }

    // Cuts what was read, or else reads more.
    fn step(&mut self) -> io::Result<()>
        requires { self.old.cutter.ended ≡ false }
        ensures { Keeps (cut_remaining R.remaining self.old) (cut_remaining R.remaining self.new) }
    {
        self.cutter.cut_lines()?;
        if self.cutter.output.has_some() {
            return Ok(());
        }
        self.read_more()
    }

    // Reads once more, and cuts the last line at the end.
    fn read_more(&mut self) -> io::Result<()>
        requires free { IsFree self.old.cutter.input }
        requires open { self.old.cutter.ended ≡ false }
        ensures { Keeps (cut_remaining R.remaining self.old) (cut_remaining R.remaining self.new) }
    {
        if self.cutter.input.read_from(&mut self.inner)? == 0 {
            self.cutter.cut_last()?;
        }
        Ok(())
    }
}

impl<R: Read, A: Allocator> Read for CutReader<R, A> {
    ghost use Rattle.clru_log.specs.Cutting.{cut_remaining};

    ghost remaining = { cut_remaining R.remaining };

    fn read(&mut self, buf: &mut [u8]) -> io::Result<usize> {
        if buf.is_empty() {
            return Ok(0);
        }
        self.prepare()?;
        Ok(self.cutter.output.give(buf))
    }
}
