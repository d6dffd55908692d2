//! Bytes of a log on their way from a reader to plain lines.
ghost use Rattle.std.specs.Prelude.{◌≡◌, ◌≤◌, ℕ, List, [], ◌++◌, length, take, true, false, OnOk, OnErr};
ghost use Rattle.clru_text.specs.LinesRead.{IsFree};
ghost use Rattle.clru_log.specs.Cuts.{kept_bytes, line_of};

use crate::counts::CutCounts;
use crate::format::{Format, Wanted};
use crate::output::Output;
use crate::window::Window;
use std::alloc::{AllocError, Allocator};

/// What was read and not yet cut, and what was cut and not yet given.
#[derive(Drop)]
pub(crate) struct Cutter<A: Allocator> {
    pub(crate) format: Format<A>,
    pub(crate) wanted: Wanted,
    pub(crate) input: Window<A>,
    pub(crate) output: Output<A>,
    // The reader has no more, and its last line is cut.
    pub(crate) ended: bool,
    pub(crate) counts: CutCounts,
}

impl<A: Allocator> Cutter<A> {
    ghost use Rattle.clru_log.specs.Cutting.{ready_with};

    pub(crate) fn new(alloc: A, format: Format<A>, wanted: Wanted) -> Self
    where
        A: Copy,
        ensures input { result.input ≡ [] }
        ensures output { result.output ≡ [] }
        ensures format { result.format ≡ format }
        ensures wanted { result.wanted ≡ wanted }
        ensures open { result.ended ≡ false }
    {
        Cutter {
            format,
            wanted,
            input: Window::new(alloc),
            output: Output::new(alloc),
            ended: false,
            counts: CutCounts::default(),
        }
    }

    /// Cuts the lines that have their newline.
    pub(crate) fn cut_lines(&mut self) -> Result<(), AllocError>
        ensures same { (more : List ℕ) → ready_with self.new more ≡ ready_with self.old more }
        ensures ended { self.new.ended ≡ self.old.ended }
        ensures rest { OnOk result (IsFree self.new.input) }
    {
        'lines: while let Some(at) = self.input.newline_at() {
            self.cut(at)?;
            self.input.consume_line(at);
        }
        Ok(())
    }

    /// Cuts what is left as the last line.
    pub(crate) fn cut_last(&mut self) -> Result<(), AllocError>
        requires { IsFree self.old.input }
        ensures last { OnOk result (self.new.output ≡ ready_with self.old []) }
        ensures ended { OnOk result (self.new.ended ≡ true) }
        ensures same { OnErr result ((more : List ℕ) → ready_with self.new more ≡ ready_with self.old more) }
        ensures open { OnErr result (self.new.ended ≡ self.old.ended) }
    {
        let len = self.input.as_slice().len();
        if len == 0 {
            self.ended = true;
            return Ok(());
        }
        self.cut(len)?;
        self.input.consume(len);
        self.ended = true;
        Ok(())
    }

    // Cuts so many bytes of what is left as a line, which stays.
    fn cut(&mut self, len: usize) -> Result<(), AllocError>
        requires { len ≤ length self.old.input }
        ensures ok { OnOk result (self.new.output ≡ self.old.output
            ++ kept_bytes (line_of self.old.format self.old.wanted (take len self.old.input))) }
        ensures err { OnErr result (self.new.output ≡ self.old.output) }
        ensures same { self.new ≡ record self.old { output = self.new.output; counts = self.new.counts } }
    {
        let line = &self.input.as_slice()[..len];
        let left = self.output.cut_line(&self.format, self.wanted, line)?;
        self.counts.count(left);
        Ok(())
    }
}
