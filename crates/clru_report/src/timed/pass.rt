//! The one reading of a log whose lines begin with times.
ghost use Rattle.std.specs.Prelude.{◌≡◌, true, false, IfErr, IfOk};
ghost use Rattle.std.specs.Int.NonZero.{non_zero_usize_get};
ghost use Rattle.clru_curve.specs.PositionPasses.{IsPositionPass};
ghost use Rattle.clru_text.specs.Faults.{is_of_input, is_of_writing};
ghost use Rattle.clru_text.specs.Keys.{same_line};
ghost use Rattle.clru_text.specs.Lines.{lines_of};
ghost use Rattle.clru_text.specs.Whole.{ReadWhole};
ghost use Rattle.clru_report.specs.Timed.{IsUntimed};
ghost use Rattle.clru_report.specs.TimedPasses.{IsTimedCurveOf, IsTimedLinePass};

use super::line_pass::{LatestLines, TimedLinePass};
use super::lines::{TakesRequests, TimedLines};
use crate::reading::read_all;
use clru_curve::{MissCurve, PositionPass};
use clru_text::{Fault, OwnedKey};
use std::alloc::{AllocError, Allocator};
use std::hash::BuildHasher;
use std::io::Read;
use std::num::NonZeroUsize;

/// Returns the curve of the lines that a sample keeps under an idle limit, and how many lines and bytes there are in all.
///
/// Holds only the distinct keys. Each line must begin with a time, kept or not.
pub(super) fn curve_of_times<R: Read, S: BuildHasher + Drop, A: Allocator + Copy>(
    alloc: A,
    one_in: NonZeroUsize,
    idle: usize,
    reader: &mut R,
    hash_builder: S,
) -> Result<(MissCurve<A>, usize, usize), Fault>
    ensures curve { IfOk result (λ found. ReadWhole (R.remaining reader.old) (R.remaining reader.new)
        (λ input. IsTimedCurveOf (non_zero_usize_get one_in) idle input found.0 found.1 found.2)) }
    ensures refused { IfErr result (λ fault. is_of_input fault ≡ true → ReadWhole (R.remaining reader.old) (R.remaining reader.new)
        (λ input. IsUntimed fault (lines_of input))) }
    ensures fault { IfErr result (λ fault. is_of_writing fault ≡ false) }
{
    let mut lines = TimedLines {
        alloc,
        one_in,
        pass: TimedLinePass {
            lines: LatestLines::new(alloc, idle, hash_builder),
            pass: PositionPass::new(alloc),
        },
        key: OwnedKey(Vec::new(alloc)),
    };
    let (requests, bytes) = read_all(alloc, reader, &mut lines)?;
    let TimedLines {
        alloc: _,
        one_in: _,
        pass,
        key: _,
    } = lines;
    let curve = pass.into_pass().into_curve();
    Ok((curve, requests, bytes))
}

impl<S: BuildHasher, A: Allocator + Copy> TakesRequests<A>
    for TimedLinePass<PositionPass<OwnedKey<A>, A>, S, A> {
    // Under the limit of the first state. Keys weigh nothing.
    ghost since = { λ w start past now. IsTimedLinePass (IsPositionPass same_line start.lines.limit) start.lines.limit past now };

    fn take_request(
        &mut self,
        _alloc: A,
        key: &OwnedKey<A>,
        time: usize,
        _weight: usize,
    ) -> Result<bool, AllocError> {
        let (latest, soon) = self.lines.note(key, time)?;
        match self.pass.request(latest, soon) {
            Ok(_) => Ok(latest.is_none()),
            Err(_) => Err(AllocError),
        }
    }
}
