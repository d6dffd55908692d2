//! The one reading of a log whose lines begin with times and sizes.
ghost use Rattle.std.specs.Prelude.{◌≡◌, true, false, Some, IfErr, IfOk};
ghost use Rattle.std.specs.Int.NonZero.{non_zero_usize_get};
ghost use Rattle.clru_curve.specs.SizedPositionPasses.{IsSizedPositionPass};
ghost use Rattle.clru_text.specs.Faults.{is_of_input, is_of_writing};
ghost use Rattle.clru_text.specs.Keys.{line_of, same_line};
ghost use Rattle.clru_text.specs.Lines.{lines_of};
ghost use Rattle.clru_text.specs.Times.{rests_of};
ghost use Rattle.clru_text.specs.Whole.{ReadWhole};
ghost use Rattle.clru_report.specs.Passes.{IsOfLines, IsSettled};
ghost use Rattle.clru_report.specs.Refusals.{fault_from};
ghost use Rattle.clru_report.specs.SizedTimedPasses.{IsSizedTimedCurveOf};
ghost use Rattle.clru_report.specs.TimedPasses.{IsTimedLinePass};

use super::line_pass::{LatestLines, TimedLinePass};
use super::lines::{SizedTimedLines, TakesRequests, TimedLines};
use crate::reading::read_all;
use clru_curve::{SizedCurve, SizedPositionPass};
use clru_text::{Fault, OwnedKey};
use std::alloc::{AllocError, Allocator};
use std::hash::BuildHasher;
use std::io::Read;
use std::num::NonZeroUsize;

/// Returns the curve of the lines that a sample keeps under an idle limit, and how many lines there are in all, their size, how many
/// distinct keys were kept, and how many bytes there are.
///
/// Holds only the distinct keys. Each line must begin with a time and a size, kept or not.
pub(super) fn curve_of_sized_times<R: Read, S: BuildHasher + Drop, A: Allocator + Copy>(
    alloc: A,
    one_in: NonZeroUsize,
    idle: usize,
    reader: &mut R,
    hash_builder: S,
) -> Result<(SizedCurve<A>, usize, usize, usize, usize), Fault>
    ensures curve { IfOk result (λ found. ReadWhole (R.remaining reader.old) (R.remaining reader.new)
        (λ input. IsSizedTimedCurveOf (non_zero_usize_get one_in) idle (lines_of input) found.0 found.1 found.2)) }
    ensures settled { IfOk result (λ found. IsSettled found.0) }
    ensures refused { IfErr result (λ fault. is_of_input fault ≡ true → ReadWhole (R.remaining reader.old) (R.remaining reader.new)
        (λ input. IsOfLines fault (rests_of (lines_of input)) × (fault_from 1 0 (rests_of (lines_of input)) ≡ Some fault))) }
    ensures fault { IfErr result (λ fault. is_of_writing fault ≡ false) }
{
    let pass = TimedLinePass {
        lines: LatestLines::new(alloc, idle, hash_builder),
        pass: SizedPositionPass::new(alloc),
    };
    let mut sized = SizedTimedLines {
        lines: TimedLines {
            alloc,
            one_in,
            pass,
            key: OwnedKey(Vec::new(alloc)),
        },
        size: 0,
        distinct: 0,
    };
    let (requests, bytes) = read_all(alloc, reader, &mut sized)?;
    let SizedTimedLines {
        lines,
        size,
        distinct,
    } = sized;
    let TimedLines {
        alloc: _,
        one_in: _,
        pass,
        key: _,
    } = lines;
    let curve = pass.into_pass().into_curve();
    Ok((curve, requests, size, distinct, bytes))
}

impl<S: BuildHasher, A: Allocator + Copy> TakesRequests<A>
    for TimedLinePass<SizedPositionPass<OwnedKey<A>, A>, S, A> {
    // Under the limit of the first state.
    ghost since = { λ w start past now. IsTimedLinePass (IsSizedPositionPass same_line (λ k. w (line_of k)) start.lines.limit)
        start.lines.limit past now };

    // The sizes of the kept lines are too large only where those of all are, and then the line was refused before.
    fn take_request(
        &mut self,
        _alloc: A,
        key: &OwnedKey<A>,
        time: usize,
        weight: usize,
    ) -> Result<bool, AllocError> {
        let (latest, soon) = self.lines.note(key, time)?;
        match self.pass.request(latest, soon, weight) {
            Ok(_) => Ok(latest.is_none()),
            Err(_) => Err(AllocError),
        }
    }
}
