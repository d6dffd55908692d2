//! Lines that begin with times, handed to a pass.
ghost use Rattle.std.specs.Prelude.{◌≡◌, ◌+◌, ℕ, true, false, List, [], ◌∷◌, ◌++◌, Some, OnOk};
ghost use Rattle.std.specs.Int.NonZero.{non_zero_usize_get};
ghost use Rattle.clru_text.specs.Keys.{line_of};
ghost use Rattle.clru_text.specs.TakenRequests.{HasTakenRequest};
ghost use Rattle.clru_text.specs.Times.{rest_of_line, time_of_line};
ghost use Rattle.clru_text.specs.declared.lines.OwnedKey.{OwnedKey};
ghost use Rattle.clru_report.specs.TimedPasses.{HasTakenTimed};

use crate::sized::count_line;
use clru_text::{Fault, OwnedKey, TakesLines, is_kept, split_time};
use std::alloc::{AllocError, Allocator};
use std::num::NonZeroUsize;

/// A pass over requests with times, whose keys may weigh something.
pub(super) trait TakesRequests<A: Allocator> {
    // Where keys weigh that by their lines, these requests were taken since the first of both states, the latest first.
    ghost since: { (List ℕ → ℕ) → Self → List (OwnedKey A × ℕ) → Self → Type 0 };

    /// Takes one more request of this weight. Returns whether its key is new, for the heading of a picture.
    fn take_request(
        &mut self,
        alloc: A,
        key: &OwnedKey<A>,
        time: usize,
        weight: usize,
    ) -> Result<bool, AllocError>
        requires { (w : List ℕ → ℕ) × (start : Self) × (past : List (OwnedKey A × ℕ)) × since w start past self.old
            × (weight ≡ w (line_of key.now)) }
        ensures { (w : List ℕ → ℕ) (start : Self) (past : List (OwnedKey A × ℕ)) → since w start past self.old
            → weight ≡ w (line_of key.now)
            → OnOk result (HasTakenRequest (since w start) past (line_of key.now) time self.new) };
}

/// Hands a pass the lines with times that a sample keeps. A sample of one key in one keeps all lines.
#[derive(Drop)]
pub(super) struct TimedLines<P, A: Allocator> {
    pub(super) alloc: A,
    pub(super) one_in: NonZeroUsize,
    pub(super) pass: P,
    pub(super) key: OwnedKey<A>,
}

impl<P: TakesRequests<A>, A: Allocator + Copy> TakesLines<Fault, A> for TimedLines<P, A> {
    ghost use Rattle.clru_report.specs.Timed.{IsUntimed};

    ghost since = { λ start lines now. (now.one_in ≡ start.one_in)
        × HasTakenTimed (P.since (λ _. 0) start.pass) (non_zero_usize_get now.one_in) lines now.pass };

    ghost refused = { λ start lines fault now. IsUntimed fault lines };

    fn take_line(
        &mut self,
        line: &OwnedKey<A>,
        number: usize,
        _behind: &[u8],
    ) -> Result<Result<(), Fault>, AllocError> {
        let Some((time, rest)) = split_time(&line.0) else {
            return Ok(Err(Fault::NoSize(number)));
        };
        take_kept(
            self.alloc,
            self.one_in,
            &mut self.pass,
            &mut self.key,
            rest,
            time,
            0,
        )?;
        Ok(Ok(()))
    }
}

/// The same of lines whose times are followed by sizes: with the size of all of them, and how many distinct keys were kept.
#[derive(Drop)]
pub(super) struct SizedTimedLines<P, A: Allocator> {
    pub(super) lines: TimedLines<P, A>,
    pub(super) size: usize,
    pub(super) distinct: usize,
}

impl<P: TakesRequests<A>, A: Allocator + Copy> TakesLines<Fault, A> for SizedTimedLines<P, A> {
    ghost use Rattle.clru_text.specs.Sizes.{weight_of_line};
    ghost use Rattle.clru_text.specs.Times.{rests_of};
    ghost use Rattle.clru_report.specs.SizedLines.{HaveFault};
    ghost use Rattle.clru_report.specs.SizedTimedPasses.{HasTakenSizedTimed};

    ghost since = { λ start lines now. (now.lines.one_in ≡ start.lines.one_in)
        × HasTakenSizedTimed (P.since weight_of_line start.lines.pass) (non_zero_usize_get now.lines.one_in) lines now.size now.lines.pass };

    ghost refused = { λ start lines fault now. HaveFault (rests_of lines) fault };

    fn take_line(
        &mut self,
        line: &OwnedKey<A>,
        number: usize,
        _behind: &[u8],
    ) -> Result<Result<(), Fault>, AllocError> {
        let Some((time, rest)) = split_time(&line.0) else {
            return Ok(Err(Fault::NoSize(number)));
        };
        let more = match count_line(rest, number, self.size) {
            Ok(more) => more,
            Err(fault) => return Ok(Err(fault)),
        };
        let weight = more - self.size - 1;
        let lines = &mut self.lines;
        let new = take_kept(
            lines.alloc,
            lines.one_in,
            &mut lines.pass,
            &mut lines.key,
            rest,
            time,
            weight,
        )?;
        self.size = more;
        self.distinct = self.distinct.saturating_add(usize::from(new));
        Ok(Ok(()))
    }
}

// Takes one more request of what follows a time, of this weight, if the sample keeps it. Returns whether its key is kept and new.
fn take_kept<P: TakesRequests<A>, A: Allocator + Copy>(
    alloc: A,
    one_in: NonZeroUsize,
    pass: &mut P,
    key: &mut OwnedKey<A>,
    rest: &[u8],
    time: usize,
    weight: usize,
) -> Result<bool, AllocError>
    requires { (w : List ℕ → ℕ) × (start : P) × (lines : List (List ℕ))
        × HasTakenTimed (P.since w start) (non_zero_usize_get one_in) lines pass.old × (weight ≡ w rest.now) }
    ensures { (w : List ℕ → ℕ) (start : P) (lines : List (List ℕ)) (line : List ℕ)
        → HasTakenTimed (P.since w start) (non_zero_usize_get one_in) lines pass.old
        → time_of_line line ≡ Some time → rest.now ≡ rest_of_line line → weight ≡ w rest.now
        → OnOk result (HasTakenTimed (P.since w start) (non_zero_usize_get one_in) (lines ++ line ∷ []) pass.new) }
{
    if !is_kept(rest, one_in) {
        return Ok(false);
    }
    key.0.clear();
    key.0.extend_from_slice(rest)?;
    pass.take_request(alloc, key, time, weight)
}
