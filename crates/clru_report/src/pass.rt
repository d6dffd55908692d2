//! The one reading of a log whose lines are keys.
ghost use Rattle.std.specs.Prelude.{◌≡◌, ℕ, List, Bool, true, false, [], ◌∷◌, ◌++◌, is_some, map, reverse, IfOk, OnOk};
ghost use Rattle.std.specs.Int.NonZero.{non_zero_usize_get};
ghost use Rattle.clru_model.specs.Requests.{IsLatestOf};
ghost use Rattle.clru_text.specs.Keys.{line_of, same_line};
ghost use Rattle.clru_text.specs.Lines.{lines_of};
ghost use Rattle.clru_text.specs.Samples.{kept_of};
ghost use Rattle.clru_text.specs.Whole.{ReadWhole};
ghost use Rattle.clru_text.specs.declared.lines.OwnedKey.{OwnedKey};
ghost use Rattle.clru_report.specs.LinePasses.{HasTakenFor};
ghost use Rattle.clru_report.specs.Passes.{HasFloorPass, HasForesight, IsCurveOfKept, IsFloorFor, IsForeseenFor};

use crate::line_pass::LinePass;
use crate::prefetch::lines_ahead;
use crate::reading::read_keys;
use clru_curve::MissCurve;
use clru_least::{Floor, FloorPass, ForesightPass};
use clru_text::{OwnedKey, ReadError, TakesLines, is_kept};
use std::alloc::{AllocError, Allocator};
use std::hash::BuildHasher;
use std::io::Read;
use std::num::NonZeroUsize;

/// Returns the curve of the lines that a sample keeps, a foresight and a floor of them if they are asked for, and how many lines and
/// bytes there are in all. A sample of one key in one keeps all lines.
///
/// No more than the distinct lines is held of them, a number for each if there is a foresight, and two for each that came before
/// if there is a floor.
pub(crate) fn curve_by_keys<R: Read, S: BuildHasher + Drop, A: Allocator + Copy>(
    alloc: A,
    one_in: NonZeroUsize,
    least: bool,
    floored: bool,
    reader: &mut R,
    hash_builder: S,
) -> Result<
    (
        MissCurve<A>,
        Option<ForesightPass<OwnedKey<A>, A>>,
        Option<Floor<A>>,
        usize,
        usize,
    ),
    ReadError,
>
    ensures { IfOk result (λ found. ReadWhole (R.remaining reader.old) (R.remaining reader.new)
        (λ input. IsCurveOfKept (non_zero_usize_get one_in) input found.0 found.3 found.4
        × IsForeseenFor A least (kept_of (non_zero_usize_get one_in) (lines_of input)) found.1
        × IsFloorFor floored (kept_of (non_zero_usize_get one_in) (lines_of input)) found.2)) }
{
    let mut lines = KeptLines {
        one_in,
        pass: LinePass::new(alloc, hash_builder),
        foresight: foresight_for(alloc, least),
        reuses: floor_pass_for(alloc, floored),
    };
    let (requests, bytes) = read_keys(alloc, reader, &mut lines)?;
    let KeptLines {
        one_in: _,
        pass,
        foresight,
        reuses,
    } = lines;
    let curve = pass.into_curve();
    let Ok(floor) = floor_of(&reuses) else {
        return Err(ReadError::Memory);
    };
    Ok((curve, foresight, floor, requests, bytes))
}

/// Hands the lines that a sample keeps to a pass, and to a foresight and a pass for a floor if they are asked for.
#[derive(Drop)]
struct KeptLines<S: BuildHasher, A: Allocator + Copy> {
    one_in: NonZeroUsize,
    pass: LinePass<S, A>,
    foresight: Option<ForesightPass<OwnedKey<A>, A>>,
    reuses: Option<FloorPass<OwnedKey<A>, A>>,
}

// It refuses no line.
impl<S: BuildHasher, A: Allocator + Copy> TakesLines<ReadError, A> for KeptLines<S, A> {
    // What was there beside the pass at first is there.
    ghost since = { λ start lines now. (now.one_in ≡ start.one_in)
        × HasTakenFor (is_some start.foresight) (is_some start.reuses) (kept_of (non_zero_usize_get now.one_in) lines)
        now.pass now.foresight now.reuses };

    ghost refused = { λ start lines reason now. false ≡ true };

    fn take_line(
        &mut self,
        line: &OwnedKey<A>,
        _number: usize,
        behind: &[u8],
    ) -> Result<Result<(), ReadError>, AllocError> {
        take_kept(
            self.one_in,
            &mut self.pass,
            &mut self.foresight,
            &mut self.reuses,
            line,
            behind,
        )?;
        Ok(Ok(()))
    }
}

// The foresight that has taken no line, if it is asked for.
fn foresight_for<A: Allocator + Copy>(
    alloc: A,
    least: bool,
) -> Option<ForesightPass<OwnedKey<A>, A>>
    ensures { HasForesight {A = A} least [] result }
{
    if !least {
        return None;
    }
    Some(ForesightPass::new(alloc))
}

/// The pass for a floor that has taken no line, if it is asked for.
pub(crate) fn floor_pass_for<A: Allocator + Copy>(
    alloc: A,
    floored: bool,
) -> Option<FloorPass<OwnedKey<A>, A>>
    ensures { (w : List ℕ → ℕ) → HasFloorPass {A = A} w floored [] result }
{
    if !floored {
        return None;
    }
    Some(FloorPass::new(alloc))
}

// The floor, if it is asked for.
fn floor_of<A: Allocator + Copy>(
    reuses: &Option<FloorPass<OwnedKey<A>, A>>,
) -> Result<Option<Floor<A>>, AllocError>
    ensures { (floored : Bool) (past : List (OwnedKey A)) → HasFloorPass (λ _. 0) floored past reuses.now
        → IfOk result (IsFloorFor floored (map line_of (reverse past))) }
{
    match reuses {
        None => Ok(None),
        Some(reuses) => Ok(Some(reuses.floor()?)),
    }
}

// Takes one more line if the sample keeps it.
fn take_kept<S: BuildHasher, A: Allocator + Copy>(
    one_in: NonZeroUsize,
    pass: &mut LinePass<S, A>,
    foresight: &mut Option<ForesightPass<OwnedKey<A>, A>>,
    reuses: &mut Option<FloorPass<OwnedKey<A>, A>>,
    key: &OwnedKey<A>,
    behind: &[u8],
) -> Result<(), AllocError>
    requires { (least floored : Bool) × (lines : List (List ℕ)) × HasTakenFor least floored lines pass.old foresight.old reuses.old }
    ensures { (least floored : Bool) (before : List (List ℕ)) → HasTakenFor least floored before pass.old foresight.old reuses.old
        → OnOk result (HasTakenFor least floored (before ++ kept_of (non_zero_usize_get one_in) (line_of key.now ∷ []))
        pass.new foresight.new reuses.new) }
{
    if !is_kept(&key.0, one_in) {
        return Ok(());
    }
    let Ok(latest) = pass.take(key, lines_ahead(one_in, behind)) else {
        return Err(AllocError);
    };
    foresee(foresight, latest)?;
    note_reuse(reuses, latest, 0)
}

// The foresight learns where the key was requested last.
fn foresee<A: Allocator + Copy>(
    foresight: &mut Option<ForesightPass<OwnedKey<A>, A>>,
    latest: Option<usize>,
) -> Result<(), AllocError>
    requires { (least : Bool) × (past : List (OwnedKey A)) × (key : OwnedKey A) × IsLatestOf same_line past key latest
        × HasForesight least past foresight.old }
    ensures { (least : Bool) (past : List (OwnedKey A)) (key : OwnedKey A) → IsLatestOf same_line past key latest
        → HasForesight least past foresight.old → OnOk result (HasForesight least (key ∷ past) foresight.new) }
{
    match foresight {
        None => Ok(()),
        Some(foresight) => foresight.request(latest),
    }
}

/// The pass for a floor learns where a key of this weight was requested last.
pub(crate) fn note_reuse<A: Allocator + Copy>(
    reuses: &mut Option<FloorPass<OwnedKey<A>, A>>,
    latest: Option<usize>,
    weight: usize,
) -> Result<(), AllocError>
    requires { (w : List ℕ → ℕ) × (floored : Bool) × (past : List (OwnedKey A)) × (key : OwnedKey A)
        × IsLatestOf same_line past key latest × HasFloorPass w floored past reuses.old }
    ensures { (w : List ℕ → ℕ) (floored : Bool) (past : List (OwnedKey A)) (key : OwnedKey A) → IsLatestOf same_line past key latest
        → HasFloorPass w floored past reuses.old → weight ≡ w (line_of key)
        → OnOk result (HasFloorPass w floored (key ∷ past) reuses.new) }
{
    match reuses {
        None => Ok(()),
        Some(reuses) => match reuses.request(latest, weight) {
            Ok(()) => Ok(()),
            Err(_) => Err(AllocError),
        },
    }
}
