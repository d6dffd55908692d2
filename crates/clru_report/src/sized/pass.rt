//! The one reading of a log whose lines are objects with their sizes.
ghost use Rattle.std.specs.Prelude.{◌≡◌, ℕ, ◌+◌, Bool, true, false, List, [], ◌∷◌, ◌++◌, bytes_eq, length, Some, is_some, IsSome, IfErr, IfOk, OnOk};
ghost use Rattle.std.specs.Int.NonZero.{non_zero_usize_get};
ghost use Rattle.clru_curve.specs.SizedCurves.{IsSizedCurveOf};
ghost use Rattle.clru_text.specs.Faults.{is_of_input, is_of_writing};
ghost use Rattle.clru_text.specs.Keys.{line_of};
ghost use Rattle.clru_text.specs.Lines.{lines_of};
ghost use Rattle.clru_text.specs.Samples.{kept_of};
ghost use Rattle.clru_text.specs.Sizes.{HaveSizes, size_of_line, weight_of_line};
ghost use Rattle.clru_text.specs.Whole.{ReadWhole};
ghost use Rattle.clru_report.specs.Passes.{AreFloorsFor, IsOfLines, IsSettled, IsSizedCurveOfKept};
ghost use Rattle.clru_report.specs.Refusals.{fault_from};
ghost use Rattle.clru_report.specs.SizedLinePasses.{HasTaken, HasTakenOf};
ghost use Rattle.clru_report.specs.SizedLines.{HaveFault};
ghost use Rattle.clru_report.specs.Sizes.{size_of_lines};

use super::floors::{Floors, floors_of};
use super::line_pass::SizedLinePass;
use crate::pass::{floor_pass_for, note_reuse};
use crate::prefetch::lines_ahead;
use crate::reading::read_all;
use clru_curve::SizedCurve;
use clru_least::FloorPass;
use clru_text::{Fault, OwnedKey, TakesLines, is_kept, size_of};
use std::alloc::{AllocError, Allocator};
use std::hash::BuildHasher;
use std::io::Read;
use std::num::NonZeroUsize;

/// Returns the curve of the lines that a sample keeps, how many lines there are in all, their size, and how many bytes; and the floors
/// of the kept lines if they are asked for. A sample of one key in one keeps all lines.
///
/// Holds only the distinct lines, and with floors two numbers for each line that came before. Each line must have a size, kept or
/// not. The fault of a line is returned once all is read, because it is one of the whole input; refused memory at once.
pub(super) fn curve_by_size<R: Read, S: BuildHasher + Drop, A: Allocator + Copy>(
    alloc: A,
    one_in: NonZeroUsize,
    floored: bool,
    reader: &mut R,
    hash_builder: S,
) -> Result<(SizedCurve<A>, usize, usize, usize, Option<Floors<A>>), Fault>
    ensures curve { IfOk result (λ found. ReadWhole (R.remaining reader.old) (R.remaining reader.new)
        (λ input. IsSizedCurveOfKept (non_zero_usize_get one_in) input (lines_of input) found.0 found.1 found.2 found.3
        × AreFloorsFor floored (kept_of (non_zero_usize_get one_in) (lines_of input)) found.4)) }
    ensures settled { IfOk result (λ found. IsSettled found.0) }
    ensures refused { IfErr result (λ fault. is_of_input fault ≡ true → ReadWhole (R.remaining reader.old) (R.remaining reader.new)
        (λ input. IsOfLines fault (lines_of input) × (fault_from 1 0 (lines_of input) ≡ Some fault))) }
    ensures fault { IfErr result (λ fault. is_of_writing fault ≡ false) }
{
    let mut lines = SizedLines::new(alloc, one_in, floored, hash_builder);
    let (requests, bytes) = read_all(alloc, reader, &mut lines)?;
    let Ok((curve, size, floors)) = lines.into_curve() else {
        return Err(Fault::Memory);
    };
    Ok((curve, requests, size, bytes, floors))
}

/// Hands the lines that a sample keeps to a pass, and to a pass for a floor if it is asked for. Adds up the sizes of all lines.
#[derive(Drop)]
pub(super) struct SizedLines<S: BuildHasher, A: Allocator + Copy> {
    pub(super) one_in: NonZeroUsize,
    pub(super) pass: SizedLinePass<S, A>,
    pub(super) reuses: Option<FloorPass<OwnedKey<A>, A>>,
    pub(super) size: usize,
}

impl<S: BuildHasher, A: Allocator + Copy> SizedLines<S, A> {
    /// No line yet.
    pub(super) fn new(alloc: A, one_in: NonZeroUsize, floored: bool, hash_builder: S) -> Self
        ensures taken { HasTakenOf (is_some result.reuses) (non_zero_usize_get result.one_in) [] result.size result.pass result.reuses }
        ensures floored { is_some result.reuses ≡ floored }
        ensures sample { result.one_in ≡ one_in }
    {
        SizedLines {
            one_in,
            pass: SizedLinePass::new(alloc, hash_builder),
            reuses: floor_pass_for(alloc, floored),
            size: 0,
        }
    }

    /// Returns the curve of the lines that were kept, the size of all, and the floors of the kept ones if they are asked for.
    pub(super) fn into_curve(self) -> Result<(SizedCurve<A>, usize, Option<Floors<A>>), AllocError>
    where
        S: Drop,
        ensures curve { (floored : Bool) (n : ℕ) (lines : List (List ℕ)) → HasTakenOf floored n lines self.size self.pass self.reuses
            → IfOk result (λ found. IsSizedCurveOf bytes_eq weight_of_line (kept_of n lines) found.0
            × AreFloorsFor floored (kept_of n lines) found.2) }
        ensures size { IfOk result (λ found. found.1 ≡ self.size) }
    {
        let floors = floors_of(&self.reuses)?;
        let SizedLines {
            one_in: _,
            pass,
            reuses: _,
            size,
        } = self;
        Ok((pass.into_curve(), size, floors))
    }
}

impl<S: BuildHasher, A: Allocator + Copy> TakesLines<Fault, A> for SizedLines<S, A> {
    // A floor is asked for if its pass was there at first.
    ghost since = { λ start lines now. (now.one_in ≡ start.one_in)
        × HasTakenOf (is_some start.reuses) (non_zero_usize_get now.one_in) lines now.size now.pass now.reuses };

    ghost refused = { λ start lines fault now. HaveFault lines fault };

    fn take_line(
        &mut self,
        line: &OwnedKey<A>,
        number: usize,
        behind: &[u8],
    ) -> Result<Result<(), Fault>, AllocError> {
        let more = match count_line(&line.0, number, self.size) {
            Ok(more) => more,
            Err(fault) => return Ok(Err(fault)),
        };
        let weight = more - self.size - 1;
        take_kept(
            self.one_in,
            &mut self.pass,
            &mut self.reuses,
            line,
            weight,
            behind,
        )?;
        self.size = more;
        Ok(Ok(()))
    }
}

/// Returns the size of all lines with one more, of this number.
pub(crate) fn count_line(line: &[u8], number: usize, size: usize) -> Result<usize, Fault>
    ensures sum { IfOk result (λ more. more ≡ size + (1 + weight_of_line line.now)) }
    ensures sized { OnOk result (IsSome (size_of_line line.now)) }
    ensures refused { (lines rest : List (List ℕ)) → HaveSizes lines → size ≡ size_of_lines lines → number ≡ length lines + 1
        → IfErr result (λ fault. IsOfLines fault (lines ++ line.now ∷ rest)) }
    ensures next { (rest : List (List ℕ)) → IfOk result (λ more.
        fault_from number size (line.now ∷ rest) ≡ fault_from (number + 1) more rest) }
    ensures fault { (rest : List (List ℕ)) → IfErr result (λ fault. fault_from number size (line.now ∷ rest) ≡ Some fault) }
{
    let own = match size_of(line) {
        Some(own) => own,
        None => return Err(Fault::NoSize(number)),
    };
    match size.checked_add(own.get()) {
        Some(more) => Ok(more),
        None => Err(Fault::TooLarge),
    }
}

// Takes one more line of this weight if the sample keeps it. The sizes of the kept lines are too large only where those of all are,
// and then the line was refused before.
fn take_kept<S: BuildHasher, A: Allocator + Copy>(
    one_in: NonZeroUsize,
    pass: &mut SizedLinePass<S, A>,
    reuses: &mut Option<FloorPass<OwnedKey<A>, A>>,
    key: &OwnedKey<A>,
    weight: usize,
    behind: &[u8],
) -> Result<(), AllocError>
    requires sized { IsSome (size_of_line (line_of key.now)) }
    requires weight { weight ≡ weight_of_line (line_of key.now) }
    requires taken { (floored : Bool) × (lines : List (List ℕ)) × HasTaken floored lines pass.old reuses.old }
    ensures { (floored : Bool) (lines : List (List ℕ))
        → HasTaken floored (kept_of (non_zero_usize_get one_in) lines) pass.old reuses.old → OnOk result
        (HasTaken floored (kept_of (non_zero_usize_get one_in) (lines ++ line_of key.now ∷ [])) pass.new reuses.new) }
{
    if !is_kept(&key.0, one_in) {
        return Ok(());
    }
    let Ok(latest) = pass.take(key, weight, lines_ahead(one_in, behind)) else {
        return Err(AllocError);
    };
    note_reuse(reuses, latest, weight)
}
