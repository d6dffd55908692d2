//! The report by size of the requests behind the first ones, which fill the cache and are not counted.
ghost use Rattle.std.specs.Prelude.{◌≡◌, ℕ, ◌+◌, List, None, Some, true, false, nat_lt, length, is_some, IfOk, IfErr, IfSome, OnOk, string_bytes};
ghost use Rattle.std.specs.Int.NonZero.{non_zero_usize_get};
ghost use Rattle.std.specs.Str.{bytes_eq};
ghost use Rattle.clru_curve.specs.SizedCurves.{IsSizedCurveOf};
ghost use Rattle.clru_text.specs.Choices.{is_summary};
ghost use Rattle.clru_text.specs.Faults.{is_of_input, is_of_writing};
ghost use Rattle.clru_text.specs.Lines.{lines_of};
ghost use Rattle.clru_text.specs.Sizes.{weight_of_line};
ghost use Rattle.clru_text.specs.Whole.{ReadWhole};
ghost use Rattle.clru_report.specs.After.{counted};
ghost use Rattle.clru_report.specs.Passes.{IsOfLines, IsSettled};
ghost use Rattle.clru_report.specs.Refusals.{fault_from, fault_of, IsRefusedFor, names_below};
ghost use Rattle.clru_report.specs.SizedAfter.{AreSizedCounted, counted_size, IsReportBySizeAfter, IsSizedPictureAfter, IsSizedTableAfter};
ghost use Rattle.clru_report.specs.SizedAfterPasses.{AreSizedCurvesAround, IsCountedOf, IsSizedHead, IsTooSmall, StaysBetween};
ghost use Rattle.clru_report.specs.SizedLinePasses.{HasTakenOf};
ghost use Rattle.clru_report.specs.SizedLines.{HaveFault};

use super::behind::{capacities_behind, sized_rows_behind, usual_table_behind};
use super::pass::SizedLines;
use super::rows::{SizedRow, sized_rows_at, sized_rows_for};
use super::sample::Totals;
use super::table::sized_table_of;
use crate::picture::picture_behind;
use crate::reading::read_all;
use clru_curve::SizedCurve;
use clru_text::{Capacities, Fault, Form, Options, OwnedKey, TakesLines};
use std::alloc::{AllocError, Allocator};
use std::hash::BuildHasher;
use std::io::Read;
use std::num::NonZeroUsize;

/// Returns the report of the requests behind the first `after`.
pub(super) fn sized_report_after<R: Read, S: BuildHasher + Drop, A: Allocator + Copy>(
    alloc: A,
    options: &Options<A>,
    after: NonZeroUsize,
    reader: &mut R,
    hash_builder: S,
) -> Result<String<A>, Fault>
    requires { is_summary options.now.form ≡ false }
    ensures report { IfOk result (λ text. ReadWhole (R.remaining reader.old) (R.remaining reader.new)
        (λ input. IsReportBySizeAfter (non_zero_usize_get after) options.now (lines_of input) (string_bytes text))) }
    ensures refused { IfErr result (λ fault. is_of_input fault ≡ true → ReadWhole (R.remaining reader.old) (R.remaining reader.new)
        (λ input. IsRefusedFor fault options.now (lines_of input))) }
    ensures fault { IfErr result (λ fault. is_of_writing fault ≡ false) }
{
    let (curve, head) = sized_curves_around(alloc, after, reader, hash_builder)?;
    match options.form {
        Form::Table => sized_table_after(alloc, options, &curve, &head, false),
        Form::Json => sized_table_after(alloc, options, &curve, &head, true),
        Form::Picture => sized_picture_after(alloc, options, &curve, &head),
        Form::Summary => unreachable!(),
    }
}

// Returns the curve of all lines, and that of the first ones if others follow.
fn sized_curves_around<R: Read, S: BuildHasher + Drop, A: Allocator + Copy>(
    alloc: A,
    after: NonZeroUsize,
    reader: &mut R,
    hash_builder: S,
) -> Result<(SizedCurve<A>, Option<SizedCurve<A>>), Fault>
    ensures curves { IfOk result (λ found. ReadWhole (R.remaining reader.old) (R.remaining reader.new)
        (λ input. AreSizedCurvesAround (non_zero_usize_get after) input found.0 found.1)) }
    ensures settled { IfOk result (λ found. IsSettled found.0) }
    ensures stays { IfOk result (λ found. IfSome found.1 (StaysBetween found.0)) }
    ensures refused { IfErr result (λ fault. is_of_input fault ≡ true → ReadWhole (R.remaining reader.old) (R.remaining reader.new)
        (λ input. IsOfLines fault (lines_of input) × (fault_from 1 0 (lines_of input) ≡ Some fault))) }
    ensures fault { IfErr result (λ fault. is_of_writing fault ≡ false) }
{
    let mut around = SizedAround {
        alloc,
        after,
        lines: SizedLines::new(alloc, NonZeroUsize::MIN, false, hash_builder),
        head: None,
    };
    read_all(alloc, reader, &mut around)?;
    let SizedAround {
        alloc: _,
        after: _,
        lines,
        head,
    } = around;
    match lines.into_curve() {
        Ok((curve, _, _)) => Ok((curve, head)),
        Err(_) => Err(Fault::Memory),
    }
}

/// Takes all lines, and keeps the curve of the first ones if others follow.
#[derive(Drop)]
struct SizedAround<S: BuildHasher, A: Allocator + Copy> {
    alloc: A,
    after: NonZeroUsize,
    lines: SizedLines<S, A>,
    head: Option<SizedCurve<A>>,
}

impl<S: BuildHasher, A: Allocator + Copy> TakesLines<Fault, A> for SizedAround<S, A> {
    ghost since = { λ start lines now. (now.after ≡ start.after) × (now.lines.one_in ≡ start.lines.one_in)
        × (non_zero_usize_get now.lines.one_in ≡ 1) × IsSizedHead (non_zero_usize_get now.after) lines now.head
        × HasTakenOf (is_some start.lines.reuses) (non_zero_usize_get now.lines.one_in) lines now.lines.size now.lines.pass now.lines.reuses };

    ghost refused = { λ start lines fault now. HaveFault lines fault };

    fn take_line(
        &mut self,
        line: &OwnedKey<A>,
        number: usize,
        behind: &[u8],
    ) -> Result<Result<(), Fault>, AllocError> {
        if number - 1 == self.after.get() {
            let Ok(curve) = self.lines.pass.curve(self.alloc) else {
                return Err(AllocError);
            };
            self.head = Some(curve);
        }
        self.lines.take_line(line, number, behind)
    }
}

// How many requests are counted, and their size.
fn totals_behind<A: Allocator>(curve: &SizedCurve<A>, head: &Option<SizedCurve<A>>) -> Totals
    ensures { (n : ℕ) (lines : List (List ℕ)) → IsSizedCurveOf bytes_eq weight_of_line lines curve.now → IsSizedHead n lines head.now
        → (result.requests ≡ counted n lines) × (result.size ≡ counted_size n lines) }
{
    let one_in = NonZeroUsize::MIN;
    match head {
        None => Totals {
            one_in,
            requests: 0,
            size: 0,
        },
        Some(head) => Totals {
            one_in,
            requests: curve.requests().saturating_sub(head.requests()),
            size: curve.size().saturating_sub(head.size()),
        },
    }
}

// The table, in JSON or as CSV.
fn sized_table_after<A: Allocator + Copy>(
    alloc: A,
    options: &Options<A>,
    curve: &SizedCurve<A>,
    head: &Option<SizedCurve<A>>,
    json: bool,
) -> Result<String<A>, Fault>
    requires settled { IsSettled curve.now }
    requires stays { IfSome head.now (StaysBetween curve.now) }
    requires rows { is_summary options.now.form ≡ false }
    ensures table { (n : ℕ) (input : List ℕ) → AreSizedCurvesAround n input curve.now head.now
        → IfOk result (λ text. (fault_of options.now (lines_of input) ≡ None)
        × IsSizedTableAfter n (lines_of input) json options.now (string_bytes text)) }
    ensures refused { (n : ℕ) (input : List ℕ) → AreSizedCurvesAround n input curve.now head.now
        → IfErr result (λ fault. is_of_input fault ≡ true → IsRefusedFor fault options.now (lines_of input)) }
    ensures fault { IfErr result (λ fault. is_of_writing fault ≡ false) }
{
    let totals = totals_behind(curve, head);
    let counted = match sized_counted(alloc, options, curve, head, totals) {
        Ok(counted) => counted,
        Err(fault) => return Err(fault),
    };
    match sized_table_of(
        alloc,
        &counted.rows,
        &counted.knees,
        totals.requests,
        totals.size,
        options.floor,
        json,
    ) {
        Ok(text) => Ok(text),
        Err(_) => Err(Fault::Memory),
    }
}

// The picture, with its table.
fn sized_picture_after<A: Allocator + Copy>(
    alloc: A,
    options: &Options<A>,
    curve: &SizedCurve<A>,
    head: &Option<SizedCurve<A>>,
) -> Result<String<A>, Fault>
    requires settled { IsSettled curve.now }
    requires stays { IfSome head.now (StaysBetween curve.now) }
    requires rows { is_summary options.now.form ≡ false }
    ensures picture { (n : ℕ) (input : List ℕ) → AreSizedCurvesAround n input curve.now head.now
        → IfOk result (λ text. (fault_of options.now (lines_of input) ≡ None)
        × IsSizedPictureAfter n (lines_of input) options.now (string_bytes text)) }
    ensures refused { (n : ℕ) (input : List ℕ) → AreSizedCurvesAround n input curve.now head.now
        → IfErr result (λ fault. is_of_input fault ≡ true → IsRefusedFor fault options.now (lines_of input)) }
    ensures fault { IfErr result (λ fault. is_of_writing fault ≡ false) }
{
    let table = match sized_table_after(alloc, options, curve, head, false) {
        Ok(table) => table,
        Err(fault) => return Err(fault),
    };
    let totals = totals_behind(curve, head);
    let Ok(asked) = asked_behind(alloc, &options.capacities, curve, head, totals) else {
        return Err(Fault::Memory);
    };
    match picture_behind(alloc, curve, head, totals, options, &asked, &table) {
        Ok(text) => Ok(text),
        Err(_) => Err(Fault::Memory),
    }
}

// The capacities that a picture marks: those that are named, or the one with a hit ratio.
fn asked_behind<A: Allocator + Copy>(
    alloc: A,
    capacities: &Capacities<A>,
    curve: &SizedCurve<A>,
    head: &Option<SizedCurve<A>>,
    totals: Totals,
) -> Result<Vec<NonZeroUsize, A>, AllocError>
    requires settled { IsSettled curve.now }
    requires stays { IfSome head.now (StaysBetween curve.now) }
{
    match (capacities, head) {
        (Capacities::Usual | Capacities::Each, _) | (_, None) => Ok(Vec::new(alloc)),
        (_, Some(head)) => capacities_behind(alloc, capacities, curve, head, totals, &[]),
    }
}

// The rows of the counted requests, and the knees of their usual table.
#[derive(Drop)]
struct SizedCounted<A: Allocator> {
    rows: Vec<SizedRow, A>,
    knees: Vec<usize, A>,
}

// What is counted. A capacity that is too small is refused also if no requests are.
fn sized_counted<A: Allocator + Copy>(
    alloc: A,
    options: &Options<A>,
    curve: &SizedCurve<A>,
    head: &Option<SizedCurve<A>>,
    totals: Totals,
) -> Result<SizedCounted<A>, Fault>
    requires settled { IsSettled curve.now }
    requires stays { IfSome head.now (StaysBetween curve.now) }
    ensures counted { (n : ℕ) (lines : List (List ℕ)) → IsSizedCurveOf bytes_eq weight_of_line lines curve.now
        → IsSizedHead n lines head.now → totals.requests ≡ counted n lines → totals.size ≡ counted_size n lines
        → IfOk result (λ found. AreSizedCounted n lines (nat_lt n (length lines)) options.now found.knees.items found.rows.items) }
    ensures free { OnOk result (names_below options.now.capacities (1 + curve.now.greatest_weight) ≡ false) }
    ensures refused { IfErr result (λ fault. is_of_input fault ≡ true → IsTooSmall curve.now fault options.now.capacities) }
    ensures fault { IfErr result (λ fault. is_of_writing fault ≡ false) }
{
    match head {
        Some(head) => sized_counted_behind(alloc, options, curve, head, totals),
        None => {
            match sized_rows_for(alloc, curve, &None, &options.capacities, &[]) {
                Ok(_) => {}
                Err(fault) => return Err(fault),
            }
            Ok(SizedCounted {
                rows: Vec::new(alloc),
                knees: Vec::new(alloc),
            })
        }
    }
}

fn sized_counted_behind<A: Allocator + Copy>(
    alloc: A,
    options: &Options<A>,
    curve: &SizedCurve<A>,
    head: &SizedCurve<A>,
    totals: Totals,
) -> Result<SizedCounted<A>, Fault>
    requires settled { IsSettled curve.now }
    requires stays { StaysBetween curve.now head.now }
    ensures counted { IfOk result (λ found. IsCountedOf curve.now head.now totals.requests totals.size options.now.capacities found.knees.items found.rows.items) }
    ensures free { OnOk result (names_below options.now.capacities (1 + curve.now.greatest_weight) ≡ false) }
    ensures refused { IfErr result (λ fault. is_of_input fault ≡ true → IsTooSmall curve.now fault options.now.capacities) }
    ensures fault { IfErr result (λ fault. is_of_writing fault ≡ false) }
{
    let Ok(table) = usual_table_behind(alloc, curve, head, totals.size) else {
        return Err(Fault::Memory);
    };
    let Ok(capacities) = capacities_behind(
        alloc,
        &options.capacities,
        curve,
        head,
        totals,
        &table.capacities,
    ) else {
        return Err(Fault::Memory);
    };
    let whole = match sized_rows_at(alloc, curve, &None, &capacities) {
        Ok(rows) => rows,
        Err(fault) => return Err(fault),
    };
    let Ok(rows) = sized_rows_behind(alloc, head, &whole) else {
        return Err(Fault::Memory);
    };
    Ok(SizedCounted {
        rows,
        knees: table.knees,
    })
}
