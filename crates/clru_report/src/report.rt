//! The text of the report, taken whole before any of it is written.
ghost use Rattle.std.specs.Prelude.{◌≡◌, ℕ, List, true, false, IfErr, IfOk, string_bytes};
ghost use Rattle.std.specs.Int.NonZero.{non_zero_usize_get};
ghost use Rattle.std.specs.Option.{option_map};
ghost use Rattle.clru_text.specs.Choices.{is_summary};
ghost use Rattle.clru_text.specs.Faults.{is_of_input, is_of_writing};
ghost use Rattle.clru_text.specs.Lines.{lines_of};
ghost use Rattle.clru_text.specs.Whole.{ReadWhole};
ghost use Rattle.clru_report.specs.Passes.{IsCurveOfKept, IsFloorFor, IsForeseenFor, wants_floor, wants_least};
ghost use Rattle.clru_report.specs.Refusals.{IsRefused, IsRefusedPlain, IsRefusedTimed};
ghost use Rattle.clru_report.specs.Report.{IsInForm, IsReport, IsReportBy, IsReportByKeys, IsReportByKeysFrom, IsReportTimed};

use crate::after::report_after;
use crate::pass::curve_by_keys;
use crate::rows::{rows_of_all, usual_table};
use crate::sample::text_of_sample;
use crate::sized::make_sized_report;
use crate::text::{Counts, text_by_keys};
use crate::timed::{make_sized_timed_report, make_timed_report};
use clru_curve::MissCurve;
use clru_least::{Floor, ForesightPass};
use clru_text::{Fault, Form, Options, OwnedKey, ReadError, Sample, Times, read_fault};
use std::alloc::{AllocError, Allocator};
use std::hash::BuildHasher;
use std::io::Read;
use std::num::NonZeroUsize;

/// Returns the report of all that a reader gives. Lines are hashed with `hash_builder`: the report is the same under each that is
/// lawful.
pub fn make_report<R: Read, S: BuildHasher + Copy, A: Allocator + Copy>(
    alloc: A,
    options: &Options<A>,
    reader: &mut R,
    hash_builder: S,
) -> Result<String<A>, Fault>
    ensures report { IfOk result (λ text. ReadWhole (R.remaining reader.old) (R.remaining reader.new)
        (λ input. IsReport options.now input (string_bytes text))) }
    ensures refused { IfErr result (λ fault. is_of_input fault ≡ true
        → ReadWhole (R.remaining reader.old) (R.remaining reader.new) (λ input. IsRefused fault options.now input)) }
    ensures fault { IfErr result (λ fault. is_of_writing fault ≡ false) }
{
    match options.times {
        None => report_without_times(alloc, options, reader, hash_builder),
        Some(limits) => report_with_times(alloc, options, limits, reader, hash_builder),
    }
}

// Of lines that begin with no times.
fn report_without_times<R: Read, S: BuildHasher + Copy, A: Allocator + Copy>(
    alloc: A,
    options: &Options<A>,
    reader: &mut R,
    hash_builder: S,
) -> Result<String<A>, Fault>
    ensures report { IfOk result (λ text. ReadWhole (R.remaining reader.old) (R.remaining reader.new)
        (λ input. IsReportBy options.now.sizes options.now input (string_bytes text))) }
    ensures refused { IfErr result (λ fault. is_of_input fault ≡ true
        → ReadWhole (R.remaining reader.old) (R.remaining reader.new) (λ input. IsRefusedPlain fault options.now input)) }
    ensures fault { IfErr result (λ fault. is_of_writing fault ≡ false) }
{
    if options.sizes {
        return make_sized_report(alloc, options, reader, hash_builder);
    }
    match report_by_keys(alloc, options, reader, hash_builder) {
        Ok(text) => Ok(text),
        Err(error) => Err(read_fault(error)),
    }
}

// Of lines that begin with times.
fn report_with_times<R: Read, S: BuildHasher + Copy, A: Allocator + Copy>(
    alloc: A,
    options: &Options<A>,
    limits: Times,
    reader: &mut R,
    hash_builder: S,
) -> Result<String<A>, Fault>
    requires { is_summary options.now.form ≡ false }
    ensures report { IfOk result (λ text. ReadWhole (R.remaining reader.old) (R.remaining reader.new)
        (λ input. IsReportTimed options.now.sizes limits options.now input (string_bytes text))) }
    ensures refused { IfErr result (λ fault. is_of_input fault ≡ true
        → ReadWhole (R.remaining reader.old) (R.remaining reader.new)
        (λ input. IsRefusedTimed options.now.sizes fault options.now input)) }
    ensures fault { IfErr result (λ fault. is_of_writing fault ≡ false) }
{
    if !options.sizes {
        return make_timed_report(alloc, options, limits, reader, hash_builder);
    }
    make_sized_timed_report(alloc, options, limits, reader, hash_builder)
}

// By keys.
fn report_by_keys<R: Read, S: BuildHasher + Drop, A: Allocator + Copy>(
    alloc: A,
    options: &Options<A>,
    reader: &mut R,
    hash_builder: S,
) -> Result<String<A>, ReadError>
    ensures { IfOk result (λ text. ReadWhole (R.remaining reader.old) (R.remaining reader.new)
        (λ input. IsReportByKeysFrom (option_map non_zero_usize_get options.now.after) options.now input (string_bytes text))) }
{
    if let Some(after) = options.after {
        return report_after(alloc, options, after, reader, hash_builder);
    }
    match options.sample {
        Sample::Whole => report_of_all(alloc, options, reader, hash_builder),
        Sample::OneIn(one_in) => report_of_sample(alloc, options, one_in, reader, hash_builder),
        Sample::Taken(one_in, requests) => {
            report_of_sampled(alloc, options, one_in, requests, reader, hash_builder)
        }
    }
}

// Of all requests.
fn report_of_all<R: Read, S: BuildHasher + Drop, A: Allocator + Copy>(
    alloc: A,
    options: &Options<A>,
    reader: &mut R,
    hash_builder: S,
) -> Result<String<A>, ReadError>
    ensures { IfOk result (λ text. ReadWhole (R.remaining reader.old) (R.remaining reader.new)
        (λ input. IsInForm options.now.form options.now input (string_bytes text))) }
{
    let one_in = NonZeroUsize::MIN;
    let least = asks_for_least(options);
    let floored = asks_for_floor(options);
    let (curve, foresight, floor, requests, bytes) = curve_by_keys(
        alloc,
        one_in,
        least,
        floored,
        reader,
        hash_builder,
    )?;
    match text_of_all(alloc, options, &curve, &foresight, &floor, requests, bytes) {
        Ok(text) => Ok(text),
        Err(_) => Err(ReadError::Memory),
    }
}

/// The report of all lines of a log from their curve, and from a foresight and a floor if it asks for them.
pub(crate) fn text_of_all<A: Allocator + Copy>(
    alloc: A,
    options: &Options<A>,
    curve: &MissCurve<A>,
    foresight: &Option<ForesightPass<OwnedKey<A>, A>>,
    floor: &Option<Floor<A>>,
    requests: usize,
    bytes: usize,
) -> Result<String<A>, AllocError>
    ensures { (log : List ℕ) → IsCurveOfKept 1 log curve.now requests bytes
        → IsForeseenFor A (wants_least options.now) (lines_of log) foresight.now → IsFloorFor (wants_floor options.now) (lines_of log) floor.now
        → IfOk result (λ text. IsInForm options.now.form options.now log (string_bytes text)) }
{
    let table = usual_table(alloc, curve, requests)?;
    let rows = rows_of_all(
        alloc,
        options,
        curve,
        requests,
        &table.capacities,
        foresight,
        floor,
    )?;
    let counts = Counts {
        one_in: NonZeroUsize::MIN,
        requests,
        distinct: curve.distinct(),
        bytes,
    };
    text_by_keys(
        alloc,
        options,
        curve.as_slice(),
        floor,
        &rows,
        &table.knees,
        options.least,
        counts,
    )
}

pub(crate) fn asks_for_least<A: Allocator>(options: &Options<A>) -> bool
    ensures { result ≡ wants_least options.now }
{
    match options.form {
        Form::Table | Form::Json | Form::Picture => options.least,
        Form::Summary => false,
    }
}

pub(crate) fn asks_for_floor<A: Allocator>(options: &Options<A>) -> bool
    ensures { result ≡ wants_floor options.now }
{
    match options.form {
        Form::Table | Form::Json | Form::Picture => options.floor,
        Form::Summary => false,
    }
}

// Of one key in so many the lines are held, and all lines are counted.
fn report_of_sample<R: Read, S: BuildHasher + Drop, A: Allocator + Copy>(
    alloc: A,
    options: &Options<A>,
    one_in: NonZeroUsize,
    reader: &mut R,
    hash_builder: S,
) -> Result<String<A>, ReadError>
    ensures { IfOk result (λ text. ReadWhole (R.remaining reader.old) (R.remaining reader.new)
        (λ input. IsReportByKeys (Sample.OneIn one_in) options.now input (string_bytes text))) }
{
    let floored = asks_for_floor(options);
    let (curve, _, floor, requests, bytes) = curve_by_keys(
        alloc,
        one_in,
        false,
        floored,
        reader,
        hash_builder,
    )?;
    match text_of_sample(alloc, options, &curve, &floor, one_in, requests, bytes) {
        Ok(text) => Ok(text),
        Err(_) => Err(ReadError::Memory),
    }
}

// All lines are of one key in so many, and there were so many requests.
fn report_of_sampled<R: Read, S: BuildHasher + Drop, A: Allocator + Copy>(
    alloc: A,
    options: &Options<A>,
    one_in: NonZeroUsize,
    requests: usize,
    reader: &mut R,
    hash_builder: S,
) -> Result<String<A>, ReadError>
    ensures { IfOk result (λ text. ReadWhole (R.remaining reader.old) (R.remaining reader.new)
        (λ input. IsReportByKeys (Sample.Taken one_in requests) options.now input (string_bytes text))) }
{
    let all = NonZeroUsize::MIN;
    let floored = asks_for_floor(options);
    let (curve, _, floor, _, bytes) = curve_by_keys(
        alloc,
        all,
        false,
        floored,
        reader,
        hash_builder,
    )?;
    match text_of_sample(alloc, options, &curve, &floor, one_in, requests, bytes) {
        Ok(text) => Ok(text),
        Err(_) => Err(ReadError::Memory),
    }
}
