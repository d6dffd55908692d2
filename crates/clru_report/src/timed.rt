//! The report of an input whose lines begin with times, where entries may expire.
ghost use Rattle.std.specs.Prelude.{◌≡◌, ◌<◌, ◌^◌, ◌-◌, ℕ, None, true, false, length, IfErr, IfOk, string_bytes};
ghost use Rattle.std.specs.Int.NonZero.{non_zero_usize_get};
ghost use Rattle.clru_text.specs.Faults.{is_of_input, is_of_writing};
ghost use Rattle.clru_text.specs.Lines.{lines_of};
ghost use Rattle.clru_text.specs.Samples.{times as times_of};
ghost use Rattle.clru_text.specs.Times.{idle_limit};
ghost use Rattle.clru_text.specs.Whole.{ReadWhole};
ghost use Rattle.clru_report.specs.Passes.{HasMisses};
ghost use Rattle.clru_report.specs.Timed.{all_by, IsInFormOn, IsTimedReport, IsTimedReportIn, IsUntimed, kept_in as kept_by, part_in as part_by};

mod aged;
mod by_size;
mod line_pass;
mod lines;
mod pass;
mod sized_aged;
mod sized_pass;

use crate::rows::{rows_for, usual_table};
use crate::sample::{knees_times, rows_times};
use crate::text::{Counts, text_by_keys};
use aged::aged_report;
pub(crate) use by_size::make_sized_timed_report;
use clru_curve::MissCurve;
use clru_text::{Fault, Options, Sample, Times, times};
use pass::curve_of_times;
use std::alloc::{AllocError, Allocator};
use std::hash::BuildHasher;
use std::io::Read;
use std::num::NonZeroUsize;

/// Returns the report of all that a reader gives, by keys, under these limits.
pub(crate) fn make_timed_report<R: Read, S: BuildHasher + Drop, A: Allocator + Copy>(
    alloc: A,
    options: &Options<A>,
    limits: Times,
    reader: &mut R,
    hash_builder: S,
) -> Result<String<A>, Fault>
    ensures report { IfOk result (λ text. ReadWhole (R.remaining reader.old) (R.remaining reader.new)
        (λ input. IsTimedReport limits options.now input (lines_of input) (string_bytes text))) }
    ensures refused { IfErr result (λ fault. is_of_input fault ≡ true → ReadWhole (R.remaining reader.old) (R.remaining reader.new)
        (λ input. IsUntimed fault (lines_of input))) }
    ensures fault { IfErr result (λ fault. is_of_writing fault ≡ false) }
{
    match limits.max_age {
        None => idle_report(alloc, options, limits, reader, hash_builder),
        Some(age) => aged_report(alloc, options, limits, age, reader, hash_builder),
    }
}

// Where there is no age limit.
fn idle_report<R: Read, S: BuildHasher + Drop, A: Allocator + Copy>(
    alloc: A,
    options: &Options<A>,
    limits: Times,
    reader: &mut R,
    hash_builder: S,
) -> Result<String<A>, Fault>
    ensures report { IfOk result (λ text. ReadWhole (R.remaining reader.old) (R.remaining reader.new)
        (λ input. IsTimedReportIn None limits options.now input (lines_of input) (string_bytes text))) }
    ensures refused { IfErr result (λ fault. is_of_input fault ≡ true → ReadWhole (R.remaining reader.old) (R.remaining reader.new)
        (λ input. IsUntimed fault (lines_of input))) }
    ensures fault { IfErr result (λ fault. is_of_writing fault ≡ false) }
{
    let kept = kept_in(options.sample);
    let part = part_in(options.sample);
    let (curve, read, bytes) = curve_of_times(alloc, kept, idle_of(limits), reader, hash_builder)?;
    let counts = Counts {
        one_in: part,
        requests: all_of(options.sample, read),
        distinct: times(part, usize::MAX, curve.distinct()),
        bytes,
    };
    match text_of_curve(alloc, options, &curve, counts) {
        Ok(text) => Ok(text),
        Err(_) => Err(Fault::Memory),
    }
}

// The idle limit, or the greatest time there is.
fn idle_of(limits: Times) -> usize
    ensures { result ≡ idle_limit limits }
{
    limits.max_idle.unwrap_or(usize::MAX)
}

// One key in how many is kept of those that are read.
fn kept_in(sample: Sample) -> NonZeroUsize
    ensures { non_zero_usize_get result ≡ kept_by sample }
{
    match sample {
        Sample::Whole | Sample::Taken(_, _) => NonZeroUsize::MIN,
        Sample::OneIn(one_in) => one_in,
    }
}

// One key in how many of all these are.
fn part_in(sample: Sample) -> NonZeroUsize
    ensures { non_zero_usize_get result ≡ part_by sample }
{
    match sample {
        Sample::Whole => NonZeroUsize::MIN,
        Sample::OneIn(one_in) | Sample::Taken(one_in, _) => one_in,
    }
}

fn all_of(sample: Sample, read: usize) -> usize
    ensures { result ≡ all_by sample read }
{
    match sample {
        Sample::Whole | Sample::OneIn(_) => read,
        Sample::Taken(_, all) => all,
    }
}

// The text in the form that is asked for, of a curve of kept requests.
fn text_of_curve<A: Allocator + Copy>(
    alloc: A,
    options: &Options<A>,
    curve: &MissCurve<A>,
    counts: Counts,
) -> Result<String<A>, AllocError>
    ensures { (m : ℕ → ℕ) (keys : ℕ) → HasMisses m curve.now → length curve.now ≡ keys
        → counts.distinct ≡ times_of (non_zero_usize_get counts.one_in) (2 ^ 64 - 1) keys
        → IfOk result (λ text. IsInFormOn options.now m keys (non_zero_usize_get counts.one_in) counts.requests options.now.form
        counts.bytes (string_bytes text)) }
{
    let part = counts.requests / counts.one_in.get();
    let table = usual_table(alloc, curve, part)?;
    let rows = rows_for(alloc, options, curve, part, &table.capacities)?;
    let shown = rows_times(alloc, &rows, counts.one_in, counts.requests)?;
    let knees = knees_times(alloc, &table.knees, counts.one_in)?;
    text_by_keys(
        alloc,
        options,
        curve.as_slice(),
        &None,
        &shown,
        &knees,
        false,
        counts,
    )
}
