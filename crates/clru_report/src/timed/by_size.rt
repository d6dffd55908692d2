//! The report by size of an input whose lines begin with times and sizes.
ghost use Rattle.std.specs.Prelude.{◌≡◌, None, true, false, ◌&&◌, nat_lt, IfErr, IfOk, string_bytes};
ghost use Rattle.std.specs.Int.NonZero.{non_zero_usize_get};
ghost use Rattle.std.specs.List.{list_any};
ghost use Rattle.clru_text.specs.Choices.{is_summary, is_whole};
ghost use Rattle.clru_text.specs.Faults.{is_of_input, is_of_writing};
ghost use Rattle.clru_text.specs.Lines.{lines_of};
ghost use Rattle.clru_text.specs.Times.{rests_of};
ghost use Rattle.clru_text.specs.Whole.{ReadWhole};
ghost use Rattle.clru_report.specs.Refusals.{IsRefusedBy, names_below as names_below_by};
ghost use Rattle.clru_report.specs.SizedTimed.{IsTimedReportBySize, IsTimedReportBySizeIn, size_by};

use super::sized_aged::sized_aged_report;
use super::sized_pass::curve_of_sized_times;
use super::{all_of, idle_of, kept_in, part_in};
use crate::sized::{Totals, first_capacity, text_of_sized_sample};
use clru_text::{Capacities, Fault, Options, Sample, Times, times};
use std::alloc::Allocator;
use std::hash::BuildHasher;
use std::io::Read;
use std::num::NonZeroUsize;

/// Returns the report of all that a reader gives, by size, under these limits.
pub(crate) fn make_sized_timed_report<R: Read, S: BuildHasher + Drop, A: Allocator + Copy>(
    alloc: A,
    options: &Options<A>,
    limits: Times,
    reader: &mut R,
    hash_builder: S,
) -> Result<String<A>, Fault>
    requires { is_summary options.now.form ≡ false }
    ensures report { IfOk result (λ text. ReadWhole (R.remaining reader.old) (R.remaining reader.new)
        (λ input. IsTimedReportBySize limits options.now (lines_of input) (string_bytes text))) }
    ensures refused { IfErr result (λ fault. is_of_input fault ≡ true → ReadWhole (R.remaining reader.old) (R.remaining reader.new)
        (λ input. IsRefusedBy options.now.sample fault options.now (rests_of (lines_of input)))) }
    ensures fault { IfErr result (λ fault. is_of_writing fault ≡ false) }
{
    match limits.max_age {
        None => sized_idle_report(alloc, options, limits, reader, hash_builder),
        Some(age) => sized_aged_report(alloc, options, limits, age, reader, hash_builder),
    }
}

// Where there is no age limit.
fn sized_idle_report<R: Read, S: BuildHasher + Drop, A: Allocator + Copy>(
    alloc: A,
    options: &Options<A>,
    limits: Times,
    reader: &mut R,
    hash_builder: S,
) -> Result<String<A>, Fault>
    requires { is_summary options.now.form ≡ false }
    ensures report { IfOk result (λ text. ReadWhole (R.remaining reader.old) (R.remaining reader.new)
        (λ input. IsTimedReportBySizeIn None limits options.now (lines_of input) (string_bytes text))) }
    ensures refused { IfErr result (λ fault. is_of_input fault ≡ true → ReadWhole (R.remaining reader.old) (R.remaining reader.new)
        (λ input. IsRefusedBy options.now.sample fault options.now (rests_of (lines_of input)))) }
    ensures fault { IfErr result (λ fault. is_of_writing fault ≡ false) }
{
    let kept = kept_in(options.sample);
    let idle = idle_of(limits);
    let (curve, read, size, distinct, bytes) = curve_of_sized_times(
        alloc,
        kept,
        idle,
        reader,
        hash_builder,
    )?;
    let first = first_capacity(&curve);
    if names_too_small(options, first) {
        return Err(Fault::TooSmall(first));
    }
    let totals = Totals {
        one_in: part_in(options.sample),
        requests: all_of(options.sample, read),
        size: size_of_all(options.sample, size),
    };
    match text_of_sized_sample(alloc, options, &curve, &None, totals, distinct, bytes) {
        Ok(text) => Ok(text),
        Err(_) => Err(Fault::Memory),
    }
}

/// Returns the size of all requests, where that of those that are read is this.
pub(super) fn size_of_all(sample: Sample, read: usize) -> usize
    ensures { result ≡ size_by sample read }
{
    match sample {
        Sample::Whole | Sample::OneIn(_) => read,
        Sample::Taken(one_in, _) => times(one_in, usize::MAX, read),
    }
}

/// Returns whether a capacity is named that is below the greatest size of a whole log. Of a sample such ones have no row.
pub(super) fn names_too_small<A: Allocator>(options: &Options<A>, first: usize) -> bool
    ensures { result ≡ (is_whole options.now.sample && names_below_by options.now.capacities first) }
{
    match options.sample {
        Sample::Whole => names_below(&options.capacities, first),
        Sample::OneIn(_) | Sample::Taken(_, _) => false,
    }
}

fn names_below<A: Allocator>(capacities: &Capacities<A>, first: usize) -> bool
    ensures { result ≡ names_below_by capacities.now first }
{
    match capacities {
        Capacities::Named(named) => is_any_below(named, first),
        Capacities::Usual
        | Capacities::Each
        | Capacities::HitRatio(_)
        | Capacities::ByteHitRatio(_) => false,
    }
}

fn is_any_below(named: &[NonZeroUsize], first: usize) -> bool
    ensures { result ≡ list_any (λ c. nat_lt (non_zero_usize_get c) first) named.now }
{
    named.iter().any(|capacity| capacity.get() < first)
}
