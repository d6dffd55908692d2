//! The table by size under an age limit. Its rows are at the usual capacities, or at those that are named.
ghost use Rattle.std.specs.Prelude.{◌≡◌, ◌+◌, ℕ, List, Option, Some, IfErr, IfOk, true, false, map, string_bytes};
ghost use Rattle.std.specs.Int.NonZero.{non_zero_usize_get};
ghost use Rattle.std.specs.Map.{keys_of};
ghost use Rattle.clru_curve.specs.SizedAgedPasses.{IsSizedAgedPass};
ghost use Rattle.clru_curve.specs.SizedCurves.{greatest_of};
ghost use Rattle.clru_text.specs.Choices.{is_summary};
ghost use Rattle.clru_text.specs.Faults.{is_of_input, is_of_writing};
ghost use Rattle.clru_text.specs.Keys.{same_line};
ghost use Rattle.clru_text.specs.Lines.{lines_of};
ghost use Rattle.clru_text.specs.Times.{rests_of};
ghost use Rattle.clru_text.specs.Whole.{ReadWhole};
ghost use Rattle.clru_text.specs.declared.lines.OwnedKey.{OwnedKey};
ghost use Rattle.clru_report.specs.Capacities.{aged_capacities};
ghost use Rattle.clru_report.specs.Passes.{weight_of_key};
ghost use Rattle.clru_report.specs.PlainRows.{AreNumbersAt};
ghost use Rattle.clru_report.specs.Refusals.{IsRefusedBy};
ghost use Rattle.clru_report.specs.SizedTimed.{ArePlainSizedRows, IsSizedTableAt, IsTimedReportBySizeIn};

use super::aged::{aged_pass_of, capacities_in, is_json, number_at};
use super::by_size::{names_too_small, size_of_all};
use super::lines::{SizedTimedLines, TimedLines};
use super::{all_of, kept_in, part_in};
use crate::reading::read_all;
use crate::sized::{SizedRow, Totals, sized_rows_times, sized_table_of};
use clru_curve::SizedAgedPass;
use clru_text::{Fault, Options, OwnedKey, Times};
use std::alloc::{AllocError, Allocator};
use std::hash::BuildHasher;
use std::io::Read;
use std::num::NonZeroUsize;

/// Returns the report of all that a reader gives, by size, under this age limit.
pub(super) fn sized_aged_report<R: Read, S: BuildHasher + Drop, A: Allocator + Copy>(
    alloc: A,
    options: &Options<A>,
    limits: Times,
    age: usize,
    reader: &mut R,
    hash_builder: S,
) -> Result<String<A>, Fault>
    requires { is_summary options.now.form ≡ false }
    ensures report { IfOk result (λ text. ReadWhole (R.remaining reader.old) (R.remaining reader.new)
        (λ input. IsTimedReportBySizeIn (Some age) limits options.now (lines_of input) (string_bytes text))) }
    ensures refused { IfErr result (λ fault. is_of_input fault ≡ true → ReadWhole (R.remaining reader.old) (R.remaining reader.new)
        (λ input. IsRefusedBy options.now.sample fault options.now (rests_of (lines_of input)))) }
    ensures fault { IfErr result (λ fault. is_of_writing fault ≡ false) }
{
    let Ok(pass) = aged_pass_of(alloc, options, limits, age, hash_builder) else {
        return Err(Fault::Memory);
    };
    let mut sized = SizedTimedLines {
        lines: TimedLines {
            alloc,
            one_in: kept_in(options.sample),
            pass,
            key: OwnedKey(Vec::new(alloc)),
        },
        size: 0,
        distinct: 0,
    };
    let (read, _) = read_all(alloc, reader, &mut sized)?;
    let pass = &sized.lines.pass;
    let first = first_of(pass);
    if names_too_small(options, first) {
        return Err(Fault::TooSmall(first));
    }
    let together = pass.distinct_size();
    let totals = Totals {
        one_in: part_in(options.sample),
        requests: all_of(options.sample, read),
        size: size_of_all(options.sample, sized.size),
    };
    match table_of_sizes(
        alloc,
        options,
        pass.misses(),
        pass.missed_sizes(),
        first,
        together,
        totals,
    ) {
        Ok(text) => Ok(text),
        Err(_) => Err(Fault::Memory),
    }
}

// The greatest size of a request, or 1 without requests.
fn first_of<S: BuildHasher, A: Allocator + Copy>(pass: &SizedAgedPass<OwnedKey<A>, S, A>) -> usize
    ensures { (capacities : List ℕ) (idle : Option ℕ) (age : ℕ) (past : List (OwnedKey A × ℕ))
        → IsSizedAgedPass same_line weight_of_key capacities idle age past pass.now
        → result ≡ 1 + greatest_of weight_of_key (keys_of past) }
{
    // The contract of `size` bounds each weight.
    let _size = pass.size();
    pass.greatest_weight().saturating_add(1)
}

// The table of what kept requests miss from the first capacity on, where the distinct keys have this size together.
fn table_of_sizes<A: Allocator + Copy>(
    alloc: A,
    options: &Options<A>,
    misses: &[usize],
    missed: &[usize],
    first: usize,
    together: usize,
    totals: Totals,
) -> Result<String<A>, AllocError>
    ensures { (m s : ℕ → ℕ) → AreNumbersAt m (aged_capacities options.now.capacities together) misses.now
        → AreNumbersAt s (aged_capacities options.now.capacities together) missed.now
        → IfOk result (λ text. IsSizedTableAt options.now m s first together (non_zero_usize_get totals.one_in) totals.requests totals.size
        (string_bytes text)) }
{
    let capacities = capacities_in(alloc, &options.capacities, together)?;
    let mut rows = sized_rows_of(alloc, &capacities, misses, missed)?;
    rows.retain(|row| row.capacity.get() >= first);
    let shown = sized_rows_times(alloc, &rows, totals)?;
    let json = is_json(options.form);
    sized_table_of(
        alloc,
        &shown,
        &[],
        totals.requests,
        totals.size,
        options.floor,
        json,
    )
}

// A row for each capacity, with the numbers of the same place.
fn sized_rows_of<A: Allocator>(
    alloc: A,
    capacities: &[NonZeroUsize],
    misses: &[usize],
    missed: &[usize],
) -> Result<Vec<SizedRow, A>, AllocError>
    ensures { (m s : ℕ → ℕ) → AreNumbersAt m (map non_zero_usize_get capacities.now) misses.now
        → AreNumbersAt s (map non_zero_usize_get capacities.now) missed.now
        → IfOk result (λ rows. ArePlainSizedRows m s (map non_zero_usize_get capacities.now) rows.items) }
{
    let mut rows = Vec::new(alloc);
    for (index, capacity) in capacities.iter().enumerate() {
        rows.push(SizedRow {
            capacity: *capacity,
            misses: number_at(misses, index),
            missed_size: number_at(missed, index),
            floor: None,
        })?;
    }
    Ok(rows)
}
