//! The table under an age limit. Its rows are at the usual capacities, or at those that are named.
ghost use Rattle.std.specs.Prelude.{◌≡◌, ℕ, ◌-◌, ◌^◌, List, Option, [], Some, IfErr, IfOk, OnOk, true, false, map, string_bytes};
ghost use Rattle.std.specs.List.{slice_index_or};
ghost use Rattle.std.specs.Int.NonZero.{non_zero_usize_get};
ghost use Rattle.clru_curve.specs.SizedAgedPasses.{IsSizedAgedPass};
ghost use Rattle.clru_text.specs.Choices.{is_json as is_json_by};
ghost use Rattle.clru_text.specs.Faults.{is_of_input, is_of_writing};
ghost use Rattle.clru_text.specs.Keys.{line_of, same_line};
ghost use Rattle.clru_text.specs.Lines.{lines_of};
ghost use Rattle.clru_text.specs.TakenRequests.{HasTakenRequest};
ghost use Rattle.clru_text.specs.Whole.{ReadWhole};
ghost use Rattle.clru_text.specs.declared.lines.OwnedKey.{OwnedKey};
ghost use Rattle.clru_report.specs.Capacities.{aged_capacities};
ghost use Rattle.clru_report.specs.PlainRows.{AreNumbersAt, ArePlainRows};
ghost use Rattle.clru_report.specs.Timed.{IsTableAt, IsTimedReportIn, IsUntimed};

use super::lines::{TakesRequests, TimedLines};
use super::{all_of, kept_in, part_in};
use crate::capacities::usual_capacities;
use crate::reading::read_all;
use crate::rows::Row;
use crate::sample::rows_times;
use crate::table::table_of;
use clru_curve::{SizedAgedPass, SizedRequestError};
use clru_text::{Capacities, Fault, Form, Options, OwnedKey, Times};
use std::alloc::{AllocError, Allocator};
use std::hash::BuildHasher;
use std::io::Read;
use std::num::NonZeroUsize;

/// Returns the report of all that a reader gives, by keys, under this age limit.
pub(super) fn aged_report<R: Read, S: BuildHasher + Drop, A: Allocator + Copy>(
    alloc: A,
    options: &Options<A>,
    limits: Times,
    age: usize,
    reader: &mut R,
    hash_builder: S,
) -> Result<String<A>, Fault>
    ensures report { IfOk result (λ text. ReadWhole (R.remaining reader.old) (R.remaining reader.new)
        (λ input. IsTimedReportIn (Some age) limits options.now input (lines_of input) (string_bytes text))) }
    ensures refused { IfErr result (λ fault. is_of_input fault ≡ true → ReadWhole (R.remaining reader.old) (R.remaining reader.new)
        (λ input. IsUntimed fault (lines_of input))) }
    ensures fault { IfErr result (λ fault. is_of_writing fault ≡ false) }
{
    let Ok(pass) = aged_pass_of(alloc, options, limits, age, hash_builder) else {
        return Err(Fault::Memory);
    };
    let mut lines = TimedLines {
        alloc,
        one_in: kept_in(options.sample),
        pass,
        key: OwnedKey(Vec::new(alloc)),
    };
    let (read, _) = read_all(alloc, reader, &mut lines)?;
    let part = part_in(options.sample);
    let all = all_of(options.sample, read);
    let keys = lines.pass.distinct_size();
    match table_of_misses(alloc, options, lines.pass.misses(), keys, part, all) {
        Ok(text) => Ok(text),
        Err(_) => Err(Fault::Memory),
    }
}

/// Returns a pass under these limits, at all capacities that the table may have: its last one has what misses at each that is greater
/// than all keys.
pub(super) fn aged_pass_of<S: BuildHasher + Drop, A: Allocator + Copy>(
    alloc: A,
    options: &Options<A>,
    limits: Times,
    age: usize,
    hash_builder: S,
) -> Result<SizedAgedPass<OwnedKey<A>, S, A>, AllocError>
    ensures { (w : OwnedKey A → ℕ) → IfOk result
        (IsSizedAgedPass same_line w (aged_capacities options.now.capacities (2 ^ 64 - 1)) limits.max_idle age []) }
{
    let capacities = capacities_in(alloc, &options.capacities, usize::MAX)?;
    let numbers = numbers_of(alloc, &capacities)?;
    match SizedAgedPass::with_hasher(alloc, &numbers, limits.max_idle, age, hash_builder) {
        Ok(pass) => Ok(pass),
        Err(_) => Err(AllocError),
    }
}

impl<S: BuildHasher, A: Allocator + Copy> TakesRequests<A> for SizedAgedPass<OwnedKey<A>, S, A> {
    // At the capacities and under the limits of the first state.
    ghost since = { λ w start past now. IsSizedAgedPass same_line (λ k. w (line_of k)) start.fetches.capacities start.idle
        start.fetches.age past now };

    fn take_request(
        &mut self,
        alloc: A,
        key: &OwnedKey<A>,
        time: usize,
        weight: usize,
    ) -> Result<bool, AllocError> {
        take_request(alloc, self, key, time, weight)
    }
}

// Takes one more request of this weight. Its key is copied where it is new. Returns whether it is.
fn take_request<S: BuildHasher, A: Allocator + Copy>(
    alloc: A,
    pass: &mut SizedAgedPass<OwnedKey<A>, S, A>,
    key: &OwnedKey<A>,
    time: usize,
    weight: usize,
) -> Result<bool, AllocError>
    ensures { (w : List ℕ → ℕ) (capacities : List ℕ) (idle : Option ℕ) (age : ℕ) (past : List (OwnedKey A × ℕ))
        → IsSizedAgedPass same_line (λ k. w (line_of k)) capacities idle age past pass.old → weight ≡ w (line_of key.now)
        → OnOk result (HasTakenRequest (IsSizedAgedPass same_line (λ k. w (line_of k)) capacities idle age) past
        (line_of key.now) time pass.new) }
{
    match pass.request_again(key, time, weight) {
        Ok(true) => Ok(false),
        Ok(false) => {
            let bytes = Vec::from_slice(alloc, &key.0)?;
            match pass.request(OwnedKey(bytes), time, weight) {
                Ok(()) => Ok(true),
                Err(_) => Err(AllocError),
            }
        }
        Err(_) => Err(AllocError),
    }
}

/// Returns the capacities of a table of so many keys, or of keys of this size together.
pub(super) fn capacities_in<A: Allocator + Copy>(
    alloc: A,
    capacities: &Capacities<A>,
    keys: usize,
) -> Result<Vec<NonZeroUsize, A>, AllocError>
    ensures { IfOk result (λ chosen. map non_zero_usize_get chosen.items ≡ aged_capacities capacities.now keys) }
{
    match capacities {
        Capacities::Usual => usual_capacities(alloc, keys),
        Capacities::Named(named) => Vec::from_slice(alloc, named),
        _ => Ok(Vec::new(alloc)),
    }
}

fn numbers_of<A: Allocator>(
    alloc: A,
    capacities: &[NonZeroUsize],
) -> Result<Vec<usize, A>, AllocError>
    ensures { IfOk result (λ numbers. numbers.items ≡ map non_zero_usize_get capacities.now) }
{
    let mut numbers = Vec::new(alloc);
    for capacity in capacities {
        numbers.push(capacity.get())?;
    }
    Ok(numbers)
}

// The table of the misses of kept requests, of so many keys.
fn table_of_misses<A: Allocator + Copy>(
    alloc: A,
    options: &Options<A>,
    misses: &[usize],
    keys: usize,
    one_in: NonZeroUsize,
    requests: usize,
) -> Result<String<A>, AllocError>
    ensures { (m : ℕ → ℕ) → AreNumbersAt m (aged_capacities options.now.capacities keys) misses.now
        → IfOk result (λ text. IsTableAt options.now m keys (non_zero_usize_get one_in) requests (string_bytes text)) }
{
    let capacities = capacities_in(alloc, &options.capacities, keys)?;
    let rows = rows_of(alloc, &capacities, misses)?;
    let shown = rows_times(alloc, &rows, one_in, requests)?;
    let json = is_json(options.form);
    table_of(alloc, &shown, &[], requests, false, options.floor, json)
}

pub(super) fn is_json(form: Form) -> bool
    ensures { result ≡ is_json_by form }
{
    match form {
        Form::Json => true,
        Form::Table | Form::Picture | Form::Summary => false,
    }
}

// A row for each capacity, with the misses of the same place.
fn rows_of<A: Allocator>(
    alloc: A,
    capacities: &[NonZeroUsize],
    misses: &[usize],
) -> Result<Vec<Row, A>, AllocError>
    ensures { (m : ℕ → ℕ) → AreNumbersAt m (map non_zero_usize_get capacities.now) misses.now
        → IfOk result (λ rows. ArePlainRows m (map non_zero_usize_get capacities.now) rows.items) }
{
    let mut rows = Vec::new(alloc);
    for (index, capacity) in capacities.iter().enumerate() {
        rows.push(Row {
            capacity: *capacity,
            misses: number_at(misses, index),
            least: None,
            floor: None,
        })?;
    }
    Ok(rows)
}

/// Returns the number at an index, or 0 if there is none.
pub(super) fn number_at(numbers: &[usize], index: usize) -> usize
    ensures { result ≡ slice_index_or numbers.now index 0 }
{
    match numbers.get(index) {
        Some(number) => *number,
        None => 0,
    }
}
