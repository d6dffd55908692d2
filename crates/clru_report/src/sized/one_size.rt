//! The curve of a log where each key has one size, the greatest it came with.
ghost use Rattle.std.specs.Prelude.{◌≡◌, ◌++◌, decimal, ℕ, Bool, true, false, List, None, Some, length, IfErr, IfOk, OnOk};
ghost use Rattle.std.specs.Int.NonZero.{non_zero_usize_get};
ghost use Rattle.clru_text.specs.Faults.{is_of_input, is_of_writing};
ghost use Rattle.clru_text.specs.Keys.{line_of};
ghost use Rattle.clru_text.specs.Lines.{lines_of};
ghost use Rattle.clru_text.specs.Samples.{kept_of};
ghost use Rattle.clru_text.specs.Whole.{ReadWhole};
ghost use Rattle.clru_report.specs.KeyLogs.{HasKeys, lines_in};
ghost use Rattle.clru_report.specs.OneSize.{counted_lines, one_size};
ghost use Rattle.clru_report.specs.Passes.{AreFloorsFor, IsOfLines, IsSettled, IsSizedCurveOfKept};
ghost use Rattle.clru_report.specs.Refusals.{fault_from};

use super::floors::Floors;
use super::key_log::{KeyLog, read_log};
use super::pass::{SizedLines, curve_by_size};
use clru_curve::SizedCurve;
use clru_text::{Fault, OwnedKey, TakesLines};
use std::alloc::{AllocError, Allocator};
use std::fmt::Write;
use std::hash::BuildHasher;
use std::io::Read;
use std::num::NonZeroUsize;

/// Returns what `curve_by_size` does, of the lines as they count: where each key has one size or where it has not.
pub(super) fn curve_of_counted<R: Read, S: BuildHasher + Copy, A: Allocator + Copy>(
    alloc: A,
    one_size: bool,
    one_in: NonZeroUsize,
    floored: bool,
    reader: &mut R,
    hash_builder: S,
) -> Result<(SizedCurve<A>, usize, usize, usize, Option<Floors<A>>), Fault>
    ensures curve { IfOk result (λ found. ReadWhole (R.remaining reader.old) (R.remaining reader.new)
        (λ input. IsSizedCurveOfKept (non_zero_usize_get one_in) input (counted_lines one_size (lines_of input)) found.0 found.1 found.2 found.3
        × AreFloorsFor floored (kept_of (non_zero_usize_get one_in) (counted_lines one_size (lines_of input))) found.4)) }
    ensures settled { IfOk result (λ found. IsSettled found.0) }
    ensures refused { IfErr result (λ fault. is_of_input fault ≡ true → ReadWhole (R.remaining reader.old) (R.remaining reader.new)
        (λ input. IsOfLines fault (counted_lines one_size (lines_of input)) × (fault_from 1 0 (counted_lines one_size (lines_of input)) ≡ Some fault))) }
    ensures fault { IfErr result (λ fault. is_of_writing fault ≡ false) }
{
    if one_size {
        curve_with_one_size(alloc, one_in, floored, reader, hash_builder)
    } else {
        curve_by_size(alloc, one_in, floored, reader, hash_builder)
    }
}

fn curve_with_one_size<R: Read, S: BuildHasher + Copy, A: Allocator + Copy>(
    alloc: A,
    one_in: NonZeroUsize,
    floored: bool,
    reader: &mut R,
    hash_builder: S,
) -> Result<(SizedCurve<A>, usize, usize, usize, Option<Floors<A>>), Fault>
    ensures curve { IfOk result (λ found. ReadWhole (R.remaining reader.old) (R.remaining reader.new)
        (λ input. IsSizedCurveOfKept (non_zero_usize_get one_in) input (one_size (lines_of input)) found.0 found.1 found.2 found.3
        × AreFloorsFor floored (kept_of (non_zero_usize_get one_in) (one_size (lines_of input))) found.4)) }
    ensures settled { IfOk result (λ found. IsSettled found.0) }
    ensures refused { IfErr result (λ fault. is_of_input fault ≡ true → ReadWhole (R.remaining reader.old) (R.remaining reader.new)
        (λ input. IsOfLines fault (one_size (lines_of input)) × (fault_from 1 0 (one_size (lines_of input)) ≡ Some fault))) }
    ensures fault { IfErr result (λ fault. is_of_writing fault ≡ false) }
{
    let (log, bytes) = read_log(alloc, reader, hash_builder)?;
    let requests = log.requests.len();
    let (curve, size, floors) = curve_of_log(alloc, one_in, floored, &log, hash_builder)?;
    Ok((curve, requests, size, bytes, floors))
}

// The curve and the size of the lines that the log tells of.
fn curve_of_log<S: BuildHasher + Drop, A: Allocator + Copy>(
    alloc: A,
    one_in: NonZeroUsize,
    floored: bool,
    log: &KeyLog<A>,
    hash_builder: S,
) -> Result<(SizedCurve<A>, usize, Option<Floors<A>>), Fault>
    requires { HasKeys log.now }
    ensures curve { (input : List ℕ) → IfOk result (λ found.
        IsSizedCurveOfKept (non_zero_usize_get one_in) input (lines_in log.now) found.0 (length log.now.requests.items) found.1 (length input)
        × AreFloorsFor floored (kept_of (non_zero_usize_get one_in) (lines_in log.now)) found.2) }
    ensures settled { IfOk result (λ found. IsSettled found.0) }
    ensures refused { IfErr result (λ fault. is_of_input fault ≡ true
        → IsOfLines fault (lines_in log.now) × (fault_from 1 0 (lines_in log.now) ≡ Some fault)) }
    ensures fault { IfErr result (λ fault. is_of_writing fault ≡ false) }
{
    let mut lines = SizedLines::new(alloc, one_in, floored, hash_builder);
    let mut digits = String::new(alloc);
    let mut key = OwnedKey(Vec::new(alloc));
    for index in 0..log.requests.len() {
        let number = log.requests[index];
        let Ok(()) = write_line(&mut digits, &mut key, log.sizes[number], &log.tails[number]) else {
            return Err(Fault::Memory);
        };
        let Ok(taken) = lines.take_line(&key, index + 1, &[]) else {
            return Err(Fault::Memory);
        };
        match taken {
            Ok(()) => {}
            Err(fault) => return Err(fault),
        }
    }
    match lines.into_curve() {
        Ok(found) => Ok(found),
        Err(_) => Err(Fault::Memory),
    }
}

// Makes the line of a size and what follows it.
fn write_line<A: Allocator>(
    digits: &mut String<A>,
    line: &mut OwnedKey<A>,
    size: usize,
    tail: &OwnedKey<A>,
) -> Result<(), AllocError>
    ensures { OnOk result (line_of line.new ≡ decimal size ++ line_of tail.now) }
{
    digits.clear();
    write!(digits, "{size}")?;
    line.0.clear();
    line.0.extend_from_slice(digits.as_bytes())?;
    line.0.extend_from_slice(&tail.0)
}
