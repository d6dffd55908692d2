//! Joining two parts.
ghost use Rattle.std.specs.Prelude.{◌≡◌, ℕ, None, Some, List, ◌++◌, bytes_eq, unwrap_or, IfOk, MatchResult};
ghost use Rattle.clru_joins.specs.PartsOfLogs.{AreCountsOfBoth, IsPartOf, refusal_of};
ghost use Rattle.clru_model.specs.Parts.{firsts as firsts_by};
ghost use Rattle.clru_text.specs.Lines.{lines_of};
ghost use Rattle.clru_text.specs.Texts.{bytes_of};
ghost use Rattle.clru_report.specs.Parts.{IsPart};

use crate::error::JoinError;
use clru_curve::NoMemory;
use clru_parts::{Counts, Part};
use clru_report::{Known, join, part_of};
use std::alloc::Allocator;
use std::hash::BuildHasher;

/// Returns the part of two logs, one behind the other, from the parts of each. The first log has to be cut behind a newline, or one of
/// its lines becomes two.
///
/// Fails if a part is of a sample, if there are more requests or bytes than `usize::MAX`, or if memory is refused.
/// Cost: that of `join`, and of counting the first requests of both as a log.
pub fn join_parts<S: BuildHasher + Copy + Drop, A: Allocator + Copy>(
    alloc: A,
    one: &Part<A>,
    two: &Part<A>,
    hash_builder: S,
) -> Result<Part<A>, JoinError>
    ensures joined { (log more : List ℕ) → IsPartOf log one.now → IsPartOf more two.now
        → lines_of (log ++ more) ≡ lines_of log ++ lines_of more → IfOk result (IsPartOf (log ++ more)) }
    ensures refused { MatchResult result (λ _. refusal_of one.now.counts two.now.counts ≡ None)
        (λ error. error ≡ unwrap_or (refusal_of one.now.counts two.now.counts) JoinError.Memory) }
{
    let counts = added(one.counts, two.counts)?;
    match joined(alloc, counts, one, two, hash_builder) {
        Ok(part) => Ok(part),
        Err(_) => Err(JoinError::Memory),
    }
}

/// Returns the counts of two logs, one behind the other.
fn added(one: Counts, two: Counts) -> Result<Counts, JoinError>
    ensures { MatchResult result (λ both. AreCountsOfBoth one two both × (refusal_of one two ≡ None))
        (λ error. refusal_of one two ≡ Some error) }
{
    if one.one_in != 1 || two.one_in != 1 {
        return Err(JoinError::Sampled);
    }
    let Some(requests) = one.requests.checked_add(two.requests) else {
        return Err(JoinError::TooMany);
    };
    let Some(bytes) = one.bytes.checked_add(two.bytes) else {
        return Err(JoinError::TooMany);
    };
    Ok(Counts {
        one_in: 1,
        requests,
        bytes,
    })
}

/// Returns the part with these counts.
fn joined<S: BuildHasher + Copy + Drop, A: Allocator + Copy>(
    alloc: A,
    counts: Counts,
    one: &Part<A>,
    two: &Part<A>,
    hash_builder: S,
) -> Result<Part<A>, NoMemory>
    ensures { (log more : List ℕ) → IsPartOf log one.now → IsPartOf more two.now → lines_of (log ++ more) ≡ lines_of log ++ lines_of more
        → AreCountsOfBoth one.now.counts two.now.counts counts → IfOk result (IsPartOf (log ++ more)) }
{
    let firsts = joined_firsts(
        alloc,
        one.firsts.as_slice(),
        two.firsts.as_slice(),
        hash_builder,
    )?;
    let known = Known {
        curve: one.curve.as_slice(),
        lasts: one.lasts.as_slice(),
    };
    let more = Known {
        curve: two.curve.as_slice(),
        lasts: two.lasts.as_slice(),
    };
    let (curve, lasts) = join(alloc, known, more, two.firsts.as_slice(), hash_builder)?;
    Ok(Part {
        counts,
        firsts,
        lasts,
        curve,
    })
}

/// Returns the first requests of two logs in a row, from those of each.
fn joined_firsts<S: BuildHasher + Drop, A: Allocator + Copy>(
    alloc: A,
    one: &[u8],
    two: &[u8],
    hash_builder: S,
) -> Result<Vec<u8, A>, NoMemory>
    ensures { (lines more : List (List ℕ)) (requests others : ℕ) (one_curve one_lasts two_curve two_lasts : List ℕ)
        → IsPart lines requests one_curve one.now one_lasts → IsPart more others two_curve two.now two_lasts
        → IfOk result (λ both. both.items ≡ bytes_of (firsts_by bytes_eq (lines ++ more))) }
{
    let Ok(mut text) = Vec::from_slice(alloc, one) else {
        return Err(NoMemory);
    };
    let Ok(()) = text.extend_from_slice(two) else {
        return Err(NoMemory);
    };
    firsts_of(alloc, text.as_slice(), hash_builder)
}

/// Returns the first requests of a log.
fn firsts_of<S: BuildHasher + Drop, A: Allocator + Copy>(
    alloc: A,
    text: &[u8],
    hash_builder: S,
) -> Result<Vec<u8, A>, NoMemory>
    ensures { IfOk result (λ found. found.items ≡ bytes_of (firsts_by bytes_eq (lines_of text.now))) }
{
    let mut left = text;
    match part_of(alloc, &mut left, hash_builder) {
        Ok(part) => Ok(part.firsts),
        Err(_) => Err(NoMemory),
    }
}
