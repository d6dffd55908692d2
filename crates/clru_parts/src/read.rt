//! Reading a part's text.
ghost use Rattle.std.specs.Prelude.{◌≡◌, ◌<◌, ◌≤◌, ◌^◌, List, ℕ, ◌++◌, length, flat_map, IfOk, MatchResult};
ghost use Rattle.std.specs.List.{AllByRecursion};
ghost use Rattle.clru_text.specs.Samples.{fnv};
ghost use Rattle.clru_parts.specs.Files.{AreCounts, Fits, IsFile, PartFile, block_text, body_text, counts_text, file_of, head_text, number_line, part_text};

use crate::checksum::checksum_of;
use crate::number::read_number;
use crate::part::{Counts, Part, PartError};
use crate::write::HEAD;
use std::alloc::Allocator;

/// Reads the part whose text the bytes begin with, and returns it with what follows it.
///
/// Fails if the bytes begin with no text of a part: of another version, cut short, or changed. Its checksum is looked at before any
/// memory is asked for.
/// Cost: a few steps for each byte of its text; a copy of the lines and the curve.
pub fn read_part<'a, A: Allocator + Copy>(
    alloc: A,
    bytes: &'a [u8],
) -> Result<(Part<A>, &'a [u8]), PartError>
    ensures read { IfOk result (λ found. bytes.now ≡ part_text (file_of found.0) ++ found.1.now) }
    ensures whole { (file : PartFile) (rest : List ℕ) → IsFile file → bytes.now ≡ part_text file ++ rest
        → MatchResult result (λ found. (file_of found.0 ≡ file) × (found.1.now ≡ rest)) (λ error. error ≡ PartError.Memory) }
{
    let (counts, rest) = read_counts(bytes)?;
    let (firsts, rest) = read_block(rest)?;
    let (lasts, rest) = read_block(rest)?;
    let (misses, rest) = read_block(rest)?;
    let rest = read_checksum(bytes, rest)?;
    match part_of(alloc, counts, firsts, lasts, misses) {
        Ok(part) => Ok((part, rest)),
        Err(error) => Err(error),
    }
}

fn read_counts(bytes: &[u8]) -> Result<(Counts, &[u8]), PartError>
    ensures read { IfOk result (λ found. bytes.now ≡ counts_text found.0 ++ found.1.now) }
    ensures whole { (counts : Counts) (rest : List ℕ) → AreCounts counts → bytes.now ≡ counts_text counts ++ rest
        → MatchResult result (λ found. (found.0 ≡ counts) × (found.1.now ≡ rest)) (λ _. ⊥) }
{
    let rest = read_head(bytes)?;
    let (one_in, rest) = read_number(rest)?;
    let (requests, rest) = read_number(rest)?;
    let (bytes, rest) = read_number(rest)?;
    let counts = Counts {
        one_in,
        requests,
        bytes,
    };
    Ok((counts, rest))
}

#[tactic(auto, unfolding(crate::specs::Files::head_text))]
fn read_head(bytes: &[u8]) -> Result<&[u8], PartError>
    ensures read { IfOk result (λ rest. bytes.now ≡ head_text ++ rest.now) }
    ensures whole { (rest : List ℕ) → bytes.now ≡ head_text ++ rest
        → MatchResult result (λ found. found.now ≡ rest) (λ _. ⊥) }
{
    match bytes.strip_prefix(HEAD) {
        Some(rest) => Ok(rest),
        None if HEAD.starts_with(bytes) => Err(PartError::Short),
        None => Err(PartError::Version),
    }
}

/// Returns the bytes of a block, and what follows them.
fn read_block(bytes: &[u8]) -> Result<(&[u8], &[u8]), PartError>
    ensures read { IfOk result (λ found. bytes.now ≡ block_text found.0.now ++ found.1.now) }
    ensures whole { (content rest : List ℕ) → bytes.now ≡ block_text content ++ rest
        → MatchResult result (λ found. (found.0.now ≡ content) × (found.1.now ≡ rest)) (λ _. ⊥) }
{
    let (length, rest) = read_number(bytes)?;
    if length > rest.len() {
        return Err(PartError::Short);
    }
    Ok((&rest[..length], &rest[length..]))
}

/// Returns what follows the checksum with which `behind` begins: that of the body, which stands in `bytes` before `behind`.
fn read_checksum<'a>(bytes: &[u8], behind: &'a [u8]) -> Result<&'a [u8], PartError>
    requires { (body : List ℕ) × (bytes.now ≡ body ++ behind.now) }
    ensures read { (body : List ℕ) → bytes.now ≡ body ++ behind.now
        → IfOk result (λ rest. behind.now ≡ number_line (fnv body) ++ rest.now) }
    ensures whole { (body rest : List ℕ) → bytes.now ≡ body ++ behind.now → behind.now ≡ number_line (fnv body) ++ rest
        → MatchResult result (λ found. found.now ≡ rest) (λ _. ⊥) }
{
    let checksum = checksum_of(&bytes[..bytes.len() - behind.len()]);
    let (written, rest) = read_number(behind)?;
    if written != checksum {
        return Err(PartError::Changed);
    }
    Ok(rest)
}

fn part_of<A: Allocator + Copy>(
    alloc: A,
    counts: Counts,
    firsts: &[u8],
    lasts: &[u8],
    misses: &[u8],
) -> Result<Part<A>, PartError>
    ensures read { IfOk result (λ part. body_text (file_of part)
        ≡ counts_text counts ++ (block_text firsts.now ++ (block_text lasts.now ++ block_text misses.now))) }
    ensures whole { (curve : List ℕ) → AllByRecursion Fits curve → misses.now ≡ flat_map number_line curve
        → MatchResult result (λ part. file_of part ≡ record { counts = counts; first = firsts.now; latest = lasts.now; curve = curve })
        (λ error. error ≡ PartError.Memory) }
{
    let curve = numbers_of(alloc, misses)?;
    let Ok(firsts) = Vec::from_slice(alloc, firsts) else {
        return Err(PartError::Memory);
    };
    let Ok(lasts) = Vec::from_slice(alloc, lasts) else {
        return Err(PartError::Memory);
    };
    Ok(Part {
        counts,
        firsts,
        lasts,
        curve,
    })
}

/// Returns the numbers of lines, each of which has one.
fn numbers_of<A: Allocator>(alloc: A, text: &[u8]) -> Result<Vec<usize, A>, PartError>
    ensures read { IfOk result (λ numbers. text.now ≡ flat_map number_line numbers.items) }
    ensures whole { (numbers : List ℕ) → AllByRecursion Fits numbers → text.now ≡ flat_map number_line numbers
        → MatchResult result (λ found. found.items ≡ numbers) (λ error. error ≡ PartError.Memory) }
{
    let mut numbers = Vec::new(alloc);
    let mut left = text;
    'lines: while !left.is_empty() {
        let (number, rest) = read_number(left)?;
        let Ok(()) = numbers.push(number) else {
            return Err(PartError::Memory);
        };
        left = rest;
    }
    Ok(numbers)
}
