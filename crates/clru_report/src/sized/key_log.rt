//! A log by the numbers of its keys, each with the greatest size it came with.
ghost use Rattle.std.specs.Prelude.{◌≡◌, ◌<◌, ◌+◌, ℕ, Bool, true, false, List, [], ◌∷◌, ◌++◌, length, map, max, None, Some, IfErr, IfOk, OnOk, if◌then◌else◌, slice_index, slice_set};
ghost use Rattle.std.specs.HashMap.{get};
ghost use Rattle.clru_text.specs.Faults.{is_of_input, is_of_writing};
ghost use Rattle.clru_text.specs.Keys.{line_of, same_line};
ghost use Rattle.clru_text.specs.Lines.{lines_of};
ghost use Rattle.clru_text.specs.Sizes.{tail_of_line, weight_of_line};
ghost use Rattle.clru_text.specs.Whole.{ReadWhole};
ghost use Rattle.clru_report.specs.KeyLogs.{HasKeys, HasNoted, lines_in, tails_of};
ghost use Rattle.clru_report.specs.OneSize.{with_greatest};
ghost use Rattle.clru_report.specs.Passes.{IsOfLines};
ghost use Rattle.clru_report.specs.Refusals.{fault_from};
ghost use Rattle.clru_report.specs.SizedLines.{AddUpTo, HaveFault};

use super::pass::count_line;
use crate::reading::read_all;
use clru_text::{Fault, OwnedKey, TakesLines, tail_of};
use std::alloc::{AllocError, Allocator};
use std::collections::HashMap;
use std::hash::BuildHasher;
use std::io::Read;

/// The requests of a log by the numbers of their keys.
#[derive(Drop)]
pub(super) struct KeyLog<A: Allocator> {
    /// The keys, each from the blank before it on.
    pub(super) tails: Vec<OwnedKey<A>, A>,

    /// The greatest size that each came with.
    pub(super) sizes: Vec<usize, A>,

    /// The number of each request's key.
    pub(super) requests: Vec<usize, A>,
}

/// Reads a log, and returns it with the number of its bytes.
///
/// Holds the distinct keys, and a number for each line. The fault of a line is returned once all is read, because it is one of
/// the whole input; refused memory at once.
pub(super) fn read_log<R: Read, S: BuildHasher + Drop, A: Allocator + Copy>(
    alloc: A,
    reader: &mut R,
    hash_builder: S,
) -> Result<(KeyLog<A>, usize), Fault>
    ensures keys { IfOk result (λ found. HasKeys found.0) }
    ensures log { IfOk result (λ found. ReadWhole (R.remaining reader.old) (R.remaining reader.new)
        (λ input. (fault_from 1 0 (lines_of input) ≡ None)
        × (lines_in found.0 ≡ map (with_greatest (lines_of input)) (lines_of input)) × (found.1 ≡ length input))) }
    ensures refused { IfErr result (λ fault. is_of_input fault ≡ true → ReadWhole (R.remaining reader.old) (R.remaining reader.new)
        (λ input. IsOfLines fault (lines_of input) × (fault_from 1 0 (lines_of input) ≡ Some fault))) }
    ensures fault { IfErr result (λ fault. is_of_writing fault ≡ false) }
{
    let mut noted = NotedLines {
        alloc,
        numbers: HashMap::with_hasher(alloc, hash_builder),
        log: KeyLog {
            tails: Vec::new(alloc),
            sizes: Vec::new(alloc),
            requests: Vec::new(alloc),
        },
        tail: OwnedKey(Vec::new(alloc)),
        size: 0,
    };
    let (_, bytes) = read_all(alloc, reader, &mut noted)?;
    Ok((noted.log, bytes))
}

/// Notes lines, by the numbers of their keys. Adds up their sizes.
#[derive(Drop)]
struct NotedLines<S: BuildHasher, A: Allocator + Copy> {
    alloc: A,
    numbers: HashMap<OwnedKey<A>, usize, S, A>,
    log: KeyLog<A>,
    tail: OwnedKey<A>,
    size: usize,
}

impl<S: BuildHasher, A: Allocator + Copy> TakesLines<Fault, A> for NotedLines<S, A> {
    ghost since = { λ start lines now. AddUpTo lines now.size
        × HasNoted line_of lines (get same_line now.numbers) (tails_of now.log) now.log.sizes.items now.log.requests.items };

    ghost refused = { λ start lines fault now. HaveFault lines fault };

    fn take_line(
        &mut self,
        line: &OwnedKey<A>,
        number: usize,
        _behind: &[u8],
    ) -> Result<Result<(), Fault>, AllocError> {
        let more = match count_line(&line.0, number, self.size) {
            Ok(more) => more,
            Err(fault) => return Ok(Err(fault)),
        };
        let size = more - self.size;
        note_line(
            self.alloc,
            &mut self.numbers,
            &mut self.log,
            &mut self.tail,
            &line.0,
            size,
        )?;
        self.size = more;
        Ok(Ok(()))
    }
}

// Notes one more line, of this size.
fn note_line<S: BuildHasher, A: Allocator + Copy>(
    alloc: A,
    numbers: &mut HashMap<OwnedKey<A>, usize, S, A>,
    log: &mut KeyLog<A>,
    tail: &mut OwnedKey<A>,
    line: &[u8],
    size: usize,
) -> Result<(), AllocError>
    requires { (lines : List (List ℕ)) × HasNoted line_of lines (get same_line numbers.old) (tails_of log.old) log.old.sizes.items log.old.requests.items }
    ensures { (lines : List (List ℕ)) → size ≡ 1 + weight_of_line line.now
        → HasNoted line_of lines (get same_line numbers.old) (tails_of log.old) log.old.sizes.items log.old.requests.items
        → OnOk result (HasNoted line_of (lines ++ line.now ∷ []) (get same_line numbers.new) (tails_of log.new) log.new.sizes.items log.new.requests.items) }
{
    tail.0.clear();
    tail.0.extend_from_slice(tail_of(line))?;
    note_tail(alloc, numbers, log, tail, size)
}

// Notes one more line with this key and this size.
fn note_tail<S: BuildHasher, A: Allocator + Copy>(
    alloc: A,
    numbers: &mut HashMap<OwnedKey<A>, usize, S, A>,
    log: &mut KeyLog<A>,
    tail: &OwnedKey<A>,
    size: usize,
) -> Result<(), AllocError>
    requires { (lines : List (List ℕ)) × HasNoted line_of lines (get same_line numbers.old) (tails_of log.old) log.old.sizes.items log.old.requests.items }
    ensures { (lines : List (List ℕ)) (line : List ℕ) → line_of tail.now ≡ tail_of_line line → size ≡ 1 + weight_of_line line
        → HasNoted line_of lines (get same_line numbers.old) (tails_of log.old) log.old.sizes.items log.old.requests.items
        → OnOk result (HasNoted line_of (lines ++ line ∷ []) (get same_line numbers.new) (tails_of log.new) log.new.sizes.items log.new.requests.items) }
{
    let known = numbers.get(tail).copied();
    let number = match known {
        Some(number) => {
            raise(&mut log.sizes, number, size);
            number
        }
        None => add_key(alloc, numbers, log, tail, size)?,
    };
    log.requests.push(number)?;
    Ok(())
}

// The greatest of the sizes of this number.
fn raise<A: Allocator>(sizes: &mut Vec<usize, A>, number: usize, size: usize)
    requires { number < length sizes.old.items }
    ensures { sizes.new.items ≡ slice_set sizes.old.items number (max (slice_index sizes.old.items number) size) }
{
    sizes[number] = sizes[number].max(size);
}

// Returns the number of a new key.
fn add_key<S: BuildHasher, A: Allocator + Copy>(
    alloc: A,
    numbers: &mut HashMap<OwnedKey<A>, usize, S, A>,
    log: &mut KeyLog<A>,
    tail: &OwnedKey<A>,
    size: usize,
) -> Result<usize, AllocError>
    ensures number { IfOk result (λ number. number ≡ length log.old.tails.items) }
    ensures found { IfOk result (λ number. (k : OwnedKey A)
        → get same_line numbers.new k ≡ (if same_line tail.now k then Some number else get same_line numbers.old k)) }
    ensures tails { OnOk result (tails_of log.new ≡ tails_of log.old ++ line_of tail.now ∷ []) }
    ensures sizes { OnOk result (log.new.sizes.items ≡ log.old.sizes.items ++ size ∷ []) }
    ensures requests { log.new.requests.items ≡ log.old.requests.items }
{
    let number = log.tails.len();
    let copy = Vec::from_slice(alloc, &tail.0)?;
    let Ok(_) = numbers.insert(OwnedKey(copy), number) else {
        return Err(AllocError);
    };
    let held = Vec::from_slice(alloc, &tail.0)?;
    log.tails.push(OwnedKey(held))?;
    log.sizes.push(size)?;
    Ok(number)
}
