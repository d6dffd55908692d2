//! Parts of a log, each of which is counted by itself, and the report of all of them.
//!
//! A request that is not the first for its line in its part hits as it does in the part alone. The first ones hit as they do behind the
//! latest requests of the parts before. So of a part it is enough to know its curve, its first and its latest requests.
ghost use Rattle.std.specs.Prelude.{◌≡◌, ℕ, ◌+◌, ◌^◌, ◌<◌, true, false, List, ◌++◌, length, bytes_eq, is_some, IfOk, IfSome, OnOk, string_bytes};
ghost use Rattle.clru_model.specs.Parts.{firsts, lasts};
ghost use Rattle.clru_text.specs.Lines.{lines_of};
ghost use Rattle.clru_text.specs.Whole.{ReadWhole};
ghost use Rattle.clru_report.specs.LinePasses.{HasTakenLines};
ghost use Rattle.clru_report.specs.Parts.{AreKnown, HasCurve, IsCurveOfLog, IsPart, needs_only_curve as only_curve};
ghost use Rattle.clru_report.specs.Report.{IsReport};

use crate::faithful::misses_by_keys;
use crate::line_pass::LinePass;
use crate::reading::read_keys;
use crate::report::{asks_for_floor, asks_for_least, text_of_all};
use clru_curve::{MissCurve, NoMemory};
use clru_text::{Options, OwnedKey, ReadError, Sample, TakesLines};
use std::alloc::{AllocError, Allocator};
use std::hash::BuildHasher;
use std::io::Read;

/// What is known of a part of a log.
#[derive(Drop)]
pub struct Part<A: Allocator> {
    pub requests: usize,
    pub bytes: usize,
    pub curve: MissCurve<A>,

    /// The first request for each distinct line, in order, as lines with their newlines.
    pub firsts: Vec<u8, A>,

    /// The latest request for each distinct line, in order.
    pub lasts: Vec<u8, A>,
}

/// Reads a part of a log to its end, and returns what is known of its lines. A log has to be cut behind newlines, or one of its lines
/// becomes two.
///
/// Fails if memory is refused, or a read fails.
/// Cost: that of a report of them without its text, two copies of the distinct lines, and a sort of two numbers for each.
pub fn part_of<R: Read, S: BuildHasher + Drop, A: Allocator + Copy>(
    alloc: A,
    reader: &mut R,
    hash_builder: S,
) -> Result<Part<A>, ReadError>
    ensures { IfOk result (λ part. ReadWhole (R.remaining reader.old) (R.remaining reader.new) (λ input. (part.bytes ≡ length input)
        × IsPart (lines_of input) part.requests part.curve part.firsts.items part.lasts.items)) }
{
    let mut pass = LinePass::new(alloc, hash_builder);
    let (requests, bytes) = read_keys(alloc, reader, &mut pass)?;
    let Ok(firsts) = pass.firsts(alloc) else {
        return Err(ReadError::Memory);
    };
    let Ok(lasts) = pass.lasts(alloc) else {
        return Err(ReadError::Memory);
    };
    Ok(Part {
        requests,
        bytes,
        curve: pass.into_curve(),
        firsts,
        lasts,
    })
}

// It refuses no line.
impl<S: BuildHasher, A: Allocator + Copy> TakesLines<ReadError, A> for LinePass<S, A> {
    // Those before are there too.
    ghost since = { λ start lines now. ((before : List (List ℕ)) × HasTakenLines before start)
        × ((before : List (List ℕ)) → HasTakenLines before start → HasTakenLines (before ++ lines) now) };

    ghost refused = { λ start lines reason now. false ≡ true };

    fn take_line(
        &mut self,
        line: &OwnedKey<A>,
        _number: usize,
        behind: &[u8],
    ) -> Result<Result<(), ReadError>, AllocError> {
        match self.take(line, behind) {
            Ok(_) => Ok(Ok(())),
            Err(_) => Err(AllocError),
        }
    }
}

/// What is known of lines: their curve, and the latest request for each distinct one.
#[derive(Clone, Copy)]
pub struct Known<'a> {
    pub curve: &'a [usize],
    pub lasts: &'a [u8],
}

/// Returns curve and latest requests of the lines of `one` and of the part `two` behind them, taken together. `firsts` are the first
/// requests of that part. The result may be the next `one`; the caller adds up how many lines and bytes there are.
/// Cost: a look-up for each distinct line of the first, two for each of the part, and a sort of two numbers for each of both.
pub fn join<S: BuildHasher + Drop, A: Allocator + Copy>(
    alloc: A,
    one: Known<'_>,
    two: Known<'_>,
    firsts: &[u8],
    hash_builder: S,
) -> Result<(Vec<usize, A>, Vec<u8, A>), NoMemory>
    ensures { (lines more : List (List ℕ)) (requests : ℕ) → AreKnown lines one.entry.curve.now one.entry.lasts.now
        → IsPart more requests two.entry.curve.now firsts.now two.entry.lasts.now → length lines + length more < 2 ^ 64
        → IfOk result (λ both. AreKnown (lines ++ more) both.0.items both.1.items) }
{
    let mut pass = LinePass::new(alloc, hash_builder);
    take_text(alloc, &mut pass, one.lasts)?;
    take_text(alloc, &mut pass, firsts)?;
    let between = pass.curve(alloc)?;
    take_text(alloc, &mut pass, two.lasts)?;
    let lasts = pass.lasts(alloc)?;
    let curve = joined_curve(alloc, one.curve, between.as_slice(), two.curve)?;
    Ok((curve, lasts))
}

/// Takes all lines of a text.
fn take_text<S: BuildHasher, A: Allocator + Copy>(
    alloc: A,
    pass: &mut LinePass<S, A>,
    text: &[u8],
) -> Result<(), NoMemory>
    requires { (before : List (List ℕ)) × HasTakenLines before pass.old }
    ensures { (before : List (List ℕ)) → HasTakenLines before pass.old
        → OnOk result (HasTakenLines (before ++ lines_of text.now) pass.new) }
{
    let mut left = text;
    match read_keys(alloc, &mut left, pass) {
        Ok(_) => Ok(()),
        Err(_) => Err(NoMemory),
    }
}

/// Returns the curve of two lists of lines in a row, from those of each, and from that of the latest requests of the first with the first
/// ones of the second behind them.
fn joined_curve<A: Allocator>(
    alloc: A,
    one: &[usize],
    between: &[usize],
    two: &[usize],
) -> Result<Vec<usize, A>, NoMemory>
    ensures { (lines more : List (List ℕ)) → HasCurve lines one.now → HasCurve (lasts bytes_eq lines ++ firsts bytes_eq more) between.now
        → HasCurve more two.now → length lines + length more < 2 ^ 64 → IfOk result (λ curve. HasCurve (lines ++ more) curve.items) }
{
    let mut curve = Vec::new(alloc);
    for index in 0..between.len() {
        let capacity = index + 1;
        let first = misses_by_keys(one, capacity);
        let middle = misses_by_keys(between, capacity).saturating_sub(one.len());
        let second = misses_by_keys(two, capacity).saturating_sub(two.len());
        let misses = first.saturating_add(middle).saturating_add(second);
        let Ok(()) = curve.push(misses) else {
            return Err(NoMemory);
        };
    }
    Ok(curve)
}

/// Returns the report of a log from its curve, or `None` if the options ask for what the curve does not tell.
/// Cost: that of the text, and a copy of the curve.
pub fn report_of_curve<A: Allocator + Copy>(
    alloc: A,
    options: &Options<A>,
    requests: usize,
    bytes: usize,
    curve: &[usize],
) -> Result<Option<String<A>>, AllocError>
    ensures given { IfOk result (λ report. is_some report ≡ only_curve options.now) }
    ensures report { (log : List ℕ) → IsCurveOfLog log requests bytes curve.now
        → IfOk result (λ report. IfSome report (λ text. IsReport options.now log (string_bytes text))) }
{
    if !needs_only_curve(options) {
        return Ok(None);
    }
    let Ok(curve) = MissCurve::from_slice(alloc, curve) else {
        return Err(AllocError);
    };
    let text = text_of_all(alloc, options, &curve, &None, &None, requests, bytes)?;
    Ok(Some(text))
}

fn needs_only_curve<A: Allocator>(options: &Options<A>) -> bool
    ensures { result ≡ only_curve options.now }
{
    let is_whole = match options.sample {
        Sample::Whole => true,
        _ => false,
    };
    options.times.is_none()
        && options.after.is_none()
        && !options.sizes
        && is_whole
        && !asks_for_least(options)
        && !asks_for_floor(options)
}
