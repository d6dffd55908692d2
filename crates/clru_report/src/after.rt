//! The report of the requests behind the first ones, which fill the cache and are not counted.
ghost use Rattle.std.specs.Prelude.{◌≡◌, ◌<◌, ℕ, ◌+◌, ◌-◌, List, None, [], false, true, length, map, take, IfOk, string_bytes};
ghost use Rattle.std.specs.Int.NonZero.{non_zero_usize_get};
ghost use Rattle.std.specs.List.{range_with_len};
ghost use Rattle.std.specs.Str.{bytes_eq};
ghost use Rattle.clru_curve.specs.Curves.{HasMissesOf, misses_at};
ghost use Rattle.clru_text.specs.Choices.{is_summary};
ghost use Rattle.clru_text.specs.Lines.{lines_of};
ghost use Rattle.clru_text.specs.Whole.{ReadWhole};
ghost use Rattle.clru_report.specs.After.{AreCounted, AreRowsBehind, counted, IsInFormAfter};
ghost use Rattle.clru_report.specs.AfterPasses.{AreCountsBehind, AreCurvesAround, IsCurveOfLines, IsHead};
ghost use Rattle.clru_report.specs.Report.{AreRows};
ghost use Rattle.clru_report.specs.Tables.{capacity_of_row};

use crate::capacities::{capacities_for, usual_capacities};
use crate::faithful::ByKeys;
use crate::knees::table_with_knees;
use crate::line_pass::LinePass;
use crate::reading::read_keys;
use crate::rows::{Row, rows_at};
use crate::text::{Counts, text_by_keys};
use clru_curve::MissCurve;
use clru_text::{Options, OwnedKey, ReadError, TakesLines};
use std::alloc::{AllocError, Allocator};
use std::hash::BuildHasher;
use std::io::Read;
use std::num::NonZeroUsize;

/// Returns the report by keys of the requests behind the first `after`.
pub(crate) fn report_after<R: Read, S: BuildHasher + Drop, A: Allocator + Copy>(
    alloc: A,
    options: &Options<A>,
    after: NonZeroUsize,
    reader: &mut R,
    hash_builder: S,
) -> Result<String<A>, ReadError>
    requires { is_summary options.now.form ≡ false }
    ensures { IfOk result (λ text. ReadWhole (R.remaining reader.old) (R.remaining reader.new)
        (λ input. IsInFormAfter options.now.form (non_zero_usize_get after) options.now input (string_bytes text))) }
{
    let (curve, head, requests, bytes) = curves_around(alloc, after, reader, hash_builder)?;
    let counts = Counts {
        one_in: NonZeroUsize::MIN,
        requests: requests.saturating_sub(after.get()),
        distinct: curve.distinct(),
        bytes,
    };
    match text_after(alloc, options, &curve, &head, counts) {
        Ok(text) => Ok(text),
        Err(_) => Err(ReadError::Memory),
    }
}

// Returns the curve of all lines, that of the first ones if others follow, and how many lines and bytes there are.
fn curves_around<R: Read, S: BuildHasher + Drop, A: Allocator + Copy>(
    alloc: A,
    after: NonZeroUsize,
    reader: &mut R,
    hash_builder: S,
) -> Result<(MissCurve<A>, Option<MissCurve<A>>, usize, usize), ReadError>
    ensures { IfOk result (λ found. ReadWhole (R.remaining reader.old) (R.remaining reader.new)
        (λ input. AreCurvesAround (non_zero_usize_get after) input found.0 found.1 found.2 found.3)) }
{
    let mut lines = LinesAround {
        alloc,
        after,
        pass: LinePass::new(alloc, hash_builder),
        head: None,
    };
    let (requests, bytes) = read_keys(alloc, reader, &mut lines)?;
    let LinesAround {
        alloc: _,
        after: _,
        pass,
        head,
    } = lines;
    Ok((pass.into_curve(), head, requests, bytes))
}

/// Hands all lines to a pass, and keeps the curve of the first ones if others follow.
#[derive(Drop)]
struct LinesAround<S: BuildHasher, A: Allocator + Copy> {
    alloc: A,
    after: NonZeroUsize,
    pass: LinePass<S, A>,
    head: Option<MissCurve<A>>,
}

// It refuses no line.
impl<S: BuildHasher, A: Allocator + Copy> TakesLines<ReadError, A> for LinesAround<S, A> {
    ghost use Rattle.clru_report.specs.LinePasses.{HasTakenLines};

    ghost since = { λ start lines now. (now.after ≡ start.after) × HasTakenLines lines now.pass
        × IsHead (non_zero_usize_get now.after) lines now.head };

    ghost refused = { λ start lines reason now. false ≡ true };

    fn take_line(
        &mut self,
        line: &OwnedKey<A>,
        number: usize,
        behind: &[u8],
    ) -> Result<Result<(), ReadError>, AllocError> {
        if number - 1 == self.after.get() {
            let Ok(curve) = self.pass.curve(self.alloc) else {
                return Err(AllocError);
            };
            self.head = Some(curve);
        }
        match self.pass.take(line, behind) {
            Ok(_) => Ok(Ok(())),
            Err(_) => Err(AllocError),
        }
    }
}

// The rows of the counted requests, and the knees of their usual table.
#[derive(Drop)]
struct Counted<A: Allocator> {
    misses: Vec<usize, A>,
    rows: Vec<Row, A>,
    knees: Vec<usize, A>,
}

// The text in the form that is asked for.
fn text_after<A: Allocator + Copy>(
    alloc: A,
    options: &Options<A>,
    curve: &MissCurve<A>,
    head: &Option<MissCurve<A>>,
    counts: Counts,
) -> Result<String<A>, AllocError>
    requires { is_summary options.now.form ≡ false }
    ensures { (n : ℕ) (input : List ℕ) → IsCurveOfLines (lines_of input) curve.now → IsHead n (lines_of input) head.now
        → AreCountsBehind n input counts
        → IfOk result (λ text. IsInFormAfter options.now.form n options.now input (string_bytes text)) }
{
    let counted = match head {
        None => none_counted(alloc),
        Some(head) => counted_of(alloc, options, curve, head, counts.requests)?,
    };
    text_by_keys(
        alloc,
        options,
        &counted.misses,
        &None,
        &counted.rows,
        &counted.knees,
        false,
        counts,
    )
}

// No requests are counted, so there are no rows.
fn none_counted<A: Allocator + Copy>(alloc: A) -> Counted<A>
    ensures rows { result.rows.items ≡ [] }
    ensures knees { result.knees.items ≡ [] }
{
    Counted {
        misses: Vec::new(alloc),
        rows: Vec::new(alloc),
        knees: Vec::new(alloc),
    }
}

// What is counted of the curve of all lines where the first ones have that of the head.
fn counted_of<A: Allocator + Copy>(
    alloc: A,
    options: &Options<A>,
    curve: &MissCurve<A>,
    head: &MissCurve<A>,
    requests: usize,
) -> Result<Counted<A>, AllocError>
    ensures { (n : ℕ) (lines : List (List ℕ)) → IsCurveOfLines lines curve.now → HasMissesOf bytes_eq (take n lines) head.now
        → requests ≡ counted n lines
        → IfOk result (λ found. AreCounted n lines true options.now found.knees.items found.rows.items) }
{
    let misses = misses_behind(alloc, curve.as_slice(), head)?;
    let usual = usual_capacities(alloc, misses.len())?;
    let table = table_with_knees(alloc, &ByKeys(&misses), requests, &usual)?;
    let capacities = capacities_for(
        alloc,
        &options.capacities,
        &misses,
        requests,
        &table.capacities,
    )?;
    let whole = rows_at(alloc, curve, &capacities)?;
    let rows = rows_behind(alloc, head, &whole)?;
    Ok(Counted {
        misses,
        rows,
        knees: table.knees,
    })
}

// The misses at 1, 2 and so on that the head leaves.
fn misses_behind<A: Allocator>(
    alloc: A,
    curve: &[usize],
    head: &MissCurve<A>,
) -> Result<Vec<usize, A>, AllocError>
    ensures { IfOk result (λ misses. misses.items ≡ map (λ k. misses_at curve.now (k + 1) - misses_at head.now (k + 1)) (range_with_len 0 (length curve.now))) }
{
    let mut misses = Vec::new(alloc);
    for index in 0..curve.len() {
        let capacity = NonZeroUsize::MIN.saturating_add(index);
        misses.push(curve[index].saturating_sub(head.misses(capacity)))?;
    }
    Ok(misses)
}

// The rows with the misses that the head leaves.
fn rows_behind<A: Allocator + Copy>(
    alloc: A,
    head: &MissCurve<A>,
    rows: &[Row],
) -> Result<Vec<Row, A>, AllocError>
    ensures { (n : ℕ) (lines : List (List ℕ)) (capacities : List ℕ) → HasMissesOf bytes_eq (take n lines) head.now
        → AreRows bytes_eq lines false false capacities rows.now
        → IfOk result (λ found. AreRowsBehind n lines capacities found.items) }
{
    let mut found = Vec::new(alloc);
    for row in rows {
        found.push(row_behind(head, row))?;
    }
    Ok(found)
}

fn row_behind<A: Allocator>(head: &MissCurve<A>, row: &Row) -> Row
    ensures capacity { capacity_of_row result ≡ capacity_of_row row.now }
    ensures positive { 0 < capacity_of_row result }
    ensures misses { result.misses ≡ row.now.misses - misses_at head.now (capacity_of_row row.now) }
    ensures least { result.least ≡ None }
    ensures floor { result.floor ≡ None }
{
    // It tells that the capacity is no 0.
    let _ = row.capacity.get();
    Row {
        capacity: row.capacity,
        misses: row.misses.saturating_sub(head.misses(row.capacity)),
        least: None,
        floor: None,
    }
}
