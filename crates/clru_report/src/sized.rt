//! The report of an input whose lines begin with sizes: capacities are sums of sizes.
ghost use Rattle.std.specs.Prelude.{◌≡◌, ℕ, List, true, false, IfOk, IfErr, string_bytes};
ghost use Rattle.std.specs.Int.NonZero.{non_zero_usize_get};
ghost use Rattle.std.specs.Option.{option_map};
ghost use Rattle.clru_text.specs.Faults.{is_of_input, is_of_writing};
ghost use Rattle.clru_text.specs.Lines.{lines_of};
ghost use Rattle.clru_text.specs.Pictures.{HasTable};
ghost use Rattle.clru_text.specs.Whole.{ReadWhole};
ghost use Rattle.clru_report.specs.OneSize.{counted_lines};
ghost use Rattle.clru_report.specs.Passes.{AreFloorsFor, IsOfAsked, IsSettled, IsSizedCurveOfKept, IsTableOf, wants_floor};
ghost use Rattle.clru_report.specs.Refusals.{IsRefusedBy, IsRefusedFor};
ghost use Rattle.clru_report.specs.SizedReport.{IsReportBySize, IsReportBySizeOf};
ghost use Rattle.clru_report.specs.Report.{IsReportBySizeFrom};

mod after;
mod behind;
mod capacities;
mod faithful;
mod floors;
mod key_log;
mod line_pass;
mod one_size;
mod pass;
mod ratio;
mod rows;
mod sample;
mod table;

use crate::picture::picture_by_size;
use crate::report::asks_for_floor;
use after::sized_report_after;
pub(crate) use behind::{missed_behind, misses_behind};
use capacities::sized_usual_table;
pub(crate) use capacities::{first_capacity, sized_capacities_for};
use clru_curve::SizedCurve;
use clru_text::{Fault, Form, Options, Sample, times};
pub(crate) use floors::Floors;
use one_size::curve_of_counted;
pub(crate) use pass::count_line;
pub(crate) use rows::SizedRow;
use rows::sized_rows_for;
pub(crate) use sample::{Totals, sized_rows_times, text_of_sized_sample};
use std::alloc::Allocator;
use std::hash::BuildHasher;
use std::io::Read;
use std::num::NonZeroUsize;
use table::sized_summary_of;
pub(crate) use table::{distinct_of, sized_table_of};

/// The report of all that a reader gives, by the sizes that its lines begin with.
pub(crate) fn make_sized_report<R: Read, S: BuildHasher + Copy, A: Allocator + Copy>(
    alloc: A,
    options: &Options<A>,
    reader: &mut R,
    hash_builder: S,
) -> Result<String<A>, Fault>
    ensures report { IfOk result (λ text. ReadWhole (R.remaining reader.old) (R.remaining reader.new)
        (λ input. IsReportBySizeFrom (option_map non_zero_usize_get options.now.after) options.now input (counted_lines options.now.one_size (lines_of input)) (string_bytes text))) }
    ensures refused { IfErr result (λ fault. is_of_input fault ≡ true → ReadWhole (R.remaining reader.old) (R.remaining reader.new)
        (λ input. IsRefusedBy options.now.sample fault options.now (counted_lines options.now.one_size (lines_of input)))) }
    ensures fault { IfErr result (λ fault. is_of_writing fault ≡ false) }
{
    if let Some(after) = options.after {
        return sized_report_after(alloc, options, after, reader, hash_builder);
    }
    match options.sample {
        Sample::Whole => sized_report_of_all(alloc, options, reader, hash_builder),
        Sample::OneIn(one_in) => {
            sized_report_of_sample(alloc, options, one_in, reader, hash_builder)
        }
        Sample::Taken(one_in, requests) => {
            sized_report_of_sampled(alloc, options, one_in, requests, reader, hash_builder)
        }
    }
}

// Where all lines are taken.
fn sized_report_of_all<R: Read, S: BuildHasher + Copy, A: Allocator + Copy>(
    alloc: A,
    options: &Options<A>,
    reader: &mut R,
    hash_builder: S,
) -> Result<String<A>, Fault>
    ensures report { IfOk result (λ text. ReadWhole (R.remaining reader.old) (R.remaining reader.new)
        (λ input. IsReportBySize options.now input (counted_lines options.now.one_size (lines_of input)) (string_bytes text))) }
    ensures refused { IfErr result (λ fault. is_of_input fault ≡ true → ReadWhole (R.remaining reader.old) (R.remaining reader.new)
        (λ input. IsRefusedFor fault options.now (counted_lines options.now.one_size (lines_of input)))) }
    ensures fault { IfErr result (λ fault. is_of_writing fault ≡ false) }
{
    let one_in = NonZeroUsize::MIN;
    let floored = asks_for_floor(options);
    let (curve, _, _, bytes, floors) = curve_of_counted(
        alloc,
        options.one_size,
        one_in,
        floored,
        reader,
        hash_builder,
    )?;
    text_by_size(alloc, options, &curve, &floors, bytes)
}

// Where the lines of one key in so many are taken, and all are counted.
fn sized_report_of_sample<R: Read, S: BuildHasher + Copy, A: Allocator + Copy>(
    alloc: A,
    options: &Options<A>,
    one_in: NonZeroUsize,
    reader: &mut R,
    hash_builder: S,
) -> Result<String<A>, Fault>
    ensures report { IfOk result (λ text. ReadWhole (R.remaining reader.old) (R.remaining reader.new)
        (λ input. IsReportBySizeOf (Sample.OneIn one_in) options.now input (counted_lines options.now.one_size (lines_of input)) (string_bytes text))) }
    ensures refused { IfErr result (λ fault. is_of_input fault ≡ true → ReadWhole (R.remaining reader.old) (R.remaining reader.new)
        (λ input. IsRefusedBy (Sample.OneIn one_in) fault options.now (counted_lines options.now.one_size (lines_of input)))) }
    ensures fault { IfErr result (λ fault. is_of_writing fault ≡ false) }
{
    let floored = asks_for_floor(options);
    let (curve, requests, size, bytes, floors) = curve_of_counted(
        alloc,
        options.one_size,
        one_in,
        floored,
        reader,
        hash_builder,
    )?;
    let totals = Totals {
        one_in,
        requests,
        size,
    };
    let distinct = distinct_of(&curve);
    match text_of_sized_sample(alloc, options, &curve, &floors, totals, distinct, bytes) {
        Ok(text) => Ok(text),
        Err(_) => Err(Fault::Memory),
    }
}

// Where all lines are of one key in so many, and there were so many requests; their size is as many times that of the lines.
fn sized_report_of_sampled<R: Read, S: BuildHasher + Copy, A: Allocator + Copy>(
    alloc: A,
    options: &Options<A>,
    one_in: NonZeroUsize,
    requests: usize,
    reader: &mut R,
    hash_builder: S,
) -> Result<String<A>, Fault>
    ensures report { IfOk result (λ text. ReadWhole (R.remaining reader.old) (R.remaining reader.new)
        (λ input. IsReportBySizeOf (Sample.Taken one_in requests) options.now input (counted_lines options.now.one_size (lines_of input)) (string_bytes text))) }
    ensures refused { IfErr result (λ fault. is_of_input fault ≡ true → ReadWhole (R.remaining reader.old) (R.remaining reader.new)
        (λ input. IsRefusedBy (Sample.Taken one_in requests) fault options.now (counted_lines options.now.one_size (lines_of input)))) }
    ensures fault { IfErr result (λ fault. is_of_writing fault ≡ false) }
{
    let all = NonZeroUsize::MIN;
    let floored = asks_for_floor(options);
    let (curve, _, size, bytes, floors) = curve_of_counted(
        alloc,
        options.one_size,
        all,
        floored,
        reader,
        hash_builder,
    )?;
    let totals = Totals {
        one_in,
        requests,
        size: times(one_in, usize::MAX, size),
    };
    let distinct = distinct_of(&curve);
    match text_of_sized_sample(alloc, options, &curve, &floors, totals, distinct, bytes) {
        Ok(text) => Ok(text),
        Err(_) => Err(Fault::Memory),
    }
}

// The text in the form that is asked for.
fn text_by_size<A: Allocator + Copy>(
    alloc: A,
    options: &Options<A>,
    curve: &SizedCurve<A>,
    floors: &Option<Floors<A>>,
    bytes: usize,
) -> Result<String<A>, Fault>
    requires { IsSettled curve.now }
    ensures report { (input : List ℕ) (lines : List (List ℕ)) (requests size : ℕ) → IsSizedCurveOfKept 1 input lines curve.now requests size bytes
        → AreFloorsFor (wants_floor options.now) lines floors.now → IfOk result (λ text. IsReportBySize options.now input lines (string_bytes text)) }
    ensures refused { (input : List ℕ) (lines : List (List ℕ)) (requests size : ℕ) → IsSizedCurveOfKept 1 input lines curve.now requests size bytes
        → IfErr result (λ fault. is_of_input fault ≡ true → IsRefusedFor fault options.now lines) }
    ensures fault { IfErr result (λ fault. is_of_writing fault ≡ false) }
{
    match options.form {
        Form::Table => sized_table_for(alloc, options, curve, floors, false),
        Form::Json => sized_table_for(alloc, options, curve, floors, true),
        Form::Picture => sized_picture_for(alloc, options, curve, floors),
        Form::Summary => match sized_summary_of(alloc, curve, bytes) {
            Ok(text) => Ok(text),
            Err(_) => Err(Fault::Memory),
        },
    }
}

// The table of a curve, in JSON or as CSV.
fn sized_table_for<A: Allocator + Copy>(
    alloc: A,
    options: &Options<A>,
    curve: &SizedCurve<A>,
    floors: &Option<Floors<A>>,
    json: bool,
) -> Result<String<A>, Fault>
    requires { IsSettled curve.now }
    ensures table { IfOk result (λ text. IsTableOf curve.now json floors.now options.now.floor options.now.capacities
        (string_bytes text)) }
    ensures refused { IfErr result (λ fault. is_of_input fault ≡ true → IsOfAsked curve.now fault options.now.capacities) }
    ensures fault { IfErr result (λ fault. is_of_writing fault ≡ false) }
{
    let Ok(table) = sized_usual_table(alloc, curve, curve.size()) else {
        return Err(Fault::Memory);
    };
    let rows = sized_rows_for(alloc, curve, floors, &options.capacities, &table.capacities)?;
    match sized_table_of(
        alloc,
        &rows,
        &table.knees,
        curve.requests(),
        curve.size(),
        options.floor,
        json,
    ) {
        Ok(text) => Ok(text),
        Err(_) => Err(Fault::Memory),
    }
}

// The picture of a curve, with its table.
fn sized_picture_for<A: Allocator + Copy>(
    alloc: A,
    options: &Options<A>,
    curve: &SizedCurve<A>,
    floors: &Option<Floors<A>>,
) -> Result<String<A>, Fault>
    requires { IsSettled curve.now }
    ensures picture { IfOk result (λ text. (table : List ℕ) × IsTableOf curve.now false floors.now options.now.floor
        options.now.capacities table × HasTable table (string_bytes text)) }
    ensures refused { IfErr result (λ fault. is_of_input fault ≡ true → IsOfAsked curve.now fault options.now.capacities) }
    ensures fault { IfErr result (λ fault. is_of_writing fault ≡ false) }
{
    let table = sized_table_for(alloc, options, curve, floors, false)?;
    let totals = Totals {
        one_in: NonZeroUsize::MIN,
        requests: curve.requests(),
        size: curve.size(),
    };
    let distinct = distinct_of(curve);
    match picture_by_size(alloc, curve, floors, totals, distinct, options, &table) {
        Ok(text) => Ok(text),
        Err(_) => Err(Fault::Memory),
    }
}
