//! The text of a report by keys, in each form.
ghost use Rattle.std.specs.Prelude.{IfOk, string_bytes};
ghost use Rattle.clru_report.specs.Passes.{IsTextByKeys};

use crate::picture::picture_by_keys;
use crate::rows::Row;
use crate::table::{summary_of, table_of};
use clru_least::Floor;
use clru_text::{Form, Options};
use std::alloc::{AllocError, Allocator};
use std::num::NonZeroUsize;

/// What a report says of all requests. The curve is of one key in so many.
#[derive(Clone, Copy)]
pub(crate) struct Counts {
    pub(crate) one_in: NonZeroUsize,
    pub(crate) requests: usize,
    pub(crate) distinct: usize,
    pub(crate) bytes: usize,
}

/// Returns the text in the form that is asked for; a table has these rows and knees.
pub(crate) fn text_by_keys<A: Allocator + Copy>(
    alloc: A,
    options: &Options<A>,
    curve: &[usize],
    floor: &Option<Floor<A>>,
    rows: &[Row],
    knees: &[usize],
    least: bool,
    counts: Counts,
) -> Result<String<A>, AllocError>
    ensures { IfOk result (λ text. IsTextByKeys options.now.form least options.now.floor counts knees.now rows.now
        (string_bytes text)) }
{
    let requests = counts.requests;
    match options.form {
        Form::Table => table_of(alloc, rows, knees, requests, least, options.floor, false),
        Form::Json => table_of(alloc, rows, knees, requests, least, options.floor, true),
        Form::Picture => {
            let table = table_of(alloc, rows, knees, requests, least, options.floor, false)?;
            picture_by_keys(alloc, curve, floor, counts, options, rows, &table)
        }
        Form::Summary => summary_of(alloc, requests, counts.distinct, counts.bytes),
    }
}
