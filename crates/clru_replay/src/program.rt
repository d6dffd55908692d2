//! From the reader to the writer.
ghost use Rattle.std.specs.Prelude.{◌≡◌, ◌≢◌, ℕ, Err, None, take, IfErr, IsSomeAnd, OnOk};
ghost use Rattle.std.specs.Io.KnownBytes.{Appends, Keeps};
ghost use Rattle.clru_text.specs.Whole.{ReadWhole};
ghost use Rattle.clru_replay.specs.Report.{report};

use crate::fault::Fault;
use crate::report::make_report;
use clru_text::{ReadError, read_input, write_text};
use std::alloc::Allocator;
use std::io::{Read, Write};

/// Reads the whole input, and then writes its report.
pub fn run<R: Read, W: Write, A: Allocator + Copy>(
    alloc: A,
    reader: &mut R,
    writer: &mut W,
) -> Result<(), Fault>
    // The writer got the report of the whole input.
    ensures written { OnOk result (ReadWhole (R.remaining reader.old) (R.remaining reader.new)
        (λ input. IsSomeAnd (report input) (Appends (W.contents writer.old) (W.contents writer.new)))) }
    // The whole input has no report.
    ensures bad_capacity { result ≡ Err Fault.BadCapacity
        → ReadWhole (R.remaining reader.old) (R.remaining reader.new) (λ input. report input ≡ None) }
    // The writer got a beginning of the report of the whole input.
    ensures cut_short { result ≡ Err Fault.Writing
        → ReadWhole (R.remaining reader.old) (R.remaining reader.new)
        (λ input. IsSomeAnd (report input)
        (λ text. (n : ℕ) × Appends (W.contents writer.old) (W.contents writer.new) (take n text))) }
    // Any other fault comes before the first write.
    ensures silent { IfErr result (λ fault. fault ≢ Fault.Writing
        → Keeps (W.contents writer.old) (W.contents writer.new)) }
{
    let input = match read_input(alloc, reader) {
        Ok(input) => input,
        Err(ReadError::Memory) => return Err(Fault::Memory),
        Err(ReadError::Reading) => return Err(Fault::Reading),
    };
    let text = make_report(alloc, &input)?;
    match write_text(writer, &text) {
        Ok(()) => Ok(()),
        Err(_) => Err(Fault::Writing),
    }
}
