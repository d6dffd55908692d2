//! From the reader to the writer.
ghost use Rattle.std.specs.Prelude.{◌≡◌, ℕ, List, true, false, take, string_bytes, IfErr, OnOk};
ghost use Rattle.std.specs.Io.KnownBytes.{Appends, Keeps};
ghost use Rattle.clru_text.specs.Faults.{is_of_input, is_of_writing};
ghost use Rattle.clru_text.specs.Whole.{ReadWhole};
ghost use Rattle.clru_report.specs.Refusals.{IsRefused};
ghost use Rattle.clru_report.specs.Report.{IsReport};

use crate::report::make_report;
use clru_text::{Fault, Options, write_report};
use std::alloc::Allocator;
use std::hash::BuildHasher;
use std::io::{Read, Write};

/// Reads the whole input, and then writes its report. Lines are hashed with `hash_builder`: the report is the same under each
/// that is lawful.
pub fn run<R: Read, W: Write, S: BuildHasher + Copy, A: Allocator + Copy>(
    alloc: A,
    options: &Options<A>,
    reader: &mut R,
    writer: &mut W,
    hash_builder: S,
) -> Result<(), Fault>
    // The writer got a report of the whole input.
    ensures written { OnOk result (ReadWhole (R.remaining reader.old) (R.remaining reader.new)
        (λ input. (text : List ℕ) × IsReport options.now input text
        × Appends (W.contents writer.old) (W.contents writer.new) text)) }
    // The writer got a beginning of a report of the whole input.
    ensures cut_short { IfErr result (λ fault. is_of_writing fault ≡ true
        → ReadWhole (R.remaining reader.old) (R.remaining reader.new)
        (λ input. (text : List ℕ) × IsReport options.now input text
        × (n : ℕ) × Appends (W.contents writer.old) (W.contents writer.new) (take n text))) }
    // The input, or a capacity beside it, is not what sizes want, for the reason that the fault says.
    ensures refused { IfErr result (λ fault. is_of_input fault ≡ true
        → ReadWhole (R.remaining reader.old) (R.remaining reader.new) (λ input. IsRefused fault options.now input)) }
    // Any fault but those of writing comes before the first write.
    ensures silent { IfErr result (λ fault. is_of_writing fault ≡ false
        → Keeps (W.contents writer.old) (W.contents writer.new)) }
{
    let text = match make_report(alloc, options, reader, hash_builder) {
        Ok(text) => text,
        Err(fault) => return Err(fault),
    };
    write_report(writer, text.as_bytes())
}
