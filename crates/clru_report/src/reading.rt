//! The loop over lines, with one kind of failure.
ghost use Rattle.std.specs.Prelude.{◌≡◌, true, false, List, ℕ, [], IfErr, IfOk};
ghost use Rattle.clru_text.specs.Faults.{is_of_input, is_of_writing};
ghost use Rattle.clru_text.specs.Lines.{lines_of};
ghost use Rattle.clru_text.specs.Readings.{IsReadBy};
ghost use Rattle.clru_text.specs.Whole.{ReadWhole};
ghost use Rattle.clru_text.specs.declared.fault.Fault.{Fault};

use clru_text::{Fault, ReadError, TakesLines, read_fault, read_lines};
use std::alloc::Allocator;
use std::io::Read;

/// Hands each line of a reader to the taker. Returns how many lines and bytes there are.
///
/// The fault of a line is returned once all is read, because it is one of the whole input; refused memory at once.
pub(crate) fn read_all<R: Read, T: TakesLines<Fault, A>, A: Allocator + Copy>(
    alloc: A,
    reader: &mut R,
    taker: &mut T,
) -> Result<(usize, usize), Fault>
    requires begun { T.since taker.old [] taker.old }
    requires unwritten { (lines : List (List ℕ)) (fault : Fault) (now : T) → T.refused taker.old lines fault now → is_of_writing fault ≡ false }
    ensures taken { IfOk result (λ found. ReadWhole (R.remaining reader.old) (R.remaining reader.new)
        (λ input. IsReadBy (T.since taker.old) input taker.new found.0 found.1)) }
    ensures refused { IfErr result (λ fault. is_of_input fault ≡ true → ReadWhole (R.remaining reader.old) (R.remaining reader.new)
        (λ input. T.refused taker.old (lines_of input) fault taker.new)) }
    ensures fault { IfErr result (λ fault. is_of_writing fault ≡ false) }
{
    match read_lines(alloc, reader, taker) {
        Ok(read) => read,
        Err(error) => Err(read_fault(error)),
    }
}

/// The same for a taker that refuses no line.
pub(crate) fn read_keys<R: Read, T: TakesLines<ReadError, A>, A: Allocator + Copy>(
    alloc: A,
    reader: &mut R,
    taker: &mut T,
) -> Result<(usize, usize), ReadError>
    requires { T.since taker.old [] taker.old }
    ensures taken { IfOk result (λ found. ReadWhole (R.remaining reader.old) (R.remaining reader.new)
        (λ input. IsReadBy (T.since taker.old) input taker.new found.0 found.1)) }
{
    match read_lines(alloc, reader, taker) {
        Ok(read) => read,
        Err(error) => Err(error),
    }
}
