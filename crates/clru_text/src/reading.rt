//! The loop over the lines of a reader, whatever is done at each.
ghost use Rattle.std.specs.Prelude.{◌≡◌, ◌+◌, List, ℕ, [], ◌∷◌, ◌++◌, length, IfErr, IfOk, OnOk};
ghost use Rattle.clru_text.specs.Keys.{line_of};
ghost use Rattle.clru_text.specs.Lines.{lines_of};
ghost use Rattle.clru_text.specs.Readings.{IsReadBy};
ghost use Rattle.clru_text.specs.Whole.{ReadWhole};

use crate::buffer::LineBuffer;
use crate::input::ReadError;
use crate::lines::OwnedKey;
use std::alloc::{AllocError, Allocator};
use std::io::Read;

/// What is done at each line of a reader. A line may be refused for a reason.
pub trait TakesLines<F, A: Allocator> {
    // These lines were taken since the first of both states.
    ghost since: { Self → List (List ℕ) → Self → Type 0 };

    // Of these lines one was refused for this reason, and those before it were taken since the first of both states.
    ghost refused: { Self → List (List ℕ) → F → Self → Type 0 };

    /// Takes one more line, of this number, counted from 1. If it is refused, so is the input, whatever follows.
    ///
    /// `behind` is what was read behind the line, for a look ahead.
    ///
    /// Fails if memory is refused.
    fn take_line(
        &mut self,
        line: &OwnedKey<A>,
        number: usize,
        behind: &[u8],
    ) -> Result<Result<(), F>, AllocError>
        requires { (start : Self) × (lines : List (List ℕ)) × since start lines self.old × (number ≡ length lines + 1) }
        ensures taken { (start : Self) (lines : List (List ℕ)) → since start lines self.old → number ≡ length lines + 1
            → IfOk result (λ taken. OnOk taken (since start (lines ++ line_of line.now ∷ []) self.new)) }
        ensures refused { (start : Self) (lines rest : List (List ℕ)) → since start lines self.old → number ≡ length lines + 1
            → IfOk result (λ taken. IfErr taken (λ reason. refused start (lines ++ line_of line.now ∷ rest) reason self.new)) };
}

/// Hands each line of a reader to the taker. Returns how many lines and bytes there are, or why a line was refused.
///
/// What refuses a line is told once all is read, since it is said of the whole input; refused memory at once. Reads are those of
/// [`LineBuffer::read_line`].
///
/// Returns `Reading` if a read failed, and `Memory` if memory was refused, by the taker too.
/// Cost: that of `LineBuffer::read_line` and of `take_line` for each line.
pub fn read_lines<R: Read, F: Copy, T: TakesLines<F, A>, A: Allocator + Copy>(
    alloc: A,
    reader: &mut R,
    taker: &mut T,
) -> Result<Result<(usize, usize), F>, ReadError>
    requires { T.since taker.old [] taker.old }
    ensures taken { IfOk result (λ read. IfOk read (λ found. ReadWhole (R.remaining reader.old) (R.remaining reader.new)
        (λ input. IsReadBy (T.since taker.old) input taker.new found.0 found.1))) }
    ensures refused { IfOk result (λ read. IfErr read (λ reason. ReadWhole (R.remaining reader.old) (R.remaining reader.new)
        (λ input. T.refused taker.old (lines_of input) reason taker.new))) }
{
    let mut buffer = LineBuffer::new(alloc);
    let mut line = OwnedKey(Vec::new(alloc));
    let mut number = 0;
    let mut taken = Ok(());
    'lines: while buffer.read_line(reader, &mut line.0)? {
        number += 1;
        if taken.is_ok() {
            let Ok(next) = taker.take_line(&line, number, buffer.buffer()) else {
                return Err(ReadError::Memory);
            };
            taken = next;
        }
    }
    match taken {
        Ok(()) => Ok(Ok((number, buffer.bytes_read()))),
        Err(reason) => Ok(Err(reason)),
    }
}
