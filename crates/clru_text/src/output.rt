//! Writing a whole text.
ghost use Rattle.std.specs.Prelude.{◌≡◌, ℕ, true, take, IfErr, OnOk};
ghost use Rattle.std.specs.Io.KnownBytes.{Appends};
ghost use Rattle.clru_text.specs.Faults.{is_of_writing};

use crate::fault::{Fault, write_fault};
use std::io::{self, Error, ErrorKind, Write};

/// Writes the text, offering each call all that is left of it, and then flushes once.
///
/// Ends at the first call that returns an error, whatever the kind, and returns it. A write that takes nothing is an error of
/// the kind `WriteZero`. For an empty text it only flushes.
pub fn write_text<W: Write>(writer: &mut W, text: &[u8]) -> io::Result<()>
    ensures written { OnOk result (Appends (W.contents writer.old) (W.contents writer.new) text.now) }
    ensures cut_short { IfErr result (λ _. (n : ℕ)
        × Appends (W.contents writer.old) (W.contents writer.new) (take n text.now)) }
{
    let mut left = text;
    'writes: while !left.is_empty() {
        match writer.write(left) {
            Ok(0) => return Err(Error::from(ErrorKind::WriteZero)),
            Ok(count) => left = &left[count..],
            Err(error) => return Err(error),
        }
    }
    writer.flush()?;
    Ok(())
}

/// Writes the text whole, as `write_text` does, or says why not. A pipe that its reader closed has a fault of its
/// own.
pub fn write_report<W: Write>(writer: &mut W, text: &[u8]) -> Result<(), Fault>
    ensures written { OnOk result (Appends (W.contents writer.old) (W.contents writer.new) text.now) }
    ensures cut_short { IfErr result (λ _. (n : ℕ)
        × Appends (W.contents writer.old) (W.contents writer.new) (take n text.now)) }
    ensures fault { IfErr result (λ fault. is_of_writing fault ≡ true) }
{
    match write_text(writer, text) {
        Ok(()) => Ok(()),
        Err(error) => Err(write_fault(&error)),
    }
}
