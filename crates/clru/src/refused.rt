//! Refusals as errors of std.
ghost use Rattle.std.specs.Prelude.{◌≡◌};
ghost use Rattle.std.specs.IoError.{error_kind};

use std::io;
use std::io::ErrorKind;

/// Turns a refusal for want of memory into an error of input and output, whatever came back with it, which is dropped.
///
/// Call it in a closure, because passed by name it gets no proof in another crate. A pair that is too heavy would be called want
/// of memory too.
/// Cost: none but the drop.
///
/// ```rust
/// let put = sizes.put(page, size).map_err(|pair| out_of_memory(pair))?;
/// ```
pub fn out_of_memory<E: Drop>(refused: E) -> io::Error
    ensures { error_kind result ≡ ErrorKind.OutOfMemory }
{
    drop(refused);
    io::Error::from(ErrorKind::OutOfMemory)
}
