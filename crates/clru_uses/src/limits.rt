//! Values that are made and changed by closures that may fail.
ghost use Rattle.std.specs.Prelude.{◌≡◌, Some, nat_eq, IfOk};
ghost use Rattle.std.specs.Map.{lookup};

use clru::{CLruCache, TryPutError};

/// A size would pass the largest number.
#[derive(Debug, Drop, PartialEq, Eq)]
pub struct TooLarge;

/// Adds to the size of a page, and returns the sum. A look-up then finds it. If the sum is too large, the page keeps the size
/// that it had.
pub fn grow(
    sizes: &mut CLruCache<u64, u64>,
    page: u64,
    bytes: u64,
) -> Result<u64, TryPutError<u64, u64, TooLarge>>
    ensures stored { IfOk result (λ size. lookup (nat_eq page) sizes.new.entries ≡ Some size) }
{
    let add = |_: &u64, size: &mut u64, bytes| match size.checked_add(bytes) {
        Some(sum) => {
            *size = sum;
            Ok(())
        }
        None => Err(TooLarge),
    };
    match sizes.try_put_or_modify(page, |_, bytes| Ok(bytes), add, bytes) {
        Ok(size) => Ok(*size),
        Err(refusal) => Err(refusal),
    }
}
