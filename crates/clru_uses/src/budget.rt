//! A cache within a budget of bytes.

use clru::{CLruCache, DefaultState, ZeroWeightScale};
use ration::Rationed;
use std::alloc::Global;

/// A cache that takes its memory from a heap of a fixed size, whatever its capacity is.
pub type Within<'a> = CLruCache<u64, u64, DefaultState, ZeroWeightScale, &'a Rationed<Global>>;

/// Remembers the square of a number. Where the heap has no room for one more, the number that was remembered first gives
/// way.
pub fn remember_square(squares: &mut Within, number: u64) -> Result<(), (u64, u64)> {
    let square = number.wrapping_mul(number);
    match squares.put(number, square) {
        Ok(_) => Ok(()),
        Err((number, square)) => {
            // Its place stays ready for the next entry.
            let _ = squares.pop_back();
            match squares.put(number, square) {
                Ok(_) => Ok(()),
                Err(pair) => Err(pair),
            }
        }
    }
}
