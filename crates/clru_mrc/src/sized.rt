//! Finds where the size ends that a line begins with: in its first eight bytes, or as `size_of` does.

use clru_text::{size_of, tail_of};

// The top bit of each byte.
const TOPS: u64 = 0x8080_8080_8080_8080;

// The digit 0 in each byte.
const ZEROS: u64 = 0x3030_3030_3030_3030;

// Added to a byte below 128, it sets the top bit if that is above 9.
const ABOVE_NINE: u64 = 0x7676_7676_7676_7676;

/// The line from its first blank on, as `tail_of` returns it, if `size_of` finds a size before.
#[inline]
pub(crate) fn behind_size(line: &[u8]) -> Option<&[u8]> {
    match behind_short_size(line) {
        Some(behind) => Some(behind),
        None => behind_any_size(line),
    }
}

// The same for a size of 1 to 7 digits in a line of eight bytes or more; else `None`.
#[inline]
fn behind_short_size(line: &[u8]) -> Option<&[u8]> {
    let word = u64::from_le_bytes(*line.first_chunk::<8>()?);
    let digits = word ^ ZEROS;
    // (the lowest of these bits is the top one of the first byte that is no digit)
    let others = (digits | digits.wrapping_add(ABOVE_NINE)) & TOPS;
    let bits = others.trailing_zeros() / 8 % 8 * 8;
    if bits == 0 || word >> bits & 0xff != 0x20 {
        return None;
    }
    line.get((bits / 8) as usize..)
}

#[inline(never)]
fn behind_any_size(line: &[u8]) -> Option<&[u8]> {
    let _size = size_of(line)?;
    Some(tail_of(line))
}
