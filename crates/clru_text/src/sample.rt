//! A sample of the requests: which lines are kept, and what a number of these says of all.
ghost use Rattle.std.specs.Prelude.{◌≡◌};
ghost use Rattle.std.specs.Int.NonZero.{non_zero_usize_get};
ghost use Rattle.clru_text.specs.Samples.{fnv, is_kept as is_kept_by, times as times_of};

use std::num::NonZeroUsize;

// Both numbers of FNV-1a for 64 bits.
const BASIS: u64 = 14695981039346656037;

const PRIME: u64 = 1099511628211;

/// Returns whether all requests of a key are kept, where one key in so many is. One in one keeps each key and needs no hash.
/// Cost: a step for each byte; no request for memory.
pub fn is_kept(line: &[u8], one_in: NonZeroUsize) -> bool
    ensures { result ≡ is_kept_by (non_zero_usize_get one_in) line.now }
{
    one_in.get() == 1 || fnv_of(line) % one_in.get() as u64 == 0
}

// The hash FNV-1a: no seed, so that a log has the same sample each time.
fn fnv_of(line: &[u8]) -> u64
    ensures { result ≡ fnv line.now }
{
    let mut hash = BASIS;
    for byte in line {
        hash = (hash ^ u64::from(*byte)).wrapping_mul(PRIME);
    }
    hash
}

/// Returns so many times a number, and at most the bound: what a number of the kept requests says of all.
/// Cost: none.
pub fn times(one_in: NonZeroUsize, bound: usize, number: usize) -> usize
    ensures { result ≡ times_of (non_zero_usize_get one_in) bound number }
{
    number.saturating_mul(one_in.get()).min(bound)
}
