//! A sample of the lines, if there is one, and what its numbers say of all.
ghost use Rattle.std.specs.Prelude.{◌≡◌, ◌+◌, ◌^◌, ◌<◌};
ghost use Rattle.std.specs.Int.NonZero.{non_zero_usize_get};
ghost use Rattle.std.specs.Option.{option_map};
ghost use Rattle.clru_shares.specs.Passes.{next_number as next_number_by};
ghost use Rattle.clru_shares.specs.Sampled.{is_in as is_in_by, part_in as part_in_by, told_both as told_both_by, told_in as told_in_by, told_of as told_of_by};

use clru_text::{is_kept, times};
use std::num::NonZeroUsize;

/// Returns whether a line is one of the sample.
pub(crate) fn is_in(sample: Option<NonZeroUsize>, line: &[u8]) -> bool
    ensures { result ≡ is_in_by (option_map non_zero_usize_get sample) line.now }
{
    match sample {
        None => true,
        Some(one_in) => is_kept(line, one_in),
    }
}

/// Returns how many lines were kept, with one more that is or is not.
pub(crate) fn next_number(is_kept: bool, number: usize) -> usize
    requires { number + 1 < 2 ^ 64 }
    ensures { result ≡ next_number_by is_kept number }
{
    if is_kept { number + 1 } else { number }
}

/// Returns the part of a budget that is the sample's.
pub(crate) fn part_in(sample: Option<NonZeroUsize>, budget: usize) -> usize
    ensures { result ≡ part_in_by (option_map non_zero_usize_get sample) budget }
{
    match sample {
        None => budget,
        Some(one_in) => budget / one_in.get(),
    }
}

/// Returns what a number says of all, at most the bound.
pub(crate) fn told_of(sample: Option<NonZeroUsize>, bound: usize, number: usize) -> usize
    ensures { result ≡ told_of_by (option_map non_zero_usize_get sample) bound number }
{
    match sample {
        None => number,
        Some(one_in) => times(one_in, bound, number),
    }
}

/// Returns what misses, or their size, say of all. Of a sample without a miss nothing is known.
pub(crate) fn told_in(sample: Option<NonZeroUsize>, all: usize, missed: usize) -> Option<usize>
    ensures { result ≡ told_in_by (option_map non_zero_usize_get sample) all missed }
{
    match sample {
        None => Some(missed),
        Some(one_in) => {
            if missed == 0 {
                None
            } else {
                Some(times(one_in, all, missed))
            }
        }
    }
}

/// Returns what misses and their size say of all, of so many requests of this size.
pub(crate) fn told_both(
    sample: Option<NonZeroUsize>,
    requests: usize,
    size: usize,
    misses: usize,
    missed_size: usize,
) -> Option<(usize, usize)>
    ensures { result ≡ told_both_by (option_map non_zero_usize_get sample) requests size misses missed_size }
{
    match sample {
        None => Some((misses, missed_size)),
        Some(one_in) => {
            if misses == 0 {
                None
            } else {
                Some((
                    times(one_in, requests, misses),
                    times(one_in, size, missed_size),
                ))
            }
        }
    }
}
