//! The misses of a list that is cut, or lacks some keys, by `law_parts` alone.
ghost use Rattle.std.specs.Prelude.{◌≡◌, ◌+◌, ◌%◌, ◌≤◌, ◌++◌, nat_eq, IfOk};
ghost use Rattle.std.specs.Int.NonZero.{non_zero_usize_get};
ghost use Rattle.clru_model.specs.Requests.{misses};

use crate::curves::misses_of;
use clru_curve::{NoMemory, NonZeroUsize, law_bounds, law_parts};
use std::alloc::Global;

/// Returns the misses of two logs, each counted from an empty cache. Both in a row have no more, and at most the capacity fewer.
pub fn misses_of_two(
    alloc: Global,
    first: &[u64],
    second: &[u64],
    capacity: NonZeroUsize,
) -> Result<usize, NoMemory>
    ensures cut { IfOk result (λ n. misses nat_eq (non_zero_usize_get capacity) (first.now ++ second.now) ≤ n) }
    ensures cut_few { IfOk result (λ n. n
        ≤ misses nat_eq (non_zero_usize_get capacity) (first.now ++ second.now) + non_zero_usize_get capacity) }
{
    law_bounds::<u64>();
    law_parts::<u64>();
    let of_first = misses_of(alloc, first, capacity)?;
    let of_second = misses_of(alloc, second, capacity)?;
    Ok(of_first + of_second)
}

/// Returns the misses of a sample, one page in eight by its number: no more than all pages have.
pub fn misses_of_sample(
    alloc: Global,
    pages: Vec<u64>,
    capacity: NonZeroUsize,
) -> Result<usize, NoMemory>
    ensures { IfOk result (λ n. n ≤ misses nat_eq (non_zero_usize_get capacity) pages.items) }
{
    law_parts::<u64>();
    let mut sample = pages;
    sample.retain(
        |page: &u64| -> bool
            ensures { result ≡ nat_eq (page.now % 8) 0 }
        { *page % 8 == 0 },
    );
    misses_of(alloc, &sample, capacity)
}
