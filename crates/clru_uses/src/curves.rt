//! The misses at every capacity.
ghost use Rattle.std.specs.Prelude.{◌≡◌, nat_eq, IfOk};
ghost use Rattle.std.specs.Int.NonZero.{non_zero_usize_get};
ghost use Rattle.clru_model.specs.Requests.{misses};

use clru_curve::{DefaultState, NoMemory, NonZeroUsize, miss_curve};
use std::alloc::Global;

/// Returns the misses of a cache of the capacity, which starts empty and is sent the requests.
pub fn misses_of(alloc: Global, requests: &[u64], capacity: NonZeroUsize) -> Result<usize, NoMemory>
    ensures { IfOk result (λ n. n ≡ misses nat_eq (non_zero_usize_get capacity) requests.now) }
{
    let curve = miss_curve(alloc, requests, DefaultState)?;
    Ok(curve.misses(capacity))
}
