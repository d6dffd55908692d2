//! A choice of a capacity.
ghost use Rattle.std.specs.Prelude.{◌≡◌, nat_eq, IfOk};
ghost use Rattle.std.specs.Int.NonZero.{non_zero_usize_get};
ghost use Rattle.clru_model.specs.Requests.{misses};

use clru::{DefaultState, NonZeroUsize, replay};
use std::alloc::{AllocError, Global};

/// Returns the misses of a cache of the capacity, which starts empty and is sent the requests.
pub fn misses_at(
    alloc: Global,
    capacity: NonZeroUsize,
    requests: &[u64],
) -> Result<usize, AllocError>
    ensures { IfOk result (λ n. n ≡ misses nat_eq (non_zero_usize_get capacity) requests.now) }
{
    let keys = Vec::from_slice(alloc, requests)?;
    match replay(alloc, capacity, keys, DefaultState) {
        Ok(answer) => Ok(answer.misses),
        Err(_) => Err(AllocError),
    }
}
