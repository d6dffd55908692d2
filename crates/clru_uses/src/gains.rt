//! What another way to drop could gain, among those that take in each key that is asked for.
ghost use Rattle.std.specs.Prelude.{◌≡◌, nat_eq, IfOk};
ghost use Rattle.std.specs.Int.NonZero.{non_zero_usize_get};
ghost use Rattle.clru_model.specs.Least.{IsLeast};
ghost use Rattle.clru_model.specs.Requests.{misses};

use crate::replays::misses_at;
use clru::{DefaultState, NonZeroUsize};
use clru_least::Foresight;
use std::alloc::{AllocError, Global};

/// Returns the misses of a cache on the requests, and the fewest misses of any policy with as much room that takes in each
/// requested key.
pub fn misses_and_least(
    alloc: Global,
    capacity: NonZeroUsize,
    requests: &[u64],
) -> Result<(usize, usize), AllocError>
    ensures misses { IfOk result (λ both. both.0 ≡ misses nat_eq (non_zero_usize_get capacity) requests.now) }
    ensures least { IfOk result (λ both. IsLeast nat_eq (non_zero_usize_get capacity) requests.now both.1) }
{
    let foresight = Foresight::new(alloc, requests, DefaultState)?;
    let least = foresight.least(capacity)?;
    Ok((misses_at(alloc, capacity, requests)?, least))
}
