//! The misses of a cache whose entries end if they are idle too long.
ghost use Rattle.std.specs.Prelude.{◌≡◌, nat_eq, None, Some, IfOk};
ghost use Rattle.std.specs.Int.NonZero.{non_zero_usize_get};
ghost use Rattle.clru_model.specs.Ages.{aged_misses};
ghost use Rattle.clru_model.specs.Requests.{hit};

use clru_curve::{IdlePass, NoMemory, NonZeroUsize};
use std::alloc::Global;

/// Returns the misses of a cache of the capacity, which starts empty and is sent the requests, each with its time, and in which a
/// page is fetched anew after more than the limit without a request.
pub fn misses_within(
    alloc: Global,
    requests: &[(u64, usize)],
    limit: usize,
    capacity: NonZeroUsize,
) -> Result<usize, NoMemory>
    ensures { IfOk result (λ n. n
        ≡ aged_misses nat_eq (hit nat_eq (non_zero_usize_get capacity)) (Some limit) None requests.now) }
{
    let mut pass = IdlePass::new(alloc, limit);
    for request in requests {
        let (page, time) = *request;
        let Ok(_) = pass.request(page, time) else {
            return Err(NoMemory);
        };
    }
    Ok(pass.into_curve().misses(capacity))
}
