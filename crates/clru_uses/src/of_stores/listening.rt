//! Loads whose caller is told what they drop.
ghost use Rattle.std.specs.Prelude.{◌≡◌, ◌⊎◌, nat_eq, length, IfOk, IsSome, IsSomeAnd};
ghost use Rattle.std.specs.Map.{lookup};
ghost use Rattle.clru_model.specs.Entries.{weighted_drops};

use clru::{DefaultState, WeightScale};
use clru_through::{Fetch, Through};
use std::alloc::Global;

/// Loads a page, and returns how many pages were forgotten for it: none if it was held, or if its value is passed on.
pub fn forgotten_for<E, R: Fetch<u64, u64, E, M>, W: WeightScale<u64, u64>, M>(
    store: &mut Through<u64, u64, E, R, DefaultState, W, Global, M>,
    page: u64,
) -> Result<usize, E>
    ensures held { IsSome (lookup (nat_eq page) store.old.cache.entries) → IfOk result (λ n. n ≡ 0) }
    ensures number { let old = store.old.cache in IfOk result (λ n. (n ≡ 0)
        ⊎ IsSomeAnd (lookup (nat_eq page) store.new.cache.entries) (λ value.
        n ≡ length (weighted_drops nat_eq (W.weight old.scale) old.capacity page value old.entries))) }
{
    // Its answer is a `usize`, so there are fewer than 2^64 values.
    let _ = store.len();
    let mut number = 0usize;
    match store.load_handing_to(page, &mut |_, _| number += 1) {
        Ok(_) => Ok(number),
        Err(error) => Err(error),
    }
}
