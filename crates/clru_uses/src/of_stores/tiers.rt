//! A store in front of a source that is itself a store.
ghost use Rattle.std.specs.Prelude.{◌≡◌, ℕ, Some, nat_eq, Result, IfOk};
ghost use Rattle.clru_through.specs.Steps.{Loads};
ghost use Rattle.clru_through.specs.declared.answer.Loaded.{Loaded};

use super::value_of;
use clru::{DefaultState, WeightScale};
use clru_through::{Source, Through};
use std::alloc::Global;

/// A store as a source: a fetch is one load of it.
#[derive(Drop)]
pub struct Tier<E, R: Source<u64, u64, E>, W: WeightScale<u64, u64>> {
    pub store: Through<u64, u64, E, R, DefaultState, W, Global>,
}

impl<E, R: Source<u64, u64, E>, W: WeightScale<u64, u64>> Source<u64, u64, E> for Tier<E, R, W> {
    ghost value = { λ tier. R.value tier.store.source };

    ghost fetches = { λ old x _ new. (loaded : Result (Loaded ℕ) E)
        × Loads nat_eq (W.weight old.store.cache.scale) R.fetches old.store x loaded new.store };

    fn fetch(&mut self, key: &u64) -> Result<u64, E> {
        value_of(&mut self.store, *key)
    }

    ghost same = { λ tier. R.same tier.store.source };
}

/// Returns the value of a page through two stores: it is that of the source behind both.
pub fn value_through_two<
    E,
    R: Source<u64, u64, E>,
    W: WeightScale<u64, u64>,
    U: WeightScale<u64, u64>,
>(
    store: &mut Through<u64, u64, E, Tier<E, R, W>, DefaultState, U, Global>,
    page: u64,
) -> Result<u64, E>
    ensures { IfOk result (λ value. R.value store.old.source.store.source page ≡ Some value) }
{
    value_of(store, page)
}
