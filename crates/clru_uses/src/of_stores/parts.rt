//! A store that is made, taken apart and made again.
ghost use Rattle.std.specs.Prelude.{◌≡◌, []};

use clru::{CLruCache, DefaultState, NonZeroUsize, WeightScale};
use clru_through::{Source, Through};
use std::alloc::Global;

/// Creates an empty store before a source.
pub fn store_before<E, R: Source<u64, u64, E>>(
    alloc: Global,
    capacity: NonZeroUsize,
    source: R,
) -> Through<u64, u64, E, R>
    ensures { result.cache.entries ≡ [] }
{
    Through::new(CLruCache::new(alloc, capacity), source)
}

/// Takes a store apart and makes it again: it is the same.
pub fn made_again<E: Drop, R: Source<u64, u64, E>, W: WeightScale<u64, u64>>(
    store: Through<u64, u64, E, R, DefaultState, W>,
) -> Through<u64, u64, E, R, DefaultState, W>
    ensures { result ≡ store }
{
    let (cache, source) = store.into_parts();
    Through::new(cache, source)
}
