//! A hash builder with a random seed.

use clru::{CLruCache, NonZeroUsize};
use std::alloc::Global;
use std::hash::RandomState;
use std::io;
use std::random::RandomSource;

/// Makes a cache for strangers' keys: without the seed nobody can pick keys that hash alike.
pub fn for_keys_of_others(
    rt: &impl RandomSource,
    alloc: Global,
    capacity: NonZeroUsize,
) -> io::Result<CLruCache<u64, u64, RandomState>> {
    let seed = RandomState::new(rt)?;
    Ok(CLruCache::with_hasher(alloc, capacity, seed))
}
