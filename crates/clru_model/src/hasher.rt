//! The hash builder of caches for which none is given.
ghost use Rattle.std.specs.Hash.FoldHasher.{initial};

use std::hash::{BuildHasher, FoldHasher};

/// Builds std's `FoldHasher` with its fixed seed, so that each run of a program hashes alike.
///
/// For keys that an attacker picks, give a maker that takes a hash builder a `RandomState`.
///
/// ```rust
/// pub fn for_keys_of_others(
///     rt: &impl RandomSource,
///     alloc: Global,
///     capacity: NonZeroUsize,
/// ) -> io::Result<CLruCache<u64, u64, RandomState>> {
///     let seed = RandomState::new(rt)?;
///     Ok(CLruCache::with_hasher(alloc, capacity, seed))
/// }
/// ```
#[derive(Clone, Copy, Debug, Default)]
pub struct DefaultState;

impl BuildHasher for DefaultState {
    type Hasher = FoldHasher;

    ghost build_hasher = { λ _. initial };

    fn build_hasher(&self) -> FoldHasher {
        FoldHasher::default()
    }
}
