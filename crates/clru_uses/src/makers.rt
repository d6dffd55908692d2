//! Callers of the makers and of `extend`, who know what the cache holds.
ghost use Rattle.std.specs.Prelude.{◌≡◌, [], ◌∷◌, nat_eq, IfOk, OnOk};
ghost use Rattle.std.specs.Int.NonZero.{non_zero_usize_get};
ghost use Rattle.clru.specs.Cache.{cache};
ghost use Rattle.clru.specs.Collecting.{put_all};

use clru::{CLruCache, CLruCacheConfig, NoMemory, NonZeroUsize, WeightScale};
use std::alloc::Global;
use std::hash::{BuildHasher, Hash};

/// Makes the configured cache, without its reserve where there is no memory for it: that always succeeds.
pub fn make_anyway<K: Eq + Hash, V, S: BuildHasher, W: WeightScale<K, V>>(
    alloc: Global,
    config: CLruCacheConfig<K, V, S, W>,
) -> CLruCache<K, V, S, W>
where
    K: Drop,
    V: Drop,
    S: Drop,
    W: Drop,
    ensures { result ≡ cache [] config.capacity config.scale result.places }
{
    let config = match CLruCache::with_config(alloc, config) {
        Ok(cache) => return cache,
        Err(config) => config,
    };
    match CLruCache::with_config(alloc, config.with_memory(0)) {
        Ok(cache) => cache,
        Err(_) => unreachable!(),
    }
}

/// Makes a cache with a scale and a hash builder of one's own.
pub fn make_weighed<K: Eq + Hash, V, S: BuildHasher, W: WeightScale<K, V>>(
    alloc: Global,
    capacity: NonZeroUsize,
    hash_builder: S,
    scale: W,
) -> CLruCache<K, V, S, W>
where
    K: Drop,
    V: Drop,
    S: Drop,
    W: Drop,
    ensures { result ≡ cache [] (non_zero_usize_get capacity) scale 0 }
{
    let config = CLruCacheConfig::new(capacity)
        .with_hasher(hash_builder)
        .with_scale(scale);
    match CLruCache::with_config(alloc, config) {
        Ok(cache) => cache,
        Err(_) => unreachable!(),
    }
}

/// Remembers the sizes of pages, each in turn.
pub fn remember_all(
    sizes: &mut CLruCache<u64, u64>,
    pages: Vec<(u64, u64)>,
) -> Result<(), (u64, u64)>
    ensures stored { OnOk result (sizes.new.entries ≡ put_all nat_eq sizes.old.capacity pages.items sizes.old.entries) }
{
    sizes.extend(pages)
}

/// Makes a cache of three puts, of which two are of one page.
pub fn three_looks<S: BuildHasher + Drop>(
    alloc: Global,
    hash_builder: S,
) -> Result<CLruCache<u64, u64, S>, NoMemory>
    ensures entries { IfOk result (λ looks. looks.entries ≡ (1, 30) ∷ (2, 20) ∷ []) }
    ensures capacity { IfOk result (λ looks. looks.capacity ≡ 2) }
{
    let Ok(looks) = Vec::from_array(alloc, [(1, 10), (2, 20), (1, 30)]) else {
        return Err(NoMemory);
    };
    CLruCache::from_iter(alloc, hash_builder, looks)
}
