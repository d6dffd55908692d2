//! `CLruCacheConfig`: what a cache is made from. A clause sees it as its `capacity`, `hash_builder`, `reserve` and `scale`.
ghost use Rattle.std.specs.Prelude.{◌≡◌};
ghost use Rattle.std.specs.Int.NonZero.{non_zero_usize_get};
ghost use Rattle.clru.specs.Config.{config};

use clru_model::{DefaultState, WeightScale, ZeroWeightScale};
use std::hash::BuildHasher;
use std::marker::{Model, PhantomData};
use std::num::NonZeroUsize;

/// The capacity, hash builder, reserve and scale from which `CLruCache::with_config` makes a cache.
///
/// Its calls take no memory.
///
/// ```rust
/// let config = CLruCacheConfig::new(capacity)
///     .with_hasher(hash_builder)
///     .with_scale(scale);
/// match CLruCache::with_config(alloc, config) {
///     Ok(cache) => cache,
///     Err(_) => unreachable!(),
/// }
/// ```
#[derive(Drop)]
pub struct CLruCacheConfig<K, V, S = DefaultState, W = ZeroWeightScale> {
    pub(crate) capacity: NonZeroUsize,
    pub(crate) hash_builder: S,
    pub(crate) reserve: usize,
    pub(crate) scale: W,
    pub(crate) pairs: PhantomData<(K, V)>,
}

impl<K, V, S, W> Model for CLruCacheConfig<K, V, S, W> {
    ghost use Rattle.std.specs.Int.NonZero.{non_zero_usize_get};
    ghost use Rattle.clru.specs.Config.{Config, config, config_code};

    ghost Value = { Config S W };

    ghost coded = { config_code S.code W.code };

    ghost view = { λ c. config (non_zero_usize_get c.capacity) c.hash_builder c.reserve c.scale };
}

impl<K, V> CLruCacheConfig<K, V, DefaultState, ZeroWeightScale> {
    /// Creates the configuration of a cache that holds at most `capacity` entries, without a reserve.
    /// Cost: no request for memory.
    pub fn new(capacity: NonZeroUsize) -> Self
        ensures { result ≡ config (non_zero_usize_get capacity) (record {}) 0 (record {}) }
    {
        CLruCacheConfig {
            capacity,
            hash_builder: DefaultState,
            reserve: 0,
            scale: ZeroWeightScale,
            pairs: PhantomData,
        }
    }
}

impl<K, V, S: BuildHasher, W: WeightScale<K, V>> CLruCacheConfig<K, V, S, W> {
    /// Sets the hash builder of the cache.
    /// Cost: no request for memory.
    pub fn with_hasher<O: BuildHasher>(self, hash_builder: O) -> CLruCacheConfig<K, V, O, W>
    where
        S: Drop,
        ensures { result ≡ config self.capacity hash_builder self.reserve self.scale }
    {
        CLruCacheConfig {
            capacity: self.capacity,
            hash_builder,
            reserve: self.reserve,
            scale: self.scale,
            pairs: PhantomData,
        }
    }

    /// Reserves memory for `reserve` entries, or for as many as the capacity if that is less.
    /// Cost: no request for memory.
    pub fn with_memory(mut self, reserve: usize) -> Self
        ensures { result ≡ config self.capacity self.hash_builder reserve self.scale }
    {
        self.reserve = reserve;
        self
    }

    /// Sets the scale that weighs the pairs of the cache.
    /// Cost: no request for memory.
    pub fn with_scale<O: WeightScale<K, V>>(self, scale: O) -> CLruCacheConfig<K, V, S, O>
    where
        W: Drop,
        ensures { result ≡ config self.capacity self.hash_builder self.reserve scale }
    {
        let (capacity, reserve) = (self.capacity, self.reserve);
        CLruCacheConfig {
            capacity,
            hash_builder: self.hash_builder,
            reserve,
            scale,
            pairs: PhantomData,
        }
    }
}
