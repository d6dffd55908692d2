//! The makers.
ghost use Rattle.std.specs.Prelude.{◌≡◌, ◌<◌, ◌^◌, [], min, IfOk, IfErr, IsOk, OnOk};
ghost use Rattle.std.specs.Int.NonZero.{non_zero_usize_get};
ghost use Rattle.clru.specs.Cache.{cache};

use crate::cache::CLruCache;
use crate::config::CLruCacheConfig;
use clru_linked_map::LinkedHashMap;
use clru_list::NoMemory;
use clru_model::{DefaultState, WeightScale, ZeroWeightScale};
use std::alloc::Allocator;
use std::hash::{BuildHasher, Hash};
use std::num::NonZeroUsize;

impl<K: Eq + Hash, V, A: Allocator + Copy> CLruCache<K, V, DefaultState, ZeroWeightScale, A> {
    /// Creates a cache that holds at most `capacity` entries.
    /// Cost: no request for memory.
    ///
    /// The allocator may be a reference, as to a heap of a fixed size, which then bounds the bytes:
    ///
    /// ```rust
    /// let heap = Rationed::new(rt.alloc());
    /// heap.limit_bytes(4096);
    /// let mut squares = CLruCache::new(&heap, NonZeroUsize::MAX);
    /// ```
    pub fn new(alloc: A, capacity: NonZeroUsize) -> Self
        ensures { result ≡ cache [] (non_zero_usize_get capacity) (record {}) 0 }
    {
        CLruCache::with_hasher(alloc, capacity, DefaultState)
    }

    /// Creates a cache that holds at most `capacity` entries, with memory for `reserve` of them, or for all if `capacity`
    /// is less.
    /// Cost: two requests for memory and a write of each bucket, or none of either without a reserve.
    pub fn with_memory(alloc: A, capacity: NonZeroUsize, reserve: usize) -> Result<Self, NoMemory>
        ensures empty { let size = non_zero_usize_get capacity in
            IfOk result (λ c. c ≡ cache [] size (record {}) (min reserve size)) }
        ensures never_refused { reserve ≡ 0 → IsOk result }
        ensures countable { OnOk result (min reserve (non_zero_usize_get capacity) < 2 ^ 63) }
    {
        match LinkedHashMap::with_memory(alloc, capacity.get(), DefaultState, reserve) {
            Ok(map) => Ok(CLruCache::empty(map, ZeroWeightScale)),
            Err(_) => Err(NoMemory),
        }
    }
}

impl<K: Eq + Hash, V, S: BuildHasher, A: Allocator + Copy> CLruCache<K, V, S, ZeroWeightScale, A> {
    /// Creates a cache that holds at most `capacity` entries and hashes keys with `hash_builder`.
    /// Cost: no request for memory.
    pub fn with_hasher(alloc: A, capacity: NonZeroUsize, hash_builder: S) -> Self
        ensures { result ≡ cache [] (non_zero_usize_get capacity) (record {}) 0 }
    {
        CLruCache::empty(
            LinkedHashMap::new(alloc, capacity.get(), hash_builder),
            ZeroWeightScale,
        )
    }
}

impl<K: Eq + Hash, V, W: WeightScale<K, V>, A> CLruCache<K, V, DefaultState, W, A>
where
    A: Allocator + Copy,
{
    /// Creates a cache in which the number of entries plus their weight by `scale` is at most `capacity`.
    /// Cost: no request for memory.
    pub fn with_scale(alloc: A, capacity: NonZeroUsize, scale: W) -> Self
        ensures { result ≡ cache [] (non_zero_usize_get capacity) scale 0 }
    {
        CLruCache::empty(
            LinkedHashMap::new(alloc, capacity.get(), DefaultState),
            scale,
        )
    }
}

impl<K: Eq + Hash, V, S: BuildHasher, W: WeightScale<K, V>, A> CLruCache<K, V, S, W, A>
where
    A: Allocator + Copy,
{
    /// Creates a cache with the capacity, hash builder and scale of its configuration, and with memory for as many entries as
    /// its reserve says, or for `capacity` entries if that is less. If memory is refused, the call returns the
    /// configuration.
    /// Cost: two requests for memory and a write of each bucket, or none of either without a reserve.
    pub fn with_config(
        alloc: A,
        config: CLruCacheConfig<K, V, S, W>,
    ) -> Result<Self, CLruCacheConfig<K, V, S, W>>
        ensures empty { IfOk result (λ c.
            c ≡ cache [] config.capacity config.scale (min config.reserve config.capacity)) }
        ensures refused { IfErr result (λ back. back ≡ config) }
        ensures never_refused { config.reserve ≡ 0 → IsOk result }
        ensures countable { OnOk result (min config.reserve config.capacity < 2 ^ 63) }
    {
        let CLruCacheConfig {
            capacity,
            hash_builder,
            reserve,
            scale,
            pairs,
        } = config;
        match LinkedHashMap::with_memory(alloc, capacity.get(), hash_builder, reserve) {
            Ok(map) => Ok(CLruCache::empty(map, scale)),
            Err(hash_builder) => Err(CLruCacheConfig {
                capacity,
                hash_builder,
                reserve,
                scale,
                pairs,
            }),
        }
    }

    fn empty(map: LinkedHashMap<K, V, S, A>, scale: W) -> Self
        requires none { map.entries ≡ [] }
        requires some { 0 < map.capacity }
        ensures { result ≡ cache [] map.capacity scale map.places }
    {
        CLruCache {
            map,
            scale,
            total: 0,
        }
    }
}
