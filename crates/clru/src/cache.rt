//! `CLruCache`, and the calls that read the whole of it. A clause sees a cache as its `entries`, the most recently used
//! first, its `capacity`, its `scale` and its `places`, the number of entries for which memory was found.
ghost use Rattle.std.specs.Prelude.{◌≡◌, ◌+◌, ◌↔◌, [], length, IsTrue};
ghost use Rattle.clru_model.specs.Entries.{size_of, weight_of};
ghost use Rattle.clru.specs.Cache.{IsValid};

mod answer;
mod ends;
mod extend;
mod get;
mod modify;
mod new;
mod parts;
mod put;
mod remove;
mod resize;
mod retain;
mod room;
mod walk;

pub use answer::Put;
use clru_linked_map::LinkedHashMap;
use clru_model::{DefaultState, WeightScale, ZeroWeightScale};
use std::alloc::{Allocator, Global};
use std::hash::{BuildHasher, Hash};
use std::marker::Model;

/// A weighted LRU cache: the number of its entries plus their total weight never exceeds the capacity.
///
/// A cache of pages:
///
/// ```rust
/// pub fn remember(
///     sizes: &mut CLruCache<u64, u64>,
///     page: u64,
///     size: u64,
/// ) -> Result<Option<(u64, u64)>, (u64, u64)>
///     ensures stored { OnOk result (lookup (nat_eq page) sizes.new.entries ≡ Some size) }
///     ensures kept { OnErr result (sizes.new.entries ≡ sizes.old.entries) }
/// {
///     match sizes.put(page, size) {
///         Ok(put) => Ok(put.dropped),
///         Err(pair) => Err(pair),
///     }
/// }
/// ```
pub struct CLruCache<
    K: Eq + Hash,
    V,
    S: BuildHasher = DefaultState,
    W: WeightScale<K, V> = ZeroWeightScale,
    A: Allocator + Copy = Global,
> {
    pub(crate) map: LinkedHashMap<K, V, S, A>,
    pub(crate) scale: W,
    // What the entries weigh together.
    pub(crate) total: usize,
}

impl<K: Eq + Hash + Drop, V: Drop, S: BuildHasher + Drop, W: WeightScale<K, V> + Drop, A> Drop
    for CLruCache<K, V, S, W, A>
where
    A: Allocator + Copy,
{
    fn drop(self) {
        let CLruCache {
            map,
            scale,
            total: _,
        } = self;
        drop(map);
        drop(scale);
    }
}

impl<K: Eq + Hash, V, S: BuildHasher, W: WeightScale<K, V>, A: Allocator + Copy> Model
    for CLruCache<K, V, S, W, A> {
    ghost use Rattle.clru.specs.Cache.{Cache, cache, cache_code};
    ghost use Rattle.clru.specs.Fields.{IsCache};

    ghost Value = { Cache K V W };

    ghost coded = { cache_code K.code V.code W.code };

    ghost view = { λ c. cache c.map.entries c.map.capacity c.scale c.map.places };

    ghost invariant = { λ c. IsCache K.eq (W.weight c.scale) c.map c.total };
}

impl<K: Eq + Hash, V, S: BuildHasher, W: WeightScale<K, V>, A> CLruCache<K, V, S, W, A>
where
    A: Allocator + Copy,
{
    /// Returns the number of entries.
    /// Cost: a read.
    pub fn len(&self) -> usize
        ensures len { result ≡ length self.now.entries }
        ensures valid { IsValid K.eq (W.weight self.now.scale) self.now }
    {
        self.map.len()
    }

    /// Returns the bound on the number of entries plus their total weight.
    /// Cost: a read.
    pub fn capacity(&self) -> usize
        ensures capacity { result ≡ self.now.capacity }
        ensures valid { IsValid K.eq (W.weight self.now.scale) self.now }
    {
        self.map.capacity()
    }

    /// Returns the total weight of the entries.
    /// Cost: a read.
    pub fn weight(&self) -> usize
        ensures weight { result ≡ weight_of (W.weight self.now.scale) self.now.entries }
        ensures valid { IsValid K.eq (W.weight self.now.scale) self.now }
    {
        // Read for its clause alone.
        let _capacity = self.map.capacity();
        self.total
    }

    /// Returns the number of entries plus their total weight, which the capacity bounds.
    /// Cost: a read.
    pub fn size(&self) -> usize
        ensures size { result ≡ size_of (W.weight self.now.scale) self.now.entries }
        ensures valid { IsValid K.eq (W.weight self.now.scale) self.now }
    {
        // Read for its clause alone.
        let _capacity = self.map.capacity();
        let len = self.map.len();
        len + self.total
    }

    /// Returns whether there is no entry.
    /// Cost: a read.
    pub fn is_empty(&self) -> bool
        ensures { IsTrue result ↔ (self.now.entries ≡ []) }
    {
        self.len() == 0
    }

    /// Returns whether the number of entries plus their total weight is the capacity.
    /// Cost: a read.
    pub fn is_full(&self) -> bool
        ensures { IsTrue result ↔ (size_of (W.weight self.now.scale) self.now.entries ≡ self.now.capacity) }
    {
        self.size() == self.map.capacity()
    }
}
