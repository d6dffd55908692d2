//! The calls that take an entry out. They ask for no memory, and the places stay.
ghost use Rattle.std.specs.Prelude.{◌≡◌, ◌-◌, [], drop, length, slice_get, take};
ghost use Rattle.std.specs.Map.{lookup};
ghost use Rattle.clru_model.specs.Entries.{without};
ghost use Rattle.clru.specs.Cache.{with_entries};

use crate::cache::CLruCache;
use clru_model::WeightScale;
use std::alloc::Allocator;
use std::collections::hash_map::Equivalent;
use std::hash::{BuildHasher, Hash};

impl<K: Eq + Hash, V, S: BuildHasher, W: WeightScale<K, V>, A> CLruCache<K, V, S, W, A>
where
    A: Allocator + Copy,
{
    /// Removes the entry of the key and returns its value. Its place stays ready.
    /// Cost: one hash and a walk along one chain; if the key is held a walk more, and a weighing of its pair.
    pub fn pop<Q: Equivalent<K>>(&mut self, key: Q) -> Option<V>
    where
        K: Drop,
        ensures value { result ≡ lookup (Q.equivalent key) self.old.entries }
        ensures entries { self.new ≡ with_entries self.old (without Q.equivalent key self.old.entries) }
    {
        let hash = self.map.hash(key);
        let (stored, value) = self.map.take(hash, key)?;
        self.total -= self.scale.weight(&stored, &value);
        Some(value)
    }

    /// Removes the most recently used entry and returns it. Its place stays ready.
    /// Cost: one hash, a walk along one chain and a weighing.
    pub fn pop_front(&mut self) -> Option<(K, V)>
        ensures value { result ≡ slice_get self.old.entries 0 }
        ensures entries { self.new ≡ with_entries self.old (drop 1 self.old.entries) }
    {
        let (key, value) = self.map.pop_front()?;
        self.total -= self.scale.weight(&key, &value);
        Some((key, value))
    }

    /// Removes the least recently used entry and returns it. Its place stays ready.
    /// Cost: one hash, a walk along one chain and a weighing.
    pub fn pop_back(&mut self) -> Option<(K, V)>
        ensures value { result ≡ slice_get self.old.entries (length self.old.entries - 1) }
        ensures entries { self.new ≡ with_entries self.old (take (length self.old.entries - 1) self.old.entries) }
    {
        let (key, value) = self.map.pop_back()?;
        self.total -= self.scale.weight(&key, &value);
        Some((key, value))
    }

    /// Removes all entries. Their places stay ready.
    /// Cost: a drop of each entry and a write of each bucket; no hash.
    pub fn clear(&mut self)
    where
        K: Drop,
        V: Drop,
        ensures { self.new ≡ with_entries self.old [] }
    {
        self.map.clear();
        self.total = 0;
    }
}
