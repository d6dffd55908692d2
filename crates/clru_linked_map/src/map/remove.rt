//! The calls that remove an entry.
ghost use Rattle.std.specs.Prelude.{◌≡◌, ◌-◌, ◌≤◌, [], drop, length, slice_get, take};
ghost use Rattle.std.specs.List.{IsDistinct};
ghost use Rattle.std.specs.Map.{keys_of, lookup_entry};
ghost use Rattle.clru_model.specs.Entries.{without};
ghost use Rattle.clru_linked_map.specs.LinkedMap.{hash_of, with_entries};

use crate::map::LinkedHashMap;
use std::alloc::Allocator;
use std::collections::hash_map::Equivalent;
use std::hash::{BuildHasher, Hash};

impl<K: Eq + Hash, V, S: BuildHasher, A: Allocator + Copy> LinkedHashMap<K, V, S, A> {
    /// Removes the entry of the key, whose hash is given, and returns it.
    #[inline(always)]
    pub fn take<Q: Equivalent<K>>(&mut self, hash: u64, key: Q) -> Option<(K, V)>
        requires hash { hash ≡ hash_of Q.Hash S.BuildHasher S.Hasher.Hasher self.old.builder key }
        requires distinct { IsDistinct K.eq (keys_of self.old.entries) }
        ensures pair { result ≡ lookup_entry (Q.equivalent key) self.old.entries }
        ensures entries { self.new ≡ with_entries self.old (without Q.equivalent key self.old.entries) }
        ensures held { length self.new.entries ≤ self.new.places }
    {
        let place = self.items.find(hash, key)?;
        let bucket = self.items.index.bucket_of(hash);
        Some(self.items.remove(bucket, place))
    }

    /// Removes the first entry and returns it.
    pub fn pop_front(&mut self) -> Option<(K, V)>
        ensures pair { result ≡ slice_get self.old.entries 0 }
        ensures entries { self.new ≡ with_entries self.old (drop 1 self.old.entries) }
    {
        let place = self.items.list.front_idx()?;
        let bucket = self.items.home(place);
        Some(self.items.remove(bucket, place))
    }

    /// Removes the last entry and returns it.
    pub fn pop_back(&mut self) -> Option<(K, V)>
        ensures pair { result ≡ slice_get self.old.entries (length self.old.entries - 1) }
        ensures entries { self.new ≡ with_entries self.old (take (length self.old.entries - 1) self.old.entries) }
    {
        let place = self.items.list.back_idx()?;
        let bucket = self.items.home(place);
        Some(self.items.remove(bucket, place))
    }

    /// Removes all entries. Places and buckets stay.
    pub fn clear(&mut self)
    where
        K: Drop,
        V: Drop,
        ensures { self.new ≡ with_entries self.old [] }
    {
        self.items.list.clear();
        self.items.index.clear();
    }
}
