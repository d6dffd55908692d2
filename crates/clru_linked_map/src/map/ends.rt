//! The first and the last entry, and the value of a key for writing. No entry is moved.
ghost use Rattle.std.specs.Prelude.{◌≡◌, ◌-◌, ◌<◌, Some, length, slice_get};
ghost use Rattle.std.specs.Borrow.{sem};
ghost use Rattle.std.specs.List.{IsDistinct};
ghost use Rattle.std.specs.Map.{keys_of, lookup};
ghost use Rattle.std.specs.Map.Iter.{deref_pair, deref_pair_mut};
ghost use Rattle.std.specs.Option.{option_copied_mut, option_map};
ghost use Rattle.clru_model.specs.Entries.{with_front};
ghost use Rattle.clru_linked_map.specs.LinkedMap.{hash_of, with_entries};
ghost use Rattle.clru_linked_map.specs.MapLends.{lends_at, lends_value};

use crate::map::LinkedHashMap;
use clru_list::NOWHERE;
use std::alloc::Allocator;
use std::collections::hash_map::Equivalent;
use std::hash::{BuildHasher, Hash};
use std::mem;

impl<K: Eq + Hash, V, S: BuildHasher, A: Allocator + Copy> LinkedHashMap<K, V, S, A> {
    /// Returns the first entry.
    pub fn front(&self) -> Option<(&K, &V)>
        ensures { option_map deref_pair result ≡ slice_get self.now.entries 0 }
    {
        let place = self.items.list.front_idx()?;
        let item = self.items.list.item(place);
        Some((&item.0, &item.1))
    }

    /// Returns the last entry.
    pub fn back(&self) -> Option<(&K, &V)>
        ensures { option_map deref_pair result ≡ slice_get self.now.entries (length self.now.entries - 1) }
    {
        match self.items.list.back() {
            Some(item) => Some((&item.0, &item.1)),
            None => None,
        }
    }

    /// Returns the first entry, with its value for writing.
    pub fn front_mut(&mut self) -> (&K, &mut V)
        requires { 0 < length self.old.entries }
        ensures* lends { sem 𝓛 (lends_at K.row V.row S.row A.row S.Hasher.row K.Hash S.BuildHasher S.Hasher.Hasher
            A.Allocator self.entry 0 result.1) }
        ensures entry { slice_get self.old.entries 0 ≡ Some (deref_pair_mut result) }
    {
        let Some(item) = self.items.list.front_mut() else {
            unreachable!()
        };
        (&item.0, &mut item.1)
    }

    /// Returns the last entry, with its value for writing.
    pub fn back_mut(&mut self) -> (&K, &mut V)
        requires { 0 < length self.old.entries }
        ensures* lends { sem 𝓛 (lends_at K.row V.row S.row A.row S.Hasher.row K.Hash S.BuildHasher S.Hasher.Hasher
            A.Allocator self.entry (length self.old.entries - 1) result.1) }
        ensures entry { slice_get self.old.entries (length self.old.entries - 1) ≡ Some (deref_pair_mut result) }
    {
        let Some(item) = self.items.list.back_mut() else {
            unreachable!()
        };
        (&item.0, &mut item.1)
    }

    /// Returns the value of the key, whose hash is given, for writing.
    pub fn get_mut<Q: Equivalent<K>>(&mut self, hash: u64, key: Q) -> Option<&mut V>
        requires hash { hash ≡ hash_of Q.Hash S.BuildHasher S.Hasher.Hasher self.old.builder key }
        requires distinct { IsDistinct K.eq (keys_of self.old.entries) }
        ensures* lends { sem 𝓛 (lends_value K.row V.row S.row A.row S.Hasher.row K.Hash S.BuildHasher S.Hasher.Hasher
            A.Allocator self.entry (Q.equivalent key) result) }
        ensures value { option_copied_mut result ≡ lookup (Q.equivalent key) self.old.entries }
    {
        self.get_mut_near(hash, key, NOWHERE)
    }

    /// Returns the same. It looks first at a place where the key is likely to be.
    pub(crate) fn get_mut_near<Q: Equivalent<K>>(
        &mut self,
        hash: u64,
        key: Q,
        likely: usize,
    ) -> Option<&mut V>
        requires hash { hash ≡ hash_of Q.Hash S.BuildHasher S.Hasher.Hasher self.old.builder key }
        requires distinct { IsDistinct K.eq (keys_of self.old.entries) }
        ensures* lends { sem 𝓛 (lends_value K.row V.row S.row A.row S.Hasher.row K.Hash S.BuildHasher S.Hasher.Hasher
            A.Allocator self.entry (Q.equivalent key) result) }
        ensures value { option_copied_mut result ≡ lookup (Q.equivalent key) self.old.entries }
    {
        let place = self.items.find_near(hash, key, likely)?;
        match self.items.list.get_mut(place) {
            Some(item) => Some(&mut item.1),
            None => unreachable!(),
        }
    }

    /// Writes another value to the first entry, and returns the old one.
    pub fn set_front(&mut self, value: V) -> V
        requires { 0 < length self.old.entries }
        ensures value { Some result ≡ option_map (λ e. e.1) (slice_get self.old.entries 0) }
        ensures entries { self.new ≡ with_entries self.old (with_front value self.old.entries) }
    {
        match self.items.list.front_mut() {
            Some(item) => mem::replace(&mut item.1, value),
            None => unreachable!(),
        }
    }
}
