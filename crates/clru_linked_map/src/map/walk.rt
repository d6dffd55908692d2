//! Walks over the entries: for reading, and by index for writing.
ghost use Rattle.std.specs.Prelude.{◌≡◌, ◌<◌, Some, length, slice_get};
ghost use Rattle.std.specs.Borrow.{sem};
ghost use Rattle.std.specs.Map.Iter.{deref_pair_mut};
ghost use Rattle.clru_linked_map.specs.LinkedMap.{pairs_of};
ghost use Rattle.clru_linked_map.specs.MapLends.{lends_at};

use crate::map::LinkedHashMap;
use clru_list::FixedSizeListIter;
use std::alloc::Allocator;
use std::hash::{BuildHasher, Hash};

impl<K: Eq + Hash, V, S: BuildHasher, A: Allocator + Copy> LinkedHashMap<K, V, S, A> {
    /// Returns an iterator over the pairs with their places, from the first to the last.
    pub fn iter(&self) -> FixedSizeListIter<'_, (K, V), A>
        ensures { pairs_of result ≡ self.now.entries }
    {
        self.items.list.iter()
    }

    /// Returns the entry at an index, with its value for writing. It is quick for a walk that goes up by one.
    pub fn entry_at(&mut self, index: usize) -> (&K, &mut V)
        requires { index < length self.old.entries }
        ensures* lends { sem 𝓛 (lends_at K.row V.row S.row A.row S.Hasher.row K.Hash S.BuildHasher S.Hasher.Hasher
            A.Allocator self.entry index result.1) }
        ensures entry { slice_get self.old.entries index ≡ Some (deref_pair_mut result) }
    {
        let Some(place) = self.items.list.place_at(index) else {
            unreachable!()
        };
        let Some(item) = self.items.list.get_mut(place) else {
            unreachable!()
        };
        (&item.0, &mut item.1)
    }

    /// Returns the entry at an index, with its value for writing. It is quick for a walk that goes down by one.
    pub fn entry_at_back(&mut self, index: usize) -> (&K, &mut V)
        requires { index < length self.old.entries }
        ensures* lends { sem 𝓛 (lends_at K.row V.row S.row A.row S.Hasher.row K.Hash S.BuildHasher S.Hasher.Hasher
            A.Allocator self.entry index result.1) }
        ensures entry { slice_get self.old.entries index ≡ Some (deref_pair_mut result) }
    {
        let Some(place) = self.items.list.place_at_back(index) else {
            unreachable!()
        };
        let Some(item) = self.items.list.get_mut(place) else {
            unreachable!()
        };
        (&item.0, &mut item.1)
    }
}
