//! The first and the last entry, for reading and for writing. Nothing is moved.
ghost use Rattle.std.specs.Prelude.{◌≡◌, ◌-◌, ◌<◌, Some, [], length, slice_get, IfSome, IfNone};
ghost use Rattle.std.specs.Borrow.{sem};
ghost use Rattle.std.specs.Map.Iter.{deref_pair};
ghost use Rattle.std.specs.Option.{option_map};
ghost use Rattle.clru.specs.EntryMutLends.{lends_end, rests_if_none};
ghost use Rattle.clru.specs.EntryMut.{index_of, cache_name, IsEntryAt};

use crate::cache::CLruCache;
use crate::entry::{End, EntryMut};
use clru_model::{WeightScale, ZeroWeightScale};
use std::alloc::Allocator;
use std::hash::{BuildHasher, Hash};

impl<K: Eq + Hash, V, S: BuildHasher, W: WeightScale<K, V>, A> CLruCache<K, V, S, W, A>
where
    A: Allocator + Copy,
{
    /// Returns the most recently used entry, and leaves the order as it is.
    /// Cost: no hash and no comparison.
    pub fn front(&self) -> Option<(&K, &V)>
        ensures { option_map deref_pair result ≡ slice_get self.now.entries 0 }
    {
        self.map.front()
    }

    /// Returns the least recently used entry, and leaves the order as it is.
    /// Cost: no hash and no comparison.
    pub fn back(&self) -> Option<(&K, &V)>
        ensures { option_map deref_pair result ≡ slice_get self.now.entries (length self.now.entries - 1) }
    {
        self.map.back()
    }

    /// Returns the entry at an end, if there is one.
    pub(crate) fn end_pair(&self, end: End) -> (&K, &V)
        requires { 0 < length self.now.entries }
        ensures { Some (deref_pair result) ≡ slice_get self.now.entries (index_of end self.now.entries) }
    {
        let pair = match end {
            End::Front => self.front(),
            End::Back => self.back(),
        };
        match pair {
            Some(pair) => pair,
            None => unreachable!(),
        }
    }
}

impl<K: Eq + Hash, V, S: BuildHasher, A: Allocator + Copy> CLruCache<K, V, S, ZeroWeightScale, A> {
    /// Lends the most recently used entry for writing its value, and leaves the order as it is.
    /// Cost: no hash and no comparison.
    pub fn front_mut(&mut self) -> Option<EntryMut<'_, K, V, S, A>>
        ensures* rests { sem 𝓛 (rests_if_none K.row V.row S.row A.row S.Hasher.row K.Hash S.BuildHasher S.Hasher.Hasher
            A.Allocator ⟦<ZeroWeightScale as WeightScale<K, V>>⟧ self.entry result) }
        ensures lender { IfSome result (λ e. cache_name e ≡ self.entry.ghost_name) }
        ensures entry { IfSome result (IsEntryAt self.old 0) }
        ensures none { IfNone result (self.old.entries ≡ []) }
    {
        if self.is_empty() {
            return None;
        }
        Some(EntryMut {
            cache: self,
            end: End::Front,
        })
    }

    /// Lends the least recently used entry for writing its value, and leaves the order as it is.
    /// Cost: no hash and no comparison.
    pub fn back_mut(&mut self) -> Option<EntryMut<'_, K, V, S, A>>
        ensures* rests { sem 𝓛 (rests_if_none K.row V.row S.row A.row S.Hasher.row K.Hash S.BuildHasher S.Hasher.Hasher
            A.Allocator ⟦<ZeroWeightScale as WeightScale<K, V>>⟧ self.entry result) }
        ensures lender { IfSome result (λ e. cache_name e ≡ self.entry.ghost_name) }
        ensures entry { IfSome result (IsEntryAt self.old (length self.old.entries - 1)) }
        ensures none { IfNone result (self.old.entries ≡ []) }
    {
        if self.is_empty() {
            return None;
        }
        Some(EntryMut {
            cache: self,
            end: End::Back,
        })
    }

    /// Lends the value at an end, if there is one.
    pub(crate) fn end_value(&mut self, end: End) -> &mut V
        requires { 0 < length self.old.entries }
        ensures* lends { sem 𝓛 (lends_end K.row V.row S.row A.row S.Hasher.row K.Hash S.BuildHasher S.Hasher.Hasher
            A.Allocator ⟦<ZeroWeightScale as WeightScale<K, V>>⟧ self.entry end result) }
        ensures value { Some result.now
            ≡ option_map (λ e. e.1) (slice_get self.old.entries (index_of end self.old.entries)) }
    {
        match end {
            End::Front => self.map.front_mut().1,
            End::Back => self.map.back_mut().1,
        }
    }
}
