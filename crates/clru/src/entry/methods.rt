//! What an `EntryMut` shows and lends.
ghost use Rattle.std.specs.Prelude.{◌≡◌, Some};
ghost use Rattle.std.specs.Borrow.{sem};
ghost use Rattle.std.specs.Option.{option_map};
ghost use Rattle.clru.specs.EntryMutLends.{lends_entry, lends_cache};
ghost use Rattle.clru.specs.EntryMut.{pair};

use crate::entry::EntryMut;
use clru_model::{WeightScale, ZeroWeightScale};
use std::alloc::Allocator;
use std::hash::{BuildHasher, Hash};
use std::ops::{Deref, DerefMut};

impl<'a, K: Eq + Hash, V, S: BuildHasher, A: Allocator + Copy> EntryMut<'a, K, V, S, A> {
    /// Returns the key.
    /// Cost: no hash and no comparison.
    pub fn key(&self) -> &K
        ensures { Some result.now ≡ option_map (λ e. e.0) (pair self.now) }
    {
        self.cache.end_pair(self.end).0
    }

    /// Returns the value for writing, for as long as the cache is borrowed.
    /// Cost: no hash and no comparison.
    pub fn into_mut(self) -> &'a mut V
        ensures* lends { sem 𝓛 (lends_cache K.row V.row S.row A.row S.Hasher.row K.Hash S.BuildHasher S.Hasher.Hasher
            A.Allocator ⟦<ZeroWeightScale as WeightScale<K, V>>⟧ self.entry result) }
        ensures value { Some result.now ≡ option_map (λ e. e.1) (pair self.entry) }
    {
        let end = self.end;
        let cache = self.cache;
        cache.end_value(end)
    }
}

impl<K: Eq + Hash, V, S: BuildHasher, A: Allocator + Copy> Deref for EntryMut<'_, K, V, S, A> {
    type Target = V;

    ghost deref_gives = { λ e v. Some v ≡ option_map (λ p. p.1) (pair e) };

    fn deref(&self) -> &V
        ensures { Some result.now ≡ option_map (λ e. e.1) (pair self.now) }
    {
        self.cache.end_pair(self.end).1
    }
}

impl<K: Eq + Hash, V, S: BuildHasher, A: Allocator + Copy> DerefMut for EntryMut<'_, K, V, S, A> {
    ghost deref_mut_gives = { λ e v. Some v ≡ option_map (λ p. p.1) (pair e) };

    fn deref_mut(&mut self) -> &mut V
        ensures* lends { sem 𝓛 (lends_entry K.row V.row S.row A.row S.Hasher.row K.Hash S.BuildHasher S.Hasher.Hasher
            A.Allocator self.entry result) }
        ensures value { Some result.now ≡ option_map (λ e. e.1) (pair self.old) }
    {
        let end = self.end;
        let cache = &mut *self.cache;
        cache.end_value(end)
    }
}
