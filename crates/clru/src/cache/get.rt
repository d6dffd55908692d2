//! The calls that look for a key.
ghost use Rattle.std.specs.Prelude.{◌≡◌, is_some, option_copied};
ghost use Rattle.std.specs.Borrow.{sem};
ghost use Rattle.std.specs.Map.{lookup};
ghost use Rattle.std.specs.Option.{option_copied_mut};
ghost use Rattle.clru_model.specs.contracts.weight.ZeroWeightScale.{the_row as zero_scale_row};
ghost use Rattle.clru_model.specs.Entries.{demote, touch};
ghost use Rattle.clru.specs.Cache.{with_entries};
ghost use Rattle.clru.specs.Lends.{ends_with, lends_value};

use crate::cache::CLruCache;
use clru_model::{WeightScale, ZeroWeightScale};
use std::alloc::Allocator;
use std::collections::hash_map::Equivalent;
use std::hash::{BuildHasher, Hash};

impl<K: Eq + Hash, V, S: BuildHasher, W: WeightScale<K, V>, A> CLruCache<K, V, S, W, A>
where
    A: Allocator + Copy,
{
    /// Returns the value of the key, and makes its entry the most recently used (promotes it).
    ///
    /// Takes a borrowed key or another form of it: a `&str` if the keys are `String`, a slice if they are `Vec`. It builds no
    /// key.
    /// Cost: one hash and a walk along one chain.
    ///
    /// ```rust
    /// looks.get(page).copied()
    /// ```
    #[inline]
    pub fn get<Q: Equivalent<K>>(&mut self, key: Q) -> Option<&V>
        ensures* touches { sem 𝓛 (ends_with K.row V.row S.row W.row A.row S.Hasher.row K.Hash S.BuildHasher
            S.Hasher.Hasher W.WeightScale A.Allocator self.entry (touch Q.equivalent key self.old.entries)) }
        ensures value { option_copied result ≡ lookup (Q.equivalent key) self.old.entries }
    {
        let hash = self.map.hash(key);
        if self.map.touch(hash, key) {
            // A pair is in front now, so this test costs nothing.
            let Some(pair) = self.map.front() else {
                unreachable!()
            };
            return Some(pair.1);
        }
        None
    }

    /// Makes the entry of the key the least recently used, the next to be dropped. Returns whether the key is held.
    /// Cost: one hash and a walk along one chain.
    pub fn demote<Q: Equivalent<K>>(&mut self, key: Q) -> bool
        ensures held { result ≡ is_some (lookup (Q.equivalent key) self.old.entries) }
        ensures entries { self.new ≡ with_entries self.old (demote Q.equivalent key self.old.entries) }
    {
        let hash = self.map.hash(key);
        self.map.demote(hash, key)
    }

    /// Returns the value of the key, and leaves the order as it is.
    /// Cost: one hash and a walk along one chain.
    pub fn peek<Q: Equivalent<K>>(&self, key: Q) -> Option<&V>
        ensures { option_copied result ≡ lookup (Q.equivalent key) self.now.entries }
    {
        self.map.get(self.map.hash(key), key)
    }

    /// Returns whether the key is held, and leaves the order as it is.
    /// Cost: one hash and a walk along one chain.
    pub fn contains<Q: Equivalent<K>>(&self, key: Q) -> bool
        ensures { result ≡ is_some (lookup (Q.equivalent key) self.now.entries) }
    {
        self.peek(key).is_some()
    }
}

impl<K: Eq + Hash, V, S: BuildHasher, A: Allocator + Copy> CLruCache<K, V, S, ZeroWeightScale, A> {
    /// Lends the value of the key for writing, and makes its entry the most recently used.
    /// Cost: one hash and a walk along one chain.
    pub fn get_mut<Q: Equivalent<K>>(&mut self, key: Q) -> Option<&mut V>
        ensures* lends { sem 𝓛 (lends_value K.row V.row S.row zero_scale_row A.row S.Hasher.row K.Hash S.BuildHasher
            S.Hasher.Hasher ⟦<ZeroWeightScale as WeightScale<K, V>>⟧ A.Allocator self.entry (Q.equivalent key)
            (touch Q.equivalent key self.old.entries) result) }
        ensures value { option_copied_mut result ≡ lookup (Q.equivalent key) self.old.entries }
    {
        let hash = self.map.hash(key);
        if !self.map.touch(hash, key) {
            return None;
        }
        Some(self.map.front_mut().1)
    }

    /// Lends the value of the key for writing, and leaves the order as it is.
    /// Cost: one hash and a walk along one chain.
    pub fn peek_mut<Q: Equivalent<K>>(&mut self, key: Q) -> Option<&mut V>
        ensures* lends { sem 𝓛 (lends_value K.row V.row S.row zero_scale_row A.row S.Hasher.row K.Hash S.BuildHasher
            S.Hasher.Hasher ⟦<ZeroWeightScale as WeightScale<K, V>>⟧ A.Allocator self.entry (Q.equivalent key)
            self.old.entries result) }
        ensures value { option_copied_mut result ≡ lookup (Q.equivalent key) self.old.entries }
    {
        let hash = self.map.hash(key);
        let value = self.map.get_mut(hash, key)?;
        Some(value)
    }
}
