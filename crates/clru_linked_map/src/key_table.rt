//! `KeyTable`: keys with a value each, of which nothing is dropped. A caller hashes a key once for all calls.
ghost use Rattle.std.specs.Prelude.{◌≡◌, ◌+◌, ◌*◌, ◌^◌, ◌<◌, ◌≤◌, [], ◌∷◌, length, IfOk, IfErr, OnOk, OnErr, IsErr, IsNone, IsSome, None};
ghost use Rattle.std.specs.Map.{lookup, set_value};
ghost use Rattle.clru_linked_map.specs.LinkedMap.{hash_of};
ghost use Rattle.clru_linked_map.specs.KeyTables.{GrowsOnlyIf, HaveHashes, NeedsPlace, keyed, with_entries, with_key};

use crate::map::{LinkedHashMap, TOGETHER};
use clru_list::NOWHERE;
use std::alloc::Allocator;
use std::collections::hash_map::Equivalent;
use std::hash::{BuildHasher, Hash};
use std::marker::Model;
use std::mem;

/// The capacity of a table at first.
const FIRST_CAPACITY: usize = 64;

/// Keys with a value each, found by their hashes. Nothing is dropped.
///
/// Calls take the hash of a key, which `hash` returns for each form of it, and no call changes the hash builder. Clauses see the
/// entries, the latest inserted first, and for how many memory was found.
///
/// Takes memory for each key and its value, and two buckets and a link of 4 bytes each.
pub struct KeyTable<K: Eq + Hash, V, S: BuildHasher, A: Allocator + Copy> {
    map: LinkedHashMap<K, V, S, A>,
}

impl<K: Eq + Hash + Drop, V: Drop, S: BuildHasher + Drop, A: Allocator + Copy> Drop
    for KeyTable<K, V, S, A> {
    fn drop(self) {
        let KeyTable { map } = self;
        drop(map);
    }
}

impl<K: Eq + Hash, V, S: BuildHasher, A: Allocator + Copy> Model for KeyTable<K, V, S, A> {
    ghost use Rattle.clru_linked_map.specs.KeyTables.{Keyed, keyed, keyed_code, IsKeyed};

    ghost Value = { Keyed K V S };

    ghost coded = { keyed_code K.code V.code S.code };

    ghost view = { λ t. keyed t.map.entries t.map.builder t.map.places };

    ghost invariant = { λ t. IsKeyed K.eq t.map.entries };
}

impl<K: Eq + Hash, V: Copy, S: BuildHasher, A: Allocator + Copy> KeyTable<K, V, S, A> {
    /// Creates a table that holds nothing. It takes no memory.
    pub fn new(alloc: A, hash_builder: S) -> Self
        ensures { result ≡ keyed [] hash_builder 0 }
    {
        KeyTable {
            map: LinkedHashMap::new(alloc, FIRST_CAPACITY, hash_builder),
        }
    }

    /// Returns the number of keys.
    pub fn len(&self) -> usize
        ensures len { result ≡ length self.now.entries }
        ensures held { length self.now.entries ≤ self.now.places }
    {
        self.map.len()
    }

    /// Returns the hash of a key. Every form of the key has it.
    pub fn hash<Q: Equivalent<K>>(&self, key: Q) -> u64
        ensures { result ≡ hash_of Q.Hash S.BuildHasher S.Hasher.Hasher self.now.builder key }
    {
        self.map.hash(key)
    }

    /// Returns the value of the key, whose hash is given.
    pub fn get<Q: Equivalent<K>>(&self, hash: u64, key: Q) -> Option<V>
        requires hash { hash ≡ hash_of Q.Hash S.BuildHasher S.Hasher.Hasher self.now.builder key }
        ensures { result ≡ lookup (Q.equivalent key) self.now.entries }
    {
        self.map.get(hash, key).copied()
    }

    /// Gives the key, whose hash is given, another value if it is held, and returns the one that it had. The held form of the key stays.
    pub fn replace<Q: Equivalent<K>>(&mut self, hash: u64, key: Q, value: V) -> Option<V>
        requires hash { hash ≡ hash_of Q.Hash S.BuildHasher S.Hasher.Hasher self.old.builder key }
        ensures found { result ≡ lookup (Q.equivalent key) self.old.entries }
        ensures same { IsNone result → self.new ≡ self.old }
        ensures replaced { IsSome result → self.new
            ≡ with_entries self.old (set_value (Q.equivalent key) self.old.entries value) }
    {
        self.replace_near(hash, key, value, NOWHERE)
    }

    /// Does the same. It looks first at a place where the key is likely to be.
    fn replace_near<Q: Equivalent<K>>(
        &mut self,
        hash: u64,
        key: Q,
        value: V,
        likely: usize,
    ) -> Option<V>
        requires hash { hash ≡ hash_of Q.Hash S.BuildHasher S.Hasher.Hasher self.old.builder key }
        ensures found { result ≡ lookup (Q.equivalent key) self.old.entries }
        ensures same { IsNone result → self.new ≡ self.old }
        ensures replaced { IsSome result → self.new
            ≡ with_entries self.old (set_value (Q.equivalent key) self.old.entries value) }
    {
        match self.map.get_mut_near(hash, key, likely) {
            Some(held) => Some(mem::replace(held, value)),
            None => None,
        }
    }

    /// Takes a new key, whose hash is given, with its value. If memory is refused, it returns the key, and the table is unchanged; that may
    /// be only if no place is free.
    pub fn insert(&mut self, hash: u64, key: K, value: V) -> Result<(), K>
        requires hash { hash ≡ hash_of K.Hash S.BuildHasher S.Hasher.Hasher self.old.builder key }
        requires new { lookup (K.eq key) self.old.entries ≡ None }
        requires countable { length self.old.entries + 1 < 2 ^ 64 }
        ensures taken { OnOk result (self.new ≡ keyed ((key, value) ∷ self.old.entries) self.old.builder self.new.places) }
        ensures refused { OnErr result (self.new ≡ self.old) }
        ensures given_back { IfErr result (λ back. back ≡ key) }
        ensures memory { IsErr result → NeedsPlace K.eq self.old key }
        ensures places { GrowsOnlyIf (NeedsPlace K.eq self.old key) self.old self.new }
    {
        // (the capacity bounds how far the places of the map grow, fourfold else; each takes two buckets and a link, which are all
        // written at once)
        double_if_full(&mut self.map);
        let Ok(()) = self.map.make_ready() else {
            return Err(key);
        };
        self.map.push_front(hash, key, value);
        Ok(())
    }
}

impl<K: Eq + Hash + Copy, V: Copy, S: BuildHasher, A: Allocator + Copy> KeyTable<K, V, S, A> {
    /// Returns the hashes of the keys from `first` to before `end`, and the places where they are likely to be, for `put`. They are looked
    /// up together, so that the processor reads for several at once.
    /// Cost: one hash, some steps along one chain and at most one comparison for each; 1 KiB of the stack.
    pub fn prefetch(
        &self,
        keys: &[K],
        first: usize,
        end: usize,
    ) -> ([u64; TOGETHER], [usize; TOGETHER])
        requires order { first ≤ end }
        requires within { end ≤ length keys.now }
        requires few { end ≤ first + 64 }
        ensures { HaveHashes (hash_of K.Hash S.BuildHasher S.Hasher.Hasher self.now.builder) keys.now first end result.0 }
    {
        let mut hashes = [0; TOGETHER];
        let mut at = first;
        while at < end {
            hashes[at - first] = self.map.hash(&keys[at]);
            at += 1;
        }
        (hashes, self.map.prefetch(&hashes, &keys[first..end]))
    }

    /// Gives the key, whose hash is given, a value, and returns the one that it had. The held form of a key stays. If memory for a new key
    /// is refused, it returns the key, and the table is unchanged; that may be only if no place is free. Only the time depends on the
    /// likely place, which `prefetch` returns.
    /// Cost: one comparison if the key is at that place, and else a walk along one chain too.
    pub fn put(&mut self, hash: u64, key: K, value: V, likely: usize) -> Result<Option<V>, K>
        requires hash { hash ≡ hash_of K.Hash S.BuildHasher S.Hasher.Hasher self.old.builder key }
        requires countable { length self.old.entries + 1 < 2 ^ 64 }
        ensures before { IfOk result (λ v. v ≡ lookup (K.eq key) self.old.entries) }
        ensures taken { OnOk result (self.new
            ≡ keyed (with_key K.eq key value self.old.entries) self.old.builder self.new.places) }
        ensures refused { OnErr result (self.new ≡ self.old) }
        ensures given_back { IfErr result (λ back. back ≡ key) }
        ensures memory { IsErr result → NeedsPlace K.eq self.old key }
        ensures places { GrowsOnlyIf (NeedsPlace K.eq self.old key) self.old self.new }
    {
        match self.replace_near(hash, &key, value, likely) {
            Some(before) => Ok(Some(before)),
            None => match self.insert(hash, key, value) {
                Ok(()) => Ok(None),
                Err(key) => Err(key),
            },
        }
    }
}

/// Doubles the capacity of a map that is full, so that there is room for one more key.
fn double_if_full<K: Eq + Hash, V, S: BuildHasher, A: Allocator + Copy>(
    map: &mut LinkedHashMap<K, V, S, A>,
)
    requires { length map.old.entries + 1 < 2 ^ 64 }
    ensures entries { map.new.entries ≡ map.old.entries }
    ensures builder { map.new.builder ≡ map.old.builder }
    ensures places { map.new.places ≡ map.old.places }
    ensures held { length map.new.entries ≤ map.new.places }
    ensures room { length map.new.entries < map.new.capacity }
    ensures bound { map.new.capacity ≤ map.old.capacity + (2 * length map.old.entries + 2) }
{
    let len = map.len();
    if len < map.capacity() {
        return;
    }
    map.resize(len.max(1).saturating_mul(2));
}
