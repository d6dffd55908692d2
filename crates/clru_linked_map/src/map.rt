//! `LinkedHashMap`: its makers, what it was made with, and the calls that look for an entry, move one or put one in front.
ghost use Rattle.std.specs.Prelude.{◌≡◌, ◌-◌, ◌^◌, ◌<◌, ◌≤◌, ◌∷◌, [], length, min, IfOk, IfErr, IsOk, OnOk, option_copied, is_some, Some, slice_get, take, OnErr};
ghost use Rattle.std.specs.List.{IsDistinct};
ghost use Rattle.std.specs.Map.{keys_of, lookup};
ghost use Rattle.clru_linked_map.specs.LinkedMap.{hash_of, linked_map, with_entries};
ghost use Rattle.clru_model.specs.Entries.{demote, touch};
ghost use Rattle.clru_linked_map.specs.Growth.{GrowsIf, IsRefused};

use crate::hash_index::HashIndex;
use crate::indexed_list::IndexedList;
use clru_list::{FixedSizeList, NARROW, NOWHERE, NoMemory};
use std::alloc::Allocator;
use std::collections::hash_map::Equivalent;
use std::hash::{BuildHasher, Hash};
use std::marker::Model;
use std::mem;

mod debug;
mod ends;
mod remove;
mod retain;
mod walk;

/// How many keys are looked up together at most.
pub const TOGETHER: usize = 64;

/// Entries in order of recency, found by the hash of their keys. A map holds no more entries than its capacity.
pub struct LinkedHashMap<K: Eq + Hash, V, S: BuildHasher, A: Allocator + Copy> {
    pub(crate) items: IndexedList<K, V, S, A>,
}

impl<K: Eq + Hash + Drop, V: Drop, S: BuildHasher + Drop, A: Allocator + Copy> Drop
    for LinkedHashMap<K, V, S, A> {
    fn drop(self) {
        let LinkedHashMap { items } = self;
        drop(items);
    }
}

impl<K: Eq + Hash, V, S: BuildHasher, A: Allocator + Copy> Model for LinkedHashMap<K, V, S, A> {
    ghost use Rattle.clru_linked_map.specs.LinkedMap.{LinkedMap, linked_map_code, hash_by};
    ghost use Rattle.clru_linked_map.specs.IndexedList.{map_of, IsIndexed};

    ghost Value = { LinkedMap K V S };

    ghost coded = { linked_map_code K.code V.code S.code };

    ghost view = { λ m. map_of m.items };

    ghost invariant = { λ m. IsIndexed (hash_by S.Hasher.finish S.Hasher.write S.build_hasher K.hash_input) m.items };
}

impl<K: Eq + Hash, V, S: BuildHasher, A: Allocator + Copy> LinkedHashMap<K, V, S, A> {
    /// Creates a map for at most `capacity` entries. It takes no memory.
    pub fn new(alloc: A, capacity: usize, hash_builder: S) -> Self
        ensures { result ≡ linked_map [] capacity 0 hash_builder }
    {
        LinkedHashMap::with_narrow_places(alloc, capacity, hash_builder, NARROW)
    }

    /// Creates a map whose list and index take 8 bytes for each place if they have more than `limit` places, and 4 else. With
    /// `new` the index takes 8 past 2^30 places, which no test reaches. A limit past 2^32 - 1 changes nothing.
    pub fn with_narrow_places(alloc: A, capacity: usize, hash_builder: S, limit: usize) -> Self
        ensures { result ≡ linked_map [] capacity 0 hash_builder }
    {
        LinkedHashMap {
            items: IndexedList {
                list: FixedSizeList::with_narrow_places(alloc, capacity, limit),
                index: HashIndex::new(alloc, limit),
                hash_builder,
            },
        }
    }

    /// Creates a map for at most `capacity` entries, with memory for `reserve`, or for `capacity` if that is less. If memory is
    /// refused, it returns the hash builder; without a reserve it asks for none.
    pub fn with_memory(
        alloc: A,
        capacity: usize,
        hash_builder: S,
        reserve: usize,
    ) -> Result<Self, S>
        ensures empty { IfOk result (λ m. m ≡ linked_map [] capacity (min reserve capacity) hash_builder) }
        ensures given_back { IfErr result (λ back. back ≡ hash_builder) }
        ensures never_refused { min reserve capacity ≡ 0 → IsOk result }
        ensures countable { OnOk result (min reserve capacity < 2 ^ 63) }
    {
        let places = reserve.min(capacity);
        let Ok(index) = HashIndex::empty(alloc, places, NARROW) else {
            return Err(hash_builder);
        };
        // Last, since a list may be dropped only if its items may.
        let Ok(list) = FixedSizeList::with_memory(alloc, capacity, places) else {
            return Err(hash_builder);
        };
        Ok(LinkedHashMap {
            items: IndexedList {
                list,
                index,
                hash_builder,
            },
        })
    }

    /// Returns the number of entries.
    pub fn len(&self) -> usize
        ensures len { result ≡ length self.now.entries }
        ensures held { length self.now.entries ≤ self.now.places }
    {
        self.items.list.len()
    }

    /// Returns the capacity.
    pub fn capacity(&self) -> usize
        ensures capacity { result ≡ self.now.capacity }
        ensures held { length self.now.entries ≤ self.now.places }
    {
        self.items.list.capacity()
    }

    /// Returns the hash builder.
    pub fn hasher(&self) -> &S
        ensures { result.now ≡ self.now.builder }
    {
        &self.items.hash_builder
    }

    /// Returns the allocator.
    pub fn allocator(&self) -> &A {
        self.items.list.allocator()
    }

    /// Returns the hash of a key. Every form of the key has it.
    pub fn hash<Q: Equivalent<K>>(&self, key: Q) -> u64
        ensures { result ≡ hash_of Q.Hash S.BuildHasher S.Hasher.Hasher self.now.builder key }
    {
        self.items.hash(key)
    }

    /// Returns the value of the key, whose hash is given.
    pub fn get<Q: Equivalent<K>>(&self, hash: u64, key: Q) -> Option<&V>
        requires hash { hash ≡ hash_of Q.Hash S.BuildHasher S.Hasher.Hasher self.now.builder key }
        requires distinct { IsDistinct K.eq (keys_of self.now.entries) }
        ensures { option_copied result ≡ lookup (Q.equivalent key) self.now.entries }
    {
        let place = self.items.find(hash, key)?;
        Some(&self.items.list.item(place).1)
    }

    /// Returns the places where these keys, whose hashes are given, are likely to be. They are looked up together, so that the processor reads
    /// for several at once: each step is done for all keys before the next one, because it stops reading ahead where it guessed wrong.
    pub(crate) fn prefetch(&self, hashes: &[u64], keys: &[K]) -> [usize; TOGETHER] {
        let count = hashes.len().min(keys.len()).min(TOGETHER);
        let mut places = [0; TOGETHER];
        let index = &self.items.index;
        for at in 0..count {
            places[at] = index.first(index.bucket_of(hashes[at]));
        }
        for at in 0..count {
            places[at] = index.likely(places[at], hashes[at]);
        }
        for at in 0..count {
            if !self.items.is_there(places[at], &&keys[at]) {
                places[at] = NOWHERE;
            }
        }
        places
    }

    /// Moves the entry of the key, whose hash is given, to the front, and returns whether there is one.
    #[inline(always)]
    pub fn touch<Q: Equivalent<K>>(&mut self, hash: u64, key: Q) -> bool
        requires hash { hash ≡ hash_of Q.Hash S.BuildHasher S.Hasher.Hasher self.old.builder key }
        requires distinct { IsDistinct K.eq (keys_of self.old.entries) }
        ensures found { result ≡ is_some (lookup (Q.equivalent key) self.old.entries) }
        ensures entries { self.new ≡ with_entries self.old (touch Q.equivalent key self.old.entries) }
        ensures held { length self.new.entries ≤ self.new.places }
    {
        let Some(place) = self.items.find(hash, key) else {
            return false;
        };
        self.items.list.bring_front(place);
        true
    }

    /// Moves the entry of the key, whose hash is given, to the back, and returns whether there is one.
    pub fn demote<Q: Equivalent<K>>(&mut self, hash: u64, key: Q) -> bool
        requires hash { hash ≡ hash_of Q.Hash S.BuildHasher S.Hasher.Hasher self.old.builder key }
        requires distinct { IsDistinct K.eq (keys_of self.old.entries) }
        ensures found { result ≡ is_some (lookup (Q.equivalent key) self.old.entries) }
        ensures entries { self.new ≡ with_entries self.old (demote Q.equivalent key self.old.entries) }
    {
        let Some(place) = self.items.find(hash, key) else {
            return false;
        };
        self.items.list.move_back(place);
        true
    }

    /// Puts a new key, whose hash is given, with its value to the front. A place must be ready.
    #[inline(always)]
    pub fn push_front(&mut self, hash: u64, key: K, value: V)
        requires hash { hash ≡ hash_of K.Hash S.BuildHasher S.Hasher.Hasher self.old.builder key }
        requires ready { length self.old.entries < self.old.places }
        requires room { length self.old.entries < self.old.capacity }
        ensures { self.new ≡ with_entries self.old ((key, value) ∷ self.old.entries) }
    {
        match self.items.list.push_front((key, value)) {
            Ok(place) => self.items.append(hash, place),
            Err(_) => unreachable!(),
        }
    }

    /// Puts a new key, whose hash is given, with its value to the front, in the place of the last entry, and returns that.
    #[inline(always)]
    fn replace_back(&mut self, hash: u64, key: K, value: V) -> (K, V)
        requires hash { hash ≡ hash_of K.Hash S.BuildHasher S.Hasher.Hasher self.old.builder key }
        requires some { 0 < length self.old.entries }
        ensures pair { Some result ≡ slice_get self.old.entries (length self.old.entries - 1) }
        ensures entries { let old = self.old.entries in
            self.new ≡ with_entries self.old ((key, value) ∷ take (length old - 1) old) }
    {
        let Some(place) = self.items.list.back_idx() else {
            unreachable!()
        };
        let old_bucket = self.items.home(place);
        self.items.unchain(old_bucket, place);
        let Some(item) = self.items.list.move_front(place) else {
            unreachable!()
        };
        let old = mem::replace(item, (key, value));
        self.items.append(hash, place);
        old
    }

    /// Puts a new key, whose hash is given, with its value to the front, and returns the entry that it drops. A full map drops
    /// its last entry and reuses its place; otherwise a place must be ready.
    #[inline(always)]
    pub fn put_front(&mut self, hash: u64, key: K, value: V) -> Option<(K, V)>
        requires hash { hash ≡ hash_of K.Hash S.BuildHasher S.Hasher.Hasher self.old.builder key }
        requires ready { length self.old.entries < self.old.capacity
            → length self.old.entries < self.old.places }
        requires some { 0 < self.old.capacity }
        ensures pair { result ≡ slice_get self.old.entries (self.old.capacity - 1) }
        ensures entries { self.new
            ≡ with_entries self.old ((key, value) ∷ take (self.old.capacity - 1) self.old.entries) }
        ensures held { length self.new.entries ≤ self.new.places }
    {
        if self.items.list.is_full() {
            return Some(self.replace_back(hash, key, value));
        }
        self.push_front(hash, key, value);
        None
    }

    /// Sets the capacity. Entries and places stay, even if the places are more.
    pub fn resize(&mut self, capacity: usize)
        requires { length self.old.entries ≤ capacity }
        ensures { self.new ≡ linked_map self.old.entries capacity self.old.places self.old.builder }
    {
        self.items.list.resize(capacity);
    }

    /// Finds memory for one more entry, if there is room for one and each place is taken. A place counts once the list and
    /// the index have memory for it; if either is refused, entries and places stay. Places are taken ahead, up to the
    /// capacity.
    pub fn make_ready(&mut self) -> Result<(), NoMemory>
        ensures ready { OnOk result (length self.new.entries < self.new.capacity
            → length self.new.entries < self.new.places) }
        ensures grows { let len = length self.old.entries in let capacity = self.old.capacity in
            GrowsIf (len < capacity) len capacity self.old.places self.new.places }
        ensures refused { let len = length self.old.entries in
            OnErr result (IsRefused (len < self.old.capacity) len self.old.places self.new.places) }
        ensures held { length self.new.entries ≤ self.new.places }
        ensures same { self.new ≡ linked_map self.old.entries self.old.capacity self.new.places self.old.builder }
    {
        let list = &self.items.list;
        if list.is_full() || list.len() < list.places() {
            return Ok(());
        }
        self.items.grow()
    }
}
