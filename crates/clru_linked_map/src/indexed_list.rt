//! `IndexedList`: the place list of a map and the hash index over it, and looking for a key.
//!
//! Each key has a bucket, which its hash picks, and the places of the keys of one bucket are linked to a chain. Clauses here
//! name places, buckets and links; those of the map's calls speak of its entries alone.
ghost use Rattle.std.specs.Prelude.{◌≡◌, ℕ, ◌<◌, ◌≤◌, true, false, length, None, IfOk, IfSome, IfNone, OnOk, OnErr};
ghost use Rattle.std.specs.Map.{lookup_entry};
ghost use Rattle.clru_list.specs.PlaceList.{without, IsValid};
ghost use Rattle.clru_list.specs.Places.{nowhere};
ghost use Rattle.clru_linked_map.specs.BucketList.{place_named, tag_by};
ghost use Rattle.clru_linked_map.specs.Buckets.{key_at, HasHome, IsAt, IsLive, IsTaken, IsChainedAs, IsChainedBut, HasHash, number_in, KeepsPlaces};
ghost use Rattle.clru_linked_map.specs.IndexedList.{IsIndexed, KeepsAllButPairs, pairs_in, KeepsPairs};
ghost use Rattle.clru_linked_map.specs.LinkedMap.{hash_of, pairs_of};

use crate::hash_index::HashIndex;
use clru_list::{FixedSizeList, NOWHERE, NoMemory};
use std::alloc::Allocator;
use std::collections::hash_map::Equivalent;
use std::hash::{BuildHasher, Hash};

mod retain;

/// Pairs in order, found by the hash of their keys.
pub(crate) struct IndexedList<K: Eq + Hash, V, S: BuildHasher, A: Allocator + Copy> {
    pub(crate) list: FixedSizeList<(K, V), A>,
    pub(crate) index: HashIndex<A>,
    pub(crate) hash_builder: S,
}

impl<K: Eq + Hash + Drop, V: Drop, S: BuildHasher + Drop, A: Allocator + Copy> Drop
    for IndexedList<K, V, S, A> {
    fn drop(self) {
        let IndexedList {
            list,
            index,
            hash_builder,
        } = self;
        drop(list);
        drop(index);
        drop(hash_builder);
    }
}

impl<K: Eq + Hash, V, S: BuildHasher, A: Allocator + Copy> IndexedList<K, V, S, A> {
    /// Returns the hash of a key, which is that of each form of it.
    pub(crate) fn hash<Q: Equivalent<K>>(&self, key: Q) -> u64
        ensures { result ≡ hash_of Q.Hash S.BuildHasher S.Hasher.Hasher self.now.hash_builder key }
    {
        self.hash_builder.hash_one(&key)
    }

    /// Returns the place of the pair with the key, whose hash is given.
    #[inline(always)]
    pub(crate) fn find<Q: Equivalent<K>>(&self, hash: u64, key: Q) -> Option<usize>
        requires hash { hash ≡ hash_of Q.Hash S.BuildHasher S.Hasher.Hasher self.now.hash_builder key }
        requires indexed { IsIndexed (hash_of K.Hash S.BuildHasher S.Hasher.Hasher) self.now }
        ensures found { IfSome result (λ p. IsAt Q.equivalent key p self.now.list.entries) }
        ensures valid { IsValid self.now.list }
        ensures absent { IfNone result (lookup_entry (Q.equivalent key) (pairs_of self.now.list.entries) ≡ None) }
    {
        // Read for its clause alone.
        let _len = self.list.len();
        let bucket = self.index.bucket_of(hash);
        let mut number = self.index.first(bucket);
        while self.is_other(number, hash, &key) {
            if self.index.is_last(number) {
                return None;
            }
            let place = self.index.place(number);
            number = self.index.next(place);
        }
        Some(self.index.place(number))
    }

    /// Returns the same. It looks first at a place where the key is likely to be.
    #[inline(always)]
    pub(crate) fn find_near<Q: Equivalent<K>>(
        &self,
        hash: u64,
        key: Q,
        likely: usize,
    ) -> Option<usize>
        requires hash { hash ≡ hash_of Q.Hash S.BuildHasher S.Hasher.Hasher self.now.hash_builder key }
        requires indexed { IsIndexed (hash_of K.Hash S.BuildHasher S.Hasher.Hasher) self.now }
        ensures found { IfSome result (λ p. IsAt Q.equivalent key p self.now.list.entries) }
        ensures valid { IsValid self.now.list }
        ensures absent { IfNone result (lookup_entry (Q.equivalent key) (pairs_of self.now.list.entries) ≡ None) }
    {
        if self.is_there(likely, &key) {
            return Some(likely);
        }
        self.find(hash, key)
    }

    /// Returns whether the key stands at a place, where nothing may be.
    #[inline(always)]
    pub(crate) fn is_there<Q: Equivalent<K>>(&self, place: usize, key: &Q) -> bool
        ensures found { result ≡ true → IsAt Q.equivalent key.now place self.now.list.entries }
        ensures valid { IsValid self.now.list }
    {
        match self.list.get(place) {
            Some(item) => key.equivalent(&item.0),
            None => false,
        }
    }

    /// Returns whether a number names another place than that of the key, whose hash is given.
    #[inline(always)]
    fn is_other<Q: Equivalent<K>>(&self, number: usize, hash: u64, key: &Q) -> bool
        requires tagged { (k : K) → (place_named self.now.index.bound number ≡ nowhere → ⊥)
            → key_at self.now.list.entries (place_named self.now.index.bound number) ≡ Some k → Q.equivalent key.now k ≡ true
            → tag_by self.now.index.tags number ≡ tag_by self.now.index.tags hash }
        requires live { (place_named self.now.index.bound number ≡ nowhere → ⊥)
            → IsLive self.now.list.entries (place_named self.now.index.bound number) }
        ensures found { result ≡ false → IsAt Q.equivalent key.now (place_named self.now.index.bound number) self.now.list.entries }
        ensures other { result ≡ true → (place_named self.now.index.bound number ≡ nowhere → ⊥)
            → IsAt Q.equivalent key.now (place_named self.now.index.bound number) self.now.list.entries → ⊥ }
    {
        if self.index.has_other_tag(number, hash) {
            return true;
        }
        let place = self.index.place(number);
        if place == NOWHERE {
            return true;
        }
        let item = self.list.item(place);
        !key.equivalent(&item.0)
    }

    /// The bucket of the key at a place.
    pub(crate) fn home(&self, place: usize) -> usize
        requires { IsLive self.now.list.entries place }
        ensures home { HasHome (hash_of K.Hash S.BuildHasher S.Hasher.Hasher) result place self.now }
        ensures valid { IsValid self.now.list }
    {
        let item = self.list.item(place);
        self.index.bucket_of(self.hash(&item.0))
    }

    /// Takes out the pair at a place. The bucket of its key is given.
    #[inline(always)]
    pub(crate) fn remove(&mut self, bucket: usize, place: usize) -> (K, V)
        requires home { HasHome (hash_of K.Hash S.BuildHasher S.Hasher.Hasher) bucket place self.old }
        requires valid { IsValid self.old.list }
        requires indexed { IsIndexed (hash_of K.Hash S.BuildHasher S.Hasher.Hasher) self.old }
        ensures pair { IsTaken result place self.old.list.entries }
        ensures entries { self.new.list.entries ≡ without place self.old.list.entries }
        ensures indexed { IsIndexed (hash_of K.Hash S.BuildHasher S.Hasher.Hasher) self.new }
        ensures same { KeepsAllButPairs self.old self.new }
    {
        self.unchain(bucket, place);
        match self.list.remove(place) {
            Some(pair) => pair,
            None => unreachable!(),
        }
    }

    /// Puts a place to the end of the chain of its key's bucket. The hash of the key is given.
    #[inline(always)]
    pub(crate) fn append(&mut self, hash: u64, place: usize)
        requires hash { HasHash (hash_of K.Hash S.BuildHasher S.Hasher.Hasher) hash place self.old }
        requires chained { IsChainedBut (hash_of K.Hash S.BuildHasher S.Hasher.Hasher) place self.old }
        requires linked { self.old.list.places ≤ length self.old.index.links }
        requires named { self.old.list.places ≤ self.old.index.bound }
        requires valid { IsValid self.old.list }
        ensures chained { IsChainedAs (hash_of K.Hash S.BuildHasher S.Hasher.Hasher)
            (key_at self.new.list.entries) self.new }
        ensures list { self.new.list ≡ self.old.list }
        ensures same { KeepsAllButPairs self.old self.new }
    {
        let number = self.index.number_of(place, hash);
        let bucket = self.index.bucket_of(hash);
        self.index.set_next(place, 0);
        let (last, behind) = self.index.before(bucket, NOWHERE);
        self.index.note(bucket, last, behind, true);
        self.index.link(bucket, last, number);
    }

    /// Takes a place out of the chain of its key's bucket.
    #[inline(always)]
    pub(crate) fn unchain(&mut self, bucket: usize, place: usize)
        requires home { HasHome (hash_of K.Hash S.BuildHasher S.Hasher.Hasher) bucket place self.old }
        requires chained { IsChainedAs (hash_of K.Hash S.BuildHasher S.Hasher.Hasher)
            (key_at self.old.list.entries) self.old }
        requires linked { self.old.list.places ≤ length self.old.index.links }
        requires valid { IsValid self.old.list }
        ensures chained { IsChainedBut (hash_of K.Hash S.BuildHasher S.Hasher.Hasher) place self.new }
        ensures list { self.new.list ≡ self.old.list }
        ensures same { KeepsAllButPairs self.old self.new }
    {
        let (before, behind) = self.index.before(bucket, place);
        let next = self.index.next(place);
        let leads = self.index.is_named(next);
        self.index.link(bucket, before, next);
        self.index.note(bucket, before, behind, leads);
    }

    /// Finds memory for one more pair. Each place must be taken. It is called seldom, and is therefore out of line.
    #[cold]
    #[inline(never)]
    pub(crate) fn grow(&mut self) -> Result<(), NoMemory>
        requires below { length (pairs_in self.old) < self.old.list.capacity }
        requires taken { self.old.list.places ≤ length (pairs_in self.old) }
        requires indexed { IsIndexed (hash_of K.Hash S.BuildHasher S.Hasher.Hasher) self.old }
        ensures ready { OnOk result (length (pairs_in self.new) < self.new.list.places) }
        ensures never_falls { self.old.list.places ≤ self.new.list.places }
        ensures bounded { self.new.list.places ≤ self.old.list.capacity }
        ensures refused { OnErr result (self.new.list.places ≡ self.old.list.places) }
        ensures indexed { IsIndexed (hash_of K.Hash S.BuildHasher S.Hasher.Hasher) self.new }
        ensures keeps { KeepsPairs self.old self.new }
    {
        let places = self.list.grown_places();
        self.make_index(places)?;
        self.list.make_ready()
    }

    /// Finds memory for the buckets of so many places, or of more, and chains all keys anew, unless there are as many.
    fn make_index(&mut self, places: usize) -> Result<(), NoMemory>
        requires some { 0 < places }
        requires indexed { IsIndexed (hash_of K.Hash S.BuildHasher S.Hasher.Hasher) self.old }
        ensures linked { OnOk result (places ≤ length self.new.index.links) }
        ensures named { OnOk result (places ≤ self.new.index.bound) }
        ensures indexed { IsIndexed (hash_of K.Hash S.BuildHasher S.Hasher.Hasher) self.new }
        ensures keeps { KeepsPlaces self.old self.new }
    {
        if places <= self.index.link_count() {
            return Ok(());
        }
        self.index = self.empty_index_for(places)?;
        self.relink();
        Ok(())
    }

    /// Makes empty buckets for so many places, or for more if there is memory for them.
    fn empty_index_for(&self, places: usize) -> Result<HashIndex<A>, NoMemory>
        ensures free { IfOk result (λ x. (h : ℕ) → number_in x.firsts h ≡ 0) }
        ensures linked { IfOk result (λ x. places ≤ length x.links) }
        ensures spread { IfOk result (λ x. length x.links ≤ length x.firsts) }
        ensures named { IfOk result (λ x. length x.links ≤ x.bound) }
    {
        let wanted = self.index_places_for(places);
        match self.index.empty_resized(wanted) {
            Err(_) if places < wanted => self.index.empty_resized(places),
            made => made,
        }
    }

    /// Returns for how many places buckets are made, if memory allows, where so many are needed. From a quarter of the capacity
    /// on it is all of it, so that no key is chained anew once more while the map fills up.
    fn index_places_for(&self, places: usize) -> usize
        ensures { places ≤ result }
    {
        let capacity = self.list.capacity();
        if places < capacity / 4 {
            places
        } else {
            places.max(capacity)
        }
    }

    /// Chains all keys. Each bucket must be empty.
    fn relink(&mut self)
        requires free { (h : ℕ) → number_in self.old.index.firsts h ≡ 0 }
        requires linked { self.old.list.places ≤ length self.old.index.links }
        requires named { self.old.list.places ≤ self.old.index.bound }
        ensures chained { IsChainedAs (hash_of K.Hash S.BuildHasher S.Hasher.Hasher)
            (key_at self.new.list.entries) self.new }
        ensures list { self.new.list ≡ self.old.list }
        ensures same { KeepsAllButPairs self.old self.new }
    {
        // From the last place, so that what came in first stands first in its chain.
        let mut place = self.list.places();
        while place > 0 {
            place -= 1;
            let Some(item) = self.list.get(place) else {
                continue;
            };
            let hash = self.hash(&item.0);
            let bucket = self.index.bucket_of(hash);
            let first = self.index.first(bucket);
            let number = self.index.number_of(place, hash);
            let leads = self.index.is_named(first);
            let noted = self.index.noted(number, leads);
            self.index.link(bucket, place, first);
            self.index.link(bucket, NOWHERE, noted);
        }
    }
}
