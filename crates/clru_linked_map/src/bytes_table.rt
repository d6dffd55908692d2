//! `BytesTable`: the strings of a map in one buffer, the hash index over them, and looking for a string.
//!
//! Strings have places in the order in which they came, and none is taken out. So a chain of the index grows only at its front, and
//! each link leads to an earlier place.
ghost use Rattle.std.specs.Prelude.{◌≡◌, ℕ, ◌<◌, ◌≤◌, List, [], ◌∷◌, true, false, Bool, None, Some, length, reverse, vec_len, vec_capacity, bytes_eq, IfOk, IfSome, IfNone, OnOk, OnErr};
ghost use Rattle.std.specs.List.{slice_get};
ghost use Rattle.std.specs.Map.{lookup, set_value};
ghost use Rattle.clru_list.specs.Places.{nowhere};
ghost use Rattle.clru_linked_map.specs.BucketList.{place_named, tag_by};
ghost use Rattle.clru_linked_map.specs.Buckets.{HasLink, KeepsSizes};
ghost use Rattle.clru_linked_map.specs.BytesTable.{Fills, IsFoundAt, IsTable, KeepsStrings, bytes_hash_of, entries_of, hashes_of, start_from, string_at};
ghost use Rattle.clru_linked_map.specs.Stacked.{IsStacked};

use crate::hash_index::HashIndex;
use clru_list::{NARROW, NOWHERE, NoMemory};
use std::alloc::Allocator;
use std::hash::{BuildHasher, Hasher};

/// For how many strings the first index has links.
const FIRST_PLACES: usize = 64;

/// Where a string ends, and its value. It begins where the one before it ends.
#[derive(Clone, Copy)]
pub(crate) struct Item<V> {
    end: usize,
    value: V,
}

/// Strings by their places, found by their hashes.
pub(crate) struct BytesTable<V, S, A: Allocator + Copy> {
    buffer: Vec<u8, A>,
    held: Vec<Item<V>, A>,
    index: HashIndex<A>,
    hash_builder: S,
}

impl<V: Drop, S: Drop, A: Allocator + Copy> Drop for BytesTable<V, S, A> {
    fn drop(self) {
        let BytesTable {
            buffer,
            held,
            index,
            hash_builder,
        } = self;
        drop(buffer);
        drop(held);
        drop(index);
        drop(hash_builder);
    }
}

impl<V: Copy, S: BuildHasher, A: Allocator + Copy> BytesTable<V, S, A> {
    /// No strings. They take no memory.
    pub(crate) fn new(alloc: A, hash_builder: S) -> Self
        ensures entries { entries_of result ≡ [] }
        ensures table { IsTable (bytes_hash_of S.BuildHasher S.Hasher.Hasher) result }
    {
        BytesTable {
            buffer: Vec::new(alloc),
            held: Vec::new(alloc),
            index: HashIndex::new(alloc, NARROW),
            hash_builder,
        }
    }

    /// Returns how many strings there are.
    pub(crate) fn len(&self) -> usize
        ensures { result ≡ length (entries_of self.now) }
    {
        self.held.len()
    }

    /// Returns the hash of bytes.
    pub(crate) fn hash(&self, bytes: &[u8]) -> u64
        ensures { result ≡ bytes_hash_of S.BuildHasher S.Hasher.Hasher self.now.hash_builder bytes.now }
    {
        let mut hasher = self.hash_builder.build_hasher();
        hasher.write(bytes);
        hasher.finish()
    }

    /// Where the string at a place begins.
    fn start_at(&self, place: usize) -> usize
        requires { place < vec_len self.now.held }
        ensures { result ≡ start_from 0 self.now.held.items place }
    {
        if place == 0 {
            0
        } else {
            self.held[place - 1].end
        }
    }

    /// The string at a place.
    pub(crate) fn bytes_at(&self, place: usize) -> &[u8]
        requires place { place < vec_len self.now.held }
        requires fills { Fills 0 (length self.now.buffer.items) self.now.held.items }
        ensures { result.now ≡ string_at self.now.buffer.items 0 self.now.held.items place }
    {
        let start = self.start_at(place);
        let end = self.held[place].end;
        &self.buffer[start..end]
    }

    /// The value of the string at a place.
    pub(crate) fn value_at(&self, place: usize) -> V
        requires place { place < vec_len self.now.held }
        ensures { slice_get (reverse (entries_of self.now)) place
            ≡ Some (string_at self.now.buffer.items 0 self.now.held.items place, result) }
    {
        self.held[place].value
    }

    /// Returns the place of the string, whose hash is given.
    #[inline(always)]
    pub(crate) fn find(&self, hash: u64, bytes: &[u8]) -> Option<usize>
        requires hash { hash ≡ bytes_hash_of S.BuildHasher S.Hasher.Hasher self.now.hash_builder bytes.now }
        requires table { IsTable (bytes_hash_of S.BuildHasher S.Hasher.Hasher) self.now }
        ensures found { IfSome result (λ p. IsFoundAt (bytes_eq bytes.now) p (entries_of self.now)) }
        ensures place { IfSome result (λ p. p < vec_len self.now.held) }
        ensures absent { IfNone result (lookup (bytes_eq bytes.now) (entries_of self.now) ≡ None) }
    {
        let bucket = self.index.bucket_of(hash);
        let mut number = self.index.first(bucket);
        'chain: while self.is_other(number, hash, bytes) {
            if self.index.is_last(number) {
                return None;
            }
            let place = self.index.place(number);
            number = self.index.next(place);
        }
        Some(self.index.place(number))
    }

    /// The number of the bucket of a hash, for `likely`.
    #[inline(always)]
    pub(crate) fn number(&self, hash: u64) -> usize {
        self.index.first(self.index.bucket_of(hash))
    }

    /// The first place with the tag of a hash in the chain that begins with a number, or one that is not far down. It looks at no string.
    #[inline(always)]
    pub(crate) fn likely(&self, number: usize, hash: u64) -> usize {
        self.index.likely(number, hash)
    }

    /// Returns whether a string at a place, which may be none, has so many bytes.
    #[inline(always)]
    pub(crate) fn is_as_long(&self, place: usize, length: usize) -> bool {
        place < self.held.len() && self.held[place].end.wrapping_sub(self.start_at(place)) == length
    }

    /// Returns whether the string at a place, which may be none, has the first and the last byte of `bytes`, if it is as long; of no bytes
    /// never. It reads both, since a string may lie in two lines of the processor's cache.
    #[inline(always)]
    pub(crate) fn has_ends_of(&self, place: usize, bytes: &[u8]) -> bool {
        if place >= self.held.len() || bytes.is_empty() {
            return false;
        }
        let first = self.start_at(place);
        let last = first.wrapping_add(bytes.len() - 1);
        if first >= self.buffer.len() || last >= self.buffer.len() {
            return false;
        }
        (self.buffer[first] ^ bytes[0]) | (self.buffer[last] ^ bytes[bytes.len() - 1]) == 0
    }

    /// Returns whether the string stands at a place, which may be none.
    #[inline(always)]
    pub(crate) fn holds(&self, place: usize, bytes: &[u8]) -> bool
        requires { IsTable (bytes_hash_of S.BuildHasher S.Hasher.Hasher) self.now }
        ensures found { result ≡ true → IsFoundAt (bytes_eq bytes.now) place (entries_of self.now) }
        ensures place { result ≡ true → place < vec_len self.now.held }
    {
        place < self.held.len() && bytes == self.bytes_at(place)
    }

    /// Returns whether a number names another place than that of the string, whose hash is given.
    #[inline(always)]
    fn is_other(&self, number: usize, hash: u64, bytes: &[u8]) -> bool
        requires place { (place_named self.now.index.bound number ≡ nowhere → ⊥)
            → place_named self.now.index.bound number < vec_len self.now.held }
        requires fills { Fills 0 (length self.now.buffer.items) self.now.held.items }
        ensures named { result ≡ false → place_named self.now.index.bound number ≡ nowhere → ⊥ }
        ensures same { result ≡ false → bytes_eq bytes.now
            (string_at self.now.buffer.items 0 self.now.held.items (place_named self.now.index.bound number)) ≡ true }
        ensures other { result ≡ true → (place_named self.now.index.bound number ≡ nowhere → ⊥)
            → tag_by self.now.index.tags number ≡ tag_by self.now.index.tags hash → bytes_eq bytes.now
            (string_at self.now.buffer.items 0 self.now.held.items (place_named self.now.index.bound number)) ≡ false }
    {
        if self.index.has_other_tag(number, hash) {
            return true;
        }
        let place = self.index.place(number);
        if place == NOWHERE {
            return true;
        }
        bytes != self.bytes_at(place)
    }

    /// Gives the string at a place another value, and returns the one that it had.
    #[inline(always)]
    pub(crate) fn replace(&mut self, place: usize, value: V) -> V
        requires place { place < vec_len self.old.held }
        requires table { IsTable (bytes_hash_of S.BuildHasher S.Hasher.Hasher) self.old }
        ensures before { (test : List ℕ → Bool) → IsFoundAt test place (entries_of self.old)
            → lookup test (entries_of self.old) ≡ Some result }
        ensures replaced { (test : List ℕ → Bool) → IsFoundAt test place (entries_of self.old)
            → entries_of self.new ≡ set_value test (entries_of self.old) value }
        ensures table { IsTable (bytes_hash_of S.BuildHasher S.Hasher.Hasher) self.new }
        ensures builder { self.new.hash_builder ≡ self.old.hash_builder }
    {
        let before = self.held[place].value;
        self.held[place].value = value;
        before
    }

    /// Takes a new string, whose hash is given, with its value. If memory is refused, the entries stay.
    pub(crate) fn push(&mut self, hash: u64, bytes: &[u8], value: V) -> Result<(), NoMemory>
        requires hash { hash ≡ bytes_hash_of S.BuildHasher S.Hasher.Hasher self.old.hash_builder bytes.now }
        requires table { IsTable (bytes_hash_of S.BuildHasher S.Hasher.Hasher) self.old }
        requires absent { lookup (bytes_eq bytes.now) (entries_of self.old) ≡ None }
        ensures taken { OnOk result (entries_of self.new ≡ (bytes.now, value) ∷ entries_of self.old) }
        ensures refused { OnErr result (entries_of self.new ≡ entries_of self.old) }
        ensures table { IsTable (bytes_hash_of S.BuildHasher S.Hasher.Hasher) self.new }
        ensures builder { self.new.hash_builder ≡ self.old.hash_builder }
    {
        self.make_room()?;
        let place = self.held.len();
        let Ok(()) = self.buffer.extend_from_slice(bytes) else {
            return Err(NoMemory);
        };
        let end = self.buffer.len();
        self.held.push_reserved(Item { end, value });
        link_place(&mut self.index, place, hash);
        Ok(())
    }

    /// Finds memory for the item and the link of one more string.
    #[inline(always)]
    fn make_room(&mut self) -> Result<(), NoMemory>
        requires { IsTable (bytes_hash_of S.BuildHasher S.Hasher.Hasher) self.old }
        ensures linked { OnOk result (vec_len self.new.held < length self.new.index.links) }
        ensures room { OnOk result (vec_len self.new.held < vec_capacity self.new.held) }
        ensures table { IsTable (bytes_hash_of S.BuildHasher S.Hasher.Hasher) self.new }
        ensures keeps { KeepsStrings self.old self.new }
    {
        self.make_link()?;
        match self.held.reserve(1) {
            Ok(()) => Ok(()),
            Err(_) => Err(NoMemory),
        }
    }

    /// Finds memory for the link of one more string.
    #[inline(always)]
    fn make_link(&mut self) -> Result<(), NoMemory>
        requires { IsTable (bytes_hash_of S.BuildHasher S.Hasher.Hasher) self.old }
        ensures linked { OnOk result (vec_len self.new.held < length self.new.index.links) }
        ensures table { IsTable (bytes_hash_of S.BuildHasher S.Hasher.Hasher) self.new }
        ensures keeps { KeepsStrings self.old self.new }
    {
        if self.held.len() < self.index.link_count() {
            return Ok(());
        }
        self.index = self.grown_index()?;
        Ok(())
    }

    /// Makes an index for twice as many places, where all strings are linked. It is called seldom, and is therefore out of line.
    #[cold]
    #[inline(never)]
    fn grown_index(&self) -> Result<HashIndex<A>, NoMemory>
        requires { Fills 0 (length self.now.buffer.items) self.now.held.items }
        ensures stacked { IfOk result (λ x. IsStacked x
            (hashes_of (bytes_hash_of S.BuildHasher S.Hasher.Hasher self.now.hash_builder) (entries_of self.now))) }
        ensures linked { IfOk result (λ x. vec_len self.now.held < length x.links) }
        ensures named { IfOk result (λ x. length x.links ≤ x.bound) }
    {
        let len = self.held.len();
        let wanted = len.saturating_mul(2).max(FIRST_PLACES);
        let mut index = self.index.empty_resized(wanted)?;
        for place in 0..len {
            let hash = self.hash(self.bytes_at(place));
            link_place(&mut index, place, hash);
        }
        Ok(index)
    }
}

/// Links the next place, whose string has the hash, in front of the chain of its bucket.
fn link_place<A: Allocator + Copy>(index: &mut HashIndex<A>, place: usize, hash: u64)
    requires linked { HasLink index.old place }
    requires named { length index.old.links ≤ index.old.bound }
    ensures stacked { (hashes : List ℕ) → length hashes ≡ place → IsStacked index.old hashes
        → IsStacked index.new (hash ∷ hashes) }
    ensures same { KeepsSizes index.old index.new }
{
    let bucket = index.bucket_of(hash);
    let first = index.first(bucket);
    let number = index.number_of(place, hash);
    let leads = index.is_named(first);
    let noted = index.noted(number, leads);
    index.set_next(place, first);
    index.set_first(bucket, noted);
}
