//! `BytesMap`: strings of bytes with a value each, which keeps all of them in one buffer.
ghost use Rattle.std.specs.Prelude.{◌≡◌, ◌≤◌, ℕ, List, [], true, Some, length, reverse, is_some, bytes_eq, IfNone, IfOk, IfSome, IsOk, OnOk, OnErr};
ghost use Rattle.std.specs.List.{All, slice_get};
ghost use Rattle.std.specs.Map.{lookup};
ghost use Rattle.clru_linked_map.specs.Announced.{AreHashed, IsHashed};
ghost use Rattle.clru_linked_map.specs.BytesMaps.{with_bytes};
ghost use Rattle.clru_linked_map.specs.BytesTable.{IsTable, bytes_hash_of};

use crate::announced::{Announced, Hashed};
use crate::bytes_table::BytesTable;
use clru_list::{NOWHERE, NoMemory};
use std::alloc::Allocator;
use std::hash::BuildHasher;
use std::marker::Model;

/// Strings of bytes with a value each, found by their hashes. None is dropped, and none has an allocation of its own. A clause sees
/// the entries, the latest inserted first.
///
/// Takes memory for the bytes in one buffer, and for each string 8 bytes, its value, two buckets and a link of 4 bytes each, or of 8
/// past 2^30 strings. Each of these doubles when it is full. Announced strings take their bytes and 24 more each, and 8 once they are
/// looked up; the map keeps that memory for later ones.
pub struct BytesMap<V: Copy, S: BuildHasher, A: Allocator + Copy> {
    table: BytesTable<V, S, A>,
    announced: Announced<A>,
}

impl<V: Copy, S: BuildHasher + Drop, A: Allocator + Copy> Drop for BytesMap<V, S, A> {
    fn drop(self) {
        let BytesMap { table, announced } = self;
        drop(table);
        drop(announced);
    }
}

impl<V: Copy, S: BuildHasher, A: Allocator + Copy> Model for BytesMap<V, S, A> {
    ghost use Rattle.std.specs.Prelude.{ℕ, List};
    ghost use Rattle.std.specs.Coded.{coded×, coded_list, coded_ℕ};
    ghost use Rattle.clru_linked_map.specs.Announced.{AreHashed};
    ghost use Rattle.clru_linked_map.specs.BytesTable.{IsTable, bytes_hash_by, entries_of};

    ghost Value = { List (List ℕ × V) };

    ghost coded = { coded_list (coded× (coded_list coded_ℕ) V.code) };

    ghost view = { λ m. entries_of m.table };

    ghost invariant = { λ m. IsTable (bytes_hash_by S.Hasher.finish S.Hasher.write S.build_hasher) m.table
        × AreHashed (bytes_hash_by S.Hasher.finish S.Hasher.write S.build_hasher m.table.hash_builder) m.announced };
}

impl<V: Copy, S: BuildHasher, A: Allocator + Copy> BytesMap<V, S, A> {
    /// Creates a map that holds nothing.
    /// Cost: no request for memory.
    pub fn new(alloc: A, hash_builder: S) -> Self
        ensures { result ≡ [] }
    {
        BytesMap {
            table: BytesTable::new(alloc, hash_builder),
            announced: Announced::new(alloc),
        }
    }

    /// Returns how many strings are held.
    /// Cost: none.
    pub fn len(&self) -> usize
        ensures { result ≡ length self.now }
    {
        self.table.len()
    }

    /// Returns the string that was inserted when so many others were held, and its value. Returns `None` if no more are held.
    /// Cost: none.
    pub fn get_index(&self, index: usize) -> Option<(&[u8], V)>
        ensures found { IfSome result (λ found. slice_get (reverse self.now) index ≡ Some (found.0.now, found.1)) }
        ensures none { IfNone result (length self.now ≤ index) }
    {
        if index >= self.table.len() {
            return None;
        }
        Some((self.table.bytes_at(index), self.table.value_at(index)))
    }

    /// Gives the string a value, and returns the one that it had. If memory is refused, the map is unchanged. A string that is held
    /// asks for none.
    /// Cost: at most one hash and a walk along one chain. For a new string also a copy of it, and at most three requests for memory: for the
    /// bytes, for the items, and for an index, into which all strings are hashed again.
    pub fn insert(&mut self, bytes: &[u8], value: V) -> Result<Option<V>, NoMemory>
        ensures before { IfOk result (λ v. v ≡ lookup (bytes_eq bytes.now) self.old) }
        ensures taken { OnOk result (self.new ≡ with_bytes bytes.now value self.old) }
        ensures refused { OnErr result (self.new ≡ self.old) }
        ensures held { is_some (lookup (bytes_eq bytes.now) self.old) ≡ true → IsOk result }
    {
        let at = self.announced.pass();
        let place = self.announced.place(at);
        if self.table.holds(place, bytes) {
            return Ok(Some(self.table.replace(place, value)));
        }
        let hash = hash_at(&self.table, &self.announced, at, bytes);
        match self.table.find(hash, bytes) {
            Some(place) => Ok(Some(self.table.replace(place, value))),
            None => {
                self.table.push(hash, bytes, value)?;
                Ok(None)
            }
        }
    }

    /// Announces a string that is to be inserted after those that were announced before. This only saves time: its insertion does not hash
    /// it again. The map stays as it is, whatever is inserted instead. If memory is refused, the string is not announced.
    /// Cost: one hash, and a copy of the string, which is dropped by the first announcement after as many strings were inserted as were
    /// announced; at most two requests for memory.
    pub fn announce(&mut self, bytes: &[u8]) -> Result<(), NoMemory>
        ensures { self.new ≡ self.old }
    {
        let hash = self.table.hash(bytes);
        self.announced.push(hash, bytes)
    }

    /// Looks all announced strings up together, so that the processor reads for several at once, and their insertions find in its caches
    /// what they need. The map stays as it is. If memory is refused, none is looked up.
    /// Cost: a walk along one chain for each; requests for memory only if there are more strings than at any earlier call.
    pub fn prefetch(&mut self) -> Result<(), NoMemory>
        ensures { self.new ≡ self.old }
    {
        let announced = &mut self.announced;
        places_of(
            &self.table,
            &announced.bytes,
            &announced.strings,
            &mut announced.places,
        )
    }

    /// Returns the value that an announced string is likely to have, by its number among those that were looked up together. Returns `None`
    /// if it is likely to be new.
    /// Cost: none.
    pub fn announced_value(&self, number: usize) -> Option<V>
        ensures { IfSome result (λ value. (place : ℕ) × (string : List ℕ) × (slice_get (reverse self.now) place ≡ Some (string, value))) }
    {
        let place = self.announced.place(number);
        if place >= self.table.len() {
            return None;
        }
        Some(self.table.value_at(place))
    }
}

/// The hash of a string, which may be the announced one of this number.
fn hash_at<V: Copy, S: BuildHasher, A: Allocator + Copy>(
    table: &BytesTable<V, S, A>,
    announced: &Announced<A>,
    at: usize,
    bytes: &[u8],
) -> u64
    requires { AreHashed (bytes_hash_of S.BuildHasher S.Hasher.Hasher table.now.hash_builder) announced.now }
    ensures { result ≡ bytes_hash_of S.BuildHasher S.Hasher.Hasher table.now.hash_builder bytes.now }
{
    match announced.hash_of(at, bytes) {
        Some(hash) => hash,
        None => table.hash(bytes),
    }
}

/// Puts the places where these strings are likely to stand, or `NOWHERE`, into `places`. Each step is done for all strings before the next
/// one, because the processor stops reading ahead where it guessed wrong.
fn places_of<V: Copy, S: BuildHasher, A: Allocator + Copy>(
    table: &BytesTable<V, S, A>,
    bytes: &[u8],
    strings: &[Hashed],
    places: &mut Vec<usize, A>,
) -> Result<(), NoMemory>
    requires table { IsTable (bytes_hash_of S.BuildHasher S.Hasher.Hasher) table.now }
    requires hashed { All (IsHashed (bytes_hash_of S.BuildHasher S.Hasher.Hasher table.now.hash_builder) bytes.now) strings.now }
{
    places.clear();
    for at in 0..strings.len() {
        let Ok(()) = places.push(table.number(strings[at].hash)) else {
            return Err(NoMemory);
        };
    }
    for at in 0..strings.len().min(places.len()) {
        places[at] = table.likely(places[at], strings[at].hash);
    }
    for at in 0..strings.len().min(places.len()) {
        let Hashed { start, end, .. } = strings[at];
        if !table.is_as_long(places[at], end - start) {
            places[at] = NOWHERE;
        }
    }
    for at in 0..strings.len().min(places.len()) {
        let Hashed { start, end, .. } = strings[at];
        if !table.has_ends_of(places[at], &bytes[start..end]) {
            places[at] = NOWHERE;
        }
    }
    Ok(())
}
