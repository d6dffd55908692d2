//! One size for each key: the greatest it comes with, or the first request that gives a key another one.
ghost use Rattle.std.specs.Prelude.{◌≡◌, ◌≢◌, ℕ, [], length, map, max, nat_eq, IfOk, IsOk, OnOk, if◌then◌else◌};
ghost use Rattle.std.specs.List.{zip};
ghost use Rattle.clru_c.specs.Codes.{IsCode};
ghost use Rattle.clru_c.specs.OneSize.{first_other, greatest_of_each, greatest_of_key, is_another, size_in};

use crate::codes::{NO_MEMORY, OK, WRONG_LENGTH};
use std::alloc::{AllocError, Allocator};
use std::collections::HashMap;
use std::hash::BuildHasher;

/// Gives each key the greatest of its sizes.
pub(crate) fn greatest_sizes<S: BuildHasher + Drop, A: Allocator + Copy>(
    alloc: A,
    keys: &[u64],
    sizes: &mut [usize],
    hash_builder: S,
) -> u32
    ensures greatest { result ≡ OK → sizes.new ≡ greatest_of_each keys.now sizes.old }
    ensures left { result ≢ OK → sizes.new ≡ sizes.old }
    ensures codes { IsCode ⊥ (length sizes.old ≡ length keys.now) result }
    ensures never_refused { keys.now ≡ [] → result ≢ NO_MEMORY }
{
    if sizes.len() != keys.len() {
        return WRONG_LENGTH;
    }
    let Ok(greatest) = greatest_of(alloc, keys, sizes, hash_builder) else {
        return NO_MEMORY;
    };
    write_sizes(&greatest, keys, sizes);
    OK
}

/// The greatest size of each key.
#[inline(never)]
fn greatest_of<S: BuildHasher + Drop, A: Allocator + Copy>(
    alloc: A,
    keys: &[u64],
    sizes: &[usize],
    hash_builder: S,
) -> Result<HashMap<u64, usize, S, A>, AllocError>
    requires equally_long { length sizes.now ≡ length keys.now }
    ensures greatest { IfOk result (λ greatest. (key : ℕ) → size_in greatest key ≡ greatest_of_key (zip keys.now sizes.now) key) }
    ensures never_refused { keys.now ≡ [] → IsOk result }
{
    let mut greatest = HashMap::with_hasher(alloc, hash_builder);
    for index in 0..keys.len() {
        note_size(&mut greatest, keys[index], sizes[index])?;
    }
    Ok(greatest)
}

/// Notes one more size of a key.
fn note_size<S: BuildHasher, A: Allocator + Copy>(
    greatest: &mut HashMap<u64, usize, S, A>,
    key: u64,
    size: usize,
) -> Result<(), AllocError>
    ensures { OnOk result ((other : ℕ) → size_in greatest.new other
        ≡ (if nat_eq key other then max (size_in greatest.old other) size else size_in greatest.old other)) }
{
    if size <= held_size(greatest, key) {
        return Ok(());
    }
    match greatest.insert(key, size) {
        Ok(_) => Ok(()),
        Err(_) => Err(AllocError),
    }
}

/// The size that a key has, or 0.
fn held_size<S: BuildHasher, A: Allocator + Copy>(
    greatest: &HashMap<u64, usize, S, A>,
    key: u64,
) -> usize
    ensures { result ≡ size_in greatest.now key }
{
    match greatest.get(&key).copied() {
        Some(size) => size,
        None => 0,
    }
}

/// Writes the size that each key has.
#[inline(never)]
fn write_sizes<S: BuildHasher, A: Allocator + Copy>(
    greatest: &HashMap<u64, usize, S, A>,
    keys: &[u64],
    sizes: &mut [usize],
)
    requires equally_long { length sizes.old ≡ length keys.now }
    ensures { sizes.new ≡ map (size_in greatest.now) keys.now }
{
    for index in 0..keys.len() {
        sizes[index] = held_size(greatest, keys[index]);
    }
}

/// Writes at which index a key first has another size than before, or how many requests there are.
pub(crate) fn other_size<S: BuildHasher + Drop, A: Allocator + Copy>(
    alloc: A,
    keys: &[u64],
    sizes: &[usize],
    index: &mut usize,
    hash_builder: S,
) -> u32
    ensures other { result ≡ OK → index.new ≡ first_other [] (zip keys.now sizes.now) }
    ensures left { result ≢ OK → index.new ≡ index.old }
    ensures codes { IsCode ⊥ (length sizes.now ≡ length keys.now) result }
    ensures never_refused { keys.now ≡ [] → result ≢ NO_MEMORY }
{
    if sizes.len() != keys.len() {
        return WRONG_LENGTH;
    }
    match first_of_another_size(alloc, keys, sizes, hash_builder) {
        Ok(first) => {
            *index = first;
            OK
        }
        Err(_) => NO_MEMORY,
    }
}

/// The index of the first request whose key came before with another size, or how many there are.
#[inline(never)]
fn first_of_another_size<S: BuildHasher + Drop, A: Allocator + Copy>(
    alloc: A,
    keys: &[u64],
    sizes: &[usize],
    hash_builder: S,
) -> Result<usize, AllocError>
    requires equally_long { length sizes.now ≡ length keys.now }
    ensures first { IfOk result (λ index. index ≡ first_other [] (zip keys.now sizes.now)) }
    ensures never_refused { keys.now ≡ [] → IsOk result }
{
    let mut held = HashMap::with_hasher(alloc, hash_builder);
    for index in 0..keys.len() {
        let size = sizes[index];
        let Ok(before) = held.insert(keys[index], size) else {
            return Err(AllocError);
        };
        if is_other(before, size) {
            return Ok(index);
        }
    }
    Ok(keys.len())
}

/// Whether a key had another size before.
fn is_other(before: Option<usize>, size: usize) -> bool
    ensures { result ≡ is_another before size }
{
    match before {
        Some(before) => before != size,
        None => false,
    }
}
