//! Floors of what every policy misses, written into arrays of the caller.
ghost use Rattle.std.specs.Prelude.{◌≡◌, ◌≢◌, ◌^◌, ◌<◌, ◌≤◌, [], length, nat_eq, slice_index, Contains, EachIndex, IfOk, IsErr, IsOk};
ghost use Rattle.std.specs.List.{zip};
ghost use Rattle.std.specs.Result.{IsErrAnd};
ghost use Rattle.clru_curve.specs.SizedCurves.{size_of_all};
ghost use Rattle.clru_least.specs.FloorNumbers.{IsFloorOf, IsSizeFloorOf, floor_at, size_floor_at};
ghost use Rattle.clru_least.specs.Reuses.{IsTooLarge};
ghost use Rattle.clru_c.specs.Arrays.{AreBelow, AreFloors, AreSizeFloors};
ghost use Rattle.clru_c.specs.Codes.{IsCode};
ghost use Rattle.clru_c.specs.Objects.{IsFloorCode, same_object, weight_of};

use crate::codes::{NO_CAPACITY, NO_MEMORY, OK, TOO_LARGE, WRONG_LENGTH};
use crate::sized::{SizeScale, objects_of};
use clru_least::{Floor, FloorPass, FloorRequestError, SizeFloor, floor, law_floor};
use std::alloc::{AllocError, Allocator};
use std::hash::BuildHasher;
use std::num::NonZeroUsize;

/// A floor of the misses for each room.
pub(crate) fn floor_by_room<S: BuildHasher + Drop, A: Allocator + Copy>(
    alloc: A,
    keys: &[u64],
    rooms: &[usize],
    floors: &mut [usize],
    hash_builder: S,
) -> u32
    ensures floors { result ≡ OK → AreFloors nat_eq (λ _. 0) keys.now rooms.now floors.new }
    ensures left { result ≢ OK → floors.new ≡ floors.old }
    ensures codes { IsCode (Contains rooms.now 0) (length floors.old ≡ length rooms.now) result }
    ensures never_refused { keys.now ≡ [] → result ≢ NO_MEMORY }
{
    if rooms.contains(&0) {
        return NO_CAPACITY;
    }
    if floors.len() != rooms.len() {
        return WRONG_LENGTH;
    }
    let Ok(bound) = floor_of(alloc, keys, hash_builder) else {
        return NO_MEMORY;
    };
    law_floor::<u64>();
    write_floors(&bound, rooms, floors);
    OK
}

/// The floor of the keys. As a function of its own its loop has the registers to itself.
#[inline(never)]
fn floor_of<S: BuildHasher + Drop, A: Allocator + Copy>(
    alloc: A,
    keys: &[u64],
    hash_builder: S,
) -> Result<Floor<A>, AllocError>
    ensures floor { IfOk result (IsFloorOf nat_eq (λ _. 0) keys.now) }
    ensures never_refused { keys.now ≡ [] → IsOk result }
{
    floor(alloc, keys, hash_builder)
}

/// The floor of the misses at each of the rooms.
fn write_floors<A: Allocator>(bound: &Floor<A>, rooms: &[usize], floors: &mut [usize])
    requires some { ¬ Contains rooms.now 0 }
    requires many { length floors.old ≡ length rooms.now }
    ensures { AreBelow (λ i n. n ≡ floor_at bound.now (slice_index rooms.now i)) floors.new (length floors.new) }
{
    for index in 0..rooms.len() {
        let Some(room) = NonZeroUsize::new(rooms[index]) else {
            unreachable!();
        };
        floors[index] = bound.misses(room);
    }
}

/// A floor of the misses and one of the missed size for each of the rooms.
pub(crate) fn floor_by_size<S: BuildHasher + Drop, A: Allocator + Copy>(
    alloc: A,
    keys: &[u64],
    sizes: &[usize],
    rooms: &[usize],
    missed: &mut [usize],
    lost: &mut [usize],
    hash_builder: S,
) -> u32
    ensures misses { result ≡ OK → AreFloors same_object weight_of (zip keys.now sizes.now) rooms.now missed.new }
    ensures missed_sizes { result ≡ OK → AreSizeFloors same_object weight_of (zip keys.now sizes.now) rooms.now lost.new }
    ensures left { result ≢ OK → (missed.new ≡ missed.old) × (lost.new ≡ lost.old) }
    ensures codes { IsFloorCode keys.now sizes.now rooms.now missed.old lost.old result }
    ensures never_refused { keys.now ≡ [] → result ≢ NO_MEMORY }
{
    if rooms.contains(&0) {
        return NO_CAPACITY;
    }
    if sizes.len() != keys.len() || missed.len() != rooms.len() || lost.len() != rooms.len() {
        return WRONG_LENGTH;
    }
    let Ok(objects) = objects_of(alloc, keys, sizes) else {
        return NO_MEMORY;
    };
    let bounds = match floors_of(alloc, &objects, hash_builder) {
        Ok(bounds) => bounds,
        Err(FloorRequestError::NoMemory) => return NO_MEMORY,
        Err(FloorRequestError::TooLarge) => return TOO_LARGE,
    };
    law_floor::<(u64, usize)>();
    write_floors(&bounds.0, rooms, missed);
    write_size_floors(&bounds.1, rooms, lost);
    OK
}

/// Both floors of the objects, by a function of its own for the same reason.
#[inline(never)]
fn floors_of<S: BuildHasher + Drop, A: Allocator + Copy>(
    alloc: A,
    objects: &[(u64, usize)],
    hash_builder: S,
) -> Result<(Floor<A>, SizeFloor<A>), FloorRequestError>
    ensures misses { IfOk result (λ both. IsFloorOf same_object weight_of objects.now both.0) }
    ensures missed_size { IfOk result (λ both. IsSizeFloorOf same_object weight_of objects.now both.1) }
    ensures too_large { IsErrAnd result IsTooLarge → 2 ^ 64 ≤ size_of_all weight_of objects.now }
    ensures passes { 2 ^ 64 ≤ size_of_all weight_of objects.now → IsErr result }
    ensures never_refused { objects.now ≡ [] → IsOk result }
{
    let pass = match FloorPass::of_keys(alloc, objects, SizeScale, hash_builder) {
        Ok(pass) => pass,
        Err(refusal) => return Err(refusal),
    };
    let Ok(misses) = pass.floor() else {
        return Err(FloorRequestError::NoMemory);
    };
    let Ok(sizes) = pass.size_floor() else {
        return Err(FloorRequestError::NoMemory);
    };
    Ok((misses, sizes))
}

/// The floor of the missed size at each of the rooms.
fn write_size_floors<A: Allocator>(bound: &SizeFloor<A>, rooms: &[usize], floors: &mut [usize])
    requires some { ¬ Contains rooms.now 0 }
    requires many { length floors.old ≡ length rooms.now }
    ensures { AreBelow (λ i n. n ≡ size_floor_at bound.now (slice_index rooms.now i)) floors.new (length floors.new) }
{
    for index in 0..rooms.len() {
        let Some(room) = NonZeroUsize::new(rooms[index]) else {
            unreachable!();
        };
        floors[index] = bound.missed_size(room);
    }
}
