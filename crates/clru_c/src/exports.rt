//! What C calls.
//!
//! Calls for the two kinds of seeds share no code, since one takes the allocator by reference: what has one caller is inlined.
ghost use Rattle.std.specs.Prelude.{◌≡◌, ◌≢◌, ◌+◌, ◌*◌, [], length, nat_eq, Contains};
ghost use Rattle.std.specs.List.{zip};
ghost use Rattle.clru_c.specs.Arrays.{AreFloors, AreHits, AreLeast, AreSizeFloors, IsCurve};
ghost use Rattle.clru_c.specs.Codes.{IsCode};
ghost use Rattle.clru_c.specs.Objects.{AreSizedMisses, IsFloorCode, IsSizedCode, same_object, weight_of};
ghost use Rattle.clru_c.specs.OneSize.{first_other, greatest_of_each};
ghost use Rattle.clru_c.specs.Parts.{missed_without, missed_with, rows_of};
ghost use Rattle.clru_curve.specs.Splits.{IsBestSplit};

use crate::arrays::{hits_at, least_by_room, misses_by_capacity};
use crate::codes::{NO_MEMORY, OK};
use crate::floors::{floor_by_room, floor_by_size};
use crate::keyed::seeded;
use crate::one_size::{greatest_sizes, other_size};
use crate::parts::parts_of;
use crate::sized::misses_by_size;
use clru::DefaultState;
use std::alloc::Global;

/// Writes which of the requests hit at the capacity, and how many don't.
#[unsafe(no_mangle)]
pub extern "C" fn clru_hits_at(
    alloc: Global,
    keys: &[u64],
    capacity: usize,
    seed_low: u64,
    seed_high: u64,
    hits: &mut [bool],
    misses: &mut usize,
) -> u32
    ensures hits { result ≡ OK → AreHits nat_eq capacity keys.now hits.new misses.new }
    ensures left { result ≢ OK → (hits.new ≡ hits.old) × (misses.new ≡ misses.old) }
    ensures codes { IsCode (capacity ≡ 0) (length hits.old ≡ length keys.now) result }
    ensures never_refused { keys.now ≡ [] → result ≢ NO_MEMORY }
    ensures length { length hits.new ≡ length hits.old }
{
    match seeded(seed_low, seed_high) {
        None => hits_at(alloc, keys, capacity, hits, misses, DefaultState),
        Some(state) => hits_at(&alloc, keys, capacity, hits, misses, state),
    }
}

/// Writes the misses at the capacities 1, 2 and so on, one for each element of the array, and the number of distinct keys.
#[unsafe(no_mangle)]
pub extern "C" fn clru_misses_by_capacity(
    alloc: Global,
    keys: &[u64],
    seed_low: u64,
    seed_high: u64,
    misses: &mut [usize],
    distinct: &mut usize,
) -> u32
    ensures misses { result ≡ OK → IsCurve nat_eq keys.now misses.new distinct.new }
    ensures left { result ≢ OK → (misses.new ≡ misses.old) × (distinct.new ≡ distinct.old) }
    ensures codes { IsCode ⊥ Unit result }
    ensures never_refused { keys.now ≡ [] → result ≡ OK }
    ensures length { length misses.new ≡ length misses.old }
{
    match seeded(seed_low, seed_high) {
        None => misses_by_capacity(alloc, keys, misses, distinct, DefaultState),
        Some(state) => misses_by_capacity(&alloc, keys, misses, distinct, state),
    }
}

/// Writes the least number of misses for each room.
#[unsafe(no_mangle)]
pub extern "C" fn clru_least_by_room(
    alloc: Global,
    keys: &[u64],
    rooms: &[usize],
    seed_low: u64,
    seed_high: u64,
    least: &mut [usize],
) -> u32
    ensures least { result ≡ OK → AreLeast nat_eq keys.now rooms.now least.new }
    ensures left { result ≢ OK → least.new ≡ least.old }
    ensures codes { IsCode (Contains rooms.now 0) (length least.old ≡ length rooms.now) result }
    ensures never_refused { keys.now ≡ [] → result ≢ NO_MEMORY }
    ensures length { length least.new ≡ length least.old }
{
    match seeded(seed_low, seed_high) {
        None => least_by_room(alloc, keys, rooms, least, DefaultState),
        Some(state) => least_by_room(&alloc, keys, rooms, least, state),
    }
}

/// Writes the misses and the missed size at each of the capacities, where each key comes with a size, and the size of the
/// distinct objects.
#[unsafe(no_mangle)]
pub extern "C" fn clru_misses_by_size(
    alloc: Global,
    keys: &[u64],
    sizes: &[usize],
    capacities: &[usize],
    seed_low: u64,
    seed_high: u64,
    misses: &mut [usize],
    missed_sizes: &mut [usize],
    distinct_size: &mut usize,
) -> u32
    ensures misses { result ≡ OK
        → AreSizedMisses (zip keys.now sizes.now) capacities.now misses.new missed_sizes.new distinct_size.new }
    ensures left { result ≢ OK → (misses.new ≡ misses.old) × (missed_sizes.new ≡ missed_sizes.old)
        × (distinct_size.new ≡ distinct_size.old) }
    ensures codes { IsSizedCode keys.now sizes.now capacities.now misses.old missed_sizes.old result }
    ensures never_refused { keys.now ≡ [] → result ≢ NO_MEMORY }
    ensures length { length misses.new ≡ length misses.old }
    ensures length_of_sizes { length missed_sizes.new ≡ length missed_sizes.old }
{
    let (sums, size) = (missed_sizes, distinct_size);
    match seeded(seed_low, seed_high) {
        None => {
            let state = DefaultState;
            misses_by_size(alloc, keys, sizes, capacities, misses, sums, size, state)
        }
        Some(state) => misses_by_size(&alloc, keys, sizes, capacities, misses, sums, size, state),
    }
}

/// Writes a floor of the misses for each room.
#[unsafe(no_mangle)]
pub extern "C" fn clru_floor_by_room(
    alloc: Global,
    keys: &[u64],
    rooms: &[usize],
    seed_low: u64,
    seed_high: u64,
    floors: &mut [usize],
) -> u32
    ensures floors { result ≡ OK → AreFloors nat_eq (λ _. 0) keys.now rooms.now floors.new }
    ensures left { result ≢ OK → floors.new ≡ floors.old }
    ensures codes { IsCode (Contains rooms.now 0) (length floors.old ≡ length rooms.now) result }
    ensures never_refused { keys.now ≡ [] → result ≢ NO_MEMORY }
    ensures length { length floors.new ≡ length floors.old }
{
    match seeded(seed_low, seed_high) {
        None => floor_by_room(alloc, keys, rooms, floors, DefaultState),
        Some(state) => floor_by_room(&alloc, keys, rooms, floors, state),
    }
}

/// Writes a floor of the misses and one of the missed size for each of the rooms, where each key comes with a size.
#[unsafe(no_mangle)]
pub extern "C" fn clru_floor_by_size(
    alloc: Global,
    keys: &[u64],
    sizes: &[usize],
    rooms: &[usize],
    seed_low: u64,
    seed_high: u64,
    misses: &mut [usize],
    missed_sizes: &mut [usize],
) -> u32
    ensures misses { result ≡ OK → AreFloors same_object weight_of (zip keys.now sizes.now) rooms.now misses.new }
    ensures missed_sizes { result ≡ OK
        → AreSizeFloors same_object weight_of (zip keys.now sizes.now) rooms.now missed_sizes.new }
    ensures left { result ≢ OK → (misses.new ≡ misses.old) × (missed_sizes.new ≡ missed_sizes.old) }
    ensures codes { IsFloorCode keys.now sizes.now rooms.now misses.old missed_sizes.old result }
    ensures never_refused { keys.now ≡ [] → result ≢ NO_MEMORY }
    ensures length { length misses.new ≡ length misses.old }
    ensures length_of_sizes { length missed_sizes.new ≡ length missed_sizes.old }
{
    let sums = missed_sizes;
    match seeded(seed_low, seed_high) {
        None => floor_by_size(alloc, keys, sizes, rooms, misses, sums, DefaultState),
        Some(state) => floor_by_size(&alloc, keys, sizes, rooms, misses, sums, state),
    }
}

/// Replaces each size by the greatest size that its key comes with.
#[unsafe(no_mangle)]
pub extern "C" fn clru_greatest_sizes(
    alloc: Global,
    keys: &[u64],
    seed_low: u64,
    seed_high: u64,
    sizes: &mut [usize],
) -> u32
    ensures greatest { result ≡ OK → sizes.new ≡ greatest_of_each keys.now sizes.old }
    ensures left { result ≢ OK → sizes.new ≡ sizes.old }
    ensures codes { IsCode ⊥ (length sizes.old ≡ length keys.now) result }
    ensures never_refused { keys.now ≡ [] → result ≢ NO_MEMORY }
    ensures length { length sizes.new ≡ length sizes.old }
{
    match seeded(seed_low, seed_high) {
        None => greatest_sizes(alloc, keys, sizes, DefaultState),
        Some(state) => greatest_sizes(&alloc, keys, sizes, state),
    }
}

/// Writes the index of the first request whose key came before with another size, or how many requests there are.
#[unsafe(no_mangle)]
pub extern "C" fn clru_other_size(
    alloc: Global,
    keys: &[u64],
    sizes: &[usize],
    seed_low: u64,
    seed_high: u64,
    index: &mut usize,
) -> u32
    ensures other { result ≡ OK → index.new ≡ first_other [] (zip keys.now sizes.now) }
    ensures left { result ≢ OK → index.new ≡ index.old }
    ensures codes { IsCode ⊥ (length sizes.now ≡ length keys.now) result }
    ensures never_refused { keys.now ≡ [] → result ≢ NO_MEMORY }
{
    match seeded(seed_low, seed_high) {
        None => other_size(alloc, keys, sizes, index, DefaultState),
        Some(state) => other_size(&alloc, keys, sizes, index, state),
    }
}

/// Writes how many units of the budget each of several caches gets. Each has a row of what it misses with 0 units, with 1 and so on up
/// to the budget.
#[unsafe(no_mangle)]
pub extern "C" fn clru_split(
    alloc: Global,
    missed: &[usize],
    budget: usize,
    parts: &mut [usize],
) -> u32
    ensures parts { result ≡ OK
        → IsBestSplit missed_without missed_with 1 budget (rows_of (budget + 1) (length parts.old) missed.now) parts.new }
    ensures left { result ≢ OK → parts.new ≡ parts.old }
    ensures codes { IsCode ⊥ (length missed.now ≡ length parts.old * (budget + 1)) result }
    ensures never_refused { parts.old ≡ [] → result ≢ NO_MEMORY }
    ensures length { length parts.new ≡ length parts.old }
{
    parts_of(alloc, missed, budget, parts)
}
