//! Results, written into arrays of the caller. A call that does not return `OK` writes nothing.
ghost use Rattle.std.specs.Prelude.{◌≡◌, ◌≢◌, [], length, nat_eq, Contains, IfOk, IsOk};
ghost use Rattle.std.specs.Int.NonZero.{non_zero_usize_get};
ghost use Rattle.clru_c.specs.Arrays.{AreHits, IsCurve, AreLeast, IsLeastOf};
ghost use Rattle.clru_c.specs.Codes.{IsCode};

use crate::codes::{NO_CAPACITY, NO_MEMORY, OK, WRONG_LENGTH};
use clru::{NoMemory, Replay, replay_slice};
use clru_curve::miss_curve;
use clru_least::Foresight;
use std::alloc::{AllocError, Allocator};
use std::hash::BuildHasher;
use std::num::NonZeroUsize;

/// Which requests hit at the capacity, and how many don't.
#[tactic(auto, using(crate::proofs::Marked::length_marks))]
#[inline(never)]
pub(crate) fn hits_at<S: BuildHasher + Drop, A: Allocator + Copy>(
    alloc: A,
    keys: &[u64],
    capacity: usize,
    hits: &mut [bool],
    missed: &mut usize,
    hash_builder: S,
) -> u32
    ensures hits { result ≡ OK → AreHits nat_eq capacity keys.now hits.new missed.new }
    ensures left { result ≢ OK → (hits.new ≡ hits.old) × (missed.new ≡ missed.old) }
    ensures codes { IsCode (capacity ≡ 0) (length hits.old ≡ length keys.now) result }
    ensures never_refused { keys.now ≡ [] → result ≢ NO_MEMORY }
{
    let Some(capacity) = NonZeroUsize::new(capacity) else {
        return NO_CAPACITY;
    };
    if hits.len() != keys.len() {
        return WRONG_LENGTH;
    }
    let Ok(answer) = replay_of(alloc, capacity, keys, hash_builder) else {
        return NO_MEMORY;
    };
    hits.copy_from_slice(&answer.marks);
    *missed = answer.misses;
    OK
}

/// The result of a replay. In a function of its own the loop has the registers to itself.
#[inline(never)]
fn replay_of<S: BuildHasher + Drop, A: Allocator + Copy>(
    alloc: A,
    capacity: NonZeroUsize,
    keys: &[u64],
    hash_builder: S,
) -> Result<Replay<A>, NoMemory>
    ensures hits { IfOk result (λ r. AreHits nat_eq (non_zero_usize_get capacity) keys.now r.marks.items r.misses) }
    ensures never_refused { keys.now ≡ [] → IsOk result }
{
    replay_slice(alloc, capacity, keys, hash_builder)
}

/// The misses at the capacities 1, 2 and so on, one for each element of the array, and the number of distinct keys.
pub(crate) fn misses_by_capacity<S: BuildHasher + Drop, A: Allocator + Copy>(
    alloc: A,
    keys: &[u64],
    missed: &mut [usize],
    kinds: &mut usize,
    hash_builder: S,
) -> u32
    ensures misses { result ≡ OK → IsCurve nat_eq keys.now missed.new kinds.new }
    ensures left { result ≢ OK → (missed.new ≡ missed.old) × (kinds.new ≡ kinds.old) }
    ensures codes { IsCode ⊥ Unit result }
    ensures never_refused { keys.now ≡ [] → result ≡ OK }
{
    let Ok(curve) = miss_curve(alloc, keys, hash_builder) else {
        return NO_MEMORY;
    };
    for index in 0..missed.len() {
        missed[index] = curve.misses(NonZeroUsize::MIN.saturating_add(index));
    }
    *kinds = curve.distinct();
    OK
}

/// The least number of misses for each room.
pub(crate) fn least_by_room<S: BuildHasher + Drop, A: Allocator + Copy>(
    alloc: A,
    keys: &[u64],
    rooms: &[usize],
    least: &mut [usize],
    hash_builder: S,
) -> u32
    ensures least { result ≡ OK → AreLeast nat_eq keys.now rooms.now least.new }
    ensures left { result ≢ OK → least.new ≡ least.old }
    ensures codes { IsCode (Contains rooms.now 0) (length least.old ≡ length rooms.now) result }
    ensures never_refused { keys.now ≡ [] → result ≢ NO_MEMORY }
{
    if rooms.contains(&0) {
        return NO_CAPACITY;
    }
    if least.len() != rooms.len() {
        return WRONG_LENGTH;
    }
    if keys.is_empty() {
        least.fill(0);
        return OK;
    }
    let Ok(foresight) = Foresight::new(alloc, keys, hash_builder) else {
        return NO_MEMORY;
    };
    let Ok(mut answers) = Vec::from_elem(alloc, 0usize, rooms.len()) else {
        return NO_MEMORY;
    };
    for index in 0..rooms.len() {
        let Some(room) = NonZeroUsize::new(rooms[index]) else {
            unreachable!();
        };
        let Ok(misses) = least_of(&foresight, room) else {
            return NO_MEMORY;
        };
        answers[index] = misses;
    }
    least.copy_from_slice(&answers);
    OK
}

/// The least number of misses for a room, by a function of its own for the same reason.
#[inline(never)]
fn least_of<A: Allocator + Copy>(
    foresight: &Foresight<u64, A>,
    room: NonZeroUsize,
) -> Result<usize, AllocError>
    ensures { IfOk result (λ n. IsLeastOf nat_eq foresight.now (non_zero_usize_get room) n) }
{
    foresight.least(room)
}
