//! What a caller learns of a floor: who compares it with the misses of any policy.
ghost use Rattle.std.specs.Prelude.{ℕ, ◌≤◌, [], ◌∷◌, List, IfOk};
ghost use Rattle.std.specs.Int.NonZero.{non_zero_usize_get};
ghost use Rattle.clru_model.specs.Floor.{IsBypassScheduleBySize};
ghost use Rattle.clru_model.specs.Least.{IsLeast};
ghost use Rattle.clru_model.specs.Schedule.{schedule_misses};
ghost use Rattle.clru_model.specs.SizedSchedule.{schedule_missed_size};
ghost use Rattle.clru_model.specs.Sizes.{SameWeights};

use clru_least::{FloorPass, FloorRequestError, WeightScale, floor, law_floor};
use std::alloc::{AllocError, Allocator};
use std::hash::{BuildHasher, Hash};
use std::num::NonZeroUsize;

/// Returns a number of misses that no policy with this room for keys goes below, even if it bypasses keys, nor does the least.
pub fn floor_of_any<K: Eq + Hash, S: BuildHasher + Drop, A: Allocator + Copy>(
    alloc: A,
    room: NonZeroUsize,
    keys: &[K],
    hash_builder: S,
) -> Result<usize, AllocError>
    ensures none_fewer { IfOk result (λ n. (schedule : List (List K))
        → IsBypassScheduleBySize K.eq (λ _. 0) (non_zero_usize_get room) ([] ∷ schedule) keys.now
        → n ≤ schedule_misses K.eq ([] ∷ schedule) keys.now) }
    ensures below_least { IfOk result (λ n. (m : ℕ) → IsLeast K.eq (non_zero_usize_get room) keys.now m → n ≤ m) }
{
    law_floor::<K>();
    let bound = floor(alloc, keys, hash_builder)?;
    Ok(bound.misses(room))
}

/// Returns a number of misses, and a size, that no policy with this room for sizes goes below, even if it bypasses keys.
pub fn size_floor_of_any<K, W, S, A>(
    alloc: A,
    room: NonZeroUsize,
    keys: &[K],
    scale: W,
    hash_builder: S,
) -> Result<(usize, usize), FloorRequestError>
where
    K: Eq + Hash,
    W: WeightScale<K, ()> + Drop,
    S: BuildHasher + Drop,
    A: Allocator + Copy,
    ensures none_fewer { SameWeights K.eq (λ x. W.weight scale x tt) → IfOk result (λ both. (schedule : List (List K))
        → IsBypassScheduleBySize K.eq (λ x. W.weight scale x tt) (non_zero_usize_get room) ([] ∷ schedule) keys.now
        → both.0 ≤ schedule_misses K.eq ([] ∷ schedule) keys.now) }
    ensures none_less { SameWeights K.eq (λ x. W.weight scale x tt) → IfOk result (λ both. (schedule : List (List K))
        → IsBypassScheduleBySize K.eq (λ x. W.weight scale x tt) (non_zero_usize_get room) ([] ∷ schedule) keys.now
        → both.1 ≤ schedule_missed_size K.eq (λ x. W.weight scale x tt) ([] ∷ schedule) keys.now) }
{
    law_floor::<K>();
    let pass = match FloorPass::of_keys(alloc, keys, scale, hash_builder) {
        Ok(pass) => pass,
        Err(refusal) => return Err(refusal),
    };
    let Ok(bound) = pass.floor() else {
        return Err(FloorRequestError::NoMemory);
    };
    let Ok(size_bound) = pass.size_floor() else {
        return Err(FloorRequestError::NoMemory);
    };
    Ok((bound.misses(room), size_bound.missed_size(room)))
}
