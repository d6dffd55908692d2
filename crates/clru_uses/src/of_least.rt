//! What a caller learns of the least number: who reads schedules by positions, and who compares it with other policies.
ghost use Rattle.std.specs.Prelude.{◌≡◌, ℕ, ◌+◌, ◌≤◌, [], ◌∷◌, List, reverse, IfOk};
ghost use Rattle.std.specs.Int.NonZero.{non_zero_usize_get};
ghost use Rattle.clru_model.specs.Bypass.{IsBypassSchedule};
ghost use Rattle.clru_model.specs.ByPosition.{IsCountOf, IsScheduleAt, IsScheduleMissAt};
ghost use Rattle.clru_model.specs.Least.{IsLeast, IsNearFromAnyStart};
ghost use Rattle.clru_model.specs.Requests.{distinct};
ghost use Rattle.clru_model.specs.Schedule.{schedule_misses};

use clru::{NoMemory, replay_slice};
use clru_least::{law_least, least};
use clru_model::law_schedules_by_position;
use std::alloc::{AllocError, Allocator};
use std::hash::{BuildHasher, Hash};
use std::num::NonZeroUsize;

/// Returns the least number of misses. Some schedule, as positions describe it, misses the requests at so many positions, and
/// none misses fewer.
pub fn least_by_position<K: Eq + Hash, S: BuildHasher + Drop, A: Allocator + Copy>(
    alloc: A,
    room: NonZeroUsize,
    keys: &[K],
    hash_builder: S,
) -> Result<usize, AllocError>
    ensures attained { IfOk result (λ n. (schedule : List (List K))
        × IsScheduleAt K.eq (non_zero_usize_get room) ([] ∷ schedule) keys.now
        × IsCountOf (IsScheduleMissAt K.eq ([] ∷ schedule) keys.now) n) }
    ensures none_fewer { IfOk result (λ n. (schedule : List (List K))
        → IsScheduleAt K.eq (non_zero_usize_get room) ([] ∷ schedule) keys.now
        → n ≤ schedule_misses K.eq ([] ∷ schedule) keys.now) }
{
    law_schedules_by_position::<K>();
    least(alloc, room, keys, hash_builder)
}

/// Returns the least number of misses, which is no less than the number of distinct keys, and equals it if all have room. A
/// schedule with room for one key less misses no fewer, even if it bypasses keys.
pub fn least_of_any<K: Eq + Hash, S: BuildHasher + Drop, A: Allocator + Copy>(
    alloc: A,
    room: NonZeroUsize,
    keys: &[K],
    hash_builder: S,
) -> Result<usize, AllocError>
    ensures floor { IfOk result (λ n. distinct K.eq (reverse keys.now) ≤ n) }
    ensures all_fit { distinct K.eq (reverse keys.now) ≤ non_zero_usize_get room
        → IfOk result (λ n. n ≡ distinct K.eq (reverse keys.now)) }
    ensures may_pass { IfOk result (λ n. (h : ℕ) (schedule : List (List K)) → h + 1 ≡ non_zero_usize_get room
        → IsBypassSchedule K.eq h ([] ∷ schedule) keys.now → n ≤ schedule_misses K.eq ([] ∷ schedule) keys.now) }
{
    law_least::<K>();
    least(alloc, room, keys, hash_builder)
}

/// Returns the misses of a replay. There is a least number beside them, which nobody counted.
pub fn misses_above_least<K: Eq + Hash + Copy, S: BuildHasher + Drop, A: Allocator + Copy>(
    alloc: A,
    capacity: NonZeroUsize,
    keys: &[K],
    hash_builder: S,
) -> Result<usize, NoMemory>
    ensures { IfOk result (λ misses. (n : ℕ) × IsLeast K.eq (non_zero_usize_get capacity) keys.now n
        × IsNearFromAnyStart K.eq (non_zero_usize_get capacity) keys.now n × (n ≤ misses)) }
{
    law_least::<K>();
    match replay_slice(alloc, capacity, keys, hash_builder) {
        Ok(answer) => Ok(answer.misses),
        Err(refusal) => Err(refusal),
    }
}
