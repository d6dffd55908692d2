//! Whole lists of requests, sent through a cache.
ghost use Rattle.std.specs.Prelude.{◌≡◌, ◌≤◌, [], length, is_some, IfOk, IfErr, IsOk};
ghost use Rattle.std.specs.Int.NonZero.{non_zero_usize_get};
ghost use Rattle.std.specs.Map.{lookup};
ghost use Rattle.clru_model.specs.Entries.{plain_put};
ghost use Rattle.clru_model.specs.Schedule.{IsCompetitive, IsCompetitiveFromAnyStart};
ghost use Rattle.clru_model.specs.Requests.{marks, misses};
ghost use Rattle.clru.specs.Cache.{with_entries};
ghost use Rattle.clru.specs.Memory.{NeedsPlace};

mod answer;
mod slice;

use crate::cache::CLruCache;
use crate::config::CLruCacheConfig;
pub use answer::Replay;
use clru_model::ZeroWeightScale;
pub use slice::replay_slice;
use std::alloc::Allocator;
use std::hash::{BuildHasher, Hash};
use std::num::NonZeroUsize;

/// Sends the keys in order through an empty cache of the capacity, and returns which of them it held and how many it did not.
///
/// A request is a hit if its key was requested before, and fewer than `capacity` distinct keys since then. The misses
/// keep the competitive bound: they are at most `capacity / (capacity - h + 1)` times those of every schedule that starts
/// empty and holds at most `h` keys, for `h` from 1 to `capacity`, even if it knows all requests. If the schedule starts
/// with keys, they are at most `h` more than that.
///
/// Takes its memory before the first request: places for as many entries as there are keys, at most `capacity`, and the
/// marks. If either is refused, it returns the keys; nothing else can be refused. Without keys it asks for no memory.
/// Hashes keys with `hash_builder`. `replay_slice` borrows the keys.
/// Cost: three requests for memory, and a write of each bucket; for each request one hash and a walk along one chain, and for a
/// miss up to one hash and two walks more.
///
/// To choose a capacity, look at the misses:
///
/// ```rust
/// pub fn misses_at(
///     alloc: Global,
///     capacity: NonZeroUsize,
///     requests: &[u64],
/// ) -> Result<usize, AllocError>
///     ensures { IfOk result (λ n. n ≡ misses nat_eq (non_zero_usize_get capacity) requests.now) }
/// {
///     let keys = Vec::from_slice(alloc, requests)?;
///     match replay(alloc, capacity, keys, DefaultState) {
///         Ok(answer) => Ok(answer.misses),
///         Err(_) => Err(AllocError),
///     }
/// }
/// ```
pub fn replay<K: Eq + Hash + Drop, S: BuildHasher + Drop, A: Allocator + Copy>(
    alloc: A,
    capacity: NonZeroUsize,
    keys: Vec<K, A>,
    hash_builder: S,
) -> Result<Replay<A>, Vec<K, A>>
    ensures marks { IfOk result (λ r. r.marks.items ≡ marks K.eq (non_zero_usize_get capacity) keys.items) }
    ensures misses { IfOk result (λ r. r.misses ≡ misses K.eq (non_zero_usize_get capacity) keys.items) }
    ensures bound { IfOk result (λ r. IsCompetitive K.eq (non_zero_usize_get capacity) keys.items r.misses) }
    ensures bound_any_start { IfOk result (λ r.
        IsCompetitiveFromAnyStart K.eq (non_zero_usize_get capacity) keys.items r.misses) }
    ensures given_back { IfErr result (λ left. left.items ≡ keys.items) }
    ensures never_refused { keys.items ≡ [] → IsOk result }
{
    let config = CLruCacheConfig::new(capacity)
        .with_hasher(hash_builder)
        .with_memory(keys.len());
    let Ok(mut cache) = CLruCache::with_config(alloc, config) else {
        return Err(keys);
    };
    let Ok(mut marks) = Vec::with_capacity(alloc, keys.len()) else {
        return Err(keys);
    };
    let mut misses = 0;
    for key in keys {
        let hit = request(&mut cache, key);
        if !hit {
            misses += 1;
        }
        marks.push_reserved(hit);
    }
    Ok(Replay { marks, misses })
}

/// Puts the key, returns whether it was held before, and stores that as its value. It must not need memory.
fn request<K: Eq + Hash + Drop, S: BuildHasher, A: Allocator + Copy>(
    cache: &mut CLruCache<K, bool, S, ZeroWeightScale, A>,
    key: K,
) -> bool
    requires ready { ¬ NeedsPlace K.eq cache.old key }
    ensures hit { result ≡ is_some (lookup (K.eq key) cache.old.entries) }
    ensures put { cache.new ≡ with_entries cache.old (plain_put K.eq cache.old.capacity key result cache.old.entries) }
    ensures held { length cache.new.entries ≤ cache.new.places }
{
    match cache.put_or_modify(key, |_, ()| false, |_, mark, ()| *mark = true, ()) {
        Ok(mark) => *mark,
        Err(_) => unreachable!(),
    }
}
