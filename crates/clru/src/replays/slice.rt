//! A replay of keys that stay the caller's.
ghost use Rattle.std.specs.Prelude.{◌≡◌, [], IfOk, IsOk};
ghost use Rattle.std.specs.Int.NonZero.{non_zero_usize_get};
ghost use Rattle.clru_model.specs.Schedule.{IsCompetitive, IsCompetitiveFromAnyStart};
ghost use Rattle.clru_model.specs.Requests.{marks, misses};

use crate::cache::CLruCache;
use crate::config::CLruCacheConfig;
use crate::replays::{Replay, request};
use clru_list::NoMemory;
use std::alloc::Allocator;
use std::hash::{BuildHasher, Hash};
use std::num::NonZeroUsize;

/// Sends borrowed keys in order through an empty cache of the capacity, and returns what `replay` does. Pass keys that are
/// not `Copy` as references.
///
/// Takes its memory before the first request; only then it may be refused. Without keys it asks for none. Hashes keys with
/// `hash_builder`.
/// Cost: that of `replay`.
pub fn replay_slice<K: Eq + Hash + Copy, S: BuildHasher + Drop, A: Allocator + Copy>(
    alloc: A,
    capacity: NonZeroUsize,
    keys: &[K],
    hash_builder: S,
) -> Result<Replay<A>, NoMemory>
    ensures marks { IfOk result (λ r. r.marks.items ≡ marks K.eq (non_zero_usize_get capacity) keys.now) }
    ensures misses { IfOk result (λ r. r.misses ≡ misses K.eq (non_zero_usize_get capacity) keys.now) }
    ensures bound { IfOk result (λ r. IsCompetitive K.eq (non_zero_usize_get capacity) keys.now r.misses) }
    ensures bound_any_start { IfOk result (λ r.
        IsCompetitiveFromAnyStart K.eq (non_zero_usize_get capacity) keys.now r.misses) }
    ensures never_refused { keys.now ≡ [] → IsOk result }
{
    let config = CLruCacheConfig::new(capacity)
        .with_hasher(hash_builder)
        .with_memory(keys.len());
    let Ok(mut cache) = CLruCache::with_config(alloc, config) else {
        return Err(NoMemory);
    };
    let Ok(mut marks) = Vec::with_capacity(alloc, keys.len()) else {
        return Err(NoMemory);
    };
    let mut misses = 0;
    for key in keys {
        let hit = request(&mut cache, *key);
        if !hit {
            misses += 1;
        }
        marks.push_reserved(hit);
    }
    Ok(Replay { marks, misses })
}
