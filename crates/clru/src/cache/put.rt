//! The calls that put a pair into the cache.
ghost use Rattle.std.specs.Prelude.{◌≡◌, ◌<◌, ◌≤◌, ◌↔◌, is_ok, IfOk, IfErr, OnOk, OnErr, IsErr, if◌then◌else◌};
ghost use Rattle.std.specs.Map.{lookup};
ghost use Rattle.clru_model.specs.Refusals.{pair_of, IsTooHeavy, WantsMemory};
ghost use Rattle.clru_model.specs.Entries.{plain_put, plain_drop, weighted_put, weighted_drops};
ghost use Rattle.clru.specs.Drops.{HandsOutTo, TakesEach};
ghost use Rattle.clru.specs.Memory.{NeedsPlace, NeedsPlaceFor, GrowsOnlyIf};

use crate::cache::CLruCache;
use crate::cache::answer::Put;
use crate::cache::room::{make_room, shrink};
use clru_model::{PutError, WeightScale, ZeroWeightScale};
use std::alloc::Allocator;
use std::hash::{BuildHasher, Hash};

impl<K: Eq + Hash, V, S: BuildHasher, W: WeightScale<K, V>, A> CLruCache<K, V, S, W, A>
where
    A: Allocator + Copy,
{
    /// Puts a pair into the cache, hands out the pairs that it drops, and returns the old value of its key. The pair is then
    /// the most recently used, with the new key.
    ///
    /// Drops only the pairs that do not fit beside the new one: `on_drop` takes each of them, the least recently used one
    /// first, and never the old entry of the key. Refuses a pair that weighs as much as the capacity or more as too heavy,
    /// whether its key is held or not. If the put is refused, it returns the pair, and `on_drop` is not called.
    /// Handing pairs out takes no memory.
    /// Cost: one weighing, one hash and two walks along one chain; for the old value of its key a walk and a weighing more, and
    /// for each pair that it drops a hash, a walk and a weighing. A growth asks for memory twice and hashes each held key once,
    /// or asks once and hashes none if the index has room.
    ///
    /// ```rust
    /// match pages.put_with_weight(page, bytes, |_, _| {}) {
    ///     Ok(_) => Ok(()),
    ///     Err(refusal) => Err(refusal),
    /// }
    /// ```
    pub fn put_with_weight<F: FnMut(K, V)>(
        &mut self,
        key: K,
        value: V,
        mut on_drop: F,
    ) -> Result<Option<V>, PutError<K, V>>
    where
        K: Drop,
        requires callable { W.weight self.old.scale key value < self.old.capacity
            → TakesEach F.FnMut on_drop
            (weighted_drops K.eq (W.weight self.old.scale) self.old.capacity key value self.old.entries) }
        ensures answer { IfOk result (λ old. old ≡ lookup (K.eq key) self.old.entries) }
        ensures entries { self.new.entries ≡ (if is_ok result
            then weighted_put K.eq (W.weight self.old.scale) self.old.capacity key value self.old.entries
            else self.old.entries) }
        ensures refused { IfErr result (λ refusal. pair_of refusal ≡ (key, value)) }
        ensures too_heavy { IsTooHeavy result ↔ (self.old.capacity ≤ W.weight self.old.scale key value) }
        ensures memory { WantsMemory result → NeedsPlaceFor K.eq (W.weight self.old.scale) self.old key value }
        ensures places { GrowsOnlyIf (NeedsPlaceFor K.eq (W.weight self.old.scale) self.old key value)
            self.old self.new }
        ensures handed_out { OnOk result ((last : F) × HandsOutTo F.FnMut on_drop
            (weighted_drops K.eq (W.weight self.old.scale) self.old.capacity key value self.old.entries) last) }
    {
        self.put_with_weight_handing_to(key, value, &mut on_drop)
    }

    /// Does what `put_with_weight` does, and drops what does not fit beside the new pair.
    /// Cost: that of `put_with_weight`.
    pub fn put_with_weight_dropping(
        &mut self,
        key: K,
        value: V,
    ) -> Result<Option<V>, PutError<K, V>>
    where
        K: Drop,
        V: Drop,
        ensures answer { IfOk result (λ old. old ≡ lookup (K.eq key) self.old.entries) }
        ensures entries { self.new.entries ≡ (if is_ok result
            then weighted_put K.eq (W.weight self.old.scale) self.old.capacity key value self.old.entries
            else self.old.entries) }
        ensures refused { IfErr result (λ refusal. pair_of refusal ≡ (key, value)) }
        ensures too_heavy { IsTooHeavy result ↔ (self.old.capacity ≤ W.weight self.old.scale key value) }
        ensures memory { WantsMemory result → NeedsPlaceFor K.eq (W.weight self.old.scale) self.old key value }
        ensures places { GrowsOnlyIf (NeedsPlaceFor K.eq (W.weight self.old.scale) self.old key value)
            self.old self.new }
    {
        self.put_with_weight_handing_to(key, value, &mut |_, _| {})
    }

    /// Does what `put_with_weight` does, with a borrowed closure. The contract says how the closure ends, so a caller learns
    /// from what it captured which pairs were dropped; a closure passed by value can't say that.
    /// Cost: that of `put_with_weight`.
    pub fn put_with_weight_handing_to<F: FnMut(K, V)>(
        &mut self,
        key: K,
        value: V,
        on_drop: &mut F,
    ) -> Result<Option<V>, PutError<K, V>>
    where
        K: Drop,
        requires callable { W.weight self.old.scale key value < self.old.capacity
            → TakesEach F.FnMut on_drop.old
            (weighted_drops K.eq (W.weight self.old.scale) self.old.capacity key value self.old.entries) }
        ensures answer { IfOk result (λ old. old ≡ lookup (K.eq key) self.old.entries) }
        ensures entries { self.new.entries ≡ (if is_ok result
            then weighted_put K.eq (W.weight self.old.scale) self.old.capacity key value self.old.entries
            else self.old.entries) }
        ensures refused { IfErr result (λ refusal. pair_of refusal ≡ (key, value)) }
        ensures too_heavy { IsTooHeavy result ↔ (self.old.capacity ≤ W.weight self.old.scale key value) }
        ensures memory { WantsMemory result → NeedsPlaceFor K.eq (W.weight self.old.scale) self.old key value }
        ensures places { GrowsOnlyIf (NeedsPlaceFor K.eq (W.weight self.old.scale) self.old key value)
            self.old self.new }
        ensures handed_out { OnOk result (HandsOutTo F.FnMut on_drop.old
            (weighted_drops K.eq (W.weight self.old.scale) self.old.capacity key value self.old.entries) on_drop.new) }
        ensures not_called { OnErr result (on_drop.new ≡ on_drop.old) }
    {
        let weight = self.scale.weight(&key, &value);
        let capacity = self.map.capacity();
        if weight >= capacity {
            return Err(PutError::TooHeavy(key, value));
        }
        // Compared with the room that the pair leaves, so that no sum passes the largest number.
        let room = capacity - 1 - weight;
        let hash = self.map.hash(&key);
        if let Some((stored, old_value)) = self.map.take(hash, &key) {
            self.total -= self.scale.weight(&stored, &old_value);
            shrink(&mut self.map, &self.scale, &mut self.total, room, on_drop);
            self.map.push_front(hash, key, value);
            self.total += weight;
            return Ok(Some(old_value));
        }
        let Ok(()) = make_room(&mut self.map, &self.scale, &mut self.total, room, on_drop) else {
            return Err(PutError::NoMemory(key, value));
        };
        self.map.push_front(hash, key, value);
        self.total += weight;
        Ok(None)
    }
}

impl<K: Eq + Hash, V, S: BuildHasher, A: Allocator + Copy> CLruCache<K, V, S, ZeroWeightScale, A> {
    /// Puts a pair into the cache, and returns the old value of its key and the pair that it drops. Its entry is then the
    /// most recently used; a held key stays as it was stored.
    ///
    /// A new entry drops, or evicts, the least recently used one of a full cache. If memory is refused, the put returns
    /// the pair, and the entries stay.
    /// Cost: one hash and a walk along one chain, for a new key two walks; if it drops a pair, one hash and one walk more.
    /// A growth asks for memory twice and hashes each held key once, or asks once and hashes none if the index has room.
    pub fn put(&mut self, key: K, value: V) -> Result<Put<K, V>, (K, V)>
    where
        K: Drop,
        ensures replaced { IfOk result (λ put. put.replaced ≡ lookup (K.eq key) self.old.entries) }
        ensures dropped { IfOk result (λ put. put.dropped ≡ plain_drop K.eq self.old.capacity key self.old.entries) }
        ensures entries { self.new.entries
            ≡ (if is_ok result then plain_put K.eq self.old.capacity key value self.old.entries else self.old.entries) }
        ensures refused { IfErr result (λ pair. pair ≡ (key, value)) }
        ensures memory { IsErr result → NeedsPlace K.eq self.old key }
        ensures places { GrowsOnlyIf (NeedsPlace K.eq self.old key) self.old self.new }
    {
        let hash = self.map.hash(&key);
        if self.map.touch(hash, &key) {
            let replaced = Some(self.map.set_front(value));
            return Ok(Put {
                replaced,
                dropped: None,
            });
        }
        let Ok(()) = self.map.make_ready() else {
            return Err((key, value));
        };
        let dropped = self.map.put_front(hash, key, value);
        Ok(Put {
            replaced: None,
            dropped,
        })
    }
}
