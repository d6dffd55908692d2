//! `IdlePass`, which takes requests with times, and counts a reuse after too long as a first request.
ghost use Rattle.std.specs.Prelude.{◌≡◌, ℕ, ◌+◌, ◌^◌, ◌<◌, List, [], ◌∷◌, length, reverse, slice_index, slice_set, ◌%◌, IfOk, IfErr, IfSome, OnOk, OnErr, IsOk, IsNone, IsSome, IsTrue, None, Some, is_some, true, false, if◌then◌else◌};
ghost use Rattle.std.specs.List.{list_any};
ghost use Rattle.std.specs.Map.{keys_of};
ghost use Rattle.clru_linked_map.specs.LinkedMap.{hash_of};
ghost use Rattle.clru_model.specs.Requests.{holds, distinct};
ghost use Rattle.clru_model.specs.Distances.{distance};
ghost use Rattle.clru_curve.specs.IdlePasses.{IsIdlePass, HasIdleMissesOf};
ghost use Rattle.clru_curve.specs.Seen.{reuse_by};

use crate::curve::MissCurve;
use crate::latest::Latest;
use crate::pass::{copied, misses_of};
use crate::seen::{Seen, is_soon};
use clru_linked_map::KeyTable;
use clru_list::NoMemory;
use clru_model::DefaultState;
use std::alloc::{Allocator, Global};
use std::collections::hash_map::Equivalent;
use std::hash::{BuildHasher, Hash};
use std::marker::Model;

/// A pass over requests with times, under an idle limit: a key that is requested after more than that time counts as
/// one that comes for the first time, and so misses at every capacity. The order of keys is that of LRU without expiry.
///
/// A time is a number in any unit, in which the limit is too. If times go backwards, the difference counts as 0. Clauses describe
/// the requests that it has taken under its limit, the latest first, each with its time, by `IsIdlePass`.
///
/// Takes the memory of a `DistancePass`, and 8 bytes more for each distinct key.
pub struct IdlePass<K: Eq + Hash, S: BuildHasher = DefaultState, A: Allocator + Copy = Global> {
    pub(crate) seen: KeyTable<K, Seen, S, A>,
    pub(crate) latest: Latest<A>,
    histogram: Vec<usize, A>,
    pub(crate) limit: usize,
}

impl<K: Eq + Hash + Drop, S: BuildHasher + Drop, A: Allocator + Copy> Drop for IdlePass<K, S, A> {
    fn drop(self) {
        let IdlePass {
            seen,
            latest,
            histogram,
            limit: _,
        } = self;
        drop(seen);
        drop(latest);
        drop(histogram);
    }
}

impl<K: Eq + Hash, S: BuildHasher, A: Allocator + Copy> Model for IdlePass<K, S, A> {
    ghost use Rattle.clru_curve.specs.IdlePasses.{TimedPass, timed_pass, timed_pass_code, IsSoundIdle};

    ghost Value = { TimedPass K S };

    ghost coded = { timed_pass_code K.code S.code };

    ghost view = { λ p. timed_pass p.seen.entries p.latest.blocks.items p.latest.requests p.histogram.items p.limit p.seen.builder };

    ghost invariant = { λ p. IsSoundIdle K.eq p.latest.nodes.items
        (timed_pass p.seen.entries p.latest.blocks.items p.latest.requests p.histogram.items p.limit p.seen.builder) };
}

impl<K: Eq + Hash, A: Allocator + Copy> IdlePass<K, DefaultState, A> {
    /// Creates a pass under this limit that has taken no request.
    /// Cost: no request for memory.
    pub fn new(alloc: A, limit: usize) -> Self
        ensures { IsIdlePass K.eq limit [] result }
    {
        IdlePass::with_hasher(alloc, limit, DefaultState)
    }
}

impl<K: Eq + Hash, S: BuildHasher, A: Allocator + Copy> IdlePass<K, S, A> {
    /// Creates a pass under this limit that has taken no request and hashes keys with `hash_builder`.
    /// Cost: no request for memory.
    pub fn with_hasher(alloc: A, limit: usize, hash_builder: S) -> Self
        ensures { IsIdlePass K.eq limit [] result }
    {
        IdlePass {
            seen: KeyTable::new(alloc, hash_builder),
            latest: Latest::new(alloc),
            histogram: Vec::new(alloc),
            limit,
        }
    }

    /// Takes one more request, at this time, and returns its distance, or `None` if its key was not requested before, or more than
    /// the limit ago. It hits at the capacities above the distance, and at no other.
    ///
    /// If memory is refused, or there were `usize::MAX` requests, it returns the key, and the pass is unchanged. A key that was
    /// requested before asks for memory at most once in 64 requests.
    /// Cost: that of the same call of a `DistancePass`.
    pub fn request(&mut self, key: K, time: usize) -> Result<Option<usize>, K>
    where
        K: Drop,
        ensures distance { (idle : ℕ) (past : List (K × ℕ)) → IsIdlePass K.eq idle past self.old
            → IfOk result (λ d. d ≡ reuse_by K.eq (distance K.eq) idle (key, time) past) }
        ensures taken { (idle : ℕ) (past : List (K × ℕ)) → IsIdlePass K.eq idle past self.old
            → OnOk result (IsIdlePass K.eq idle ((key, time) ∷ past) self.new) }
        ensures refused { (idle : ℕ) (past : List (K × ℕ)) → IsIdlePass K.eq idle past self.old
            → OnErr result (IsIdlePass K.eq idle past self.new) }
        ensures given_back { IfErr result (λ back. back ≡ key) }
        ensures memory { (idle : ℕ) (past : List (K × ℕ)) → IsIdlePass K.eq idle past self.old → holds K.eq key (keys_of past) ≡ true
            → 0 < length past % 64 → length past + 1 < 2 ^ 64 → IsOk result }
    {
        // (reading a field also tells the proof the pass's invariant: some requests were taken)
        let hash = self.seen.hash(&key);
        match self.request_again_with_hash(hash, &key, time) {
            Ok(Some(distance)) => Ok(distance),
            Ok(None) => match self.request_new_with_hash(hash, key, time) {
                Ok(()) => Ok(None),
                Err(key) => Err(key),
            },
            Err(_) => Err(key),
        }
    }

    /// Takes one more request of an earlier key, by a form of it, at this time, and returns its distance, in which there is none
    /// if the key was requested more than the limit ago. If no such key was requested, it takes nothing and returns `None`; then
    /// call `request`.
    ///
    /// If memory is refused, or there were `usize::MAX` requests, it returns the form, and the pass is unchanged.
    /// Cost: that of the same call of a `DistancePass`.
    pub fn request_again<Q: Equivalent<K>>(
        &mut self,
        key: Q,
        time: usize,
    ) -> Result<Option<Option<usize>>, Q>
        ensures distance { (idle : ℕ) (past : List (K × ℕ)) (x : K) → IsIdlePass K.eq idle past self.old → IsTrue (Q.equivalent key x)
            → IfOk result (λ d. IfSome d (λ e. e ≡ reuse_by K.eq (distance K.eq) idle (x, time) past)) }
        ensures taken { (idle : ℕ) (past : List (K × ℕ)) (x : K) → IsIdlePass K.eq idle past self.old → IsTrue (Q.equivalent key x)
            → IfOk result (λ d. IsSome d → IsIdlePass K.eq idle ((x, time) ∷ past) self.new) }
        ensures known { (idle : ℕ) (past : List (K × ℕ)) → IsIdlePass K.eq idle past self.old
            → IfOk result (λ d. is_some d ≡ list_any (Q.equivalent key) (keys_of past)) }
        ensures not_taken { (idle : ℕ) (past : List (K × ℕ)) → IsIdlePass K.eq idle past self.old
            → IfOk result (λ d. IsNone d → IsIdlePass K.eq idle past self.new) }
        ensures refused { (idle : ℕ) (past : List (K × ℕ)) → IsIdlePass K.eq idle past self.old
            → OnErr result (IsIdlePass K.eq idle past self.new) }
        ensures given_back { IfErr result (λ back. back ≡ key) }
        ensures memory { (idle : ℕ) (past : List (K × ℕ)) → IsIdlePass K.eq idle past self.old
            → 0 < length past % 64 → length past + 1 < 2 ^ 64 → IsOk result }
    {
        let hash = self.seen.hash(key);
        self.request_again_with_hash(hash, key, time)
    }

    /// Returns the hash of a key, by a form of it, for the calls that take one. Every form of the key has it, and the pass keeps its
    /// hash builder.
    /// Cost: one hash.
    pub fn hash<Q: Equivalent<K>>(&self, key: Q) -> u64
        ensures { result ≡ hash_of Q.Hash S.BuildHasher S.Hasher.Hasher self.now.builder key }
    {
        self.seen.hash(key)
    }

    /// Does what `request_again` does, with the hash of the key, and leaves the hash builder as it was. So `request_new_with_hash`
    /// may follow with the same hash.
    /// Cost: that of `request_again` without a hash.
    pub fn request_again_with_hash<Q: Equivalent<K>>(
        &mut self,
        hash: u64,
        key: Q,
        time: usize,
    ) -> Result<Option<Option<usize>>, Q>
        requires hash { hash ≡ hash_of Q.Hash S.BuildHasher S.Hasher.Hasher self.old.builder key }
        ensures distance { (idle : ℕ) (past : List (K × ℕ)) (x : K) → IsIdlePass K.eq idle past self.old → IsTrue (Q.equivalent key x)
            → IfOk result (λ d. IfSome d (λ e. e ≡ reuse_by K.eq (distance K.eq) idle (x, time) past)) }
        ensures taken { (idle : ℕ) (past : List (K × ℕ)) (x : K) → IsIdlePass K.eq idle past self.old → IsTrue (Q.equivalent key x)
            → IfOk result (λ d. IsSome d → IsIdlePass K.eq idle ((x, time) ∷ past) self.new) }
        ensures known { (idle : ℕ) (past : List (K × ℕ)) → IsIdlePass K.eq idle past self.old
            → IfOk result (λ d. is_some d ≡ list_any (Q.equivalent key) (keys_of past)) }
        ensures not_taken { (idle : ℕ) (past : List (K × ℕ)) → IsIdlePass K.eq idle past self.old
            → IfOk result (λ d. IsNone d → IsIdlePass K.eq idle past self.new) }
        ensures refused { (idle : ℕ) (past : List (K × ℕ)) → IsIdlePass K.eq idle past self.old
            → OnErr result (IsIdlePass K.eq idle past self.new) }
        ensures given_back { IfErr result (λ back. back ≡ key) }
        ensures memory { (idle : ℕ) (past : List (K × ℕ)) → IsIdlePass K.eq idle past self.old
            → 0 < length past % 64 → length past + 1 < 2 ^ 64 → IsOk result }
        ensures builder { self.new.builder ≡ self.old.builder }
    {
        let Ok(()) = self.latest.make_ready() else {
            return Err(key);
        };
        let position = self.latest.requests;
        let here = Seen { position, time };
        let Some(before) = self.seen.replace(hash, key, here) else {
            return Ok(None);
        };
        let distance = self.latest.remove(before.position);
        self.latest.push();
        let soon = is_soon(self.limit, before.time, time);
        Ok(Some(count_if(&mut self.histogram, soon, distance)))
    }

    /// Takes one more request, at this time, of a key that was not requested before, as `request_again` tells, with its hash. Unlike
    /// `request` it does not look the key up first.
    ///
    /// If memory is refused, or there were `usize::MAX` requests, it returns the key, and the pass is unchanged.
    /// Cost: that of the same call of a `DistancePass`.
    pub fn request_new_with_hash(&mut self, hash: u64, key: K, time: usize) -> Result<(), K>
    where
        K: Drop,
        requires hash { hash ≡ hash_of K.Hash S.BuildHasher S.Hasher.Hasher self.old.builder key }
        requires new { (idle : ℕ) × (past : List (K × ℕ)) × IsIdlePass K.eq idle past self.old
            × (holds K.eq key (keys_of past) ≡ false) }
        ensures taken { (idle : ℕ) (past : List (K × ℕ)) → IsIdlePass K.eq idle past self.old
            → OnOk result (IsIdlePass K.eq idle ((key, time) ∷ past) self.new) }
        ensures refused { (idle : ℕ) (past : List (K × ℕ)) → IsIdlePass K.eq idle past self.old
            → OnErr result (IsIdlePass K.eq idle past self.new) }
        ensures given_back { IfErr result (λ back. back ≡ key) }
    {
        let Ok(()) = self.latest.make_ready() else {
            return Err(key);
        };
        let Ok(()) = self.histogram.reserve(1) else {
            return Err(key);
        };
        let position = self.latest.requests;
        let here = Seen { position, time };
        if let Err(key) = self.seen.insert(hash, key, here) {
            return Err(key);
        }
        self.latest.push();
        self.histogram.push_reserved(0);
        Ok(())
    }

    /// Returns the curve of the requests so far.
    /// Cost: a step for each distinct key; no request for memory.
    pub fn into_curve(self) -> MissCurve<A>
    where
        K: Drop,
        S: Drop,
        ensures misses { (idle : ℕ) (past : List (K × ℕ)) → IsIdlePass K.eq idle past self
            → HasIdleMissesOf K.eq idle (reverse past) result }
        ensures distinct { (idle : ℕ) (past : List (K × ℕ)) → IsIdlePass K.eq idle past self
            → length result ≡ distinct K.eq (keys_of past) }
    {
        let IdlePass {
            seen: _,
            latest,
            mut histogram,
            limit: _,
        } = self;
        misses_of(&mut histogram, latest.requests);
        MissCurve::from_misses(histogram)
    }

    /// Returns the curve of the requests so far, and lets the pass go on.
    /// Cost: a step for each distinct key; one request for memory, of a number for each, and none without requests.
    pub fn curve(&self, alloc: A) -> Result<MissCurve<A>, NoMemory>
        ensures misses { (idle : ℕ) (past : List (K × ℕ)) → IsIdlePass K.eq idle past self.now
            → IfOk result (λ c. HasIdleMissesOf K.eq idle (reverse past) c) }
        ensures distinct { (idle : ℕ) (past : List (K × ℕ)) → IsIdlePass K.eq idle past self.now
            → IfOk result (λ c. length c ≡ distinct K.eq (keys_of past)) }
        ensures never_refused { (idle : ℕ) → IsIdlePass K.eq idle [] self.now → IsOk result }
    {
        let Ok(mut misses) = copied(alloc, &self.histogram) else {
            return Err(NoMemory);
        };
        misses_of(&mut misses, self.latest.requests);
        Ok(MissCurve::from_misses(misses))
    }
}

/// Counts a request at its distance, and returns that, if the request came soon enough.
pub(crate) fn count_if<A: Allocator>(
    histogram: &mut Vec<usize, A>,
    soon: bool,
    distance: usize,
) -> Option<usize>
    requires inside { distance < length histogram.old.items }
    requires fits { slice_index histogram.old.items distance + 1 < 2 ^ 64 }
    ensures counted { histogram.new.items
        ≡ if soon then slice_set histogram.old.items distance (slice_index histogram.old.items distance + 1)
        else histogram.old.items }
    ensures distance { result ≡ if soon then Some distance else None }
{
    if !soon {
        return None;
    }
    histogram[distance] += 1;
    Some(distance)
}
