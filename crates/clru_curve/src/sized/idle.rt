//! `SizedIdlePass`, which takes requests with times of keys with sizes, and counts a reuse after too long as a first request.
ghost use Rattle.std.specs.Prelude.{◌≡◌, ℕ, ◌+◌, ◌^◌, ◌<◌, ◌≤◌, ◌↔◌, List, [], ◌∷◌, ◌++◌, reverse, vec_len, vec_capacity, IfOk, IfErr, IfSome, IsErrAnd, OnOk, OnErr, IsOk, IsNone, IsSome, IsTrue, None, Some, is_some, false, if◌then◌else◌};
ghost use Rattle.std.specs.List.{list_any};
ghost use Rattle.std.specs.Map.{keys_of, lookup};
ghost use Rattle.clru_linked_map.specs.LinkedMap.{hash_of};
ghost use Rattle.clru_model.specs.Requests.{holds};
ghost use Rattle.clru_model.specs.Sizes.{SameWeights, span};
ghost use Rattle.clru_curve.specs.Seen.{reuse_by};
ghost use Rattle.clru_curve.specs.SizedCurves.{step};
ghost use Rattle.clru_curve.specs.SizedIdlePasses.{IsSizedIdlePass, IsSizedIdleCurveOf};
ghost use Rattle.clru_curve.specs.SizedPasses.{key_of, IsTooLarge};

use crate::pass::copied;
use crate::seen::{Seen, is_soon};
use crate::sized::curve::SizedCurve;
use crate::sized::error::SizedRequestError;
use crate::sized::pass::greater;
use crate::sized::sizes::Sizes;
use crate::sized::step::Step;
use clru_linked_map::KeyTable;
use clru_list::NoMemory;
use clru_model::DefaultState;
use std::alloc::{Allocator, Global};
use std::collections::hash_map::Equivalent;
use std::hash::{BuildHasher, Hash};
use std::marker::Model;

/// A pass over requests with times of keys that weigh something, under an idle limit: a key that is requested after more
/// than that time counts as one that comes for the first time. The order of keys is that of LRU without expiry.
///
/// Weights are as in a [`SizedPass`](crate::SizedPass), times as in an [`IdlePass`](crate::IdlePass). Clauses describe the
/// requests that it has taken under its limit, the latest first, each with its time, by `IsSizedIdlePass`.
///
/// Takes the memory of a `SizedPass`, and 8 bytes more for each distinct key.
pub struct SizedIdlePass<
    K: Eq + Hash,
    S: BuildHasher = DefaultState,
    A: Allocator + Copy = Global,
> {
    pub(crate) seen: KeyTable<K, Seen, S, A>,
    pub(crate) latest: Sizes<A>,
    // For each request that can hit, from which capacity on it does, and its own size, which is missed below.
    hits: Vec<Step, A>,
    pub(crate) size: usize,
    greatest: usize,
    pub(crate) limit: usize,
}

impl<K: Eq + Hash + Drop, S: BuildHasher + Drop, A: Allocator + Copy> Drop
    for SizedIdlePass<K, S, A> {
    fn drop(self) {
        let SizedIdlePass {
            seen,
            latest,
            hits,
            size: _,
            greatest: _,
            limit: _,
        } = self;
        drop(seen);
        drop(latest);
        drop(hits);
    }
}

impl<K: Eq + Hash, S: BuildHasher, A: Allocator + Copy> Model for SizedIdlePass<K, S, A> {
    ghost use Rattle.clru_curve.specs.SizedIdlePasses.{TimedPassBySize, timed_pass_by_size, timed_pass_by_size_code, IsSoundIdleBySize};

    ghost Value = { TimedPassBySize K S };

    ghost coded = { timed_pass_by_size_code K.code S.code };

    ghost view = { λ p. timed_pass_by_size p.seen.entries p.latest.sizes.items p.latest.requests p.hits.items p.size p.greatest p.limit p.seen.builder };

    ghost invariant = { λ p. IsSoundIdleBySize K.eq p.latest.nodes.items
        (timed_pass_by_size p.seen.entries p.latest.sizes.items p.latest.requests p.hits.items p.size p.greatest p.limit p.seen.builder) };
}

impl<K: Eq + Hash, A: Allocator + Copy> SizedIdlePass<K, DefaultState, A> {
    /// Creates a pass under this limit that has taken no request.
    /// Cost: no request for memory.
    pub fn new(alloc: A, limit: usize) -> Self
        ensures { (w : K → ℕ) → IsSizedIdlePass K.eq w limit [] result }
    {
        SizedIdlePass::with_hasher(alloc, limit, DefaultState)
    }
}

impl<K: Eq + Hash, S: BuildHasher, A: Allocator + Copy> SizedIdlePass<K, S, A> {
    /// Creates a pass under this limit that has taken no request and hashes keys with `hash_builder`.
    /// Cost: no request for memory.
    pub fn with_hasher(alloc: A, limit: usize, hash_builder: S) -> Self
        ensures { (w : K → ℕ) → IsSizedIdlePass K.eq w limit [] result }
    {
        SizedIdlePass {
            seen: KeyTable::new(alloc, hash_builder),
            latest: Sizes::new(alloc),
            hits: Vec::new(alloc),
            size: 0,
            greatest: 0,
            limit,
        }
    }

    /// Takes one more request, at this time, of a key of this weight, and returns its span, or `None` if the key was not requested
    /// before, or more than the limit ago. If each key fits, the request hits at the capacities from the span on, and at no
    /// other.
    ///
    /// If memory is refused, or the sizes of all requests with this one exceed `usize::MAX`, it returns the key, and the pass
    /// is unchanged.
    /// Cost: that of the same call of a `SizedPass`.
    pub fn request(
        &mut self,
        key: K,
        time: usize,
        weight: usize,
    ) -> Result<Option<usize>, SizedRequestError<K>>
    where
        K: Drop,
        ensures span { (w : K → ℕ) (idle : ℕ) (past : List (K × ℕ)) → SameWeights K.eq w → IsSizedIdlePass K.eq w idle past self.old
            → w key ≡ weight → IfOk result (λ s. s ≡ reuse_by K.eq (span K.eq w) idle (key, time) past) }
        ensures taken { (w : K → ℕ) (idle : ℕ) (past : List (K × ℕ)) → SameWeights K.eq w → IsSizedIdlePass K.eq w idle past self.old
            → w key ≡ weight → OnOk result (IsSizedIdlePass K.eq w idle ((key, time) ∷ past) self.new) }
        ensures size { OnOk result (self.new.size ≡ self.old.size + (1 + weight)) }
        ensures refused { OnErr result (self.new ≡ self.old) }
        ensures given_back { IfErr result (λ e. key_of e ≡ key) }
        ensures too_large { IsErrAnd result IsTooLarge ↔ (2 ^ 64 ≤ self.old.size + (1 + weight)) }
    {
        let hash = self.seen.hash(&key);
        match self.again(hash, &key, time, weight) {
            Ok(Some(span)) => Ok(span),
            Ok(None) => match self.request_new(hash, key, time, weight) {
                Ok(()) => Ok(None),
                Err(key) => Err(SizedRequestError::NoMemory(key)),
            },
            Err(SizedRequestError::NoMemory(_)) => Err(SizedRequestError::NoMemory(key)),
            Err(SizedRequestError::TooLarge(_)) => Err(SizedRequestError::TooLarge(key)),
        }
    }

    /// Takes one more request of an earlier key of this weight, by a form of it, at this time, and returns its span, in which there is
    /// none if the key was requested more than the limit ago. If no such key was requested, it takes nothing and returns `None`;
    /// then call `request`.
    ///
    /// If memory is refused, or the sizes of all requests with this one exceed `usize::MAX`, it returns the form, and the pass
    /// is unchanged.
    /// Cost: that of the same call of a `SizedPass`.
    pub fn request_again<Q: Equivalent<K>>(
        &mut self,
        key: Q,
        time: usize,
        weight: usize,
    ) -> Result<Option<Option<usize>>, SizedRequestError<Q>>
        ensures span { (w : K → ℕ) (idle : ℕ) (past : List (K × ℕ)) (x : K) → SameWeights K.eq w → IsSizedIdlePass K.eq w idle past self.old
            → w x ≡ weight → IsTrue (Q.equivalent key x)
            → IfOk result (λ s. IfSome s (λ t. t ≡ reuse_by K.eq (span K.eq w) idle (x, time) past)) }
        ensures taken { (w : K → ℕ) (idle : ℕ) (past : List (K × ℕ)) (x : K) → SameWeights K.eq w → IsSizedIdlePass K.eq w idle past self.old
            → w x ≡ weight → IsTrue (Q.equivalent key x)
            → IfOk result (λ s. IsSome s → IsSizedIdlePass K.eq w idle ((x, time) ∷ past) self.new) }
        ensures known { (w : K → ℕ) (idle : ℕ) (past : List (K × ℕ)) → IsSizedIdlePass K.eq w idle past self.old
            → IfOk result (λ s. is_some s ≡ list_any (Q.equivalent key) (keys_of past)) }
        ensures size { IfOk result (λ s. IsSome s → self.new.size ≡ self.old.size + (1 + weight)) }
        ensures not_taken { IfOk result (λ s. IsNone s → self.new ≡ self.old) }
        ensures refused { OnErr result (self.new ≡ self.old) }
        ensures given_back { IfErr result (λ e. key_of e ≡ key) }
        ensures too_large { IsErrAnd result IsTooLarge ↔ (2 ^ 64 ≤ self.old.size + (1 + weight)) }
    {
        let hash = self.seen.hash(key);
        self.request_again_with_hash(hash, key, time, weight)
    }

    /// Returns the hash of a key, by a form of it, for the calls that take one. Every form of the key has it, and the pass keeps its
    /// hash builder.
    /// Cost: one hash.
    pub fn hash<Q: Equivalent<K>>(&self, key: Q) -> u64
        ensures { result ≡ hash_of Q.Hash S.BuildHasher S.Hasher.Hasher self.now.builder key }
    {
        self.seen.hash(key)
    }

    /// Does what `request_again` does, with the hash of the key. `request_new_with_hash` may follow with the same hash.
    /// Cost: that of `request_again` without a hash.
    pub fn request_again_with_hash<Q: Equivalent<K>>(
        &mut self,
        hash: u64,
        key: Q,
        time: usize,
        weight: usize,
    ) -> Result<Option<Option<usize>>, SizedRequestError<Q>>
        requires hash { hash ≡ hash_of Q.Hash S.BuildHasher S.Hasher.Hasher self.old.builder key }
        ensures span { (w : K → ℕ) (idle : ℕ) (past : List (K × ℕ)) (x : K) → SameWeights K.eq w → IsSizedIdlePass K.eq w idle past self.old
            → w x ≡ weight → IsTrue (Q.equivalent key x)
            → IfOk result (λ s. IfSome s (λ t. t ≡ reuse_by K.eq (span K.eq w) idle (x, time) past)) }
        ensures taken { (w : K → ℕ) (idle : ℕ) (past : List (K × ℕ)) (x : K) → SameWeights K.eq w → IsSizedIdlePass K.eq w idle past self.old
            → w x ≡ weight → IsTrue (Q.equivalent key x)
            → IfOk result (λ s. IsSome s → IsSizedIdlePass K.eq w idle ((x, time) ∷ past) self.new) }
        ensures known { (w : K → ℕ) (idle : ℕ) (past : List (K × ℕ)) → IsSizedIdlePass K.eq w idle past self.old
            → IfOk result (λ s. is_some s ≡ list_any (Q.equivalent key) (keys_of past)) }
        ensures size { IfOk result (λ s. IsSome s → self.new.size ≡ self.old.size + (1 + weight)) }
        ensures not_taken { IfOk result (λ s. IsNone s → self.new ≡ self.old) }
        ensures refused { OnErr result (self.new ≡ self.old) }
        ensures given_back { IfErr result (λ e. key_of e ≡ key) }
        ensures too_large { IsErrAnd result IsTooLarge ↔ (2 ^ 64 ≤ self.old.size + (1 + weight)) }
    {
        self.again(hash, key, time, weight)
    }

    /// Takes one more request, at this time, of a key of this weight that was not requested before, as `request_again` tells, with its
    /// hash. Unlike `request` it does not look the key up first.
    ///
    /// If memory is refused, or the sizes of all requests with this one exceed `usize::MAX`, it returns the key, and the pass
    /// is unchanged.
    /// Cost: that of the same call of a `SizedPass`.
    pub fn request_new_with_hash(
        &mut self,
        hash: u64,
        key: K,
        time: usize,
        weight: usize,
    ) -> Result<(), SizedRequestError<K>>
    where
        K: Drop,
        requires hash { hash ≡ hash_of K.Hash S.BuildHasher S.Hasher.Hasher self.old.builder key }
        requires new { (w : K → ℕ) × (idle : ℕ) × (past : List (K × ℕ)) × IsSizedIdlePass K.eq w idle past self.old
            × (holds K.eq key (keys_of past) ≡ false) }
        ensures taken { (w : K → ℕ) (idle : ℕ) (past : List (K × ℕ)) → SameWeights K.eq w → IsSizedIdlePass K.eq w idle past self.old
            → w key ≡ weight → OnOk result (IsSizedIdlePass K.eq w idle ((key, time) ∷ past) self.new) }
        ensures size { OnOk result (self.new.size ≡ self.old.size + (1 + weight)) }
        ensures refused { OnErr result (self.new ≡ self.old) }
        ensures given_back { IfErr result (λ e. key_of e ≡ key) }
        ensures too_large { IsErrAnd result IsTooLarge ↔ (2 ^ 64 ≤ self.old.size + (1 + weight)) }
    {
        if weight >= usize::MAX - self.size {
            return Err(SizedRequestError::TooLarge(key));
        }
        match self.request_new(hash, key, time, weight) {
            Ok(()) => Ok(()),
            Err(key) => Err(SizedRequestError::NoMemory(key)),
        }
    }

    /// `request_again`, with the hash of the key. It also says by what was seen alone whether the key is known, whatever keys weighed.
    fn again<Q: Equivalent<K>>(
        &mut self,
        hash: u64,
        key: Q,
        time: usize,
        weight: usize,
    ) -> Result<Option<Option<usize>>, SizedRequestError<Q>>
        requires hash { hash ≡ hash_of Q.Hash S.BuildHasher S.Hasher.Hasher self.old.builder key }
        ensures span { (w : K → ℕ) (idle : ℕ) (past : List (K × ℕ)) (x : K) → SameWeights K.eq w → IsSizedIdlePass K.eq w idle past self.old
            → w x ≡ weight → IsTrue (Q.equivalent key x)
            → IfOk result (λ s. IfSome s (λ t. t ≡ reuse_by K.eq (span K.eq w) idle (x, time) past)) }
        ensures taken { (w : K → ℕ) (idle : ℕ) (past : List (K × ℕ)) (x : K) → SameWeights K.eq w → IsSizedIdlePass K.eq w idle past self.old
            → w x ≡ weight → IsTrue (Q.equivalent key x)
            → IfOk result (λ s. IsSome s → IsSizedIdlePass K.eq w idle ((x, time) ∷ past) self.new) }
        ensures known { IfOk result (λ s. is_some s ≡ is_some (lookup (Q.equivalent key) self.old.seen)) }
        ensures size { IfOk result (λ s. IsSome s → self.new.size ≡ self.old.size + (1 + weight)) }
        ensures not_taken { IfOk result (λ s. IsNone s → self.new ≡ self.old) }
        ensures refused { OnErr result (self.new ≡ self.old) }
        ensures given_back { IfErr result (λ e. key_of e ≡ key) }
        ensures too_large { IsErrAnd result IsTooLarge ↔ (2 ^ 64 ≤ self.old.size + (1 + weight)) }
    {
        if weight >= usize::MAX - self.size {
            return Err(SizedRequestError::TooLarge(key));
        }
        let size = weight + 1;
        let greatest = greater(self.greatest, weight);
        let Ok(()) = self.latest.make_ready(size) else {
            return Err(SizedRequestError::NoMemory(key));
        };
        let Ok(()) = self.hits.reserve(1) else {
            return Err(SizedRequestError::NoMemory(key));
        };
        let position = self.latest.requests;
        let here = Seen { position, time };
        let Some(before) = self.seen.replace(hash, key, here) else {
            return Ok(None);
        };
        let likely = self.latest.likely(before.position);
        let span = self.latest.remove(before.position, likely);
        self.latest.push(size);
        self.latest.drop_empty();
        let soon = is_soon(self.limit, before.time, time);
        let reuse = hit_if(&mut self.hits, soon, span, size);
        self.size += size;
        self.greatest = greatest;
        Ok(Some(reuse))
    }

    /// Takes one more request, of a key that was not requested before, with its hash.
    fn request_new(&mut self, hash: u64, key: K, time: usize, weight: usize) -> Result<(), K>
    where
        K: Drop,
        requires hash { hash ≡ hash_of K.Hash S.BuildHasher S.Hasher.Hasher self.old.builder key }
        requires new { lookup (K.eq key) self.old.seen ≡ None }
        requires fits { self.old.size + (1 + weight) < 2 ^ 64 }
        ensures taken { (w : K → ℕ) (idle : ℕ) (past : List (K × ℕ)) → SameWeights K.eq w → IsSizedIdlePass K.eq w idle past self.old
            → w key ≡ weight → OnOk result (IsSizedIdlePass K.eq w idle ((key, time) ∷ past) self.new) }
        ensures size { OnOk result (self.new.size ≡ self.old.size + (1 + weight)) }
        ensures refused { OnErr result (self.new ≡ self.old) }
        ensures given_back { IfErr result (λ back. back ≡ key) }
    {
        let greatest = greater(self.greatest, weight);
        let Ok(()) = self.latest.make_ready(weight + 1) else {
            return Err(key);
        };
        let position = self.latest.requests;
        let here = Seen { position, time };
        if let Err(key) = self.seen.insert(hash, key, here) {
            return Err(key);
        }
        self.latest.push(weight + 1);
        self.size += weight + 1;
        self.greatest = greatest;
        Ok(())
    }

    /// Returns the curve of the requests so far.
    /// Cost: a sort of the spans, and a step for each size; no request for memory.
    pub fn into_curve(self) -> SizedCurve<A>
    where
        K: Drop,
        S: Drop,
        ensures { (w : K → ℕ) (idle : ℕ) (past : List (K × ℕ)) → IsSizedIdlePass K.eq w idle past self
            → IsSizedIdleCurveOf K.eq w idle (reverse past) result }
    {
        let SizedIdlePass {
            seen: _,
            latest,
            hits,
            size,
            greatest,
            limit: _,
        } = self;
        SizedCurve::from_hits(hits, latest.requests, size, latest.total(), greatest)
    }

    /// Returns the curve of the requests so far, and lets the pass go on.
    /// Cost: a sort of the spans, and a step for each size; one request for memory, of two numbers for each hit that is possible, and
    /// none without requests.
    pub fn curve(&self, alloc: A) -> Result<SizedCurve<A>, NoMemory>
        ensures curve { (w : K → ℕ) (idle : ℕ) (past : List (K × ℕ)) → IsSizedIdlePass K.eq w idle past self.now
            → IfOk result (λ c. IsSizedIdleCurveOf K.eq w idle (reverse past) c) }
        ensures never_refused { (w : K → ℕ) (idle : ℕ) → IsSizedIdlePass K.eq w idle [] self.now → IsOk result }
    {
        let Ok(hits) = copied(alloc, &self.hits) else {
            return Err(NoMemory);
        };
        Ok(SizedCurve::from_hits(
            hits,
            self.latest.requests,
            self.size,
            self.latest.total(),
            self.greatest,
        ))
    }
}

/// Notes a request as a hit from its span on, and returns that, if the request came soon enough.
pub(crate) fn hit_if<A: Allocator>(
    hits: &mut Vec<Step, A>,
    soon: bool,
    span: usize,
    size: usize,
) -> Option<usize>
    requires room { vec_len hits.old < vec_capacity hits.old }
    ensures hits { hits.new.items ≡ if soon then hits.old.items ++ step span size ∷ [] else hits.old.items }
    ensures span { result ≡ if soon then Some span else None }
{
    if !soon {
        return None;
    }
    hits.push_reserved(Step {
        capacity: span,
        missed_size: size,
    });
    Some(span)
}
