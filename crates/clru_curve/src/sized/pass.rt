//! `SizedPass`, which takes requests of keys with sizes one by one.
ghost use Rattle.std.specs.Prelude.{◌≡◌, ℕ, ◌+◌, ◌^◌, ◌<◌, ◌≤◌, ◌↔◌, nat_lt, List, [], ◌∷◌, length, reverse, IfOk, IfErr, IfSome, IsErrAnd, OnOk, OnErr, IsOk, IsNone, IsSome, IsTrue, None, is_some, false, if◌then◌else◌};
ghost use Rattle.std.specs.List.{list_any};
ghost use Rattle.std.specs.Map.{lookup};
ghost use Rattle.clru_linked_map.specs.LinkedMap.{hash_of};
ghost use Rattle.clru_model.specs.Requests.{holds, since};
ghost use Rattle.clru_model.specs.Sizes.{SameWeights, span};
ghost use Rattle.clru_curve.specs.SizedPasses.{IsSizedPass, key_of, IsTooLarge};
ghost use Rattle.clru_curve.specs.SizedCurves.{IsSizedCurveOf};

use crate::pass::copied;
use crate::sized::curve::SizedCurve;
use crate::sized::error::SizedRequestError;
use crate::sized::sizes::Sizes;
use crate::sized::step::Step;
use clru_linked_map::KeyTable;
use clru_list::NoMemory;
use clru_model::DefaultState;
use std::alloc::{Allocator, Global};
use std::collections::hash_map::Equivalent;
use std::hash::{BuildHasher, Hash};
use std::marker::Model;

/// A pass over requests of keys that weigh something, which takes them one by one and returns the span of each.
///
/// The size of a request is 1 plus the weight of its key, as an entry takes it of a cache's capacity; for bytes the weight is
/// the number of bytes less 1, and no bytes count as one. Equal keys must weigh the same each time: if a key comes with
/// another weight than before, the clauses say nothing, and the calls are as safe as ever. Clauses describe the taken
/// requests, the latest first, by `IsSizedPass`. It returns a curve at any time.
///
/// Takes memory for a position in a hash table and a size for each distinct key, for half as many sizes more, and 16 bytes for each
/// request whose key came before. A size takes 8 bytes as long as all sizes and the number of requests fit 4, and else 16; when one first
/// does not, all are copied.
pub struct SizedPass<K: Eq + Hash, S: BuildHasher = DefaultState, A: Allocator + Copy = Global> {
    pub(crate) positions: KeyTable<K, usize, S, A>,
    pub(crate) latest: Sizes<A>,
    // For each request that can hit, from which capacity on it does, and its own size, which is missed below.
    hits: Vec<Step, A>,
    pub(crate) size: usize,
    greatest: usize,
}

impl<K: Eq + Hash + Drop, S: BuildHasher + Drop, A: Allocator + Copy> Drop for SizedPass<K, S, A> {
    fn drop(self) {
        let SizedPass {
            positions,
            latest,
            hits,
            size: _,
            greatest: _,
        } = self;
        drop(positions);
        drop(latest);
        drop(hits);
    }
}

impl<K: Eq + Hash, S: BuildHasher, A: Allocator + Copy> Model for SizedPass<K, S, A> {
    ghost use Rattle.clru_curve.specs.SizedPasses.{PassBySize, pass_by_size, pass_by_size_code, IsSoundBySize};

    ghost Value = { PassBySize K S };

    ghost coded = { pass_by_size_code K.code S.code };

    ghost view = { λ p. pass_by_size p.positions.entries p.latest.sizes.items p.latest.requests p.hits.items p.size p.greatest p.positions.builder };

    ghost invariant = { λ p. IsSoundBySize K.eq p.latest.nodes.items
        (pass_by_size p.positions.entries p.latest.sizes.items p.latest.requests p.hits.items p.size p.greatest p.positions.builder) };
}

impl<K: Eq + Hash, A: Allocator + Copy> SizedPass<K, DefaultState, A> {
    /// Creates a pass that has taken no request.
    /// Cost: no request for memory.
    pub fn new(alloc: A) -> Self
        ensures { (w : K → ℕ) → IsSizedPass K.eq w [] result }
    {
        SizedPass::with_hasher(alloc, DefaultState)
    }
}

impl<K: Eq + Hash, S: BuildHasher, A: Allocator + Copy> SizedPass<K, S, A> {
    /// Creates a pass that has taken no request and hashes keys with `hash_builder`.
    /// Cost: no request for memory.
    pub fn with_hasher(alloc: A, hash_builder: S) -> Self
        ensures { (w : K → ℕ) → IsSizedPass K.eq w [] result }
    {
        SizedPass {
            positions: KeyTable::new(alloc, hash_builder),
            latest: Sizes::new(alloc),
            hits: Vec::new(alloc),
            size: 0,
            greatest: 0,
        }
    }

    /// Takes one more request, of a key of this weight, and returns its span: the size of the key and of the distinct keys that
    /// were requested since its latest request, or `None` if there was none. If each key fits, the request hits at the
    /// capacities from the span on, and at no other.
    ///
    /// If memory is refused, or the sizes of all requests with this one exceed `usize::MAX`, it returns the key, and the pass
    /// is unchanged.
    /// Cost: one hash and a walk along one chain, for a new key a second walk; and steps that grow as the logarithm of
    /// the number of requests.
    pub fn request(&mut self, key: K, weight: usize) -> Result<Option<usize>, SizedRequestError<K>>
    where
        K: Drop,
        ensures span { (w : K → ℕ) (past : List K) → SameWeights K.eq w → IsSizedPass K.eq w past self.old
            → w key ≡ weight → IfOk result (λ s. s ≡ span K.eq w key past) }
        ensures taken { (w : K → ℕ) (past : List K) → SameWeights K.eq w → IsSizedPass K.eq w past self.old
            → w key ≡ weight → OnOk result (IsSizedPass K.eq w (key ∷ past) self.new) }
        ensures size { OnOk result (self.new.size ≡ self.old.size + (1 + weight)) }
        ensures refused { OnErr result (self.new ≡ self.old) }
        ensures given_back { IfErr result (λ e. key_of e ≡ key) }
        ensures too_large { IsErrAnd result IsTooLarge ↔ (2 ^ 64 ≤ self.old.size + (1 + weight)) }
    {
        let hash = self.positions.hash(&key);
        match self.again(hash, &key, weight) {
            Ok(Some(span)) => Ok(Some(span)),
            Ok(None) => match self.take_new(hash, key, weight) {
                Ok(()) => Ok(None),
                Err(key) => Err(SizedRequestError::NoMemory(key)),
            },
            Err(SizedRequestError::NoMemory(_)) => Err(SizedRequestError::NoMemory(key)),
            Err(SizedRequestError::TooLarge(_)) => Err(SizedRequestError::TooLarge(key)),
        }
    }

    /// Takes one more request of an earlier key of this weight, by a form of it, and returns its span. If no such key was
    /// requested, it takes nothing and returns `None`; then call `request`. A log reader therefore allocates a key only when it
    /// first appears.
    ///
    /// If memory is refused, or the sizes of all requests with this one exceed `usize::MAX`, it returns the form, and the pass
    /// is unchanged.
    /// Cost: one hash and a walk along one chain, and if the key is known steps that grow as the logarithm of the number of
    /// requests.
    pub fn request_again<Q: Equivalent<K>>(
        &mut self,
        key: Q,
        weight: usize,
    ) -> Result<Option<usize>, SizedRequestError<Q>>
        ensures span { (w : K → ℕ) (past : List K) (x : K) → SameWeights K.eq w → IsSizedPass K.eq w past self.old
            → w x ≡ weight → IsTrue (Q.equivalent key x) → IfOk result (λ s. s ≡ span K.eq w x past) }
        ensures taken { (w : K → ℕ) (past : List K) (x : K) → SameWeights K.eq w → IsSizedPass K.eq w past self.old
            → w x ≡ weight → IsTrue (Q.equivalent key x)
            → IfOk result (λ s. IsSome s → IsSizedPass K.eq w (x ∷ past) self.new) }
        ensures known { (w : K → ℕ) (past : List K) → IsSizedPass K.eq w past self.old
            → IfOk result (λ s. is_some s ≡ list_any (Q.equivalent key) past) }
        ensures size { IfOk result (λ s. IsSome s → self.new.size ≡ self.old.size + (1 + weight)) }
        ensures not_taken { IfOk result (λ s. IsNone s → self.new ≡ self.old) }
        ensures refused { OnErr result (self.new ≡ self.old) }
        ensures given_back { IfErr result (λ e. key_of e ≡ key) }
        ensures too_large { IsErrAnd result IsTooLarge ↔ (2 ^ 64 ≤ self.old.size + (1 + weight)) }
    {
        let hash = self.positions.hash(key);
        self.request_again_with_hash(hash, key, weight)
    }

    /// Returns the hash of a key, by a form of it, for the calls that take one. Every form of the key has it, and the pass keeps its
    /// hash builder.
    /// Cost: one hash.
    pub fn hash<Q: Equivalent<K>>(&self, key: Q) -> u64
        ensures { result ≡ hash_of Q.Hash S.BuildHasher S.Hasher.Hasher self.now.builder key }
    {
        self.positions.hash(key)
    }

    /// Does what `request_again` does, with the hash of the key. `request_new_with_hash` may follow with the same hash.
    /// Cost: that of `request_again` without a hash.
    pub fn request_again_with_hash<Q: Equivalent<K>>(
        &mut self,
        hash: u64,
        key: Q,
        weight: usize,
    ) -> Result<Option<usize>, SizedRequestError<Q>>
        requires hash { hash ≡ hash_of Q.Hash S.BuildHasher S.Hasher.Hasher self.old.builder key }
        ensures span { (w : K → ℕ) (past : List K) (x : K) → SameWeights K.eq w → IsSizedPass K.eq w past self.old
            → w x ≡ weight → IsTrue (Q.equivalent key x) → IfOk result (λ s. s ≡ span K.eq w x past) }
        ensures taken { (w : K → ℕ) (past : List K) (x : K) → SameWeights K.eq w → IsSizedPass K.eq w past self.old
            → w x ≡ weight → IsTrue (Q.equivalent key x)
            → IfOk result (λ s. IsSome s → IsSizedPass K.eq w (x ∷ past) self.new) }
        ensures known { (w : K → ℕ) (past : List K) → IsSizedPass K.eq w past self.old
            → IfOk result (λ s. is_some s ≡ list_any (Q.equivalent key) past) }
        ensures size { IfOk result (λ s. IsSome s → self.new.size ≡ self.old.size + (1 + weight)) }
        ensures not_taken { IfOk result (λ s. IsNone s → self.new ≡ self.old) }
        ensures refused { OnErr result (self.new ≡ self.old) }
        ensures given_back { IfErr result (λ e. key_of e ≡ key) }
        ensures too_large { IsErrAnd result IsTooLarge ↔ (2 ^ 64 ≤ self.old.size + (1 + weight)) }
    {
        self.again(hash, key, weight)
    }

    /// Takes one more request, of a key of this weight that was not requested before, as `request_again` tells. Unlike `request`
    /// it does not look the key up first.
    ///
    /// If memory is refused, or the sizes of all requests with this one exceed `usize::MAX`, it returns the key, and the pass
    /// is unchanged.
    /// Cost: one hash, and steps that grow as the logarithm of the number of requests.
    pub fn request_new(&mut self, key: K, weight: usize) -> Result<(), SizedRequestError<K>>
    where
        K: Drop,
        requires new { (w : K → ℕ) × (past : List K) × IsSizedPass K.eq w past self.old × (holds K.eq key past ≡ false) }
        ensures taken { (w : K → ℕ) (past : List K) → SameWeights K.eq w → IsSizedPass K.eq w past self.old
            → w key ≡ weight → OnOk result (IsSizedPass K.eq w (key ∷ past) self.new) }
        ensures size { OnOk result (self.new.size ≡ self.old.size + (1 + weight)) }
        ensures refused { OnErr result (self.new ≡ self.old) }
        ensures given_back { IfErr result (λ e. key_of e ≡ key) }
        ensures too_large { IsErrAnd result IsTooLarge ↔ (2 ^ 64 ≤ self.old.size + (1 + weight)) }
    {
        let hash = self.positions.hash(&key);
        self.request_new_with_hash(hash, key, weight)
    }

    /// Does what `request_new` does, with the hash of the key, which `hash` returns and no call changes.
    /// Cost: that of `request_new` without a hash.
    pub fn request_new_with_hash(
        &mut self,
        hash: u64,
        key: K,
        weight: usize,
    ) -> Result<(), SizedRequestError<K>>
    where
        K: Drop,
        requires hash { hash ≡ hash_of K.Hash S.BuildHasher S.Hasher.Hasher self.old.builder key }
        requires new { (w : K → ℕ) × (past : List K) × IsSizedPass K.eq w past self.old × (holds K.eq key past ≡ false) }
        ensures taken { (w : K → ℕ) (past : List K) → SameWeights K.eq w → IsSizedPass K.eq w past self.old
            → w key ≡ weight → OnOk result (IsSizedPass K.eq w (key ∷ past) self.new) }
        ensures size { OnOk result (self.new.size ≡ self.old.size + (1 + weight)) }
        ensures refused { OnErr result (self.new ≡ self.old) }
        ensures given_back { IfErr result (λ e. key_of e ≡ key) }
        ensures too_large { IsErrAnd result IsTooLarge ↔ (2 ^ 64 ≤ self.old.size + (1 + weight)) }
    {
        if weight >= usize::MAX - self.size {
            return Err(SizedRequestError::TooLarge(key));
        }
        match self.take_new(hash, key, weight) {
            Ok(()) => Ok(()),
            Err(key) => Err(SizedRequestError::NoMemory(key)),
        }
    }

    /// Returns the position of the latest request of a key, by a form of it: how many requests came before that one. Returns
    /// `None` if no such key was requested.
    /// Cost: one hash and a walk along one chain.
    pub fn latest_request<Q: Equivalent<K>>(&self, key: Q) -> Option<usize>
        ensures known { (w : K → ℕ) (past : List K) → IsSizedPass K.eq w past self.now
            → is_some result ≡ list_any (Q.equivalent key) past }
        ensures position { (w : K → ℕ) (past : List K) (x : K) → IsSizedPass K.eq w past self.now → IsTrue (Q.equivalent key x)
            → IfSome result (λ p. p + 1 + length (since K.eq x past) ≡ length past) }
    {
        let hash = self.positions.hash(key);
        self.latest_request_with_hash(hash, key)
    }

    /// Does what `latest_request` does, with the hash of the key.
    /// Cost: a walk along one chain.
    pub fn latest_request_with_hash<Q: Equivalent<K>>(&self, hash: u64, key: Q) -> Option<usize>
        requires hash { hash ≡ hash_of Q.Hash S.BuildHasher S.Hasher.Hasher self.now.builder key }
        ensures known { (w : K → ℕ) (past : List K) → IsSizedPass K.eq w past self.now
            → is_some result ≡ list_any (Q.equivalent key) past }
        ensures position { (w : K → ℕ) (past : List K) (x : K) → IsSizedPass K.eq w past self.now → IsTrue (Q.equivalent key x)
            → IfSome result (λ p. p + 1 + length (since K.eq x past) ≡ length past) }
    {
        self.positions.get(hash, key)
    }

    /// `request_again`, with the hash of the key. It also says by the positions alone whether the key is known, whatever keys weighed.
    fn again<Q: Equivalent<K>>(
        &mut self,
        hash: u64,
        key: Q,
        weight: usize,
    ) -> Result<Option<usize>, SizedRequestError<Q>>
        requires hash { hash ≡ hash_of Q.Hash S.BuildHasher S.Hasher.Hasher self.old.builder key }
        ensures span { (w : K → ℕ) (past : List K) (x : K) → SameWeights K.eq w → IsSizedPass K.eq w past self.old
            → w x ≡ weight → IsTrue (Q.equivalent key x) → IfOk result (λ s. s ≡ span K.eq w x past) }
        ensures taken { (w : K → ℕ) (past : List K) (x : K) → SameWeights K.eq w → IsSizedPass K.eq w past self.old
            → w x ≡ weight → IsTrue (Q.equivalent key x)
            → IfOk result (λ s. IsSome s → IsSizedPass K.eq w (x ∷ past) self.new) }
        ensures known { IfOk result (λ s. is_some s ≡ is_some (lookup (Q.equivalent key) self.old.positions)) }
        ensures size { IfOk result (λ s. IsSome s → self.new.size ≡ self.old.size + (1 + weight)) }
        ensures not_taken { IfOk result (λ s. IsNone s → self.new ≡ self.old) }
        ensures refused { OnErr result (self.new ≡ self.old) }
        ensures given_back { IfErr result (λ e. key_of e ≡ key) }
        ensures too_large { IsErrAnd result IsTooLarge ↔ (2 ^ 64 ≤ self.old.size + (1 + weight)) }
    {
        if weight >= usize::MAX - self.size {
            return Err(SizedRequestError::TooLarge(key));
        }
        let size = weight + 1;
        let greatest = greater(self.greatest, weight);
        let Ok(()) = self.latest.make_ready(size) else {
            return Err(SizedRequestError::NoMemory(key));
        };
        let Ok(()) = self.hits.reserve(1) else {
            return Err(SizedRequestError::NoMemory(key));
        };
        let here = self.latest.requests;
        let Some(position) = self.positions.replace(hash, key, here) else {
            return Ok(None);
        };
        let likely = self.latest.likely(position);
        let span = self.latest.remove(position, likely);
        self.latest.push(size);
        self.latest.drop_empty();
        self.hits.push_reserved(Step {
            capacity: span,
            missed_size: size,
        });
        self.size += size;
        self.greatest = greatest;
        Ok(Some(span))
    }

    /// Takes one more request, of a key that fits and was not requested before, with its hash.
    fn take_new(&mut self, hash: u64, key: K, weight: usize) -> Result<(), K>
    where
        K: Drop,
        requires hash { hash ≡ hash_of K.Hash S.BuildHasher S.Hasher.Hasher self.old.builder key }
        requires new { lookup (K.eq key) self.old.positions ≡ None }
        requires fits { self.old.size + (1 + weight) < 2 ^ 64 }
        ensures taken { (w : K → ℕ) (past : List K) → SameWeights K.eq w → IsSizedPass K.eq w past self.old
            → w key ≡ weight → OnOk result (IsSizedPass K.eq w (key ∷ past) self.new) }
        ensures size { OnOk result (self.new.size ≡ self.old.size + (1 + weight)) }
        ensures refused { OnErr result (self.new ≡ self.old) }
        ensures given_back { IfErr result (λ back. back ≡ key) }
    {
        let greatest = greater(self.greatest, weight);
        let Ok(()) = self.latest.make_ready(weight + 1) else {
            return Err(key);
        };
        let here = self.latest.requests;
        if let Err(key) = self.positions.insert(hash, key, here) {
            return Err(key);
        }
        self.latest.push(weight + 1);
        self.size += weight + 1;
        self.greatest = greatest;
        Ok(())
    }

    /// Returns the curve of the requests so far.
    /// Cost: a sort of the spans, and a step for each size; no request for memory.
    pub fn into_curve(self) -> SizedCurve<A>
    where
        K: Drop,
        S: Drop,
        ensures { (w : K → ℕ) (past : List K) → IsSizedPass K.eq w past self
            → IsSizedCurveOf K.eq w (reverse past) result }
    {
        let SizedPass {
            positions: _,
            latest,
            hits,
            size,
            greatest,
        } = self;
        SizedCurve::from_hits(hits, latest.requests, size, latest.total(), greatest)
    }

    /// Returns the curve of the requests so far, and lets the pass go on.
    /// Cost: a sort of the spans, and a step for each size; one request for memory, of two numbers for each request that asked for a
    /// key again, and none without requests.
    pub fn curve(&self, alloc: A) -> Result<SizedCurve<A>, NoMemory>
        ensures curve { (w : K → ℕ) (past : List K) → IsSizedPass K.eq w past self.now
            → IfOk result (λ c. IsSizedCurveOf K.eq w (reverse past) c) }
        ensures never_refused { (w : K → ℕ) → IsSizedPass K.eq w [] self.now → IsOk result }
    {
        let Ok(hits) = copied(alloc, &self.hits) else {
            return Err(NoMemory);
        };
        Ok(SizedCurve::from_hits(
            hits,
            self.latest.requests,
            self.size,
            self.latest.total(),
            self.greatest,
        ))
    }
}

/// The greater of two numbers.
pub(crate) fn greater(x: usize, y: usize) -> usize
    ensures { result ≡ (if nat_lt x y then y else x) }
{
    if x < y { y } else { x }
}
