//! `DistancePass`, which takes requests one by one.
ghost use Rattle.std.specs.Prelude.{◌≡◌, ℕ, suc, ◌+◌, ◌%◌, ◌^◌, ◌<◌, ◌≤◌, List, [], ◌∷◌, length, take, sum, reverse, slice_index, IfOk, IfErr, IfSome, OnOk, OnErr, IsOk, IsNone, IsSome, IsTrue, is_some, true, false};
ghost use Rattle.std.specs.List.{list_any};
ghost use Rattle.std.specs.Map.{lookup, set_value};
ghost use Rattle.clru_model.specs.Requests.{holds, distinct, since};
ghost use Rattle.clru_linked_map.specs.LinkedMap.{hash_of};
ghost use Rattle.clru_curve.specs.Curves.{HasMissesOf};
ghost use Rattle.clru_model.specs.Distances.{distance};
ghost use Rattle.clru_curve.specs.Passes.{IsPass};

use crate::curve::MissCurve;
use crate::latest::Latest;
use clru_linked_map::KeyTable;
use clru_list::NoMemory;
use clru_model::DefaultState;
use std::alloc::{Allocator, Global};
use std::collections::hash_map::Equivalent;
use std::hash::{BuildHasher, Hash};
use std::marker::Model;

/// A pass over requests, which takes them one by one and returns the distance of each.
///
/// Clauses describe the requests that it has taken, the latest first, by `IsPass`: none at first, then each taken request
/// comes in front. It returns a curve at any time.
///
/// Takes memory for a position in a hash table and a number for each distinct key, and 24 bytes for each block of 64 requests that has
/// the latest of a key, and for half as many blocks more and 4.
pub struct DistancePass<K: Eq + Hash, S: BuildHasher = DefaultState, A: Allocator + Copy = Global> {
    pub(crate) positions: KeyTable<K, usize, S, A>,
    pub(crate) latest: Latest<A>,
    histogram: Vec<usize, A>,
}

impl<K: Eq + Hash + Drop, S: BuildHasher + Drop, A: Allocator + Copy> Drop
    for DistancePass<K, S, A> {
    fn drop(self) {
        let DistancePass {
            positions,
            latest,
            histogram,
        } = self;
        drop(positions);
        drop(latest);
        drop(histogram);
    }
}

impl<K: Eq + Hash, S: BuildHasher, A: Allocator + Copy> Model for DistancePass<K, S, A> {
    ghost use Rattle.clru_curve.specs.Passes.{Pass, pass, pass_code, IsSound};

    ghost Value = { Pass K S };

    ghost coded = { pass_code K.code S.code };

    ghost view = { λ p. pass p.positions.entries p.latest.blocks.items p.latest.requests p.histogram.items p.positions.builder };

    ghost invariant = { λ p. IsSound K.eq p.latest.nodes.items
        (pass p.positions.entries p.latest.blocks.items p.latest.requests p.histogram.items p.positions.builder) };
}

impl<K: Eq + Hash, A: Allocator + Copy> DistancePass<K, DefaultState, A> {
    /// Creates a pass that has taken no request.
    /// Cost: no request for memory.
    pub fn new(alloc: A) -> Self
        ensures { IsPass K.eq [] result }
    {
        DistancePass::with_hasher(alloc, DefaultState)
    }
}

impl<K: Eq + Hash, S: BuildHasher, A: Allocator + Copy> DistancePass<K, S, A> {
    /// Creates a pass that has taken no request and hashes keys with `hash_builder`.
    /// Cost: no request for memory.
    pub fn with_hasher(alloc: A, hash_builder: S) -> Self
        ensures { IsPass K.eq [] result }
    {
        DistancePass {
            positions: KeyTable::new(alloc, hash_builder),
            latest: Latest::new(alloc),
            histogram: Vec::new(alloc),
        }
    }

    /// Takes one more request, and returns its distance: how many distinct keys were requested since the latest request of its
    /// key, or `None` if there was none. It hits at the capacities above the distance, and at no other. The stack distance of
    /// the literature is one more, because it counts the key itself.
    ///
    /// If memory is refused, or there were `usize::MAX` requests, it returns the key, and the pass is unchanged. A key that was
    /// requested before asks for memory at most once in 64 requests.
    /// Cost: one hash and a walk along one chain, for a new key a second walk; and steps that grow as the logarithm of
    /// the number of requests.
    pub fn request(&mut self, key: K) -> Result<Option<usize>, K>
    where
        K: Drop,
        ensures distance { (past : List K) → IsPass K.eq past self.old → IfOk result (λ d. d ≡ distance K.eq key past) }
        ensures taken { (past : List K) → IsPass K.eq past self.old → OnOk result (IsPass K.eq (key ∷ past) self.new) }
        ensures refused { (past : List K) → IsPass K.eq past self.old → OnErr result (IsPass K.eq past self.new) }
        ensures given_back { IfErr result (λ back. back ≡ key) }
        ensures memory { (past : List K) → IsPass K.eq past self.old → holds K.eq key past ≡ true
            → 0 < length past % 64 → length past + 1 < 2 ^ 64 → IsOk result }
    {
        // (reading a field also tells the proof the pass's invariant: some requests were taken)
        let hash = self.positions.hash(&key);
        match self.request_again_with_hash(hash, &key) {
            Ok(Some(distance)) => Ok(Some(distance)),
            Ok(None) => match self.request_new_with_hash(hash, key) {
                Ok(()) => Ok(None),
                Err(key) => Err(key),
            },
            Err(_) => Err(key),
        }
    }

    /// Takes one more request of an earlier key, by a form of it, and returns its distance. If no such key was requested, it
    /// takes nothing and returns `None`; then call `request`. A log reader therefore allocates a key only when it first appears.
    ///
    /// If memory is refused, or there were `usize::MAX` requests, it returns the form, and the pass is unchanged.
    /// Cost: one hash and a walk along one chain, and if the key is known steps that grow as the logarithm of the number of
    /// requests.
    pub fn request_again<Q: Equivalent<K>>(&mut self, key: Q) -> Result<Option<usize>, Q>
        ensures distance { (past : List K) (x : K) → IsPass K.eq past self.old → IsTrue (Q.equivalent key x)
            → IfOk result (λ d. d ≡ distance K.eq x past) }
        ensures taken { (past : List K) (x : K) → IsPass K.eq past self.old → IsTrue (Q.equivalent key x)
            → IfOk result (λ d. IsSome d → IsPass K.eq (x ∷ past) self.new) }
        ensures known { (past : List K) → IsPass K.eq past self.old
            → IfOk result (λ d. is_some d ≡ list_any (Q.equivalent key) past) }
        ensures not_taken { (past : List K) → IsPass K.eq past self.old
            → IfOk result (λ d. IsNone d → IsPass K.eq past self.new) }
        ensures refused { (past : List K) → IsPass K.eq past self.old → OnErr result (IsPass K.eq past self.new) }
        ensures given_back { IfErr result (λ back. back ≡ key) }
        ensures memory { (past : List K) → IsPass K.eq past self.old
            → 0 < length past % 64 → length past + 1 < 2 ^ 64 → IsOk result }
    {
        let hash = self.positions.hash(key);
        self.request_again_with_hash(hash, key)
    }

    /// Returns the hash of a key, by a form of it, for the calls that take one. Every form of the key has it, and the pass keeps its
    /// hash builder.
    /// Cost: one hash.
    pub fn hash<Q: Equivalent<K>>(&self, key: Q) -> u64
        ensures { result ≡ hash_of Q.Hash S.BuildHasher S.Hasher.Hasher self.now.builder key }
    {
        self.positions.hash(key)
    }

    /// Does what `request_again` does, with the hash of the key, and leaves the hash builder as it was. So `request_new_with_hash`
    /// may follow with the same hash.
    /// Cost: that of `request_again` without a hash.
    pub fn request_again_with_hash<Q: Equivalent<K>>(
        &mut self,
        hash: u64,
        key: Q,
    ) -> Result<Option<usize>, Q>
        requires hash { hash ≡ hash_of Q.Hash S.BuildHasher S.Hasher.Hasher self.old.builder key }
        ensures distance { (past : List K) (x : K) → IsPass K.eq past self.old → IsTrue (Q.equivalent key x)
            → IfOk result (λ d. d ≡ distance K.eq x past) }
        ensures taken { (past : List K) (x : K) → IsPass K.eq past self.old → IsTrue (Q.equivalent key x)
            → IfOk result (λ d. IsSome d → IsPass K.eq (x ∷ past) self.new) }
        ensures known { (past : List K) → IsPass K.eq past self.old
            → IfOk result (λ d. is_some d ≡ list_any (Q.equivalent key) past) }
        ensures not_taken { (past : List K) → IsPass K.eq past self.old
            → IfOk result (λ d. IsNone d → IsPass K.eq past self.new) }
        ensures refused { (past : List K) → IsPass K.eq past self.old → OnErr result (IsPass K.eq past self.new) }
        ensures given_back { IfErr result (λ back. back ≡ key) }
        ensures memory { (past : List K) → IsPass K.eq past self.old
            → 0 < length past % 64 → length past + 1 < 2 ^ 64 → IsOk result }
        ensures builder { self.new.builder ≡ self.old.builder }
    {
        let Ok(()) = self.latest.make_ready() else {
            return Err(key);
        };
        let here = self.latest.requests;
        let Some(position) = self.positions.replace(hash, key, here) else {
            return Ok(None);
        };
        let distance = self.latest.remove(position);
        self.latest.push();
        self.histogram[distance] += 1;
        Ok(Some(distance))
    }

    /// Returns the position of the latest request of a key, by a form of it: how many requests came before that one. Returns
    /// `None` if no such key was requested.
    /// Cost: one hash and a walk along one chain.
    pub fn latest_request<Q: Equivalent<K>>(&self, key: Q) -> Option<usize>
        ensures known { (past : List K) → IsPass K.eq past self.now
            → is_some result ≡ list_any (Q.equivalent key) past }
        ensures position { (past : List K) (x : K) → IsPass K.eq past self.now → IsTrue (Q.equivalent key x)
            → IfSome result (λ p. p + 1 + length (since K.eq x past) ≡ length past) }
    {
        let hash = self.positions.hash(key);
        self.latest_request_with_hash(hash, key)
    }

    /// Does what `latest_request` does, with the hash of the key.
    /// Cost: a walk along one chain.
    pub fn latest_request_with_hash<Q: Equivalent<K>>(&self, hash: u64, key: Q) -> Option<usize>
        requires hash { hash ≡ hash_of Q.Hash S.BuildHasher S.Hasher.Hasher self.now.builder key }
        ensures known { (past : List K) → IsPass K.eq past self.now
            → is_some result ≡ list_any (Q.equivalent key) past }
        ensures position { (past : List K) (x : K) → IsPass K.eq past self.now → IsTrue (Q.equivalent key x)
            → IfSome result (λ p. p + 1 + length (since K.eq x past) ≡ length past) }
    {
        self.positions.get(hash, key)
    }

    /// Takes one more request, of a key that was not requested before, as `request_again` tells. Unlike `request` it does not look
    /// the key up first.
    ///
    /// If memory is refused, or there were `usize::MAX` requests, it returns the key, and the pass is unchanged.
    /// Cost: one hash, and steps that grow as the logarithm of the number of requests.
    pub fn request_new(&mut self, key: K) -> Result<(), K>
    where
        K: Drop,
        requires new { (past : List K) × IsPass K.eq past self.old × (holds K.eq key past ≡ false) }
        ensures taken { (past : List K) → IsPass K.eq past self.old → OnOk result (IsPass K.eq (key ∷ past) self.new) }
        ensures refused { (past : List K) → IsPass K.eq past self.old → OnErr result (IsPass K.eq past self.new) }
        ensures given_back { IfErr result (λ back. back ≡ key) }
    {
        let hash = self.positions.hash(&key);
        self.request_new_with_hash(hash, key)
    }

    /// Does what `request_new` does, with the hash of the key, which `hash` returns and no call changes.
    /// Cost: that of `request_new` without a hash.
    pub fn request_new_with_hash(&mut self, hash: u64, key: K) -> Result<(), K>
    where
        K: Drop,
        requires hash { hash ≡ hash_of K.Hash S.BuildHasher S.Hasher.Hasher self.old.builder key }
        requires new { (past : List K) × IsPass K.eq past self.old × (holds K.eq key past ≡ false) }
        ensures taken { (past : List K) → IsPass K.eq past self.old → OnOk result (IsPass K.eq (key ∷ past) self.new) }
        ensures refused { (past : List K) → IsPass K.eq past self.old → OnErr result (IsPass K.eq past self.new) }
        ensures given_back { IfErr result (λ back. back ≡ key) }
    {
        let Ok(()) = self.latest.make_ready() else {
            return Err(key);
        };
        let Ok(()) = self.histogram.reserve(1) else {
            return Err(key);
        };
        let here = self.latest.requests;
        if let Err(key) = self.positions.insert(hash, key, here) {
            return Err(key);
        }
        self.latest.push();
        self.histogram.push_reserved(0);
        Ok(())
    }

    /// Returns the curve of the requests so far.
    /// Cost: a step for each distinct key; no request for memory.
    pub fn into_curve(self) -> MissCurve<A>
    where
        K: Drop,
        S: Drop,
        ensures misses { (past : List K) → IsPass K.eq past self → HasMissesOf K.eq (reverse past) result }
        ensures distinct { (past : List K) → IsPass K.eq past self → length result ≡ distinct K.eq past }
    {
        let DistancePass {
            positions: _,
            latest,
            mut histogram,
        } = self;
        misses_of(&mut histogram, latest.requests);
        MissCurve::from_misses(histogram)
    }

    /// Returns the curve of the requests so far, and lets the pass go on.
    /// Cost: a step for each distinct key; one request for memory, of a number for each, and none without requests.
    pub fn curve(&self, alloc: A) -> Result<MissCurve<A>, NoMemory>
        ensures misses { (past : List K) → IsPass K.eq past self.now
            → IfOk result (λ c. HasMissesOf K.eq (reverse past) c) }
        ensures distinct { (past : List K) → IsPass K.eq past self.now
            → IfOk result (λ c. length c ≡ distinct K.eq past) }
        ensures never_refused { IsPass K.eq [] self.now → IsOk result }
    {
        let Ok(mut misses) = copied(alloc, &self.histogram) else {
            return Err(NoMemory);
        };
        misses_of(&mut misses, self.latest.requests);
        Ok(MissCurve::from_misses(misses))
    }
}

/// A copy of the items, for which no memory is asked for if there are none.
pub(crate) fn copied<T: Copy, A: Allocator>(alloc: A, items: &[T]) -> Result<Vec<T, A>, NoMemory>
    ensures items { IfOk result (λ v. v.items ≡ items.now) }
    ensures never_refused { items.now ≡ [] → IsOk result }
{
    let Ok(mut copy) = Vec::with_capacity(alloc, items.len()) else {
        return Err(NoMemory);
    };
    match copy.extend_from_slice(items) {
        Ok(()) => Ok(copy),
        Err(_) => Err(NoMemory),
    }
}

/// Turns the number of requests at each distance into the misses at each capacity.
pub(crate) fn misses_of(histogram: &mut [usize], requests: usize)
    requires within { (k : ℕ) → sum (take k histogram.old) ≤ requests }
    ensures len { length histogram.new ≡ length histogram.old }
    ensures misses { (i : ℕ) → i < length histogram.old
        → slice_index histogram.new i + sum (take (suc i) histogram.old) ≡ requests }
{
    let mut misses = requests;
    for count in histogram.iter_mut() {
        misses -= *count;
        *count = misses;
    }
}
