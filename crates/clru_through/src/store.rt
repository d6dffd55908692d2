//! `Through`, and the calls that read the whole of it. A clause sees a store as its `cache` and its `source`.
ghost use Rattle.std.specs.Prelude.{◌≡◌, ◌≤◌, ◌↔◌, ◌⊎◌, [], length, IsTrue};
ghost use Rattle.clru.specs.Cache.{IsValid};
ghost use Rattle.clru_model.specs.Entries.{weight_of};
ghost use Rattle.clru_through.specs.Store.{AllKeep, store};

mod load;
mod parts;
mod put;
mod refresh;
mod remove;

use crate::source::{ByValue, Fetch};
use clru::{CLruCache, DefaultState, WeightScale, ZeroWeightScale};
use std::alloc::{Allocator, Global};
use std::hash::{BuildHasher, Hash};
use std::marker::{Model, PhantomData};

/// A source of values, with a cache before it. Each value that is held is the source's value for its key, or at `ByPromise` one
/// that keeps what the source promises of the key.
pub struct Through<
    K: Eq + Hash,
    V,
    E,
    R: Fetch<K, V, E, M>,
    S: BuildHasher = DefaultState,
    W: WeightScale<K, V> = ZeroWeightScale,
    A: Allocator + Copy = Global,
    M = ByValue,
> {
    cache: CLruCache<K, V, S, W, A>,
    source: R,
    // What the latest `get` passed on, and what it failed with. The model shows neither.
    passed: Option<V>,
    failed: Option<E>,
    mark: PhantomData<M>,
}

impl<
    K: Eq + Hash + Drop,
    V: Drop,
    E: Drop,
    R: Fetch<K, V, E, M> + Drop,
    S: BuildHasher + Drop,
    W,
    A,
    M,
> Drop for Through<K, V, E, R, S, W, A, M>
where
    W: WeightScale<K, V> + Drop,
    A: Allocator + Copy,
{
    fn drop(self) {
        let Through {
            cache,
            source,
            passed,
            failed,
            mark: _,
        } = self;
        drop(cache);
        drop(source);
        drop(passed);
        drop(failed);
    }
}

impl<
    K: Eq + Hash,
    V,
    E,
    R: Fetch<K, V, E, M>,
    S: BuildHasher,
    W: WeightScale<K, V>,
    A: Allocator + Copy,
    M,
> Model for Through<K, V, E, R, S, W, A, M> {
    ghost use Rattle.clru.specs.Cache.{cache_code};
    ghost use Rattle.clru_through.specs.Store.{Store, store, store_code, AllKeep};

    ghost Value = { Store K V W R };

    ghost coded = { store_code (cache_code K.code V.code W.code) R.code };

    ghost view = { λ t. store t.cache t.source };

    ghost invariant = { λ t. AllKeep R.keeps (R.promised t.source) t.cache.entries };
}

impl<
    K: Eq + Hash,
    V,
    E,
    R: Fetch<K, V, E, M>,
    S: BuildHasher,
    W: WeightScale<K, V>,
    A: Allocator + Copy,
    M,
> Through<K, V, E, R, S, W, A, M> {
    /// Creates a store of a source and a cache before it, which is empty, or holds values of the source alone, as `into_parts`
    /// gives it back.
    /// Cost: no request for memory.
    #[tactic(auto, using(crate::proofs::Sourced::AllKeep_given))]
    pub fn new(cache: CLruCache<K, V, S, W, A>, source: R) -> Self
        requires { (cache.entries ≡ []) ⊎ AllKeep R.keeps (R.promised source) cache.entries }
        ensures { result ≡ store cache source }
    {
        Through {
            cache,
            source,
            passed: None,
            failed: None,
            mark: PhantomData,
        }
    }

    /// Returns the number of values that are held.
    /// Cost: a read.
    pub fn len(&self) -> usize
        ensures len { result ≡ length self.now.cache.entries }
        ensures valid { IsValid K.eq (W.weight self.now.cache.scale) self.now.cache }
        ensures from_source { AllKeep R.keeps (R.promised self.now.source) self.now.cache.entries }
    {
        self.cache.len()
    }

    /// Returns the total weight of what is held.
    /// Cost: a read.
    pub fn weight(&self) -> usize
        ensures weight { result ≡ weight_of (W.weight self.now.cache.scale) self.now.cache.entries }
        ensures valid { IsValid K.eq (W.weight self.now.cache.scale) self.now.cache }
    {
        self.cache.weight()
    }

    /// Returns the bound on the number of held values plus their total weight.
    /// Cost: a read.
    pub fn capacity(&self) -> usize
        ensures capacity { result ≡ self.now.cache.capacity }
        ensures valid { IsValid K.eq (W.weight self.now.cache.scale) self.now.cache }
    {
        self.cache.capacity()
    }

    /// Returns whether the value weighs as much as the capacity or more, so that no load and no `put` holds it. A value that was
    /// passed on though it is lighter found no memory.
    /// Cost: a weighing.
    pub fn is_too_heavy(&self, key: &K, value: &V) -> bool
        ensures { IsTrue result ↔ (self.now.cache.capacity ≤ W.weight self.now.cache.scale key.now value.now) }
    {
        self.cache.scale().weight(key, value) >= self.cache.capacity()
    }
}
