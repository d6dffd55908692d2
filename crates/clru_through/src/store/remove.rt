//! The calls after which less is held. Nothing is fetched, and the source is as it was.
ghost use Rattle.std.specs.Prelude.{◌≡◌, [], IfSome};
ghost use Rattle.std.specs.Int.NonZero.{non_zero_usize_get};
ghost use Rattle.std.specs.Map.{lookup};
ghost use Rattle.std.specs.Map.Calls.{CallableOnEachPair, RetainsPairs};
ghost use Rattle.clru.specs.Cache.{cache as cache_of, with_entries};
ghost use Rattle.clru_model.specs.Entries.{fit, without};
ghost use Rattle.clru_linked_map.specs.Retains.{CalledAtShownPair, TakesShownPair};
ghost use Rattle.clru_through.specs.Store.{AllKeep, KeepsFor, store};

use crate::source::Fetch;
use crate::store::Through;
use clru::{NonZeroUsize, WeightScale};
use std::alloc::Allocator;
use std::collections::hash_map::Equivalent;
use std::hash::{BuildHasher, Hash};

impl<
    K: Eq + Hash,
    V,
    E,
    R: Fetch<K, V, E, M>,
    S: BuildHasher,
    W: WeightScale<K, V>,
    A: Allocator + Copy,
    M,
> Through<K, V, E, R, S, W, A, M> {
    /// Takes the value of the key out, and returns it. The next load of the key fetches it again.
    ///
    /// Its place stays ready.
    /// Cost: one hash and a walk along one chain; where the key is held a walk more, and a weighing of what goes.
    pub fn pop<Q: Equivalent<K>>(&mut self, key: Q) -> Option<V>
    where
        K: Drop,
        ensures held { result ≡ lookup (Q.equivalent key) self.old.cache.entries }
        ensures value { IfSome result (λ v. KeepsFor R.keeps (R.promised self.old.source) (Q.equivalent key) v) }
        ensures ends { let old = self.old.cache in
            self.new ≡ store (with_entries old (without Q.equivalent key old.entries)) self.old.source }
        ensures from_source { AllKeep R.keeps (R.promised self.new.source) self.new.cache.entries }
    {
        self.cache.pop(key)
    }

    /// Takes all values out. Their places stay ready.
    /// Cost: a drop of each value and a write of each bucket; no hash.
    pub fn clear(&mut self)
    where
        K: Drop,
        V: Drop,
        ensures { self.new ≡ store (with_entries self.old.cache []) self.old.source }
    {
        self.cache.clear();
    }

    /// Calls a closure at each key with its value once, the most recently used first, and takes out those at which it returns
    /// `false`. The others stay in their order.
    /// Cost: a call of the closure for each value; one hash, a walk along one chain and a weighing for each that goes.
    pub fn retain<F: FnMut(&K, &V) -> bool>(&mut self, keep: F)
    where
        K: Drop,
        V: Drop,
        requires { CallableOnEachPair (CalledAtShownPair F.FnMut) (TakesShownPair F.FnMut) keep self.old.cache.entries }
        ensures kept { RetainsPairs (CalledAtShownPair F.FnMut) keep self.old.cache.entries self.new.cache.entries }
        ensures ends { self.new ≡ store (with_entries self.old.cache self.new.cache.entries) self.old.source }
        ensures from_source { AllKeep R.keeps (R.promised self.new.source) self.new.cache.entries }
    {
        self.cache.retain(keep);
    }

    /// Sets the capacity, and drops what does not fit it, the least recently used value first and nothing else.
    ///
    /// It takes no memory and gives none back.
    /// Cost: one hash, a walk along one chain and a weighing for each value that goes.
    pub fn resize(&mut self, capacity: NonZeroUsize)
    where
        K: Drop,
        V: Drop,
        ensures ends { let size = non_zero_usize_get capacity in let old = self.old.cache in
            self.new ≡ store
            (cache_of (fit (W.weight old.scale) size old.entries) size old.scale old.places) self.old.source }
        ensures from_source { AllKeep R.keeps (R.promised self.new.source) self.new.cache.entries }
    {
        self.cache.resize(capacity);
    }
}
