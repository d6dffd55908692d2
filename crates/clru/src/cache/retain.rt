//! The calls that keep the entries at which a closure returns `true`. They ask for no memory, and the places stay.
ghost use Rattle.std.specs.Prelude.{◌≡◌};
ghost use Rattle.std.specs.Map.Calls.{CalledAtPair, CallableOnEachPair, RetainsPairs, TakesPair};
ghost use Rattle.clru_linked_map.specs.Retains.{CalledAtShownPair, TakesShownPair};
ghost use Rattle.clru.specs.Cache.{with_entries};

use crate::cache::CLruCache;
use clru_model::{WeightScale, ZeroWeightScale};
use std::alloc::Allocator;
use std::hash::{BuildHasher, Hash};

impl<K: Eq + Hash, V, S: BuildHasher, W: WeightScale<K, V>, A> CLruCache<K, V, S, W, A>
where
    A: Allocator + Copy,
{
    /// Calls a closure at each entry once, the most recently used first, and removes those at which it returns `false`. The
    /// others stay in their order.
    /// Cost: a call of the closure for each entry; one hash, a walk along one chain and a weighing for each that goes.
    ///
    /// ```rust
    /// sizes.retain(|_, size| *size > 4096);
    /// ```
    pub fn retain<F: FnMut(&K, &V) -> bool>(&mut self, keep: F)
    where
        K: Drop,
        V: Drop,
        requires { CallableOnEachPair (CalledAtShownPair F.FnMut) (TakesShownPair F.FnMut) keep self.old.entries }
        ensures kept { RetainsPairs (CalledAtShownPair F.FnMut) keep self.old.entries self.new.entries }
        ensures same { self.new ≡ with_entries self.old self.new.entries }
    {
        self.map.retain(&mut self.total, &self.scale, keep);
    }
}

impl<K: Eq + Hash, V, S: BuildHasher, A: Allocator + Copy> CLruCache<K, V, S, ZeroWeightScale, A> {
    /// Calls a closure at each entry once, the most recently used first, and removes those at which it returns `false`. The
    /// others stay in their order, with the value that it left there.
    /// Cost: a call of the closure for each entry; one hash and a walk along one chain for each that goes.
    pub fn retain_mut<F: FnMut(&K, &mut V) -> bool>(&mut self, keep: F)
    where
        K: Drop,
        V: Drop,
        requires { CallableOnEachPair (CalledAtPair F.FnMut) (TakesPair F.FnMut) keep self.old.entries }
        ensures kept { RetainsPairs (CalledAtPair F.FnMut) keep self.old.entries self.new.entries }
        ensures same { self.new ≡ with_entries self.old self.new.entries }
    {
        self.map.retain_mut(keep);
    }
}
