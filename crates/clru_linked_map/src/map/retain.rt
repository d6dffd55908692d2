//! The calls that keep the entries at which a closure returns `true`.
ghost use Rattle.std.specs.Prelude.{◌≡◌};
ghost use Rattle.std.specs.Map.Calls.{CalledAtPair, CallableOnEachPair, RetainsPairs, TakesPair};
ghost use Rattle.clru_model.specs.Entries.{weight_of};
ghost use Rattle.clru_linked_map.specs.LinkedMap.{with_entries};
ghost use Rattle.clru_linked_map.specs.Retains.{CalledAtShownPair, TakesShownPair};

use crate::map::LinkedHashMap;
use clru_model::{WeightScale, ZeroWeightScale};
use std::alloc::Allocator;
use std::hash::{BuildHasher, Hash};

impl<K: Eq + Hash, V, S: BuildHasher, A: Allocator + Copy> LinkedHashMap<K, V, S, A> {
    /// Calls a closure at each entry, from the front to the back, and removes those at which it returns `false`. The others
    /// have the value that it left there.
    pub fn retain_mut<F: FnMut(&K, &mut V) -> bool>(&mut self, keep: F)
    where
        K: Drop,
        V: Drop,
        requires { CallableOnEachPair (CalledAtPair F.FnMut) (TakesPair F.FnMut) keep self.old.entries }
        ensures kept { RetainsPairs (CalledAtPair F.FnMut) keep self.old.entries self.new.entries }
        ensures same { self.new ≡ with_entries self.old self.new.entries }
    {
        self.items.sift(&mut 0, &ZeroWeightScale, keep);
    }

    /// Calls a closure at each entry, from the front to the back, and removes those at which it returns `false`, and their
    /// weight from the total.
    pub fn retain<F: FnMut(&K, &V) -> bool, W: WeightScale<K, V>>(
        &mut self,
        total_weight: &mut usize,
        scale: &W,
        mut keep: F,
    )
    where
        K: Drop,
        V: Drop,
        requires callable { CallableOnEachPair (CalledAtShownPair F.FnMut) (TakesShownPair F.FnMut)
            keep self.old.entries }
        requires weighs { total_weight.old ≡ weight_of (W.weight scale.now) self.old.entries }
        ensures kept { RetainsPairs (CalledAtShownPair F.FnMut) keep self.old.entries self.new.entries }
        ensures weighs { total_weight.new ≡ weight_of (W.weight scale.now) self.new.entries }
        ensures same { self.new ≡ with_entries self.old self.new.entries }
    {
        self.items.sift(
            total_weight,
            scale,
            |key: &K, value: &mut V| -> bool
                requires { TakesShownPair F.FnMut keep key.now value.old }
                ensures { CalledAtShownPair F.FnMut keep.entry key.now value.old result value.new keep.exit }
            { keep(key, value) },
        );
    }
}
