//! Taking out the pairs at which a closure returns `false`.
ghost use Rattle.std.specs.Prelude.{◌≡◌};
ghost use Rattle.std.specs.Map.Calls.{CalledAtPair, CallableOnEachPair, RetainsPairs, TakesPair};
ghost use Rattle.clru_model.specs.Entries.{weight_of};
ghost use Rattle.clru_list.specs.PlaceList.{without};
ghost use Rattle.clru_linked_map.specs.Buckets.{IsLive, IsTaken};
ghost use Rattle.clru_linked_map.specs.IndexedList.{pairs_in, IsIndexed, KeepsAllButPairs};
ghost use Rattle.clru_linked_map.specs.LinkedMap.{hash_of};

use crate::indexed_list::IndexedList;
use clru_model::WeightScale;
use std::alloc::Allocator;
use std::hash::{BuildHasher, Hash};

impl<K: Eq + Hash, V, S: BuildHasher, A: Allocator + Copy> IndexedList<K, V, S, A> {
    /// Calls a closure at each pair, from the front to the back, and takes out those at which it returns `false`, and their
    /// weight from the total. A call leaves its pair at its weight.
    pub(crate) fn sift<F: FnMut(&K, &mut V) -> bool, W: WeightScale<K, V>>(
        &mut self,
        total_weight: &mut usize,
        scale: &W,
        mut keep: F,
    )
    where
        K: Drop,
        V: Drop,
        requires callable { CallableOnEachPair (CalledAtPair F.FnMut) (TakesPair F.FnMut) keep (pairs_in self.old) }
        requires steady { (f : _) (k : _) (v : _) (b : _) (w : _) (f' : _) → CalledAtPair F.FnMut f k v b w f'
            → W.weight scale.now k w ≡ W.weight scale.now k v }
        requires weighs { total_weight.old ≡ weight_of (W.weight scale.now) (pairs_in self.old) }
        requires indexed { IsIndexed (hash_of K.Hash S.BuildHasher S.Hasher.Hasher) self.old }
        ensures kept { RetainsPairs (CalledAtPair F.FnMut) keep (pairs_in self.old) (pairs_in self.new) }
        ensures weighs { total_weight.new ≡ weight_of (W.weight scale.now) (pairs_in self.new) }
        ensures indexed { IsIndexed (hash_of K.Hash S.BuildHasher S.Hasher.Hasher) self.new }
        ensures same { KeepsAllButPairs self.old self.new }
    {
        let mut next = self.list.front_idx();
        while let Some(place) = next {
            next = self.list.next_idx(place);
            let kept = match self.list.get_mut(place) {
                Some(item) => keep(&item.0, &mut item.1),
                None => unreachable!(),
            };
            if kept {
                continue;
            }
            let (key, value) = self.take_at(place);
            *total_weight -= scale.weight(&key, &value);
        }
    }

    /// Takes out the pair at a place.
    fn take_at(&mut self, place: usize) -> (K, V)
        requires place { IsLive self.old.list.entries place }
        requires indexed { IsIndexed (hash_of K.Hash S.BuildHasher S.Hasher.Hasher) self.old }
        ensures pair { IsTaken result place self.old.list.entries }
        ensures entries { self.new.list.entries ≡ without place self.old.list.entries }
        ensures indexed { IsIndexed (hash_of K.Hash S.BuildHasher S.Hasher.Hasher) self.new }
        ensures same { KeepsAllButPairs self.old self.new }
    {
        let bucket = self.home(place);
        self.remove(bucket, place)
    }
}
