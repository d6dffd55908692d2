//! `Kept`: a map whose keys are distinct, so that each call may be made at any time.

use clru::DefaultState;
use clru_linked_map::LinkedHashMap;
use std::alloc::Allocator;
use std::marker::Model;

/// A map with keys that are pairwise not the same.
#[derive(Drop)]
pub struct Kept<A: Allocator + Copy> {
    map: LinkedHashMap<u64, u64, DefaultState, A>,
}

impl<A: Allocator + Copy> Model for Kept<A> {
    ghost use Rattle.std.specs.Prelude.{ℕ, List, nat_eq};
    ghost use Rattle.std.specs.Coded.{coded×, coded_list, coded_ℕ};
    ghost use Rattle.std.specs.List.{IsDistinct};
    ghost use Rattle.std.specs.Map.{keys_of};

    ghost Value = { List (ℕ × ℕ) };

    ghost coded = { coded_list (coded× coded_ℕ coded_ℕ) };

    ghost view = { λ k. k.map.entries };

    ghost invariant = { λ k. IsDistinct nat_eq (keys_of k.map.entries) };
}

impl<A: Allocator + Copy> Kept<A> {
    /// Creates a map of no pairs, with a capacity and a limit for places of 4 bytes.
    #[tactic(auto, using(crate::proofs::Distinct::distinct_pairs))]
    pub fn new(alloc: A, capacity: usize, limit: usize) -> Self {
        Kept {
            map: LinkedHashMap::with_narrow_places(alloc, capacity, DefaultState, limit),
        }
    }

    /// Returns the value of a key.
    pub fn get(&self, key: u64) -> Option<u64> {
        self.map.get(self.map.hash(&key), &key).copied()
    }

    /// Puts a pair with a new key to the front, where there is memory for it. The last pair of a full map goes.
    pub fn put(&mut self, key: u64, value: u64) -> bool {
        let hash = self.map.hash(&key);
        let None = self.map.get(hash, &key) else {
            return false;
        };
        if self.map.capacity() == 0 || self.map.make_ready().is_err() {
            return false;
        }
        let _ = self.map.put_front(hash, key, value);
        true
    }

    /// Puts the keys from `first` to before `end`, each with ten more as its value, and returns whether all went in.
    pub fn fill(&mut self, first: u64, end: u64) -> bool {
        for key in first..end {
            if !self.put(key, key.wrapping_add(10)) {
                return false;
            }
        }
        true
    }

    /// Sets a capacity, where the pairs fit it.
    pub fn resize(&mut self, capacity: usize) {
        if self.map.len() <= capacity {
            self.map.resize(capacity);
        }
    }

    /// Returns whether the keys from `first` to before `end` are held, and none below them, the last one first.
    pub fn holds(&self, first: u64, end: u64) -> bool {
        for key in 0..first {
            if self.get(key).is_some() {
                return false;
            }
        }
        for key in first..end {
            if self.get(key) != Some(key.wrapping_add(10)) {
                return false;
            }
        }
        let ends = (first_of(self.map.front()), first_of(self.map.back()));
        self.map.len() as u64 == end.wrapping_sub(first)
            && ends == (Some(end.wrapping_sub(1)), Some(first))
    }
}

/// A copy of the key of a pair.
fn first_of(pair: Option<(&u64, &u64)>) -> Option<u64> {
    match pair {
        Some((key, _)) => Some(*key),
        None => None,
    }
}
