//! `AgedPass`, which takes requests with times, and counts misses at given capacities under an age limit.
ghost use Rattle.std.specs.Prelude.{◌≡◌, ℕ, List, [], ◌∷◌, reverse, length, map, IfOk, IfErr, OnOk, OnErr, IsTrue, Option, true, false};
ghost use Rattle.std.specs.List.{list_any};
ghost use Rattle.std.specs.Map.{keys_of};
ghost use Rattle.clru_model.specs.Requests.{distinct};
ghost use Rattle.clru_curve.specs.AgedPasses.{IsAgedPass, aged_misses_at};

use crate::sized::{SizedAgedPass, SizedRequestError};
use clru_list::NoMemory;
use clru_model::DefaultState;
use std::alloc::{Allocator, Global};
use std::collections::hash_map::Equivalent;
use std::hash::{BuildHasher, Hash};
use std::marker::Model;

/// A pass over requests with times, which counts the misses at given capacities under an age limit: a key whose latest fetch there,
/// its latest miss, is longer ago misses, and is fetched anew. The order of keys is that of LRU without expiry.
///
/// An idle limit can be given too. Times and it are as in an [`IdlePass`](crate::IdlePass). Clauses describe the requests that it
/// has taken, the latest first, each with its time, by `IsAgedPass`.
///
/// Is a `SizedAgedPass` where each key weighs 0, and takes its memory.
pub struct AgedPass<K: Eq + Hash, S: BuildHasher = DefaultState, A: Allocator + Copy = Global> {
    pass: SizedAgedPass<K, S, A>,
}

impl<K: Eq + Hash + Drop, S: BuildHasher + Drop, A: Allocator + Copy> Drop for AgedPass<K, S, A> {
    fn drop(self) {
        let AgedPass { pass } = self;
        drop(pass);
    }
}

impl<K: Eq + Hash, S: BuildHasher, A: Allocator + Copy> Model for AgedPass<K, S, A> {
    ghost use Rattle.clru_curve.specs.SizedAgedPasses.{AgedPassBySize, aged_pass_by_size_code};

    ghost Value = { AgedPassBySize K S };

    ghost coded = { aged_pass_by_size_code K.code S.code };

    ghost view = { λ p. p.pass };
}

impl<K: Eq + Hash, A: Allocator + Copy> AgedPass<K, DefaultState, A> {
    /// Creates a pass at these capacities and limits that has taken no request. Fails if memory is refused.
    /// Cost: three requests for memory, of a number for each capacity, and none without capacities.
    pub fn new(
        alloc: A,
        capacities: &[usize],
        idle: Option<usize>,
        age: usize,
    ) -> Result<Self, NoMemory>
        ensures { IfOk result (λ p. IsAgedPass K.eq capacities.now idle age [] p) }
    {
        AgedPass::with_hasher(alloc, capacities, idle, age, DefaultState)
    }
}

impl<K: Eq + Hash, S: BuildHasher, A: Allocator + Copy> AgedPass<K, S, A> {
    /// Creates a pass at these capacities and limits that has taken no request and hashes keys with `hash_builder`. Fails if memory
    /// is refused.
    /// Cost: three requests for memory, of a number for each capacity, and none without capacities.
    pub fn with_hasher(
        alloc: A,
        capacities: &[usize],
        idle: Option<usize>,
        age: usize,
        hash_builder: S,
    ) -> Result<Self, NoMemory>
    where
        S: Drop,
        ensures { IfOk result (λ p. IsAgedPass K.eq capacities.now idle age [] p) }
    {
        match SizedAgedPass::with_hasher(alloc, capacities, idle, age, hash_builder) {
            Ok(pass) => Ok(AgedPass { pass }),
            Err(NoMemory) => Err(NoMemory),
        }
    }

    /// Takes one more request, at this time.
    ///
    /// If memory is refused, or there were `usize::MAX` requests, it returns the key, and the pass is unchanged.
    /// Cost: that of the same call of a `SizedPass`, a second walk along the chain, and a step for each capacity.
    pub fn request(&mut self, key: K, time: usize) -> Result<(), K>
    where
        K: Drop,
        ensures taken { (cs : List ℕ) (idle : Option ℕ) (age : ℕ) (past : List (K × ℕ)) → IsAgedPass K.eq cs idle age past self.old
            → OnOk result (IsAgedPass K.eq cs idle age ((key, time) ∷ past) self.new) }
        ensures refused { OnErr result (self.new ≡ self.old) }
        ensures given_back { IfErr result (λ back. back ≡ key) }
    {
        match self.pass.request(key, time, 0) {
            Ok(()) => Ok(()),
            Err(SizedRequestError::NoMemory(key)) => Err(key),
            Err(SizedRequestError::TooLarge(key)) => Err(key),
        }
    }

    /// Takes one more request of an earlier key, by a form of it, at this time, and returns true. If no such key was requested, it
    /// takes nothing and returns false; then call `request`.
    ///
    /// If memory is refused, or there were `usize::MAX` requests, it returns the form, and the pass is unchanged.
    /// Cost: that of the same call of a `SizedPass`, a second walk along the chain, and a step for each capacity.
    pub fn request_again<Q: Equivalent<K>>(&mut self, key: Q, time: usize) -> Result<bool, Q>
        ensures taken { (cs : List ℕ) (idle : Option ℕ) (age : ℕ) (past : List (K × ℕ)) (x : K) → IsAgedPass K.eq cs idle age past self.old
            → IsTrue (Q.equivalent key x)
            → IfOk result (λ taken. IsTrue taken → IsAgedPass K.eq cs idle age ((x, time) ∷ past) self.new) }
        ensures known { (cs : List ℕ) (idle : Option ℕ) (age : ℕ) (past : List (K × ℕ)) → IsAgedPass K.eq cs idle age past self.old
            → IfOk result (λ taken. taken ≡ list_any (Q.equivalent key) (keys_of past)) }
        ensures not_taken { IfOk result (λ taken. taken ≡ false → self.new ≡ self.old) }
        ensures refused { OnErr result (self.new ≡ self.old) }
        ensures given_back { IfErr result (λ back. back ≡ key) }
    {
        match self.pass.request_again(key, time, 0) {
            Ok(taken) => Ok(taken),
            Err(SizedRequestError::NoMemory(key)) => Err(key),
            Err(SizedRequestError::TooLarge(key)) => Err(key),
        }
    }

    /// Returns the misses so far at each capacity, in the order in which these were given.
    /// Cost: a read.
    pub fn misses(&self) -> &[usize]
        ensures { (cs : List ℕ) (idle : Option ℕ) (age : ℕ) (past : List (K × ℕ)) → IsAgedPass K.eq cs idle age past self.now
            → result.now ≡ map (λ k. aged_misses_at K.eq idle age k (reverse past)) cs }
    {
        self.pass.misses()
    }

    /// Returns the number of requests so far.
    /// Cost: a read.
    pub fn requests(&self) -> usize
        ensures { (cs : List ℕ) (idle : Option ℕ) (age : ℕ) (past : List (K × ℕ)) → IsAgedPass K.eq cs idle age past self.now
            → result ≡ length past }
    {
        self.pass.requests()
    }

    /// Returns the number of distinct keys so far.
    /// Cost: a step for each of them, and for half as many more.
    pub fn distinct(&self) -> usize
        ensures { (cs : List ℕ) (idle : Option ℕ) (age : ℕ) (past : List (K × ℕ)) → IsAgedPass K.eq cs idle age past self.now
            → result ≡ distinct K.eq (keys_of past) }
    {
        self.pass.distinct_size()
    }
}
