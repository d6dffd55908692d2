//! `SizedAgedPass`, which takes requests with times of keys with sizes, and counts misses at given capacities under an age limit.
ghost use Rattle.std.specs.Prelude.{◌≡◌, ℕ, ◌+◌, ◌^◌, ◌<◌, ◌≤◌, ◌↔◌, List, [], ◌∷◌, reverse, length, map, IfOk, IfErr, IfSome, IsErrAnd, OnOk, OnErr, IsTrue, IsNone, None, Option, is_some, true, false};
ghost use Rattle.std.specs.List.{list_any};
ghost use Rattle.std.specs.Map.{keys_of, lookup, set_value};
ghost use Rattle.clru_linked_map.specs.KeyTables.{with_entries};
ghost use Rattle.clru_linked_map.specs.LinkedMap.{hash_of};
ghost use Rattle.clru_curve.specs.Fetches.{fetched_at};
ghost use Rattle.clru_model.specs.Sizes.{SameWeights, total};
ghost use Rattle.clru_curve.specs.SizedAgedPasses.{IsSizedAgedPass, aged_misses_by_size, aged_missed_size};
ghost use Rattle.clru_curve.specs.SizedCurves.{size_of_all, greatest_of};
ghost use Rattle.clru_curve.specs.SizedPasses.{key_of, IsTooLarge};

use crate::fetches::{Fetched, Fetches, is_in_limit};
use crate::seen::Seen;
use crate::sized::error::SizedRequestError;
use crate::sized::pass::greater;
use crate::sized::sizes::Sizes;
use clru_linked_map::KeyTable;
use clru_list::NoMemory;
use clru_model::DefaultState;
use std::alloc::{Allocator, Global};
use std::collections::hash_map::Equivalent;
use std::hash::{BuildHasher, Hash};
use std::marker::Model;

/// A pass over requests with times of keys that weigh something, which counts the misses at given capacities under an age limit: a
/// key whose latest fetch there, its latest miss, is longer ago misses, and is fetched anew. The order of keys is that of LRU
/// without expiry.
///
/// An idle limit can be given too, as in a [`SizedIdlePass`](crate::SizedIdlePass). Weights are as in a
/// [`SizedPass`](crate::SizedPass), times as in an [`IdlePass`](crate::IdlePass). Clauses describe the requests that it has
/// taken, the latest first, each with its time, by `IsSizedAgedPass`.
///
/// Takes memory for a position, two times, two numbers and a size for each distinct key, for half as many sizes more, and for each key that
/// is requested again, if capacities ascend, 8 bytes for each capacity up to the greatest of its spans so far; else for each.
pub struct SizedAgedPass<
    K: Eq + Hash,
    S: BuildHasher = DefaultState,
    A: Allocator + Copy = Global,
> {
    seen: KeyTable<K, Fetched, S, A>,
    latest: Sizes<A>,
    fetches: Fetches<A>,
    size: usize,
    greatest: usize,
    idle: Option<usize>,
}

impl<K: Eq + Hash + Drop, S: BuildHasher + Drop, A: Allocator + Copy> Drop
    for SizedAgedPass<K, S, A> {
    fn drop(self) {
        let SizedAgedPass {
            seen,
            latest,
            fetches,
            size: _,
            greatest: _,
            idle: _,
        } = self;
        drop(seen);
        drop(latest);
        drop(fetches);
    }
}

impl<K: Eq + Hash, S: BuildHasher, A: Allocator + Copy> Model for SizedAgedPass<K, S, A> {
    ghost use Rattle.std.specs.Prelude.{length};
    ghost use Rattle.clru_curve.specs.Fetches.{fetch_times, AreBlocked};
    ghost use Rattle.clru_curve.specs.SizedAgedPasses.{AgedPassBySize, aged_pass_by_size, aged_pass_by_size_code, fetch_table, AreAligned, IsSoundAgedBySize};

    ghost Value = { AgedPassBySize K S };

    ghost coded = { aged_pass_by_size_code K.code S.code };

    ghost view = { λ p. aged_pass_by_size p.seen.entries p.latest.sizes.items p.latest.requests
        (fetch_table p.fetches.capacities.items p.fetches.misses.items p.fetches.missed_sizes.items (fetch_times p.fetches) p.fetches.age)
        p.size p.greatest p.idle p.seen.builder };

    ghost invariant = { λ p. AreBlocked p.fetches × AreAligned K.eq (length p.fetches.capacities.items) p.seen.entries
        × IsSoundAgedBySize K.eq p.latest.nodes.items (aged_pass_by_size p.seen.entries p.latest.sizes.items p.latest.requests
        (fetch_table p.fetches.capacities.items p.fetches.misses.items p.fetches.missed_sizes.items (fetch_times p.fetches) p.fetches.age)
        p.size p.greatest p.idle p.seen.builder) };
}

impl<K: Eq + Hash, A: Allocator + Copy> SizedAgedPass<K, DefaultState, A> {
    /// Creates a pass at these capacities and limits that has taken no request. Fails if memory is refused.
    /// Cost: three requests for memory, of a number for each capacity, and none without capacities.
    pub fn new(
        alloc: A,
        capacities: &[usize],
        idle: Option<usize>,
        age: usize,
    ) -> Result<Self, NoMemory>
        ensures { (w : K → ℕ) → IfOk result (λ p. IsSizedAgedPass K.eq w capacities.now idle age [] p) }
    {
        SizedAgedPass::with_hasher(alloc, capacities, idle, age, DefaultState)
    }
}

impl<K: Eq + Hash, S: BuildHasher, A: Allocator + Copy> SizedAgedPass<K, S, A> {
    /// Creates a pass at these capacities and limits that has taken no request and hashes keys with `hash_builder`. Fails if memory
    /// is refused.
    /// Cost: three requests for memory, of a number for each capacity, and none without capacities.
    pub fn with_hasher(
        alloc: A,
        capacities: &[usize],
        idle: Option<usize>,
        age: usize,
        hash_builder: S,
    ) -> Result<Self, NoMemory>
    where
        S: Drop,
        ensures { (w : K → ℕ) → IfOk result (λ p. IsSizedAgedPass K.eq w capacities.now idle age [] p) }
    {
        let Ok(fetches) = Fetches::new(alloc, capacities, age) else {
            return Err(NoMemory);
        };
        Ok(SizedAgedPass {
            seen: KeyTable::new(alloc, hash_builder),
            latest: Sizes::new(alloc),
            fetches,
            size: 0,
            greatest: 0,
            idle,
        })
    }

    /// Takes one more request, at this time, of a key of this weight.
    ///
    /// If memory is refused, or the sizes of all requests with this one exceed `usize::MAX`, it returns the key, and the pass
    /// is unchanged.
    /// Cost: that of the same call of a `SizedPass`, a second walk along the chain, and a step for each capacity.
    pub fn request(
        &mut self,
        key: K,
        time: usize,
        weight: usize,
    ) -> Result<(), SizedRequestError<K>>
    where
        K: Drop,
        ensures taken { (w : K → ℕ) (cs : List ℕ) (idle : Option ℕ) (age : ℕ) (past : List (K × ℕ)) → SameWeights K.eq w
            → IsSizedAgedPass K.eq w cs idle age past self.old → w key ≡ weight
            → OnOk result (IsSizedAgedPass K.eq w cs idle age ((key, time) ∷ past) self.new) }
        ensures size { OnOk result (self.new.size ≡ self.old.size + (1 + weight)) }
        ensures refused { OnErr result (self.new ≡ self.old) }
        ensures given_back { IfErr result (λ e. key_of e ≡ key) }
        ensures too_large { IsErrAnd result IsTooLarge ↔ (2 ^ 64 ≤ self.old.size + (1 + weight)) }
    {
        let hash = self.seen.hash(&key);
        match self.again(hash, &key, time, weight) {
            Ok(true) => Ok(()),
            Ok(false) => match self.request_new(hash, key, time, weight) {
                Ok(()) => Ok(()),
                Err(key) => Err(SizedRequestError::NoMemory(key)),
            },
            Err(SizedRequestError::NoMemory(_)) => Err(SizedRequestError::NoMemory(key)),
            Err(SizedRequestError::TooLarge(_)) => Err(SizedRequestError::TooLarge(key)),
        }
    }

    /// Takes one more request of an earlier key of this weight, by a form of it, at this time, and returns true. If no such key was
    /// requested, it takes nothing and returns false; then call `request`.
    ///
    /// If memory is refused, or the sizes of all requests with this one exceed `usize::MAX`, it returns the form, and the pass
    /// is unchanged.
    /// Cost: that of the same call of a `SizedPass`, a second walk along the chain, and a step for each capacity.
    pub fn request_again<Q: Equivalent<K>>(
        &mut self,
        key: Q,
        time: usize,
        weight: usize,
    ) -> Result<bool, SizedRequestError<Q>>
        ensures taken { (w : K → ℕ) (cs : List ℕ) (idle : Option ℕ) (age : ℕ) (past : List (K × ℕ)) (x : K) → SameWeights K.eq w
            → IsSizedAgedPass K.eq w cs idle age past self.old → w x ≡ weight → IsTrue (Q.equivalent key x)
            → IfOk result (λ taken. IsTrue taken → IsSizedAgedPass K.eq w cs idle age ((x, time) ∷ past) self.new) }
        ensures known { (w : K → ℕ) (cs : List ℕ) (idle : Option ℕ) (age : ℕ) (past : List (K × ℕ))
            → IsSizedAgedPass K.eq w cs idle age past self.old
            → IfOk result (λ taken. taken ≡ list_any (Q.equivalent key) (keys_of past)) }
        ensures size { IfOk result (λ taken. IsTrue taken → self.new.size ≡ self.old.size + (1 + weight)) }
        ensures not_taken { IfOk result (λ taken. taken ≡ false → self.new ≡ self.old) }
        ensures refused { OnErr result (self.new ≡ self.old) }
        ensures given_back { IfErr result (λ e. key_of e ≡ key) }
        ensures too_large { IsErrAnd result IsTooLarge ↔ (2 ^ 64 ≤ self.old.size + (1 + weight)) }
    {
        let hash = self.seen.hash(key);
        self.again(hash, key, time, weight)
    }

    /// `request_again`, with the hash of the key. It also says by what was seen alone whether the key is known, whatever keys weighed.
    fn again<Q: Equivalent<K>>(
        &mut self,
        hash: u64,
        key: Q,
        time: usize,
        weight: usize,
    ) -> Result<bool, SizedRequestError<Q>>
        requires hash { hash ≡ hash_of Q.Hash S.BuildHasher S.Hasher.Hasher self.old.builder key }
        ensures taken { (w : K → ℕ) (cs : List ℕ) (idle : Option ℕ) (age : ℕ) (past : List (K × ℕ)) (x : K) → SameWeights K.eq w
            → IsSizedAgedPass K.eq w cs idle age past self.old → w x ≡ weight → IsTrue (Q.equivalent key x)
            → IfOk result (λ taken. IsTrue taken → IsSizedAgedPass K.eq w cs idle age ((x, time) ∷ past) self.new) }
        ensures known { IfOk result (λ taken. taken ≡ is_some (lookup (Q.equivalent key) self.old.seen)) }
        ensures size { IfOk result (λ taken. IsTrue taken → self.new.size ≡ self.old.size + (1 + weight)) }
        ensures not_taken { IfOk result (λ taken. taken ≡ false → self.new ≡ self.old) }
        ensures refused { OnErr result (self.new ≡ self.old) }
        ensures given_back { IfErr result (λ e. key_of e ≡ key) }
        ensures too_large { IsErrAnd result IsTooLarge ↔ (2 ^ 64 ≤ self.old.size + (1 + weight)) }
    {
        if weight >= usize::MAX - self.size {
            return Err(SizedRequestError::TooLarge(key));
        }
        let size = weight + 1;
        let greatest = greater(self.greatest, weight);
        let Ok(()) = self.latest.make_ready(size) else {
            return Err(SizedRequestError::NoMemory(key));
        };
        let Ok(()) = self.fetches.make_room() else {
            return Err(SizedRequestError::NoMemory(key));
        };
        let position = self.latest.requests;
        let here = Seen { position, time };
        let Some(before) = see_again(&mut self.seen, hash, key, here) else {
            return Ok(false);
        };
        let likely = self.latest.likely(before.seen.position);
        let span = self.latest.remove(before.seen.position, likely);
        self.latest.push(size);
        self.latest.drop_empty();
        let soon = is_in_limit(self.idle, before.seen.time, time);
        self.fetches.take(before.first, soon, span, time, size);
        self.size += size;
        self.greatest = greatest;
        Ok(true)
    }

    /// Takes one more request, of a key that was not requested before, with its hash.
    fn request_new(&mut self, hash: u64, key: K, time: usize, weight: usize) -> Result<(), K>
    where
        K: Drop,
        requires hash { hash ≡ hash_of K.Hash S.BuildHasher S.Hasher.Hasher self.old.builder key }
        requires new { lookup (K.eq key) self.old.seen ≡ None }
        requires fits { self.old.size + (1 + weight) < 2 ^ 64 }
        ensures taken { (w : K → ℕ) (cs : List ℕ) (idle : Option ℕ) (age : ℕ) (past : List (K × ℕ)) → SameWeights K.eq w
            → IsSizedAgedPass K.eq w cs idle age past self.old → w key ≡ weight
            → OnOk result (IsSizedAgedPass K.eq w cs idle age ((key, time) ∷ past) self.new) }
        ensures size { OnOk result (self.new.size ≡ self.old.size + (1 + weight)) }
        ensures refused { OnErr result (self.new ≡ self.old) }
        ensures given_back { IfErr result (λ back. back ≡ key) }
    {
        let size = weight + 1;
        let greatest = greater(self.greatest, weight);
        let Ok(()) = self.latest.make_ready(size) else {
            return Err(key);
        };
        let Ok(first) = self.fetches.make_ready() else {
            return Err(key);
        };
        let position = self.latest.requests;
        let here = Fetched {
            seen: Seen { position, time },
            first,
        };
        if let Err(key) = self.seen.insert(hash, key, here) {
            return Err(key);
        }
        self.latest.push(size);
        self.fetches.take_new(time, size);
        self.size += size;
        self.greatest = greatest;
        Ok(())
    }

    /// Returns the misses so far at each capacity, in the order in which these were given.
    /// Cost: a read.
    pub fn misses(&self) -> &[usize]
        ensures { (w : K → ℕ) (cs : List ℕ) (idle : Option ℕ) (age : ℕ) (past : List (K × ℕ))
            → IsSizedAgedPass K.eq w cs idle age past self.now
            → result.now ≡ map (λ c. aged_misses_by_size K.eq w idle age c (reverse past)) cs }
    {
        &self.fetches.misses
    }

    /// Returns the size of the misses so far at each capacity, in the order in which these were given.
    /// Cost: a read.
    pub fn missed_sizes(&self) -> &[usize]
        ensures { (w : K → ℕ) (cs : List ℕ) (idle : Option ℕ) (age : ℕ) (past : List (K × ℕ))
            → IsSizedAgedPass K.eq w cs idle age past self.now
            → result.now ≡ map (λ c. aged_missed_size K.eq w idle age c (reverse past)) cs }
    {
        &self.fetches.missed_sizes
    }

    /// Returns the number of requests so far.
    /// Cost: a read.
    pub fn requests(&self) -> usize
        ensures { (w : K → ℕ) (cs : List ℕ) (idle : Option ℕ) (age : ℕ) (past : List (K × ℕ))
            → IsSizedAgedPass K.eq w cs idle age past self.now → result ≡ length past }
    {
        self.latest.requests
    }

    /// Returns the size of all requests so far.
    /// Cost: a read.
    pub fn size(&self) -> usize
        ensures { (w : K → ℕ) (cs : List ℕ) (idle : Option ℕ) (age : ℕ) (past : List (K × ℕ))
            → IsSizedAgedPass K.eq w cs idle age past self.now → result ≡ size_of_all w (keys_of past) }
    {
        self.size // of each request, not of each key
    }

    /// Returns the size of all distinct keys so far.
    /// Cost: a step for each of them, and for half as many more.
    pub fn distinct_size(&self) -> usize
        ensures { (w : K → ℕ) (cs : List ℕ) (idle : Option ℕ) (age : ℕ) (past : List (K × ℕ))
            → IsSizedAgedPass K.eq w cs idle age past self.now → result ≡ total K.eq w (keys_of past) }
    {
        self.latest.total()
    }

    /// Returns the greatest weight so far, or 0 without requests.
    /// Cost: a read.
    pub fn greatest_weight(&self) -> usize
        ensures { (w : K → ℕ) (cs : List ℕ) (idle : Option ℕ) (age : ℕ) (past : List (K × ℕ))
            → IsSizedAgedPass K.eq w cs idle age past self.now → result ≡ greatest_of w (keys_of past) }
    {
        self.greatest // 0 without requests
    }
}

/// Gives the key, whose hash is given, another latest request if it is held, and returns what was noted of it.
fn see_again<K: Eq + Hash, Q: Equivalent<K>, S: BuildHasher, A: Allocator + Copy>(
    seen: &mut KeyTable<K, Fetched, S, A>,
    hash: u64,
    key: Q,
    here: Seen,
) -> Option<Fetched>
    requires hash { hash ≡ hash_of Q.Hash S.BuildHasher S.Hasher.Hasher seen.old.builder key }
    ensures found { result ≡ lookup (Q.equivalent key) seen.old.entries }
    ensures same { IsNone result → seen.new ≡ seen.old }
    ensures moved { IfSome result (λ before. seen.new
        ≡ with_entries seen.old (set_value (Q.equivalent key) seen.old.entries (fetched_at here before.first))) }
{
    let first = seen.get(hash, key)?.first;
    seen.replace(hash, key, Fetched { seen: here, first })
}
