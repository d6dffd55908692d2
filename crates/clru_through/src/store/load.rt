//! The calls that look for a key.
ghost use Rattle.std.specs.Prelude.{◌≡◌, ◌<◌, Some, None, slice_get, IfOk, IfErr, IfSome, IsFalse, IsSomeAnd, IsTrue, is_none, is_some};
ghost use Rattle.std.specs.Borrow.{sem};
ghost use Rattle.std.specs.Option.{option_copied, option_map};
ghost use Rattle.std.specs.Map.{lookup};
ghost use Rattle.std.specs.Map.Iter.{deref_pair};
ghost use Rattle.clru.specs.Cache.{with_entries};
ghost use Rattle.clru.specs.Drops.{HandsOutTo, TakesEach};
ghost use Rattle.clru_model.specs.Entries.{touch, weighted_drops};
ghost use Rattle.clru_through.specs.Ends.{ends_loaded, ends_touched};
ghost use Rattle.clru_through.specs.Given.{IsHeld, answer_value, has_put, loaded_value, was_fetched, was_put};
ghost use Rattle.clru_through.specs.Store.{KeepsFor, Store};
ghost use Rattle.clru_through.specs.Got.{IsGot};
ghost use Rattle.clru_through.specs.Steps.{Loads, MayPut, Takes};

use crate::answer::{Answer, Loaded};
use crate::source::Fetch;
use crate::store::Through;
use clru::{CLruCache, PutError, WeightScale};
use std::alloc::Allocator;
use std::collections::hash_map::Equivalent;
use std::hash::{BuildHasher, Hash};

impl<
    K: Eq + Hash,
    V,
    E,
    R: Fetch<K, V, E, M>,
    S: BuildHasher,
    W: WeightScale<K, V>,
    A: Allocator + Copy,
    M,
> Through<K, V, E, R, S, W, A, M> {
    /// Makes the value of the key the most recently used one, and fetches it first if it is not held.
    ///
    /// What does not fit beside a fetched value is dropped, the least recently used entry first. A value that weighs as much as
    /// the capacity or more, and one for which no memory was found, is passed on, and no entry changes. If the fetch fails, no
    /// entry changes either, and the load returns the error.
    ///
    /// The result says whether it was fetched. After `Held` the value is that of `front`, and of `peek` of the key.
    /// Cost: one hash and a walk along one chain; if the key is not held, also a fetch and what a `put_with_weight` costs.
    pub fn load(&mut self, key: K) -> Result<Loaded<V>, E>
    where
        K: Drop,
        V: Drop,
        ensures step { Loads K.eq (W.weight self.old.cache.scale) R.fetches self.old key result self.new }
        ensures value { IfOk result (λ loaded. IsSomeAnd (loaded_value (K.eq key) self.new.cache.entries loaded)
            (λ v. R.keeps (R.promised self.old.source key) v)) }
        ensures fetched { IfOk result (λ loaded.
            was_fetched loaded ≡ is_none (lookup (K.eq key) self.old.cache.entries)) }
        ensures front { IfOk result (λ loaded. IsHeld loaded → IsSomeAnd (slice_get self.new.cache.entries 0)
            (λ e. R.keeps (R.promised self.old.source key) e.1)) }
        ensures refused { IfErr result (λ _. self.new.cache ≡ self.old.cache) }
        ensures kept { (k : K) → R.promised self.new.source k ≡ R.promised self.old.source k }
    {
        self.load_handing_to(key, &mut |_, _| {})
    }

    /// Does what `load` does, and hands out the pairs that it drops: `on_drop` takes each of them, the least recently used one
    /// first. It is not called if the key is held, the fetch fails, or the value is passed on.
    ///
    /// The closure is borrowed, so that a caller learns from what it captured which pairs were dropped.
    /// Cost: that of a load.
    pub fn load_handing_to<F: FnMut(K, V)>(
        &mut self,
        key: K,
        on_drop: &mut F,
    ) -> Result<Loaded<V>, E>
    where
        K: Drop,
        V: Drop,
        requires callable { (v : V)
            → MayPut K.eq (W.weight self.old.cache.scale) R.fetches (R.keeps (R.promised self.old.source key)) self.old key v
            → TakesEach F.FnMut on_drop.old
            (weighted_drops K.eq (W.weight self.old.cache.scale) self.old.cache.capacity key v self.old.cache.entries) }
        ensures step { Loads K.eq (W.weight self.old.cache.scale) R.fetches self.old key result self.new }
        ensures value { IfOk result (λ loaded. IsSomeAnd (loaded_value (K.eq key) self.new.cache.entries loaded)
            (λ v. R.keeps (R.promised self.old.source key) v)) }
        ensures fetched { IfOk result (λ loaded.
            was_fetched loaded ≡ is_none (lookup (K.eq key) self.old.cache.entries)) }
        ensures front { IfOk result (λ loaded. IsHeld loaded → IsSomeAnd (slice_get self.new.cache.entries 0)
            (λ e. R.keeps (R.promised self.old.source key) e.1)) }
        ensures refused { IfErr result (λ _. self.new.cache ≡ self.old.cache) }
        ensures kept { (k : K) → R.promised self.new.source k ≡ R.promised self.old.source k }
        ensures handed_out { IsTrue (has_put result) → IsSomeAnd (lookup (K.eq key) self.new.cache.entries)
            (λ v. HandsOutTo F.FnMut on_drop.old
            (weighted_drops K.eq (W.weight self.old.cache.scale) self.old.cache.capacity key v self.old.cache.entries)
            on_drop.new) }
        ensures not_called { IsFalse (has_put result) → on_drop.new ≡ on_drop.old }
    {
        if move_to_front_if_held(&mut self.cache, &key) {
            return Ok(Loaded::Held { fetched: false });
        }
        let value = self.source.fetch(&key)?;
        Ok(taken_handing_to(&mut self.cache, key, value, on_drop))
    }

    /// Returns the value of the key, and makes it the most recently used one. It is fetched first if it is not held.
    ///
    /// It loads the key, and lends what the load returns. The store keeps a value that was passed on, or the error of a failed
    /// fetch, until the next `get`; `take_passed` and `take_error` hand them out.
    /// Cost: that of a load.
    pub fn get(&mut self, key: K) -> Result<Answer<'_, V>, &E>
    where
        K: Drop,
        V: Drop,
        E: Drop,
        ensures* leaves { sem 𝓛 (ends_loaded K.row V.row E.row R.row S.row W.row A.row M.row S.Hasher.row K.Hash R.Fetch
            S.BuildHasher S.Hasher.Hasher W.WeightScale A.Allocator self.entry key result) }
        ensures step { (after : Store K V W R)
            × IsGot K.eq (W.weight self.old.cache.scale) R.fetches self.old key result after }
        ensures value { IfOk result (λ answer. R.keeps (R.promised self.old.source key) (answer_value answer)) }
    {
        self.drop_lent();
        match self.load(key) {
            Err(error) => Err(self.failed.insert(error)),
            Ok(Loaded::Passed(value)) => Ok(Answer::Passed(self.passed.insert(value))),
            Ok(Loaded::Held { .. }) => match self.front() {
                Some((_, value)) => Ok(Answer::Held(value)),
                None => unreachable!(),
            },
        }
    }

    /// Drops what the latest `get` passed on or failed with.
    fn drop_lent(&mut self)
    where
        V: Drop,
        E: Drop,
        ensures { self.new ≡ self.old }
    {
        self.passed = None;
        self.failed = None;
    }

    /// Returns the value that the latest `get` passed on, and keeps it no longer. The store stays as it is.
    /// Cost: a move.
    pub fn take_passed(&mut self) -> Option<V>
        ensures { self.new ≡ self.old }
    {
        self.passed.take()
    }

    /// Returns the error that the latest `get` failed with, and keeps it no longer. The store stays as it is.
    /// Cost: a move.
    pub fn take_error(&mut self) -> Option<E>
        ensures { self.new ≡ self.old }
    {
        self.failed.take()
    }

    /// Returns the value of the key if it is held, and makes it the most recently used one. Nothing is fetched.
    ///
    /// The key is lent, or is a form of it, as in a cache, so that a hit makes no key of its own. After `None` a `load` of the key
    /// fetches it.
    /// Cost: one hash and a walk along one chain.
    pub fn hit<Q: Equivalent<K>>(&mut self, key: Q) -> Option<&V>
        ensures* leaves { sem 𝓛 (ends_touched K.row V.row E.row R.row S.row W.row A.row M.row S.Hasher.row K.Hash R.Fetch
            S.BuildHasher S.Hasher.Hasher W.WeightScale A.Allocator self.entry Q.equivalent key result) }
        ensures held { option_copied result ≡ lookup (Q.equivalent key) self.old.cache.entries }
        ensures value { IfSome result (λ v. KeepsFor R.keeps (R.promised self.old.source) (Q.equivalent key) v.now) }
    {
        self.cache.get(key)
    }

    /// Returns the most recently used key with its value, which after a load that answered `Held` are those of its key.
    /// Nothing is fetched, and the order stays as it is.
    /// Cost: no hash and no comparison.
    pub fn front(&self) -> Option<(&K, &V)>
        ensures entry { option_map deref_pair result ≡ slice_get self.now.cache.entries 0 }
        ensures value { IfSome result (λ e. R.keeps (R.promised self.now.source e.0.now) e.1.now) }
    {
        self.cache.front()
    }

    /// Returns the value of the key if it is held. Nothing is fetched, and the order stays as it is.
    ///
    /// The key is lent, or is a form of it, as in a cache.
    /// Cost: one hash and a walk along one chain.
    pub fn peek<Q: Equivalent<K>>(&self, key: Q) -> Option<&V>
        ensures held { option_copied result ≡ lookup (Q.equivalent key) self.now.cache.entries }
        ensures value { IfSome result (λ v. KeepsFor R.keeps (R.promised self.now.source) (Q.equivalent key) v.now) }
    {
        self.cache.peek(key)
    }
}

/// Makes the value of the key the most recently used one, and returns whether it is held.
fn move_to_front_if_held<K: Eq + Hash, V, S: BuildHasher, W: WeightScale<K, V>, A, Q>(
    cache: &mut CLruCache<K, V, S, W, A>,
    key: Q,
) -> bool
where
    A: Allocator + Copy,
    Q: Equivalent<K>,
    ensures found { result ≡ is_some (lookup (Q.equivalent key) cache.old.entries) }
    ensures touches { cache.new ≡ with_entries cache.old (touch Q.equivalent key cache.old.entries) }
    ensures absent { IsFalse result → lookup (Q.equivalent key) cache.old.entries ≡ None }
    ensures missed { IsFalse result → cache.new ≡ cache.old }
{
    cache.get(key).is_some()
}

/// Puts a fetched value, and returns what became of it.
pub(crate) fn taken<K: Eq + Hash + Drop, V: Drop, S: BuildHasher, W: WeightScale<K, V>, A>(
    cache: &mut CLruCache<K, V, S, W, A>,
    key: K,
    value: V,
) -> Loaded<V>
where
    A: Allocator + Copy,
    ensures taken { Takes K.eq (W.weight cache.old.scale) cache.old key value result cache.new }
    ensures value { loaded_value (K.eq key) cache.new.entries result ≡ Some value }
{
    taken_handing_to(cache, key, value, &mut |_, _| {})
}

/// Puts a fetched value, hands out what the put drops, and returns what became of the value.
fn taken_handing_to<K: Eq + Hash + Drop, V: Drop, S: BuildHasher, W: WeightScale<K, V>, A, F>(
    cache: &mut CLruCache<K, V, S, W, A>,
    key: K,
    value: V,
    on_drop: &mut F,
) -> Loaded<V>
where
    A: Allocator + Copy,
    F: FnMut(K, V),
    requires callable { W.weight cache.old.scale key value < cache.old.capacity → TakesEach F.FnMut on_drop.old
        (weighted_drops K.eq (W.weight cache.old.scale) cache.old.capacity key value cache.old.entries) }
    ensures taken { Takes K.eq (W.weight cache.old.scale) cache.old key value result cache.new }
    ensures value { loaded_value (K.eq key) cache.new.entries result ≡ Some value }
    ensures handed_out { IsTrue (was_put result) → HandsOutTo F.FnMut on_drop.old
        (weighted_drops K.eq (W.weight cache.old.scale) cache.old.capacity key value cache.old.entries) on_drop.new }
    ensures not_called { IsFalse (was_put result) → on_drop.new ≡ on_drop.old }
{
    match cache.put_with_weight_handing_to(key, value, on_drop) {
        Ok(_) => Loaded::Held { fetched: true },
        Err(PutError::TooHeavy(_, value)) => Loaded::Passed(value),
        Err(PutError::NoMemory(_, value)) => Loaded::Passed(value),
    }
}
