//! Callers that are proved over the contracts of `clru_runs` alone: what a list of calls is known to leave.
ghost use Rattle.std.specs.Prelude.{◌≡◌, ℕ, ◌≤◌, ◌++◌, [], List, IfOk, IfSome, not};
ghost use Rattle.std.specs.List.{count_by};
ghost use Rattle.clru_model.specs.Requests.{marks};
ghost use Rattle.clru_model.specs.Runs.{held_before};
ghost use Rattle.clru_model.specs.Schedule.{IsCompetitive};
ghost use Rattle.clru_model.specs.Sizes.{SameWeights, marks_by_size};
ghost use Rattle.clru_runs.specs.IncludedRun.{EachKeepsInclusion};
ghost use Rattle.clru_runs.specs.PutRun.{PutEach, entries_of};
ghost use Rattle.clru_runs.specs.Run.{Run};
ghost use Rattle.clru_runs.specs.SizedPutRun.{PutEachBySize, weighed_entries_of};
ghost use Rattle.clru_runs.specs.Step.{PlainStep, Step};

use clru::{CLruCache, DefaultState, WeightScale};
use clru_runs::{
    Answer, Call, PlainCall, law_included_runs, law_put_runs, law_sized_put_runs, perform_all,
};
use std::alloc::Global;
use std::hash::Hash;

/// What two caches answered to the same calls.
#[derive(Drop)]
pub struct Answers<K, V> {
    pub lesser: Vec<Answer<K, V>>,
    pub greater: Vec<Answer<K, V>>,
}

/// Makes calls of two empty caches of one scale. Where they are the same and each is a put by weight that neither refuses, a removal, or a
/// read that moves no entry, the lesser ends with the first entries of the greater. `None` is for want of memory.
pub fn perform_at_both<K: Eq + Hash + Drop, V: Copy, W: WeightScale<K, V>>(
    alloc: Global,
    lesser: &mut CLruCache<K, V, DefaultState, W>,
    greater: &mut CLruCache<K, V, DefaultState, W>,
    calls: Vec<Call<K, V>>,
    same_calls: Vec<Call<K, V>>,
) -> Option<Answers<K, V>>
    requires empty { (lesser.old.entries ≡ []) × (greater.old.entries ≡ []) }
    requires scale { lesser.old.scale ≡ greater.old.scale }
    ensures included { IfSome result (λ answers. same_calls.items ≡ calls.items
        → lesser.old.capacity ≤ greater.old.capacity
        → EachKeepsInclusion calls.items answers.lesser.items → EachKeepsInclusion calls.items answers.greater.items
        → (rest : List (K × V)) × (greater.new.entries ≡ lesser.new.entries ++ rest)) }
{
    law_included_runs::<K, V, W>();
    let Ok(lesser) = perform_all(alloc, lesser, calls) else {
        return None;
    };
    let Ok(greater) = perform_all(alloc, greater, same_calls) else {
        return None;
    };
    Some(Answers { lesser, greater })
}

/// Makes the calls of an empty cache. Where they are puts, none refused, of the keys of a list in turn, they hit and miss
/// as `clru::replay` of the list does, and their misses keep its bound.
pub fn perform_puts<K: Eq + Hash + Drop, V: Copy>(
    alloc: Global,
    cache: &mut CLruCache<K, V>,
    calls: Vec<PlainCall<K, V>>,
) -> Result<Vec<Answer<K, V>>, Vec<PlainCall<K, V>>>
    requires { cache.old.entries ≡ [] }
    ensures hits { IfOk result (λ answers. (requests : List K) → PutEach requests calls.items answers.items
        → (run : Run (PlainStep K.eq) cache.old calls.items answers.items cache.new)
        × (held_before K.eq (entries_of K.eq cache.old calls.items answers.items cache.new run) requests
        ≡ marks K.eq cache.old.capacity requests)) }
    ensures bound { IfOk result (λ answers. (requests : List K) → PutEach requests calls.items answers.items
        → (run : Run (PlainStep K.eq) cache.old calls.items answers.items cache.new)
        × IsCompetitive K.eq cache.old.capacity requests
        (count_by not
        (held_before K.eq (entries_of K.eq cache.old calls.items answers.items cache.new run) requests))) }
{
    law_put_runs::<K, V, clru::ZeroWeightScale>();
    // Only for the proof: clause `valid` of `len` says that the capacity is at least 1.
    let _ = cache.len();
    match perform_all(alloc, cache, calls) {
        Ok(answers) => Ok(answers),
        Err(calls) => Err(calls),
    }
}

/// Makes the calls of an empty cache. Where they are puts by weight, none refused, of the keys of a list in turn, each of a pair
/// that weighs what its key does, a key is held before its put exactly where its request hits by size.
pub fn perform_puts_by_size<K: Eq + Hash + Drop, V: Copy, W: WeightScale<K, V>>(
    alloc: Global,
    cache: &mut CLruCache<K, V, DefaultState, W>,
    calls: Vec<Call<K, V>>,
) -> Result<Vec<Answer<K, V>>, Vec<Call<K, V>>>
    requires { cache.old.entries ≡ [] }
    ensures { IfOk result (λ answers. (weight : K → ℕ) (requests : List K) → SameWeights K.eq weight
        → PutEachBySize weight (W.weight cache.old.scale) requests calls.items answers.items
        → (run : Run (Step K.eq W.weight) cache.old calls.items answers.items cache.new)
        × (held_before K.eq (weighed_entries_of K.eq W.weight cache.old calls.items answers.items cache.new run) requests
        ≡ marks_by_size K.eq weight cache.old.capacity requests)) }
{
    law_sized_put_runs::<K, V, W>();
    match perform_all(alloc, cache, calls) {
        Ok(answers) => Ok(answers),
        Err(calls) => Err(calls),
    }
}
