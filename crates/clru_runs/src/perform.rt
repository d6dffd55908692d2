//! One call, made.
ghost use Rattle.std.specs.Prelude.{◌≡◌, ◌+◌, ◌<◌, ◌^◌, Some, not};
ghost use Rattle.clru.specs.Cache.{IsValid};
ghost use Rattle.clru_runs.specs.Step.{Step, PlainStep};

use crate::call::{Answer, Call, PlainCall, Weighing};
use crate::lends::{back, back_mut, front, front_mut, get_mut, peek_mut, try_put_or_modify};
use crate::walks::{nth, nth_back};
use clru::{CLruCache, NonZeroUsize, WeightScale, ZeroWeightScale};
use std::alloc::Allocator;
use std::hash::{BuildHasher, Hash};

/// A call of a `C`, as a value.
pub trait Perform<C> {
    type Answer;

    // The `C` before, the call, its result, and the `C` after.
    ghost step: { C → Self → Self.Answer → C → Type 0 };

    /// Makes the call. It never fails: a refusal is a result.
    fn perform(self, cache: &mut C) -> Self::Answer
        ensures { step cache.old self result cache.new };
}

impl<K: Eq + Hash + Drop, V: Copy, S: BuildHasher, W: WeightScale<K, V>, A> Perform<
    CLruCache<K, V, S, W, A>,
> for Call<K, V>
where
    A: Allocator + Copy,
{
    type Answer = Answer<K, V>;

    ghost step = { λ old call answer new. Step K.eq W.weight old call answer new
        × IsValid K.eq (W.weight new.scale) new };

    fn perform(self, cache: &mut CLruCache<K, V, S, W, A>) -> Answer<K, V> {
        let answer = make(self, cache);
        // The contract of `len` has what holds of each cache.
        let _len = cache.len();
        answer
    }
}

impl<K: Eq + Hash + Drop, V: Copy, S: BuildHasher, A> Perform<
    CLruCache<K, V, S, ZeroWeightScale, A>,
> for PlainCall<K, V>
where
    A: Allocator + Copy,
{
    type Answer = Answer<K, V>;

    ghost step = { λ old call answer new. PlainStep K.eq old call answer new × IsValid K.eq (λ _ _. 0) new };

    fn perform(self, cache: &mut CLruCache<K, V, S, ZeroWeightScale, A>) -> Answer<K, V> {
        let answer = make_plain(self, cache);
        let _len = cache.len();
        answer
    }
}

fn make<K: Eq + Hash + Drop, V: Copy, S: BuildHasher, W: WeightScale<K, V>, A: Allocator + Copy>(
    call: Call<K, V>,
    cache: &mut CLruCache<K, V, S, W, A>,
) -> Answer<K, V>
    ensures { Step K.eq W.weight cache.old call result cache.new }
{
    match call {
        Call::PutWithWeight(key, value) => put_with_weight(cache, key, value),
        Call::Get(key) => Answer::Value(cache.get(&key).copied()),
        Call::Peek(key) => Answer::Value(cache.peek(&key).copied()),
        Call::Contains(key) => Answer::Flag(cache.contains(&key)),
        Call::Len => Answer::Number(cache.len()),
        Call::Weight => Answer::Number(cache.weight()),
        Call::Size => Answer::Number(cache.size()),
        Call::Capacity => Answer::Number(cache.capacity()),
        Call::IsEmpty => Answer::Flag(cache.is_empty()),
        Call::IsFull => Answer::Flag(cache.is_full()),
        Call::Demote(key) => Answer::Flag(cache.demote(&key)),
        Call::Pop(key) => Answer::Value(cache.pop(&key)),
        Call::Front => Answer::Value(front(cache)),
        Call::Back => Answer::Value(back(cache)),
        Call::Nth(index) => Answer::Value(nth(cache, index)),
        Call::NthBack(index) => Answer::Value(nth_back(cache, index)),
        Call::PopFront => Answer::Pair(cache.pop_front()),
        Call::PopBack => Answer::Pair(cache.pop_back()),
        Call::Clear => {
            cache.clear();
            Answer::Done
        }
        Call::Resize(capacity) => {
            cache.resize(NonZeroUsize::new(capacity).unwrap_or(NonZeroUsize::MIN));
            Answer::Done
        }
        Call::Retain(key) => retain(cache, key),
    }
}

fn make_plain<K: Eq + Hash + Drop, V: Copy, S: BuildHasher, A: Allocator + Copy>(
    call: PlainCall<K, V>,
    cache: &mut CLruCache<K, V, S, ZeroWeightScale, A>,
) -> Answer<K, V>
    ensures { PlainStep K.eq cache.old call result cache.new }
{
    match call {
        PlainCall::Put(key, value) => put(cache, key, value),
        PlainCall::PutOrModify(key, value) => put_or_modify(cache, key, value),
        PlainCall::RetainMut(key, value) => retain_mut(cache, key, value),
        PlainCall::Extend(pairs) => Answer::Extended(cache.extend(pairs)),
        PlainCall::TryPutOrModify(key, attempt) => try_put_or_modify(cache, key, attempt),
        PlainCall::GetMut(key, value) => get_mut(cache, key, value),
        PlainCall::PeekMut(key, value) => peek_mut(cache, key, value),
        PlainCall::FrontMut(value) => front_mut(cache, value),
        PlainCall::BackMut(value) => back_mut(cache, value),
        PlainCall::Any(call) => make(call, cache),
    }
}

fn put_with_weight<
    K: Eq + Hash + Drop,
    V: Copy,
    S: BuildHasher,
    W: WeightScale<K, V>,
    A: Allocator + Copy,
>(cache: &mut CLruCache<K, V, S, W, A>, key: K, value: V) -> Answer<K, V>
    ensures { Step K.eq W.weight cache.old (Call.PutWithWeight key value) result cache.new }
{
    // Its result is a `usize`, so there are fewer than 2^64 entries.
    let _len = cache.len();
    let mut weighing = Weighing {
        replaced: None,
        drop_count: 0,
        last: None,
    };
    let mut note = |key, value|
        requires { weighing.drop_count + 1 < 2 ^ 64 }
        ensures drop_count { weighing.exit.drop_count ≡ weighing.entry.drop_count + 1 }
        ensures last { weighing.exit.last ≡ Some (key, value) }
    {
        weighing.take(key, value);
    };
    match cache.put_with_weight_handing_to(key, value, &mut note) {
        Ok(replaced) => {
            weighing.replaced = replaced;
            Answer::Weighed(Ok(weighing))
        }
        Err(refusal) => Answer::Weighed(Err(refusal)),
    }
}

fn put<K: Eq + Hash + Drop, V: Copy, S: BuildHasher, A: Allocator + Copy>(
    cache: &mut CLruCache<K, V, S, ZeroWeightScale, A>,
    key: K,
    value: V,
) -> Answer<K, V>
    ensures { PlainStep K.eq cache.old (PlainCall.Put key value) result cache.new }
{
    Answer::Stored(cache.put(key, value))
}

fn put_or_modify<K: Eq + Hash + Drop, V: Copy, S: BuildHasher, A: Allocator + Copy>(
    cache: &mut CLruCache<K, V, S, ZeroWeightScale, A>,
    key: K,
    value: V,
) -> Answer<K, V>
    ensures { PlainStep K.eq cache.old (PlainCall.PutOrModify key value) result cache.new }
{
    match cache.put_or_modify(key, |_, new| new, |_, held, new| *held = new, value) {
        Ok(lent) => Answer::Lent(Ok(*lent)),
        Err(back) => Answer::Lent(Err(back)),
    }
}

fn retain<K: Eq + Hash + Drop, V: Copy, S: BuildHasher, W: WeightScale<K, V>, A: Allocator + Copy>(
    cache: &mut CLruCache<K, V, S, W, A>,
    key: K,
) -> Answer<K, V>
    ensures { Step K.eq W.weight cache.old (Call.Retain key) result cache.new }
{
    cache.retain(
        |held: &K, _: &V| -> bool
            ensures { result ≡ not (K.eq held.now key) }
        { *held != key },
    );
    Answer::Done
}

fn retain_mut<K: Eq + Hash + Drop, V: Copy, S: BuildHasher, A: Allocator + Copy>(
    cache: &mut CLruCache<K, V, S, ZeroWeightScale, A>,
    key: K,
    value: V,
) -> Answer<K, V>
    ensures { PlainStep K.eq cache.old (PlainCall.RetainMut key value) result cache.new }
{
    cache.retain_mut(
        |held: &K, old: &mut V| -> bool
            ensures { (result ≡ not (K.eq held.now key)) × (old.new ≡ value) }
        {
            *old = value;
            *held != key
        },
    );
    Answer::Done
}
