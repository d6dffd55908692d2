//! The calls that lend an entry, made.
ghost use Rattle.std.specs.Prelude.{◌≡◌, ◌-◌, length};
ghost use Rattle.clru_runs.specs.Attempts.{stored_by, succeeds_by, left_by};
ghost use Rattle.clru_runs.specs.Step.{PlainStep, value_at};

use crate::call::{Answer, Attempt, PlainCall};
use clru::{CLruCache, WeightScale, ZeroWeightScale};
use std::alloc::Allocator;
use std::hash::{BuildHasher, Hash};
use std::mem;

pub(crate) fn front<
    K: Eq + Hash,
    V: Copy,
    S: BuildHasher,
    W: WeightScale<K, V>,
    A: Allocator + Copy,
>(cache: &CLruCache<K, V, S, W, A>) -> Option<V>
    ensures { result ≡ value_at 0 cache.now.entries }
{
    let (_, value) = cache.front()?;
    Some(*value)
}

pub(crate) fn back<
    K: Eq + Hash,
    V: Copy,
    S: BuildHasher,
    W: WeightScale<K, V>,
    A: Allocator + Copy,
>(cache: &CLruCache<K, V, S, W, A>) -> Option<V>
    ensures { result ≡ value_at (length cache.now.entries - 1) cache.now.entries }
{
    let (_, value) = cache.back()?;
    Some(*value)
}

pub(crate) fn get_mut<K: Eq + Hash + Drop, V: Copy, S: BuildHasher, A: Allocator + Copy>(
    cache: &mut CLruCache<K, V, S, ZeroWeightScale, A>,
    key: K,
    value: V,
) -> Answer<K, V>
    ensures { PlainStep K.eq cache.old (PlainCall.GetMut key value) result cache.new }
{
    match cache.get_mut(&key) {
        Some(held) => Answer::Value(Some(mem::replace(held, value))),
        None => Answer::Value(None),
    }
}

pub(crate) fn peek_mut<K: Eq + Hash + Drop, V: Copy, S: BuildHasher, A: Allocator + Copy>(
    cache: &mut CLruCache<K, V, S, ZeroWeightScale, A>,
    key: K,
    value: V,
) -> Answer<K, V>
    ensures { PlainStep K.eq cache.old (PlainCall.PeekMut key value) result cache.new }
{
    match cache.peek_mut(&key) {
        Some(held) => Answer::Value(Some(mem::replace(held, value))),
        None => Answer::Value(None),
    }
}

pub(crate) fn front_mut<K: Eq + Hash + Drop, V: Copy, S: BuildHasher, A: Allocator + Copy>(
    cache: &mut CLruCache<K, V, S, ZeroWeightScale, A>,
    value: V,
) -> Answer<K, V>
    ensures { PlainStep K.eq cache.old (PlainCall.FrontMut value) result cache.new }
{
    match cache.front_mut() {
        Some(mut first) => Answer::Value(Some(mem::replace(&mut *first, value))),
        None => Answer::Value(None),
    }
}

pub(crate) fn back_mut<K: Eq + Hash + Drop, V: Copy, S: BuildHasher, A: Allocator + Copy>(
    cache: &mut CLruCache<K, V, S, ZeroWeightScale, A>,
    value: V,
) -> Answer<K, V>
    ensures { PlainStep K.eq cache.old (PlainCall.BackMut value) result cache.new }
{
    match cache.back_mut() {
        Some(last) => Answer::Value(Some(mem::replace(last.into_mut(), value))),
        None => Answer::Value(None),
    }
}

pub(crate) fn try_put_or_modify<K: Eq + Hash + Drop, V: Copy, S: BuildHasher, A: Allocator + Copy>(
    cache: &mut CLruCache<K, V, S, ZeroWeightScale, A>,
    key: K,
    attempt: Attempt<V>,
) -> Answer<K, V>
    ensures { PlainStep K.eq cache.old (PlainCall.TryPutOrModify key attempt) result cache.new }
{
    match cache.try_put_or_modify(key, store, write, attempt) {
        Ok(lent) => Answer::Tried(Ok(*lent)),
        Err(refusal) => Answer::Tried(Err(refusal)),
    }
}

fn store<K, V: Copy>(_key: &K, attempt: Attempt<V>) -> Result<V, ()>
    ensures { result ≡ stored_by attempt }
{
    match attempt {
        Attempt::Store(value) => Ok(value),
        Attempt::Fail(_) => Err(()),
    }
}

fn write<K, V: Copy>(_key: &K, held: &mut V, attempt: Attempt<V>) -> Result<(), ()>
    ensures answer { result ≡ succeeds_by attempt }
    ensures left { held.new ≡ left_by attempt held.old }
{
    match attempt {
        Attempt::Store(value) => {
            *held = value;
            Ok(())
        }
        Attempt::Fail(left) => {
            if let Some(value) = left {
                *held = value;
            }
            Err(())
        }
    }
}
