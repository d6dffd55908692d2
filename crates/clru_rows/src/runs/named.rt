//! The calls of a run by their names.

use crate::runs::arms::{arity, call_of};
use crate::words::{Words, Wrong};
use crate::world::World;
use clru_runs::{Attempt, Call, PlainCall};
use std::alloc::Allocator;

/// The calls of a line. Each ends with its last word, so that nothing stands between two.
pub(crate) fn calls_of<A: Allocator>(
    world: &'static World,
    owned: A,
    words: &mut Words,
) -> Vec<PlainCall<usize, usize>, A> {
    let mut calls = Vec::new(owned);
    for _ in 0..usize::MAX {
        let Some(name) = words.next() else {
            break;
        };
        if name == "puts" {
            puts(world, words.number(), &mut calls);
        } else if calls.push(next_call(name, words)).is_err() {
            world.is_short.set(true);
        }
    }
    calls
}

/// `puts N`: puts of the keys below N.
fn puts<A: Allocator>(world: &World, end: usize, calls: &mut Vec<PlainCall<usize, usize>, A>) {
    for number in 0..end {
        if calls.push(PlainCall::Put(number, number)).is_err() {
            world.is_short.set(true);
        }
    }
}

/// The same of calls that each cache has.
pub(crate) fn any_calls_of<A: Allocator>(
    world: &'static World,
    owned: A,
    words: &mut Words,
) -> Vec<Call<usize, usize>, A> {
    let mut calls = Vec::new(owned);
    for _ in 0..usize::MAX {
        let Some(name) = words.next() else {
            break;
        };
        let call = match next_call(name, words) {
            PlainCall::Any(call) => call,
            _ => {
                words.note(Wrong::NoSuchCall);
                Call::Len
            }
        };
        if calls.push(call).is_err() {
            world.is_short.set(true);
        }
    }
    calls
}

/// A call of that name, with what follows it.
fn next_call(name: &str, words: &mut Words) -> PlainCall<usize, usize> {
    if name == "try_put_or_modify" {
        return PlainCall::TryPutOrModify(words.number(), attempt(words));
    }
    let (first, second) = words.numbers(arity(name));
    match call_of(name, first, second) {
        Some(call) => call,
        None => {
            words.note(Wrong::NoSuchCall);
            PlainCall::Any(Call::Len)
        }
    }
}

/// `store V`, `fail`, or `write-fail V`.
fn attempt(words: &mut Words) -> Attempt<usize> {
    match words.word() {
        "store" => Attempt::Store(words.number()),
        "fail" => Attempt::Fail(None),
        "write-fail" => Attempt::Fail(Some(words.number())),
        _ => {
            words.note(Wrong::NoSuchWord);
            Attempt::Fail(None)
        }
    }
}
