//! The calls that a cache with any scale has.

mod arms;

use crate::cache::Any;
use crate::closures::Keep;
use crate::out::Out;
use crate::pairs::{Key, Value};
use crate::words::{Words, Wrong};
use crate::world::World;
use clru::{CLruCacheIntoIter, CLruCacheIter, PutError, WeightScale};
use std::alloc::Allocator;
use std::hash::BuildHasher;
use std::mem;

/// A walk over pairs that a cache is given up for.
type Owned<S, W, A> = CLruCacheIntoIter<Key, Value, S, W, A>;

/// A walk over pairs.
type Walk<'c, A> = CLruCacheIter<'c, Key, Value, A>;

/// Says a value, or that there is none.
pub fn say_value(value: Option<&Value>, out: &mut Out) {
    match value {
        Some(value) => value.say(out),
        None => out.say("none"),
    }
}

/// Says a value that was taken out, or that there is none.
pub fn say_popped(value: Option<Value>, out: &mut Out) {
    say_value(value.as_ref(), out);
}

/// Says a pair.
pub(crate) fn say_pair(key: &Key, value: &Value, out: &mut Out) {
    out.say(&key.text);
    out.say(" ");
    value.say(out);
}

/// Says a pair, or that there is none.
pub fn say_found(pair: Option<(&Key, &Value)>, out: &mut Out) {
    match pair {
        Some((key, value)) => say_pair(key, value, out),
        None => out.say("none"),
    }
}

/// Says a pair that was taken out, or that there is none.
pub(crate) fn say_taken(pair: Option<(Key, Value)>, out: &mut Out) {
    match &pair {
        Some((key, value)) => say_pair(key, value, out),
        None => out.say("none"),
    }
}

/// Makes a call. Answers `false` where the name is none of these.
pub(crate) fn called<S: BuildHasher, W: WeightScale<Key, Value>, A: Allocator + Copy>(
    cache: &mut Any<S, W, A>,
    world: &'static World,
    name: &str,
    words: &mut Words,
    out: &mut Out,
) -> bool {
    if read(cache, world, name, words, out) {
        return true;
    }
    change(cache, world, name, words, out)
}

/// Makes a call that changes nothing. Answers `false` where the name is none of these.
pub fn read<S: BuildHasher, W: WeightScale<Key, Value>, A: Allocator + Copy>(
    cache: &Any<S, W, A>,
    world: &'static World,
    name: &str,
    words: &mut Words,
    out: &mut Out,
) -> bool {
    match name {
        "list" => say_list(cache.iter(), out),
        "iter" => walk(cache.iter(), words, out),
        _ => return arms::read(cache, world, name, words, out),
    }
    true
}

/// Says the pairs, the most recently used first.
pub fn say_list<A: Allocator + Copy>(walk: Walk<'_, A>, out: &mut Out) {
    for (key, value) in walk {
        out.part(", ");
        say_pair(key, value, out);
    }
    out.or("nothing");
}

/// Steps of one iterator, in turn: `next`, `next_back`, `nth N`, `len`, `size_hint`, `count`; `clone`, which goes on with a copy, and
/// `other`, with the one of both that stands still.
fn walk<A: Allocator + Copy>(mut walk: Walk<'_, A>, words: &mut Words, out: &mut Out) {
    let mut other = None;
    for _ in 0..usize::MAX {
        let Some(step) = words.next() else {
            break;
        };
        out.part("; ");
        if !turned(&mut walk, &mut other, step, out) && !step_of(&mut walk, step, words, out) {
            words.note(Wrong::NoSuchWord);
        }
    }
}

/// Goes on with a copy, or with the iterator that stands still. Answers `false` where the name is neither.
fn turned<'c, A: Allocator + Copy>(
    walk: &mut Walk<'c, A>,
    other: &mut Option<Walk<'c, A>>,
    name: &str,
    out: &mut Out,
) -> bool {
    let next = match name {
        "clone" => walk.clone().ok(),
        "other" => other.take(),
        _ => return false,
    };
    match next {
        Some(next) => {
            *other = Some(mem::replace(walk, next));
            out.say("done");
        }
        None => out.say("none"),
    }
    true
}

/// One step of such an iterator. Answers `false` where the name is none.
fn step_of<A: Allocator + Copy>(
    walk: &mut Walk<'_, A>,
    name: &str,
    words: &mut Words,
    out: &mut Out,
) -> bool {
    let found = match name {
        "next" => walk.next(),
        "next_back" => walk.next_back(),
        "nth" => walk.nth(words.number()),
        "nth_back" => walk.nth_back(words.number()),
        _ => return count_of(walk, name, out),
    };
    say_found(found, out);
    true
}

/// What is left of such an iterator. Answers `false` where the name is none of these.
fn count_of<A: Allocator + Copy>(walk: &mut Walk<'_, A>, name: &str, out: &mut Out) -> bool {
    match name {
        "len" => out.number(walk.len()),
        "size_hint" => say_hint(walk.size_hint(), out),
        "count" => count_copy(walk, out),
        _ => return false,
    }
    true
}

/// Counts what a copy gives.
fn count_copy<A: Allocator + Copy>(walk: &Walk<'_, A>, out: &mut Out) {
    if let Ok(copy) = walk.clone() {
        out.number(copy.count());
    }
}

/// Says how many steps are left at least and at most.
pub fn say_hint(hint: (usize, Option<usize>), out: &mut Out) {
    out.count("(", hint.0);
    match hint.1 {
        Some(most) => {
            out.count(", Some(", most);
            out.say("))");
        }
        None => out.say(", None)"),
    }
}

/// Gives a cache up for its pairs, and takes steps of that iterator, in turn: `next`, `next_back`, `len`, `size_hint`. Those that
/// are not taken go with it.
pub(crate) fn walk_owned<S: BuildHasher + Drop, W: WeightScale<Key, Value> + Drop, A>(
    cache: Any<S, W, A>,
    words: &mut Words,
    out: &mut Out,
)
where
    A: Allocator + Copy,
{
    let mut walk = cache.into_iter();
    for _ in 0..usize::MAX {
        let Some(step) = words.next() else {
            break;
        };
        out.part("; ");
        if !step_owned(&mut walk, step, out) {
            words.note(Wrong::NoSuchWord);
        }
    }
    out.or("done");
}

/// One step of such an iterator. Answers `false` where the name is none.
fn step_owned<S: BuildHasher + Drop, W: WeightScale<Key, Value> + Drop, A>(
    walk: &mut Owned<S, W, A>,
    name: &str,
    out: &mut Out,
) -> bool
where
    A: Allocator + Copy,
{
    match name {
        "len" => out.number(walk.len()),
        "size_hint" => say_hint(walk.size_hint(), out),
        "next" | "next_back" => say_taken(taken(walk, name == "next"), out),
        _ => return false,
    }
    true
}

/// The pair at the front, or at the back, taken out.
fn taken<S: BuildHasher + Drop, W: WeightScale<Key, Value> + Drop, A: Allocator + Copy>(
    walk: &mut Owned<S, W, A>,
    is_front: bool,
) -> Option<(Key, Value)> {
    if is_front {
        walk.next()
    } else {
        walk.next_back()
    }
}

/// Makes a call that may change the cache. Answers `false` where the name is none of these.
fn change<S: BuildHasher, W: WeightScale<Key, Value>, A: Allocator + Copy>(
    cache: &mut Any<S, W, A>,
    world: &'static World,
    name: &str,
    words: &mut Words,
    out: &mut Out,
) -> bool {
    match name {
        "put_with_weight" | "put_with_weight_handing_to" => put(cache, world, name, words, out),
        "put_with_weight_dropping" => {
            let (key, value) = (Key::next(world, words), Value::next(world, words));
            say_put(cache.put_with_weight_dropping(key, value), out);
        }
        "resize" => cache.resize(words.capacity()),
        "retain" => retain(cache, world, words),
        _ => return arms::change(cache, world, name, words, out),
    }
    out.or("done");
    true
}

/// Keeps the entries of a form; of `odd-calls` those of the first, third, .. call, as the closure counts them.
fn retain<S: BuildHasher, W: WeightScale<Key, Value>, A: Allocator + Copy>(
    cache: &mut Any<S, W, A>,
    world: &World,
    words: &mut Words,
) {
    if words.passes("odd-calls") {
        let mut calls = 0usize;
        cache.retain(|key, _value| {
            world.note("keep", &key.text);
            calls = calls.wrapping_add(1);
            calls % 2 == 1
        });
        return;
    }
    let keep = Keep::read(words);
    cache.retain(|key, value| keep.keeps_entry(world, key, value));
}

/// A put by weight, whose closure notes what it is handed.
fn put<S: BuildHasher, W: WeightScale<Key, Value>, A: Allocator + Copy>(
    cache: &mut Any<S, W, A>,
    world: &'static World,
    name: &str,
    words: &mut Words,
    out: &mut Out,
) {
    let (key, value) = (Key::next(world, words), Value::next(world, words));
    let mut dropped = Out::new(world.alloc);
    let mut note = |key: Key, value: Value| {
        world.note("on_drop", &key.text);
        dropped.say(", dropped ");
        say_pair(&key, &value, &mut dropped);
    };
    let put = if name == "put_with_weight" {
        cache.put_with_weight(key, value, note)
    } else {
        cache.put_with_weight_handing_to(key, value, &mut note)
    };
    world.note("answered", "");
    say_put(put, out);
    out.say(&dropped.text);
}

/// Says what became of a put by weight.
fn say_put(put: Result<Option<Value>, PutError<Key, Value>>, out: &mut Out) {
    match &put {
        Ok(replaced) => say_stored(replaced.as_ref(), out),
        Err(PutError::TooHeavy(key, value)) => {
            out.say("too heavy, back ");
            say_pair(key, value, out);
        }
        Err(PutError::NoMemory(key, value)) => say_back(key, value, out),
    }
}

/// Says that a pair was stored, and the old value of its key.
pub(crate) fn say_stored(replaced: Option<&Value>, out: &mut Out) {
    out.say("stored");
    if let Some(value) = replaced {
        out.say(", replaced ");
        value.say(out);
    }
}

/// Says that memory was refused, and what came back.
pub(crate) fn say_back(key: &Key, value: &Value, out: &mut Out) {
    out.say("no memory, back ");
    say_pair(key, value, out);
}
