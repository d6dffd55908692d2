//! The calls of a cache whose pairs weigh nothing.

use crate::cache::Any;
use crate::calls::{called, say_back, say_pair, say_stored, say_value};
use crate::closures::{Form, Keep};
use crate::out::Out;
use crate::pairs::{Key, Value};
use crate::words::{Words, Wrong};
use crate::world::World;
use clru::{CLruCacheIterMut, Put, TryPutError, ZeroWeightScale};
use std::alloc::Allocator;
use std::hash::BuildHasher;
use std::mem;

/// A cursor over such a cache.
type Cursor<'c, S, A> = CLruCacheIterMut<'c, Key, Value, S, A>;

/// Such a cache over any hash builder and memory.
type Plain<S, A> = Any<S, ZeroWeightScale, A>;

/// Makes a call. Answers `false` where the name is none of these.
pub(crate) fn plain<S: BuildHasher, A: Allocator + Copy>(
    cache: &mut Plain<S, A>,
    world: &'static World,
    name: &str,
    words: &mut Words,
    out: &mut Out,
) -> bool {
    match name {
        "put" => put(cache, world, words, out),
        "put_or_modify" => put_or_modify(cache, world, words, out),
        "try_put_or_modify" => try_put_or_modify(cache, world, words, out),
        "extend" => extend(cache, pairs_of(world, words), out),
        "get_mut" | "peek_mut" => lend(cache, world, name, words, out),
        "retain_mut" => retain_mut(cache, world, words, out),
        "front_mut" | "back_mut" => lend_end(cache, world, name, words, out),
        "iter_mut" => steps(cache, world, words, out),
        _ => return called(cache, world, name, words, out),
    }
    true
}

fn extend<S: BuildHasher, A: Allocator + Copy>(
    cache: &mut Plain<S, A>,
    pairs: Vec<(Key, Value)>,
    out: &mut Out,
) {
    match cache.extend(pairs) {
        Ok(()) => out.say("done"),
        Err((key, value)) => say_back(&key, &value, out),
    }
}

/// A call that lends the value of a key, to which the next word is written.
fn lend<S: BuildHasher, A: Allocator + Copy>(
    cache: &mut Plain<S, A>,
    world: &'static World,
    name: &str,
    words: &mut Words,
    out: &mut Out,
) {
    let key = Key::next(world, words);
    let lent = if name == "get_mut" {
        cache.get_mut(&key)
    } else {
        cache.peek_mut(&key)
    };
    swap(lent, world, words, out);
}

fn put<S: BuildHasher, A: Allocator + Copy>(
    cache: &mut Plain<S, A>,
    world: &'static World,
    words: &mut Words,
    out: &mut Out,
) {
    let put = cache.put(Key::next(world, words), Value::next(world, words));
    world.note("answered", "");
    match &put {
        Ok(put) => say_put(put, out),
        Err((key, value)) => say_back(key, value, out),
    }
}

/// Says what became of a put.
fn say_put(put: &Put<Key, Value>, out: &mut Out) {
    say_stored(put.replaced.as_ref(), out);
    if let Some((key, value)) = &put.dropped {
        out.say(", dropped ");
        say_pair(key, value, out);
    }
}

fn put_or_modify<S: BuildHasher, A: Allocator + Copy>(
    cache: &mut Plain<S, A>,
    world: &'static World,
    words: &mut Words,
    out: &mut Out,
) {
    let (key, data) = (Key::next(world, words), Value::next(world, words));
    let form = Form::read(words);
    let lent = cache.put_or_modify(
        key,
        |key, data| form.put(world, key, data),
        |key, held, data| form.modify(world, key, held, &data),
        data,
    );
    match lent {
        Ok(lent) => lent.say(out),
        Err((key, data)) => say_back(&key, &data, out),
    }
}

fn try_put_or_modify<S: BuildHasher, A: Allocator + Copy>(
    cache: &mut Plain<S, A>,
    world: &'static World,
    words: &mut Words,
    out: &mut Out,
) {
    let (key, data) = (Key::next(world, words), Value::next(world, words));
    let form = Form::read(words);
    let lent = cache.try_put_or_modify(
        key,
        |key, data| form.try_put(world, key, data),
        |key, held, data| form.try_modify(world, key, held, &data),
        data,
    );
    match lent {
        Ok(lent) => lent.say(out),
        Err(TryPutError::Failed(failed)) => failed.say(out),
        Err(TryPutError::NoMemory(key, data)) => say_back(&key, &data, out),
    }
}

/// The pairs of the words that are left.
pub(crate) fn pairs_of(world: &'static World, words: &mut Words) -> Vec<(Key, Value)> {
    let mut pairs = Vec::new(world.alloc);
    for _ in 0..usize::MAX {
        if words.is_empty() {
            break;
        }
        let pair = (Key::next(world, words), Value::next(world, words));
        if pairs.push(pair).is_err() {
            world.is_short.set(true);
        }
    }
    pairs
}

/// Keeps entries by a form, and adds a number to each value where one is named.
fn retain_mut<S: BuildHasher, A: Allocator + Copy>(
    cache: &mut Plain<S, A>,
    world: &'static World,
    words: &mut Words,
    out: &mut Out,
) {
    let keep = Keep::read(words);
    let adds = words.passes("add");
    let more = if adds { words.number() } else { 0 };
    cache.retain_mut(|key, value| {
        let kept = keep.keeps_entry(world, key, value);
        if adds {
            value.set(value.number().saturating_add(more));
        }
        kept
    });
    out.say("done");
}

/// The first or the last entry, lent with its cache: `key`, `deref`, or `deref_mut V` and `into_mut V`, which write a value and
/// answer the old one.
fn lend_end<S: BuildHasher, A: Allocator + Copy>(
    cache: &mut Plain<S, A>,
    world: &'static World,
    name: &str,
    words: &mut Words,
    out: &mut Out,
) {
    let what = words.word();
    let lent = if name == "front_mut" {
        cache.front_mut()
    } else {
        cache.back_mut()
    };
    let Some(mut entry) = lent else {
        let _value = words.next();
        out.say("none");
        return;
    };
    match what {
        "key" => out.say(&entry.key().text),
        "deref" => entry.say(out),
        "deref_mut" => swap(Some(&mut *entry), world, words, out),
        "into_mut" => swap(Some(entry.into_mut()), world, words, out),
        _ => words.note(Wrong::NoSuchWord),
    }
}

/// Steps of one cursor, in turn: `len`, or `next V`, `next_back V`, `next_entry V` and `next_entry_back V`, which write a value
/// and answer the old one.
fn steps<S: BuildHasher, A: Allocator + Copy>(
    cache: &mut Plain<S, A>,
    world: &'static World,
    words: &mut Words,
    out: &mut Out,
) {
    let mut cursor = cache.iter_mut();
    for _ in 0..usize::MAX {
        let Some(name) = words.next() else {
            break;
        };
        out.part("; ");
        if name == "len" {
            out.number(cursor.len());
        } else if !step(&mut cursor, world, name, words, out) {
            words.note(Wrong::NoSuchWord);
        }
    }
}

/// One step of a cursor. Answers `false` where the name is none.
fn step<S: BuildHasher, A: Allocator + Copy>(
    cursor: &mut Cursor<'_, S, A>,
    world: &'static World,
    name: &str,
    words: &mut Words,
    out: &mut Out,
) -> bool {
    let left = cursor.len();
    match name {
        "next" => swap(cursor.next(), world, words, out),
        "next_back" => swap(cursor.next_back(), world, words, out),
        "next_entry" | "next_entry_back" if left == 0 => swap(None, world, words, out),
        "next_entry" => swap_entry(cursor.next_entry(), world, words, out),
        "next_entry_back" => swap_entry(cursor.next_entry_back(), world, words, out),
        _ => return false,
    }
    true
}

/// Writes the next word to an entry that is lent, and its key and its old value as the answer.
fn swap_entry(lent: (&Key, &mut Value), world: &'static World, words: &mut Words, out: &mut Out) {
    out.say(&lent.0.text);
    out.say(" ");
    swap(Some(lent.1), world, words, out);
}

/// Writes the next word to what is lent, where something is, and the old value as the answer.
fn swap(lent: Option<&mut Value>, world: &'static World, words: &mut Words, out: &mut Out) {
    let value = Value::next(world, words);
    match lent {
        Some(held) => {
            let old = mem::replace(held, value);
            old.say(out);
        }
        None => out.say("none"),
    }
}
