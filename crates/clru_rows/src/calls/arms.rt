//! The calls of a cache by their names, as far as their signatures tell. `tools/check/calls --write` writes this file.

use crate::cache::Any;
use crate::calls::{say_found, say_popped, say_taken, say_value};
use crate::out::Out;
use crate::pairs::{Key, Value};
use crate::words::Words;
use crate::world::World;
use clru::WeightScale;
use std::alloc::Allocator;
use std::hash::BuildHasher;

/// Makes a call that changes nothing. Returns `false` if the name is none of these.
pub(crate) fn read<S: BuildHasher, W: WeightScale<Key, Value>, A: Allocator + Copy>(
    cache: &Any<S, W, A>,
    world: &'static World,
    name: &str,
    words: &mut Words,
    out: &mut Out,
) -> bool {
    match name {
        "front" => say_found(cache.front(), out),
        "back" => say_found(cache.back(), out),
        "peek" => say_value(cache.peek(&Key::next(world, words)), out),
        "contains" => out.truth(cache.contains(&Key::next(world, words))),
        "is_empty" => out.truth(cache.is_empty()),
        "is_full" => out.truth(cache.is_full()),
        _ => match count_of(cache, name) {
            Some(count) => out.number(count),
            None => return false,
        },
    }
    true
}

/// Returns what a call of the whole cache counts, or `None` if the name is none of these.
fn count_of<S: BuildHasher, W: WeightScale<Key, Value>, A: Allocator + Copy>(
    cache: &Any<S, W, A>,
    name: &str,
) -> Option<usize> {
    match name {
        "len" => Some(cache.len()),
        "capacity" => Some(cache.capacity()),
        "weight" => Some(cache.weight()),
        "size" => Some(cache.size()),
        _ => None,
    }
}

/// Makes a call that may change the cache. Returns `false` if the name is none of these.
pub(crate) fn change<S: BuildHasher, W: WeightScale<Key, Value>, A: Allocator + Copy>(
    cache: &mut Any<S, W, A>,
    world: &'static World,
    name: &str,
    words: &mut Words,
    out: &mut Out,
) -> bool {
    match name {
        "get" | "demote" | "pop" => by_key(cache, name, &Key::next(world, words), out),
        "pop_front" => say_taken(cache.pop_front(), out),
        "pop_back" => say_taken(cache.pop_back(), out),
        "clear" => cache.clear(),
        _ => return false,
    }
    out.or("done");
    true
}

/// Makes one of those by a key.
fn by_key<S: BuildHasher, W: WeightScale<Key, Value>, A: Allocator + Copy>(
    cache: &mut Any<S, W, A>,
    name: &str,
    key: &Key,
    out: &mut Out,
) {
    match name {
        "get" => say_value(cache.get(key), out),
        "demote" => out.truth(cache.demote(key)),
        _ => say_popped(cache.pop(key), out),
    }
}
