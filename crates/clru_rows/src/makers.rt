//! Blocks of makers: each line makes a cache, and its answer is what that asked for, and for how many pairs there is room then
//! with no further request.

use crate::answers::Answers;
use crate::cache::{Any, put_number};
use crate::lines::Line;
use crate::out::Out;
use crate::pairs::{Hashing, Key, Value};
use crate::scale::Scale;
use crate::subject::say_cost;
use crate::words::{Words, Wrong};
use crate::world::{Cost, World};
use clru::{CLruCache, CLruCacheConfig, WeightScale};
use std::alloc::Allocator;
use std::hash::BuildHasher;

/// A configuration of what is counted.
type Config = CLruCacheConfig<Key, Value, Hashing, Scale>;

/// Runs a block, which begins with `makers of caches`.
pub(crate) fn run(world: &'static World, lines: &[Line], answers: &mut Answers) {
    answers.say("");
    for line in lines {
        let mut out = Out::new(world.alloc);
        if !line.call.is_empty() {
            let mut words = Words::new(line.call);
            let name = words.word();
            make(world, name, &mut words, &mut out);
            words.end(&mut out);
        }
        answers.add(out);
        answers.say_left_over(world);
    }
}

/// Calls the maker of that name, with a capacity and, where it takes one, a reserve; behind `then` stands one that a configuration
/// takes in its place, and behind `again` one with which a refused configuration is given once more.
fn make(world: &'static World, name: &str, words: &mut Words, out: &mut Out) {
    let (heap, before, capacity) = (&world.heap, world.cost(), words.capacity());
    heap.refuse_none();
    match name {
        "new" => filled(world, &mut CLruCache::new(heap, capacity), before, out),
        "with_hasher" => {
            let mut cache = CLruCache::with_hasher(heap, capacity, world.hashing());
            filled(world, &mut cache, before, out);
        }
        "with_scale" => {
            let mut cache = CLruCache::with_scale(heap, capacity, Scale { world });
            filled(world, &mut cache, before, out);
        }
        "with_memory" => match CLruCache::with_memory(heap, capacity, words.number()) {
            Ok(mut cache) => filled(world, &mut cache, before, out),
            Err(_) => out.say("no memory"),
        },
        "with_config" | "config" => {
            let mut config = CLruCacheConfig::new(capacity)
                .with_hasher(world.hashing())
                .with_scale(Scale { world })
                .with_memory(words.number());
            if words.passes("then") {
                config = config.with_memory(words.number());
            }
            if name == "config" {
                say_cost(world.cost().since(before), out);
            } else {
                with_config(world, config, words, out);
            }
        }
        _ => words.note(Wrong::NoSuchCall),
    }
}

fn with_config(world: &'static World, config: Config, words: &mut Words, out: &mut Out) {
    if let Some(config) = refused_of(world, config, out) {
        out.say("no memory");
        if words.passes("again") {
            out.say("; again ");
            let _ = refused_of(world, config.with_memory(words.number()), out);
        }
    }
}

/// Says what the cache of a configuration asked for, or answers the configuration that came back.
fn refused_of(world: &'static World, config: Config, out: &mut Out) -> Option<Config> {
    let before = world.cost();
    match CLruCache::with_config(&world.heap, config) {
        Ok(mut cache) => {
            filled(world, &mut cache, before, out);
            None
        }
        Err(config) => Some(config),
    }
}

/// Says what a maker asked for, and fills its cache without a further request.
fn filled<S: BuildHasher, W: WeightScale<Key, Value>, A: Allocator + Copy>(
    world: &'static World,
    cache: &mut Any<S, W, A>,
    before: Cost,
    out: &mut Out,
) {
    let cost = world.cost().since(before);
    out.number(cost.requests as usize);
    out.count(" requests, ", cost.bytes as usize);
    out.say(" bytes");
    world.heap.refuse_after(0);
    let mut room = 0usize;
    for number in 0..MOST {
        if cache.len() == cache.capacity() || !put_number(world, cache, number) {
            break;
        }
        room = number.saturating_add(1);
    }
    world.heap.refuse_none();
    if room > 0 {
        out.count(", room for ", room);
    }
}

/// How far room is counted.
const MOST: usize = 2000;
