//! Blocks of calls of a cache.

use crate::answers::Answers;
use crate::calls::{called, walk_owned};
use crate::fault::Fault;
use crate::lines::Line;
use crate::out::Out;
use crate::pairs::{Hashing, Key, Value};
use crate::plain::{pairs_of, plain};
use crate::scale::Scale;
use crate::subject::{Subject, begin};
use crate::whole::cache_fault;
use crate::words::{Words, Wrong, capacity_of};
use crate::world::World;
use clru::{CLruCache, CLruCacheConfig, WeightScale, ZeroWeightScale};
use ration::Rationed;
use std::alloc::{Allocator, Global};
use std::hash::{BuildHasher, Hash};
use std::mem;

/// A cache over any hash builder and memory: what calls it is proved with no look at how they count.
pub(crate) type Any<S, W, A> = CLruCache<Key, Value, S, W, A>;

/// A cache over what is counted.
type Made<W> = Any<Hashing, W, &'static Rationed<Global>>;

/// A cache of pairs that weigh nothing, with what its calls are made of, and
#[derive(Drop)]
pub(crate) struct Plain {
    world: &'static World,
    cache: Made<ZeroWeightScale>,
}

/// one of pairs that weigh something.
#[derive(Drop)]
pub(crate) struct Weighted {
    world: &'static World,
    cache: Made<Scale>,
}

/// Runs a block: makes the cache of its first line, and the calls of the others.
pub(crate) fn run(world: &'static World, first: &Line, lines: &[Line], answers: &mut Answers) {
    if let Some((_, items)) = first.call.split_once("from_iter") {
        let pairs = pairs_of(world, &mut Words::new(items));
        let made = match CLruCache::from_iter(&world.heap, world.hashing(), pairs) {
            Ok(cache) => Some(Plain { world, cache }),
            Err(_) => None,
        };
        begin(world, made, lines, answers);
    } else if world.head.weighs {
        let made = weighted_of(world, answers);
        begin(world, made, lines, answers);
    } else {
        let made = plain_of(world, answers);
        begin(world, made, lines, answers);
    }
}

/// Makes an empty cache, or answers `None` for want of memory.
pub fn made<W: WeightScale<Key, Value> + Copy>(
    world: &'static World,
    capacity: usize,
    reserve: usize,
    scale: W,
) -> Option<Made<W>> {
    empty(&world.heap, world.hashing(), capacity, reserve, scale)
}

/// Makes an empty cache of any keys and values, or answers `None` for want of memory.
pub(crate) fn empty<K, V, S, W, A>(
    heap: A,
    hashing: S,
    capacity: usize,
    reserve: usize,
    scale: W,
) -> Option<CLruCache<K, V, S, W, A>>
where
    K: Eq + Hash,
    S: BuildHasher + Copy,
    W: WeightScale<K, V> + Copy,
    A: Allocator + Copy,
{
    let config = CLruCacheConfig::new(capacity_of(capacity))
        .with_hasher(hashing)
        .with_scale(scale)
        .with_memory(reserve);
    CLruCache::with_config(heap, config).ok()
}

/// The cache of a first line whose pairs weigh nothing, and
pub(crate) fn plain_of(world: &'static World, answers: &mut Answers) -> Option<Plain> {
    match filled(world, ZeroWeightScale, answers) {
        Some(cache) => Some(Plain { world, cache }),
        None => None,
    }
}

/// that of one whose pairs weigh something.
pub(crate) fn weighted_of(world: &'static World, answers: &mut Answers) -> Option<Weighted> {
    match filled(world, Scale { world }, answers) {
        Some(cache) => Some(Weighted { world, cache }),
        None => None,
    }
}

/// Makes the cache of a first line, with its first entries.
fn filled<W: WeightScale<Key, Value> + Copy>(
    world: &'static World,
    scale: W,
    answers: &mut Answers,
) -> Option<Made<W>> {
    let head = world.head;
    let mut cache = made(world, head.capacity, head.reserve.unwrap_or(0), scale)?;
    if fill(world, &mut cache, head.filled) < head.filled {
        answers.wrong = Some(Wrong::NotFilled);
    }
    Some(cache)
}

/// Puts entries, the keys 0, 1, .. in turn, up to a number or the first one that is refused. Answers how many.
fn fill<S: BuildHasher, W: WeightScale<Key, Value>, A: Allocator + Copy>(
    world: &'static World,
    cache: &mut Any<S, W, A>,
    most: usize,
) -> usize {
    for number in 0..most {
        if !put_number(world, cache, number) {
            return number;
        }
    }
    let _ = world.notes();
    most
}

/// Puts the key of a number, with itself as its value, or with 0 where values weigh something. Answers whether it is stored.
pub(crate) fn put_number<S: BuildHasher, W: WeightScale<Key, Value>, A: Allocator + Copy>(
    world: &'static World,
    cache: &mut Any<S, W, A>,
    number: usize,
) -> bool {
    let mut word = Out::new(world.alloc);
    word.number(number);
    let key = Key::new(world, &word.text);
    if world.head.weighs {
        word.clear();
        word.say("0");
    }
    let value = Value::new(world, &word.text);
    cache.put_with_weight_dropping(key, value).is_ok()
}

impl Subject for Plain {
    fn call(&mut self, name: &str, words: &mut Words, out: &mut Out) {
        let world = self.world;
        if name == "into_iter" {
            let capacity = self.cache.capacity();
            if let Some(fresh) = made(world, capacity, 0, ZeroWeightScale) {
                walk_owned(mem::replace(&mut self.cache, fresh), words, out);
            }
        } else if !plain(&mut self.cache, world, name, words, out) {
            words.note(Wrong::NoSuchCall);
        }
    }

    fn fault(&self) -> Option<Fault> {
        cache_fault(self.world, &self.cache, 0)
    }
}

impl Subject for Weighted {
    fn call(&mut self, name: &str, words: &mut Words, out: &mut Out) {
        let world = self.world;
        if name == "into_iter" {
            let capacity = self.cache.capacity();
            if let Some(fresh) = made(world, capacity, 0, Scale { world }) {
                walk_owned(mem::replace(&mut self.cache, fresh), words, out);
            }
        } else if !called(&mut self.cache, world, name, words, out) {
            words.note(Wrong::NoSuchCall);
        }
    }

    fn fault(&self) -> Option<Fault> {
        cache_fault(self.world, &self.cache, 0)
    }
}
