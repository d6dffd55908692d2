//! What a cache lends of what it was made with, and what a map and the allocator that refuses print.
ghost use Rattle.std.specs.Prelude.{length};
ghost use Rattle.std.specs.Hash.FoldHasher as folding;

use crate::plain::room;
use clru::{CLruCache, CLruCacheConfig, DefaultState, WeightScale};
use clru_linked_map::LinkedHashMap;
use ration::{Rationed, equal, shows};
use std::alloc::{AllocError, Global};
use std::hash::{BuildHasher, FoldHasher};

/// A hash builder with a number of its own.
#[derive(Clone, Copy)]
struct Numbered(u64);

impl BuildHasher for Numbered {
    type Hasher = FoldHasher;

    ghost build_hasher = { λ s. folding.initial };

    fn build_hasher(&self) -> FoldHasher {
        FoldHasher::default()
    }
}

/// A text weighs its number of bytes.
#[derive(Clone, Copy)]
struct ByLength;

impl WeightScale<u64, &'static str> for ByLength {
    ghost weight = { λ _ _ value. length value.now };

    fn weight(&self, _key: &u64, value: &&'static str) -> usize {
        value.len()
    }
}

type Texts<'a> = CLruCache<u64, &'static str, Numbered, ByLength, &'a Rationed<Global>>;

#[test]
fn a_cache_lends_what_it_was_made_with(rt: HostRuntime) {
    let heap = Rationed::new(rt.alloc());
    equal!(rt; lent_by_made(&heap), Some((7, 3, 2)));
}

fn lent_by_made(heap: &Rationed<Global>) -> Option<(u64, usize, u64)> {
    let config = CLruCacheConfig::new(room(4))
        .with_hasher(Numbered(7))
        .with_memory(1)
        .with_scale(ByLength);
    match CLruCache::with_config(heap, config) {
        Ok(cache) => Some(lent_by(&cache)),
        Err(_) => None,
    }
}

/// The number of the hash builder, the weight of a text, and the requests of the allocator.
fn lent_by(cache: &Texts) -> (u64, usize, u64) {
    (
        cache.hasher().0,
        cache.scale().weight(&1, &"abc"),
        cache.allocator().requests(),
    )
}

#[derive(Drop, PartialEq, Eq, Hash)]
struct Name(u64);

#[test]
fn a_map_prints_nothing_of_its_entries(rt: HostRuntime) {
    let map: LinkedHashMap<Name, Name, DefaultState, Global> = LinkedHashMap::new(
        rt.alloc(),
        3,
        DefaultState,
    );
    equal!(rt; shows(rt.alloc(), &map, "LinkedHashMap { len: 0, capacity: 3 }"), Ok(true));
}

#[test]
fn the_allocator_prints_its_counts(rt: HostRuntime) {
    let heap = Rationed::new(rt.alloc());
    equal!(rt; counts_are_shown(rt.alloc(), &heap), Ok((7, true)));
}

fn counts_are_shown(alloc: Global, heap: &Rationed<Global>) -> Result<(u64, bool), AllocError> {
    drop(Box::new(heap, 7u64));
    let held = Box::new(heap, 7u64)?;
    let text = "Rationed { requests: 2, refused: 0, blocks: 1, held_bytes: 8 }";
    Ok((*held, shows(alloc, heap, text) == Ok(true)))
}
