//! A store whose source and whose callers take memory where the cache does, so that each request of theirs is refused too.
ghost use Rattle.std.specs.Prelude.{ℕ, List, Some, length, replicate, ⊤};
ghost use Rattle.std.specs.Cmp.Rules.{comparing};
ghost use Rattle.std.proofs.Common.{rules};

use crate::plain::room;
use clru::{CLruCache, DefaultState, WeightScale};
use clru_through::{Loaded, Source, Through};
use ration::{Rationed, equal};
use std::alloc::{AllocError, Global};
use std::marker::Model;

type Key<'a> = String<&'a Rationed<Global>>;

/// Bytes. Contracts see the bytes alone, so that two fetches of one key can give the same value.
#[derive(Drop)]
struct Page<'a> {
    bytes: Vec<u8, &'a Rationed<Global>>,
}

impl<'a> Model for Page<'a> {
    ghost Value = { List ℕ };

    ghost view = { λ page. page.bytes.items };
}

/// A page weighs the number of its bytes.
#[derive(Clone, Copy)]
struct ByBytes;

impl<'a, K> WeightScale<K, Page<'a>> for ByBytes {
    ghost weight = { λ _ _ page. length page };

    fn weight(&self, _key: &K, page: &Page<'a>) -> usize {
        page.bytes.len()
    }
}

/// Gives pages of three bytes, and fails where memory is refused.
#[derive(Drop)]
struct Pages<'a> {
    heap: &'a Rationed<Global>,
}

impl<'a> Source<Key<'a>, Page<'a>, AllocError> for Pages<'a> {
    ghost value = { λ _ _. Some (replicate 3 0) };

    ghost fetches = { λ _ _ _ _. ⊤ };

    fn fetch(&mut self, _key: &Key<'a>) -> Result<Page<'a>, AllocError> {
        let bytes = vec![in self.heap; 0; 3]?;
        Ok(Page { bytes })
    }

    ghost same = { Prim.search (rules, comparing) };
}

type Store<'a> = Through<
    Key<'a>,
    Page<'a>,
    AllocError,
    Pages<'a>,
    DefaultState,
    ByBytes,
    &'a Rationed<Global>,
>;

/// Loads a few keys, and goes on where memory is refused. Returns how many values of three bytes were passed on, and how many
/// keys or values could not be made.
fn loads(heap: &Rationed<Global>) -> (u64, u64) {
    let cache = CLruCache::with_scale(heap, room(20), ByBytes);
    loads_all(heap, &mut Through::new(cache, Pages { heap }))
}

fn loads_all<'a>(heap: &'a Rationed<Global>, store: &mut Store<'a>) -> (u64, u64) {
    let mut passed = 0u64;
    let mut failed = 0u64;
    for letter in ["a", "b", "a", "c", "d", "b"] {
        match loads_one(heap, store, letter) {
            Load::Held => {}
            Load::Passed => passed = passed.saturating_add(1),
            Load::Failed => failed = failed.saturating_add(1),
        }
    }
    (passed, failed)
}

#[derive(Clone, Copy, Debug, PartialEq)]
enum Load {
    Held,
    Passed,
    Failed,
}

fn loads_one<'a>(heap: &'a Rationed<Global>, store: &mut Store<'a>, letter: &str) -> Load {
    let Ok(key) = String::from_str(heap, letter) else {
        return Load::Failed;
    };
    match store.load(key) {
        Ok(Loaded::Held { .. }) => match store.peek(letter) {
            Some(_) => Load::Held,
            None => Load::Passed,
        },
        Ok(Loaded::Passed(page)) => passed_on(&page.bytes),
        Err(_) => Load::Failed,
    }
}

fn passed_on(bytes: &[u8]) -> Load {
    if bytes == [0, 0, 0].as_slice() {
        Load::Passed
    } else {
        Load::Held
    }
}

#[test]
fn nothing_is_lost_where_memory_is_refused(rt: HostRuntime) {
    let mut met = 0;
    for n in 0..40u64 {
        let heap = Rationed::new(rt.alloc());
        heap.refuse_one_after(n);
        let (passed, failed) = loads(&heap);
        let refused = heap.refused();
        equal!(rt; (passed.saturating_add(failed), heap.blocks()), (refused, 0), n);
        met = met.max(refused.saturating_mul(n + 1));
    }
    // There was a request to refuse, and the last runs met none.
    equal!(rt; met > 0 && met < 40, true, met);
}

#[test]
fn a_hit_by_a_text_makes_no_key(rt: HostRuntime) {
    let heap = Rationed::new(rt.alloc());
    equal!(rt; (load_and_hits(&heap), heap.blocks()), ((Load::Held, (true, false, 0, true)), 0));
}

fn load_and_hits(heap: &Rationed<Global>) -> (Load, (bool, bool, u64, bool)) {
    let cache = CLruCache::with_scale(heap, room(20), ByBytes);
    let mut store = Through::new(cache, Pages { heap });
    (loads_one(heap, &mut store, "a"), hits(heap, &mut store))
}

/// Whether two texts are found, how many requests that makes, and whether there is a first entry.
fn hits(heap: &Rationed<Global>, store: &mut Store) -> (bool, bool, u64, bool) {
    let before = heap.requests();
    let (held, absent) = (store.hit("a").is_some(), store.hit("b").is_some());
    let requests = heap.requests().wrapping_sub(before);
    (held, absent, requests, store.front().is_some())
}
