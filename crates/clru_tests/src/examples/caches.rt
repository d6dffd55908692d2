//! Caches of the sizes of pages.

use crate::plain::{Sizes, peek, room};
use clru::{CLruCache, NonZeroUsize, TryPutError};
use clru_uses::budget::{Within, remember_square};
use clru_uses::hasher::FnvState;
use clru_uses::lends::double_last;
use clru_uses::limits::{TooLarge, grow};
use clru_uses::pages::{forget, halve, remember};
use clru_uses::seed::for_keys_of_others;
use clru_uses::words::count_words;
use ration::{Rationed, equal};
use std::alloc::{AllocError, Global};
use std::hash::{BuildHasher, Hasher};
use std::process::Abort;

#[test]
fn the_heap_bounds_a_cache_without_bounds(rt: HostRuntime) {
    let heap = Rationed::new(rt.alloc());
    heap.limit_bytes(4096);
    let mut squares = CLruCache::new(&heap, NonZeroUsize::MAX);
    equal!(rt; (remembers_some(&mut squares), heap.held_bytes() <= 4096), (true, true));
}

/// Whether a thousand squares are remembered in turn, and some of them are held at the end.
fn remembers_some(squares: &mut Within) -> bool {
    for number in 0..1000 {
        if remember_square(squares, number).is_err() {
            return false;
        }
    }
    squares.len() > 10 && squares.len() < 100 && squares.peek(&999) == Some(&998001)
}

// The values are those of the page of the hash's authors.
#[test]
fn it_is_the_hash_that_it_is_named_for(rt: HostRuntime) {
    for (bytes, hash) in [
        (b"".as_slice(), 0xcbf29ce484222325),
        (b"a".as_slice(), 0xaf63dc4c8601ec8c),
        (b"foobar".as_slice(), 0x85944171f73967e8),
    ] {
        let mut state = FnvState.build_hasher();
        state.write(bytes);
        equal!(rt; state.finish(), hash, bytes);
    }
}

#[test]
fn a_hash_builder_of_its_own_changes_no_answer(rt: HostRuntime) {
    equal!(rt; (holds_by_own_hash(rt.alloc()), holds_by_seed(&rt)), (true, true));
}

fn holds_by_own_hash(alloc: Global) -> bool {
    holds_the_last(&mut CLruCache::with_hasher(alloc, NonZeroUsize::MIN, FnvState))
}

fn holds_by_seed(rt: &HostRuntime) -> bool {
    match for_keys_of_others(rt, rt.alloc(), NonZeroUsize::MIN) {
        Ok(mut sizes) => holds_the_last(&mut sizes),
        Err(_) => false,
    }
}

fn holds_the_last<S: BuildHasher>(sizes: &mut CLruCache<u64, u64, S>) -> bool {
    let stored = sizes.put(1, 10).is_ok() && sizes.put(2, 20).is_ok();
    stored && !sizes.contains(&1) && sizes.contains(&2)
}

#[test]
fn callers_change_sizes(rt: HostRuntime) {
    let mut sizes = CLruCache::new(rt.alloc(), room(2));
    change(&rt, &mut sizes);
}

/// Runs callers on one cache of two sizes, which is emptied between them: a test that owns a cache is dear to prove.
fn change<R: Abort + AllocGlobal>(rt: &R, sizes: &mut Sizes) {
    // The last size is doubled.
    equal!(rt; doubles(sizes), (None, Some(2), Some(10), Some(40)));
    // The page that is looked at last stays.
    equal!(rt; remembers_two(sizes), true);
    equal!(rt; forgets_the_other(sizes), (Some(10), Ok(Some((2, 20))), None));
    // A page is forgotten, and the others are halved.
    equal!(rt; remembers_two(sizes), true);
    equal!(rt; forgets(sizes), (Some(10), None, Some(10)));
    // A sum that is too large is refused.
    let too_large = Err(TryPutError::Failed(TooLarge));
    equal!(rt; grows(sizes), (Ok(10), Ok(30), too_large, Some(30)));
    // Of three pages the last two stay.
    equal!(rt; extends(rt, sizes), Ok(2));
}

fn doubles(sizes: &mut Sizes) -> (Option<u64>, Option<u64>, Option<u64>, Option<u64>) {
    let none = double_last(sizes);
    let _ = sizes.put(1, 10);
    let _ = sizes.put(2, 20);
    let last = double_last(sizes);
    (none, last, peek(sizes, 1), peek(sizes, 2))
}

fn remembers_two(sizes: &mut Sizes) -> bool {
    sizes.clear();
    remember(sizes, 1, 10) == Ok(None) && remember(sizes, 2, 20) == Ok(None)
}

/// What is remembered, or the pair that is refused.
type Remembered = Result<Option<(u64, u64)>, (u64, u64)>;

fn forgets_the_other(sizes: &mut Sizes) -> (Option<u64>, Remembered, Option<u64>) {
    (
        sizes.get(&1).copied(),
        remember(sizes, 3, 30),
        peek(sizes, 2),
    )
}

fn forgets(sizes: &mut Sizes) -> (Option<u64>, Option<u64>, Option<u64>) {
    let size = forget(sizes, 1);
    halve(sizes);
    (size, peek(sizes, 1), peek(sizes, 2))
}

type Grown = Result<u64, TryPutError<u64, u64, TooLarge>>;

fn grows(sizes: &mut Sizes) -> (Grown, Grown, Grown, Option<u64>) {
    sizes.clear();
    (
        grow(sizes, 1, 10),
        grow(sizes, 1, 20),
        grow(sizes, 1, u64::MAX),
        peek(sizes, 1),
    )
}

fn extends<R: Abort + AllocGlobal>(rt: &R, sizes: &mut Sizes) -> Result<usize, AllocError> {
    let pages = Vec::from_array(rt.alloc(), [(1, 10), (2, 20), (3, 30)])?;
    assert_eq!(rt; sizes.extend(pages), Ok(()));
    Ok(sizes.len())
}

#[test]
fn words_are_counted(rt: HostRuntime) {
    let list = [("three", 2), ("two", 3), ("one", 1)];
    equal!(rt; counts_are(rt.alloc(), 3, "one two two three two three", &list), true);
    // The word that was seen longest ago is forgotten.
    equal!(rt; counts_are(rt.alloc(), 2, "one two one three two", &[("two", 1), ("three", 1)]), true);
}

fn counts_are(
    alloc: Global,
    capacity: usize,
    text: &'static str,
    list: &[(&'static str, u64)],
) -> bool {
    match count_words(alloc, room(capacity), text) {
        Ok(counts) => is(&counts, list),
        Err(_) => false,
    }
}

/// Whether the cache holds these words and no other, the most recently used first.
fn is(counts: &CLruCache<&'static str, u64>, list: &[(&'static str, u64)]) -> bool {
    let mut walk = counts.iter();
    for (word, count) in list {
        if walk.next() != Some((word, count)) {
            return false;
        }
    }
    walk.next().is_none()
}
