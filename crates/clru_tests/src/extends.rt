//! The memory of `extend` and of `from_iter`: their puts ask for it one by one, and the first refusal ends them.

use crate::plain::{Plain, REQUESTS, room};
use clru::{CLruCache, DefaultState, NoMemory, NonZeroUsize};
use ration::{Rationed, equal};
use std::alloc::Global;
use std::cell::Cell;

/// Extends by the keys from `first` to before `end`, each with ten more as its value, and counts those that are drawn.
fn extends(cache: &mut Plain, first: u64, end: u64, drawn: &Cell<u64>) -> Result<(), (u64, u64)> {
    cache.extend((first..end).map(|key| {
        drawn.set(drawn.get().wrapping_add(1));
        (key, key.wrapping_add(10))
    }))
}

/// How many of nine keys go in where the memory is refused after so many requests: two growths, to 4 places and to 16.
fn stored_after(requests: u64) -> u64 {
    [0, 4, 9][(requests / REQUESTS).min(2) as usize]
}

/// How many items are drawn, requests are made, and requests are refused.
type Counts = (u64, u64, u64);

/// These counts where the memory for nine keys is refused after so many requests: none is drawn behind the refusal, and nothing
/// is asked again.
fn counts_after(requests: u64) -> Counts {
    if requests >= 2 * REQUESTS {
        return (9, requests, 0);
    }
    (
        stored_after(requests).wrapping_add(1),
        requests.wrapping_add(1),
        1,
    )
}

fn counts(heap: &Rationed<Global>, drawn: &Cell<u64>) -> Counts {
    (drawn.get(), heap.requests(), heap.refused())
}

#[test]
fn each_refusal_ends_an_extend(rt: HostRuntime) {
    // Below 68 a growth would ask for the index for all, and where that is refused once more.
    let hundred = room(100);
    for n in 0..=2 * REQUESTS {
        let heap = Rationed::new(rt.alloc());
        let stored = stored_after(n);
        let back = if stored < 9 {
            Err((stored, stored.wrapping_add(10)))
        } else {
            Ok(())
        };
        equal!(rt; (ends(&heap, hundred, n), heap.blocks()), ((back, counts_after(n)), 0), n);
    }
}

/// What comes back of an extend by nine keys that is refused memory, and its counts.
fn ends(
    heap: &Rationed<Global>,
    capacity: NonZeroUsize,
    n: u64,
) -> (Result<(), (u64, u64)>, Counts) {
    let drawn = Cell::new(0);
    heap.refuse_after(n);
    let refused = extends(&mut CLruCache::new(heap, capacity), 0, 9, &drawn);
    (refused, counts(heap, &drawn))
}

/// Counts how many there are.
struct Live<'a> {
    count: &'a Cell<u64>,
}

impl Drop for Live<'_> {
    fn drop(self) {
        let Live { count } = self;
        count.set(count.get().wrapping_sub(1));
    }
}

// What an extend replaces or drops is gone before the next item is drawn.
#[test]
fn an_extend_drops_before_it_draws(rt: HostRuntime) {
    equal!(rt; most_live_at_draws(rt.alloc()), (1, 0));
}

/// The most values there are at a draw of an item, where each key comes twice in a row, and how many are left.
fn most_live_at_draws(alloc: Global) -> (u64, u64) {
    let (live, most) = (Cell::new(0), Cell::new(0));
    extends_by_live(&mut CLruCache::new(alloc, room(1)), &live, &most);
    (most.get(), live.get())
}

fn extends_by_live<'a>(
    cache: &mut CLruCache<u64, Live<'a>>,
    live: &'a Cell<u64>,
    most: &Cell<u64>,
) {
    let _ = cache.extend((0..6u64).map(|number| {
        most.set(most.get().max(live.get()));
        live.set(live.get().wrapping_add(1));
        (number / 2, Live { count: live })
    }));
}

/// Collects the keys below `end`, each with ten more as its value, and counts those that are drawn.
fn collects<'a>(
    heap: &'a Rationed<Global>,
    end: u64,
    drawn: &Cell<u64>,
) -> Result<Plain<'a>, NoMemory> {
    CLruCache::from_iter(
        heap,
        DefaultState,
        (0..end).map(|key| {
            drawn.set(drawn.get().wrapping_add(1));
            (key, key.wrapping_add(10))
        }),
    )
}

#[test]
fn each_refusal_ends_a_from_iter(rt: HostRuntime) {
    for n in 0..=2 * REQUESTS {
        let heap = Rationed::new(rt.alloc());
        let wanted = (n == 2 * REQUESTS, counts_after(n));
        equal!(rt; (is_collected(&heap, n), heap.blocks()), (wanted, 0), n);
    }
}

/// Whether nine keys make a cache where memory is refused, and the counts.
fn is_collected(heap: &Rationed<Global>, n: u64) -> (bool, Counts) {
    let drawn = Cell::new(0);
    heap.refuse_after(n);
    let collected = collects(heap, 9, &drawn).is_ok();
    (collected, counts(heap, &drawn))
}

// The places are 4, 16, 64, 256, and then 1,000, or 1,024 where the capacity comes last. Where it is known, the index is made for
// all at 256 places, and the last growth asks once.
#[test]
fn a_thousand_items_go_in(rt: HostRuntime) {
    let heap = Rationed::new(rt.alloc());
    equal!(rt; extends_to_1000(&heap, room(1000)), (true, 1000, 5 * REQUESTS - 1));
    equal!(rt; collects_1000(&heap), (1000, 1000, 10 * REQUESTS - 1));
}

fn extends_to_1000(heap: &Rationed<Global>, capacity: NonZeroUsize) -> (bool, usize, u64) {
    let drawn = Cell::new(0);
    let mut cache = CLruCache::new(heap, capacity);
    let extended = extends(&mut cache, 0, 1000, &drawn).is_ok();
    (extended, cache.len(), heap.requests())
}

/// The number of entries, the capacity, and the requests.
fn collects_1000(heap: &Rationed<Global>) -> (usize, usize, u64) {
    let drawn = Cell::new(0);
    match collects(heap, 1000, &drawn) {
        Ok(cache) => (cache.len(), cache.capacity(), heap.requests()),
        Err(NoMemory) => (0, 0, 0),
    }
}

/// Notes its digit when it is dropped.
struct Noted<'a> {
    digit: u64,
    drops: &'a Cell<u64>,
}

impl Drop for Noted<'_> {
    fn drop(self) {
        let Noted { digit, drops } = self;
        drops.set(drops.get().wrapping_mul(10).wrapping_add(digit));
    }
}

#[test]
fn a_refused_from_iter_drops_in_order(rt: HostRuntime) {
    let heap = Rationed::new(rt.alloc());
    equal!(rt; (drops_of_seven(&heap), heap.blocks()), (1123333, 0));
}

/// The digits of seven values in the order in which they are dropped, where the fifth is refused: 1 for those left of the
/// iterator, 2 for the refused one, 3 for those that were put.
fn drops_of_seven(heap: &Rationed<Global>) -> u64 {
    let drops = Cell::new(0);
    let mut pairs = Vec::new(heap);
    for (key, digit) in [3, 3, 3, 3, 2, 1, 1].into_iter().enumerate() {
        let _ = pairs.push((
            key,
            Noted {
                digit,
                drops: &drops,
            },
        ));
    }
    heap.refuse_after(REQUESTS);
    let _ = CLruCache::from_iter(heap, DefaultState, pairs);
    drops.get()
}
