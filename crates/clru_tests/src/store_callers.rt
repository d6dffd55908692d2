//! Callers of the store, over a source that gives each key below 100 its double, and fails at the others.
ghost use Rattle.std.specs.Prelude.{◌≡◌, ◌*◌, [], Some, ⊤};
ghost use Rattle.std.specs.Cmp.Rules.{comparing};
ghost use Rattle.std.proofs.Common.{rules};

use crate::plain::room;
use clru::{CLruCache, DefaultState, NonZeroUsize, WeightScale, ZeroWeightScale};
use clru_through::{ByPromise, Source, Through};
use clru_uses::clocked::{Pages, pages_of, text_within};
use clru_uses::of_stores::changing::{Tickets, ticket_of};
use clru_uses::of_stores::listening::forgotten_for;
use clru_uses::of_stores::loads::{are_all_held, fetches_of_all};
use clru_uses::of_stores::parts::{made_again, store_before};
use clru_uses::of_stores::tiers::{Tier, value_through_two};
use clru_uses::of_stores::{
    fetches_of, got, got_both, got_twice, load_beside, room_of, twice, value_of,
};
use ration::equal;
use std::alloc::Global;
use std::process::Abort;

#[derive(Drop)]
struct Doubles;

impl Source<u64, u64, ()> for Doubles {
    ghost value = { λ _ key. Some (2 * key) };

    ghost fetches = { λ _ _ _ _. ⊤ };

    fn fetch(&mut self, key: &u64) -> Result<u64, ()> {
        if *key < 100 { Ok(2 * *key) } else { Err(()) }
    }

    ghost same = { Prim.search (rules, comparing) };
}

type Store = Through<u64, u64, (), Doubles>;

/// A store of so many values. It takes no memory yet.
fn store_of(alloc: Global, capacity: NonZeroUsize) -> Store {
    Through::new(CLruCache::new(alloc, capacity), Doubles)
}

#[test]
fn callers_of_a_store_get_its_values(rt: HostRuntime) {
    let mut store = store_of(rt.alloc(), NonZeroUsize::MIN);
    use_store(&rt, &mut store);
}

fn use_store(rt: &impl Abort, store: &mut Store) {
    equal!(rt; values(store), (Ok(6), Ok((8, 8)), Some((10, 12)), Some((14, 14)), None));
    equal!(rt; fetches(store), (Ok(1), Ok(0), Err(()), 0));
    equal!(rt; failures(store), (Err(Some(18)), Err(None), Ok(())));
}

/// A value, or a failed fetch.
type Fetched<T> = Result<T, ()>;

fn values(
    store: &mut Store,
) -> (
    Fetched<u64>,
    Fetched<(u64, u64)>,
    Option<(u64, u64)>,
    Option<(u64, u64)>,
    Option<u64>,
) {
    (
        value_of(store, 3),
        twice(store, 4),
        got_both(store, 5, 6),
        got_twice(store, 7),
        got(store, 100),
    )
}

fn fetches(store: &mut Store) -> (Fetched<u64>, Fetched<u64>, Fetched<u64>, usize) {
    (
        fetches_of(store, 9),
        fetches_of(store, 9),
        fetches_of(store, 100),
        room_of(store),
    )
}

/// What is held of another key where a load fails, of one that is held and of one that is not; and a load.
fn failures(
    store: &mut Store,
) -> (
    Result<(), Option<u64>>,
    Result<(), Option<u64>>,
    Result<(), Option<u64>>,
) {
    (
        load_beside(store, 100, 9),
        load_beside(store, 100, 10),
        load_beside(store, 10, 9),
    )
}

#[test]
fn a_store_fetches_what_a_replay_misses(rt: HostRuntime) {
    let mut store = made_again(store_before(rt.alloc(), room(2), Doubles));
    equal!(rt; fetches_of_both(&mut store), (Some(4), None));
}

fn fetches_of_both(store: &mut Store) -> (Option<usize>, Option<usize>)
    requires { store.old.cache.entries ≡ [] }
{
    let first = fetches_of_all(store, &[1, 2, 1, 3, 2]);
    store.clear();
    (first, fetches_of_all(store, &[1, 100]))
}

/// A page weighs its number.
#[derive(Clone, Copy)]
struct ByNumber;

impl WeightScale<u64, u64> for ByNumber {
    ghost weight = { λ _ page _. page };

    fn weight(&self, page: &u64, _value: &u64) -> usize {
        *page as usize
    }
}

#[test]
fn a_store_by_size_holds_what_is_light(rt: HostRuntime) {
    let cache = CLruCache::with_scale(rt.alloc(), room(6), ByNumber);
    let mut store = Through::new(cache, Doubles);
    equal!(rt; (are_all_held(&mut store, &[1, 2, 1, 3]), store.len()), (true, 2));
    store.clear();
    equal!(rt; are_all_held(&mut store, &[1, 6]), false);
}

// A page weighs its number: the third drops both others, and the last is too heavy.
#[test]
fn what_a_load_drops_is_counted(rt: HostRuntime) {
    let cache = CLruCache::with_scale(rt.alloc(), room(6), ByNumber);
    let mut store = Through::new(cache, Doubles);
    let numbers = [1, 2, 1, 5, 6].map(|page| forgotten_for(&mut store, page));
    equal!(rt; numbers, [Ok(0), Ok(0), Ok(0), Ok(2), Ok(0)]);
    equal!(rt; forgotten_for(&mut store, 100), Err(()));
}

#[test]
fn a_value_comes_through_two_stores(rt: HostRuntime) {
    let source = Tier {
        store: store_of(rt.alloc(), NonZeroUsize::MIN),
    };
    let mut store = Through::new(CLruCache::new(rt.alloc(), NonZeroUsize::MIN), source);
    equal!(rt; both_values(&mut store), (Ok(8), Ok(8)));
}

type Tiers = Through<u64, u64, (), Tier<(), Doubles, ZeroWeightScale>>;

fn both_values(store: &mut Tiers) -> (Fetched<u64>, Fetched<u64>) {
    (value_through_two(store, 4), value_through_two(store, 4))
}

#[test]
fn a_source_may_give_another_value_each_time(rt: HostRuntime) {
    let cache = CLruCache::new(rt.alloc(), NonZeroUsize::MIN);
    let mut store = Through::new(cache, Tickets { given: 0 });
    equal!(rt; tickets(&mut store), (Ok(5), Ok(5), Ok(6), Err(())));
}

fn tickets(
    store: &mut Through<u64, u64, (), Tickets, DefaultState, ZeroWeightScale, Global, ByPromise>,
) -> (Fetched<u64>, Fetched<u64>, Fetched<u64>, Fetched<u64>) {
    let (first, again) = (ticket_of(store, 4), ticket_of(store, 4));
    store.clear();
    (
        first,
        again,
        ticket_of(store, 4),
        ticket_of(store, u64::MAX),
    )
}

#[test]
fn a_text_is_fetched_again_when_it_is_old(rt: HostRuntime) {
    let mut pages = pages_of(rt.alloc(), NonZeroUsize::MIN);
    for (page, now, fetched) in [
        (1, 5, Some(5)),
        (1, 15, Some(5)),
        (1, 16, Some(16)),
        (0, 16, None),
        (1, 3, Some(16)),
    ] {
        equal!(rt; fetched_at(&mut pages, page, now), fetched, now);
    }
}

/// When the text of a page was fetched that is at most 10 old.
fn fetched_at(pages: &mut Pages, page: u64, now: u64) -> Option<u64> {
    Some(text_within(pages, page, now, 10).ok()?.at)
}
