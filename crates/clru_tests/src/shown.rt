//! What `{:?}` prints of a cache, of its walks and of what it is made from: counts. Keys and values here print nothing
//! themselves.

mod counts;

use crate::plain::room;
use clru::{CLruCache, CLruCacheConfig, DefaultState, WeightScale, ZeroWeightScale};
use ration::{equal, shows};
use std::alloc::{AllocError, Global};

#[derive(Clone, Copy, Drop, PartialEq, Eq, Hash)]
pub(crate) struct Name(pub u64);

#[derive(Drop)]
struct Page(usize);

/// A page weighs its number.
#[derive(Drop)]
struct ByNumber;

impl WeightScale<Name, Page> for ByNumber {
    ghost weight = { λ _ _ page. page.0 };

    fn weight(&self, _name: &Name, page: &Page) -> usize {
        page.0
    }
}

type Weighed = CLruCache<Name, Page, DefaultState, ByNumber>;

type Pages = CLruCache<Name, Page>;

#[test]
fn a_cache_prints_its_counts(rt: HostRuntime) {
    let mut pages = CLruCache::with_scale(rt.alloc(), room(10), ByNumber);
    equal!(rt; is_shown(rt.alloc(), &mut pages), true);
    equal!(rt; shows(rt.alloc(), &pages.into_iter(), "CLruCacheIntoIter { len: 1 }"), Ok(true));
}

fn is_shown(alloc: Global, pages: &mut Weighed) -> bool {
    let _ = pages.put_with_weight_dropping(Name(1), Page(4));
    let text = "CLruCache { len: 1, weight: 4, capacity: 10 }";
    shows(alloc, pages, text) == Ok(true) && is_walk_shown(alloc, pages)
}

fn is_walk_shown(alloc: Global, pages: &Weighed) -> bool {
    shows(alloc, &pages.iter(), "CLruCacheIter { len: 1 }") == Ok(true)
}

#[test]
fn a_lent_entry_prints_which_end_it_is(rt: HostRuntime) {
    let mut pages = CLruCache::new(rt.alloc(), room(3));
    equal!(rt; are_lends_shown(rt.alloc(), &mut pages), Ok(true));
}

fn are_lends_shown(alloc: Global, pages: &mut Pages) -> Result<bool, AllocError> {
    let none = pages.front_mut().is_none();
    let _ = pages.put(Name(1), Page(4));
    Ok(
        none && is_front_shown(alloc, pages)?
            && is_back_shown(alloc, pages)?
            && is_cursor_shown(alloc, pages)?,
    )
}

fn is_front_shown(alloc: Global, pages: &mut Pages) -> Result<bool, AllocError> {
    match pages.front_mut() {
        Some(entry) => shows(alloc, &entry, "EntryMut { end: Front, .. }"),
        None => Ok(false),
    }
}

fn is_back_shown(alloc: Global, pages: &mut Pages) -> Result<bool, AllocError> {
    match pages.back_mut() {
        Some(entry) => shows(alloc, &entry, "EntryMut { end: Back, .. }"),
        None => Ok(false),
    }
}

fn is_cursor_shown(alloc: Global, pages: &mut Pages) -> Result<bool, AllocError> {
    let mut walk = pages.iter_mut();
    let whole = shows(alloc, &walk, "CLruCacheIterMut { len: 1 }") == Ok(true);
    walk.next();
    let end = shows(alloc, &walk, "CLruCacheIterMut { len: 0 }")?;
    Ok(whole && end)
}

#[test]
fn a_configuration_prints_its_numbers(rt: HostRuntime) {
    equal!(rt; is_configuration_shown(rt.alloc()), Ok(true));
    equal!(rt; shows(rt.alloc(), &DefaultState, "DefaultState"), Ok(true));
    equal!(rt; shows(rt.alloc(), &ZeroWeightScale, "ZeroWeightScale"), Ok(true));
}

fn is_configuration_shown(alloc: Global) -> Result<bool, AllocError> {
    let config: CLruCacheConfig<Name, Page> = CLruCacheConfig::new(room(5)).with_memory(2);
    shows(
        alloc,
        &config,
        "CLruCacheConfig { capacity: 5, reserve: 2, .. }",
    )
}
