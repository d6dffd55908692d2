//! Keys that own memory.

use crate::plain::room;
use clru::{CLruCache, NonZeroUsize};
use clru_uses::texts::{Looked, look, looks_at};
use clru_uses::weighted;
use ration::equal;
use std::alloc::Global;

#[test]
fn looks_are_counted(rt: HostRuntime) {
    equal!(rt; counts(&mut CLruCache::new(rt.alloc(), NonZeroUsize::MIN), rt.alloc()), true);
    // A page that was looked at stays.
    equal!(rt; stay(&mut CLruCache::new(rt.alloc(), room(2)), rt.alloc()), (Some(1), None));
}

/// How often texts were looked at.
type Looks = CLruCache<String, u64>;

fn counts(looks: &mut Looks, alloc: Global) -> bool {
    for (page, times) in [("/", 1), ("/", 2), ("/about", 1), ("/", 1)] {
        if look(looks, alloc, page) != Looked::Counted(times)
            || looks_at(looks, page) != Some(times)
        {
            return false;
        }
    }
    true
}

/// What is held of two pages after a third, where the older one was looked at last.
fn stay(looks: &mut Looks, alloc: Global) -> (Option<u64>, Option<u64>) {
    look(looks, alloc, "/");
    look(looks, alloc, "/about");
    looks_at(looks, "/");
    look(looks, alloc, "/help");
    (looks_at(looks, "/"), looks_at(looks, "/about"))
}

// The third page drops the first; the fourth is as heavy as the capacity.
#[test]
fn pages_within_bytes_are_counted(rt: HostRuntime) {
    let mut pages = weighted::pages_of(rt.alloc(), room(10));
    let mut counts = weighted::Counts::default();
    equal!(rt; sizes(&mut pages, &mut counts, rt.alloc()), [Some(3), Some(3), Some(4), Some(4), Some(10)]);
    equal!(rt; (counts.hits, counts.evicted, counts.evicted_bytes), (1, 1, 3));
    equal!(rt; (counts.too_heavy, counts.no_memory), (1, 0));
}

fn sizes(
    pages: &mut weighted::Pages,
    counts: &mut weighted::Counts,
    alloc: Global,
) -> [Option<usize>; 5] {
    ["/ab", "/ab", "/abc", "/def", "/abcdefghi"].map(|name| weighted::size_of(
        pages, counts, alloc, name,
    ).ok())
}
