//! What programs do with other caches, as far as no clause tells it, and a watched cache.

use crate::plain::room;
use clru::CLruCache;
use clru_uses::idioms::{self, Used};
use clru_uses::watched::Watched;
use ration::equal;
use std::alloc::Global;

#[test]
fn idioms_do_what_they_say(rt: HostRuntime) {
    // A page in use is found.
    equal!(rt; texts_of(rt.alloc()), (None, Some(7), Some(7), None));
    // A size changes.
    equal!(rt; changes_of(rt.alloc()), (true, true, false, true, 5));
    // A watched cache knows what others miss.
    equal!(rt; counts_of(rt.alloc()), Some(((1, 6), true)));
}

/// The texts of a page that is in use.
type Texts = (Option<u64>, Option<u64>, Option<u64>, Option<u64>);

fn texts_of(alloc: Global) -> Texts {
    texts_in_use(&mut CLruCache::new(alloc, room(2)))
}

/// The texts of a page that is requested before it is put, and thrice after, the last time too late.
fn texts_in_use(pages: &mut CLruCache<u64, Used>) -> Texts {
    let none = idioms::text_in_use(pages, 1, 100, 10);
    let _ = pages.put(1, Used { text: 7, time: 100 });
    (
        none,
        idioms::text_in_use(pages, 1, 110, 10),
        idioms::text_in_use(pages, 1, 120, 10),
        idioms::text_in_use(pages, 1, 131, 10),
    )
}

type Changes = (bool, bool, bool, bool, usize);

fn changes_of(alloc: Global) -> Changes {
    changes(&mut CLruCache::with_scale(alloc, room(10), idioms::BySize))
}

/// Whether a page was stored, it and the other changed, and not one that is not held, nor to a size that is too large; and the size.
fn changes(sizes: &mut idioms::Sizes) -> Changes {
    let mut stored = true;
    for (page, size) in [(1, 1), (2, 3), (3, 1)] {
        stored = sizes.put_with_weight_dropping(page, size).is_ok() && stored;
    }
    let changed = matches!(idioms::change_size(sizes, &1, 2), Ok(true));
    let absent = matches!(idioms::change_size(sizes, &9, 2), Ok(true));
    let heavy = idioms::change_size(sizes, &2, 10).is_err() && !sizes.contains(&2);
    (stored, changed, absent, heavy, sizes.size())
}

/// The hits and misses of a loop, and whether other capacities miss as often as they should.
fn counts_of(alloc: Global) -> Option<((usize, usize), bool)> {
    match Watched::new(alloc, room(2)) {
        Ok(mut watched) => Some((counts(&mut watched), misses(alloc, &watched))),
        Err(_) => None,
    }
}

/// The misses of that loop at the capacities 1, 2 and so on.
static MISSES: &[usize] = &[7, 6, 3, 3];

fn misses(alloc: Global, watched: &Watched) -> bool {
    let mut capacity = 0usize;
    for misses in MISSES {
        capacity = capacity.saturating_add(1);
        if watched.misses_at(alloc, room(capacity)).ok() != Some(*misses) {
            return false;
        }
    }
    true
}

/// The hits and misses of a loop over three pages, and once more over the last one but one.
fn counts(watched: &mut Watched) -> (usize, usize) {
    for page in [1, 2, 3, 1, 2, 3, 2] {
        let _ = watched.text_of(page);
    }
    (watched.hits, watched.misses)
}
