//! A cursor over very many entries.

use crate::plain::{Sizes, room};
use clru::CLruCache;
use clru_uses::walks::{ends, halve_by_both_ends};
use ration::equal;

/// A step from an end of the list at each entry would take minutes.
#[test]
fn a_cursor_steps_alike_however_many_entries_there_are(rt: HostRuntime) {
    let mut cache = CLruCache::new(rt.alloc(), room(200_000));
    equal!(rt; halves_many(&mut cache, 200_000), (200_000, Some((199_999, 1)), Some((0, 1))));
}

/// How many of so many pages of size 2 are held, and the ends, once each is halved.
fn halves_many(cache: &mut Sizes, number: u64) -> (u64, Option<(u64, u64)>, Option<(u64, u64)>) {
    for page in 0..number {
        let _ = cache.put(page, 2);
    }
    halve_by_both_ends(cache);
    let (first, last) = ends(cache);
    (cache.len() as u64, first, last)
}
