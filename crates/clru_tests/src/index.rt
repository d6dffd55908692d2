//! The index of a cache past the number of places that 4 bytes can name. No cache of a test reaches it, so the limit is lowered here.

use crate::kept::Kept;
use ration::{Rationed, equal};
use std::alloc::Global;
use std::test::Fail;

/// A request that no growth makes.
const NONE: u64 = 9;

/// The limit, the first capacity, the keys that are put then, the second capacity, how many requests of the next put are met before
/// all are refused, and then: the bytes of these requests, and those that are held at last.
type Row = (usize, usize, u64, usize, u64, u64, u64);

// A growth past the limit asks for buckets that can name the new places, for these, and for the upper halves of their links.
static GROWTHS: &[Row] = &[
    // (here the index for all 600 is asked for, and then that for 256)
    (255, 600, 64, 600, 0, 30720, 48576),
    (255, 600, 64, 600, 1, 32768, 48576),
    (255, 600, 64, 600, 2, 34816, 48576),
    (255, 200, 200, 600, 0, 24576, 48576),
    (255, 200, 200, 600, 1, 43776, 48576),
    (255, 200, 200, 600, 2, 48576, 48576),
    // wide buckets for narrow places: those for all 256 pairs are made for the seventeenth
    (255, 256, 64, 256, 0, 8192, 16384),
    (255, 256, 64, 256, 1, 10240, 16384),
    // on both sides of the limit, with nothing refused
    (255, 200, 150, 200, NONE, 0, 9472),
    (0, 200, 150, 200, NONE, 0, 14144),
    (600, 200, 150, 200, NONE, 0, 9472),
    (usize::MAX, 200, 150, 200, NONE, 0, 9472),
    (0, 200, 200, 600, NONE, 48576, 48576),
    (600, 200, 200, 600, NONE, 31488, 31488),
    (usize::MAX, 200, 200, 600, NONE, 31488, 31488),
];

#[test]
fn an_index_grows_past_its_limit(rt: HostRuntime) -> Result<(), Fail> {
    for row in GROWTHS {
        let heap = Rationed::new(rt.alloc());
        equal!(rt; (grows(&heap, *row), heap.blocks()), ((true, row.5, true, row.6), 0), *row);
    }
    Ok(())
}

/// Whether a put that meets a refusal leaves the pairs, the bytes of its requests, whether all is well once nothing is refused, and the
/// bytes that are held then.
fn grows(heap: &Rationed<Global>, row: Row) -> (bool, u64, bool, u64) {
    let (limit, first, filled, capacity, refused, _, _) = row;
    let mut kept = Kept::new(heap, first, limit);
    let full = kept.fill(0, filled);
    kept.resize(capacity);
    let before = heap.requested_bytes();
    heap.refuse_after(refused);
    let stored = kept.put(filled, filled.wrapping_add(10));
    let requested = heap.requested_bytes().wrapping_sub(before);
    heap.refuse_none();
    let left = stored == (refused == NONE) && kept.holds(0, filled.wrapping_add(stored as u64));
    let end = (capacity as u64).wrapping_add(100);
    let more = kept.fill(filled.wrapping_add(stored as u64), end);
    (
        full && left,
        requested,
        more && kept.holds(100, end),
        heap.held_bytes(),
    )
}
