//! Makers that find memory for their entries, and those that are refused.

use crate::plain::{Plain, REQUESTS, room};
use clru::{CLruCache, CLruCacheConfig, NoMemory, NonZeroUsize};
use ration::{Rationed, equal};
use std::alloc::Global;

/// A maker that takes a reserve.
#[derive(Clone, Copy, Debug)]
enum Maker {
    WithMemory,
    WithConfig,
}

const RESERVING: [Maker; 2] = [Maker::WithMemory, Maker::WithConfig];

/// Makes a cache with a reserve. A refused configuration is let go.
fn makes<'a>(
    heap: &'a Rationed<Global>,
    maker: Maker,
    capacity: NonZeroUsize,
    reserve: usize,
) -> Result<Plain<'a>, NoMemory> {
    match maker {
        Maker::WithMemory => CLruCache::with_memory(heap, capacity, reserve),
        Maker::WithConfig => {
            // The reserve that is set last holds.
            let config = CLruCacheConfig::new(capacity)
                .with_memory(9)
                .with_memory(reserve);
            CLruCache::with_config(heap, config).map_err(|_| NoMemory)
        }
    }
}

#[test]
fn each_refusal_leaves_no_block(rt: HostRuntime) {
    let four = room(4);
    for maker in RESERVING {
        for n in 0..=REQUESTS {
            let heap = Rationed::new(rt.alloc());
            heap.refuse_after(n);
            let made = makes(&heap, maker, four, 3).is_ok();
            // Nothing is asked again.
            equal!(rt;
                (made, heap.requests(), heap.refused() == 0, heap.blocks()),
                (n == REQUESTS, REQUESTS.min(n + 1), made, 0),
                (maker, n)
            );
        }
    }
}
