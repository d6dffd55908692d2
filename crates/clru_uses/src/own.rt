//! A cache with a scale and a hash builder of one's own.
ghost use Rattle.std.specs.Prelude.{◌≡◌, ◌≤◌, ◌↔◌, [], Some, nat_eq, length, OnOk, OnErr};
ghost use Rattle.std.specs.Map.{lookup};
ghost use Rattle.clru_model.specs.Refusals.{IsTooHeavy};

use crate::hasher::FnvState;
use crate::scale::ByLength;
use clru::{CLruCache, CLruCacheConfig, NonZeroUsize, PutError};
use std::alloc::Global;

/// Pages, within a number of bytes.
pub type Pages = CLruCache<u64, Vec<u8>, FnvState, ByLength>;

/// Makes the cache. Without a reserve it asks for no memory, so nothing can be refused.
pub fn empty(alloc: Global, capacity: NonZeroUsize) -> Pages
    ensures { result.entries ≡ [] }
{
    let config = CLruCacheConfig::new(capacity)
        .with_hasher(FnvState)
        .with_scale(ByLength);
    match CLruCache::with_config(alloc, config) {
        Ok(pages) => pages,
        Err(_) => unreachable!(),
    }
}

/// Holds a page. A look-up then finds it; one that is as long as the capacity, or longer, is refused.
pub fn hold(pages: &mut Pages, page: u64, bytes: Vec<u8>) -> Result<(), PutError<u64, Vec<u8>>>
    ensures held { OnOk result (lookup (nat_eq page) pages.new.entries ≡ Some bytes) }
    ensures kept { OnErr result (pages.new.entries ≡ pages.old.entries) }
    ensures too_long { IsTooHeavy result ↔ (pages.old.capacity ≤ length bytes.items) }
{
    match pages.put_with_weight(page, bytes, |_, _| {}) {
        Ok(_) => Ok(()),
        Err(refusal) => Err(refusal),
    }
}
