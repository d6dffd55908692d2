//! Pages within a number of bytes, in front of a slow source, with counts of what became of them.
ghost use Rattle.std.specs.Prelude.{◌≡◌, [], length, IfOk, IfSome};
ghost use Rattle.std.specs.Map.{lookup};
ghost use Rattle.std.specs.Str.{bytes_eq};
ghost use Rattle.std.specs.String.{string_bytes};

use crate::scale::ByLength;
use clru::{CLruCache, DefaultState, NonZeroUsize, PutError};
use std::alloc::{AllocError, Global};

/// Pages by name. Each takes its bytes, and 1, of the capacity.
pub type Pages = CLruCache<String, Vec<u8>, DefaultState, ByLength>;

/// What became of the requests so far.
#[derive(Clone, Copy, Debug, Default, PartialEq, Eq)]
pub struct Counts {
    pub hits: u64,
    pub evicted: u64,
    pub evicted_bytes: usize,
    pub too_heavy: u64,
    pub no_memory: u64,
}

/// Makes the cache. It takes no memory yet.
pub fn pages_of(alloc: Global, capacity: NonZeroUsize) -> Pages
    ensures { result.entries ≡ [] }
{
    CLruCache::with_scale(alloc, capacity, ByLength)
}

/// Returns the number of a page's bytes. The page is fetched if it is not held.
pub fn size_of(
    pages: &mut Pages,
    counts: &mut Counts,
    alloc: Global,
    name: &str,
) -> Result<usize, AllocError>
    ensures held { IfOk result (λ size. IfSome (lookup (λ key. bytes_eq name.now (string_bytes key)) pages.old.entries)
        (λ page. size ≡ length page.items)) }
{
    if let Some(page) = pages.get(name) {
        counts.hits = counts.hits.saturating_add(1);
        return Ok(page.len());
    }
    let page = fetch(alloc, name)?;
    let size = page.len();
    let put = pages.put_with_weight(name.to_string(alloc)?, page, |_key, page| {
        counts.evicted = counts.evicted.saturating_add(1);
        counts.evicted_bytes = counts.evicted_bytes.saturating_add(page.len());
    });
    match put {
        Ok(_) => {}
        Err(PutError::TooHeavy(..)) => counts.too_heavy = counts.too_heavy.saturating_add(1),
        Err(PutError::NoMemory(..)) => counts.no_memory = counts.no_memory.saturating_add(1),
    }
    Ok(size)
}

/// Fetches a page, whose bytes are here those of its name.
fn fetch(alloc: Global, name: &str) -> Result<Vec<u8>, AllocError> {
    Vec::from_slice(alloc, name.as_bytes())
}
