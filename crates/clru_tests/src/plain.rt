//! What the tests share: caches of numbers.

use clru::{CLruCache, DefaultState, NonZeroUsize, ZeroWeightScale};
use ration::Rationed;
use std::alloc::Global;

/// A cache of numbers over an allocator that refuses.
pub(crate) type Plain<'a> = CLruCache<
    u64,
    u64,
    DefaultState,
    ZeroWeightScale,
    &'a Rationed<Global>,
>;

/// The requests of a growth that makes the index: for the places of the list, and for the buckets with the links of their chains.
pub(crate) const REQUESTS: u64 = 2;

/// Room for so many, and for one where that is 0. A test that asks so may not fail, and so has nothing to let go of.
pub(crate) fn room(n: usize) -> NonZeroUsize {
    NonZeroUsize::MIN.saturating_add(n.saturating_sub(1))
}

/// The sizes of pages.
pub(crate) type Sizes = CLruCache<u64, u64>;

/// The size of a page. What is lent goes at once: a function in which it stays is dear to prove.
pub(crate) fn peek(sizes: &Sizes, page: u64) -> Option<u64> {
    sizes.peek(&page).copied()
}
