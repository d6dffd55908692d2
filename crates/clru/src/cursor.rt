//! The cursor over the entries of a cache, which lends one value at a time for writing.
pub(crate) mod steps;

use crate::cache::CLruCache;
use clru_model::{DefaultState, ZeroWeightScale};
use std::alloc::{Allocator, Global};
use std::hash::{BuildHasher, Hash};

/// A cursor over a cache. It passes the entries one by one from either end, and lends their values. What is written to a
/// value is then in the cache; keys and order stay.
#[derive(Drop)]
pub struct CLruCacheIterMut<
    'a,
    K: Eq + Hash,
    V,
    S: BuildHasher = DefaultState,
    A: Allocator + Copy = Global,
> {
    pub(crate) cache: &'a mut CLruCache<K, V, S, ZeroWeightScale, A>,
    // The entries from the one number up to the other are left.
    pub(crate) done: usize,
    pub(crate) end: usize,
}
