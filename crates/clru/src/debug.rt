//! What `{:?}` prints of a cache, of its walks and of what it is made from: counts, and nothing of keys and values.

use crate::cache::CLruCache;
use crate::config::CLruCacheConfig;
use crate::cursor::CLruCacheIterMut;
use crate::entry::EntryMut;
use crate::iter::CLruCacheIter;
use crate::iter::owned::CLruCacheIntoIter;
use clru_model::WeightScale;
use std::alloc::Allocator;
use std::fmt;
use std::hash::{BuildHasher, Hash};

impl<K: Eq + Hash, V, S: BuildHasher, W: WeightScale<K, V>, A: Allocator + Copy> fmt::Debug
    for CLruCache<K, V, S, W, A> {
    fn fmt<O: fmt::Write>(&self, f: &mut fmt::Formatter<O>) -> fmt::Result {
        f.debug_struct("CLruCache")
            .field("len", &self.len())
            .field("weight", &self.weight())
            .field("capacity", &self.capacity())
            .finish()
    }
}

impl<K, V, S, W> fmt::Debug for CLruCacheConfig<K, V, S, W> {
    fn fmt<O: fmt::Write>(&self, f: &mut fmt::Formatter<O>) -> fmt::Result {
        f.debug_struct("CLruCacheConfig")
            .field("capacity", &self.capacity.get())
            .field("reserve", &self.reserve)
            .finish_non_exhaustive()
    }
}

impl<'a, K, V, A: Allocator + Copy> fmt::Debug for CLruCacheIter<'a, K, V, A> {
    fn fmt<O: fmt::Write>(&self, f: &mut fmt::Formatter<O>) -> fmt::Result {
        f.debug_struct("CLruCacheIter")
            .field("len", &self.len())
            .finish()
    }
}

impl<K: Eq + Hash, V, S: BuildHasher, W: WeightScale<K, V>, A: Allocator + Copy> fmt::Debug
    for CLruCacheIntoIter<K, V, S, W, A> {
    fn fmt<O: fmt::Write>(&self, f: &mut fmt::Formatter<O>) -> fmt::Result {
        f.debug_struct("CLruCacheIntoIter")
            .field("len", &CLruCache::len(&self.cache))
            .finish()
    }
}

impl<'a, K: Eq + Hash, V, S: BuildHasher, A: Allocator + Copy> fmt::Debug
    for CLruCacheIterMut<'a, K, V, S, A> {
    fn fmt<O: fmt::Write>(&self, f: &mut fmt::Formatter<O>) -> fmt::Result {
        f.debug_struct("CLruCacheIterMut")
            .field("len", &self.len())
            .finish()
    }
}

impl<'a, K: Eq + Hash, V, S: BuildHasher, A: Allocator + Copy> fmt::Debug
    for EntryMut<'a, K, V, S, A> {
    fn fmt<O: fmt::Write>(&self, f: &mut fmt::Formatter<O>) -> fmt::Result {
        f.debug_struct("EntryMut")
            .field("end", &self.end)
            .finish_non_exhaustive()
    }
}
