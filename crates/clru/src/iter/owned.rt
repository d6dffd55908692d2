//! The iterator that hands the pairs of a cache out.
ghost use Rattle.std.specs.Prelude.{◌≡◌, length, Some, IfSome};
ghost use Rattle.std.specs.Iterator.{UpTo, YieldsFirst, YieldsLast, at_most, item_count};
ghost use Rattle.std.specs.Iterator.SizeHint.{IsWithinCount};

use crate::cache::CLruCache;
use clru_model::{DefaultState, WeightScale, ZeroWeightScale};
use std::alloc::{Allocator, Global};
use std::hash::{BuildHasher, Hash};
use std::iter::FusedIterator;
use std::marker::Model;

/// The pairs of a consumed cache, the most recently used first. A clause sees the list of the remaining ones, which are
/// dropped with the iterator.
pub struct CLruCacheIntoIter<
    K: Eq + Hash,
    V,
    S: BuildHasher = DefaultState,
    W: WeightScale<K, V> = ZeroWeightScale,
    A: Allocator + Copy = Global,
> {
    pub(crate) cache: CLruCache<K, V, S, W, A>,
}

impl<K: Eq + Hash + Drop, V: Drop, S: BuildHasher + Drop, W: WeightScale<K, V> + Drop, A> Drop
    for CLruCacheIntoIter<K, V, S, W, A>
where
    A: Allocator + Copy,
{
    fn drop(self) {
        let CLruCacheIntoIter { cache } = self;
        drop(cache);
    }
}

impl<K: Eq + Hash, V, S: BuildHasher, W: WeightScale<K, V>, A: Allocator + Copy> Model
    for CLruCacheIntoIter<K, V, S, W, A> {
    ghost use Rattle.std.specs.Prelude.{List};

    ghost Value = { List (K × V) };

    ghost view = { λ it. it.cache.entries };
}

impl<K: Eq + Hash + Drop, V: Drop, S: BuildHasher + Drop, W: WeightScale<K, V> + Drop, A> Iterator
    for CLruCacheIntoIter<K, V, S, W, A>
where
    A: Allocator + Copy,
{
    type Item = (K, V);

    ghost next_gives = { YieldsFirst (λ rest. rest) };

    ghost remaining = { item_count (λ rest. rest) };

    fn next(&mut self) -> Option<(K, V)> {
        self.cache.pop_front()
    }

    fn size_hint(&self) -> (usize, Option<usize>)
        ensures lower { IsWithinCount result.0 (at_most (length self.now)) }
        ensures upper { IfSome result.1 (UpTo (at_most (length self.now))) }
        ensures value { result ≡ (length self.now, Some (length self.now)) }
    {
        let left = self.cache.len();
        (left, Some(left))
    }
}

impl<
    K: Eq + Hash + Drop,
    V: Drop,
    S: BuildHasher + Drop,
    W: WeightScale<K, V> + Drop,
    A,
> DoubleEndedIterator for CLruCacheIntoIter<K, V, S, W, A>
where
    A: Allocator + Copy,
{
    ghost next_back_gives = { YieldsLast (λ rest. rest) };

    fn next_back(&mut self) -> Option<(K, V)> {
        self.cache.pop_back()
    }
}

impl<
    K: Eq + Hash + Drop,
    V: Drop,
    S: BuildHasher + Drop,
    W: WeightScale<K, V> + Drop,
    A,
> ExactSizeIterator for CLruCacheIntoIter<K, V, S, W, A>
where
    A: Allocator + Copy,
{
    fn len(&self) -> usize {
        CLruCache::len(&self.cache)
    }
}

impl<
    K: Eq + Hash + Drop,
    V: Drop,
    S: BuildHasher + Drop,
    W: WeightScale<K, V> + Drop,
    A,
> FusedIterator for CLruCacheIntoIter<K, V, S, W, A>
where
    A: Allocator + Copy,
{}
