//! The walks over a cache.
ghost use Rattle.std.specs.Prelude.{◌≡◌, ◌<◌, Some, length, slice_get};
ghost use Rattle.std.specs.Borrow.{sem};
ghost use Rattle.std.specs.Map.Iter.{deref_pair_mut};
ghost use Rattle.clru.specs.WalkLends.{lends_at};
ghost use Rattle.clru.specs.Walks.{IsAtStart, cursor_name};

use crate::cache::CLruCache;
use crate::cursor::CLruCacheIterMut;
use crate::iter::CLruCacheIter;
use crate::iter::owned::CLruCacheIntoIter;
use clru_model::{WeightScale, ZeroWeightScale};
use std::alloc::Allocator;
use std::hash::{BuildHasher, Hash};

impl<K: Eq + Hash, V, S: BuildHasher, W: WeightScale<K, V>, A> CLruCache<K, V, S, W, A>
where
    A: Allocator + Copy,
{
    /// Returns an iterator over the pairs, the most recently used first. The order stays as it is.
    /// Cost: no hash and no comparison, of the call and of each step.
    pub fn iter(&self) -> CLruCacheIter<'_, K, V, A>
        ensures { result ≡ self.now.entries }
    {
        CLruCacheIter {
            items: self.map.iter(),
        }
    }
}

impl<K: Eq + Hash, V, S: BuildHasher, A: Allocator + Copy> CLruCache<K, V, S, ZeroWeightScale, A> {
    /// Returns a cursor over the entries, which lends each value for writing. Keys and order stay.
    /// Cost: no hash and no comparison, of the call and of each step.
    ///
    /// ```rust
    /// let mut cursor = sizes.iter_mut();
    /// while let Some(size) = cursor.next() {
    ///     *size /= 2;
    /// }
    /// ```
    pub fn iter_mut(&mut self) -> CLruCacheIterMut<'_, K, V, S, A>
        ensures same_cache { cursor_name result ≡ self.entry.ghost_name }
        ensures start { IsAtStart result self.old }
    {
        let end = self.len();
        CLruCacheIterMut {
            cache: self,
            done: 0,
            end,
        }
    }

    /// Lends the entry at an index, with its value for writing. It is quick for a walk that goes up by one.
    pub(crate) fn entry_at(&mut self, index: usize) -> (&K, &mut V)
        requires { index < length self.old.entries }
        ensures* lends { sem 𝓛 (lends_at K.row V.row S.row A.row S.Hasher.row K.Hash S.BuildHasher S.Hasher.Hasher
            A.Allocator ⟦<ZeroWeightScale as WeightScale<K, V>>⟧ self.entry index result.1) }
        ensures entry { slice_get self.old.entries index ≡ Some (deref_pair_mut result) }
    {
        self.map.entry_at(index)
    }

    /// Lends the entry at an index, with its value for writing. It is quick for a walk that goes down by one.
    pub(crate) fn entry_at_back(&mut self, index: usize) -> (&K, &mut V)
        requires { index < length self.old.entries }
        ensures* lends { sem 𝓛 (lends_at K.row V.row S.row A.row S.Hasher.row K.Hash S.BuildHasher S.Hasher.Hasher
            A.Allocator ⟦<ZeroWeightScale as WeightScale<K, V>>⟧ self.entry index result.1) }
        ensures entry { slice_get self.old.entries index ≡ Some (deref_pair_mut result) }
    {
        self.map.entry_at_back(index)
    }
}

impl<'a, K: Eq + Hash, V, S: BuildHasher, W: WeightScale<K, V>, A> IntoIterator
    for &'a CLruCache<K, V, S, W, A>
where
    A: Allocator + Copy,
{
    type Item = (&'a K, &'a V);

    type IntoIter = CLruCacheIter<'a, K, V, A>;

    ghost into_iter_gives = { λ cache it. it ≡ cache.now.entries };

    fn into_iter(self) -> CLruCacheIter<'a, K, V, A> {
        self.iter()
    }
}

impl<
    K: Eq + Hash + Drop,
    V: Drop,
    S: BuildHasher + Drop,
    W: WeightScale<K, V> + Drop,
    A,
> IntoIterator for CLruCache<K, V, S, W, A>
where
    A: Allocator + Copy,
{
    type Item = (K, V);

    type IntoIter = CLruCacheIntoIter<K, V, S, W, A>;

    ghost into_iter_gives = { λ cache it. it ≡ cache.entries };

    /// Consumes the cache and returns an iterator over its pairs, the most recently used first.
    fn into_iter(self) -> CLruCacheIntoIter<K, V, S, W, A> {
        CLruCacheIntoIter { cache: self }
    }
}
