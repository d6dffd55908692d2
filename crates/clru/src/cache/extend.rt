//! The calls that put one item of a sequence after the other.
ghost use Rattle.std.specs.Prelude.{◌≡◌, ◌-◌, ◌^◌, [], max, length};
ghost use Rattle.std.specs.Iterator.{IsFiniteIterable};
ghost use Rattle.clru.specs.Cache.{cache};
ghost use Rattle.clru.specs.Collecting.{PutsItems, CollectsItems};

use crate::cache::CLruCache;
use clru_list::NoMemory;
use clru_model::ZeroWeightScale;
use std::alloc::Allocator;
use std::hash::{BuildHasher, Hash};
use std::num::NonZeroUsize;

impl<K: Eq + Hash, V, S: BuildHasher, A: Allocator + Copy> CLruCache<K, V, S, ZeroWeightScale, A> {
    /// Puts each of the items in turn, as `put` does.
    ///
    /// Ends at the first refused put and returns its pair. The items before it stay in the cache, and no later one is drawn.
    /// Cost: that of one `put` for each item.
    ///
    /// ```rust
    /// let pages = Vec::from_array(rt.alloc(), [(1, 10), (2, 20), (3, 30)])?;
    /// assert_eq!(rt; sizes.extend(pages), Ok(()));
    /// ```
    pub fn extend<I: IntoIterator<Item = (K, V)>>(&mut self, items: I) -> Result<(), (K, V)>
    where
        K: Drop,
        V: Drop,
        requires { IsFiniteIterable I.into_iter_gives I.IntoIter.can_next I.IntoIter.remaining items }
        ensures { (it : I.IntoIter) × I.into_iter_gives items it
            × PutsItems K.eq I.IntoIter.next_gives it self.old result self.new }
    {
        for (key, value) in items {
            match self.put(key, value) {
                Ok(done) => drop(done),
                Err(pair) => return Err(pair),
            }
        }
        Ok(())
    }

    /// Creates a cache, puts the items into it in turn, and hashes keys with `hash_builder`. Its
    /// capacity is then the number of its entries, or 1 if there is none.
    ///
    /// If memory is refused for a put, the call ends. It drops the items that are left, then the refused pair, then what was put.
    /// Cost: that of one `put` for each item.
    ///
    /// ```rust
    /// let Ok(looks) = Vec::from_array(alloc, [(1, 10), (2, 20), (1, 30)]) else {
    ///     return Err(NoMemory);
    /// };
    /// CLruCache::from_iter(alloc, hash_builder, looks)
    /// ```
    pub fn from_iter<I: IntoIterator<Item = (K, V)>>(
        alloc: A,
        hash_builder: S,
        items: I,
    ) -> Result<Self, NoMemory>
    where
        K: Drop,
        V: Drop,
        S: Drop,
        requires { IsFiniteIterable I.into_iter_gives I.IntoIter.can_next I.IntoIter.remaining items }
        ensures { (it : I.IntoIter) × I.into_iter_gives items it
            × CollectsItems K.eq I.IntoIter.next_gives it (cache [] (2 ^ 64 - 1) (record {}) 0) result }
    {
        let mut cache = CLruCache::with_hasher(alloc, NonZeroUsize::MAX, hash_builder);
        match cache.extend(items) {
            Ok(()) => {
                cache.close();
                Ok(cache)
            }
            Err(_) => Err(NoMemory),
        }
    }

    /// Makes the number of entries the capacity, or 1 if there is none.
    fn close(&mut self)
        ensures { self.new ≡ cache self.old.entries (max 1 (length self.old.entries)) self.old.scale self.old.places }
    {
        let capacity = self.map.len().max(1);
        self.map.resize(capacity);
    }
}
