//! What a cache was made with, lent for reading.
ghost use Rattle.std.specs.Prelude.{◌≡◌};

use crate::cache::CLruCache;
use clru_model::WeightScale;
use std::alloc::Allocator;
use std::hash::{BuildHasher, Hash};

impl<K: Eq + Hash, V, S: BuildHasher, W: WeightScale<K, V>, A> CLruCache<K, V, S, W, A>
where
    A: Allocator + Copy,
{
    /// Lends the scale.
    /// Cost: a read.
    pub fn scale(&self) -> &W
        ensures { result.now ≡ self.now.scale }
    {
        &self.scale
    }

    /// Lends the hash builder. No clause says which it is, because a cache's model has none.
    /// Cost: a read.
    pub fn hasher(&self) -> &S {
        self.map.hasher()
    }

    /// Lends the allocator. No clause says which it is, because a cache's model has none.
    /// Cost: a read.
    pub fn allocator(&self) -> &A {
        self.map.allocator()
    }
}
