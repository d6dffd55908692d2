//! A change of the capacity.
ghost use Rattle.std.specs.Prelude.{◌≡◌};
ghost use Rattle.std.specs.Int.NonZero.{non_zero_usize_get};
ghost use Rattle.clru_model.specs.Entries.{fit};
ghost use Rattle.clru.specs.Cache.{cache};

use crate::cache::CLruCache;
use crate::cache::room::shrink;
use clru_model::WeightScale;
use std::alloc::Allocator;
use std::hash::{BuildHasher, Hash};
use std::num::NonZeroUsize;

impl<K: Eq + Hash, V, S: BuildHasher, W: WeightScale<K, V>, A> CLruCache<K, V, S, W, A>
where
    A: Allocator + Copy,
{
    /// Sets the capacity, and drops only the entries that do not fit, the least recently used one first.
    ///
    /// Takes no memory and gives none back: the places stay, even if they are more than the new capacity.
    /// Cost: one hash, a walk along one chain and a weighing for each entry that goes.
    ///
    /// ```rust
    /// sizes.resize(NonZeroUsize::MIN);
    /// ```
    pub fn resize(&mut self, capacity: NonZeroUsize)
    where
        K: Drop,
        V: Drop,
        ensures { let size = non_zero_usize_get capacity in
            self.new ≡ cache (fit (W.weight self.old.scale) size self.old.entries) size self.old.scale self.old.places }
    {
        let capacity = capacity.get();
        shrink(
            &mut self.map,
            &self.scale,
            &mut self.total,
            capacity,
            &mut |_, _| {},
        );
        self.map.resize(capacity);
    }
}
