//! A put of a value that the caller has already.
ghost use Rattle.std.specs.Prelude.{◌≡◌, IfErr, OnOk};
ghost use Rattle.clru_through.specs.Steps.{IsPassed, IsStored};
ghost use Rattle.clru_through.specs.Store.{AllKeep};

use crate::answer::Loaded;
use crate::source::Fetch;
use crate::store::Through;
use crate::store::load::taken;
use clru::WeightScale;
use std::alloc::Allocator;
use std::hash::{BuildHasher, Hash};

impl<
    K: Eq + Hash,
    V,
    E,
    R: Fetch<K, V, E, M>,
    S: BuildHasher,
    W: WeightScale<K, V>,
    A: Allocator + Copy,
    M,
> Through<K, V, E, R, S, W, A, M> {
    /// Puts the value of the key, which the caller has already and shows to be the source's, and makes it the most recently
    /// used. Nothing is fetched.
    ///
    /// What does not fit beside it is dropped, as in a load. A value that is too heavy, and one for which no memory was found,
    /// comes back, and no entry changes.
    /// Cost: that of a `put_with_weight`.
    pub fn put(&mut self, key: K, value: V) -> Result<(), V>
    where
        K: Drop,
        V: Drop,
        requires sourced { R.keeps (R.promised self.old.source key) value }
        ensures held { OnOk result
            (IsStored K.eq (W.weight self.old.cache.scale) self.old.cache key value self.new.cache) }
        ensures refused { IfErr result (λ back.
            IsPassed K.eq (W.weight self.old.cache.scale) self.old.cache key value back self.new.cache) }
        ensures source { self.new.source ≡ self.old.source }
        ensures from_source { AllKeep R.keeps (R.promised self.new.source) self.new.cache.entries }
    {
        match taken(&mut self.cache, key, value) {
            Loaded::Held { .. } => Ok(()),
            Loaded::Passed(value) => Err(value),
        }
    }
}
