//! What `{:?}` prints of a store: counts, and nothing of keys, values and source.

use crate::source::Fetch;
use crate::store::Through;
use clru::WeightScale;
use std::alloc::Allocator;
use std::fmt;
use std::hash::{BuildHasher, Hash};

impl<
    K: Eq + Hash,
    V,
    E,
    R: Fetch<K, V, E, M>,
    S: BuildHasher,
    W: WeightScale<K, V>,
    A: Allocator + Copy,
    M,
> fmt::Debug for Through<K, V, E, R, S, W, A, M> {
    fn fmt<O: fmt::Write>(&self, f: &mut fmt::Formatter<O>) -> fmt::Result {
        f.debug_struct("Through")
            .field("len", &self.len())
            .field("weight", &self.weight())
            .field("capacity", &self.capacity())
            .finish()
    }
}
