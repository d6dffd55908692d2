//! Caches of numbers over memory that is counted.

use crate::cache::empty;
use crate::pairs::Hashing;
use crate::world::World;
use clru::{CLruCache, WeightScale};
use ration::Rationed;
use std::alloc::Global;

/// A cache of numbers.
pub(crate) type Of<S, W, A> = CLruCache<usize, usize, S, W, A>;

/// One over what is counted.
pub(crate) type Counted<W> = Of<Hashing, W, &'static Rationed<Global>>;

/// A value weighs the number that it is.
#[derive(Clone, Copy)]
pub(crate) struct ByNumber;

impl WeightScale<usize, usize> for ByNumber {
    ghost weight = { λ _ _ value. value };

    fn weight(&self, _key: &usize, value: &usize) -> usize {
        *value
    }
}

/// An empty cache of numbers.
pub(crate) fn made<W: WeightScale<usize, usize> + Copy>(
    world: &'static World,
    capacity: usize,
    reserve: usize,
    scale: W,
) -> Option<Counted<W>> {
    empty(&world.heap, world.hashing(), capacity, reserve, scale)
}
