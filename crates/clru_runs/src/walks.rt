//! The calls that walk over the entries, made.
ghost use Rattle.std.specs.Prelude.{◌≡◌, reverse};
ghost use Rattle.clru_runs.specs.Step.{value_at};

use clru::{CLruCache, WeightScale};
use std::alloc::Allocator;
use std::hash::{BuildHasher, Hash};

pub(crate) fn nth<K: Eq + Hash, V: Copy, S: BuildHasher, W: WeightScale<K, V>, A: Allocator + Copy>(
    cache: &CLruCache<K, V, S, W, A>,
    index: usize,
) -> Option<V>
    ensures { result ≡ value_at index cache.now.entries }
{
    match cache.iter().nth(index) {
        Some((_, value)) => Some(*value),
        None => None,
    }
}

pub(crate) fn nth_back<
    K: Eq + Hash,
    V: Copy,
    S: BuildHasher,
    W: WeightScale<K, V>,
    A: Allocator + Copy,
>(cache: &CLruCache<K, V, S, W, A>, index: usize) -> Option<V>
    ensures { result ≡ value_at index (reverse cache.now.entries) }
{
    match cache.iter().nth_back(index) {
        Some((_, value)) => Some(*value),
        None => None,
    }
}
