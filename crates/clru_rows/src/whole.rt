//! What has to hold of a cache after each call.

use crate::cache::Any;
use crate::fault::Fault;
use crate::pairs::{Key, Value};
use crate::world::World;
use clru::WeightScale;
use std::alloc::Allocator;
use std::hash::BuildHasher;

/// The entries up to which a cache is looked through.
const MOST: usize = 100;

/// What is wrong with a cache, if anything: its walks from both ends, the look-up of each key, its size, and the blocks that its
/// pairs own.
pub fn cache_fault<S: BuildHasher, W: WeightScale<Key, Value>, A: Allocator + Copy>(
    world: &World,
    cache: &Any<S, W, A>,
    values_beside: u64,
) -> Option<Fault> {
    let len = cache.len();
    let owned = (len as u64).saturating_mul(2);
    if world.owned.blocks() != owned.saturating_add(values_beside) {
        return Some(Fault::Blocks);
    }
    if len.saturating_add(cache.weight()) > cache.capacity() {
        return Some(Fault::Size);
    }
    if len > MOST {
        return None;
    }
    let (mut count, mut is_held, mut is_alike) = (0usize, true, true);
    for (key, _) in cache {
        count = count.saturating_add(1);
        is_held = is_held && cache.contains(key);
        is_alike = is_alike && is_at(cache, key, len.saturating_sub(count));
    }
    if !is_held {
        Some(Fault::LookUp)
    } else if is_alike && count == len {
        None
    } else {
        Some(Fault::Walk)
    }
}

/// Whether a key has this index from the back.
fn is_at<S: BuildHasher, W: WeightScale<Key, Value>, A: Allocator + Copy>(
    cache: &Any<S, W, A>,
    key: &Key,
    index: usize,
) -> bool {
    match cache.iter().nth_back(index) {
        Some((other, _)) => other.number == key.number,
        None => false,
    }
}
