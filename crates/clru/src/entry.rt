//! `EntryMut`: an entry that is lent for writing its value.
ghost use Rattle.std.specs.Prelude.{◌<◌, length};

pub(crate) mod methods;

use crate::cache::CLruCache;
use clru_model::{DefaultState, ZeroWeightScale};
use std::alloc::{Allocator, Global};
use std::hash::{BuildHasher, Hash};

/// An end of the entry list.
#[derive(Clone, Copy, Debug)]
pub enum End {
    Front,
    Back,
}

/// The most or the least recently used entry of a cache, lent for writing its value and reading its key. The order stays.
///
/// ```rust
/// pub fn double_last(sizes: &mut CLruCache<u64, u64>) -> Option<u64> {
///     let mut last = sizes.front_mut()?;
///     *last = last.saturating_mul(2);
///     Some(*last.key())
/// }
/// ```
#[derive(Drop)]
pub struct EntryMut<
    'a,
    K: Eq + Hash,
    V,
    S: BuildHasher = DefaultState,
    A: Allocator + Copy = Global,
> {
    // The whole cache, and not its value alone: a caller learns what his cache ends as only from the reference to it.
    pub(crate) cache: &'a mut CLruCache<K, V, S, ZeroWeightScale, A>,
    pub(crate) end: End,
    ghost some: { 0 < length cache.now.entries },
}
