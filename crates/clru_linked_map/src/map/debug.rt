//! What `{:?}` prints of a map: counts, and nothing of keys and values.

use crate::map::LinkedHashMap;
use std::alloc::Allocator;
use std::fmt;
use std::hash::{BuildHasher, Hash};

impl<K: Eq + Hash, V, S: BuildHasher, A: Allocator + Copy> fmt::Debug
    for LinkedHashMap<K, V, S, A> {
    fn fmt<W: fmt::Write>(&self, f: &mut fmt::Formatter<W>) -> fmt::Result {
        f.debug_struct("LinkedHashMap")
            .field("len", &self.len())
            .field("capacity", &self.capacity())
            .finish()
    }
}
