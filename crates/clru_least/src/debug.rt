//! What `{:?}` prints of a foresight, a pass and a floor: how many requests it knows, and nothing of the keys.

use crate::floor_pass::FloorPass;
use crate::floors::Floor;
use crate::foresight::Foresight;
use crate::pass::ForesightPass;
use crate::size_floor::SizeFloor;
use std::alloc::Allocator;
use std::fmt;

impl<'a, K: Eq, A: Allocator + Copy> fmt::Debug for Foresight<'a, K, A> {
    fn fmt<W: fmt::Write>(&self, f: &mut fmt::Formatter<W>) -> fmt::Result {
        f.debug_struct("Foresight")
            .field("requests", &self.keys.len())
            .finish()
    }
}

impl<K: Eq, A: Allocator + Copy> fmt::Debug for ForesightPass<K, A> {
    fn fmt<W: fmt::Write>(&self, f: &mut fmt::Formatter<W>) -> fmt::Result {
        f.debug_struct("ForesightPass")
            .field("requests", &self.later.len())
            .finish()
    }
}

impl<K: Eq, A: Allocator + Copy> fmt::Debug for FloorPass<K, A> {
    fn fmt<W: fmt::Write>(&self, f: &mut fmt::Formatter<W>) -> fmt::Result {
        f.debug_struct("FloorPass")
            .field("requests", &self.requests)
            .finish()
    }
}

impl<A: Allocator> fmt::Debug for Floor<A> {
    fn fmt<W: fmt::Write>(&self, f: &mut fmt::Formatter<W>) -> fmt::Result {
        f.debug_struct("Floor")
            .field("requests", &self.requests)
            .finish()
    }
}

impl<A: Allocator> fmt::Debug for SizeFloor<A> {
    fn fmt<W: fmt::Write>(&self, f: &mut fmt::Formatter<W>) -> fmt::Result {
        f.debug_struct("SizeFloor")
            .field("requests", &self.requests)
            .finish()
    }
}
