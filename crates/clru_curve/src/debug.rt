//! What `{:?}` prints of passes and curves: counts, and nothing of the keys.

use crate::aged::AgedPass;
use crate::curve::MissCurve;
use crate::idle::IdlePass;
use crate::pass::DistancePass;
use crate::sized::{SizedAgedPass, SizedCurve, SizedIdlePass, SizedPass, SizedPositionPass};
use std::alloc::Allocator;
use std::fmt;
use std::hash::{BuildHasher, Hash};

impl<K: Eq + Hash, S: BuildHasher, A: Allocator + Copy> fmt::Debug for DistancePass<K, S, A> {
    fn fmt<W: fmt::Write>(&self, f: &mut fmt::Formatter<W>) -> fmt::Result {
        f.debug_struct("DistancePass")
            .field("requests", &self.latest.requests)
            .field("distinct", &self.positions.len())
            .finish()
    }
}

impl<K: Eq + Hash, S: BuildHasher, A: Allocator + Copy> fmt::Debug for IdlePass<K, S, A> {
    fn fmt<W: fmt::Write>(&self, f: &mut fmt::Formatter<W>) -> fmt::Result {
        f.debug_struct("IdlePass")
            .field("requests", &self.latest.requests)
            .field("distinct", &self.seen.len())
            .field("limit", &self.limit)
            .finish()
    }
}

impl<K: Eq + Hash, S: BuildHasher, A: Allocator + Copy> fmt::Debug for SizedPass<K, S, A> {
    fn fmt<W: fmt::Write>(&self, f: &mut fmt::Formatter<W>) -> fmt::Result {
        f.debug_struct("SizedPass")
            .field("requests", &self.latest.requests)
            .field("size", &self.size)
            .field("distinct", &self.positions.len())
            .finish()
    }
}

impl<K: Eq + Hash, S: BuildHasher, A: Allocator + Copy> fmt::Debug for SizedIdlePass<K, S, A> {
    fn fmt<W: fmt::Write>(&self, f: &mut fmt::Formatter<W>) -> fmt::Result {
        f.debug_struct("SizedIdlePass")
            .field("requests", &self.latest.requests)
            .field("size", &self.size)
            .field("distinct", &self.seen.len())
            .field("limit", &self.limit)
            .finish()
    }
}

impl<K: Eq, A: Allocator + Copy> fmt::Debug for SizedPositionPass<K, A> {
    fn fmt<W: fmt::Write>(&self, f: &mut fmt::Formatter<W>) -> fmt::Result {
        f.debug_struct("SizedPositionPass")
            .field("requests", &self.latest.requests)
            .field("size", &self.size)
            .finish()
    }
}

impl<K: Eq + Hash, S: BuildHasher, A: Allocator + Copy> fmt::Debug for AgedPass<K, S, A> {
    fn fmt<W: fmt::Write>(&self, f: &mut fmt::Formatter<W>) -> fmt::Result {
        f.debug_struct("AgedPass")
            .field("requests", &self.requests())
            .finish()
    }
}

impl<K: Eq + Hash, S: BuildHasher, A: Allocator + Copy> fmt::Debug for SizedAgedPass<K, S, A> {
    fn fmt<W: fmt::Write>(&self, f: &mut fmt::Formatter<W>) -> fmt::Result {
        f.debug_struct("SizedAgedPass")
            .field("requests", &self.requests())
            .field("size", &self.size())
            .finish()
    }
}

impl<A: Allocator> fmt::Debug for MissCurve<A> {
    fn fmt<W: fmt::Write>(&self, f: &mut fmt::Formatter<W>) -> fmt::Result {
        f.debug_struct("MissCurve")
            .field("distinct", &self.distinct())
            .finish()
    }
}

impl<A: Allocator> fmt::Debug for SizedCurve<A> {
    fn fmt<W: fmt::Write>(&self, f: &mut fmt::Formatter<W>) -> fmt::Result {
        f.debug_struct("SizedCurve")
            .field("requests", &self.requests())
            .field("size", &self.size())
            .field("distinct_size", &self.distinct_size())
            .field("greatest_weight", &self.greatest_weight())
            .finish()
    }
}
