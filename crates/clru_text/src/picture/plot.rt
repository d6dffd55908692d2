//! What a picture shows, whatever its capacities count.

use std::alloc::Allocator;
use std::num::NonZeroUsize;

/// A miss ratio over the capacities, as parts of a whole.
#[derive(Drop)]
pub struct PlotLine<A: Allocator> {
    /// How the style calls it.
    pub class: &'static str,

    /// How the legend calls it.
    pub name: &'static str,

    /// What the ratios are parts of.
    pub whole: usize,

    /// The part at the first capacity.
    pub start: usize,

    /// From which capacity on it is which part, the least capacity first.
    pub steps: Vec<(usize, usize), A>,

    /// The part that first requests alone have: it misses at each capacity.
    pub floor: usize,

    /// The capacities that were named, each with its part.
    pub marks: Vec<(usize, usize), A>,
}

/// What stands in the picture beside the table.
#[derive(Drop)]
pub struct Plot<A: Allocator> {
    /// How many requests and distinct keys there are.
    pub requests: usize,
    pub distinct: usize,

    /// Of how many keys one was read.
    pub one_in: NonZeroUsize,

    /// How many requests came before them and are not counted.
    pub after: Option<NonZeroUsize>,

    /// What capacities count.
    pub unit: &'static str,

    /// The first and the last capacity.
    pub ends: (usize, usize),

    /// The lines. The ratios of the first one are written above it.
    pub lines: Vec<PlotLine<A>, A>,

    /// What every policy misses at least, where it is asked for.
    pub below: Option<PlotLine<A>>,

    /// The least possible misses at a capacity, where they are asked for.
    pub least: Option<Vec<(usize, usize), A>>,
}
