//! One budget for several caches: which capacities have the fewest misses together.
//!
//! Each cache has a curve, which says what it misses at every capacity. `split` chooses capacities within the budget, each a
//! multiple of a step, and no other such choice misses less in total. The definition that proves it, `IsBestSplit`, names no
//! algorithm.

mod best;
mod class;
mod curve;
mod laws;
mod row;

pub use best::split;
pub use class::Class;
pub use curve::Curve;
pub use laws::law_split;
