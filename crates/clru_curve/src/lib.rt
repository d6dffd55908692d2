//! The misses of LRU at every capacity, from one pass over a list of requests.
//!
//! Each number is proved to be `misses` of the definitions by which `replay` is proved; they mention no cache.
//!
//! A pass notes for each key the number of its latest request, in a hash table, and a bit for each request,
//! which is set if that request is the latest of its key. The distance of a request is the number of bits after the one
//! of its key; a Fenwick tree over the blocks counts them. A request costs a look-up, and steps that grow as the
//! logarithm of the number of requests. Bits stand in blocks, and blocks without a set bit are dropped now and then, a step for each,
//! so memory grows with the distinct keys.
//!
//! If keys weigh something, a sized pass does the same with a size instead of each bit, and sums instead of numbers of bits. It
//! drops the sizes of earlier requests, so these grow with the distinct keys too; each request whose key came before takes 16 bytes.
//!
//! `split` divides a budget among several caches, by their curves.
#![tactic(auto)]

mod aged;
mod ahead;
mod curve;
mod debug;
mod fetches;
mod idle;
mod latest;
mod list;
mod numbered;
mod pass;
mod position;
mod seen;
mod sized;
mod splits;
mod tree;

pub use aged::AgedPass;
pub use clru_list::NoMemory;
pub use clru_model::{
    DefaultState, WeightScale, law_ages, law_bounds, law_distances, law_parts, law_sizes,
    law_spans_by_position,
};
pub use curve::MissCurve;
pub use idle::IdlePass;
pub use list::miss_curve;
pub use pass::DistancePass;
pub use position::PositionPass;
pub use sized::{
    SizedAgedPass, SizedCurve, SizedIdlePass, SizedPass, SizedPositionPass, SizedRequestError,
    Step, sized_curve,
};
pub use splits::{Class, Curve, law_split, split};
pub use std::num::NonZeroUsize;
