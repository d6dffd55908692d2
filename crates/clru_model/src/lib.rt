//! The model of a cache, over lists alone: the definitions that contracts cite, their laws and lemmas.
//!
//! `specs/` defines entry lists, requests, schedules and runs of calls; the contracts of the crates above cite these. `proofs/` has
//! what is true of them, for proofs above to cite. A law is a function that does nothing; its contract states the law.
//!
//! The crate also has what a cache takes besides its capacity, and the errors of a refused put. A scale gives the weight of a pair.
//! A hash builder hashes keys if no other is given. A refused put says why, and gives back what it was given or what a closure
//! returned. No call of this crate takes memory.
#![tactic(auto)]

mod error;
mod hasher;
mod laws;
mod weight;

pub use error::{PutError, TryPutError};
pub use hasher::DefaultState;
pub use laws::{
    law_ages, law_bounds, law_by_position, law_distances, law_floor, law_growth,
    law_growth as law_greater_capacity, law_inclusion, law_least, law_longest_fit, law_parts,
    law_requests, law_schedules_by_position, law_size_bound, law_sizes, law_spans_by_position,
};
pub use weight::{WeightScale, ZeroWeightScale};
