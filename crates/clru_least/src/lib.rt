//! The least possible misses of a list of requests, and floors of what every policy misses of it.
//!
//! With room for some number of keys, some policy that knows all requests beforehand misses as few as this crate returns, and none
//! misses fewer. So beside the misses of a replay one sees how much another policy could gain at most, if it takes in each
//! requested key and no other.
//!
//! Contracts state it by schedules, the keys held before each request, and name no method. A policy that may bypass keys
//! misses no fewer than the least with room for one key more (`law_least`).
//!
//! A floor bounds every policy that starts empty and takes in requested keys only, also those that bypass keys, and also if keys have sizes. One sort serves all rooms: `floor`,
//! `FloorPass` (`law_floor`, `law_greedy_floor`).
#![tactic(auto)]

mod chains;
mod debug;
mod floor_error;
mod floor_keys;
mod floor_pass;
mod floors;
mod foresight;
mod laws;
mod next_uses;
mod pass;
mod positions;
mod reuse;
mod size_floor;

pub use clru_model::{DefaultState, WeightScale, ZeroWeightScale, law_floor, law_least};
pub use floor_error::FloorRequestError;
pub use floor_keys::floor;
pub use floor_pass::FloorPass;
pub use floors::Floor;
pub use foresight::{Foresight, least};
pub use laws::law_greedy_floor;
pub use pass::ForesightPass;
pub use size_floor::SizeFloor;
pub use std::num::NonZeroUsize;
