//! A weighted LRU cache: entries in order of recency, each with a weight, of which the least recently used go first.
//!
//! The number of entries plus their total weight never exceeds the capacity. If a cache is made without a scale, each pair
//! weighs nothing, and the capacity bounds the number of entries.
//!
//! Contracts see a cache as its entry list, the most recently used pair first, with the capacity, the scale and the number
//! of places, for which memory was found. A put asks for memory only if its key is not held, no entry has to go and no
//! place is free. If memory is refused, the put gives back its arguments, and the entries stay.
//!
//! The entries lie in a linked list, in the order of recency, under a hash index with a chain for each bucket. A
//! look-up costs one hash and a walk along one chain. A put of a new key walks along one chain more, and for each entry that
//! it drops it hashes that key too, and walks along its chain.
#![tactic(auto)]

mod cache;
mod config;
mod cursor;
mod debug;
mod entry;
mod iter;
mod laws;
mod refused;
mod replays;

pub use cache::{CLruCache, Put};
pub use clru_list::NoMemory;
pub use clru_model::{
    DefaultState, PutError, TryPutError, WeightScale, ZeroWeightScale, law_ages, law_by_position,
    law_greater_capacity, law_growth, law_inclusion, law_longest_fit, law_requests,
    law_schedules_by_position, law_size_bound, law_sizes,
};
pub use config::CLruCacheConfig;
pub use cursor::CLruCacheIterMut;
pub use entry::EntryMut;
pub use iter::CLruCacheIter;
pub use iter::owned::CLruCacheIntoIter;
pub use laws::law_dropped;
pub use refused::out_of_memory;
pub use replays::{Replay, replay, replay_slice};
pub use std::num::NonZeroUsize;
