//! A linked hash map with a capacity: entries in order of recency, found by the hash of their keys.
//!
//! The entries lie in a place list of `clru_list`, under a hash index with a chain for each bucket. A clause sees a map as its
//! entries, the most recently used first, its capacity, its hash builder, and for how many entries memory was found.
//!
//! A caller hashes a key once, and hands the hash to the calls that look for it. The caller must also keep the keys distinct,
//! because a key that is put in is not looked for.
//!
//! `KeyTable` is such a map that drops nothing. `BytesMap` has such an index too: it keeps strings of bytes in one buffer, each with a value, and
//! drops none.
#![tactic(auto)]

mod announced;
mod bytes_map;
mod bytes_table;
mod hash_index;
mod indexed_list;
mod key_table;
mod map;

pub use bytes_map::BytesMap;
pub use key_table::KeyTable;
pub use map::{LinkedHashMap, TOGETHER};
