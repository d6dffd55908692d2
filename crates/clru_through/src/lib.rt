//! A read-through store: a source of values, with a cache before it.
//!
//! Each held value is the source's value for its key. If a key is held, nothing is fetched. Otherwise its value is fetched once,
//! and put into the cache, or passed on to the caller if it is too heavy or no memory was found. A value that was dropped is
//! fetched again at its next request.
//!
//! If values are no function of the key, as those of files, the source promises of them what it can, and each held value keeps
//! that promise.
//!
//! The store relies only on the cache's contract.
#![tactic(auto)]

mod answer;
mod debug;
mod laws;
mod source;
mod store;

pub use answer::{Answer, Loaded};
pub use laws::law_loads;
pub use source::{ByPromise, ByValue, Fetch, Source};
pub use store::Through;
