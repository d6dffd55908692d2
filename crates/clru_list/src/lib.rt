//! A doubly linked list in one vector of nodes: each item has a place number, which it keeps until it is removed.
//!
//! Contracts see a list as its entries, the pairs of a place and an item, front first, with the capacity, the most entries
//! that it may hold, and the places, the number of entries for which memory was found. The places of the entries differ
//! pairwise. A push asks for memory only if each place is taken. If memory is refused, it gives the item back, and the list
//! stays as it was.
//!
//! Free places are linked through their own nodes. Each call takes the same short time whatever the length is, but for
//! `clear`, `retain`, `retain_mut` and a push that grows.
#![tactic(auto)]

mod cursor;
mod debug;
mod error;
mod fingers;
mod halves;
mod iter;
mod links;
mod list;
mod narrow;
mod packed;

pub use cursor::FixedSizeListIterMut;
pub use error::{NoMemory, PushError};
// A crate can name a list in a contract only if the types of its fields are exported. `NARROW` and `NOWHERE` serve the index of
// `clru_linked_map`, and `NARROW` the chains of `clru_least`, too.
#[doc(hidden)]
pub use fingers::{Finger, Fingers};
#[doc(hidden)]
pub use halves::{NARROW, Upper};
pub use iter::FixedSizeListIter;
#[doc(hidden)]
pub use links::{Links, NOWHERE, Node};
pub use list::FixedSizeList;
pub use packed::PackedNumbers;
