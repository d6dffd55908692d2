//! Part files: what is known of a part of a log, as text that can be kept, sent and read back.
//!
//! [`write_part`] appends the text of a [`Part`], [`read_part`] reads the first of a list of them. `specs/Files` defines the text.
#![tactic(auto)]

mod checksum;
mod number;
mod part;
mod read;
mod write;

pub use part::{Counts, Part, PartError};
pub use read::read_part;
pub use write::write_part;

#[cfg(test)]
mod tests;
