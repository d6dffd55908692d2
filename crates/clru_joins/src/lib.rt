//! Parts of a log: counted, joined to a part of all, and reported.
//!
//! `specs/PartsOfLogs` says what a part knows of its log.
#![tactic(auto)]

mod count;
mod error;
mod join;
mod report;

pub use count::count_part;
pub use error::JoinError;
pub use join::join_parts;
pub use report::report_of_part;

#[cfg(test)]
mod tests;
