//! Logs as servers write them, cut into the plain lines that the programs read.
//!
//! A [`CutReader`] reads a log in a [`Format`], and gives a line for each request that counts; [`log_time`] reads the time that columns
//! of a log name. `specs/Cuts` defines what is cut of a log, and `specs/Dates` which time a text names.
#![tactic(auto)]

mod calendar;
mod columns;
mod counts;
mod cut;
mod cutter;
mod date;
mod figures;
mod format;
mod laws;
mod newline;
mod output;
mod reader;
mod shape;
mod window;

pub use counts::CutCounts;
pub use cut::Left;
pub use date::log_time;
pub use format::{Columns, Format, Wanted};
pub use laws::law_dates;
pub use reader::CutReader;

#[cfg(test)]
mod tests;
