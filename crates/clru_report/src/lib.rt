//! What an LRU cache of each capacity misses on a list of requests, as a text: what the program `clru_mrc` is, but for its `main`.
//!
//! A report is a table, a summary or a picture, in keys or by size; `command_of` of `clru_text` reads which one a command line asks
//! for. [`run`] reads an input and writes its report. For readers and writers whose bytes std's contracts describe, its contract says
//! what is written for each input, or why nothing is. [`make_report`] returns the text.
//!
//! `specs/Report` and `specs/SizedReport` say what a report is, and `specs/Refusals` which inputs have none.
#![tactic(auto)]

mod after;
mod capacities;
mod columns;
mod faithful;
mod knees;
mod laws;
mod line_pass;
mod parts;
mod pass;
mod picture;
mod prefetch;
mod program;
mod ratio;
mod reading;
mod report;
mod rows;
mod sample;
mod sized;
mod table;
mod text;
mod timed;

pub use clru_model::DefaultState;
pub use laws::{law_cut_logs, law_hit_ratios, law_one_size, law_rows};
pub use parts::{Known, Part, join, part_of, report_of_curve};
pub use program::run;
pub use report::make_report;
pub use std::num::NonZeroUsize;
