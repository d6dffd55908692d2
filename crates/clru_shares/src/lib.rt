//! One budget for several caches, from a log whose lines begin with a class: the program `clru_mrc --split`, but for its `main`.
//!
//! [`run_split`] takes the table of a best split from a reader to a writer, beside equal parts and one cache for all. `specs/Classes`
//! defines the classes of lines, `specs/Shares` the table, `specs/Forms` its text, and `specs/Refusals` which inputs have none.
#![tactic(auto)]

mod class;
mod classes;
mod curve;
mod fault;
mod form;
mod latest;
mod options;
mod pass;
mod picture;
mod program;
mod reading;
mod room;
mod sampled;
mod share;
mod size;
mod table;

pub use class::class_of;
pub use fault::{SplitFault, split_status};
pub use form::SplitForm;
pub use options::{SplitOptions, split_options_of};
pub use program::{make_split, run_split};
