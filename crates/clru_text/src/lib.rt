//! What programs read and write: lines, words of a command line, sizes, times, samples, pictures; faults and exit status.
//!
//! A program reads its input line by line by [`read_lines`] over a [`LineBuffer`], or whole by [`read_input`], and takes its lines apart by
//! [`next_line`] or [`keys_of`]; it reads a number of an argument or a line by [`capacity_of`] or [`digits_of`], hashes its keys under a
//! [`Seed`], and writes its text by [`write_text`]. For readers and writers whose bytes std's contracts describe, their contracts say
//! what was read or written. A [`Fault`] says why a program failed, and [`exit_status`] how it ends.
//!
//! [`command_of`] reads the words of a command line: [`Options`] are what they ask a report to have. [`size_of`] and [`split_time`] read
//! what a line begins with, [`is_kept`] tells which lines a sample keeps, and [`picture_of`] draws a [`Plot`].
//!
//! `specs/Lines` defines lines and capacities, `specs/Whole` what it means that a reader was read to its end, `specs/LinesRead` that its
//! lines are returned one by one, `specs/Faults` what is printed of a fault, `specs/SipHasher` that a seed hashes as std does.
//! `specs/CommandLine` says what words ask for, and `specs/Arguments` which options these are; `specs/Sizes`, `specs/Times` and
//! `specs/Samples` say what a line begins with, and which are kept.
#![tactic(auto)]

mod arguments;
mod buffer;
mod capacity;
mod fault;
mod fraction;
mod hasher;
mod help;
mod input;
mod lines;
mod newline;
mod numbers;
mod options;
mod output;
mod picture;
mod ratio;
mod reading;
mod round;
mod sample;
mod seed;
mod size;
mod time;

pub use arguments::{Command, Refusal, command_of};
pub use buffer::LineBuffer;
pub use capacity::{capacity_of, digits_of};
pub use fault::{Fault, exit_status, read_fault};
pub use fraction::{Millionths, ratio_of};
pub use hasher::SipHasher13;
pub use help::{HELP, VERSION};
pub use input::{ReadError, read_input};
pub use lines::{Key, OwnedKey, keys_of, next_line};
pub use numbers::number_of_word;
pub use options::{Capacities, Form, Look, Options, Sample, Times};
pub use output::{write_report, write_text};
pub use picture::{Plot, PlotLine, STYLE, picture_of};
pub use ratio::Billionths;
pub use reading::{TakesLines, read_lines};
pub use round::{ROUND_NUMBERS, round_at};
pub use sample::{is_kept, times};
pub use seed::Seed;
pub use size::{size_of, tail_of};
pub use time::{split_time, time_of};
