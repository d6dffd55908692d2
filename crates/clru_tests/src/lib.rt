//! Test functions, of what neither a clause nor a script shows.
//!
//! Effects of calls: owned values are dropped once, and refused memory changes nothing: iterators up to a refusal, constructors by a
//! configuration, items that own memory, look-ups by a borrowed text, a source that takes memory itself, lent memory, an index above
//! its limit for 4 bytes, strings in one buffer, and the counts of the allocator that refuses. Examples and some callers of
//! `clru_uses`; the laws at types of a caller's; what types print. Reports are tested in `clru_web`.
#![tactic(auto)]

#[cfg(test)]
mod asserts;
#[cfg(test)]
mod errors;
#[cfg(test)]
mod examples;
#[cfg(test)]
mod extends;
#[cfg(test)]
mod forms;
#[cfg(test)]
mod idioms;
#[cfg(test)]
mod index;
pub mod kept;
#[cfg(test)]
mod laws;
#[cfg(test)]
mod lent;
#[cfg(test)]
mod list_errors;
#[cfg(test)]
mod lists;
#[cfg(test)]
mod makers;
#[cfg(test)]
mod numbers;
#[cfg(test)]
mod parts;
#[cfg(test)]
mod passes;
#[cfg(test)]
mod plain;
#[cfg(test)]
mod printed;
#[cfg(test)]
mod rations;
#[cfg(test)]
mod shown;
#[cfg(test)]
mod splits;
#[cfg(test)]
mod store_callers;
#[cfg(test)]
mod stores;
#[cfg(test)]
mod strings;
#[cfg(test)]
mod units;
#[cfg(test)]
mod walks;
