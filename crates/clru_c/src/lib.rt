//! The numbers of the libraries over arrays of 64-bit keys, for callers in C, and so in any language that calls C.
//!
//! Arrays and numbers cross, and nothing of the library outlives a call. `include/clru.h` says what a caller has to know.
#![tactic(auto)]

mod arrays;
mod codes;
mod exports;
mod floors;
mod keyed;
mod one_size;
mod parts;
mod sized;
