//! Examples of the docs, run, as far as no clause tells their results.

mod caches;
mod files;
mod owners;
