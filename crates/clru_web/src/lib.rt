//! The program for every capacity as one call, for a page that holds it as a module of WebAssembly: words and a log in, a text out.
#![tactic(auto)]

mod answer;
#[cfg(test)]
mod asserts;
mod exports;
mod parts;
mod split;
#[cfg(test)]
mod tests;
mod text;
