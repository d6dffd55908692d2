//! Scripts as data: reads a script, has its blocks of calls made, and writes it again, each call with what it answered. It makes
//! those on caches itself (`kinds`).
#![tactic(auto)]

pub mod answers;
pub mod cache;
pub mod calls;
pub mod closures;
pub mod costs;
pub mod fault;
pub mod head;
pub mod kinds;
pub mod lines;
mod makers;
pub mod out;
pub mod page;
pub mod pairs;
mod plain;
mod replays;
pub mod requested;
mod runs;
pub mod scale;
pub mod subject;
pub mod whole;
pub mod words;
pub mod world;

use crate::page::{Blocks, Page, answered};
use clru_text::{read_input, write_text};
use std::alloc::Global;
use std::io::{Read, Write};

/// The statuses of a run without a fault, with one, and of one that could not be made.
const WELL: u8 = 0;

const FAULTS: u8 = 1;

const FAILED: u8 = 2;

/// Answers the script that the reader gives, and returns the exit status.
pub fn answer<B: Blocks, R: Read, W: Write>(alloc: Global, reader: &mut R, writer: &mut W) -> u8 {
    match answered::<B>(alloc, script_of(alloc, reader)) {
        Ok(page) => write_page(&page, writer),
        Err(_) => FAILED,
    }
}

/// The script, or an empty one, which fails, if it can't be read.
fn script_of<R: Read>(alloc: Global, reader: &mut R) -> &'static str {
    match read_input(alloc, reader) {
        Ok(input) => str::from_utf8(input.leak()).unwrap_or(""),
        Err(_) => "",
    }
}

/// Writes a page, and returns the exit status.
fn write_page<W: Write>(page: &Page, writer: &mut W) -> u8 {
    if page.out.is_short || page.out.text.is_empty() {
        return FAILED;
    }
    match write_text(writer, page.out.text.as_bytes()) {
        Ok(()) if page.faults == 0 => WELL,
        Ok(()) => FAULTS,
        Err(_) => FAILED,
    }
}
