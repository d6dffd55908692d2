//! Reads paths, and reports the files of a folder through a cache of their bytes.
#![tactic(auto)]

mod checksum;
mod counts;
mod fault;
mod folder;
mod freshness;
mod serve;
mod served;
mod timer;

use crate::folder::Folder;
use crate::freshness::Freshness;
use crate::serve::{pages_of, run};
use crate::timer::Monotonic;
use clru::NonZeroUsize;
use clru_text::{ReadError, read_input};
use std::env;
use std::io::{self, BufWriter, ErrorKind, Write};
use std::process::ExitCode;
use std::time::Duration;

fn main(rt: HostRuntime) -> ExitCode {
    match answered(&rt) {
        Ok(()) => ExitCode::SUCCESS,
        Err(error) if error.kind() == ErrorKind::InvalidInput => report_failure(
            &rt,
            "give FOLDER CAPACITY, --stat or --max-age SECONDS to read files again, and paths, a line each",
        ),
        Err(error) if error.kind() == ErrorKind::OutOfMemory => report_failure(
            &rt,
            "out of memory",
        ),
        Err(_) => report_failure(&rt, "a read or a write failed"),
    }
}

fn report_failure(rt: &HostRuntime, why: &str) -> ExitCode {
    let _ = writeln!(rt.stderr(), "clru_files: {why}");
    ExitCode::FAILURE
}

// Reads folder and capacity from the arguments, and writes a line for each of the input.
fn answered(rt: &HostRuntime) -> io::Result<()> {
    let mut words = env::args(rt)?.skip(1);
    let (Some(root), Some(number)) = (words.next(), words.next()) else {
        return Err(io::Error::from(ErrorKind::InvalidInput));
    };
    let freshness = match words.next() {
        None => Freshness::WhileHeld,
        Some(word) if word.as_str() == "--stat" => Freshness::WhileUnchanged,
        Some(word) if word.as_str() == "--max-age" => Freshness::Within(seconds_of(words.next())?),
        Some(_) => return Err(io::Error::from(ErrorKind::InvalidInput)),
    };
    if words.next().is_some() {
        return Err(io::Error::from(ErrorKind::InvalidInput));
    }
    let Ok(capacity) = number.parse::<NonZeroUsize>() else {
        return Err(io::Error::from(ErrorKind::InvalidInput));
    };
    let input = match read_input(rt.alloc(), &mut rt.stdin()) {
        Ok(input) => input,
        Err(ReadError::Memory) => return Err(io::Error::from(ErrorKind::OutOfMemory)),
        Err(ReadError::Reading) => return Err(io::Error::from(ErrorKind::Other)),
    };
    let folder = Folder::new(rt, rt.alloc(), &root, capacity);
    let mut pages = pages_of(rt.alloc(), capacity, folder);
    let mut output = BufWriter::new(rt.alloc(), rt.stdout())?;
    let mut timer = Monotonic { clock: rt };
    let counts = run(
        &mut pages,
        rt.alloc(),
        &input,
        freshness,
        &mut timer,
        &mut output,
    )?;
    let held = pages.len().saturating_add(pages.weight());
    writeln!(
        output,
        "hits {}, fetches {}, unasked {}; {held} of {capacity} bytes held in {} pages",
        counts.hits,
        counts.fetches,
        counts.no_text.saturating_add(counts.no_memory),
        pages.len()
    )?;
    output.flush()
}

// The whole seconds that a word gives.
fn seconds_of(word: Option<String>) -> io::Result<Duration> {
    match word {
        Some(word) => match word.parse::<u64>() {
            Ok(seconds) => Ok(Duration::from_secs(seconds)),
            Err(_) => Err(io::Error::from(ErrorKind::InvalidInput)),
        },
        None => Err(io::Error::from(ErrorKind::InvalidInput)),
    }
}
