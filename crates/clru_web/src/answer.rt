//! What the words ask for, of the log.
ghost use Rattle.std.specs.Prelude.{◌≡◌, ◌⊎◌, ◌<◌, ◌≤◌, ℕ, List, true, IfErr, IfOk, length, map, take};
ghost use Rattle.clru_web.specs.Answers.{HasNoReport, IsRefusedWith, IsTextOf, IsTold, reading_of, words_in};
ghost use Rattle.clru_report.specs.Report.{IsReport};
ghost use Rattle.clru_text.specs.Arguments.{is_wrong, IsAskedFor, IsRefusedLine};

use crate::text::{put_whole, say, tell, tell_no_time};
use clru_report::make_report;
use clru_text::{Command, Fault, HELP, Options, Refusal, VERSION, command_of};
use std::alloc::{AllocError, Allocator};
use std::hash::BuildHasher;

/// Writes the program's output to `text`, by memory of an allocator, and returns the program's status.
pub(crate) fn answer<S: BuildHasher + Copy, A: Allocator + Copy>(
    alloc: A,
    arguments: &[u8],
    log: &[u8],
    hash_builder: S,
    text: &mut [u8],
    written: &mut usize,
) -> u32
    ensures answer { result ≡ 0 → IsTextOf A (reading_of arguments.now) log.now (take written.new text.new) }
    ensures wrong { result ≡ 2 → IsRefusedLine (reading_of arguments.now)
        ⊎ HasNoReport A 2 (reading_of arguments.now) log.now (length text.old) (take written.new text.new) }
    ensures memory { result ≡ 3 → IsTold Fault.Memory (length text.old) (take written.new text.new) }
    ensures short { result ≡ 5 → (whole : List ℕ) × IsTextOf A (reading_of arguments.now) log.now whole × (length text.new < length whole) }
    ensures short_told { result ≡ 5 → IsTold Fault.Writing (length text.old) (take written.new text.new) }
    ensures refused { result ≡ 6
        → HasNoReport A 6 (reading_of arguments.now) log.now (length text.old) (take written.new text.new) }
    ensures codes { result ≤ 6 }
    ensures within { written.new ≤ length text.new }
    ensures length { length text.new ≡ length text.old }
{
    match parse_args(alloc, arguments) {
        Ok(Command::Help) => put_whole(HELP.as_bytes(), text, written),
        Ok(Command::Version) => put_whole(VERSION.as_bytes(), text, written),
        Ok(Command::Report(options)) => {
            run_report(alloc, &options, log, hash_builder, text, written)
        }
        Err(Refusal::Wrong(line)) => {
            say(line.as_bytes(), text, written);
            2
        }
        Err(Refusal::Memory) => tell(Fault::Memory, text, written),
    }
}

fn run_report<S: BuildHasher + Copy, A: Allocator + Copy>(
    alloc: A,
    options: &Options<A>,
    log: &[u8],
    hash_builder: S,
    text: &mut [u8],
    written: &mut usize,
) -> u32
    ensures report { result ≡ 0 → IsReport options.now log.now (take written.new text.new) }
    ensures small { result ≡ 2 → IsRefusedWith 2 options.now log.now (length text.old) (take written.new text.new) }
    ensures memory { result ≡ 3 → IsTold Fault.Memory (length text.old) (take written.new text.new) }
    ensures short { result ≡ 5 → (whole : List ℕ) × IsReport options.now log.now whole × (length text.new < length whole) }
    ensures short_told { result ≡ 5 → IsTold Fault.Writing (length text.old) (take written.new text.new) }
    ensures refused { result ≡ 6 → IsRefusedWith 6 options.now log.now (length text.old) (take written.new text.new) }
    ensures codes { result ≤ 6 }
    ensures within { written.new ≤ length text.new }
    ensures length { length text.new ≡ length text.old }
{
    let mut left = log;
    match make_report(alloc, options, &mut left, hash_builder) {
        Ok(report) => put_whole(report.as_bytes(), text, written),
        Err(Fault::NoSize(number)) if options.times.is_some() => {
            tell_no_time(number, options.sizes, text, written)
        }
        Err(fault) => tell(fault, text, written),
    }
}

/// Returns what the arguments ask for.
pub(crate) fn parse_args<A: Allocator + Copy>(
    alloc: A,
    arguments: &[u8],
) -> Result<Command<A>, Refusal<A>>
    ensures command { IfOk result (λ command. IsAskedFor (reading_of arguments.now) command) }
    ensures refused { IfErr result (λ refusal. is_wrong refusal ≡ true → IsRefusedLine (reading_of arguments.now)) }
{
    let text = match std::str::from_utf8(arguments) {
        Ok(text) => text,
        Err(_) => return Err(no_text(alloc)),
    };
    match words_of(alloc, text) {
        Ok(words) => command_of(alloc, &words),
        Err(_) => Err(Refusal::Memory),
    }
}

// Each line is an argument. `--progress` asks nothing of the report.
fn words_of<A: Allocator>(alloc: A, text: &str) -> Result<Vec<&str, A>, AllocError>
    ensures { IfOk result (λ words. map (λ word. word.now) words.items ≡ words_in text.now) }
{
    text.lines()
        .filter(|word| *word != "--progress")
        .collect(alloc)
}

fn no_text<A: Allocator>(alloc: A) -> Refusal<A> {
    match String::from_str(
        alloc,
        "an argument is no UTF-8 text: clru_mrc --help names them",
    ) {
        Ok(line) => Refusal::Wrong(line),
        Err(_) => Refusal::Memory,
    }
}
