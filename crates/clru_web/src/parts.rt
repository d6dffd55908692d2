//! Arrays and text for a page that counts a log by parts.
ghost use Rattle.std.specs.Prelude.{◌≡◌, ◌⊎◌, ◌<◌, ◌≤◌, ℕ, List, true, false, length, take};
ghost use Rattle.clru_report.specs.Parts.{needs_only_curve};
ghost use Rattle.clru_text.specs.Arguments.{IsRefusedLine};
ghost use Rattle.clru_web.specs.Answers.{IsTold, reading_of};
ghost use Rattle.clru_web.specs.Parts.{IsReportOfCurve, IsTextOfCurve, NeedsMoreThanCurve};

use crate::answer::parse_args;
use crate::text::{put_whole, say, tell};
use clru_report::report_of_curve;
use clru_text::{Command, Fault, HELP, Options, Refusal, VERSION};
use std::alloc::Allocator;

/// Writes items to the beginning of an array, and how many to `count`, and returns whether there is room for all of them.
pub(crate) fn put_items<T: Copy + Drop>(items: &[T], array: &mut [T], count: &mut usize) -> bool
    ensures put { result ≡ true → take count.new array.new ≡ items.now }
    ensures short { result ≡ false → length array.new < length items.now }
    ensures within { count.new ≤ length array.new }
    ensures length { length array.new ≡ length array.old }
{
    *count = 0;
    if items.len() > array.len() {
        return false;
    }
    array[..items.len()].copy_from_slice(items);
    *count = items.len();
    true
}

/// Writes to `text` what the arguments ask for, of a log with so many lines and bytes and this curve, and returns a status.
pub(crate) fn answer_of_parts<A: Allocator + Copy>(
    alloc: A,
    arguments: &[u8],
    requests: usize,
    bytes: usize,
    curve: &[usize],
    text: &mut [u8],
    written: &mut usize,
) -> u32
    ensures answer { result ≡ 0 → IsTextOfCurve requests bytes curve.now A (reading_of arguments.now) (take written.new text.new) }
    ensures wrong { result ≡ 2 → IsRefusedLine (reading_of arguments.now) }
    ensures memory { result ≡ 3 → IsTold Fault.Memory (length text.old) (take written.new text.new) }
    ensures short { result ≡ 5 → (whole : List ℕ) × IsTextOfCurve requests bytes curve.now A (reading_of arguments.now) whole × (length text.new < length whole) }
    ensures short_told { result ≡ 5 → IsTold Fault.Writing (length text.old) (take written.new text.new) }
    ensures other { result ≡ 7 → NeedsMoreThanCurve A (reading_of arguments.now) }
    ensures empty { result ≡ 7 → written.new ≡ 0 }
    ensures codes { (result ≡ 0) ⊎ ((result ≡ 2) ⊎ ((result ≡ 3) ⊎ ((result ≡ 5) ⊎ (result ≡ 7)))) }
    ensures within { written.new ≤ length text.new }
    ensures length { length text.new ≡ length text.old }
{
    match parse_args(alloc, arguments) {
        Ok(Command::Help) => put_whole(HELP.as_bytes(), text, written),
        Ok(Command::Version) => put_whole(VERSION.as_bytes(), text, written),
        Ok(Command::Report(options)) => {
            put_report(alloc, &options, requests, bytes, curve, text, written)
        }
        Err(Refusal::Wrong(line)) => {
            say(line.as_bytes(), text, written);
            2
        }
        Err(Refusal::Memory) => tell(Fault::Memory, text, written),
    }
}

fn put_report<A: Allocator + Copy>(
    alloc: A,
    options: &Options<A>,
    requests: usize,
    bytes: usize,
    curve: &[usize],
    text: &mut [u8],
    written: &mut usize,
) -> u32
    ensures report { result ≡ 0 → IsReportOfCurve requests bytes curve.now options.now (take written.new text.new) }
    ensures memory { result ≡ 3 → IsTold Fault.Memory (length text.old) (take written.new text.new) }
    ensures short { result ≡ 5 → (whole : List ℕ) × IsReportOfCurve requests bytes curve.now options.now whole × (length text.new < length whole) }
    ensures short_told { result ≡ 5 → IsTold Fault.Writing (length text.old) (take written.new text.new) }
    ensures other { result ≡ 7 → needs_only_curve options.now ≡ false }
    ensures empty { result ≡ 7 → written.new ≡ 0 }
    ensures codes { (result ≡ 0) ⊎ ((result ≡ 3) ⊎ ((result ≡ 5) ⊎ (result ≡ 7))) }
    ensures within { written.new ≤ length text.new }
    ensures length { length text.new ≡ length text.old }
{
    match report_of_curve(alloc, options, requests, bytes, curve) {
        Ok(Some(report)) => put_whole(report.as_bytes(), text, written),
        Ok(None) => {
            *written = 0;
            7
        }
        Err(_) => tell(Fault::Memory, text, written),
    }
}
