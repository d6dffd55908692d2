//! The text that is handed back.
ghost use Rattle.std.specs.Prelude.{◌≡◌, true, Some, ◌⊎◌, ◌+◌, ◌-◌, ◌<◌, ◌≤◌, ◌++◌, length, min, take};
ghost use Rattle.clru_shares.specs.Faults.{split_status_of};
ghost use Rattle.clru_text.specs.Faults.{status_of};
ghost use Rattle.clru_text.specs.declared.fault.Fault.TheVariants.{NoSize};
ghost use Rattle.clru_web.specs.Answers.{IsSaid, IsTold, IsToldOfLog, no_time_text, wanted_text};
ghost use Rattle.clru_web.specs.Splits.{IsToldOfSplit};

use clru_shares::{SplitFault, split_status};
use clru_text::{Fault, exit_status};
use std::fmt::{self, InlineText};

// The line of a fault. The longest has some 120 bytes.
type FaultLine = InlineText<160>;

// What is printed of a line without a time, or without a time and a size.
#[derive(Clone, Copy)]
struct NoTime {
    number: usize,
    sized: bool,
}

impl fmt::Display for NoTime {
    ghost output = { λ t. Some (no_time_text t.sized t.number) };

    fn fmt<W: fmt::Write>(&self, f: &mut fmt::Formatter<W>) -> fmt::Result {
        let number = self.number;
        let wanted = wanted(self.sized);
        write!(f, "line {number}{wanted}")
    }
}

// What such a line is to begin with.
fn wanted(sized: bool) -> &'static str
    ensures { result.now ≡ wanted_text sized }
{
    if sized {
        " has no time and size: with --times --sizes each begins with both, as in 1700000000.123 512 /index.html"
    } else {
        " has no time: with --times each begins with one and a blank, as in 1700000000.123 /index.html"
    }
}

/// Writes the bytes and returns 0, or 5 if there is no room for all of them.
pub(crate) fn put_whole(bytes: &[u8], text: &mut [u8], written: &mut usize) -> u32
    ensures whole { result ≡ 0 → take written.new text.new ≡ bytes.now }
    ensures codes { (result ≡ 0) ⊎ (result ≡ 5) }
    ensures short { result ≡ 5 → length text.old < length bytes.now }
    ensures told { result ≡ 5 → IsTold Fault.Writing (length text.old) (take written.new text.new) }
    ensures within { written.new ≤ length text.new }
    ensures length { length text.new ≡ length text.old }
{
    if bytes.len() > text.len() {
        return tell(Fault::Writing, text, written);
    }
    text[..bytes.len()].copy_from_slice(bytes);
    *written = bytes.len();
    0
}

/// Writes the program's line for a fault, and returns its exit status.
pub(crate) fn tell(fault: Fault, text: &mut [u8], written: &mut usize) -> u32
    ensures status { result ≡ status_of fault }
    ensures told { IsTold fault (length text.old) (take written.new text.new) }
    ensures within { written.new ≤ length text.new }
    ensures length { length text.new ≡ length text.old }
{
    // It takes no memory of the block, which may be what ran out.
    let line = FaultLine::of(fault);
    say(line.as_str().as_bytes(), text, written);
    exit_status(&Err(fault)) as u32
}

/// Writes the program's line for a line of the log without a time, or a size where each is to have both, and returns its exit
/// status.
pub(crate) fn tell_no_time(number: usize, sized: bool, text: &mut [u8], written: &mut usize) -> u32
    ensures status { result ≡ 6 }
    ensures told { IsToldOfLog true sized (NoSize number) (length text.old) (take written.new text.new) }
    ensures within { written.new ≤ length text.new }
    ensures length { length text.new ≡ length text.old }
{
    let line = FaultLine::of(NoTime { number, sized });
    say(line.as_str().as_bytes(), text, written);
    6
}

/// Writes the program's line for a fault of a split, and returns its exit status.
pub(crate) fn tell_split(fault: SplitFault, text: &mut [u8], written: &mut usize) -> u32
    ensures status { result ≡ split_status_of fault }
    ensures told { IsToldOfSplit fault (length text.old) (take written.new text.new) }
    ensures within { written.new ≤ length text.new }
    ensures length { length text.new ≡ length text.old }
{
    let told = FaultLine::of(fault);
    say(told.as_str().as_bytes(), text, written);
    split_status(&Err(fault)) as u32
}

/// Writes a line that begins with the program's name, as much as there is room for.
pub(crate) fn say(line: &[u8], text: &mut [u8], written: &mut usize)
    ensures said { IsSaid line.now (length text.old) (take written.new text.new) }
    ensures within { written.new ≤ length text.new }
    ensures length { length text.new ≡ length text.old }
{
    let named = put(b"clru_mrc: ", 0, text);
    let told = put(line, named, text);
    *written = put(b"\n", told, text);
}

// Writes as many of the bytes from there on as there is room for, and returns where they end.
fn put(bytes: &[u8], from: usize, text: &mut [u8]) -> usize
    requires { from ≤ length text.old }
    ensures end { result ≡ min (length text.old) (from + length bytes.now) }
    ensures put { take result text.new ≡ take from text.old ++ take (length text.old - from) bytes.now }
    ensures length { length text.new ≡ length text.old }
{
    let count = bytes.len().min(text.len() - from);
    text[from..from + count].copy_from_slice(&bytes[..count]);
    from + count
}
