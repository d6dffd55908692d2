//! What a page calls.
ghost use Rattle.std.specs.Prelude.{◌≡◌, ◌⊎◌, ◌<◌, ◌≤◌, ℕ, List, None, length, take};
ghost use Rattle.std.specs.Borrow.{Bor};
ghost use Rattle.clru_report.specs.Parts.{IsPart};
ghost use Rattle.clru_shares.specs.Shares.{IsSplitTable};
ghost use Rattle.clru_text.specs.Arguments.{IsRefusedLine};
ghost use Rattle.clru_text.specs.Lines.{lines_of};
ghost use Rattle.clru_web.specs.Answers.{HasNoReport, IsTextOf, IsTold, reading_of};
ghost use Rattle.clru_web.specs.Parts.{AreJoined, HasNoRoomForJoined, HasNoRoomForPart, IsTextOfCurve, NeedsMoreThanCurve};
ghost use Rattle.clru_web.specs.Splits.{HasNoSplit, form_of as form_by, has_sizes as has_sizes_by};

use crate::answer::answer;
use crate::parts::{answer_of_parts, put_items};
use crate::split::{form_of, has_sizes, split_log};
use crate::text::say;
use clru_report::{Known, join as join_parts, part_of};
use clru_shares::SplitOptions;
use clru_text::{Fault, Seed};
use ration::{LentBlock, Loan};
use std::num::NonZeroUsize;

/// Does what `clru_mrc` does. `arguments` are its arguments, each a line of UTF-8, and `log` is its standard input.
///
/// Returns the program's exit status. Writes to the beginning of `text` what the program writes to standard output, and to
/// `written` how many bytes that are. If the program fails, it is the line for standard error, cut if there is no room, and
/// without the quote of a line that has no size or no time. All memory comes from the block `loan`, and none of it is used after the call.
///
/// - 0: the text is the report, or what `--version` or `--help` prints.
/// - 2: the arguments are refused, or a capacity is below the greatest size.
/// - 3: the block was too small. It says nothing of the log: with a larger block the same call may have another result.
/// - 5: `text` is too short for the report. With a longer one the same call may have another result.
/// - 6: a line has no size, or no time, or the sizes are too large together.
///
/// Lines are hashed under a seed, the words `low` and `high`; the result is the same under each.
///
/// The caller must see to it that `loan` is aligned to 16 and has as many bytes as it says, that numbers are aligned to 8, and that
/// no two of `loan`, `arguments`, `log`, `text` and `written` overlap, or are at address 0. No clause can require this, because a slice here
/// is its bytes, and has no address.
#[unsafe(no_mangle)]
#[allow(too_many_arguments)]
pub extern "C" fn report(
    loan: Loan,
    arguments: &[u8],
    log: &[u8],
    low: u64,
    high: u64,
    text: &mut [u8],
    written: &mut usize,
) -> u32
    // The text is what the arguments ask for, of the log.
    ensures answer { result ≡ 0 → IsTextOf (Bor LentBlock) (reading_of arguments.now) log.now (take written.new text.new) }
    // The arguments are refused, or a capacity that they name is.
    ensures wrong { result ≡ 2 → IsRefusedLine (reading_of arguments.now)
        ⊎ HasNoReport (Bor LentBlock) 2 (reading_of arguments.now) log.now (length text.old) (take written.new text.new) }
    // The text tells each fault.
    ensures memory { result ≡ 3 → IsTold Fault.Memory (length text.old) (take written.new text.new) }
    ensures short_told { result ≡ 5 → IsTold Fault.Writing (length text.old) (take written.new text.new) }
    // What the arguments ask for is longer than the room.
    ensures short { result ≡ 5 → (whole : List ℕ)
        × IsTextOf (Bor LentBlock) (reading_of arguments.now) log.now whole × (length text.new < length whole) }
    // The log has no report of the kind that the arguments ask for.
    ensures refused { result ≡ 6
        → HasNoReport (Bor LentBlock) 6 (reading_of arguments.now) log.now (length text.old) (take written.new text.new) }
    ensures codes { result ≤ 6 }
    ensures within { written.new ≤ length text.new }
    ensures length { length text.new ≡ length text.old }
{
    let heap = LentBlock::new(loan);
    answer(&heap, arguments, log, Seed { low, high }, text, written)
}

/// Does what `clru_mrc --split` does: splits a budget among the classes that the lines of `log` begin with. It is one of keys if `sizes`
/// is 0, and else one of bytes. Form 0 is the table, 1 the table as JSON, and any other the picture. Text, block, seed and the caller's
/// duties are those of [`report`].
///
/// Returns the program's exit status:
///
/// - 0: the text is that of a best split.
/// - 2: the budget is 0.
/// - 3: the block was too small. It says nothing of the log: with a larger block the same call may have another result.
/// - 5: `text` is too short. With a longer one the same call may have another result.
/// - 6: a line has no class or no size, there are too many classes, the sizes are too large together, or one is larger than the budget.
///
/// Cost: that of `make_split` of `clru_shares`.
#[unsafe(no_mangle)]
#[allow(too_many_arguments)]
pub extern "C" fn split(
    loan: Loan,
    budget: usize,
    sizes: u64,
    form: u64,
    log: &[u8],
    low: u64,
    high: u64,
    text: &mut [u8],
    written: &mut usize,
) -> u32
    ensures answer { result ≡ 0 → IsSplitTable (form_by form) (has_sizes_by sizes) None None budget (lines_of log.now) (take written.new text.new) }
    ensures wrong { result ≡ 2 → budget ≡ 0 }
    // The text tells each fault.
    ensures memory { result ≡ 3 → IsTold Fault.Memory (length text.old) (take written.new text.new) }
    ensures short_told { result ≡ 5 → IsTold Fault.Writing (length text.old) (take written.new text.new) }
    // The text of a best split is longer than the room.
    ensures short { result ≡ 5 → (whole : List ℕ) × IsSplitTable (form_by form) (has_sizes_by sizes) None None budget (lines_of log.now) whole
        × (length text.new < length whole) }
    // The log has no split, for the reason that the text tells.
    ensures refused { result ≡ 6 → HasNoSplit None (has_sizes_by sizes) None budget log.now (length text.old) (take written.new text.new) }
    ensures codes { result ≤ 6 }
    ensures within { written.new ≤ length text.new }
    ensures length { length text.new ≡ length text.old }
{
    let Some(budget) = NonZeroUsize::new(budget) else {
        say(b"a budget is at least 1", text, written);
        return 2;
    };
    let options = SplitOptions {
        budget,
        sizes: has_sizes(sizes),
        idle: None,
        sample: None,
        form: form_of(form),
    };
    let heap = LentBlock::new(loan);
    split_log(&heap, options, log, Seed { low, high }, text, written)
}

/// Counts the lines of a part of a log by themselves. Parts are cut behind newlines, so that each line is whole in one of them. [`join`]
/// counts them together with the lines before, and [`report_of_parts`] tells of all of them, whose lines and bytes the caller adds up.
///
/// Writes how many lines there are to `requests`; to the beginning of `curve` how many of them miss at the capacities 1, 2 and so on, up
/// to the number of distinct lines, which goes to `keys`; to the beginnings of `firsts` and `lasts` the first and the latest request
/// for each distinct line, with its newline, whose bytes go to `first_bytes` and `last_bytes`. As many places as lines suffice, and for
/// each text a byte more than the log has.
///
/// Returns 0; 3 if the block was too small; or 5 if an array was too short. Then the arrays tell nothing.
///
/// Block, seed and the caller's duties are those of [`report`], for each array and number.
///
/// Cost: that of `part_of` of `clru_report`, and a copy of the results.
#[unsafe(no_mangle)]
#[allow(too_many_arguments)]
pub extern "C" fn part(
    loan: Loan,
    log: &[u8],
    low: u64,
    high: u64,
    curve: &mut [usize],
    firsts: &mut [u8],
    lasts: &mut [u8],
    requests: &mut usize,
    keys: &mut usize,
    first_bytes: &mut usize,
    last_bytes: &mut usize,
) -> u32
    ensures part { result ≡ 0
        → IsPart (lines_of log.now) requests.new (take keys.new curve.new) (take first_bytes.new firsts.new) (take last_bytes.new lasts.new) }
    // What is known of the lines is longer than an array.
    ensures short { result ≡ 5 → HasNoRoomForPart (lines_of log.now) (length curve.new) (length firsts.new) (length lasts.new) }
    ensures codes { (result ≡ 0) ⊎ ((result ≡ 3) ⊎ (result ≡ 5)) }
    ensures within { (keys.new ≤ length curve.new) × (first_bytes.new ≤ length firsts.new) × (last_bytes.new ≤ length lasts.new) }
    ensures lengths { (length curve.new ≡ length curve.old) × (length firsts.new ≡ length firsts.old) × (length lasts.new ≡ length lasts.old) }
{
    (*keys, *first_bytes, *last_bytes) = (0, 0, 0);
    let heap = LentBlock::new(loan);
    let mut left = log;
    let Ok(part) = part_of(&heap, &mut left, Seed { low, high }) else {
        return 3;
    };
    *requests = part.requests;
    let has_room = put_items(part.curve.as_slice(), curve, keys)
        && put_items(&part.firsts, firsts, first_bytes)
        && put_items(&part.lasts, lasts, last_bytes);
    if has_room { 0 } else { 5 }
}

/// Counts the lines of the beginning of a log and of the part behind it together. `one_curve` and `one_lasts` are what [`part`] or `join`
/// wrote of the beginning, and `two_curve`, `two_firsts` and `two_lasts` what [`part`] wrote of the part.
///
/// Writes to the beginnings of `curve` and `lasts` what [`part`] does, and their lengths to `keys` and `last_bytes`. The sums of the
/// lengths for both suffice. Returns what [`part`] returns. Block, seed and duties are those of [`part`].
///
/// Cost: that of `join` of `clru_report`, and a copy of the results.
#[unsafe(no_mangle)]
#[allow(too_many_arguments)]
pub extern "C" fn join(
    loan: Loan,
    one_curve: &[usize],
    one_lasts: &[u8],
    two_curve: &[usize],
    two_firsts: &[u8],
    two_lasts: &[u8],
    low: u64,
    high: u64,
    curve: &mut [usize],
    lasts: &mut [u8],
    keys: &mut usize,
    last_bytes: &mut usize,
) -> u32
    ensures joined { result ≡ 0
        → AreJoined one_curve.now one_lasts.now two_curve.now two_firsts.now two_lasts.now (take keys.new curve.new) (take last_bytes.new lasts.new) }
    // What is known of both is longer than an array.
    ensures short { result ≡ 5
        → HasNoRoomForJoined one_curve.now one_lasts.now two_curve.now two_firsts.now two_lasts.now (length curve.new) (length lasts.new) }
    ensures codes { (result ≡ 0) ⊎ ((result ≡ 3) ⊎ (result ≡ 5)) }
    ensures within { (keys.new ≤ length curve.new) × (last_bytes.new ≤ length lasts.new) }
    ensures lengths { (length curve.new ≡ length curve.old) × (length lasts.new ≡ length lasts.old) }
{
    (*keys, *last_bytes) = (0, 0);
    let one = Known {
        curve: one_curve,
        lasts: one_lasts,
    };
    let two = Known {
        curve: two_curve,
        lasts: two_lasts,
    };
    let heap = LentBlock::new(loan);
    let Ok((all, latest)) = join_parts(&heap, one, two, two_firsts, Seed { low, high }) else {
        return 3;
    };
    let has_room = put_items(&all, curve, keys) && put_items(&latest, lasts, last_bytes);
    if has_room { 0 } else { 5 }
}

/// Does what [`report`] does, of a log that has so many lines, `requests`, so many bytes and this curve, as [`part`] or [`join`] wrote it. If
/// no log has, the text tells nothing.
///
/// Returns 0, 2, 3 or 5, as [`report`] does, or 7 if more than a curve is needed for what the arguments ask. Then the text is empty.
///
/// Cost: that of the text, and a copy of the curve.
#[unsafe(no_mangle)]
#[allow(too_many_arguments)]
pub extern "C" fn report_of_parts(
    loan: Loan,
    arguments: &[u8],
    requests: usize,
    bytes: usize,
    curve: &[usize],
    text: &mut [u8],
    written: &mut usize,
) -> u32
    ensures answer { result ≡ 0
        → IsTextOfCurve requests bytes curve.now (Bor LentBlock) (reading_of arguments.now) (take written.new text.new) }
    ensures wrong { result ≡ 2 → IsRefusedLine (reading_of arguments.now) }
    // The text tells each fault.
    ensures memory { result ≡ 3 → IsTold Fault.Memory (length text.old) (take written.new text.new) }
    ensures short_told { result ≡ 5 → IsTold Fault.Writing (length text.old) (take written.new text.new) }
    // What the arguments ask for is longer than the room.
    ensures short { result ≡ 5 → (whole : List ℕ)
        × IsTextOfCurve requests bytes curve.now (Bor LentBlock) (reading_of arguments.now) whole × (length text.new < length whole) }
    ensures other { result ≡ 7 → NeedsMoreThanCurve (Bor LentBlock) (reading_of arguments.now) }
    ensures empty { result ≡ 7 → written.new ≡ 0 }
    ensures codes { (result ≡ 0) ⊎ ((result ≡ 2) ⊎ ((result ≡ 3) ⊎ ((result ≡ 5) ⊎ (result ≡ 7)))) }
    ensures within { written.new ≤ length text.new }
    ensures length { length text.new ≡ length text.old }
{
    let heap = LentBlock::new(loan);
    answer_of_parts(&heap, arguments, requests, bytes, curve, text, written)
}
