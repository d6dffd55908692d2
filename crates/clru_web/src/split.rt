//! The split of a budget among the classes of the log.
ghost use Rattle.std.specs.Prelude.{◌≡◌, ◌≢◌, ◌<◌, ◌≤◌, ℕ, List, length, take};
ghost use Rattle.std.specs.Int.NonZero.{non_zero_usize_get};
ghost use Rattle.std.specs.Option.{option_map};
ghost use Rattle.clru_shares.specs.Shares.{IsSplitTable};
ghost use Rattle.clru_text.specs.Lines.{lines_of};
ghost use Rattle.clru_web.specs.Answers.{IsTold};
ghost use Rattle.clru_web.specs.Splits.{HasNoSplit, form_of as form_by, has_sizes as has_sizes_by};

use crate::text::{put_whole, tell_split};
use clru_shares::{SplitForm, SplitOptions, make_split};
use clru_text::Fault;
use std::alloc::Allocator;
use std::hash::BuildHasher;

/// Returns the form of a number.
pub(crate) fn form_of(number: u64) -> SplitForm
    ensures { result ≡ form_by number }
{
    match number {
        0 => SplitForm::Table,
        1 => SplitForm::Json,
        _ => SplitForm::Picture,
    }
}

/// Returns whether a number says that there are sizes.
pub(crate) fn has_sizes(number: u64) -> bool
    ensures { result ≡ has_sizes_by number }
{
    match number {
        0 => false,
        _ => true,
    }
}

/// Writes the split to `text`, by memory of an allocator, and returns the program's status.
pub(crate) fn split_log<S: BuildHasher + Copy, A: Allocator + Copy>(
    alloc: A,
    options: SplitOptions,
    log: &[u8],
    hash_builder: S,
    text: &mut [u8],
    written: &mut usize,
) -> u32
    ensures answer { result ≡ 0
        → IsSplitTable options.form options.sizes options.idle (option_map non_zero_usize_get options.sample) (non_zero_usize_get options.budget) (lines_of log.now) (take written.new text.new) }
    ensures other { result ≢ 2 }
    ensures memory { result ≡ 3 → IsTold Fault.Memory (length text.old) (take written.new text.new) }
    ensures short { result ≡ 5 → (whole : List ℕ) × IsSplitTable options.form options.sizes options.idle (option_map non_zero_usize_get options.sample) (non_zero_usize_get options.budget) (lines_of log.now) whole
        × (length text.new < length whole) }
    ensures short_told { result ≡ 5 → IsTold Fault.Writing (length text.old) (take written.new text.new) }
    ensures refused { result ≡ 6 → HasNoSplit options.idle options.sizes (option_map non_zero_usize_get options.sample) (non_zero_usize_get options.budget)
        log.now (length text.old) (take written.new text.new) }
    ensures codes { result ≤ 6 }
    ensures within { written.new ≤ length text.new }
    ensures length { length text.new ≡ length text.old }
{
    let mut left = log;
    match make_split(alloc, options, &mut left, hash_builder) {
        Ok(table) => put_whole(&table, text, written),
        Err(fault) => tell_split(fault, text, written),
    }
}
