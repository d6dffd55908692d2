//! From the reader to the writer.
ghost use Rattle.std.specs.Prelude.{◌≡◌, ℕ, List, map, true, false, take, IfErr, IfOk, OnOk};
ghost use Rattle.std.specs.Int.NonZero.{non_zero_usize_get};
ghost use Rattle.std.specs.List.{All};
ghost use Rattle.std.specs.Option.{option_map};
ghost use Rattle.std.specs.Io.KnownBytes.{Appends, Keeps};
ghost use Rattle.clru_text.specs.Lines.{lines_of};
ghost use Rattle.clru_text.specs.Whole.{ReadWhole};
ghost use Rattle.clru_shares.specs.Faults.{comes_of_a_line, comes_of_writing};
ghost use Rattle.clru_shares.specs.Passes.{HasTakenLines, HaveShares, name_of};
ghost use Rattle.clru_shares.specs.Refusals.{HasNoRoom, IsSaidOfLines, IsShownOf};
ghost use Rattle.clru_shares.specs.Shares.{HasRoom, IsSplitTable, step_for};
ghost use Rattle.clru_shares.specs.Times.{requests_in};

use crate::curve::curve_of;
use crate::fault::SplitFault;
use crate::form::text_of;
use crate::options::SplitOptions;
use crate::reading::{Passes, read_classes};
use crate::room::check_room;
use crate::sampled::part_in;
use crate::share::{Share, shares_of};
use crate::table::table_of;
use clru_curve::split;
use clru_text::{Fault, write_report};
use std::alloc::{AllocError, Allocator};
use std::hash::BuildHasher;
use std::io::{Read, Write};
use std::num::NonZeroUsize;

// At most so many steps are within the budget.
const MOST_STEPS: usize = 1000;

/// Reads the whole input, and then writes the table of a best split of the budget among its classes, in this form. That of a sample is
/// one of its part of the budget among its lines, as told of all. A request that comes later than the idle limit allows is a first one.
/// Lines are hashed with `hash_builder`: a best split is one under each that is lawful. The first 60 bytes of the line that a fault
/// names are put into `beginning`, or the name of the class for which the budget has no room.
/// Cost: for each line a look-up and a comparison with each class up to its own, and that of `split` for at most a thousand steps. A
/// sample takes a hash of each line, and look-ups of its own alone.
pub fn run_split<R: Read, W: Write, S: BuildHasher + Copy, A: Allocator + Copy>(
    alloc: A,
    options: SplitOptions,
    reader: &mut R,
    writer: &mut W,
    hash_builder: S,
    beginning: &mut Vec<u8, A>,
) -> Result<(), SplitFault>
    // The writer got a table of the whole input.
    ensures written { OnOk result (ReadWhole (R.remaining reader.old) (R.remaining reader.new)
        (λ input. (text : List ℕ) × IsSplitTable options.form options.sizes options.idle (option_map non_zero_usize_get options.sample)
        (non_zero_usize_get options.budget) (lines_of input) text
        × Appends (W.contents writer.old) (W.contents writer.new) text)) }
    // The writer got a beginning of a table of the whole input.
    ensures cut_short { IfErr result (λ fault. comes_of_writing fault ≡ true
        → ReadWhole (R.remaining reader.old) (R.remaining reader.new)
        (λ input. (text : List ℕ) × IsSplitTable options.form options.sizes options.idle (option_map non_zero_usize_get options.sample)
        (non_zero_usize_get options.budget) (lines_of input) text
        × (n : ℕ) × Appends (W.contents writer.old) (W.contents writer.new) (take n text))) }
    // A line of the input is not what a split wants, for the reason that the fault says.
    ensures refused { IfErr result (λ fault. comes_of_a_line fault ≡ true
        → ReadWhole (R.remaining reader.old) (R.remaining reader.new) (λ input. IsSaidOfLines options.idle options.sizes fault (lines_of input))) }
    // The line that it names begins so.
    ensures shown { IfErr result (λ fault. comes_of_a_line fault ≡ true
        → ReadWhole (R.remaining reader.old) (R.remaining reader.new) (λ input. IsShownOf fault (lines_of input) beginning.new.items)) }
    // The class of this name is the first with a request that is larger than the budget.
    ensures no_room { IfErr result (λ fault. (size : ℕ) → fault ≡ SplitFault.NoRoom size
        → ReadWhole (R.remaining reader.old) (R.remaining reader.new)
        (λ input. HasNoRoom options.sizes options.idle (option_map non_zero_usize_get options.sample)
        (non_zero_usize_get options.budget) size (lines_of input) beginning.new.items)) }
    // Any fault but those of writing comes before the first write.
    ensures silent { IfErr result (λ fault. comes_of_writing fault ≡ false
        → Keeps (W.contents writer.old) (W.contents writer.new)) }
{
    let text = match split_text(alloc, options, reader, hash_builder, beginning) {
        Ok(text) => text,
        Err(fault) => return Err(fault),
    };
    match write_report(writer, &text) {
        Ok(()) => Ok(()),
        Err(fault) => Err(SplitFault::Other(fault)),
    }
}

/// Returns the table of a best split of the budget among the classes of all that a reader gives, in this form.
///
/// Fails if a line has no time, class or size, if there are more than 256 classes, if the sizes pass `usize::MAX`, if an object is larger
/// than the budget, or if reading or memory fails.
/// Cost: for each line a look-up and a comparison with each class up to its own, and that of `split` for at most a thousand steps. A
/// sample takes a hash of each line, and look-ups of its own alone.
pub fn make_split<R: Read, S: BuildHasher + Copy, A: Allocator + Copy>(
    alloc: A,
    options: SplitOptions,
    reader: &mut R,
    hash_builder: S,
) -> Result<Vec<u8, A>, SplitFault>
    ensures table { IfOk result (λ text. ReadWhole (R.remaining reader.old) (R.remaining reader.new)
        (λ input. IsSplitTable options.form options.sizes options.idle (option_map non_zero_usize_get options.sample)
        (non_zero_usize_get options.budget) (lines_of input) text.items)) }
    ensures refused { IfErr result (λ fault. comes_of_a_line fault ≡ true
        → ReadWhole (R.remaining reader.old) (R.remaining reader.new) (λ input. IsSaidOfLines options.idle options.sizes fault (lines_of input))) }
    ensures no_room { IfErr result (λ fault. (size : ℕ) → fault ≡ SplitFault.NoRoom size
        → ReadWhole (R.remaining reader.old) (R.remaining reader.new)
        (λ input. (name : List ℕ) × HasNoRoom options.sizes options.idle (option_map non_zero_usize_get options.sample)
        (non_zero_usize_get options.budget) size (lines_of input) name)) }
    ensures fault { IfErr result (λ fault. comes_of_writing fault ≡ false) }
{
    let mut beginning = Vec::new(alloc);
    split_text(alloc, options, reader, hash_builder, &mut beginning)
}

// The same, with the beginning of the line that a fault names, or the name of the class.
fn split_text<R: Read, S: BuildHasher + Copy, A: Allocator + Copy>(
    alloc: A,
    options: SplitOptions,
    reader: &mut R,
    hash_builder: S,
    beginning: &mut Vec<u8, A>,
) -> Result<Vec<u8, A>, SplitFault>
    ensures table { IfOk result (λ text. ReadWhole (R.remaining reader.old) (R.remaining reader.new)
        (λ input. IsSplitTable options.form options.sizes options.idle (option_map non_zero_usize_get options.sample)
        (non_zero_usize_get options.budget) (lines_of input) text.items)) }
    ensures refused { IfErr result (λ fault. comes_of_a_line fault ≡ true
        → ReadWhole (R.remaining reader.old) (R.remaining reader.new) (λ input. IsSaidOfLines options.idle options.sizes fault (lines_of input))) }
    ensures shown { IfErr result (λ fault. comes_of_a_line fault ≡ true
        → ReadWhole (R.remaining reader.old) (R.remaining reader.new) (λ input. IsShownOf fault (lines_of input) beginning.new.items)) }
    ensures no_room { IfErr result (λ fault. (size : ℕ) → fault ≡ SplitFault.NoRoom size
        → ReadWhole (R.remaining reader.old) (R.remaining reader.new)
        (λ input. HasNoRoom options.sizes options.idle (option_map non_zero_usize_get options.sample)
        (non_zero_usize_get options.budget) size (lines_of input) beginning.new.items)) }
    ensures fault { IfErr result (λ fault. comes_of_writing fault ≡ false) }
{
    let passes = match read_classes(
        alloc,
        options.sizes,
        options.idle,
        options.sample,
        reader,
        hash_builder,
        beginning,
    ) {
        Ok(passes) => passes,
        Err(fault) => return Err(fault),
    };
    checked_text(alloc, options, &passes, beginning)
}

// The text, if the budget has room for each request. The name of the first class where it has none is put into `name`.
fn checked_text<S: BuildHasher + Copy, A: Allocator + Copy>(
    alloc: A,
    options: SplitOptions,
    passes: &Passes<S, A>,
    name: &mut Vec<u8, A>,
) -> Result<Vec<u8, A>, SplitFault>
    ensures table { (lines : List (List ℕ)) → HasTakenLines options.sizes options.idle (option_map non_zero_usize_get options.sample) lines passes.now
        → IfOk result (λ text. IsSplitTable options.form options.sizes options.idle (option_map non_zero_usize_get options.sample)
        (non_zero_usize_get options.budget) lines text.items) }
    ensures no_room { (lines : List (List ℕ)) → HasTakenLines options.sizes options.idle (option_map non_zero_usize_get options.sample) lines passes.now
        → IfErr result (λ fault. (size : ℕ) → fault ≡ SplitFault.NoRoom size
        → HasNoRoom options.sizes options.idle (option_map non_zero_usize_get options.sample) (non_zero_usize_get options.budget) size lines name.new.items) }
    ensures line { IfErr result (λ fault. comes_of_a_line fault ≡ false) }
    ensures fault { IfErr result (λ fault. comes_of_writing fault ≡ false) }
{
    let Ok(shares) = shares_of(alloc, options.sample, &passes.classes) else {
        return Err(SplitFault::Other(Fault::Memory));
    };
    match check_room(options.budget, &shares, name) {
        Ok(()) => {}
        Err(fault) => return Err(fault),
    }
    match text_for(alloc, options, passes, &shares) {
        Ok(text) => Ok(text),
        Err(_) => Err(SplitFault::Other(Fault::Memory)),
    }
}

// The text of these shares of the passes.
fn text_for<S: BuildHasher + Copy, A: Allocator + Copy>(
    alloc: A,
    options: SplitOptions,
    passes: &Passes<S, A>,
    shares: &[Share<A>],
) -> Result<Vec<u8, A>, AllocError>
    ensures { (lines : List (List ℕ)) → HasTakenLines options.sizes options.idle (option_map non_zero_usize_get options.sample) lines passes.now
        → HaveShares options.sizes options.idle (option_map non_zero_usize_get options.sample) (requests_in options.idle lines)
        (map name_of passes.now.classes.items) shares.now
        → All (HasRoom options.sizes (option_map non_zero_usize_get options.sample) (non_zero_usize_get options.budget) (requests_in options.idle lines))
        (map name_of passes.now.classes.items)
        → IfOk result (λ text. IsSplitTable options.form options.sizes options.idle (option_map non_zero_usize_get options.sample)
        (non_zero_usize_get options.budget) lines text.items) }
{
    let all = Share {
        name: Vec::from_slice(alloc, b"one for all")?,
        requests: passes.requests,
        size: passes.size,
        sample: options.sample,
        kept: passes.kept,
        curve: curve_of(alloc, &passes.all)?,
    };
    let SplitOptions {
        budget: whole,
        sizes,
        idle: _,
        sample,
        form,
    } = options;
    let budget = part_in(sample, whole.get());
    let step = step_of(budget);
    let capacities = split(alloc, step, budget, shares)?;
    let table = table_of(alloc, sizes, whole, budget, step, shares, &capacities, &all)?;
    text_of(alloc, form, &table)
}

// The least step of which at most a thousand are within the budget.
fn step_of(budget: usize) -> NonZeroUsize
    ensures { non_zero_usize_get result ≡ step_for budget }
{
    NonZeroUsize::MIN.saturating_add(budget / (MOST_STEPS + 1))
}
