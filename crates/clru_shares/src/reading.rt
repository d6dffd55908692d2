//! The one reading of a log whose lines begin with classes.
ghost use Rattle.std.specs.Prelude.{◌≡◌, ◌≢◌, ◌∷◌, ◌++◌, ◌+◌, ◌^◌, ◌<◌, ◌≤◌, ℕ, Bool, List, [], length, map, take, true, false, Some, IfErr, IfOk, OnOk};
ghost use Rattle.std.specs.Int.NonZero.{non_zero_usize_get};
ghost use Rattle.std.specs.Option.{option_map};
ghost use Rattle.clru_text.specs.Keys.{line_of};
ghost use Rattle.clru_text.specs.Lines.{lines_of};
ghost use Rattle.clru_text.specs.Whole.{ReadWhole};
ghost use Rattle.clru_shares.specs.Faults.{IsNumbered, comes_of_a_line, comes_of_writing};
ghost use Rattle.clru_shares.specs.Classes.{class_in, most_classes};
ghost use Rattle.clru_shares.specs.LinePasses.{HasTakenBy};
ghost use Rattle.clru_shares.specs.Passes.{BelongsAt, HasTakenAll, HasTakenLines, HaveTaken, name_of, next_kept};
ghost use Rattle.clru_shares.specs.Places.{IsNoted};
ghost use Rattle.clru_shares.specs.Refusals.{IsSaidOfLines, IsSaidOfRests, IsShownOf, most_shown};
ghost use Rattle.clru_shares.specs.Sampled.{is_in as is_in_by};
ghost use Rattle.clru_shares.specs.Sizes.{own_size};
ghost use Rattle.clru_shares.specs.Times.{limit_of as limit_of_by};

use crate::class::class_of;
use crate::classes::{Class, kept_at, place_of, take_classed};
use crate::fault::SplitFault;
use crate::latest::{Places, all_of, note_kept, own_of, soon_of};
use crate::pass::{Asked, LinePass, empty_pass, take_kept};
use crate::sampled::{is_in, next_number};
use crate::size::size_of_request;
use clru_linked_map::BytesMap;
use clru_text::{Fault, LineBuffer, OwnedKey, read_fault, split_time};
use std::alloc::{AllocError, Allocator};
use std::hash::BuildHasher;
use std::io::Read;
use std::num::NonZeroUsize;

/// So many bytes of a line at fault are shown.
const MOST_SHOWN: usize = 60;

/// The passes over a log: one for each class, and one for all lines; where the latest request of each line was, for all of these
/// passes; how many lines there are, by size their size together, and how many of them were kept.
#[derive(Drop)]
pub(crate) struct Passes<S: BuildHasher + Copy, A: Allocator + Copy> {
    pub(crate) classes: Vec<Class<A>, A>,
    pub(crate) all: LinePass<A>,
    pub(crate) latest: BytesMap<Places, S, A>,
    pub(crate) requests: usize,
    pub(crate) size: usize,
    pub(crate) kept: usize,
}

/// Returns the passes over all lines, or over those of a sample. Each line must begin with a class, under an idle limit behind a time;
/// by size, a size must follow. The beginning of the line that a fault names is put into `beginning`.
///
/// The fault of a line is returned once all is read, because it is one of the whole input; refused memory at once.
pub(crate) fn read_classes<R: Read, S: BuildHasher + Copy, A: Allocator + Copy>(
    alloc: A,
    sizes: bool,
    idle: Option<usize>,
    sample: Option<NonZeroUsize>,
    reader: &mut R,
    hash_builder: S,
    beginning: &mut Vec<u8, A>,
) -> Result<Passes<S, A>, SplitFault>
    ensures taken { IfOk result (λ passes. ReadWhole (R.remaining reader.old) (R.remaining reader.new)
        (λ input. HasTakenLines sizes idle (option_map non_zero_usize_get sample) (lines_of input) passes)) }
    ensures refused { IfErr result (λ fault. comes_of_a_line fault ≡ true → ReadWhole (R.remaining reader.old) (R.remaining reader.new)
        (λ input. IsSaidOfLines idle sizes fault (lines_of input))) }
    ensures shown { IfErr result (λ fault. comes_of_a_line fault ≡ true → ReadWhole (R.remaining reader.old) (R.remaining reader.new)
        (λ input. IsShownOf fault (lines_of input) beginning.new.items)) }
    ensures no_room { IfErr result (λ fault. (size : ℕ) → fault ≢ SplitFault.NoRoom size) }
    ensures fault { IfErr result (λ fault. comes_of_writing fault ≡ false) }
{
    let mut passes = Passes {
        classes: Vec::new(alloc),
        all: empty_pass(alloc, sizes),
        latest: BytesMap::new(alloc, hash_builder),
        requests: 0,
        size: 0,
        kept: 0,
    };
    let mut buffer = LineBuffer::new(alloc);
    let mut line = OwnedKey(Vec::new(alloc));
    let mut rest = OwnedKey(Vec::new(alloc));
    let mut number = 0;
    let mut refused = None;
    'lines: loop {
        match buffer.read_line(reader, &mut line.0) {
            Ok(true) => {}
            Ok(false) => break,
            Err(error) => return Err(SplitFault::Other(read_fault(error))),
        }
        number += 1;
        if refused.is_none() {
            match take_any(
                alloc,
                sizes,
                idle,
                sample,
                &mut passes,
                &line,
                &mut rest,
                number,
            ) {
                Ok(()) => {}
                Err(SplitFault::Other(fault)) => return Err(SplitFault::Other(fault)),
                Err(fault) => {
                    let Ok(()) = keep_beginning(beginning, &line.0) else {
                        return Err(SplitFault::Other(Fault::Memory));
                    };
                    refused = Some(fault);
                }
            }
        }
    }
    match refused {
        None => Ok(passes),
        Some(fault) => Err(fault),
    }
}

// Of a line at fault so much is kept.
fn keep_beginning<A: Allocator>(beginning: &mut Vec<u8, A>, line: &[u8]) -> Result<(), AllocError>
    ensures { OnOk result (beginning.new.items ≡ take most_shown line.now) }
{
    beginning.clear();
    beginning.extend_from_slice(beginning_of(line))
}

fn beginning_of(line: &[u8]) -> &[u8]
    ensures { result.now ≡ take most_shown line.now }
{
    if line.len() > MOST_SHOWN {
        &line[..MOST_SHOWN]
    } else {
        line
    }
}

// The idle limit of passes.
fn limit_of(idle: Option<usize>) -> usize
    ensures { result ≡ limit_of_by idle }
{
    match idle {
        Some(limit) => limit,
        None => usize::MAX,
    }
}

// Counts one more line, of this number. Under an idle limit it begins with a time, and what follows that is put into `rest`.
fn take_any<S: BuildHasher + Copy, A: Allocator + Copy>(
    alloc: A,
    sizes: bool,
    idle: Option<usize>,
    sample: Option<NonZeroUsize>,
    passes: &mut Passes<S, A>,
    line: &OwnedKey<A>,
    rest: &mut OwnedKey<A>,
    number: usize,
) -> Result<(), SplitFault>
    requires { (lines : List (List ℕ)) × HasTakenLines sizes idle (option_map non_zero_usize_get sample) lines passes.old
        × (number ≡ length lines + 1) }
    ensures taken { (lines : List (List ℕ)) → HasTakenLines sizes idle (option_map non_zero_usize_get sample) lines passes.old
        → number ≡ length lines + 1
        → OnOk result (HasTakenLines sizes idle (option_map non_zero_usize_get sample) (lines ++ line_of line.now ∷ []) passes.new) }
    ensures refused { (lines more : List (List ℕ)) → HasTakenLines sizes idle (option_map non_zero_usize_get sample) lines passes.old
        → number ≡ length lines + 1
        → IfErr result (λ fault. comes_of_a_line fault ≡ true → IsSaidOfLines idle sizes fault (lines ++ line_of line.now ∷ more)) }
    ensures number { IfErr result (IsNumbered number) }
    ensures fault { IfErr result (λ fault. comes_of_writing fault ≡ false) }
{
    match idle {
        None => take_both(alloc, sizes, usize::MAX, sample, passes, line, 0, number),
        Some(limit) => take_timed(alloc, sizes, limit, sample, passes, line, rest, number),
    }
}

// The same under this limit.
fn take_timed<S: BuildHasher + Copy, A: Allocator + Copy>(
    alloc: A,
    sizes: bool,
    limit: usize,
    sample: Option<NonZeroUsize>,
    passes: &mut Passes<S, A>,
    line: &OwnedKey<A>,
    rest: &mut OwnedKey<A>,
    number: usize,
) -> Result<(), SplitFault>
    requires { (lines : List (List ℕ)) × HasTakenLines sizes (Some limit) (option_map non_zero_usize_get sample) lines passes.old
        × (number ≡ length lines + 1) }
    ensures taken { (lines : List (List ℕ)) → HasTakenLines sizes (Some limit) (option_map non_zero_usize_get sample) lines passes.old
        → number ≡ length lines + 1
        → OnOk result (HasTakenLines sizes (Some limit) (option_map non_zero_usize_get sample) (lines ++ line_of line.now ∷ []) passes.new) }
    ensures refused { (lines more : List (List ℕ)) → HasTakenLines sizes (Some limit) (option_map non_zero_usize_get sample) lines passes.old
        → number ≡ length lines + 1
        → IfErr result (λ fault. comes_of_a_line fault ≡ true → IsSaidOfLines (Some limit) sizes fault (lines ++ line_of line.now ∷ more)) }
    ensures number { IfErr result (IsNumbered number) }
    ensures fault { IfErr result (λ fault. comes_of_writing fault ≡ false) }
{
    let Some((time, behind)) = split_time(&line.0) else {
        return Err(SplitFault::NoTime(number));
    };
    rest.0.clear();
    let Ok(()) = rest.0.extend_from_slice(behind) else {
        return Err(SplitFault::Other(Fault::Memory));
    };
    take_both(alloc, sizes, limit, sample, passes, rest, time, number)
}

// Counts one more line without its time, of this number. If it is one of the sample, it goes into the pass of its class and into that
// for all.
fn take_both<S: BuildHasher + Copy, A: Allocator + Copy>(
    alloc: A,
    sizes: bool,
    limit: usize,
    sample: Option<NonZeroUsize>,
    passes: &mut Passes<S, A>,
    key: &OwnedKey<A>,
    time: usize,
    number: usize,
) -> Result<(), SplitFault>
    requires { (lines : List (List ℕ)) × (kept : List (List ℕ × ℕ)) × HasTakenAll sizes limit lines kept passes.old
        × (number ≡ length lines + 1) }
    ensures taken { (lines : List (List ℕ)) (kept : List (List ℕ × ℕ)) → HasTakenAll sizes limit lines kept passes.old
        → number ≡ length lines + 1 → OnOk result (HasTakenAll sizes limit (lines ++ line_of key.now ∷ [])
        (next_kept (is_in_by (option_map non_zero_usize_get sample) (line_of key.now)) kept (line_of key.now, time)) passes.new) }
    ensures refused { (lines rest : List (List ℕ)) (kept : List (List ℕ × ℕ)) → HasTakenAll sizes limit lines kept passes.old
        → number ≡ length lines + 1
        → IfErr result (λ fault. comes_of_a_line fault ≡ true → IsSaidOfRests sizes fault (lines ++ line_of key.now ∷ rest)) }
    ensures number { IfErr result (IsNumbered number) }
    ensures fault { IfErr result (λ fault. comes_of_writing fault ≡ false) }
{
    let Some(name) = class_of(&key.0) else {
        return Err(SplitFault::NoClass(number));
    };
    let Some(size) = size_of_request(sizes, &key.0) else {
        return Err(SplitFault::NoSize(number));
    };
    let Some(total) = passes.size.checked_add(size) else {
        return Err(SplitFault::TooLarge);
    };
    let is_kept = is_in(sample, &key.0);
    match take_known(alloc, sizes, limit, passes, name, key, is_kept, time, size) {
        Ok(true) => {}
        Ok(false) => return Err(SplitFault::TooManyClasses(number)),
        Err(_) => return Err(SplitFault::Other(Fault::Memory)),
    }
    passes.requests = number;
    passes.size = total;
    passes.kept = next_number(is_kept, passes.kept);
    Ok(())
}

// Counts one more line, of this class and size, and takes it if it is kept. Returns whether there was room for the class.
fn take_known<S: BuildHasher + Copy, A: Allocator + Copy>(
    alloc: A,
    sizes: bool,
    limit: usize,
    passes: &mut Passes<S, A>,
    name: &[u8],
    key: &OwnedKey<A>,
    is_kept: bool,
    time: usize,
    size: usize,
) -> Result<bool, AllocError>
    requires size { size ≡ own_size sizes (line_of key.now) }
    requires name { name.now ≡ class_in (line_of key.now) }
    requires taken { (lines : List (List ℕ)) × (kept : List (List ℕ × ℕ)) × HasTakenAll sizes limit lines kept passes.old }
    ensures classes { (lines : List (List ℕ)) (kept : List (List ℕ × ℕ)) → HasTakenAll sizes limit lines kept passes.old
        → IfOk result (λ has_room. has_room ≡ true → HaveTaken sizes limit (lines ++ line_of key.now ∷ [])
        (next_kept is_kept kept (line_of key.now, time)) passes.new.classes.items) }
    ensures all { (lines : List (List ℕ)) (kept : List (List ℕ × ℕ)) → HasTakenAll sizes limit lines kept passes.old
        → IfOk result (λ has_room. has_room ≡ true
        → HasTakenBy sizes limit (next_kept is_kept kept (line_of key.now, time)) passes.new.all) }
    ensures latest { (lines : List (List ℕ)) (kept : List (List ℕ × ℕ)) → HasTakenAll sizes limit lines kept passes.old
        → IfOk result (λ has_room. has_room ≡ true → IsNoted (next_kept is_kept kept (line_of key.now, time)) passes.new.latest) }
    ensures full { IfOk result (λ has_room. has_room ≡ false
        → (most_classes ≤ length passes.old.classes.items)
        × ((at : ℕ) × BelongsAt (map name_of passes.old.classes.items) name.now at)) }
    ensures few { IfOk result (λ has_room. has_room ≡ true → length passes.old.classes.items ≤ most_classes
        → length passes.new.classes.items ≤ most_classes) }
    ensures requests { passes.new.requests ≡ passes.old.requests }
    ensures size { passes.new.size ≡ passes.old.size }
    ensures kept { passes.new.kept ≡ passes.old.kept }
{
    let place = place_of(&passes.classes, name);
    let own = kept_at(&passes.classes, place);
    let all = passes.kept;
    let places = note_kept(is_kept, &mut passes.latest, key, Places { own, all, time })?;
    let soon = soon_of(limit, time, places);
    let has_room = take_classed(
        alloc,
        sizes,
        &mut passes.classes,
        place,
        name,
        is_kept,
        Asked {
            latest: own_of(places),
            soon,
            size,
        },
    )?;
    if has_room {
        let asked = Asked {
            latest: all_of(places),
            soon,
            size,
        };
        take_kept(is_kept, &mut passes.all, asked)?;
    }
    Ok(has_room)
}
