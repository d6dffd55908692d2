//! Writing a part's text.
ghost use Rattle.std.specs.Prelude.{◌≡◌, List, ℕ, ◌++◌, flat_map, OnOk, IfOk};
ghost use Rattle.clru_parts.specs.Files.{block_text, body_text, counts_text, file_of, number_line, part_text};

use crate::checksum::checksum_of;
use crate::number::push_number;
use crate::part::{Counts, Part};
use std::alloc::{AllocError, Allocator};

pub(crate) const HEAD: &[u8] = b"clru_mrc part 1\nkeys, one in ";

/// Appends the text of a part.
///
/// If memory is refused, no more can be said of the text.
/// Cost: a few steps for each byte of its text, and memory for each line of a number in turn.
pub fn write_part<A: Allocator + Copy>(
    alloc: A,
    part: &Part<A>,
    text: &mut Vec<u8, A>,
) -> Result<(), AllocError>
    ensures { OnOk result (text.new.items ≡ text.old.items ++ part_text (file_of part.now)) }
{
    let start = text.len();
    push_body(alloc, part, text)?;
    let checksum = checksum_of(&text.as_slice()[start..]);
    push_number(alloc, text, checksum)?;
    Ok(())
}

// All but the checksum.
fn push_body<A: Allocator + Copy>(
    alloc: A,
    part: &Part<A>,
    text: &mut Vec<u8, A>,
) -> Result<(), AllocError>
    ensures { OnOk result (text.new.items ≡ text.old.items ++ body_text (file_of part.now)) }
{
    let misses = numbers_text(alloc, part.curve.as_slice())?;
    push_counts(alloc, part.counts, text)?;
    push_block(alloc, part.firsts.as_slice(), text)?;
    push_block(alloc, part.lasts.as_slice(), text)?;
    push_block(alloc, misses.as_slice(), text)?;
    Ok(())
}

#[tactic(auto, unfolding(crate::specs::Files::head_text))]
fn push_counts<A: Allocator + Copy>(
    alloc: A,
    counts: Counts,
    text: &mut Vec<u8, A>,
) -> Result<(), AllocError>
    ensures { OnOk result (text.new.items ≡ text.old.items ++ counts_text counts) }
{
    text.extend_from_slice(HEAD)?;
    push_number(alloc, text, counts.one_in)?;
    push_number(alloc, text, counts.requests)?;
    push_number(alloc, text, counts.bytes)?;
    Ok(())
}

fn push_block<A: Allocator + Copy>(
    alloc: A,
    bytes: &[u8],
    text: &mut Vec<u8, A>,
) -> Result<(), AllocError>
    ensures { OnOk result (text.new.items ≡ text.old.items ++ block_text bytes.now) }
{
    push_number(alloc, text, bytes.len())?;
    text.extend_from_slice(bytes)
}

// A line for each number.
fn numbers_text<A: Allocator + Copy>(alloc: A, numbers: &[usize]) -> Result<Vec<u8, A>, AllocError>
    ensures { IfOk result (λ text. text.items ≡ flat_map number_line numbers.now) }
{
    let mut text = Vec::new(alloc);
    for number in numbers {
        push_number(alloc, &mut text, *number)?;
    }
    Ok(text)
}
