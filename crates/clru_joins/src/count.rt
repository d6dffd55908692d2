//! Counting a part of a log.
ghost use Rattle.std.specs.Prelude.{IfOk};
ghost use Rattle.clru_joins.specs.PartsOfLogs.{IsPartOf};
ghost use Rattle.clru_text.specs.Whole.{ReadWhole};

use clru_parts::{Counts, Part};
use clru_report::part_of;
use clru_text::ReadError;
use std::alloc::Allocator;
use std::hash::BuildHasher;
use std::io::Read;

/// Reads a part of a log to its end, and returns what is known of it.
///
/// Fails if memory is refused, or a read fails.
/// Cost: that of `part_of`, and a copy of the curve.
pub fn count_part<R: Read, S: BuildHasher + Drop, A: Allocator + Copy>(
    alloc: A,
    reader: &mut R,
    hash_builder: S,
) -> Result<Part<A>, ReadError>
    ensures { IfOk result (λ part. ReadWhole (R.remaining reader.old) (R.remaining reader.new) (λ input. IsPartOf input part)) }
{
    let found = part_of(alloc, reader, hash_builder)?;
    let Ok(curve) = Vec::from_slice(alloc, found.curve.as_slice()) else {
        return Err(ReadError::Memory);
    };
    let counts = Counts {
        one_in: 1,
        requests: found.requests,
        bytes: found.bytes,
    };
    Ok(Part {
        counts,
        firsts: found.firsts,
        lasts: found.lasts,
        curve,
    })
}
