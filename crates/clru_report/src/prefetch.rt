//! Lines that were read but not yet taken are looked up many at a time, so that none waits for memory by itself.
ghost use Rattle.std.specs.Prelude.{◌≡◌};

use clru_curve::NoMemory;
use clru_linked_map::BytesMap;
use clru_text::next_line;
use std::alloc::Allocator;
use std::hash::BuildHasher;
use std::num::NonZeroUsize;

/// As long as fewer distinct lines are held, they fit the processor's caches, and a look ahead would save nothing.
const FEW_LINES: usize = 4096;

/// Only lines that end within so many bytes are looked up, so that long ones take no more memory.
const AHEAD_BYTES: usize = 8192;

/// Is called after each insertion, and looks up the first whole lines of `behind`, at most `most` of them, if no line is left that was
/// looked up before. `left` is how many were left before the insertion; the result is how many are left now. The map stays as it is, also if
/// memory is refused.
/// Cost: for each line that of `BytesMap::announce` and `prefetch`.
pub(crate) fn prefetch<V: Copy, S: BuildHasher, A: Allocator + Copy>(
    map: &mut BytesMap<V, S, A>,
    left: usize,
    behind: &[u8],
    most: usize,
) -> Result<usize, NoMemory>
    ensures { map.new ≡ map.old }
{
    if left > 1 {
        return Ok(left - 1);
    }
    if map.len() < FEW_LINES {
        return Ok(0);
    }
    let mut count = 0;
    let mut behind = &behind[..behind.len().min(AHEAD_BYTES)];
    'lines: while count < most {
        let Some((line, rest)) = next_line(behind) else {
            break;
        };
        if line.len() == behind.len() {
            break;
        }
        map.announce(line)?;
        behind = rest;
        count += 1;
    }
    if count > 0 {
        map.prefetch()?;
    }
    Ok(count)
}

/// The bytes whose lines may be looked up: those behind a line, or none if a sample leaves lines out.
pub(crate) fn lines_ahead(one_in: NonZeroUsize, behind: &[u8]) -> &[u8] {
    if one_in.get() == 1 { behind } else { &[] }
}
