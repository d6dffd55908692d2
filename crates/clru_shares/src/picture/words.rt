//! Numbers and names in the picture.

use crate::table::Row;
use std::alloc::Allocator;
use std::fmt::{self, Write};

/// A number with a comma before each three digits.
pub(super) fn write_number<W: Write>(text: &mut W, number: usize) -> fmt::Result {
    if number < 1000 {
        return write!(text, "{number}");
    }
    write_number(text, number / 1000)?;
    let rest = number % 1000;
    write!(text, ",{rest:03}")
}

/// A number, and the name of what it counts: `one` behind 1, and `several` behind any other.
pub(super) fn write_counted<W: Write>(
    text: &mut W,
    number: usize,
    one: &str,
    several: &str,
) -> fmt::Result {
    write_number(text, number)?;
    text.write_str(" ")?;
    text.write_str(if number == 1 { one } else { several })
}

/// A capacity, by size or by keys.
pub(super) fn write_capacity<W: Write>(
    text: &mut W,
    by_size: bool,
    capacity: usize,
) -> fmt::Result {
    if by_size {
        write_counted(text, capacity, "byte", "bytes")
    } else {
        write_counted(text, capacity, "key", "keys")
    }
}

/// What a row misses: what the split is to keep low.
pub(super) fn write_missed<W: Write, A: Allocator>(
    text: &mut W,
    by_size: bool,
    row: &Row<A>,
) -> fmt::Result {
    if by_size {
        write_counted(text, row.missed_size, "missed byte", "missed bytes")
    } else {
        write_counted(text, row.misses, "miss", "misses")
    }
}

/// The name of a class. Its bytes are letters that no picture has to escape.
pub(super) fn write_name<W: Write>(text: &mut W, name: &[u8]) -> fmt::Result {
    for byte in name {
        text.write_char(*byte as char)?;
    }
    Ok(())
}
