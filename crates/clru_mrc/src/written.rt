//! What is known of a report while it is written: the last row of its table.

use std::io::{self, Write};

/// Hands a report on, and keeps the last of its lines that begin with a number or a brace: a table's last row, or the numbers of a
/// summary.
#[derive(Drop)]
pub(crate) struct Written<W> {
    inner: W,
    line: Vec<u8>,
    row: Vec<u8>,
}

/// The row of the greatest capacity. By keys each has the size 1.
#[derive(Clone, Copy)]
pub(crate) struct LastRow {
    pub(crate) capacity: u64,
    pub(crate) misses: u64,
    pub(crate) missed_bytes: u64,
    // The two miss ratios as the report shows them, in millionths.
    pub(crate) miss_ratio: u64,
    pub(crate) byte_miss_ratio: u64,
}

impl<W: Write> Written<W> {
    pub(crate) fn new(rt: &HostRuntime, inner: W) -> Self {
        Written {
            inner,
            line: Vec::new(rt.alloc()),
            row: Vec::new(rt.alloc()),
        }
    }

    /// The second number of that line: the misses at the greatest capacity, or the distinct keys.
    pub(crate) fn last_misses(&self) -> Option<u64> {
        self.number(1)
    }

    /// The last row of a table, if it has one.
    pub(crate) fn last_row(&self, sizes: bool) -> Option<LastRow> {
        let misses = self.number(1)?;
        let miss_ratio = self.millionths(2)?;
        Some(LastRow {
            capacity: self.number(0)?,
            misses,
            missed_bytes: if sizes { self.number(3)? } else { misses },
            miss_ratio,
            byte_miss_ratio: if sizes {
                self.millionths(4)?
            } else {
                miss_ratio
            },
        })
    }

    // A number of that line.
    fn number(&self, at: usize) -> Option<u64> {
        self.text(at)?.parse().ok()
    }

    // One with six decimals.
    fn millionths(&self, at: usize) -> Option<u64> {
        let (whole, part) = self.text(at)?.split_once('.')?;
        let whole: u64 = whole.parse().ok()?;
        let part: u64 = part.parse().ok()?;
        Some(whole.saturating_mul(MILLION).saturating_add(part))
    }

    fn text(&self, at: usize) -> Option<&str> {
        let cell = self.row.split(|byte| *byte == b',').nth(at)?;
        // In JSON it stands behind its name.
        let number = cell.split(|byte| *byte == b':').last()?;
        str::from_utf8(number).ok()
    }

    fn note(&mut self, bytes: &[u8]) {
        let mut is_first = true;
        for part in bytes.split(|byte| *byte == b'\n') {
            if !is_first {
                self.end_line();
            }
            is_first = false;
            let room = KEPT.saturating_sub(self.line.len());
            let kept = part.get(..room).unwrap_or(part);
            let _ = self.line.extend_from_slice(kept);
        }
    }

    fn end_line(&mut self) {
        match self.line.first() {
            Some(b'0'..=b'9' | b'{') => std::mem::swap(&mut self.row, &mut self.line),
            _ => {}
        }
        self.line.clear();
    }
}

// Of a line so many bytes are kept, which five numbers fit in, in JSON with their names.
const KEPT: usize = 160;

pub(crate) const MILLION: u64 = 1_000_000;

impl<W: Write> Write for Written<W> {
    fn write(&mut self, buf: &[u8]) -> io::Result<usize> {
        let count = self.inner.write(buf)?;
        if let Some(bytes) = buf.get(..count) {
            self.note(bytes);
        }
        Ok(count)
    }

    fn flush(&mut self) -> io::Result<()> {
        self.inner.flush()
    }
}
