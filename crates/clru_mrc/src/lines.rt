//! What is noted of the lines of an input: how many there are, which one leads, and which is the first without a size or a time.

use crate::several::SizesOfKeys;
use crate::sized::behind_size;
use crate::votes::Leader;
use clru_text::{Capacities, Options, Sample, Seed, next_line, size_of, split_time};
use std::alloc::AllocError;

/// How many bytes of a line are kept. One that is longer counts as one that is like no other.
const MOST: usize = 4096;

/// Fewer lines than this are no log, and what looks odd with them is not told.
pub(crate) const FEW: u64 = 1000;

const MILLISECONDS_OF_1980: u64 = 315_532_800_000;

const MILLISECONDS_OF_2200: u64 = 7_258_118_400_000;

/// What is noted of the lines.
#[derive(Drop)]
pub(crate) struct Lines {
    pub(crate) count: u64,
    pub(crate) empty: u64,
    pub(crate) returns: u64,
    // How many of them come first, and are not counted in the report.
    after: u64,
    // The sizes of the counted lines together, if a report wants them.
    pub(crate) size: u64,
    sums_up: bool,
    // Whether each line is to begin with a size, behind its time if it has one.
    have_sizes: bool,
    // Whether each line is to begin with a time.
    have_times: bool,
    // Whether each is to begin with one of them, and did so far.
    have_parts: bool,
    // The sizes of keys, where a key may have several.
    sizes: Option<SizesOfKeys>,
    // What is read of a line whose end is not read yet, and its last byte.
    begun: Vec<u8>,
    last: Option<u8>,
    is_long: bool,
    leader: Leader,
    // The number of the first line without a size, or without a time.
    odd_number: u64,
    odd: Vec<u8>,
    // The latest time, in millionths; how many were before the one of their line before, and by how much at most.
    time: usize,
    pub(crate) back: u64,
    pub(crate) most_back: usize,
}

impl Lines {
    pub(crate) fn new(rt: &HostRuntime, options: &Options, seed: Seed) -> Lines {
        let after = match options.after {
            Some(after) => after.get() as u64,
            None => 0,
        };
        Lines {
            count: 0,
            after,
            empty: 0,
            returns: 0,
            size: 0,
            sums_up: matches!(options.capacities, Capacities::ByteHitRatio(_)),
            have_sizes: options.sizes,
            have_times: options.times.is_some(),
            have_parts: options.sizes || options.times.is_some(),
            // (of a sample no more is held than the sample)
            sizes: if options.sizes && !options.one_size && options.sample == Sample::Whole {
                Some(SizesOfKeys::new(rt, seed))
            } else {
                None
            },
            begun: Vec::new(rt.alloc()),
            last: None,
            is_long: false,
            leader: Leader::new(rt.alloc()),
            odd_number: 0,
            odd: Vec::new(rt.alloc()),
            time: 0,
            back: 0,
            most_back: 0,
        }
    }

    /// Looks at more bytes.
    pub(crate) fn note(&mut self, bytes: &[u8]) {
        if self.last.is_none() {
            self.note_lines(bytes);
            return;
        }
        if let Some((part, rest)) = next_line(bytes) {
            self.go_on(part);
            if part.len() < bytes.len() {
                self.end_begun();
                self.note_lines(rest);
            }
        }
    }

    // Lines that begin here.
    fn note_lines(&mut self, bytes: &[u8]) {
        let held = self.take_leader();
        let mut votes = held.votes();
        let mut left = bytes;
        'lines: while let Some((line, rest)) = next_line(left) {
            if line.len() == left.len() {
                self.go_on(line);
                break;
            }
            if line.len() <= MOST {
                self.note_line(line, line.last().copied());
                votes.count(line);
            } else {
                self.note_long(line);
                votes.count_against();
            }
            left = rest;
        }
        let ended = votes.end(*self.begun.allocator());
        self.leader = held;
        self.leader.follow(ended);
    }

    fn note_long(&mut self, line: &[u8]) {
        self.is_long = true;
        self.note_kept(line.get(..MOST).unwrap_or(line), line.last().copied());
        self.is_long = false;
    }

    fn take_leader(&mut self) -> Leader {
        let none = Leader::new(*self.begun.allocator());
        std::mem::replace(&mut self.leader, none)
    }

    /// The input ended. Its last line needs no newline.
    pub(crate) fn end(&mut self) {
        if self.last.is_some() {
            self.end_begun();
        }
    }

    fn go_on(&mut self, part: &[u8]) {
        if let Some(last) = part.last() {
            self.last = Some(*last);
            let kept = self.begun.len().saturating_add(part.len()) <= MOST;
            if self.is_long || !kept || self.begun.extend_from_slice(part).is_err() {
                self.keep_beginning(part);
            }
        }
    }

    // Of a line that is too long its beginning is kept.
    fn keep_beginning(&mut self, part: &[u8]) {
        self.is_long = true;
        let room = MOST.saturating_sub(self.begun.len());
        if let Some(beginning) = part.get(..room) {
            let _ = self.begun.extend_from_slice(beginning);
        }
    }

    // The line that was begun ends.
    fn end_begun(&mut self) {
        let none = Vec::new(*self.begun.allocator());
        let mut line = std::mem::replace(&mut self.begun, none);
        self.note_kept(&line, self.last);
        let held = self.take_leader();
        let mut votes = held.votes();
        if self.is_long {
            votes.count_against();
        } else {
            votes.count(&line);
        }
        let ended = votes.end(*line.allocator());
        self.leader = held;
        self.leader.follow(ended);
        line.clear();
        self.begun = line;
        self.last = None;
        self.is_long = false;
    }

    // What is kept of a line that is too long or was begun, and its last byte.
    #[inline(never)]
    fn note_kept(&mut self, kept: &[u8], last: Option<u8>) {
        self.note_line(kept, last);
    }

    // One more line, and its last byte. (what most lines need is inlined here, without a call)
    #[inline(always)]
    fn note_line(&mut self, line: &[u8], last: Option<u8>) {
        self.count = self.count.saturating_add(1);
        match last {
            None => self.empty = self.empty.saturating_add(1),
            Some(b'\r') => self.returns = self.returns.saturating_add(1),
            Some(_) => {}
        }
        if self.have_parts && !self.note_parts(line) {
            self.note_odd(line);
        }
    }

    // (the report ends at this line, so no more is to be known of others; but if memory was refused, a line may only seem odd)
    #[inline(never)]
    fn note_odd(&mut self, line: &[u8]) {
        self.have_parts = self.is_long;
        if self.odd_number == 0 {
            self.odd_number = self.count;
            let beginning = line.get(..SHOWN).unwrap_or(line);
            let _ = self.odd.extend_from_slice(beginning);
        }
    }

    // Whether the line has a time and a size, where it is to have them. (they stand among the bytes that are kept, or it has none)
    #[inline(always)]
    fn note_parts(&mut self, line: &[u8]) -> bool {
        if self.have_times {
            self.note_timed(line)
        } else {
            self.note_size(line)
        }
    }

    #[inline(never)]
    fn note_timed(&mut self, line: &[u8]) -> bool {
        match split_time(line) {
            Some((time, rest)) => {
                if time < self.time {
                    self.note_back(self.time.saturating_sub(time));
                }
                self.time = time;
                !self.have_sizes || self.note_size(rest)
            }
            None => false,
        }
    }

    #[inline(never)]
    fn note_back(&mut self, by: usize) {
        self.back = self.back.saturating_add(1);
        self.most_back = self.most_back.max(by);
    }

    // Whether this begins with a size. (its value is computed only where it is used)
    #[inline(always)]
    fn note_size(&mut self, line: &[u8]) -> bool {
        let Some(key) = behind_size(line) else {
            return false;
        };
        if let Some(sizes) = &mut self.sizes {
            if let Some(hash) = sizes.looked_at(line, key) {
                if !self.is_long {
                    sizes.note(hash, size_at(line));
                }
            }
        }
        if self.sums_up && self.count > self.after {
            self.size = self.size.saturating_add(size_at(line) as u64);
        }
        true
    }

    /// Whether the last time looks like one in milliseconds since 1970, between 1980 and 2200.
    pub(crate) fn have_milliseconds(&self) -> bool {
        (MILLISECONDS_OF_1980..MILLISECONDS_OF_2200).contains(&(self.time as u64 / 1_000_000))
    }

    /// How many lines the report counts.
    pub(crate) fn counted(&self) -> u64 {
        self.count.saturating_sub(self.after)
    }

    /// Whether there are so many that what looks odd with them is told.
    pub(crate) fn are_many(&self) -> bool {
        self.count >= FEW
    }

    /// The line that more than nine tenths of all are, and how many are at least. One that is more than 19 in 20 is found in any
    /// order.
    pub(crate) fn most_of_all(&self) -> Option<(u64, &[u8])> {
        let (seen, leader) = self.leader.seen();
        let is_most = seen.saturating_mul(10) > self.count.saturating_mul(9);
        if is_most && self.are_many() {
            Some((seen, leader))
        } else {
            None
        }
    }

    /// What `SizesOfKeys` tells, if the sizes of keys are looked at.
    pub(crate) fn several_sizes(&self) -> Option<(usize, usize, bool)> {
        match &self.sizes {
            Some(sizes) => sizes.told(),
            None => None,
        }
    }

    /// What stands in the line of this number, if it is the first without a size, or without a time.
    pub(crate) fn without_size(&self, number: usize) -> Option<&[u8]> {
        if self.odd_number == number as u64 {
            Some(self.odd.as_slice())
        } else {
            None
        }
    }
}

/// How many bytes of a line are shown.
pub(crate) const SHOWN: usize = 60;

/// The beginning of a line in quotes, with whatever is no plain letter escaped.
pub(crate) fn quoted(rt: &HostRuntime, line: &[u8]) -> Result<String, AllocError> {
    let mut text = String::new(rt.alloc());
    text.push('"')?;
    for byte in line.iter().take(SHOWN) {
        match *byte {
            b'\t' => text.push_str("\\t")?,
            b'\r' => text.push_str("\\r")?,
            b'"' => text.push_str("\\\"")?,
            b'\\' => text.push_str("\\\\")?,
            b' '..=b'~' => text.push(*byte as char)?,
            other => {
                let code = format!(in rt.alloc(); "\\x{other:02x}")?;
                text.push_str(&code)?;
            }
        }
    }
    text.push('"')?;
    Ok(text)
}

// The size of a line that begins with one.
fn size_at(line: &[u8]) -> usize {
    match size_of(line) {
        Some(size) => size.get(),
        None => 0,
    }
}

/// What is to begin with the size: the line, or what follows its time and a blank.
pub(crate) fn sized_part(line: &[u8], has_time: bool) -> &[u8] {
    if !has_time {
        return line;
    }
    match line.iter().position(|byte| *byte == b' ') {
        Some(at) => line.get(at.saturating_add(1)..).unwrap_or(&[]),
        None => &[],
    }
}

/// What stands where a size should, in words that follow the line.
pub(crate) fn instead_of_size(line: &[u8]) -> &'static str {
    let digits = line.iter().take_while(|byte| byte.is_ascii_digit()).count();
    let next = line.get(digits);
    match (digits, next) {
        (0, None) => ", which is empty",
        (0, Some(b'-')) => ", where a - stands in place of the size",
        (0, _) => ", where no digit stands first",
        (_, Some(b'\t')) => ", where a tab stands in place of the blank",
        (_, Some(b' ')) => ", where the number is too great or has too many digits",
        (_, None) => ", where nothing follows the number",
        _ => ", where no blank follows the number",
    }
}

/// What stands where a time should, in words that follow the line.
pub(crate) fn instead_of_time(line: &[u8]) -> &'static str {
    let figures = line
        .iter()
        .take_while(|byte| byte.is_ascii_digit() || **byte == b'.')
        .count();
    let points = line
        .iter()
        .take(figures)
        .filter(|byte| **byte == b'.')
        .count();
    match (line.first(), line.get(figures)) {
        (None, _) => ", which is empty",
        (Some(first), _) if !first.is_ascii_digit() => ", where no digit stands first",
        _ if points > 1 => ", where the number has a second point",
        (_, Some(b' ')) if points == 0 && (16..20).contains(&figures) => {
            ", where the number is too great: divide micro- or nanoseconds"
        }
        (_, Some(b'\t')) => ", where a tab stands in place of the blank",
        (_, Some(b' ')) => ", where the number is too great or has too many digits",
        (_, None) => ", where nothing follows the number",
        _ => ", where no blank follows the number",
    }
}
