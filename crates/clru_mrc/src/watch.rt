//! What standard error says of an input: how far it is read, and why it may be no log.

use crate::lines::{FEW, Lines, instead_of_size, instead_of_time, quoted, sized_part};
use crate::ratio::has_ratio;
use crate::written::{LastRow, MILLION};
use clru_text::{Capacities, Options, Sample, Seed, time_of};
use std::io::{self, Read};
use std::time::{Duration, Instant};

// Fewer hits than one in so many requests look odd.
const FEW_HITS: u64 = 100;

/// Hands on what a reader gives, and looks at it.
#[derive(Drop)]
pub(crate) struct Watch<'h, R> {
    rt: &'h HostRuntime,
    inner: R,
    // What the input is called.
    name: &'static str,
    // When it told of progress last, where it is to tell.
    told: Option<Instant>,
    bytes: u64,
    lines: Lines,
    has_zero: bool,
    is_packed: bool,
}

impl<'h, R: Read> Watch<'h, R> {
    /// It tells of progress where it is asked to and the clock can be read, of a line without a size or a time where each is to have one,
    /// and of keys with several sizes unless each is to have one.
    pub(crate) fn new(
        rt: &'h HostRuntime,
        inner: R,
        name: &'static str,
        progress: bool,
        options: &Options,
        seed: Seed,
    ) -> Self {
        let told = if progress {
            Instant::now(rt).ok()
        } else {
            None
        };
        Watch {
            rt,
            inner,
            name,
            told,
            bytes: 0,
            lines: Lines::new(rt, options, seed),
            has_zero: false,
            is_packed: false,
        }
    }

    /// The reader.
    pub(crate) fn inner(&self) -> &R {
        &self.inner
    }

    /// Tells what of the whole input looks wrong, where its report has so many misses at the greatest capacity.
    pub(crate) fn warn(&self, misses: Option<u64>, options: &Options) {
        let (lines, empty, returns) = (self.lines.count, self.lines.empty, self.lines.returns);
        let name = self.name;
        if self.bytes == 0 {
            let _ = eprintln!(self.rt; "clru_mrc: {name} was empty, so there are no requests");
        }
        if self.is_packed {
            let _ = eprintln!(self.rt;
                "clru_mrc: {name} begins as gzip does: unpack it first, as in zcat FILE | clru_mrc"
            );
        } else if self.has_zero {
            let _ = eprintln!(self.rt; "clru_mrc: {name} has bytes of the value 0, as no text has");
        }
        if empty > 0 && empty < lines {
            let _ = eprintln!(self.rt;
                "clru_mrc: {empty} of {lines} lines are empty, each a request of one key"
            );
        }
        if returns > 0 && returns < lines {
            let _ = eprintln!(self.rt;
                "clru_mrc: {returns} of {lines} lines end with a carriage return, which is a part of their keys"
            );
        }
        self.warn_of_times(options);
        self.warn_of_misses(misses, options);
        self.warn_of_sizes(options);
        if let Some((count, line)) = self.lines.most_of_all() {
            if let Ok(key) = quoted(self.rt, line) {
                let _ = eprintln!(self.rt;
                    "clru_mrc: {count} of {lines} requests or more are for one key, {key}"
                );
            }
        }
    }

    fn warn_of_times(&self, options: &Options) {
        let (back, lines) = (self.lines.back, self.lines.count);
        if back > 0 && self.lines.are_many() {
            let most = self.lines.most_back;
            let (whole, part) = (most / 1_000_000, most % 1_000_000);
            let _ = eprintln!(self.rt;
                "clru_mrc: {back} of {lines} times go backwards, by up to {whole}.{part:06}: pass files oldest first"
            );
        }
        if has_limit(options) && self.lines.have_milliseconds() {
            self.say(
                "times look like milliseconds since 1970, and so a limit counts milliseconds: for 10m write 600000",
            );
        }
    }

    fn warn_of_sizes(&self, options: &Options) {
        if let Some((several, keys, are_all)) = self.lines.several_sizes() {
            let looked_at = if are_all { "" } else { " looked at" };
            let without = if options.after.is_some() {
                "without --after, "
            } else if options.times.is_some() {
                "without --times, "
            } else {
                ""
            };
            let _ = eprintln!(self.rt;
                "clru_mrc: {several} of {keys} keys{looked_at} came with several sizes, and each size counts as an object of its own: {without}--one-size gives each key the greatest one"
            );
        }
    }

    /// Tells that no capacity has the hit ratio that is asked for, where it is so: then this row has the greatest one.
    pub(crate) fn warn_of_ratio(&self, row: Option<LastRow>, options: &Options) {
        let Some(row) = row else {
            return;
        };
        let (has, missed) = match options.capacities {
            Capacities::HitRatio(ratio) => {
                let has = has_ratio(ratio, row.misses, self.requests(options));
                (has, row.miss_ratio)
            }
            // (with one size only the report tells how many bytes count, rounded: a millionth more may hit)
            Capacities::ByteHitRatio(ratio) if options.one_size => {
                let has = has_ratio(ratio, row.byte_miss_ratio.saturating_sub(1), MILLION);
                (has, row.byte_miss_ratio)
            }
            Capacities::ByteHitRatio(ratio) => {
                let has = has_ratio(ratio, row.missed_bytes, self.bytes(options));
                (has, row.byte_miss_ratio)
            }
            _ => return,
        };
        if has {
            return;
        }
        // (rounded, it may be all)
        let hit = MILLION.saturating_sub(missed.max(1));
        let capacity = row.capacity;
        let _ = eprintln!(self.rt;
            "clru_mrc: no capacity has that hit ratio: the greatest is 0.{hit:06}, at capacity {capacity} and above"
        );
        if options.sample == Sample::Whole {
            let counted = self.requests(options);
            self.warn_of_hits(counted.saturating_sub(row.misses), counted, options);
        }
    }

    // How many requests the ratio is of.
    fn requests(&self, options: &Options) -> u64 {
        match options.sample {
            Sample::Whole | Sample::OneIn(_) => self.lines.counted(),
            Sample::Taken(_, requests) => requests as u64,
        }
    }

    // And how many bytes.
    fn bytes(&self, options: &Options) -> u64 {
        match options.sample {
            Sample::Whole | Sample::OneIn(_) => self.lines.size,
            Sample::Taken(one_in, _) => self.lines.size.saturating_mul(one_in.get() as u64),
        }
    }

    // What a sample misses is reckoned, so it does not tell that few hit.
    fn warn_of_misses(&self, misses: Option<u64>, options: &Options) {
        let lines = self.lines.count;
        if let Some(after) = options.after {
            self.warn_after(misses, after.get() as u64, options);
            return;
        }
        match (options.sample, &options.capacities) {
            (Sample::Whole, Capacities::HitRatio(_) | Capacities::ByteHitRatio(_)) => {}
            (Sample::Whole, _) => {
                if let Some(misses) = misses {
                    self.warn_of_hits(lines.saturating_sub(misses), lines, options);
                }
            }
            (_, Capacities::Named(_)) if misses.is_none() => self.say(
                "all capacities of --at are below the first one that this sample tells of: name greater ones",
            ),
            (Sample::OneIn(one_in), _) if lines > 0 && misses.unwrap_or(0) == 0 => {
                let _ = eprintln!(self.rt;
                    "clru_mrc: the sample of one key in {one_in} is empty: write a smaller number behind --sample"
                );
            }
            _ => {}
        }
    }

    // The requests before the counted ones may be all there are.
    fn warn_after(&self, misses: Option<u64>, after: u64, options: &Options) {
        let lines = self.lines.count;
        let counted = self.lines.counted();
        if counted == 0 && lines > 0 {
            let _ = eprintln!(self.rt;
                "clru_mrc: --after {after} leaves none of {lines} requests to count, so there are no rows"
            );
        }
        match (misses, &options.capacities) {
            (_, Capacities::HitRatio(_) | Capacities::ByteHitRatio(_)) | (None, _) => {}
            (Some(misses), _) => {
                self.warn_of_hits(counted.saturating_sub(misses), counted, options);
            }
        }
    }

    // Mostly such lines have a time in them, or entries expire early.
    fn warn_of_hits(&self, hits: u64, counted: u64, options: &Options) {
        let are_few = hits.saturating_mul(FEW_HITS) < counted;
        if !are_few || counted < FEW {
            return;
        }
        let or_limit = if has_limit(options) {
            ", or the limit too short"
        } else {
            ""
        };
        let _ = eprintln!(self.rt;
            "clru_mrc: only {hits} of {counted} requests hit, even at the greatest of these capacities: is each line the whole line of a log{or_limit}?"
        );
    }

    fn say(&self, line: &str) {
        let _ = eprintln!(self.rt; "clru_mrc: {line}");
    }

    /// What follows a fault that says that the line of this number has no size, or no time where each is to have one.
    pub(crate) fn say_line(&self, number: usize, options: &Options) -> Option<String> {
        let line = self.lines.without_size(number)?;
        let words = match (options.times, time_of(line)) {
            (None, _) => instead_of_size(line),
            (Some(_), None) => instead_of_time(line),
            (Some(_), Some(_)) => instead_of_size(sized_part(line, true)),
        };
        let shown = quoted(self.rt, line).ok()?;
        format!(in self.rt.alloc(); ": it begins {shown}{words}").ok()
    }

    // Looks at more bytes.
    fn note(&mut self, bytes: &[u8]) {
        if bytes.is_empty() {
            self.lines.end();
            return;
        }
        if self.bytes == 0 {
            self.is_packed = bytes.starts_with(&[0x1f, 0x8b]);
        }
        self.bytes = self.bytes.saturating_add(bytes.len() as u64);
        self.has_zero = self.has_zero || bytes.contains(&0);
        self.lines.note(bytes);
    }

    // Tells how far it is, where a second has gone by since it told last.
    fn tell(&mut self) {
        let Some(told) = self.told else {
            return;
        };
        let Ok(now) = Instant::now(self.rt) else {
            return;
        };
        if now.duration_since(told) < Duration::from_secs(1) {
            return;
        }
        self.told = Some(now);
        let (lines, megabytes) = (self.lines.count, self.bytes / 1_000_000);
        let _ = eprintln!(self.rt; "clru_mrc: {lines} requests in {megabytes} MB so far");
    }
}

// Whether entries expire.
fn has_limit(options: &Options) -> bool {
    match options.times {
        Some(times) => times.max_idle.is_some() || times.max_age.is_some(),
        None => false,
    }
}

impl<'h, R: Read> Read for Watch<'h, R> {
    fn read(&mut self, buf: &mut [u8]) -> io::Result<usize> {
        let count = self.inner.read(buf)?;
        if let Some(bytes) = buf.get(..count) {
            self.note(bytes);
        }
        self.tell();
        Ok(count)
    }
}
