//! At some capacities the time of each key's latest fetch, the misses and their size.
ghost use Rattle.std.specs.Prelude.{◌≡◌, ℕ, true, false, ◌+◌, ◌-◌, ◌*◌, ◌/◌, ◌^◌, ◌<◌, ◌≤◌, ◌⊎◌, min, nat_le, nat_lt, ◌&&◌, [], ◌++◌, length, map, replicate, slice_index, slice_set, vec_len, vec_capacity, if◌then◌else◌, IfOk, OnOk, Option};
ghost use Rattle.std.specs.List.{range_with_len};
ghost use Rattle.clru_model.specs.Ages.{is_in_limit};
ghost use Rattle.clru_curve.specs.Fetches.{fetch_times, is_row_hit, AreBlocked, AreCounted, AreFetched};

use crate::pass::copied;
use crate::seen::{Seen, is_soon};
use clru_list::NoMemory;
use std::alloc::{AllocError, Allocator};

/// The latest request of a key, and its number times that of the capacities.
#[derive(Clone, Copy)]
pub(crate) struct Fetched {
    pub(crate) seen: Seen,
    pub(crate) first: usize,
}

/// For each capacity the misses and their size. For each key the times at the first capacities: the last of them is that at all later
/// ones too, as long as no request of the key had a greater span than the last capacity. So a key has few times, and more from a
/// greater span on; then the old ones are left behind.
///
/// Clauses see a time of each key at each capacity, by `times_by`.
#[derive(Drop)]
pub(crate) struct Fetches<A: Allocator> {
    pub(crate) capacities: Vec<usize, A>,
    pub(crate) misses: Vec<usize, A>,
    pub(crate) missed_sizes: Vec<usize, A>,
    pub(crate) firsts: Vec<usize, A>,
    pub(crate) widths: Vec<usize, A>,
    pub(crate) times: Vec<usize, A>,
    pub(crate) age: usize,
    // How many times a new key has: one if capacities ascend, else one for each.
    pub(crate) narrow: usize,
    // How many the latest key has that got more.
    widest: usize,
}

impl<A: Allocator + Copy> Fetches<A> {
    /// No key was fetched.
    pub(crate) fn new(alloc: A, capacities: &[usize], age: usize) -> Result<Self, NoMemory>
        ensures capacities { IfOk result (λ f. f.capacities.items ≡ capacities.now) }
        ensures misses { IfOk result (λ f. f.misses.items ≡ replicate (length capacities.now) 0) }
        ensures missed_sizes { IfOk result (λ f. f.missed_sizes.items ≡ replicate (length capacities.now) 0) }
        ensures times { IfOk result (λ f. fetch_times f ≡ []) }
        ensures blocks { IfOk result AreBlocked }
        ensures age { IfOk result (λ f. f.age ≡ age) }
    {
        let Ok(copy) = copied(alloc, capacities) else {
            return Err(NoMemory);
        };
        let rows = capacities.len();
        let mut misses = Vec::new(alloc);
        let Ok(()) = misses.resize(rows, 0) else {
            return Err(NoMemory);
        };
        let mut missed_sizes = Vec::new(alloc);
        let Ok(()) = missed_sizes.resize(rows, 0) else {
            return Err(NoMemory);
        };
        let narrow = narrow_for(capacities);
        Ok(Fetches {
            capacities: copy,
            misses,
            missed_sizes,
            firsts: Vec::new(alloc),
            widths: Vec::new(alloc),
            times: Vec::new(alloc),
            age,
            narrow,
            widest: narrow,
        })
    }

    /// Makes room for a request of an earlier key.
    pub(crate) fn make_room(&mut self) -> Result<(), AllocError>
        requires blocks { AreBlocked self.old }
        ensures blocks { AreBlocked self.new }
        ensures capacities { self.new.capacities ≡ self.old.capacities }
        ensures misses { self.new.misses ≡ self.old.misses }
        ensures missed_sizes { self.new.missed_sizes ≡ self.old.missed_sizes }
        ensures times { fetch_times self.new ≡ fetch_times self.old }
        ensures age { self.new.age ≡ self.old.age }
        ensures room { OnOk result (vec_len self.new.times + vec_len self.new.capacities ≤ vec_capacity self.new.times) }
    {
        self.times.reserve(self.capacities.len())
    }

    /// Makes room for the times of one more key, and returns where they are to be seen.
    pub(crate) fn make_ready(&mut self) -> Result<usize, AllocError>
        requires blocks { AreBlocked self.old }
        ensures blocks { AreBlocked self.new }
        ensures capacities { self.new.capacities ≡ self.old.capacities }
        ensures misses { self.new.misses ≡ self.old.misses }
        ensures missed_sizes { self.new.missed_sizes ≡ self.old.missed_sizes }
        ensures times { fetch_times self.new ≡ fetch_times self.old }
        ensures age { self.new.age ≡ self.old.age }
        ensures first { IfOk result (λ first. first ≡ length (fetch_times self.old)) }
        ensures room { OnOk result (vec_len self.new.times + vec_len self.new.capacities ≤ vec_capacity self.new.times) }
        ensures room_of_first { OnOk result (vec_len self.new.firsts < vec_capacity self.new.firsts) }
        ensures room_of_width { OnOk result (vec_len self.new.widths < vec_capacity self.new.widths) }
    {
        let rows = self.capacities.len();
        let Some(first) = self.firsts.len().checked_mul(rows) else {
            return Err(AllocError);
        };
        self.firsts.reserve(1)?;
        self.widths.reserve(1)?;
        self.times.reserve(rows)?;
        Ok(first)
    }

    /// Counts a request of a new key, whose times come last: it misses at each capacity.
    pub(crate) fn take_new(&mut self, time: usize, size: usize)
        requires blocks { AreBlocked self.old }
        requires room { vec_len self.old.times + vec_len self.old.capacities ≤ vec_capacity self.old.times }
        requires room_of_first { vec_len self.old.firsts < vec_capacity self.old.firsts }
        requires room_of_width { vec_len self.old.widths < vec_capacity self.old.widths }
        requires misses_length { length self.old.misses.items ≡ length self.old.capacities.items }
        requires missed_length { length self.old.missed_sizes.items ≡ length self.old.capacities.items }
        requires few { (i : ℕ) → slice_index self.old.misses.items i + 1 < 2 ^ 64 }
        requires small { (i : ℕ) → slice_index self.old.missed_sizes.items i + size < 2 ^ 64 }
        ensures blocks { AreBlocked self.new }
        ensures capacities { self.new.capacities ≡ self.old.capacities }
        ensures misses { AreCounted (λ i. false) (length self.old.capacities.items) 1 self.old.misses.items self.new.misses.items }
        ensures missed_sizes { AreCounted (λ i. false) (length self.old.capacities.items) size
            self.old.missed_sizes.items self.new.missed_sizes.items }
        ensures times { fetch_times self.new ≡ fetch_times self.old ++ replicate (length self.old.capacities.items) time }
        ensures age { self.new.age ≡ self.old.age }
    {
        self.add(time);
        self.miss_from(0, size);
    }

    /// Adds times of one more key.
    fn add(&mut self, time: usize)
        requires blocks { AreBlocked self.old }
        requires room { vec_len self.old.times + vec_len self.old.capacities ≤ vec_capacity self.old.times }
        requires room_of_first { vec_len self.old.firsts < vec_capacity self.old.firsts }
        requires room_of_width { vec_len self.old.widths < vec_capacity self.old.widths }
        ensures blocks { AreBlocked self.new }
        ensures capacities { self.new.capacities ≡ self.old.capacities }
        ensures misses { self.new.misses ≡ self.old.misses }
        ensures missed_sizes { self.new.missed_sizes ≡ self.old.missed_sizes }
        ensures times { fetch_times self.new ≡ fetch_times self.old ++ replicate (length self.old.capacities.items) time }
        ensures age { self.new.age ≡ self.old.age }
    {
        let first = self.times.len();
        self.firsts.push_reserved(first);
        self.widths.push_reserved(self.narrow);
        match self.times.resize(first + self.narrow, time) {
            Ok(()) => {}
            Err(_) => unreachable!(),
        }
    }

    /// Counts a miss at this row and each later one.
    fn miss_from(&mut self, first: usize, size: usize)
        requires first { first ≤ length self.old.capacities.items }
        requires misses_length { length self.old.misses.items ≡ length self.old.capacities.items }
        requires missed_length { length self.old.missed_sizes.items ≡ length self.old.capacities.items }
        requires few { (i : ℕ) → first ≤ i → slice_index self.old.misses.items i + 1 < 2 ^ 64 }
        requires small { (i : ℕ) → first ≤ i → slice_index self.old.missed_sizes.items i + size < 2 ^ 64 }
        ensures capacities { self.new.capacities ≡ self.old.capacities }
        ensures misses { AreCounted (λ i. nat_lt i first) (length self.old.capacities.items) 1 self.old.misses.items self.new.misses.items }
        ensures missed_sizes { AreCounted (λ i. nat_lt i first) (length self.old.capacities.items) size
            self.old.missed_sizes.items self.new.missed_sizes.items }
        ensures firsts { self.new.firsts ≡ self.old.firsts }
        ensures widths { self.new.widths ≡ self.old.widths }
        ensures times { self.new.times ≡ self.old.times }
        ensures narrow { self.new.narrow ≡ self.old.narrow }
        ensures age { self.new.age ≡ self.old.age }
    {
        for row in first..self.capacities.len() {
            self.misses[row] += 1;
            self.missed_sizes[row] += size;
        }
    }

    /// Counts a request at each capacity, where the times of its key are seen at `first`.
    pub(crate) fn take(&mut self, first: usize, soon: bool, span: usize, time: usize, size: usize)
        requires blocks { AreBlocked self.old }
        requires room { vec_len self.old.times + vec_len self.old.capacities ≤ vec_capacity self.old.times }
        requires aligned { first / length self.old.capacities.items * length self.old.capacities.items ≡ first }
        requires inside { first + length self.old.capacities.items ≤ length (fetch_times self.old) }
        requires misses_length { length self.old.misses.items ≡ length self.old.capacities.items }
        requires missed_length { length self.old.missed_sizes.items ≡ length self.old.capacities.items }
        requires few { (i : ℕ) → slice_index self.old.misses.items i + 1 < 2 ^ 64 }
        requires small { (i : ℕ) → slice_index self.old.missed_sizes.items i + size < 2 ^ 64 }
        ensures blocks { AreBlocked self.new }
        ensures capacities { self.new.capacities ≡ self.old.capacities }
        ensures misses { AreCounted (is_row_hit soon span time self.old.age first self.old.capacities.items (fetch_times self.old))
            (length self.old.capacities.items) 1 self.old.misses.items self.new.misses.items }
        ensures missed_sizes { AreCounted (is_row_hit soon span time self.old.age first self.old.capacities.items (fetch_times self.old))
            (length self.old.capacities.items) size self.old.missed_sizes.items self.new.missed_sizes.items }
        ensures times { AreFetched (is_row_hit soon span time self.old.age first self.old.capacities.items (fetch_times self.old))
            (length self.old.capacities.items) first time (fetch_times self.old) (fetch_times self.new) }
        ensures age { self.new.age ≡ self.old.age }
    {
        let rows = self.capacities.len();
        if rows == 0 {
            return;
        }
        let number = first / rows;
        self.widen(number, span);
        let start = self.firsts[number];
        let width = self.widths[number];
        let last = width - 1;
        let hit = soon && self.is_hit(last, start + last, span, time);
        let rest = if hit { rows } else { width };
        self.take_rows(start, width, soon, span, time, size);
        self.miss_from(rest, size);
    }

    /// Gives a key more times if this span is greater than the capacity of its last one.
    fn widen(&mut self, number: usize, span: usize)
        requires blocks { AreBlocked self.old }
        requires room { vec_len self.old.times + vec_len self.old.capacities ≤ vec_capacity self.old.times }
        requires number { number < length self.old.firsts.items }
        requires some { 0 < length self.old.capacities.items }
        ensures blocks { AreBlocked self.new }
        ensures capacities { self.new.capacities ≡ self.old.capacities }
        ensures misses { self.new.misses ≡ self.old.misses }
        ensures missed_sizes { self.new.missed_sizes ≡ self.old.missed_sizes }
        ensures keys { length self.new.firsts.items ≡ length self.old.firsts.items }
        ensures times { fetch_times self.new ≡ fetch_times self.old }
        ensures age { self.new.age ≡ self.old.age }
        ensures enough { (slice_index self.new.widths.items number ≡ length self.new.capacities.items)
            ⊎ (span ≤ slice_index self.new.capacities.items (slice_index self.new.widths.items number - 1)) }
    {
        let width = self.widths[number];
        let wide = self.width_for(width, span);
        if wide > width {
            self.move_times(number, wide);
        }
    }

    /// Returns how many times a key needs for a request of this span, which has so many.
    fn width_for(&self, width: usize, span: usize) -> usize
        requires some { 0 < width }
        requires within { width ≤ length self.now.capacities.items }
        ensures wide { width ≤ result }
        ensures within { result ≤ length self.now.capacities.items }
        ensures enough { (result ≡ length self.now.capacities.items) ⊎ (span ≤ slice_index self.now.capacities.items (result - 1)) }
    {
        if span <= self.capacities[width - 1] {
            return width;
        }
        let first = width.max(self.widest);
        for wide in first..self.capacities.len() {
            if span <= self.capacities[wide - 1] {
                return wide;
            }
        }
        self.capacities.len()
    }

    /// Copies the times of a key behind all others, the last one as often as needed.
    fn move_times(&mut self, number: usize, wide: usize)
        requires blocks { AreBlocked self.old }
        requires room { vec_len self.old.times + vec_len self.old.capacities ≤ vec_capacity self.old.times }
        requires number { number < length self.old.firsts.items }
        requires some { 0 < slice_index self.old.widths.items number }
        requires wide { slice_index self.old.widths.items number ≤ wide }
        requires within { wide ≤ length self.old.capacities.items }
        ensures blocks { AreBlocked self.new }
        ensures capacities { self.new.capacities ≡ self.old.capacities }
        ensures misses { self.new.misses ≡ self.old.misses }
        ensures missed_sizes { self.new.missed_sizes ≡ self.old.missed_sizes }
        ensures keys { length self.new.firsts.items ≡ length self.old.firsts.items }
        ensures width { slice_index self.new.widths.items number ≡ wide }
        ensures times { fetch_times self.new ≡ fetch_times self.old }
        ensures age { self.new.age ≡ self.old.age }
    {
        let first = self.firsts[number];
        let last = self.widths[number] - 1;
        let start = self.times.len();
        copy_times(&mut self.times, first, last, wide);
        self.firsts[number] = start;
        self.widths[number] = wide;
        self.widest = wide;
    }

    /// Counts a request at the first capacities, where the times of its key begin at `first`.
    fn take_rows(
        &mut self,
        first: usize,
        width: usize,
        soon: bool,
        span: usize,
        time: usize,
        size: usize,
    )
        requires width { width ≤ length self.old.capacities.items }
        requires inside { first + width ≤ length self.old.times.items }
        requires misses_length { length self.old.misses.items ≡ length self.old.capacities.items }
        requires missed_length { length self.old.missed_sizes.items ≡ length self.old.capacities.items }
        requires few { (i : ℕ) → slice_index self.old.misses.items i + 1 < 2 ^ 64 }
        requires small { (i : ℕ) → slice_index self.old.missed_sizes.items i + size < 2 ^ 64 }
        ensures capacities { self.new.capacities ≡ self.old.capacities }
        ensures misses { AreCounted (is_row_hit soon span time self.old.age first self.old.capacities.items self.old.times.items)
            width 1 self.old.misses.items self.new.misses.items }
        ensures missed_sizes { AreCounted (is_row_hit soon span time self.old.age first self.old.capacities.items self.old.times.items)
            width size self.old.missed_sizes.items self.new.missed_sizes.items }
        ensures firsts { self.new.firsts ≡ self.old.firsts }
        ensures widths { self.new.widths ≡ self.old.widths }
        ensures times { AreFetched (is_row_hit soon span time self.old.age first self.old.capacities.items self.old.times.items)
            width first time self.old.times.items self.new.times.items }
        ensures narrow { self.new.narrow ≡ self.old.narrow }
        ensures age { self.new.age ≡ self.old.age }
    {
        for row in 0..width {
            self.take_at(row, first, soon, span, time, size);
        }
    }

    /// Counts a request at one capacity.
    fn take_at(
        &mut self,
        row: usize,
        first: usize,
        soon: bool,
        span: usize,
        time: usize,
        size: usize,
    )
        requires row { row < length self.old.capacities.items }
        requires inside { first + row < length self.old.times.items }
        requires misses_length { length self.old.misses.items ≡ length self.old.capacities.items }
        requires missed_length { length self.old.missed_sizes.items ≡ length self.old.capacities.items }
        requires few { slice_index self.old.misses.items row + 1 < 2 ^ 64 }
        requires small { slice_index self.old.missed_sizes.items row + size < 2 ^ 64 }
        ensures capacities { self.new.capacities ≡ self.old.capacities }
        ensures misses { self.new.misses.items
            ≡ if is_row_hit soon span time self.old.age first self.old.capacities.items self.old.times.items row then self.old.misses.items
            else slice_set self.old.misses.items row (slice_index self.old.misses.items row + 1) }
        ensures missed_sizes { self.new.missed_sizes.items
            ≡ if is_row_hit soon span time self.old.age first self.old.capacities.items self.old.times.items row then self.old.missed_sizes.items
            else slice_set self.old.missed_sizes.items row (slice_index self.old.missed_sizes.items row + size) }
        ensures firsts { self.new.firsts ≡ self.old.firsts }
        ensures widths { self.new.widths ≡ self.old.widths }
        ensures times { self.new.times.items
            ≡ if is_row_hit soon span time self.old.age first self.old.capacities.items self.old.times.items row then self.old.times.items
            else slice_set self.old.times.items (first + row) time }
        ensures narrow { self.new.narrow ≡ self.old.narrow }
        ensures age { self.new.age ≡ self.old.age }
    {
        if soon && self.is_hit(row, first + row, span, time) {
            return;
        }
        self.misses[row] += 1;
        self.missed_sizes[row] += size;
        self.times[first + row] = time;
    }

    /// Whether the span is within the capacity, and the fetch at the place `at` young.
    fn is_hit(&self, row: usize, at: usize, span: usize, time: usize) -> bool
        requires row { row < length self.now.capacities.items }
        requires at { at < length self.now.times.items }
        ensures { result ≡ (nat_le span (slice_index self.now.capacities.items row)
            && nat_le (time - slice_index self.now.times.items at) self.now.age) }
    {
        span <= self.capacities[row] && is_soon(self.age, self.times[at], time)
    }
}

/// Copies so many times behind all: those from `first` on, and the one that is `last` behind it as often as needed.
fn copy_times<A: Allocator>(times: &mut Vec<usize, A>, first: usize, last: usize, many: usize)
    requires inside { first + last < length times.old.items }
    requires room { vec_len times.old + many ≤ vec_capacity times.old }
    ensures { times.new.items
        ≡ times.old.items ++ map (λ p. slice_index times.old.items (first + min p last)) (range_with_len 0 many) }
{
    for place in 0..many {
        let time = times[first + place.min(last)];
        times.push_reserved(time);
    }
}

/// How many times a new key has: one if the capacities ascend, else one for each.
fn narrow_for(capacities: &[usize]) -> usize
    ensures some { 0 < length capacities.now → 0 < result }
    ensures few { result ≤ length capacities.now }
    ensures ascend { (i j : ℕ) → result ≤ i + 1 → i ≤ j → j < length capacities.now
        → slice_index capacities.now i ≤ slice_index capacities.now j }
{
    for index in 1..capacities.len() {
        if capacities[index] < capacities[index - 1] {
            return capacities.len();
        }
    }
    capacities.len().min(1)
}

/// Whether a request comes within the limit after the one before it, or earlier, if there is a limit.
pub(crate) fn is_in_limit(limit: Option<usize>, before: usize, time: usize) -> bool
    ensures { result ≡ is_in_limit limit (time - before) }
{
    match limit {
        Some(limit) => is_soon(limit, before, time),
        None => true,
    }
}
