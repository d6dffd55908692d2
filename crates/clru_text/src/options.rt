//! What a report is asked to have.
ghost use Rattle.std.specs.Prelude.{◌≡◌, true, false};
ghost use Rattle.std.specs.Option.{is_some};
ghost use Rattle.clru_text.specs.Choices.{AreAscending, is_aged, is_aged_table, is_of_all, is_untimed, is_whole};

use crate::ratio::Billionths;
use std::alloc::{Allocator, Global};
use std::num::NonZeroUsize;

/// The capacities of a table.
#[derive(Debug, Drop)]
pub enum Capacities<A: Allocator = Global> {
    /// 1, 2, 5, 10, 20, 50 and so on up to the number of distinct keys, that number, and more, until misses between two rows lie near the
    /// straight line. By size: those from the greatest size up to the total size of the distinct keys, that total, and more likewise.
    Usual,
    /// 1, or the greatest size, and each from there on at which there are fewer misses than at the one before.
    Each,
    /// These, each greater than the one before. By size none may be below the greatest size; of a sample those below its greatest size
    /// have no row.
    Named(Vec<NonZeroUsize, A>),
    /// The least at which that part of the requests hits. If it is not reached, the least with the fewest misses.
    HitRatio(Billionths),
    /// The same of their size. By keys each has the size 1.
    ByteHitRatio(Billionths),
}

/// What is written.
#[derive(Clone, Copy, Debug, PartialEq, Eq)]
pub enum Form {
    /// The table, as CSV.
    Table,
    /// The table as JSON: an object for each row, on a line of its own, whose names are those of the columns.
    Json,
    /// A picture of the curve, with the table in its description. By size it has a line for the missed sizes as well.
    Picture,
    /// How many requests and distinct keys there are, and the bytes of the input.
    Summary,
}

/// Which requests are read.
#[derive(Clone, Copy, Debug, PartialEq, Eq)]
pub enum Sample {
    /// All of them.
    Whole,
    /// All requests of one key in so many, by a hash of its bytes; the others are counted.
    OneIn(NonZeroUsize),
    /// All of an input that holds all requests of one key in so many, of so many requests in all.
    Taken(NonZeroUsize, usize),
}

/// Each line begins with a time, and entries may expire. A line without one is the fault `NoSize`, which prints as one without a size:
/// `time_of` tells which it is.
#[derive(Clone, Copy, Debug, PartialEq, Eq)]
pub struct Times {
    /// The greatest idle time, in millionths of the unit of the times: the time since the latest request of a key, after which
    /// its next request misses at every capacity. Without it entries do not expire when idle.
    pub max_idle: Option<usize>,

    /// The greatest age, in the same unit: the time since the latest miss of a key at a capacity, after which its next request misses
    /// there. It goes with a table alone, whose column `knee` is 0, at named capacities, or at round numbers and the last capacity.
    pub max_age: Option<usize>,
}

/// How a picture looks, beside what it shows.
#[derive(Debug, Drop)]
pub struct Look<A: Allocator = Global> {
    /// What stands above it, where it is not how many requests and keys there are.
    pub title: Option<String<A>>,

    /// What capacities count, where it is not keys, or bytes.
    pub unit: Option<String<A>>,

    /// Where the axis begins, where it is not at the least capacity.
    pub from: Option<NonZeroUsize>,

    /// Where it ends, where it is not at room for all keys, or at the greatest capacity that is named.
    pub to: Option<NonZeroUsize>,
}

/// What a report is asked to have.
#[derive(Debug, Drop)]
pub struct Options<A: Allocator = Global> {
    pub capacities: Capacities<A>,

    /// Whether each line of the input begins with a size, and capacities are sums of sizes.
    pub sizes: bool,

    /// Whether each key has one size, the greatest it came with. Without it each line is an object of its own. It counts by size
    /// alone.
    pub one_size: bool,

    /// Whether each line of the table has the least possible misses. By size and of a sample they are not known, so options that
    /// ask for both have no proof.
    pub least: bool,

    /// Whether each line of the table has a floor of the misses, and by size of the missed size: no policy misses less, also one
    /// that bypasses keys.
    pub floor: bool,

    /// Capacities are those of the sample. In what is written capacities, misses and keys are multiplied by the number of keys of which
    /// one is read, misses up to all requests, and missed sizes up to the size of all.
    pub sample: Sample,

    /// The number of first requests that fill the cache and are not counted; rows count the later ones. It goes with neither the
    /// least nor a floor, a sample, a summary or one size for each key.
    pub after: Option<NonZeroUsize>,

    pub form: Form,

    pub look: Look<A>,

    /// Whether each line begins with a time and a blank, before its size, if it has one, and its key, and when entries expire. It
    /// goes with neither the least nor a floor, one size for each key, a summary, or first requests that are not counted.
    pub times: Option<Times>,

    // The least possible misses are those of all requests, by keys.
    ghost least_of_all: { least ≡ true → (sizes ≡ false) × (is_whole sample ≡ true) },

    // Of the requests behind the first ones misses alone are known, and of all of them.
    ghost after_rows: { is_some after ≡ true → is_of_all least floor sample form ≡ false },

    // The requests behind the first ones have the sizes of their lines.
    ghost after_sizes: { is_some after ≡ true → one_size ≡ false },

    // Of requests with times all are counted, and only their misses are known.
    ghost timed: { is_some times ≡ true → is_untimed least floor one_size (is_some after) form ≡ false },

    // Where entries expire by age, misses are known at capacities alone that are known before the input.
    ghost aged: { is_aged times ≡ true → is_aged_table capacities form ≡ true },

    ghost ascending: { AreAscending capacities },
}
