//! The rows of the table.
ghost use Rattle.std.specs.Prelude.{◌≡◌, ◌*◌, ◌/◌, ◌-◌, ◌^◌, length, map, max, min, replicate, IfOk};
ghost use Rattle.std.specs.Int.NonZero.{non_zero_usize_get};
ghost use Rattle.std.specs.List.{sum_by};
ghost use Rattle.clru_shares.specs.Passes.{part_of_all, part_of_row, part_of_share, parts_of_shares, parts_of_table, unsampled_by};
ghost use Rattle.clru_shares.specs.Sampled.{told_pair};
ghost use Rattle.clru_shares.specs.ShareCurves.{missed_pair, sample_of};
ghost use Rattle.clru_shares.specs.Shares.{rows, together};

use crate::curve::LineCurve;
use crate::sampled::{told_both, told_of};
use crate::share::Share;
use std::alloc::{AllocError, Allocator};
use std::num::NonZeroUsize;

/// A class with a capacity, or a way to spend the budget.
#[derive(Drop)]
pub(crate) struct Row<A: Allocator> {
    pub(crate) name: Vec<u8, A>,
    pub(crate) capacity: usize,
    pub(crate) misses: usize,

    /// How many requests there are.
    pub(crate) requests: usize,

    /// By size what is missed, and the size of the requests. By keys both are 0.
    pub(crate) missed_size: usize,
    pub(crate) size: usize,
}

/// The table of a split.
#[derive(Drop)]
pub(crate) struct Table<A: Allocator> {
    pub(crate) by_size: bool,

    /// The budget. Only a picture shows it.
    pub(crate) budget: usize,

    /// The classes with their parts of the best split.
    pub(crate) parts: Vec<Row<A>, A>,

    /// The same classes with equal parts, which only a picture shows.
    pub(crate) equal_parts: Vec<Row<A>, A>,

    /// All classes together: the best split, equal parts, and one cache for all.
    pub(crate) best: Row<A>,
    pub(crate) equal: Row<A>,
    pub(crate) one: Row<A>,
}

/// Returns the table of these shares with these capacities, and of one cache for all, by size or by keys. The budget is that of their
/// lines, and `whole` that of all lines.
pub(crate) fn table_of<A: Allocator + Copy>(
    alloc: A,
    by_size: bool,
    whole: NonZeroUsize,
    budget: usize,
    step: NonZeroUsize,
    shares: &[Share<A>],
    capacities: &[usize],
    all: &Share<A>,
) -> Result<Table<A>, AllocError>
    ensures by_size { IfOk result (λ table. table.by_size ≡ by_size) }
    ensures rows { IfOk result (λ table. parts_of_table table ≡ rows all.now.requests all.now.size (parts_of_shares shares.now capacities.now)
        (parts_of_shares shares.now (replicate (length shares.now) (budget / max 1 (length shares.now)
        / non_zero_usize_get step * non_zero_usize_get step))) (part_of_all shares.now all.now budget)) }
{
    let capacity_of_each = equal_capacities(alloc, budget, step, shares.len())?;
    let parts = rows_of(alloc, shares, capacities)?;
    let equal_parts = rows_of(alloc, shares, &capacity_of_each)?;
    let best = together_of(alloc, b"best split", &parts, all.requests, all.size)?;
    let equal = together_of(alloc, b"equal parts", &equal_parts, all.requests, all.size)?;
    let one = row_of_all(alloc, shares, all, budget)?;
    Ok(Table {
        by_size,
        budget: whole.get(),
        parts,
        equal_parts,
        best,
        equal,
        one,
    })
}

// As much for each, in whole steps.
fn equal_capacities<A: Allocator>(
    alloc: A,
    budget: usize,
    step: NonZeroUsize,
    count: usize,
) -> Result<Vec<usize, A>, AllocError>
    ensures { IfOk result (λ cs. cs.items ≡ replicate count
        (budget / max 1 count / non_zero_usize_get step * non_zero_usize_get step)) }
{
    let part = budget / count.max(1) / step.get() * step.get();
    let mut capacities = Vec::new(alloc);
    capacities.resize(count, part)?;
    Ok(capacities)
}

// The row of each.
fn rows_of<A: Allocator + Copy>(
    alloc: A,
    shares: &[Share<A>],
    capacities: &[usize],
) -> Result<Vec<Row<A>, A>, AllocError>
    ensures { IfOk result (λ made. map part_of_row made.items ≡ parts_of_shares shares.now capacities.now) }
{
    let mut made = Vec::new(alloc);
    let count = shares.len().min(capacities.len());
    for index in 0..count {
        made.push(row_of(alloc, &shares[index], capacities[index])?)?;
    }
    Ok(made)
}

// The row of one cache for all shares. Those without a line of the sample miss all in the other rows, and so they do here.
fn row_of_all<A: Allocator + Copy>(
    alloc: A,
    shares: &[Share<A>],
    all: &Share<A>,
    capacity: usize,
) -> Result<Row<A>, AllocError>
    ensures { IfOk result (λ row. part_of_row row ≡ part_of_all shares.now all.now capacity) }
{
    let (requests, size) = unsampled_of(shares);
    let mut row = row_of(alloc, all, capacity)?;
    row.misses = row.misses.saturating_add(requests).min(row.requests);
    row.missed_size = row.missed_size.saturating_add(size).min(row.size);
    Ok(row)
}

// The requests of shares without a line of the sample, and their size. They are some of all requests, so the sums do not pass the bound.
fn unsampled_of<A: Allocator>(shares: &[Share<A>]) -> (usize, usize)
    ensures requests { result.0 ≡ min (2 ^ 64 - 1) (sum_by (unsampled_by (λ share. share.requests)) shares.now) }
    ensures size { result.1 ≡ min (2 ^ 64 - 1) (sum_by (unsampled_by (λ share. share.size)) shares.now) }
{
    let mut requests: usize = 0;
    let mut size: usize = 0;
    for share in shares {
        if share.kept == 0 {
            requests = requests.saturating_add(share.requests);
            size = size.saturating_add(share.size);
        }
    }
    (requests, size)
}

fn row_of<A: Allocator + Copy>(
    alloc: A,
    share: &Share<A>,
    capacity: usize,
) -> Result<Row<A>, AllocError>
    ensures { IfOk result (λ row. part_of_row row ≡ part_of_share share.now capacity) }
{
    let name = Vec::from_slice(alloc, &share.name)?;
    match missed(share, capacity) {
        Some((misses, missed_size)) => Ok(Row {
            name,
            capacity: told_of(share.sample, usize::MAX, capacity),
            misses,
            requests: share.requests,
            missed_size,
            size: share.size,
        }),
        None => Ok(Row {
            name,
            capacity: 0,
            misses: share.requests,
            requests: share.requests,
            missed_size: share.size,
            size: share.size,
        }),
    }
}

// The requests that miss with this capacity alone, and by size their size, as told of all, if each has room.
fn missed<A: Allocator>(share: &Share<A>, capacity: usize) -> Option<(usize, usize)>
    ensures { result ≡ told_pair (sample_of share.now) share.now.requests share.now.size (missed_pair share.now.curve capacity) }
{
    match missed_of_curve(&share.curve, capacity) {
        Some((misses, missed_size)) => told_both(
            share.sample,
            share.requests,
            share.size,
            misses,
            missed_size,
        ),
        None => None,
    }
}

// The same of the lines of the curve.
fn missed_of_curve<A: Allocator>(curve: &LineCurve<A>, capacity: usize) -> Option<(usize, usize)>
    ensures { result ≡ missed_pair curve.now capacity }
{
    let capacity = NonZeroUsize::new(capacity)?;
    match curve {
        LineCurve::ByKeys(curve) => Some((curve.misses(capacity), 0)),
        LineCurve::BySize(curve) => {
            Some((curve.misses(capacity)?, curve.missed_size(capacity)?))
        }
    }
}

// The row of all of them together, of so many requests of this size.
fn together_of<A: Allocator + Copy>(
    alloc: A,
    name: &[u8],
    parts: &[Row<A>],
    requests: usize,
    size: usize,
) -> Result<Row<A>, AllocError>
    ensures { IfOk result (λ row. part_of_row row ≡ together name.now requests size (map part_of_row parts.now)) }
{
    let (capacity, misses, missed_size) = sums_of(parts)?;
    Ok(Row {
        name: Vec::from_slice(alloc, name)?,
        capacity,
        misses,
        requests,
        missed_size,
        size,
    })
}

// The sums of capacities, misses and missed sizes. They are those of parts of one budget and one log, so they do not overflow.
fn sums_of<A: Allocator>(parts: &[Row<A>]) -> Result<(usize, usize, usize), AllocError>
    ensures capacity { IfOk result (λ sums. sums.0 ≡ sum_by (λ p. p.capacity) (map part_of_row parts.now)) }
    ensures misses { IfOk result (λ sums. sums.1 ≡ sum_by (λ p. p.misses) (map part_of_row parts.now)) }
    ensures missed_size { IfOk result (λ sums. sums.2 ≡ sum_by (λ p. p.missed_size) (map part_of_row parts.now)) }
{
    let mut capacity: usize = 0;
    let mut misses: usize = 0;
    let mut missed_size: usize = 0;
    for part in parts {
        let (Some(more), Some(missed), Some(lost)) = (
            capacity.checked_add(part.capacity),
            misses.checked_add(part.misses),
            missed_size.checked_add(part.missed_size),
        ) else {
            return Err(AllocError);
        };
        capacity = more;
        misses = missed;
        missed_size = lost;
    }
    Ok((capacity, misses, missed_size))
}
