//! Callers that walk over a cache, for reading and for writing.
ghost use Rattle.std.specs.Prelude.{◌≡◌, ◌<◌, ◌^◌, ◌/◌, ◌-◌, length, map, slice_get};
ghost use Rattle.std.specs.List.{sum_by};
ghost use Rattle.std.specs.Map.Iter.{deref_pair};
ghost use Rattle.std.specs.Option.{option_map};
ghost use Rattle.clru.specs.Cache.{with_entries};

use clru::CLruCache;

/// Returns the sum of the sizes.
pub fn total(sizes: &CLruCache<u64, u64>) -> u64
    requires { sum_by (λ e. e.1) sizes.now.entries < 2 ^ 64 }
    ensures { result ≡ sum_by (λ e. e.1) sizes.now.entries }
{
    let mut total = 0;
    for (_, size) in sizes {
        total += *size;
    }
    total
}

/// Returns the sum of the sizes, starting from the page that was looked at longest ago.
pub fn total_backwards(sizes: &CLruCache<u64, u64>) -> u64
    requires { sum_by (λ e. e.1) sizes.now.entries < 2 ^ 64 }
    ensures { result ≡ sum_by (λ e. e.1) sizes.now.entries }
{
    let mut sum = 0;
    let mut walk = sizes.iter();
    while let Some((_, size)) = walk.next_back() {
        sum += *size;
    }
    sum
}

/// Returns the pages at the two ends. If there is only one page, the second result is `None`.
pub fn ends(sizes: &CLruCache<u64, u64>) -> (Option<(u64, u64)>, Option<(u64, u64)>)
    ensures first { result.0 ≡ slice_get sizes.now.entries 0 }
    ensures last { 1 < length sizes.now.entries
        → result.1 ≡ slice_get sizes.now.entries (length sizes.now.entries - 1) }
{
    let mut walk = sizes.iter();
    let first = walk.next().map(|(page, size)| (*page, *size));
    let last = walk.next_back().map(|(page, size)| (*page, *size));
    (first, last)
}

/// Halves each size.
pub fn halve_by_cursor(sizes: &mut CLruCache<u64, u64>)
    ensures { sizes.new ≡ with_entries sizes.old (map (λ e. (e.0, e.1 / 2)) sizes.old.entries) }
{
    let mut cursor = sizes.iter_mut();
    while let Some(size) = cursor.next() {
        *size /= 2;
    }
}

/// Halves each size, and goes by both ends in turn.
pub fn halve_by_both_ends(sizes: &mut CLruCache<u64, u64>)
    ensures { sizes.new ≡ with_entries sizes.old (map (λ e. (e.0, e.1 / 2)) sizes.old.entries) }
{
    let mut cursor = sizes.iter_mut();
    while cursor.len() > 0 {
        let (_, first) = cursor.next_entry();
        *first /= 2;
        if let Some(last) = cursor.next_back() {
            *last /= 2;
        }
    }
}

/// Consumes the cache, and returns the page that was looked at longest ago, with its size.
pub fn oldest(sizes: CLruCache<u64, u64>) -> Option<(u64, u64)>
    ensures { result ≡ slice_get sizes.entries (length sizes.entries - 1) }
{
    sizes.into_iter().next_back()
}
