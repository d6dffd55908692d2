//! Whole runs, of puts and of look-ups that are followed by a put, by the contracts of the calls, `law_requests` and `law_ages` alone.
ghost use Rattle.std.specs.Prelude.{◌≡◌, ◌+◌, ◌-◌, ◌≤◌, Some, None, false, [], not, length, nat_eq, IfOk, IfSome, OnSome};
ghost use Rattle.std.specs.List.{count_by};
ghost use Rattle.std.specs.Option.{option_map_or, option_to_list};
ghost use Rattle.clru_model.specs.Ages.{is_in_limit, aged_misses};
ghost use Rattle.clru_model.specs.Entries.{plain_put, plain_drop};
ghost use Rattle.clru_model.specs.Schedule.{IsCompetitive};
ghost use Rattle.clru_model.specs.Requests.{hit, marks, misses};

use clru::{CLruCache, law_ages, law_requests};
use std::alloc::Global;
use std::hash::Hash;

/// Puts each key in turn into an empty cache, and returns for each whether the cache held it before. `None` means that memory
/// is refused.
pub fn held_before_puts<K: Eq + Hash + Drop>(
    alloc: Global,
    cache: &mut CLruCache<K, ()>,
    keys: Vec<K>,
) -> Option<Vec<bool>>
    requires empty { cache.old.entries ≡ [] }
    ensures hits { IfSome result (λ held. held.items ≡ marks K.eq cache.old.capacity keys.items) }
    ensures bound { IfSome result (λ held. IsCompetitive K.eq cache.old.capacity keys.items (count_by not held.items)) }
{
    law_requests::<K, ()>();
    // Only for the proof: clause `valid` of `len` says that the capacity is at least 1.
    let _ = cache.len();
    let mut held = Vec::new(alloc);
    for key in keys {
        let before = cache.contains(&key);
        if cache.put(key, ()).is_err() || held.push(before).is_err() {
            return None;
        }
    }
    Some(held)
}

/// Looks each page up, and fetches and puts it only if it is not found: the loop that everyone writes. Returns how many pages were
/// fetched, or the pair for which memory was refused. Here a page's text is its number.
pub fn pages_fetched(
    cache: &mut CLruCache<usize, usize>,
    pages: Vec<usize>,
) -> Result<usize, (usize, usize)>
    requires empty { cache.old.entries ≡ [] }
    ensures misses { IfOk result (λ n. n ≡ misses nat_eq cache.old.capacity pages.items) }
    ensures bound { IfOk result (λ n. IsCompetitive nat_eq cache.old.capacity pages.items n) }
{
    law_requests::<usize, usize>();
    // Only for the proof: clause `valid` of `len` says that the capacity is at least 1.
    let _ = cache.len();
    let mut fetched = 0;
    for page in pages {
        if cache.get(&page).is_none() {
            fetched += 1;
            cache.put(page, page)?;
        }
    }
    Ok(fetched)
}

/// Puts each key in turn into an empty cache, and returns how many pairs were dropped: the misses that left no entry. `None` is
/// for want of memory.
pub fn dropped_by_puts<K: Eq + Hash + Drop>(
    cache: &mut CLruCache<K, ()>,
    keys: Vec<K>,
) -> Option<usize>
    requires empty { cache.old.entries ≡ [] }
    ensures { IfSome result (λ n. n + length cache.new.entries ≡ misses K.eq cache.old.capacity keys.items) }
{
    law_requests::<K, ()>();
    // Only for the proof: clause `valid` of `len` says that the capacity is at least 1.
    let _ = cache.len();
    let mut dropped = 0;
    for key in keys {
        dropped += number_dropped(cache, key)?;
    }
    Some(dropped)
}

/// Puts a key, and returns how many pairs that dropped, one or none. `None` is for want of memory.
fn number_dropped<K: Eq + Hash + Drop>(cache: &mut CLruCache<K, ()>, key: K) -> Option<usize>
    ensures dropped { IfSome result (λ n.
        n ≡ length (option_to_list (plain_drop K.eq cache.old.capacity key cache.old.entries))) }
    ensures few { IfSome result (λ n. n ≤ 1) }
    ensures entries { OnSome result
        (cache.new.entries ≡ plain_put K.eq cache.old.capacity key tt cache.old.entries) }
    ensures capacity { cache.new.capacity ≡ cache.old.capacity }
{
    match cache.put(key, ()) {
        Ok(put) => Some(usize::from(put.dropped.is_some())),
        Err(_) => None,
    }
}

/// Does the same with pages that expire: a page is fetched again if its fetch was more than `age` before. Each request is a
/// page and the time, in any unit, and the cache holds the time of each page's fetch.
pub fn aged_pages_fetched(
    cache: &mut CLruCache<usize, usize>,
    requests: Vec<(usize, usize)>,
    age: usize,
) -> Result<usize, (usize, usize)>
    requires empty { cache.old.entries ≡ [] }
    ensures misses { IfOk result (λ n. n ≡ aged_misses nat_eq (hit nat_eq cache.old.capacity) None (Some age) requests.items) }
{
    law_ages::<usize, usize>();
    // Only for the proof: clause `valid` of `len` says that the capacity is at least 1.
    let _ = cache.len();
    let mut fetched = 0;
    for (page, now) in requests {
        let time = cache.get(&page).copied();
        if !is_within(age, time, now) {
            fetched += 1;
            cache.put(page, now)?;
        }
    }
    Ok(fetched)
}

/// Returns whether there is a time, at most `age` before now.
fn is_within(age: usize, time: Option<usize>, now: usize) -> bool
    ensures { result ≡ option_map_or (λ t. is_in_limit (Some age) (now - t)) time false }
{
    match time {
        Some(time) => now.saturating_sub(time) <= age,
        None => false,
    }
}
