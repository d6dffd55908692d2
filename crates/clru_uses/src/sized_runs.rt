//! Runs of look-ups and puts by weight, by the contracts of the calls and the laws by size alone.
ghost use Rattle.std.specs.Prelude.{◌≡◌, ℕ, ◌≤◌, [], Some, not, true, nat_eq, nat_lt, is_some, IfOk, OnOk, IfSome};
ghost use Rattle.std.specs.List.{count_by, filter, slice_get};
ghost use Rattle.std.specs.Map.{keys_of, lookup};
ghost use Rattle.clru_model.specs.Runs.{IsGetOr};
ghost use Rattle.clru_model.specs.SizedRuns.{IsSizedPut};
ghost use Rattle.clru_model.specs.SizedSchedule.{IsCompetitiveBySize};
ghost use Rattle.clru_model.specs.Sizes.{marks_by_size, misses_by_size};
ghost use Rattle.clru_model.specs.Spans.{size_of_misses};

use clru::{CLruCache, DefaultState, PutError, WeightScale, law_size_bound, law_sizes};
use std::alloc::Global;

/// Looks a page up, and puts it with its present text if it is not found. Returns whether it was found. Here a text is a number.
pub fn found_or_put<W: WeightScale<usize, usize>>(
    cache: &mut CLruCache<usize, usize, DefaultState, W>,
    page: usize,
    text: usize,
) -> Result<bool, PutError<usize, usize>>
    ensures found { IfOk result (λ found. found ≡ is_some (lookup (nat_eq page) cache.old.entries)) }
    ensures step { OnOk result (IsGetOr (IsSizedPut nat_eq (W.weight cache.old.scale) cache.old.capacity) nat_eq page
        cache.old.entries cache.new.entries) }
    ensures capacity { cache.new.capacity ≡ cache.old.capacity }
    ensures scale { cache.new.scale ≡ cache.old.scale }
{
    if cache.get(&page).is_some() {
        return Ok(true);
    }
    cache.put_with_weight(page, text, |_, _| {})?;
    Ok(false)
}

/// Looks each page up in an empty cache, and puts it with its present text only if it is not found. Returns for each whether
/// it was found. `None` is for a put that is refused.
pub fn texts_found<W: WeightScale<usize, usize>>(
    alloc: Global,
    cache: &mut CLruCache<usize, usize, DefaultState, W>,
    requests: Vec<(usize, usize)>,
) -> Option<Vec<bool>>
    requires empty { cache.old.entries ≡ [] }
    ensures hits { (weight : ℕ → ℕ) → ((page text : ℕ) → W.weight cache.old.scale page text ≡ weight page)
        → IfSome result (λ found. found.items ≡ marks_by_size nat_eq weight cache.old.capacity (keys_of requests.items)) }
    ensures misses { (weight : ℕ → ℕ) → ((page text : ℕ) → W.weight cache.old.scale page text ≡ weight page)
        → IfSome result (λ found. count_by not found.items
        ≡ misses_by_size nat_eq weight cache.old.capacity (keys_of requests.items)) }
    ensures bound { (weight : ℕ → ℕ) → ((page text : ℕ) → W.weight cache.old.scale page text ≡ weight page)
        → IfSome result (λ found. IsCompetitiveBySize nat_eq weight cache.old.capacity (keys_of requests.items)
        (size_of_misses weight found.items (keys_of requests.items))) }
    ensures changing_high { (low high : ℕ → ℕ) (i : ℕ)
        → ((page text : ℕ) → (low page ≤ W.weight cache.old.scale page text) × (W.weight cache.old.scale page text ≤ high page))
        → slice_get (marks_by_size nat_eq high cache.old.capacity (keys_of requests.items)) i ≡ Some true
        → IfSome result (λ found. slice_get found.items i ≡ Some true) }
    ensures changing_low { (low high : ℕ → ℕ) (i : ℕ)
        → ((page text : ℕ) → (low page ≤ W.weight cache.old.scale page text) × (W.weight cache.old.scale page text ≤ high page))
        → IfSome result (λ found. slice_get found.items i ≡ Some true
        → slice_get (marks_by_size nat_eq low cache.old.capacity (keys_of requests.items)) i ≡ Some true) }
{
    law_sizes::<usize, usize>();
    law_size_bound::<usize, usize>();
    let mut found = Vec::new(alloc);
    for (page, text) in requests {
        match found_or_put(cache, page, text) {
            Ok(before) => found.push(before).ok()?,
            Err(_) => return None,
        }
    }
    Some(found)
}

/// Puts each page into an empty cache, except those too heavy for it, which are refused. Returns for each of the others whether
/// it was held before. `None` is for want of memory.
pub fn light_pages_held<W: WeightScale<usize, ()>>(
    alloc: Global,
    cache: &mut CLruCache<usize, (), DefaultState, W>,
    pages: Vec<usize>,
) -> Option<Vec<bool>>
    requires empty { cache.old.entries ≡ [] }
    ensures { let weight = λ (page : ℕ). W.weight cache.old.scale page tt in
        IfSome result (λ held. held.items ≡ marks_by_size nat_eq weight cache.old.capacity
        (filter (λ page. nat_lt (weight page) cache.old.capacity) pages.items)) }
{
    law_sizes::<usize, ()>();
    let mut held = Vec::new(alloc);
    for page in pages {
        match cache.put_with_weight(page, (), |_, _| {}) {
            Ok(before) => {
                if held.push(before.is_some()).is_err() {
                    return None;
                }
            }
            Err(PutError::TooHeavy(_, ())) => {}
            Err(PutError::NoMemory(_, ())) => return None,
        }
    }
    Some(held)
}
