//! Callers that are proved over the contracts of the store alone.
ghost use Rattle.std.specs.Prelude.{◌≡◌, ◌↔◌, ℕ, Some, nat_eq, Result, IfOk, IfErr, IfSome, IsSome};
ghost use Rattle.std.specs.Map.{lookup};
ghost use Rattle.clru_through.specs.Steps.{Loads};
ghost use Rattle.clru_through.specs.declared.answer.Loaded.{Loaded};

pub mod changing;
pub mod listening;
pub mod loads;
pub mod parts;
pub mod tiers;

use clru::{DefaultState, WeightScale};
use clru_through::{Answer, Loaded, Source, Through};
use std::alloc::Global;

/// Returns the value of a page, by one load. The source keeps its values.
pub fn value_of<E, R: Source<u64, u64, E>, W: WeightScale<u64, u64>>(
    store: &mut Through<u64, u64, E, R, DefaultState, W, Global>,
    page: u64,
) -> Result<u64, E>
    ensures value { IfOk result (λ value. R.value store.old.source page ≡ Some value) }
    ensures kept { (k : ℕ) → R.value store.new.source k ≡ R.value store.old.source k }
    ensures step { (loaded : Result (Loaded ℕ) E)
        × Loads nat_eq (W.weight store.old.cache.scale) R.fetches store.old page loaded store.new }
{
    match store.load(page)? {
        Loaded::Passed(value) => Ok(value),
        Loaded::Held { .. } => match store.peek(&page) {
            Some(value) => Ok(*value),
            None => unreachable!(),
        },
    }
}

/// Returns the value of a page, loaded twice: both are the same, whether it is held in between or not.
pub fn twice<E, R: Source<u64, u64, E>, W: WeightScale<u64, u64>>(
    store: &mut Through<u64, u64, E, R, DefaultState, W, Global>,
    page: u64,
) -> Result<(u64, u64), E>
    ensures { IfOk result (λ both. both.0 ≡ both.1) }
{
    let first = value_of(store, page)?;
    let second = value_of(store, page)?;
    Ok((first, second))
}

/// Gets two pages, one after the other: both values are the source's.
pub fn got_both<E: Drop, R: Source<u64, u64, E>, W: WeightScale<u64, u64>>(
    store: &mut Through<u64, u64, E, R, DefaultState, W>,
    first: u64,
    second: u64,
) -> Option<(u64, u64)>
    ensures first { IfSome result (λ both. R.value store.old.source first ≡ Some both.0) }
    ensures second { IfSome result (λ both. R.value store.old.source second ≡ Some both.1) }
{
    let first = got(store, first)?;
    let second = got(store, second)?;
    Some((first, second))
}

/// Gets a page twice: both values are the same, whether the page is held in between or not.
pub fn got_twice<E: Drop, R: Source<u64, u64, E>, W: WeightScale<u64, u64>>(
    store: &mut Through<u64, u64, E, R, DefaultState, W>,
    page: u64,
) -> Option<(u64, u64)>
    ensures { IfSome result (λ both. both.0 ≡ both.1) }
{
    got_both(store, page, page)
}

/// Gets a page. The result is its value, or `None` if the fetch fails.
pub fn got<E: Drop, R: Source<u64, u64, E>, W: WeightScale<u64, u64>>(
    store: &mut Through<u64, u64, E, R, DefaultState, W>,
    page: u64,
) -> Option<u64>
    ensures value { IfSome result (λ value. R.value store.old.source page ≡ Some value) }
    ensures kept { (k : ℕ) → R.value store.new.source k ≡ R.value store.old.source k }
    ensures step { (loaded : Result (Loaded ℕ) E)
        × Loads nat_eq (W.weight store.old.cache.scale) R.fetches store.old page loaded store.new }
{
    match store.get(page) {
        Ok(Answer::Held(value)) => Some(*value),
        Ok(Answer::Passed(value)) => Some(*value),
        Err(_) => None,
    }
}

/// Loads a page, and returns the number of its fetches, which is one if the page was not held.
pub fn fetches_of<E, R: Source<u64, u64, E>, W: WeightScale<u64, u64>>(
    store: &mut Through<u64, u64, E, R, DefaultState, W>,
    page: u64,
) -> Result<u64, E>
    ensures { IfOk result (λ fetches. (fetches ≡ 0) ↔ IsSome (lookup (nat_eq page) store.old.cache.entries)) }
{
    match store.load(page)? {
        Loaded::Held { fetched: false } => Ok(0),
        _ => Ok(1),
    }
}

/// Returns the room that is left: the values never take more than the capacity.
pub fn room_of<E, R: Source<u64, u64, E>, W: WeightScale<u64, u64>>(
    store: &Through<u64, u64, E, R, DefaultState, W>,
) -> usize {
    store.capacity() - store.weight() - store.len()
}

/// Returns the value of a page if it is held: it is the source's.
pub fn held_of<E, R: Source<u64, u64, E>, W: WeightScale<u64, u64>>(
    store: &Through<u64, u64, E, R, DefaultState, W>,
    page: u64,
) -> Option<u64>
    ensures { IfSome result (λ value. R.value store.now.source page ≡ Some value) }
{
    store.peek(&page).copied()
}

/// Loads a page. If its fetch fails, returns what is held of another page, which is what was held before.
pub fn load_beside<E: Drop, R: Source<u64, u64, E>, W: WeightScale<u64, u64>>(
    store: &mut Through<u64, u64, E, R, DefaultState, W, Global>,
    page: u64,
    other: u64,
) -> Result<(), Option<u64>>
    ensures { IfErr result (λ held. held ≡ lookup (nat_eq other) store.old.cache.entries) }
{
    match store.load(page) {
        Ok(_) => Ok(()),
        Err(_) => Err(store.peek(&other).copied()),
    }
}
