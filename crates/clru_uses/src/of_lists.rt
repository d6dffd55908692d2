//! Callers that are proved over the contracts of the list alone.
ghost use Rattle.std.specs.Prelude.{◌≡◌, ◌+◌, ◌/◌, ◌^◌, ◌<◌, ◌∷◌, ◌++◌, [], map, IfOk};
ghost use Rattle.clru_list.specs.PlaceList.{with_entries};

pub mod errors;

use clru_list::{FixedSizeList, PushError};
use std::alloc::Allocator;

/// Halves each item.
pub fn halve<A: Allocator + Copy>(list: &mut FixedSizeList<u64, A>)
    ensures { list.new ≡ with_entries list.old (map (λ e. (e.0, e.1 / 2)) list.old.entries) }
{
    let mut cursor = list.iter_mut();
    while let Some(item) = cursor.next() {
        *item /= 2;
    }
}

/// Halves each item, and goes by both ends in turn.
pub fn halve_by_both_ends(list: &mut FixedSizeList<u64>)
    ensures { list.new ≡ with_entries list.old (map (λ e. (e.0, e.1 / 2)) list.old.entries) }
{
    let mut cursor = list.iter_mut();
    while cursor.len() > 0 {
        let (_, first) = cursor.next_entry();
        *first /= 2;
        if let Some(last) = cursor.next_back() {
            *last /= 2;
        }
    }
}

/// Halves each item, from the back to the front, and returns the place that it came to at last.
pub fn halve_backwards(list: &mut FixedSizeList<u64>) -> Option<usize>
    ensures { list.new ≡ with_entries list.old (map (λ e. (e.0, e.1 / 2)) list.old.entries) }
{
    let mut at = None;
    let mut cursor = list.iter_mut();
    while cursor.len() > 0 {
        let (place, value) = cursor.next_entry_back();
        *value /= 2;
        at = Some(place);
    }
    at
}

/// Pushes two items to the back, and then brings the first of them to the front, by the place that it kept, and adds to it.
pub fn push_and_lift(
    list: &mut FixedSizeList<u64>,
    item: u64,
    other: u64,
) -> Result<(usize, usize), PushError<u64>>
    requires { item < 2 ^ 63 }
    ensures { IfOk result (λ places. list.new.entries
        ≡ (places.0, item + 1) ∷ (list.old.entries ++ (places.1, other) ∷ [])) }
{
    let place = list.push_back(item)?;
    let behind = list.push_back(other)?;
    match list.move_front(place) {
        Some(lifted) => {
            *lifted += 1;
            Ok((place, behind))
        }
        None => unreachable!(),
    }
}
