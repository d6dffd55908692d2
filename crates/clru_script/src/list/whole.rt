//! What has to hold of a list after each call.

use crate::list::Numbers;
use clru_rows::fault::Fault;
use std::alloc::Allocator;

/// What is wrong with a list, if anything: its walks from both ends, by an iterator and by places, its ends and its size.
pub(crate) fn list_fault<A: Allocator + Copy>(list: &Numbers<A>) -> Option<Fault> {
    let len = list.len();
    if len > list.capacity() || list.is_full() != (len == list.capacity()) {
        return Some(Fault::Size);
    }
    if len > list.places() || list.is_empty() != (len == 0) {
        return Some(Fault::Size);
    }
    let (first, last) = (list.front_idx(), list.back_idx());
    let is_alike = is_linked(list, first, last)
        && is_linked_back(list, last)
        && list.front() == item_at(list, first)
        && list.back() == item_at(list, last)
        && list.iter().count() == len
        && list.iter().rev().count() == len;
    if is_alike { None } else { Some(Fault::Walk) }
}

/// Whether a walk is that by places, from the first one to the last.
fn is_linked<A: Allocator + Copy>(
    list: &Numbers<A>,
    first: Option<usize>,
    last: Option<usize>,
) -> bool {
    let (mut at, mut before, mut is_alike) = (first, None, true);
    for (place, item) in list {
        is_alike = is_alike && at == Some(place) && is_behind(list, place, before, item);
        before = at;
        at = list.next_idx(place);
    }
    is_alike && at.is_none() && before == last
}

/// Whether a place has this item, and this one before it.
fn is_behind<A: Allocator + Copy>(
    list: &Numbers<A>,
    place: usize,
    before: Option<usize>,
    item: &u64,
) -> bool {
    list.prev_idx(place) == before && list.get(place) == Some(item)
}

/// Whether a walk from the back is that by places.
fn is_linked_back<A: Allocator + Copy>(list: &Numbers<A>, last: Option<usize>) -> bool {
    let (mut at, mut is_alike) = (last, true);
    for (place, _) in list.iter().rev() {
        is_alike = is_alike && at == Some(place);
        at = list.prev_idx(place);
    }
    is_alike && at.is_none()
}

/// The item at a place, where there is one.
fn item_at<'l, A: Allocator + Copy>(list: &'l Numbers<A>, place: Option<usize>) -> Option<&'l u64> {
    match place {
        Some(place) => list.get(place),
        None => None,
    }
}
