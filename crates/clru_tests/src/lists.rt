//! Items that own memory: none of it is left once they are gone.

use clru_list::{FixedSizeList, PushError};
use ration::{Rationed, equal};
use std::alloc::{AllocError, Global};

type Owned<'a> = Vec<u64, &'a Rationed<Global>>;

type Items<'a> = FixedSizeList<Owned<'a>, &'a Rationed<Global>>;

/// Pushes an item with a block of its own, and answers whether it went in.
fn pushes<'a>(heap: &'a Rationed<Global>, list: &mut Items<'a>, number: u64) -> bool {
    match Vec::from_slice(heap, &[number]) {
        Ok(item) => list.push_back(item).is_ok(),
        Err(_) => false,
    }
}

/// Pushes `n` such items, and answers how many blocks there are then: one of the list's own, with those of the items.
fn fills<'a>(heap: &'a Rationed<Global>, list: &mut Items<'a>, n: u64) -> u64 {
    for number in 0..n {
        let _ = pushes(heap, list, number);
    }
    heap.blocks()
}

/// A list with memory for nine items.
fn list_of(heap: &Rationed<Global>) -> Result<Items<'_>, AllocError> {
    match FixedSizeList::with_memory(heap, 9, 9) {
        Ok(list) => Ok(list),
        Err(_) => Err(AllocError),
    }
}

#[test]
fn a_list_drops_its_items(rt: HostRuntime) {
    let heap = Rationed::new(rt.alloc());
    equal!(rt; (lets_go(&heap), heap.blocks()), (Ok(6), 0));
}

fn lets_go(heap: &Rationed<Global>) -> Result<u64, AllocError> {
    let mut list = list_of(heap)?;
    Ok(fills(heap, &mut list, 5))
}

/// How many items and how many blocks there are.
fn counts(heap: &Rationed<Global>, list: &Items) -> (usize, u64) {
    (list.len(), heap.blocks())
}

#[test]
fn items_that_go_are_dropped(rt: HostRuntime) {
    let heap = Rationed::new(rt.alloc());
    equal!(rt; (goes(&heap), heap.blocks()), (Ok((9, (6, 7), (4, 5), (0, 1))), 0));
}

/// The blocks of a full list, and what is there after some items are not kept, after others are taken out, and after all are.
type Gone = (u64, (usize, u64), (usize, u64), (usize, u64));

fn goes(heap: &Rationed<Global>) -> Result<Gone, AllocError> {
    let mut list = list_of(heap)?;
    Ok(goes_from(heap, &mut list))
}

fn goes_from<'a>(heap: &'a Rationed<Global>, list: &mut Items<'a>) -> Gone {
    let full = fills(heap, list, 8);
    list.retain(|_, item| item.first().copied() != Some(3));
    list.retain_mut(|_, item| item.first().copied() != Some(4));
    let kept = counts(heap, list);
    takes_out(list);
    let left = counts(heap, list);
    list.clear();
    (full, kept, left, counts(heap, list))
}

/// Takes the first and the last item out.
fn takes_out(list: &mut Items) {
    list.pop_front();
    if let Some(place) = list.back_idx() {
        list.remove(place);
    }
}

#[test]
fn replaced_and_refused_items_are_dropped(rt: HostRuntime) {
    let heap = Rationed::new(rt.alloc());
    equal!(rt; (replaces(&heap), heap.blocks()), (Ok((10, 8, true, 8)), 0));
}

fn replaces(heap: &Rationed<Global>) -> Result<(u64, u64, bool, u64), AllocError> {
    let mut list = list_of(heap)?;
    let full = fills(heap, &mut list, 9);
    writes(heap, &mut list);
    let blocks = heap.blocks();
    Ok((full, blocks, refuses(heap, &mut list), heap.blocks()))
}

/// Gives the items at both ends no memory.
fn writes<'a>(heap: &'a Rationed<Global>, list: &mut Items<'a>) {
    empty(heap, list.front_mut());
    empty(heap, list.iter_mut().next_back());
}

/// Gives an item that is lent no memory.
fn empty<'a>(heap: &'a Rationed<Global>, lent: Option<&mut Owned<'a>>) {
    if let Some(old) = lent {
        *old = Vec::new(heap);
    }
}

/// Whether one item more comes back.
fn refuses<'a>(heap: &'a Rationed<Global>, list: &mut Items<'a>) -> bool {
    let Ok(more) = Vec::from_slice(heap, &[9]) else {
        return false;
    };
    match list.push_back(more) {
        Err(PushError::Full(item)) => item.as_slice() == [9u64].as_slice(),
        _ => false,
    }
}
