//! The calls of a list that lend items for writing, or show them to a closure.

use crate::list::Numbers;
use clru_rows::closures::Keep;
use clru_rows::out::Out;
use clru_rows::words::{Words, Wrong};
use clru_rows::world::World;
use std::alloc::Allocator;
use std::mem;

/// Keeps the items of a form.
pub(crate) fn retain<A: Allocator + Copy>(list: &mut Numbers<A>, world: &World, words: &mut Words) {
    let keep = Keep::read(words);
    list.retain(|place, item| keeps_item(world, keep, place, *item));
}

/// The same, which adds a number to each item, after it was looked at.
pub(crate) fn retain_mut<A: Allocator + Copy>(
    list: &mut Numbers<A>,
    world: &World,
    words: &mut Words,
) {
    let (keep, more) = (Keep::read(words), words.number() as u64);
    list.retain_mut(|place, item| {
        let kept = keeps_item(world, keep, place, *item);
        *item = item.wrapping_add(more);
        kept
    });
}

/// Whether an item is kept. The call is noted with the item's place.
fn keeps_item(world: &World, keep: Keep, place: usize, item: u64) -> bool {
    if let Ok(text) = place.to_string(world.alloc) {
        world.note("keep", &text);
    }
    keep.keeps(item as usize)
}

/// Writes the next word to what is lent, where something is, and the old item as the answer.
pub(crate) fn swap(lent: Option<&mut u64>, words: &mut Words, out: &mut Out) {
    let item = words.number() as u64;
    match lent {
        Some(lent) => out.number(mem::replace(lent, item) as usize),
        None => out.say("none"),
    }
}

/// A step of a cursor, with what it writes to the item that it lends: `next X`, `next_back X`, `next_entry X` and
/// `next_entry_back X`; and `len`.
pub(crate) fn writes<A: Allocator + Copy>(list: &mut Numbers<A>, words: &mut Words, out: &mut Out) {
    let step = words.word();
    let mut cursor = list.iter_mut();
    let left = cursor.len();
    match step {
        "len" => out.number(left),
        "next" => swap(cursor.next(), words, out),
        "next_back" => swap(cursor.next_back(), words, out),
        "next_entry" | "next_entry_back" if left == 0 => swap(None, words, out),
        "next_entry" => swap_entry(cursor.next_entry(), words, out),
        "next_entry_back" => swap_entry(cursor.next_entry_back(), words, out),
        _ => words.note(Wrong::NoSuchWord),
    }
}

/// The same with the place of what is lent before it.
fn swap_entry(lent: (usize, &mut u64), words: &mut Words, out: &mut Out) {
    out.number(lent.0);
    out.say(" ");
    swap(Some(lent.1), words, out);
}
