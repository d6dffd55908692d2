//! The calls of a list that change nothing.

use crate::list::Numbers;
use clru_list::FixedSizeListIter;
use clru_rows::calls::say_hint;
use clru_rows::out::{Out, Outcome};
use clru_rows::words::{Words, Wrong};
use std::alloc::Allocator;

/// A walk over places and items.
type Walk<'l, A> = FixedSizeListIter<'l, u64, A>;

/// Says a place with its item, or that there is none.
fn say_entry(entry: Option<(usize, &u64)>, out: &mut Out) {
    match entry {
        Some((place, item)) => {
            out.number(place);
            out.count(" ", *item as usize);
        }
        None => out.say("none"),
    }
}

/// Makes a call that changes nothing. Answers `false` where the name is none of these.
pub(crate) fn read<A: Allocator + Copy>(
    list: &Numbers<A>,
    name: &str,
    words: &mut Words,
    out: &mut Out,
) -> bool {
    match name {
        "list" => say_list(list, out),
        "iter" => walk(list, words, out),
        "get" | "item" | "next_idx" | "prev_idx" => {
            let outcome = outcome_at(list, name, words.number());
            return out.outcome(outcome);
        }
        _ => return out.outcome(outcome_of(list, name)),
    }
    true
}

/// What a call of the whole list tells.
fn outcome_of<A: Allocator + Copy>(list: &Numbers<A>, name: &str) -> Outcome {
    match name {
        "front" => Outcome::item(list.front().copied()),
        "back" => Outcome::item(list.back().copied()),
        "front_idx" => Outcome::Number(list.front_idx()),
        "back_idx" => Outcome::Number(list.back_idx()),
        "len" => Outcome::Number(Some(list.len())),
        "capacity" => Outcome::Number(Some(list.capacity())),
        "places" => Outcome::Number(Some(list.places())),
        "grown_places" => Outcome::Number(Some(list.grown_places())),
        "is_empty" => Outcome::Truth(list.is_empty()),
        "is_full" => Outcome::Truth(list.is_full()),
        _ => Outcome::NoCall,
    }
}

/// What a call tells of a place.
fn outcome_at<A: Allocator + Copy>(list: &Numbers<A>, name: &str, place: usize) -> Outcome {
    match name {
        "get" => Outcome::item(list.get(place).copied()),
        // `item` asks that one is there.
        "item" if list.get(place).is_some() => Outcome::Number(Some(*list.item(place) as usize)),
        "item" => Outcome::Number(None),
        "next_idx" => Outcome::Number(list.next_idx(place)),
        _ => Outcome::Number(list.prev_idx(place)),
    }
}

/// Says each place with its item, front first.
fn say_list<A: Allocator + Copy>(list: &Numbers<A>, out: &mut Out) {
    for entry in list {
        out.part(", ");
        say_entry(Some(entry), out);
    }
    out.or("nothing");
}

/// Steps of one iterator, in turn: `next`, `next_back`, `len`, `count`, `size_hint`, and `clone`, which goes on with a copy.
fn walk<A: Allocator + Copy>(list: &Numbers<A>, words: &mut Words, out: &mut Out) {
    let mut walk = list.iter();
    for _ in 0..usize::MAX {
        let Some(step) = words.next() else {
            break;
        };
        out.part("; ");
        if !step_of(&mut walk, step, out) {
            words.note(Wrong::NoSuchWord);
        }
    }
}

/// One step of such an iterator. Answers `false` where the name is none.
fn step_of<A: Allocator + Copy>(walk: &mut Walk<'_, A>, name: &str, out: &mut Out) -> bool {
    match name {
        "next" => say_entry(walk.next(), out),
        "next_back" => say_entry(walk.next_back(), out),
        "len" => out.number(walk.len()),
        "size_hint" => say_hint(walk.size_hint(), out),
        _ => return copy_of(walk, name, out),
    }
    true
}

/// What a copy counts, or going on with it. Answers `false` where the name is neither.
fn copy_of<A: Allocator + Copy>(walk: &mut Walk<'_, A>, name: &str, out: &mut Out) -> bool {
    let Ok(copy) = walk.clone() else {
        return false;
    };
    match name {
        "count" => out.number(copy.count()),
        "clone" => {
            *walk = copy;
            out.say("done");
        }
        _ => return false,
    }
    true
}
