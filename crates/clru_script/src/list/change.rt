//! The calls of a list that may change it.

use crate::list::Numbers;
use crate::list::lend::{retain, retain_mut, swap, writes};
use clru_list::PushError;
use clru_rows::out::{Out, Outcome};
use clru_rows::words::Words;
use clru_rows::world::World;
use std::alloc::Allocator;

/// Makes a call that may change the list. Answers `false` where the name is none of these.
pub(crate) fn change<A: Allocator + Copy>(
    list: &mut Numbers<A>,
    world: &'static World,
    name: &str,
    words: &mut Words,
    out: &mut Out,
) -> bool {
    match name {
        "push_front" => say_pushed(list.push_front(words.number() as u64), out),
        "push_back" => say_pushed(list.push_back(words.number() as u64), out),
        "fill" => fill(list, words.number(), out),
        "retain" => retain(list, world, words),
        "retain_mut" => retain_mut(list, world, words),
        "get_mut" | "front_mut" | "back_mut" => lend(list, name, words, out),
        "iter_mut" => writes(list, words, out),
        "pop_front" | "make_ready" | "clear" => return out.outcome(outcome_of(list, name, 0)),
        _ => {
            let outcome = outcome_of(list, name, words.number());
            return out.outcome(outcome);
        }
    }
    true
}

/// Pushes a number to the front where it is even, and else to the back, up to a length.
fn fill<A: Allocator + Copy>(list: &mut Numbers<A>, len: usize, out: &mut Out) {
    for number in list.len()..len {
        let item = number as u64;
        let pushed = if item % 2 == 0 {
            list.push_front(item)
        } else {
            list.push_back(item)
        };
        if pushed.is_err() {
            say_pushed(pushed, out);
            return;
        }
    }
}

/// What a call tells, of a place or an index.
fn outcome_of<A: Allocator + Copy>(list: &mut Numbers<A>, name: &str, number: usize) -> Outcome {
    match name {
        "remove" => Outcome::item(list.remove(number)),
        "pop_front" => Outcome::item(list.pop_front()),
        "move_front" => Outcome::item(list.move_front(number).copied()),
        "place_at" => Outcome::Number(list.place_at(number)),
        "place_at_back" => Outcome::Number(list.place_at_back(number)),
        "make_ready" if list.make_ready().is_ok() => Outcome::Word("done"),
        "make_ready" => Outcome::Word("no memory"),
        "clear" => {
            list.clear();
            Outcome::Word("done")
        }
        "bring_front" => bring_front(list, number),
        "move_back" => move_back(list, number),
        "resize" => resize(list, number),
        _ => Outcome::NoCall,
    }
}

/// Writes through what a call lends.
fn lend<A: Allocator + Copy>(list: &mut Numbers<A>, name: &str, words: &mut Words, out: &mut Out) {
    match name {
        "get_mut" => swap(list.get_mut(words.number()), words, out),
        "front_mut" => swap(list.front_mut(), words, out),
        _ => swap(list.back_mut(), words, out),
    }
}

/// Says the place of a push, or why it was refused, with the item that came back.
fn say_pushed(pushed: Result<usize, PushError<u64>>, out: &mut Out) {
    match pushed {
        Ok(place) => out.number(place),
        Err(PushError::Full(item)) => out.count("full, back ", item as usize),
        Err(PushError::NoMemory(item)) => out.count("no memory, back ", item as usize),
    }
}

/// Brings the item at a place to the front, which asks that one is there.
fn bring_front<A: Allocator + Copy>(list: &mut Numbers<A>, place: usize) -> Outcome {
    if list.get(place).is_none() {
        return Outcome::Number(None);
    }
    list.bring_front(place);
    Outcome::Word("done")
}

/// Moves the item at a place to the back, which asks that one is there.
fn move_back<A: Allocator + Copy>(list: &mut Numbers<A>, place: usize) -> Outcome {
    if list.get(place).is_none() {
        return Outcome::Number(None);
    }
    list.move_back(place);
    Outcome::Word("done")
}

/// Sets the capacity, which asks that the items fit.
fn resize<A: Allocator + Copy>(list: &mut Numbers<A>, capacity: usize) -> Outcome {
    if list.len() > capacity {
        return Outcome::Word("they do not fit");
    }
    list.resize(capacity);
    Outcome::Word("done")
}
