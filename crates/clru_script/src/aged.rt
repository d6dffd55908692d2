//! Blocks of requests with times one by one, under an age limit: `aged_misses AGE IDLE CAPACITY ..` of keys, and `aged_sizes AGE IDLE
//! CAPACITY ..` of keys with sizes, where IDLE is a limit or `none`. Each line writes what the pass has counted then.

use crate::misses::weight_of;
use crate::passes::{Heap, key_of, say_back, say_refused, say_refused_again};
use crate::timed::timed;
use clru_curve::{AgedPass, SizedAgedPass};
use clru_rows::answers::Answers;
use clru_rows::fault::Fault;
use clru_rows::lines::Line;
use clru_rows::out::Out;
use clru_rows::pairs::{Hashing, Key};
use clru_rows::requested::read_keys;
use clru_rows::subject::{Subject, begin};
use clru_rows::words::{Words, Wrong};
use clru_rows::world::World;
use std::alloc::Allocator;
use std::hash::BuildHasher;

/// A pass by keys, and
#[derive(Drop)]
struct ByKeys {
    world: &'static World,
    pass: AgedPass<Key, Hashing, Heap>,
}

/// one by keys with sizes.
#[derive(Drop)]
struct BySizes {
    world: &'static World,
    pass: SizedAgedPass<Key, Hashing, Heap>,
}

/// What is behind the kind of the block.
#[derive(Drop)]
struct Limits {
    age: usize,
    idle: Option<usize>,
    capacities: Vec<usize>,
}

/// Runs a block by keys.
pub(crate) fn run_misses(
    world: &'static World,
    first: &Line,
    lines: &[Line],
    answers: &mut Answers,
) {
    let Limits {
        age,
        idle,
        capacities,
    } = limits_of(world, first);
    let made = match AgedPass::with_hasher(&world.heap, &capacities, idle, age, world.hashing()) {
        Ok(pass) => Some(ByKeys { world, pass }),
        Err(_) => None,
    };
    begin(world, made, lines, answers);
}

/// Runs a block by size.
pub(crate) fn run_sizes(
    world: &'static World,
    first: &Line,
    lines: &[Line],
    answers: &mut Answers,
) {
    let Limits {
        age,
        idle,
        capacities,
    } = limits_of(world, first);
    let made = match SizedAgedPass::with_hasher(
        &world.heap,
        &capacities,
        idle,
        age,
        world.hashing(),
    ) {
        Ok(pass) => Some(BySizes { world, pass }),
        Err(_) => None,
    };
    begin(world, made, lines, answers);
}

fn limits_of(world: &'static World, first: &Line) -> Limits {
    let mut words = Words::new(first.call);
    let _kind = words.word();
    let age = words.number();
    let idle = if words.passes("none") {
        None
    } else {
        Some(words.number())
    };
    let mut capacities = Vec::new(world.alloc);
    for text in &read_keys(world, &mut words) {
        if capacities.push(words.number_of(text)).is_err() {
            world.is_short.set(true);
        }
    }
    Limits {
        age,
        idle,
        capacities,
    }
}

impl Subject for ByKeys {
    fn call(&mut self, name: &str, words: &mut Words, out: &mut Out) {
        call_misses(self.world, &mut self.pass, name, words, out);
    }

    fn fault(&self) -> Option<Fault> {
        None
    }
}

/// `request KEY@TIME ..`, or `request_again` by lent keys, up to the first one that is refused or unknown.
fn call_misses<S: BuildHasher, A: Allocator + Copy>(
    world: &'static World,
    pass: &mut AgedPass<Key, S, A>,
    name: &str,
    words: &mut Words,
    out: &mut Out,
) {
    let requests = read_keys(world, words);
    for request in &requests {
        let (text, time) = timed(request, words);
        let key = Key::new(world, text);
        match name {
            "request" => {
                if let Err(back) = pass.request(key, time) {
                    return say_back("no memory, back ", &back, out);
                }
            }
            "request_again" => match pass.request_again(&key, time) {
                Ok(true) => {}
                Ok(false) => return out.say("unknown"),
                Err(back) => return say_back("no memory, back ", back, out),
            },
            _ => words.note(Wrong::NoSuchCall),
        }
    }
    out.count("requests ", pass.requests());
    out.count(", distinct ", pass.distinct());
    out.say(", misses");
    say_numbers(pass.misses(), out);
}

fn say_numbers(numbers: &[usize], out: &mut Out) {
    for number in numbers {
        out.count(" ", *number);
    }
}

impl Subject for BySizes {
    fn call(&mut self, name: &str, words: &mut Words, out: &mut Out) {
        call_sizes(self.world, &mut self.pass, name, words, out);
    }

    fn fault(&self) -> Option<Fault> {
        None
    }
}

/// The same by size.
fn call_sizes<S: BuildHasher, A: Allocator + Copy>(
    world: &'static World,
    pass: &mut SizedAgedPass<Key, S, A>,
    name: &str,
    words: &mut Words,
    out: &mut Out,
) {
    let requests = read_keys(world, words);
    for request in &requests {
        let (text, time) = timed(request, words);
        let key = key_of(world, text);
        let weight = weight_of(text, words);
        match name {
            "request" => {
                if let Err(error) = pass.request(key, time, weight) {
                    return say_refused(&error, out);
                }
            }
            "request_again" => match pass.request_again(&key, time, weight) {
                Ok(true) => {}
                Ok(false) => return out.say("unknown"),
                Err(error) => return say_refused_again(error, out),
            },
            _ => words.note(Wrong::NoSuchCall),
        }
    }
    out.count("requests ", pass.requests());
    out.count(" of size ", pass.size());
    out.count(", distinct size ", pass.distinct_size());
    out.count(", greatest weight ", pass.greatest_weight());
    out.say(", misses");
    say_numbers(pass.misses(), out);
    out.say(", of size");
    say_numbers(pass.missed_sizes(), out);
}
