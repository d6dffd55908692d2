//! Whole lists of requests: what each capacity misses, and the least that any choice misses.

use crate::floors::floor_of;
use crate::misses::{misses_of, sizes_of};
use clru_least::{Foresight, least};
use clru_rows::answers::Answers;
use clru_rows::fault::Fault;
use clru_rows::lines::Line;
use clru_rows::out::Out;
use clru_rows::requested::{MOST, read_keys};
use clru_rows::subject::{Subject, run_lines};
use clru_rows::words::{Words, Wrong, capacity_of};
use clru_rows::world::World;
use std::alloc::Allocator;

/// Makes each call anew, of the line alone.
#[derive(Drop)]
struct Requests {
    world: &'static World,
}

/// Runs a block, whose first line is its call.
pub(crate) fn run(world: &'static World, block: &[Line], answers: &mut Answers) {
    run_lines(world, Requests { world }, block, answers);
}

impl Subject for Requests {
    fn call(&mut self, name: &str, words: &mut Words, out: &mut Out) {
        let world = self.world;
        match name {
            "misses" => misses_of(world, &read_keys(world, words), out),
            "sizes" => sizes_of(world, &read_keys(world, words), words, out),
            "floor" => floor_of(world, &read_keys(world, words), words, out),
            "least" => least_of(world, &read_keys(world, words), out),
            _ => words.note(Wrong::NoSuchCall),
        }
    }

    fn fault(&self) -> Option<Fault> {
        None
    }
}

/// `least KEYS`: the least misses with room for 1, 2 and so on, up to where they stay the same.
fn least_of(world: &'static World, keys: &[&'static str], out: &mut Out) {
    let Ok(foresight) = Foresight::new(&world.heap, keys, world.hashing()) else {
        out.say("no memory");
        return;
    };
    say_rooms(&foresight, out);
    match foresight.least(capacity_of(3)) {
        Ok(wanted) => say_beside(world, keys, wanted, out),
        Err(_) => out.say("; no memory"),
    }
}

/// Says the least misses of the whole list with room for 3, where they are not those.
fn say_beside(world: &'static World, keys: &[&'static str], wanted: usize, out: &mut Out) {
    match least(&world.heap, capacity_of(3), keys, world.hashing()) {
        Ok(misses) if misses == wanted => {}
        Ok(misses) => {
            out.count("; ? ", misses);
            out.say(" with room for 3");
        }
        Err(_) => out.say("; no memory"),
    }
}

/// Says the least misses by room.
fn say_rooms<K: Eq, A: Allocator + Copy>(foresight: &Foresight<K, A>, out: &mut Out) {
    let Ok(last) = foresight.least(capacity_of(usize::MAX)) else {
        out.say("no memory");
        return;
    };
    for room in 1..=MOST {
        let Ok(misses) = foresight.least(capacity_of(room)) else {
            out.say(" no memory");
            return;
        };
        out.part(" ");
        out.number(misses);
        if misses == last {
            return;
        }
    }
    out.count(" .. ", last);
}
