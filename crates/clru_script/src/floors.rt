//! The floors of a list of requests, of what no policy misses less.

use crate::misses::{ByColon, Heavy, heavy_of};
use clru_least::{Floor, FloorPass, FloorRequestError, SizeFloor, floor};
use clru_rows::out::Out;
use clru_rows::requested::MOST;
use clru_rows::words::{Words, capacity_of};
use clru_rows::world::World;
use std::alloc::Allocator;
use std::hash::BuildHasher;

/// `floor KEY:WEIGHT ..`: the floors of the misses and of the missed size with room for a size of 1, 2 and so on, up to where they
/// stay the same.
pub(crate) fn floor_of(
    world: &'static World,
    texts: &[&'static str],
    words: &mut Words,
    out: &mut Out,
) {
    let keys = heavy_of(world, texts, words);
    floors_of(&world.heap, world.hashing(), &keys, out);
    if keys.iter().all(|key| key.1 == 0) {
        say_by_keys(&world.heap, world.hashing(), texts, out);
    }
}

fn floors_of<S: BuildHasher + Drop, A: Allocator + Copy>(
    heap: A,
    hashing: S,
    keys: &[Heavy],
    out: &mut Out,
) {
    match FloorPass::of_keys(heap, keys, ByColon, hashing) {
        Ok(pass) => say_pass(&pass, out),
        Err(FloorRequestError::NoMemory) => out.say("no memory"),
        Err(FloorRequestError::TooLarge) => out.say("too large"),
    }
}

fn say_pass<K: Eq, A: Allocator + Copy>(pass: &FloorPass<K, A>, out: &mut Out) {
    let (Ok(misses), Ok(sizes)) = (pass.floor(), pass.size_floor()) else {
        out.say("no memory for a floor");
        return;
    };
    say_rooms(&misses, &sizes, out);
}

/// Says both floors by room.
fn say_rooms<A: Allocator>(misses: &Floor<A>, sizes: &SizeFloor<A>, out: &mut Out) {
    let most = capacity_of(usize::MAX);
    let (last, last_size) = (misses.misses(most), sizes.missed_size(most));
    for room in 1..=MOST {
        let (fewest, least) = (
            misses.misses(capacity_of(room)),
            sizes.missed_size(capacity_of(room)),
        );
        out.part(", ");
        out.number(fewest);
        out.count(" of size ", least);
        if fewest == last && least == last_size {
            return;
        }
    }
    out.count(" .. ", last);
    out.count(" of size ", last_size);
}

/// Says the floor of the misses with room for 3 keys, by keys alone.
fn say_by_keys<S: BuildHasher + Drop, A: Allocator + Copy>(
    heap: A,
    hashing: S,
    texts: &[&'static str],
    out: &mut Out,
) {
    match floor(heap, texts, hashing) {
        Ok(by_keys) => out.count("; 3 keys ", by_keys.misses(capacity_of(3))),
        Err(_) => out.say("; no memory for keys"),
    }
}
