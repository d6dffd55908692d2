//! The requests of a line: keys that it names, or that it counts. Their texts stay as long as the program.

use crate::out::Out;
use crate::words::Words;
use crate::world::World;

/// The requests up to which each is written.
pub const MOST: usize = 40;

/// Reads what is left of a line, without the word `hash` and the one behind it: `count N of M`, the numbers below M in turn, or the
/// keys themselves. Behind `weigh M` a counted key has the rest of its number by M for a weight, behind a colon.
pub fn read_keys(world: &'static World, words: &mut Words) -> Vec<&'static str> {
    let mut keys = Vec::new(world.alloc);
    for _ in 0..usize::MAX {
        match words.next() {
            Some("hash") => {
                let _name = words.word();
            }
            Some("count") => number_keys(world, words, &mut keys),
            Some(key) => push(world, key, &mut keys),
            None => break,
        }
    }
    keys
}

fn push(world: &'static World, key: &'static str, keys: &mut Vec<&'static str>) {
    if keys.push(key).is_err() {
        world.is_short.set(true);
    }
}

/// So many numbers as keys.
fn number_keys(world: &'static World, words: &mut Words, keys: &mut Vec<&'static str>) {
    let count = words.number();
    let Out { text, is_short } = numbers_of(world, count, words);
    if is_short {
        world.is_short.set(true);
    }
    let written: &'static [u8] = text.into_bytes().leak();
    let mut written = Words::new(str::from_utf8(written).unwrap_or(""));
    for _ in 0..count {
        push(world, written.word(), keys);
    }
}

/// So many numbers, in words.
fn numbers_of(world: &World, count: usize, words: &mut Words) -> Out {
    let distinct = words.named("of") as u64;
    let weighed = words.passes("weigh");
    let below = if weighed { words.number() as u64 } else { 1 };
    let mut out = Out::new(world.alloc);
    for number in 0..count as u64 {
        let number = rest(number, distinct);
        out.part(" ");
        out.number(number as usize);
        if weighed {
            out.count(":", rest(number, below) as usize);
        }
    }
    out
}

/// The rest of a number by another, and 0 by 0.
fn rest(number: u64, by: u64) -> u64 {
    number.checked_rem(by).unwrap_or(0)
}
