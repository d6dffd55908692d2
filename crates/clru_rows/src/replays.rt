//! Lists of requests as a replay marks them.

use crate::answers::Answers;
use crate::fault::Fault;
use crate::lines::Line;
use crate::out::Out;
use crate::pairs::Key;
use crate::requested::{MOST, read_keys};
use crate::subject::{Subject, run_lines};
use crate::words::{Words, Wrong};
use crate::world::World;
use clru::replay;

/// Makes each replay anew, of the line alone.
#[derive(Drop)]
struct Replays {
    world: &'static World,
}

/// Runs a block, whose first line is its call.
pub(crate) fn run(world: &'static World, block: &[Line], answers: &mut Answers) {
    run_lines(world, Replays { world }, block, answers);
}

impl Subject for Replays {
    fn call(&mut self, name: &str, words: &mut Words, out: &mut Out) {
        match name {
            "replay" => replayed(self.world, words, out),
            _ => words.note(Wrong::NoSuchCall),
        }
    }

    fn fault(&self) -> Option<Fault> {
        None
    }
}

/// `replay CAPACITY KEYS`, or `replay CAPACITY fold KEYS`: M for each miss and H for each hit, and the number of misses; or the keys that came back for want of
/// memory, or how many.
fn replayed(world: &'static World, words: &mut Words, out: &mut Out) {
    let capacity = words.capacity();
    let _folds = words.passes("fold");
    let list = read_keys(world, words);
    let mut keys = Vec::new(&world.owned);
    for key in &list {
        if keys.push(Key::new(world, key)).is_err() {
            world.is_short.set(true);
        }
    }
    let before = world.heap.blocks();
    match replay(&world.heap, capacity, keys, world.hashing()) {
        Ok(answer) => {
            if answer.marks.len() <= MOST {
                for hit in &answer.marks {
                    out.say(if *hit { "H " } else { "M " });
                }
            }
            out.count("misses ", answer.misses);
            out.count(" of ", answer.marks.len());
        }
        Err(keys) => say_back(keys.as_slice(), out),
    }
    if world.heap.blocks() != before {
        out.say("; ? memory is left over");
    }
}

/// Says that memory was refused, and which keys came back, or how many.
fn say_back(keys: &[Key], out: &mut Out) {
    out.say("no memory, back");
    if keys.len() > MOST {
        out.count(" ", keys.len());
        return;
    }
    for key in keys {
        out.say(" ");
        out.say(&key.text);
    }
}
