//! Blocks of looks ahead: `foresight KEYS`, and then `room N` for the least misses with room for N keys.

use clru_least::Foresight;
use clru_rows::answers::Answers;
use clru_rows::fault::Fault;
use clru_rows::lines::Line;
use clru_rows::out::Out;
use clru_rows::requested::read_keys;
use clru_rows::subject::{Subject, begin};
use clru_rows::words::{Words, Wrong};
use clru_rows::world::World;
use ration::Rationed;
use std::alloc::Global;

/// A look ahead.
type Ahead<'k> = Foresight<'k, &'static str, &'static Rationed<Global>>;

/// One that lines ask.
#[derive(Drop)]
struct Look<F: Drop> {
    ahead: F,
}

/// Runs a block.
pub(crate) fn run(world: &'static World, first: &Line, lines: &[Line], answers: &mut Answers) {
    let mut words = Words::new(first.call);
    let _name = words.next();
    let keys = read_keys(world, &mut words);
    let Ok(ahead) = Foresight::new(&world.heap, &keys, world.hashing()) else {
        answers.nothing(world);
        return;
    };
    begin(world, Some(Look { ahead }), lines, answers);
}

impl<'k> Subject for Look<Ahead<'k>> {
    fn call(&mut self, name: &str, words: &mut Words, out: &mut Out) {
        if name != "room" {
            words.note(Wrong::NoSuchCall);
            return;
        }
        match self.ahead.least(words.capacity()) {
            Ok(misses) => out.number(misses),
            Err(_) => out.say("no memory"),
        }
    }

    fn fault(&self) -> Option<Fault> {
        None
    }
}
