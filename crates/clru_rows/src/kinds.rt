//! The kinds of blocks on caches.

use crate::answers::Answers;
use crate::lines::Line;
use crate::words::Wrong;
use crate::world::World;
use crate::{cache, costs, makers, replays, runs};

/// Makes the calls of a block of one of these kinds.
pub fn run(world: &'static World, block: &[Line], answers: &mut Answers) {
    let Some((first, lines)) = block.split_first() else {
        return;
    };
    match first.name() {
        "cache" => cache::run(world, first, lines, answers),
        "costs" => costs::run(world, lines, answers),
        "makers" => makers::run(world, lines, answers),
        "replay" => replays::run(world, block, answers),
        "runs" => runs::run(world, lines, answers),
        _ => answers.wrong = Some(Wrong::NothingMade),
    }
}
