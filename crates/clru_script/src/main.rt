//! Makes the calls of a script, and writes it again, each call with what it answered. Those on caches are made in `clru_rows`,
//! which is proved before what curves need.
#![tactic(auto)]

mod aged;
mod floors;
mod foresight;
mod list;
mod misses;
mod passes;
mod requests;
mod store;
mod timed;

use clru_rows::answers::Answers;
use clru_rows::lines::Line;
use clru_rows::page::Blocks;
use clru_rows::world::World;
use clru_rows::{answer, kinds};
use std::process::ExitCode;

/// All kinds of blocks.
struct Kinds;

impl Blocks for Kinds {
    fn run(world: &'static World, block: &[Line], answers: &mut Answers) {
        let Some((first, lines)) = block.split_first() else {
            return;
        };
        match first.name() {
            "misses" | "sizes" | "floor" | "least" => requests::run(world, block, answers),
            "distances" => passes::run_distances(world, lines, answers),
            "spans" => passes::run_spans(world, lines, answers),
            "idle_distances" => timed::run_distances(world, first, lines, answers),
            "idle_spans" => timed::run_spans(world, first, lines, answers),
            "aged_misses" => aged::run_misses(world, first, lines, answers),
            "aged_sizes" => aged::run_sizes(world, first, lines, answers),
            "foresight" => foresight::run(world, first, lines, answers),
            "list" => list::run(world, lines, answers),
            "store" => store::run(world, lines, answers),
            "store_costs" => store::run_costs(world, lines, answers),
            _ => kinds::run(world, block, answers),
        }
    }
}

fn main(rt: HostRuntime) -> ExitCode {
    ExitCode::from(answer::<Kinds, _, _>(rt.alloc(), &mut rt.stdin(), &mut rt.stdout()))
}
