//! Blocks of costs: each line is a call of a cache of its own, and what it costs is the answer.

use crate::answers::Answers;
use crate::cache::{plain_of, weighted_of};
use crate::fault::say_fault;
use crate::lines::Line;
use crate::out::Out;
use crate::subject::{Subject, make, say_cost};
use crate::words::Wrong;
use crate::world::World;

/// Runs a block.
pub(crate) fn run(world: &'static World, lines: &[Line], answers: &mut Answers) {
    answers.say("");
    for line in lines {
        if line.call.is_empty() {
            answers.say("");
        } else if world.head.weighs {
            let on = weighted_of(world, answers);
            cost_of(world, on, line, answers);
        } else {
            let on = plain_of(world, answers);
            cost_of(world, on, line, answers);
        }
    }
}

/// What the call of a line costs, and what is wrong after it.
pub fn cost_of<T: Subject + Drop>(
    world: &World,
    made: Option<T>,
    line: &Line,
    answers: &mut Answers,
) {
    let Some(mut on) = made else {
        answers.wrong = Some(Wrong::NotFilled);
        return;
    };
    let mut out = Out::new(world.alloc);
    let before = world.cost();
    make(world, &mut on, line, &mut out);
    let cost = world.cost().since(before);
    if !out.text.starts_with("? ") {
        out.clear();
        say_cost(cost, &mut out);
        say_fault(on.fault(), &mut out);
    }
    drop(on);
    answers.add(out);
    answers.say_left_over(world);
}
