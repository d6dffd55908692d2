//! Runs of calls, made by `clru_runs` on a cache of numbers: each line on one of its own. Its answer is those of its calls,
//! and how many hashes and requests they cost.

mod answers;
mod arms;
mod named;
mod numbers;

use crate::answers::Answers;
use crate::lines::Line;
use crate::out::Out;
use crate::runs::answers::say_answer;
use crate::runs::named::{any_calls_of, calls_of};
use crate::runs::numbers::{ByNumber, Counted, Of, made};
use crate::words::{Words, Wrong};
use crate::world::{Cost, World};
use clru::{WeightScale, ZeroWeightScale};
use clru_runs::{Answer, Call, PlainCall, perform_all};
use std::alloc::Allocator;
use std::hash::BuildHasher;

/// The calls of a line.
type Calls<A> = Vec<PlainCall<usize, usize>, A>;

/// A cache of numbers that weigh nothing, and
type Plain<S, A> = Of<S, ZeroWeightScale, A>;

/// one of numbers that weigh themselves.
type Weighed<S, A> = Of<S, ByNumber, A>;

/// Answers the lines of a block: each is a run of its own.
pub(crate) fn run(world: &'static World, lines: &[Line], answers: &mut Answers) {
    answers.say("");
    for line in lines {
        let mut out = Out::new(world.alloc);
        if !line.call.is_empty() {
            let mut words = Words::new(line.call);
            line_made(world, &mut words, &mut out);
            words.end(&mut out);
            world.heap.refuse_none();
        }
        answers.add(out);
        answers.say_left_over(world);
    }
}

/// Makes the calls of a line on a new cache. The first word may say what the run meets.
fn line_made(world: &'static World, words: &mut Words, out: &mut Out) {
    if world.head.weighs {
        if let Some(mut cache) = filled(world, ByNumber, words) {
            refuse(world, words);
            let calls = any_calls_of(world, &world.owned, words);
            weighed_run_of(world, &world.owned, &mut cache, calls, out);
        }
    } else if let Some(mut cache) = filled(world, ZeroWeightScale, words) {
        plain_line(world, &world.owned, &mut cache, words, out);
    }
}

/// Makes the calls of a line where numbers weigh nothing.
fn plain_line<S: BuildHasher, A: Allocator + Copy>(
    world: &'static World,
    owned: A,
    cache: &mut Plain<S, A>,
    words: &mut Words,
    out: &mut Out,
) {
    if words.passes("unanswered") {
        unanswered(world, owned, cache, calls_of(world, owned, words), out);
    } else {
        refuse(world, words);
        run_of(world, owned, cache, calls_of(world, owned, words), out);
    }
}

/// `refused`: each request of the run is; `refused one N`: the one after the next N alone.
fn refuse(world: &'static World, words: &mut Words) {
    if words.passes("refused") {
        if words.passes("one") {
            world.heap.refuse_one_after(words.number() as u64);
        } else {
            world.heap.refuse_after(0);
        }
    }
}

/// A cache with the first entries.
fn filled<W: WeightScale<usize, usize> + Copy>(
    world: &'static World,
    scale: W,
    words: &mut Words,
) -> Option<Counted<W>> {
    let head = world.head;
    let mut cache = made(world, head.capacity, head.reserve.unwrap_or(0), scale)?;
    for number in 0..head.filled {
        if cache.put_with_weight_dropping(number, number).is_err() {
            words.note(Wrong::NotFilled);
        }
    }
    Some(cache)
}

/// Makes a run, and writes its answers and what it cost. One request is made for the answers.
fn run_of<S: BuildHasher, A: Allocator + Copy>(
    world: &'static World,
    owned: A,
    cache: &mut Plain<S, A>,
    calls: Calls<A>,
    out: &mut Out,
) {
    let (before, requests) = (world.cost(), world.owned.requests());
    match perform_all(owned, cache, calls) {
        Ok(answers) => say_run(world, answers.as_slice(), before, requests, out),
        Err(_) => out.is_short = true,
    }
}

/// The same of calls that each cache has, where numbers weigh themselves.
fn weighed_run_of<S: BuildHasher, A: Allocator + Copy>(
    world: &'static World,
    owned: A,
    cache: &mut Weighed<S, A>,
    calls: Vec<Call<usize, usize>, A>,
    out: &mut Out,
) {
    let (before, requests) = (world.cost(), world.owned.requests());
    match perform_all(owned, cache, calls) {
        Ok(answers) => say_run(world, answers.as_slice(), before, requests, out),
        Err(_) => out.is_short = true,
    }
}

/// The answers up to which each is written.
const MOST: usize = 1000;

/// Says what the calls of a run answered and cost, since these were counted.
fn say_run(
    world: &World,
    answers: &[Answer<usize, usize>],
    before: Cost,
    requests: u64,
    out: &mut Out,
) {
    let cost = world.cost().since(before);
    if answers.len() > MOST {
        out.count("answers ", answers.len());
    } else {
        say_answers(answers, out);
    }
    if cost.hashed > 0 {
        out.count("; hashes ", cost.hashed as usize);
    }
    if cost.requests > 0 {
        out.count("; requests ", cost.requests as usize);
    }
    if world.owned.requests().wrapping_sub(requests) != 1 {
        out.say("; ? more than one request is made for the answers");
    }
}

fn say_answers(answers: &[Answer<usize, usize>], out: &mut Out) {
    for (at, answer) in answers.iter().enumerate() {
        out.say(if at > 0 { "; " } else { "" });
        say_answer(answer, out);
    }
}

/// Makes a run whose answers find no memory: no call is made, and all come back. They are made again then.
fn unanswered<S: BuildHasher, A: Allocator + Copy>(
    world: &'static World,
    owned: A,
    cache: &mut Plain<S, A>,
    calls: Calls<A>,
    out: &mut Out,
) {
    world.owned.refuse_one_after(0);
    match perform_all(owned, cache, calls) {
        Ok(_) => out.say("? the memory is not refused"),
        Err(calls) => {
            out.number(calls.len());
            out.count(" calls back, ", cache.len());
            out.say(" held; again ");
            run_of(world, owned, cache, calls, out);
        }
    }
}
