//! Blocks of requests with times one by one, under an idle limit: `idle_distances LIMIT` of keys, and `idle_spans LIMIT` of keys with
//! sizes. A request is `KEY@TIME` or `KEY:WEIGHT@TIME`.

use crate::misses::weight_of;
use crate::passes::{
    Heap, key_of, say_back, say_misses, say_refused, say_refused_again, say_sized, say_span,
};
use clru_curve::{IdlePass, SizedIdlePass};
use clru_rows::answers::Answers;
use clru_rows::fault::Fault;
use clru_rows::lines::Line;
use clru_rows::out::Out;
use clru_rows::pairs::{Hashing, Key};
use clru_rows::requested::{MOST, read_keys};
use clru_rows::subject::{Subject, begin};
use clru_rows::words::{Words, Wrong};
use clru_rows::world::World;
use std::alloc::Allocator;
use std::hash::BuildHasher;

/// A pass by keys, until it is made a curve, and
#[derive(Drop)]
struct ByKeys {
    world: &'static World,
    pass: Option<IdlePass<Key, Hashing, Heap>>,
}

/// one by keys with sizes.
#[derive(Drop)]
struct BySizes {
    world: &'static World,
    pass: Option<SizedIdlePass<Key, Hashing, Heap>>,
}

/// Runs a block of distances.
pub(crate) fn run_distances(
    world: &'static World,
    first: &Line,
    lines: &[Line],
    answers: &mut Answers,
) {
    let limit = limit_of(first);
    let pass = Some(IdlePass::with_hasher(&world.heap, limit, world.hashing()));
    begin(world, Some(ByKeys { world, pass }), lines, answers);
}

/// Runs a block of spans.
pub(crate) fn run_spans(
    world: &'static World,
    first: &Line,
    lines: &[Line],
    answers: &mut Answers,
) {
    let limit = limit_of(first);
    let pass = Some(SizedIdlePass::with_hasher(&world.heap, limit, world.hashing()));
    begin(world, Some(BySizes { world, pass }), lines, answers);
}

/// The number behind the kind of the block.
fn limit_of(first: &Line) -> usize {
    let mut words = Words::new(first.call);
    let _kind = words.word();
    words.number()
}

impl Subject for ByKeys {
    fn call(&mut self, name: &str, words: &mut Words, out: &mut Out) {
        let world = self.world;
        if name == "into_curve" {
            match self.pass.take() {
                Some(pass) => say_misses(&pass.into_curve(), out),
                None => words.note(Wrong::NothingMade),
            }
        } else if let Some(pass) = &mut self.pass {
            if name == "curve" {
                match pass.curve(&world.heap) {
                    Ok(curve) => say_misses(&curve, out),
                    Err(_) => out.say("no memory"),
                }
            } else {
                call_distances(world, pass, name, words, out);
            }
        } else {
            words.note(Wrong::NothingMade);
        }
    }

    fn fault(&self) -> Option<Fault> {
        None
    }
}

/// `request KEY@TIME ..`, or by lent keys `request_again` and `request_again_with_hash`: the distance of each, up to the first one
/// that is refused. Of many the last one is written.
fn call_distances<S: BuildHasher, A: Allocator + Copy>(
    world: &'static World,
    pass: &mut IdlePass<Key, S, A>,
    name: &str,
    words: &mut Words,
    out: &mut Out,
) {
    let requests = read_keys(world, words);
    for request in &requests {
        if requests.len() > MOST {
            out.clear();
        }
        let (text, time) = timed(request, words);
        let key = Key::new(world, text);
        match name {
            "request" => match pass.request(key, time) {
                Ok(distance) => say_span(distance, out),
                Err(back) => return say_back("no memory, back ", &back, out),
            },
            "request_again" => match pass.request_again(&key, time) {
                Ok(distance) => say_again(distance, out),
                Err(back) => return say_back("no memory, back ", back, out),
            },
            "request_again_with_hash" => {
                let hash = pass.hash(&key);
                match pass.request_again_with_hash(hash, &key, time) {
                    Ok(distance) => say_again(distance, out),
                    Err(back) => return say_back("no memory, back ", back, out),
                }
            }
            _ => words.note(Wrong::NoSuchCall),
        }
    }
}

impl Subject for BySizes {
    fn call(&mut self, name: &str, words: &mut Words, out: &mut Out) {
        let world = self.world;
        if name == "into_curve" {
            match self.pass.take() {
                Some(pass) => say_sized(&pass.into_curve(), out),
                None => words.note(Wrong::NothingMade),
            }
        } else if let Some(pass) = &mut self.pass {
            if name == "curve" {
                match pass.curve(&world.heap) {
                    Ok(curve) => say_sized(&curve, out),
                    Err(_) => out.say("no memory"),
                }
            } else {
                call_spans(world, pass, name, words, out);
            }
        } else {
            words.note(Wrong::NothingMade);
        }
    }

    fn fault(&self) -> Option<Fault> {
        None
    }
}

/// The same of spans.
fn call_spans<S: BuildHasher, A: Allocator + Copy>(
    world: &'static World,
    pass: &mut SizedIdlePass<Key, S, A>,
    name: &str,
    words: &mut Words,
    out: &mut Out,
) {
    let requests = read_keys(world, words);
    for request in &requests {
        if requests.len() > MOST {
            out.clear();
        }
        let (text, time) = timed(request, words);
        let key = key_of(world, text);
        let weight = weight_of(text, words);
        match name {
            "request" => match pass.request(key, time, weight) {
                Ok(span) => say_span(span, out),
                Err(error) => return say_refused(&error, out),
            },
            "request_again" => match pass.request_again(&key, time, weight) {
                Ok(span) => say_again(span, out),
                Err(error) => return say_refused_again(error, out),
            },
            _ => words.note(Wrong::NoSuchCall),
        }
    }
}

/// A request and its time.
pub(crate) fn timed(request: &'static str, words: &mut Words) -> (&'static str, usize) {
    match request.split_once("@") {
        Some((text, time)) => (text, words.number_of(time)),
        None => (request, 0),
    }
}

/// Says a distance or a span, that the key was requested too long before, or that no request had it.
fn say_again(found: Option<Option<usize>>, out: &mut Out) {
    match found {
        Some(Some(span)) => say_span(Some(span), out),
        Some(None) => {
            out.part(" ");
            out.say("late");
        }
        None => {
            out.part(" ");
            out.say("unknown");
        }
    }
}
