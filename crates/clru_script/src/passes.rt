//! Blocks of requests one by one: `distances` of keys, and `spans` of keys with sizes.

use crate::misses::weight_of;
use clru_curve::{DistancePass, MissCurve, SizedCurve, SizedPass, SizedRequestError};
use clru_rows::answers::Answers;
use clru_rows::fault::Fault;
use clru_rows::lines::Line;
use clru_rows::out::Out;
use clru_rows::pairs::{Hashing, Key};
use clru_rows::requested::{MOST, read_keys};
use clru_rows::subject::{Subject, begin};
use clru_rows::words::{Words, Wrong};
use clru_rows::world::World;
use ration::Rationed;
use std::alloc::{Allocator, Global};
use std::hash::BuildHasher;

/// Memory that is counted.
pub(crate) type Heap = &'static Rationed<Global>;

/// A pass by keys over any hash builder and memory, and
type Distances<S, A> = DistancePass<Key, S, A>;

/// one by keys with sizes: what calls them is proved with no look at how these count.
type Spans<S, A> = SizedPass<Key, S, A>;

/// The memory that a curve is made of.
#[derive(Clone, Copy)]
struct Heaps<A: Copy> {
    /// That of the block, and
    heap: A,
    /// that of keys, which is not refused.
    owned: A,
}

fn heaps_of(world: &'static World) -> Heaps<Heap> {
    Heaps {
        heap: &world.heap,
        owned: &world.owned,
    }
}

/// A pass by keys, until it is made a curve, and
#[derive(Drop)]
struct ByKeys {
    world: &'static World,
    pass: Option<Distances<Hashing, Heap>>,
}

/// one by keys with sizes.
#[derive(Drop)]
struct BySizes {
    world: &'static World,
    pass: Option<Spans<Hashing, Heap>>,
}

/// Runs a block of distances.
pub(crate) fn run_distances(world: &'static World, lines: &[Line], answers: &mut Answers) {
    let pass = Some(DistancePass::with_hasher(&world.heap, world.hashing()));
    begin(world, Some(ByKeys { world, pass }), lines, answers);
}

/// Runs a block of spans.
pub(crate) fn run_spans(world: &'static World, lines: &[Line], answers: &mut Answers) {
    let pass = Some(SizedPass::with_hasher(&world.heap, world.hashing()));
    begin(world, Some(BySizes { world, pass }), lines, answers);
}

impl Subject for ByKeys {
    fn call(&mut self, name: &str, words: &mut Words, out: &mut Out) {
        let world = self.world;
        if name == "into_curve" {
            match self.pass.take() {
                Some(pass) => say_misses(&pass.into_curve(), out),
                None => words.note(Wrong::NothingMade),
            }
        } else if let Some(pass) = &mut self.pass {
            call_distances(world, heaps_of(world), pass, name, words, out);
        } else {
            words.note(Wrong::NothingMade);
        }
    }

    fn fault(&self) -> Option<Fault> {
        None
    }
}

/// Makes a call that leaves the pass.
fn call_distances<S: BuildHasher, A: Allocator + Copy>(
    world: &'static World,
    heaps: Heaps<A>,
    pass: &mut Distances<S, A>,
    name: &str,
    words: &mut Words,
    out: &mut Out,
) {
    match name {
        "request" => request_all(world, pass, words, out),
        "request_again" => request_all_again(world, pass, words, out),
        "curve" => match pass.curve(heaps.heap) {
            Ok(curve) => say_misses(&curve, out),
            Err(_) => out.say("no memory"),
        },
        "at" => match pass.curve(heaps.owned) {
            Ok(curve) => say_all_at(&curve, words, out),
            Err(_) => out.is_short = true,
        },
        _ => words.note(Wrong::NoSuchCall),
    }
}

/// `request KEYS`: the distance of each, up to the first one that is refused. Of many the last one is written.
fn request_all<S: BuildHasher, A: Allocator + Copy>(
    world: &'static World,
    pass: &mut Distances<S, A>,
    words: &mut Words,
    out: &mut Out,
) {
    let keys = read_keys(world, words);
    for key in &keys {
        if keys.len() > MOST {
            out.clear();
        }
        match pass.request(Key::new(world, key)) {
            Ok(distance) => say_span(distance, out),
            Err(back) => {
                say_back("no memory, back ", &back, out);
                return;
            }
        }
    }
}

/// `request_again KEYS`: the same by a lent key, which is not taken where no request had it.
fn request_all_again<S: BuildHasher, A: Allocator + Copy>(
    world: &'static World,
    pass: &mut Distances<S, A>,
    words: &mut Words,
    out: &mut Out,
) {
    let keys = read_keys(world, words);
    for text in &keys {
        let key = Key::new(world, text);
        match pass.request_again(&key) {
            Ok(distance) => say_again(distance, out),
            Err(back) => {
                say_back("no memory, back ", back, out);
                return;
            }
        }
    }
}

/// Says which key came back.
pub(crate) fn say_back(why: &str, key: &Key, out: &mut Out) {
    out.part(" ");
    out.say(why);
    out.say(&key.text);
}

/// `at CAPACITY ..`: the misses there.
fn say_all_at<A: Allocator>(curve: &MissCurve<A>, words: &mut Words, out: &mut Out) {
    for _ in 0..usize::MAX {
        if words.is_empty() {
            break;
        }
        out.part(" ");
        out.number(curve.misses(words.capacity()));
    }
}

impl Subject for BySizes {
    fn call(&mut self, name: &str, words: &mut Words, out: &mut Out) {
        let world = self.world;
        if name == "into_curve" {
            match self.pass.take() {
                Some(pass) => say_sized(&pass.into_curve(), out),
                None => words.note(Wrong::NothingMade),
            }
        } else if let Some(pass) = &mut self.pass {
            call_spans(world, heaps_of(world), pass, name, words, out);
        } else {
            words.note(Wrong::NothingMade);
        }
    }

    fn fault(&self) -> Option<Fault> {
        None
    }
}

/// Makes a call that leaves the pass.
fn call_spans<S: BuildHasher, A: Allocator + Copy>(
    world: &'static World,
    heaps: Heaps<A>,
    pass: &mut Spans<S, A>,
    name: &str,
    words: &mut Words,
    out: &mut Out,
) {
    match name {
        "request" => request_sized(world, pass, words, out),
        "request_again" => request_sized_again(world, pass, words, out),
        "curve" => match pass.curve(heaps.heap) {
            Ok(curve) => say_sized(&curve, out),
            Err(_) => out.say("no memory"),
        },
        "at" => match pass.curve(heaps.owned) {
            Ok(curve) => say_all_sized_at(&curve, words, out),
            Err(_) => out.is_short = true,
        },
        _ => words.note(Wrong::NoSuchCall),
    }
}

/// The key of a word `KEY:WEIGHT`.
pub(crate) fn key_of(world: &'static World, word: &str) -> Key {
    let (key, _) = word.split_once(":").unwrap_or((word, ""));
    Key::new(world, key)
}

/// `request KEY:WEIGHT ..`: the span of each, up to the first one that is refused. Of many the last one is written.
fn request_sized<S: BuildHasher, A: Allocator + Copy>(
    world: &'static World,
    pass: &mut Spans<S, A>,
    words: &mut Words,
    out: &mut Out,
) {
    let keys = read_keys(world, words);
    for text in &keys {
        if keys.len() > MOST {
            out.clear();
        }
        match pass.request(key_of(world, text), weight_of(text, words)) {
            Ok(span) => say_span(span, out),
            Err(error) => {
                say_refused(&error, out);
                return;
            }
        }
    }
}

/// Says why a request is refused, and which key came back.
pub(crate) fn say_refused(error: &SizedRequestError<Key>, out: &mut Out) {
    match error {
        SizedRequestError::NoMemory(back) => say_back("no memory, back ", back, out),
        SizedRequestError::TooLarge(back) => say_back("too large, back ", back, out),
    }
}

/// `request_again KEY:WEIGHT ..`: the same by a lent key, which is not taken where no request had it.
fn request_sized_again<S: BuildHasher, A: Allocator + Copy>(
    world: &'static World,
    pass: &mut Spans<S, A>,
    words: &mut Words,
    out: &mut Out,
) {
    let keys = read_keys(world, words);
    for text in &keys {
        let key = key_of(world, text);
        match pass.request_again(&key, weight_of(text, words)) {
            Ok(span) => say_again(span, out),
            Err(error) => {
                say_refused_again(error, out);
                return;
            }
        }
    }
}

/// The same of a lent key.
pub(crate) fn say_refused_again(error: SizedRequestError<&Key>, out: &mut Out) {
    match error {
        SizedRequestError::NoMemory(back) => say_back("no memory, back ", back, out),
        SizedRequestError::TooLarge(back) => say_back("too large, back ", back, out),
    }
}

/// `at CAPACITY ..`: the misses there and their size, or that there is no answer.
fn say_all_sized_at<A: Allocator>(curve: &SizedCurve<A>, words: &mut Words, out: &mut Out) {
    for _ in 0..usize::MAX {
        if words.is_empty() {
            break;
        }
        out.part(", ");
        let capacity = words.capacity();
        say_at(curve.misses(capacity), curve.missed_size(capacity), out);
    }
}

fn say_at(misses: Option<usize>, size: Option<usize>, out: &mut Out) {
    match (misses, size) {
        (Some(misses), Some(size)) => {
            out.number(misses);
            out.count(" of size ", size);
        }
        (None, None) => out.say("none"),
        _ => out.say("? a number without the other"),
    }
}

/// Says a distance or a span, or that no request had the key.
fn say_again(span: Option<usize>, out: &mut Out) {
    if span.is_none() {
        out.part(" ");
        out.say("unknown");
    } else {
        say_span(span, out);
    }
}

/// Says a distance or a span, or that a key is requested for the first time.
pub(crate) fn say_span(span: Option<usize>, out: &mut Out) {
    out.part(" ");
    match span {
        Some(span) => out.number(span),
        None => out.say("new"),
    }
}

/// Says the misses by capacity, or how many capacities have numbers of their own.
pub(crate) fn say_misses<A: Allocator>(curve: &MissCurve<A>, out: &mut Out) {
    out.part(", ");
    out.count("distinct ", curve.distinct());
    if curve.distinct() <= MOST {
        out.say(", misses");
        for misses in curve.as_slice() {
            out.count(" ", *misses);
        }
    }
}

/// Says a curve by size. Each of its steps is a capacity with the size that is missed from there on.
pub(crate) fn say_sized<A: Allocator>(curve: &SizedCurve<A>, out: &mut Out) {
    out.count("requests ", curve.requests());
    out.count(" of size ", curve.size());
    out.count(", distinct size ", curve.distinct_size());
    out.count(", greatest weight ", curve.greatest_weight());
    if curve.as_slice().len() > MOST {
        return;
    }
    for (number, step) in curve.as_slice().iter().enumerate() {
        out.say(if number == 0 { ", steps" } else { "" });
        out.count(" ", step.capacity);
        out.count(":", step.missed_size);
    }
}
