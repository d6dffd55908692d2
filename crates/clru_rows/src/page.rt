//! A script, written again with its answers.

use crate::answers::Answers;
use crate::head::{Hash, Head};
use crate::lines::{Line, block_at, lines_of};
use crate::out::Out;
use crate::words::{Words, Wrong};
use crate::world::World;
use std::alloc::{AllocError, Global};

/// What runs the blocks of a script, by their kinds.
pub trait Blocks {
    /// Makes the calls of a block, whose first line says the kind.
    fn run(world: &'static World, block: &[Line], answers: &mut Answers);
}

/// The script with its answers, and how many of these are faults.
#[derive(Drop)]
pub struct Page {
    pub out: Out,
    pub faults: u64,
}

/// Where the answer begins in a line that has none yet.
const COLUMN: usize = 34;

/// Answers a script.
pub fn answered<B: Blocks>(alloc: Global, script: &'static str) -> Result<Page, AllocError> {
    let lines = lines_of(alloc, script)?;
    let mut page = Page {
        out: Out::new(alloc),
        faults: 0,
    };
    let mut at = 0usize;
    for _ in 0..lines.len() {
        if at < lines.len() {
            let block = block_at(&lines, at);
            page.write(block, &answers_of::<B>(alloc, block));
            at = at.saturating_add(block.len());
        }
    }
    Ok(page)
}

impl Page {
    /// Writes the lines of a block, each with its answer. There are fewer answers where nothing was made.
    fn write(&mut self, block: &[Line], answers: &Answers) {
        for (at, line) in block.iter().enumerate() {
            match answers.list.get(at) {
                Some(answer) => self.line(line, answer),
                None => self.line(line, ""),
            }
        }
        self.out.is_short = self.out.is_short || answers.is_short || answers.met.is_short;
    }

    /// Writes a line. An answer of several lines has them one below the other.
    fn line(&mut self, line: &Line, answer: &str) {
        self.out.say(line.text);
        if answer.contains("?") {
            self.faults = self.faults.saturating_add(1);
        }
        let column = line
            .width
            .unwrap_or(COLUMN)
            .max(line.text.len().saturating_add(1));
        let mut at = line.text.len();
        for part in answer.lines() {
            say_at(column.saturating_sub(at), part, &mut self.out);
            at = 0;
        }
        if answer.is_empty() {
            self.out.say("\n");
        }
    }
}

/// Says a part of an answer behind so many blanks.
fn say_at(blanks: usize, part: &str, out: &mut Out) {
    for _ in 0..blanks {
        out.say(" ");
    }
    out.say("-> ");
    out.say(part);
    out.say("\n");
}

/// The answers of a block, under each of the hashes that its first line asks for.
fn answers_of<B: Blocks>(alloc: Global, block: &[Line]) -> Answers {
    let mut words = Words::new(match block.first() {
        Some(first) => first.call,
        None => "",
    });
    let name = words.next().unwrap_or("");
    let head = Head::read(&mut words, name);
    if let Some(wrong) = words.wrong {
        let mut answers = Answers::new(alloc, None);
        answers.refuse(block, wrong);
        return answers;
    }
    let first = head.hash.unwrap_or(Hash::Std);
    let mut answers = attempt::<B>(alloc, block, head, first, None);
    if head.hash.is_none() {
        for other in [Hash::First, Hash::Last] {
            answers.compare(&attempt::<B>(alloc, block, head, other, None));
        }
    }
    refuse_each::<B>(alloc, block, head, first, &mut answers);
    answers
}

/// The answers of a block under one hash, in a world of its own.
fn attempt<B: Blocks>(
    alloc: Global,
    block: &[Line],
    head: Head,
    hash: Hash,
    refused: Option<u64>,
) -> Answers {
    let mut answers = Answers::new(alloc, refused);
    let Ok(world) = World::new(alloc, head, hash.fixed()) else {
        answers.is_short = true;
        return answers;
    };
    if let Some(number) = refused {
        world.heap.refuse_one_after(number.saturating_sub(1));
    }
    B::run(world, block, &mut answers);
    if let Some(wrong) = answers.wrong {
        answers.list.clear();
        answers.refuse(block, wrong);
        answers.meet("? the block is none");
    }
    answers.is_short = answers.is_short || world.is_short.get();
    let _ = world.notes();
    answers
}

/// How many requests are refused in turn at most.
const MOST: u64 = 1000;

/// Answers the lines `refuse each`.
fn refuse_each<B: Blocks>(
    alloc: Global,
    block: &[Line],
    head: Head,
    hash: Hash,
    answers: &mut Answers,
) {
    for (at, line) in block.iter().enumerate() {
        if line.call == "refuse each" {
            let (before, _) = block.split_at(at);
            let mut said = Out::new(alloc);
            each_refused::<B>(alloc, before, head, hash, answers, &mut said);
            answers.set(at, said);
        }
    }
}

/// Calls the lines with the first request for memory refused, with the second, and so on until none is. A call that finds
/// no memory then is made again, and all others answer as before.
fn each_refused<B: Blocks>(
    alloc: Global,
    lines: &[Line],
    head: Head,
    hash: Hash,
    answers: &Answers,
    said: &mut Out,
) {
    for number in 1..=MOST {
        let again = attempt::<B>(alloc, lines, head, hash, Some(number));
        if again.met.text.is_empty() {
            said.count("request ", number as usize);
            said.say(": none");
            return;
        }
        said.say(&again.met.text);
        answers.compare_again(&again, lines, said);
        said.say("\n");
    }
    said.say("? so many requests are refused that it is not seen to its end");
}
