//! The answers of a block.

use crate::lines::Line;
use crate::out::Out;
use crate::words::Wrong;
use crate::world::World;
use std::alloc::Global;

/// The answers of a block, line by line, its first line included.
#[derive(Drop)]
pub struct Answers {
    pub alloc: Global,
    pub list: Vec<String>,
    /// Why the block is none, where that is so.
    pub wrong: Option<Wrong>,
    /// Whether one found no memory.
    pub is_short: bool,
    /// Which request for memory is refused, counted from the start of the block, and
    pub refused: Option<u64>,
    /// the call that met it, with its answer, and with that of the same call made again.
    pub met: Out,
}

impl Answers {
    pub fn new(alloc: Global, refused: Option<u64>) -> Answers {
        Answers {
            alloc,
            list: Vec::new(alloc),
            wrong: None,
            is_short: false,
            refused,
            met: Out::new(alloc),
        }
    }

    /// The answer of the next line.
    pub fn add(&mut self, out: Out) {
        let Out { text, is_short } = out;
        let is_added = self.list.push(text).is_ok();
        self.is_short = self.is_short || is_short || !is_added;
    }

    /// The answer of the next line in a word.
    pub fn say(&mut self, word: &str) {
        let mut out = Out::new(self.alloc);
        out.say(word);
        self.add(out);
    }

    /// More of the answer of the last line.
    pub fn say_more(&mut self, text: &str) {
        if let Some(last) = self.list.last_mut() {
            if last.push_str(text).is_err() {
                self.is_short = true;
            }
        }
    }

    /// Says of memory that is used at the end.
    pub fn say_left_over(&mut self, world: &World) {
        if world.is_used() {
            self.say_more("; ? memory is left over");
        }
    }

    /// Which request was met, and by what.
    pub fn meet(&mut self, what: &str) {
        if let Some(number) = self.refused {
            self.met.count("request ", number as usize);
            self.met.say(": ");
            self.met.say(what);
        }
    }

    /// Answers a first line for whose subject there was no memory.
    pub fn nothing(&mut self, world: &World) {
        self.say("no memory");
        self.meet("nothing is made");
        self.say_left_over(world);
    }

    /// Answers lines that have nothing to call, with the reason.
    pub fn refuse(&mut self, lines: &[Line], wrong: Wrong) {
        for line in lines {
            let mut out = Out::new(self.alloc);
            if !line.call.is_empty() {
                wrong.say(&mut out);
            }
            self.add(out);
        }
    }

    /// Says where answers under another hash differ.
    pub fn compare(&mut self, others: &Answers) {
        let mut is_short = others.is_short;
        for (at, other) in others.list.iter().enumerate() {
            if let Some(answer) = self.list.get_mut(at) {
                is_short = !add_other(answer, other) || is_short;
            }
        }
        self.is_short = self.is_short || is_short;
    }

    /// Says which calls answered otherwise, where all of these lines were called again. What looks at the last call may.
    pub fn compare_again(&self, again: &Answers, lines: &[Line], out: &mut Out) {
        if again.list.len() != lines.len() {
            return;
        }
        for (at, line) in lines.iter().enumerate() {
            say_if_other(line, self.list.get(at), again.list.get(at), out);
        }
    }

    /// The answer of a line in place of the one that it has.
    pub fn set(&mut self, at: usize, out: Out) {
        let Out { text, is_short } = out;
        if let Some(answer) = self.list.get_mut(at) {
            *answer = text;
        }
        self.is_short = self.is_short || is_short;
    }
}

/// Says an answer under another hash behind one that differs. Answers whether there was memory for it.
fn add_other(answer: &mut String, other: &str) -> bool {
    answer.as_str() == other
        || answer.push_str("; ? under another hash: ").is_ok() && answer.push_str(other).is_ok()
}

/// Says the answer of a line that was called again, where it differs and the line does not look at the last call.
fn say_if_other(line: &Line, answer: Option<&String>, other: Option<&String>, out: &mut Out) {
    let (Some(answer), Some(other)) = (answer, other) else {
        return;
    };
    if answer != other && !["cost", "notes", "blocks", "bytes"].contains(&line.name()) {
        out.say("; ? ");
        out.say(line.call);
        out.say(" -> ");
        out.say(other);
    }
}
