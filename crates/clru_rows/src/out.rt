//! What a call answers, as it is written.

use std::alloc::Global;

/// A text. What finds no memory is left out of it, and that is known at the end.
#[derive(Drop)]
pub struct Out {
    pub text: String,
    pub is_short: bool,
}

/// An answer without items: a proof of a function that gives one is short, where it has many calls.
#[derive(Clone, Copy)]
pub enum Outcome {
    Number(Option<usize>),
    Truth(bool),
    Word(&'static str),
    /// The name is none of these calls.
    NoCall,
}

impl Outcome {
    /// An item as a number, where there is one.
    pub fn item(item: Option<u64>) -> Outcome {
        Outcome::Number(match item {
            Some(item) => Some(item as usize),
            None => None,
        })
    }
}

impl Out {
    pub fn new(alloc: Global) -> Out {
        Out {
            text: String::new(alloc),
            is_short: false,
        }
    }

    pub fn say(&mut self, text: &str) {
        if self.text.push_str(text).is_err() {
            self.is_short = true;
        }
    }

    pub fn number(&mut self, number: usize) {
        if write!(&mut self.text, "{number}").is_err() {
            self.is_short = true;
        }
    }

    /// A word, and a number behind it.
    pub fn count(&mut self, word: &str, number: usize) {
        self.say(word);
        self.number(number);
    }

    /// What parts this from what stands before, where something does.
    pub fn part(&mut self, mark: &str) {
        if !self.text.is_empty() {
            self.say(mark);
        }
    }

    /// A number, or that there is none.
    pub fn found(&mut self, number: Option<usize>) {
        match number {
            Some(number) => self.number(number),
            None => self.say("none"),
        }
    }

    /// The word for a truth.
    pub fn truth(&mut self, is: bool) {
        self.say(if is { "yes" } else { "no" });
    }

    /// What a call answered. Answers whether there was such a call.
    pub fn outcome(&mut self, outcome: Outcome) -> bool {
        match outcome {
            Outcome::Number(number) => self.found(number),
            Outcome::Truth(is) => self.truth(is),
            Outcome::Word(word) => self.say(word),
            Outcome::NoCall => return false,
        }
        true
    }

    /// A word for an answer that has none.
    pub fn or(&mut self, word: &str) {
        if self.text.is_empty() {
            self.say(word);
        }
    }

    /// Begins anew.
    pub fn clear(&mut self) {
        self.text.clear();
    }
}
