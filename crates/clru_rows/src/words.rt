//! The words of a line: keys, values, numbers and forms.

use crate::out::Out;
use std::alloc::Global;
use std::num::NonZeroUsize;

/// Why a line is no call.
#[derive(Clone, Copy)]
pub enum Wrong {
    NoSuchCall,
    NoSuchWord,
    Missing,
    TooMany,
    NoNumber,
    LongKey,
    NoCapacity,
    NothingMade,

    /// The entries that a first line asks for are refused.
    NotFilled,
}

impl Wrong {
    /// Says so in place of an answer.
    pub fn say(self, out: &mut Out) {
        out.clear();
        out.say(match self {
            Wrong::NoSuchCall => "? there is no such call",
            Wrong::NoSuchWord => "? this word has no meaning here",
            Wrong::Missing => "? a word is missing",
            Wrong::TooMany => "? there is a word too many",
            Wrong::NoNumber => "? this is no number",
            Wrong::LongKey => "? a key has at most eight letters",
            Wrong::NoCapacity => "? a capacity is no 0",
            Wrong::NothingMade => "? nothing is made yet",
            Wrong::NotFilled => "? the first entries are refused",
        });
    }
}

/// The words of a call that are left, and what is wrong with those that were read. A word that is missing is read as an empty
/// one, and what is no number as 0, so that a call takes them without a look at each: the answer is then what is wrong.
#[derive(Clone, Copy)]
pub struct Words {
    rest: &'static str,
    pub wrong: Option<Wrong>,
}

impl Words {
    pub fn new(text: &'static str) -> Words {
        Words {
            rest: text,
            wrong: None,
        }
    }

    /// The next word, where there is one.
    pub fn next(&mut self) -> Option<&'static str> {
        let text = self.rest.trim_start();
        let (word, rest) = text.split_once(' ').unwrap_or((text, ""));
        self.rest = rest;
        if word.is_empty() { None } else { Some(word) }
    }

    /// The words that are left, with a number in place of the first `*`. Their text stays as long as the program.
    pub(crate) fn with_number(&self, alloc: Global, number: usize) -> Words {
        let Some((before, after)) = self.rest.split_once("*") else {
            return *self;
        };
        let mut out = Out::new(alloc);
        out.say(before);
        out.number(number);
        out.say(after);
        let Out { text, is_short: _ } = out;
        let text: &'static [u8] = text.into_bytes().leak();
        Words {
            rest: str::from_utf8(text).unwrap_or(""),
            wrong: self.wrong,
        }
    }

    /// Whether none is left.
    pub fn is_empty(&self) -> bool {
        self.rest.trim_start().is_empty()
    }

    /// The next word, which has to be there.
    pub fn word(&mut self) -> &'static str {
        match self.next() {
            Some(word) => word,
            None => {
                self.note(Wrong::Missing);
                ""
            }
        }
    }

    /// The next word as a number.
    pub fn number(&mut self) -> usize {
        let word = self.word();
        self.number_of(word)
    }

    /// So many words as numbers, up to two, and 0 for the others.
    pub fn numbers(&mut self, count: usize) -> (usize, usize) {
        let first = if count > 0 { self.number() } else { 0 };
        let second = if count > 1 { self.number() } else { 0 };
        (first, second)
    }

    /// A word as a number.
    pub fn number_of(&mut self, word: &str) -> usize {
        match number_of(word) {
            Some(number) => number,
            None => {
                self.note(Wrong::NoNumber);
                0
            }
        }
    }

    /// The next word as a capacity.
    pub fn capacity(&mut self) -> NonZeroUsize {
        let number = self.number();
        if number == 0 {
            self.note(Wrong::NoCapacity);
        }
        capacity_of(number)
    }

    /// Passes this word, where it is the next one.
    pub fn passes(&mut self, word: &str) -> bool {
        let mut ahead = *self;
        let is = ahead.next() == Some(word);
        if is {
            *self = ahead;
        }
        is
    }

    /// The number behind this word, which comes next.
    pub fn named(&mut self, word: &str) -> usize {
        if !self.passes(word) {
            self.note(Wrong::NoSuchWord);
        }
        self.number()
    }

    /// Says what is wrong, where nothing is so far.
    pub fn note(&mut self, wrong: Wrong) {
        if self.wrong.is_none() {
            self.wrong = Some(wrong);
        }
    }

    /// Writes what is wrong in place of an answer, where something is, or a word is left.
    pub fn end(&mut self, out: &mut Out) {
        if !self.is_empty() {
            self.note(Wrong::TooMany);
        }
        if let Some(wrong) = self.wrong {
            wrong.say(out);
        }
    }
}

/// A number in digits, `max` for the greatest, or `max-` and how far it is below that.
pub fn number_of(word: &str) -> Option<usize> {
    if let Some(rest) = word.strip_prefix("max") {
        if rest.is_empty() {
            return Some(usize::MAX);
        }
        return match rest.strip_prefix("-")?.parse::<usize>() {
            Ok(below) => Some(usize::MAX - below),
            Err(_) => None,
        };
    }
    word.parse::<usize>().ok()
}

/// A number as a capacity, and 1 for 0.
pub fn capacity_of(number: usize) -> NonZeroUsize {
    NonZeroUsize::new(number).unwrap_or(NonZeroUsize::MIN)
}
