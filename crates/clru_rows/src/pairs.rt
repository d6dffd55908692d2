//! Keys, values and hashes whose use is counted. Each key and each value owns a block of memory.
ghost use Rattle.std.specs.Prelude.{◌≡◌, nat_eq, unwrap_or};
ghost use Rattle.std.specs.Hash as fed;
ghost use Rattle.std.specs.Hash.FoldHasher as folding;
ghost use Rattle.std.specs.Ordering.{on};
ghost use Rattle.std.specs.Cmp.Rules.{comparing, hashing};
ghost use Rattle.std.proofs.Common.{rules};

use crate::out::Out;
use crate::words::{Words, Wrong, number_of};
use crate::world::{World, add};
use ration::Rationed;
use std::alloc::Global;
use std::cell::Cell;
use std::hash::{BuildHasher, FoldHasher, Hash, Hasher};
use std::marker::Model;

/// A text of counted memory.
type Owned = String<&'static Rationed<Global>>;

/// A word that owns memory. Where it finds none, it is empty, and that is known at the end.
fn owned(world: &'static World, word: &str) -> Owned {
    match String::from_str(&world.owned, word) {
        Ok(text) => text,
        Err(_) => {
            world.is_short.set(true);
            String::new(&world.owned)
        }
    }
}

/// A word as a key. Its number is made of its letters, and two keys are equal where their numbers are.
pub struct Key {
    pub text: Owned,
    pub number: u64,
    world: &'static World,
}

impl Key {
    /// The key of a word of at most eight letters. Where a block folds, upper and lower case are equal.
    pub fn new(world: &'static World, word: &str) -> Key {
        let mut number = 0u64;
        for byte in word.bytes() {
            let letter = if world.head.folded {
                byte.to_ascii_lowercase()
            } else {
                byte
            };
            number = number.wrapping_mul(256).wrapping_add(u64::from(letter));
        }
        Key {
            text: owned(world, word),
            number,
            world,
        }
    }

    /// The next word as a key.
    pub fn next(world: &'static World, words: &mut Words) -> Key {
        let word = words.word();
        if word.len() > 8 {
            words.note(Wrong::LongKey);
        }
        Key::new(world, word)
    }
}

impl Drop for Key {
    fn drop(self) {
        self.world.note("gone", &self.text);
        let Key {
            text,
            number: _,
            world: _,
        } = self;
        drop(text);
    }
}

impl PartialEq for Key {
    ghost eq = { on (λ key. key.number) nat_eq };

    ghost laws = { Prim.search (comparing, rules) };

    fn eq(&self, other: &Key) -> bool {
        add(&self.world.compared);
        self.number == other.number
    }
}

impl Eq for Key {
    ghost laws = { Prim.search (comparing, rules) };
}

impl Hash for Key {
    ghost hash_input = { λ key. fed.u64 key.number };

    ghost respects_eq = { Prim.search (hashing, rules) };

    fn hash<H: Hasher>(&self, state: &mut H) {
        self.number.hash(state);
    }
}

/// The word of an empty value.
const EMPTY: &str = "''";

/// A word as a value. Contracts see its weight alone.
pub struct Value {
    pub text: Owned,
    weight: usize,
    world: &'static World,
}

impl Value {
    /// The value of a word. What should be a number and is none weighs 0.
    pub fn new(world: &'static World, word: &str) -> Value {
        let mut text = owned(world, word);
        if word == EMPTY {
            // It owns a block as the others do.
            text.clear();
        }
        let weight = if !world.head.weighs {
            0
        } else if world.head.by_number {
            number_of(word).unwrap_or(0)
        } else {
            text.len()
        };
        Value {
            text,
            weight,
            world,
        }
    }

    /// The next word as a value.
    pub fn next(world: &'static World, words: &mut Words) -> Value {
        let word = words.word();
        if world.head.by_number {
            let _weight = words.number_of(word);
        }
        Value::new(world, word)
    }

    /// The word so many times, as a value that weighs its letters.
    pub fn repeated(world: &'static World, word: &str, times: usize) -> Value {
        let mut text = owned(world, word);
        for _ in 1..times {
            if text.push_str(word).is_err() {
                world.is_short.set(true);
            }
        }
        let weight = if world.head.weighs { text.len() } else { 0 };
        Value {
            text,
            weight,
            world,
        }
    }

    pub fn say(&self, out: &mut Out) {
        if self.text.is_empty() {
            out.say(EMPTY);
        } else {
            out.say(&self.text);
        }
    }

    /// Another number in its place. Where there is no memory for it, it stays cut short.
    pub fn set(&mut self, number: usize) {
        self.text.clear();
        let _ = write!(&mut self.text, "{number}");
    }

    /// The word of another value in its place, as far as there is memory for it.
    pub fn copy(&mut self, other: &Value) {
        self.text.clear();
        let _ = self.text.push_str(&other.text);
    }

    /// What it weighs.
    pub fn weight(&self) -> usize
        ensures weight { result ≡ self.now }
    {
        self.weight
    }

    /// The number that it is, or 0 where it is none.
    pub fn number(&self) -> usize {
        number_of(&self.text).unwrap_or(0)
    }
}

impl Drop for Value {
    fn drop(self) {
        self.world.note("gone", &self.text);
        let Value {
            text,
            weight: _,
            world: _,
        } = self;
        drop(text);
    }
}

impl Model for Value {
    ghost use Rattle.std.specs.Prelude.{ℕ};

    ghost Value = { ℕ };

    ghost view = { λ value. value.weight };
}

/// A hash builder that counts the hashes: std's, or one that gives all keys one hash.
#[derive(Clone, Copy)]
pub struct Hashing {
    pub hashed: &'static Cell<u64>,
    pub fixed: Option<u64>,
}

/// std's hasher, and the hash that is answered in its place where there is one.
#[derive(Clone, Copy)]
pub struct Folding {
    folder: FoldHasher,
    fixed: Option<u64>,
}

impl Hasher for Folding {
    ghost write = { λ h bytes. record h { folder = folding.write h.folder bytes } };

    ghost finish = { λ h. unwrap_or h.fixed (folding.finish h.folder) };

    fn finish(&self) -> u64 {
        self.fixed.unwrap_or(self.folder.finish())
    }

    fn write(&mut self, bytes: &[u8]) {
        self.folder.write(bytes);
    }
}

impl BuildHasher for Hashing {
    type Hasher = Folding;

    ghost build_hasher = { λ s. record { folder = folding.initial; fixed = s.fixed } };

    fn build_hasher(&self) -> Folding {
        add(self.hashed);
        Folding {
            folder: FoldHasher::default(),
            fixed: self.fixed,
        }
    }
}
