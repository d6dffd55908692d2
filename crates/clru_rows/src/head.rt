//! The first line of a block: what its subject is made of.

use crate::words::{Words, Wrong};

/// std's hashes, or the first or the last number as the hash of all keys.
#[derive(Clone, Copy)]
pub enum Hash {
    Std,
    First,
    Last,
}

impl Hash {
    /// The hash of all keys, where it is one.
    pub fn fixed(self) -> Option<u64> {
        match self {
            Hash::Std => None,
            Hash::First => Some(0),
            Hash::Last => Some(u64::MAX),
        }
    }
}

/// What a first line asks for, of which each kind of block takes what it knows.
#[derive(Clone, Copy)]
pub struct Head {
    pub capacity: usize,
    /// The places that there is memory for from the start.
    pub reserve: Option<usize>,
    /// The places up to which links take 4 bytes.
    pub limit: Option<usize>,
    /// The requests of the maker that pass before all are refused.
    pub refuse: Option<usize>,
    /// Whether values weigh something, and
    pub weighs: bool,
    /// whether that is the number that they are, and not their letters.
    pub by_number: bool,
    /// Whether letters of either case are equal.
    pub folded: bool,
    /// Whether a source gives the double of the number that a key is, and not its letters.
    pub doubled: bool,
    /// How many entries it holds at first: the keys 0, 1, .. in this order, each with itself as its value, or with 0 where values
    /// weigh something.
    pub filled: usize,
    /// The hash that it names, or `None` where the block is run under each of them.
    pub hash: Option<Hash>,
}

impl Head {
    /// Nothing is asked for.
    pub fn empty() -> Head {
        Head {
            capacity: 0,
            reserve: None,
            limit: None,
            refuse: None,
            weighs: false,
            by_number: false,
            folded: false,
            doubled: false,
            filled: 0,
            hash: None,
        }
    }

    /// Reads what follows the name, in any order. A word `from_iter` is the last one: behind it stand the items. A block of
    /// requests says nothing but its hash, and a replay whether its keys fold.
    pub fn read(words: &mut Words, name: &str) -> Head {
        let mut head = Head::empty();
        let asks = ["cache", "costs", "list", "store", "store_costs", "runs"].contains(&name);
        for _ in 0..usize::MAX {
            match words.next() {
                Some("from_iter") | None => break,
                Some("hash") => head.hash = hash_of(words),
                Some(word) if asks => head.take(word, words),
                Some("fold") if name == "replay" => head.folded = true,
                Some(_) => {}
            }
        }
        if name == "list" {
            head.hash = Some(Hash::Std);
        }
        head
    }

    fn take(&mut self, word: &str, words: &mut Words) {
        match word {
            "capacity" => self.capacity = words.number(),
            "reserve" => self.reserve = Some(words.number()),
            "limit" => self.limit = Some(words.number()),
            "refuse" => self.refuse = Some(words.number()),
            "fill" => self.filled = words.number(),
            "fold" => self.folded = true,
            "double" => self.doubled = true,
            "weigh" => {
                self.weighs = true;
                self.by_number = words.passes("number");
                if !self.by_number && !words.passes("length") {
                    words.note(Wrong::NoSuchWord);
                }
            }
            _ => words.note(Wrong::NoSuchWord),
        }
    }
}

/// The hash of that name, or `None` for `each`.
fn hash_of(words: &mut Words) -> Option<Hash> {
    match words.word() {
        "std" => return Some(Hash::Std),
        "first" => return Some(Hash::First),
        "last" => return Some(Hash::Last),
        "each" => {}
        _ => words.note(Wrong::NoSuchWord),
    }
    None
}
