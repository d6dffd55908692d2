//! `Announced`: the strings that a map expects next, with their hashes, and the places where they are likely to stand.
ghost use Rattle.std.specs.Prelude.{◌≡◌, ℕ, List, IfSome};
ghost use Rattle.clru_linked_map.specs.Announced.{AreHashed};

use clru_list::{NOWHERE, NoMemory};
use std::alloc::Allocator;

/// Where a string stands in the buffer, and its hash.
#[derive(Clone, Copy)]
pub(crate) struct Hashed {
    pub(crate) start: usize,
    pub(crate) end: usize,
    pub(crate) hash: u64,
}

/// The announced strings, in their order. No clause speaks of the places, so the map compares the string at a place before it uses it.
#[derive(Drop)]
pub(crate) struct Announced<A: Allocator + Copy> {
    pub(crate) bytes: Vec<u8, A>,
    pub(crate) strings: Vec<Hashed, A>,
    pub(crate) places: Vec<usize, A>,
    // The number of the string that is expected next.
    next: usize,
}

impl<A: Allocator + Copy> Announced<A> {
    /// No strings. They take no memory.
    pub(crate) fn new(alloc: A) -> Self
        ensures { (hash : List ℕ → ℕ) → AreHashed hash result }
    {
        Announced {
            bytes: Vec::new(alloc),
            strings: Vec::new(alloc),
            places: Vec::new(alloc),
            next: 0,
        }
    }

    /// Takes one more, whose hash is given. If no earlier one is expected any more, all of these are dropped first. If memory is refused, it
    /// is not among the strings.
    pub(crate) fn push(&mut self, hash: u64, bytes: &[u8]) -> Result<(), NoMemory>
        ensures { (of : List ℕ → ℕ) → hash ≡ of bytes.now → AreHashed of self.old → AreHashed of self.new }
    {
        self.drop_passed();
        let Ok(()) = self.strings.reserve(1) else {
            return Err(NoMemory);
        };
        let start = self.bytes.len();
        let Ok(()) = self.bytes.extend_from_slice(bytes) else {
            return Err(NoMemory);
        };
        let end = self.bytes.len();
        self.strings.push_reserved(Hashed { start, end, hash });
        Ok(())
    }

    /// Drops all strings, if none is expected any more.
    fn drop_passed(&mut self)
        ensures { (of : List ℕ → ℕ) → AreHashed of self.old → AreHashed of self.new }
    {
        if self.next >= self.strings.len() {
            self.bytes.clear();
            self.strings.clear();
            self.places.clear();
            self.next = 0;
        }
    }

    /// Returns the number of the string that is expected now, and expects the one behind it.
    pub(crate) fn pass(&mut self) -> usize
        ensures { (of : List ℕ → ℕ) → AreHashed of self.old → AreHashed of self.new }
    {
        let at = self.next;
        self.next = at.saturating_add(1);
        at
    }

    /// The place where the string of this number is likely to stand, or `NOWHERE`.
    pub(crate) fn place(&self, at: usize) -> usize {
        match self.places.get(at) {
            Some(place) => *place,
            None => NOWHERE,
        }
    }

    /// The hash of these bytes, if they are the string of this number.
    pub(crate) fn hash_of(&self, at: usize, bytes: &[u8]) -> Option<u64>
        requires { (of : List ℕ → ℕ) × AreHashed of self.now }
        ensures { (of : List ℕ → ℕ) → AreHashed of self.now → IfSome result (λ hash. hash ≡ of bytes.now) }
    {
        if at >= self.strings.len() {
            return None;
        }
        let string = self.strings[at];
        if bytes == &self.bytes[string.start..string.end] {
            Some(string.hash)
        } else {
            None
        }
    }
}
