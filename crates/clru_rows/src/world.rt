//! What a script's caches stand on: memory that is counted and can be refused, and what was done so far. A world stays as long
//! as the program, as each text of the script does: code that borrows a cache whose type has a lifetime is dear to prove.

use crate::closures::Failed;
use crate::head::Head;
use crate::pairs::Hashing;
use ration::Rationed;
use std::alloc::{AllocError, Global};
use std::cell::Cell;

/// Counts, memory and notes of one run of a block of lines.
#[derive(Drop)]
pub struct World {
    pub alloc: Global,
    /// What the first line asks for.
    pub head: Head,
    /// The hash of all keys, where it is one.
    pub fixed: Option<u64>,
    pub compared: Cell<u64>,
    pub hashed: Cell<u64>,
    pub weighed: Cell<u64>,
    pub fetched: Cell<u64>,
    /// The fetches from the first of these numbers to below the second one fail, counted from the start of the block.
    pub fails_from: Cell<u64>,
    pub fails_below: Cell<u64>,
    /// The error with which they do.
    pub failed: Cell<Failed>,
    /// The memory of caches, and
    pub heap: Rationed<Global>,
    /// that of keys and values.
    pub owned: Rationed<Global>,
    /// Whether a key or a value found none.
    pub is_short: Cell<bool>,
    /// What the last call did, in order.
    notes: Cell<String>,
}

/// What was counted: comparisons, hashes, weighings, fetches, requests for memory and their bytes.
#[derive(Clone, Copy)]
pub struct Cost {
    pub compared: u64,
    pub hashed: u64,
    pub weighed: u64,
    pub fetched: u64,
    pub requests: u64,
    pub bytes: u64,
}

impl Cost {
    /// What came since.
    pub fn since(self, before: Cost) -> Cost {
        Cost {
            compared: self.compared.wrapping_sub(before.compared),
            hashed: self.hashed.wrapping_sub(before.hashed),
            weighed: self.weighed.wrapping_sub(before.weighed),
            fetched: self.fetched.wrapping_sub(before.fetched),
            requests: self.requests.wrapping_sub(before.requests),
            bytes: self.bytes.wrapping_sub(before.bytes),
        }
    }
}

/// Counts one more.
pub fn add(count: &Cell<u64>) {
    count.set(count.get().wrapping_add(1));
}

impl World {
    /// A new one, which stays as long as the program.
    pub fn new(
        alloc: Global,
        head: Head,
        fixed: Option<u64>,
    ) -> Result<&'static World, AllocError> {
        let world = World {
            alloc,
            head,
            fixed,
            compared: Cell::new(0),
            hashed: Cell::new(0),
            weighed: Cell::new(0),
            fetched: Cell::new(0),
            fails_from: Cell::new(0),
            fails_below: Cell::new(0),
            failed: Cell::new(Failed { error: None }),
            heap: Rationed::new(alloc),
            owned: Rationed::new(alloc),
            is_short: Cell::new(false),
            notes: Cell::new(String::new(alloc)),
        };
        let Ok(world) = Box::new(alloc, world) else {
            return Err(AllocError);
        };
        let world: &'static World = Box::leak(world);
        Ok(world)
    }

    /// The builder of the block.
    pub fn hashing(&'static self) -> Hashing {
        Hashing {
            hashed: &self.hashed,
            fixed: self.fixed,
        }
    }

    pub fn cost(&self) -> Cost {
        Cost {
            compared: self.compared.get(),
            hashed: self.hashed.get(),
            weighed: self.weighed.get(),
            fetched: self.fetched.get(),
            requests: self.heap.requests(),
            bytes: self.heap.requested_bytes(),
        }
    }

    /// Whether a block of caches, keys or values is there now.
    pub fn is_used(&self) -> bool {
        self.heap.blocks() != 0 || self.owned.blocks() != 0
    }

    /// Notes that something was done with a key or a value. Where there is no memory for it, the note is left out.
    pub fn note(&self, what: &str, of: &str) {
        let mut notes = self.notes.replace(String::new(self.alloc));
        if !notes.is_empty() {
            let _ = notes.push_str(", ");
        }
        let _ = notes.push_str(what);
        if !of.is_empty() {
            let _ = notes.push(' ');
            let _ = notes.push_str(of);
        }
        self.notes.set(notes);
    }

    /// What was noted so far, which is then forgotten.
    pub fn notes(&self) -> String {
        self.notes.replace(String::new(self.alloc))
    }
}
