//! Allocators of limited memory. `Rationed` counts the requests that reach it and their bytes, and refuses those that it is told to
//! refuse, or that pass a limit of bytes; `LentBlock` has one block of memory, which somebody lends it.
//!
//! An owner lends a `Rationed`, as in `Vec::new(&heap)`. A growth, a `reserve_exact` and a shrink of a `Vec` make one request each: the
//! trait's own `grow` and `shrink` ask for the new block by `allocate`, and give the old one back by `deallocate`.
//! `Rationed` is proved to return blocks of the inner allocator, of the size that was asked for. The counters are
//! only tested (`clru_tests`), since no contract can say what a cell holds.
//!
//! Beside them stands what crates of tests assert with: `equal!`, `shows`, `capacity_of`.
#![tactic(auto)]

mod assertions;
mod free;
mod lent_block;
mod loan;
mod piece;
mod slot;

pub use assertions::{capacity_of, shows};
pub use lent_block::LentBlock;
pub use loan::Loan;
use std::alloc::{AllocError, Allocator};
use std::cell::Cell;
use std::fmt;

/// Requests and blocks so far, and the refusals to come.
#[derive(Drop)]
struct Book {
    requests: Cell<u64>,
    requested_bytes: Cell<u64>,
    granted: Cell<u64>,
    returned: Cell<u64>,
    held_bytes: Cell<u64>,
    /// The bytes that may be held at once.
    limit_bytes: Cell<u64>,
    /// So many requests pass first,
    passing: Cell<u64>,
    /// and so many after them are refused.
    refusing: Cell<u64>,
}

/// An allocator over another, `inner`, that can be told to refuse requests.
#[derive(Drop)]
pub struct Rationed<B: Allocator> {
    inner: B,
    book: Book,
}

impl<B: Allocator> Rationed<B> {
    /// Creates an allocator that refuses no request until it is told to.
    pub fn new(inner: B) -> Rationed<B> {
        let book = Book {
            requests: Cell::new(0),
            requested_bytes: Cell::new(0),
            granted: Cell::new(0),
            returned: Cell::new(0),
            held_bytes: Cell::new(0),
            limit_bytes: Cell::new(u64::MAX),
            passing: Cell::new(0),
            refusing: Cell::new(0),
        };
        Rationed { inner, book }
    }

    /// Lets `n` more requests pass, and refuses all later ones.
    pub fn refuse_after(&self, n: u64) {
        self.book.passing.set(n);
        self.book.refusing.set(u64::MAX);
    }

    /// Lets `n` more requests pass, refuses the next one, and lets the rest pass.
    pub fn refuse_one_after(&self, n: u64) {
        self.book.passing.set(n);
        self.book.refusing.set(1);
    }

    /// Refuses each request that would bring the bytes of the blocks above so many, like a heap of a fixed size, whatever else
    /// it is told.
    pub fn limit_bytes(&self, bytes: u64) {
        self.book.limit_bytes.set(bytes);
    }

    /// Refuses no request from now on, except by the limit of bytes.
    pub fn refuse_none(&self) {
        self.book.refusing.set(0);
    }

    /// Returns the number of requests so far, with refused ones.
    pub fn requests(&self) -> u64 {
        self.book.requests.get()
    }

    /// Returns the bytes of the requests so far, with refused ones.
    pub fn requested_bytes(&self) -> u64 {
        self.book.requested_bytes.get()
    }

    /// Returns the number of requests so far that got no memory, refused here or by the inner allocator.
    pub fn refused(&self) -> u64 {
        self.book
            .requests
            .get()
            .wrapping_sub(self.book.granted.get())
    }

    /// Returns the number of blocks handed out and not yet given back: 0 if nothing leaks.
    pub fn blocks(&self) -> u64 {
        self.book
            .granted
            .get()
            .wrapping_sub(self.book.returned.get())
    }

    /// Returns the bytes of those blocks.
    pub fn held_bytes(&self) -> u64 {
        self.book.held_bytes.get()
    }
}

impl<B: Allocator> fmt::Debug for Rationed<B> {
    fn fmt<W: fmt::Write>(&self, f: &mut fmt::Formatter<W>) -> fmt::Result {
        f.debug_struct("Rationed")
            .field("requests", &self.requests())
            .field("refused", &self.refused())
            .field("blocks", &self.blocks())
            .field("held_bytes", &self.held_bytes())
            .finish()
    }
}

/// Counts a request of so many bytes, and returns whether it is to be refused.
fn refuses(book: &Book, size: usize) -> bool {
    add(&book.requests, 1);
    add(&book.requested_bytes, size as u64);
    let limit = book.limit_bytes.get();
    if size as u64 > limit.saturating_sub(book.held_bytes.get()) {
        return true;
    }
    let passing = book.passing.get();
    let refusing = book.refusing.get();
    if passing > 0 {
        book.passing.set(passing - 1);
        return false;
    }
    if refusing == 0 {
        return false;
    }
    book.refusing.set(refusing - 1);
    true
}

fn hands_out(book: &Book, size: usize) {
    add(&book.granted, 1);
    add(&book.held_bytes, size as u64);
}

fn takes_back(book: &Book, size: usize) {
    add(&book.returned, 1);
    let held = book.held_bytes.get();
    book.held_bytes.set(held.wrapping_sub(size as u64));
}

fn add(count: &Cell<u64>, more: u64) {
    count.set(count.get().wrapping_add(more));
}

unsafe impl<B: Allocator> Allocator for Rationed<B> {
    ghost dealloc_token = { λ heap ty ptr. B.dealloc_token heap.inner ty ptr };

    fn allocate(&self, size: usize, align: usize) -> Result<*mut u8, AllocError> {
        if refuses(&self.book, size) {
            return Err(AllocError);
        }
        match self.inner.allocate(size, align) {
            Ok(block) => {
                hands_out(&self.book, size);
                Ok(block)
            }
            Err(error) => Err(error),
        }
    }

    unsafe fn deallocate(&self, ptr: *mut u8, size: usize, align: usize) {
        takes_back(&self.book, size);
        self.inner.deallocate(ptr, size, align);
    }
}
