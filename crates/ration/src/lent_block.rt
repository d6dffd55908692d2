//! An allocator over one block of memory that somebody else owns, as a page that lends it to a module of WebAssembly.
//!
//! Blocks are handed out from the bottom up, in units of 16 bytes. The last one may grow where
//! it stands, and is free again when it is given back; any other moves to grow, and is lost.
ghost use Rattle.std.specs.Prelude.{◌≡◌, ◌+◌, ◌^◌, ◌<◌, ◌≤◌, ◌%◌, ℕ, List, IfSome};
ghost use Rattle.std.specs.Allocator.{FitsBlock, block_with_items, resized_if_ok};
ghost use denote.RawPtr.{count_of};
ghost use types.Logic.{sem};
ghost use Rattle.ration.specs.Blocks.{IsPiece, IsRegionOf, block_token, taken_by};

use crate::free::{Free, units};
use crate::loan::{Loan, UNIT};
use crate::piece::Piece;
use crate::slot::Slot;
use std::alloc::{AllocError, Allocator};
use std::fmt;
use std::mem::{align_of, size_of};
use std::ptr::copy_nonoverlapping;

/// An allocator over memory that was lent. Collections hold a `&` to it, as in `Vec::new(&heap)`.
///
/// A request is refused if its bytes, rounded up to a multiple of 16, are not left, or if it needs an alignment above 16. The
/// last block grows in place if its bytes are a multiple of 16. Cost: constant, but for values that move.
pub struct LentBlock {
    slot: Slot,
}

impl LentBlock {
    /// Makes an allocator of memory that is all free.
    pub fn new(loan: Loan) -> LentBlock
        ensures { IsRegionOf result.slot loan.ptr loan.size }
    {
        LentBlock {
            slot: Slot::new(Free::lent(loan)),
        }
    }

    /// Returns the number of bytes above the last block.
    pub fn left(&self) -> usize
        ensures { result ≤ self.now.slot.size }
    {
        let Some(free) = self.slot.replace(None) else {
            return 0;
        };
        let left = free.left;
        self.slot.replace(Some(free));
        left
    }

    /// Returns the memory that is left: all of it if each block was given back while it was the last.
    pub fn into_loan(self) -> Option<Loan>
        ensures { IfSome result (λ loan. (at : ℕ) × IsPiece self.slot loan.ptr at loan.size) }
    {
        let LentBlock { slot } = self;
        let Free { piece, left: _ } = slot.into_inner()?;
        Some(piece.into_loan())
    }

    // The slot is empty only while one of the functions of this file runs, and none calls what could come back here.
    fn take(&self, size: usize, align: usize) -> Option<Piece>
        ensures { IfSome result (λ b. (b.region ≡ self.now.slot) × (b.size ≡ taken_by size) × (size < 2 ^ 63) × (align ≤ 16)) }
    {
        if align > UNIT || size > isize::MAX as usize {
            return None;
        }
        let free = self.slot.replace(None)?;
        match free.take(units(size)) {
            Ok((block, rest)) => {
                self.slot.replace(Some(rest));
                Some(block)
            }
            Err(free) => {
                self.slot.replace(Some(free));
                None
            }
        }
    }

    fn give(&self, block: Piece)
        requires { (block.region ≡ self.now.slot) × (block.size % 16 ≡ 0) }
    {
        if let Some(free) = self.slot.replace(None) {
            self.slot.replace(Some(free.give(block)));
        }
    }

    // So many bytes more for the bytes from the pointer on, if these are the last.
    fn above(&self, ptr: *mut u8, old: usize, new: usize) -> Option<Piece>
        requires placed { IsPiece self.now.slot ptr (count_of ptr) old }
        requires sizes { (old ≤ new) × (new < 2 ^ 63) }
        ensures { IfSome result (λ more. (more.region ≡ self.now.slot) × (more.at ≡ count_of ptr + old) × (more.size + old ≡ taken_by new) × (old % 16 ≡ 0)) }
    {
        if old % UNIT != 0 {
            return None;
        }
        let Free { piece, left } = self.slot.replace(None)?;
        match piece.meets(ptr, old) {
            Ok(piece) => match Free::of(piece, left).take(units(new) - old) {
                Ok((more, rest)) => {
                    self.slot.replace(Some(rest));
                    Some(more)
                }
                Err(free) => {
                    self.slot.replace(Some(free));
                    None
                }
            },
            Err(piece) => {
                self.slot.replace(Some(Free::of(piece, left)));
                None
            }
        }
    }

    // The values move to a new block, and the old one is given back.
    unsafe fn moved<T>(
        &self,
        ptr: *mut T,
        len: usize,
        old_cap: usize,
        new_cap: usize,
    ) -> Result<*mut T, AllocError>
        ghost items: { List T }
        requires sizes { (len ≤ old_cap) × (old_cap ≤ new_cap) × FitsBlock T.row new_cap }
        requires* block { sem 𝓛 (block_with_items (block_token self.now.slot) T.row ptr len old_cap items) }
        ensures* { sem 𝓛 (resized_if_ok (block_token self.now.slot) T.row ptr len old_cap new_cap items result) }
    {
        match self.allocate(new_cap * size_of::<T>(), align_of::<T>()) {
            Ok(block) => {
                let new = block as *mut T;
                unsafe {
                    copy_nonoverlapping(ptr.cast_const(), new, len);
                    self.deallocate(ptr as *mut u8, old_cap * size_of::<T>(), align_of::<T>());
                }
                Ok(new)
            }
            Err(error) => Err(error),
        }
    }
}

unsafe impl Allocator for LentBlock {
    ghost dealloc_token = { λ heap. block_token heap.slot };

    fn allocate(&self, size: usize, align: usize) -> Result<*mut u8, AllocError> {
        match self.take(size, align) {
            Some(Piece { ptr, size: _ }) => Ok(ptr),
            None => Err(AllocError),
        }
    }

    unsafe fn deallocate(&self, ptr: *mut u8, size: usize, _align: usize) {
        let size = units(size);
        self.give(Piece { ptr, size });
    }

    // The last block grows where it stands, if it has no bytes between its values and what is free.
    unsafe fn grow<T>(
        &self,
        ptr: *mut T,
        len: usize,
        old_cap: usize,
        new_cap: usize,
    ) -> Result<*mut T, AllocError> {
        let old = old_cap * size_of::<T>();
        let new = new_cap * size_of::<T>();
        match self.above(ptr as *mut u8, old, new) {
            Some(Piece { ptr: _, size: _ }) => Ok(ptr),
            None => self.moved(ptr, len, old_cap, new_cap),
        }
    }

    // The values stay where they are, and the bytes after them stay with the block.
    unsafe fn shrink<T>(
        &self,
        kept: *mut T,
        _len: usize,
        _old_cap: usize,
        _new_cap: usize,
    ) -> Result<*mut T, AllocError> {
        Ok(kept)
    }
}

impl fmt::Debug for LentBlock {
    fn fmt<W: fmt::Write>(&self, f: &mut fmt::Formatter<W>) -> fmt::Result {
        f.debug_struct("LentBlock")
            .field("left", &self.left())
            .finish()
    }
}

impl Drop for LentBlock {
    fn drop(self) {
        let LentBlock { slot } = self;
        drop(slot.into_inner());
    }
}
