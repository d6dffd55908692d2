//! Pieces of the memory: what raw pointers do stands in this file, in `slot` and in the two functions of `Allocator`.
ghost use Rattle.std.specs.Prelude.{◌≡◌, ℕ, ◌+◌, ◌-◌, ◌%◌, ◌≤◌, MatchResult};
ghost use denote.RawPtr.{count_of};
ghost use Rattle.ration.specs.Blocks.{Region, IsPiece, IsRegionOf, bytes_at};

use crate::loan::Loan;
use std::marker::Model;

/// `size` bytes of the memory that was lent, which lie at `at` of the object that it is a part of.
#[derive(Drop)]
pub(crate) struct Piece {
    pub(crate) ptr: *mut u8,
    pub(crate) size: usize,
    ghost region: { Region },
    ghost at: { ℕ },
    ghost placed: { IsPiece region ptr at size },
}

impl Model for Piece {
    ghost also_owns = { λ piece. bytes_at piece.ptr piece.size };
}

impl Piece {
    /// All of the memory, and its size.
    pub(crate) fn lent(loan: Loan) -> (Piece, usize)
        ensures { (result.0.size ≡ loan.size) × (result.1 ≡ loan.size) × IsRegionOf result.0.region loan.ptr loan.size }
    {
        let Loan { ptr, size } = loan;
        (Piece { ptr, size }, size)
    }

    /// The memory of the piece.
    pub(crate) fn into_loan(self) -> Loan
        ensures { (result.ptr ≡ self.ptr) × (result.size ≡ self.size) }
    {
        let Piece { ptr, size } = self;
        Loan { ptr, size }
    }

    /// The first bytes, and the rest.
    pub(crate) fn cut(self, size: usize) -> (Piece, Piece)
        requires { (size ≤ self.size) × (size % 16 ≡ 0) }
        ensures front { (result.0.region ≡ self.region) × (result.0.at ≡ self.at) × (result.0.size ≡ size) }
        ensures rest { (result.1.region ≡ self.region) × (result.1.at ≡ self.at + size) × (result.1.size ≡ self.size - size) }
    {
        let Piece { ptr, size: whole } = self;
        unsafe {
            let next = ptr.add(size);
            let left = whole - size;
            (
                Piece { ptr, size },
                Piece {
                    ptr: next,
                    size: left,
                },
            )
        }
    }

    /// Itself, and whether it begins where so many bytes from the pointer on end.
    pub(crate) fn meets(self, ptr: *mut u8, size: usize) -> Result<Piece, Piece>
        requires { IsPiece self.region ptr (count_of ptr) size }
        ensures { MatchResult result (λ piece. (piece ≡ self) × (count_of ptr + size ≡ self.at)) (λ piece. piece ≡ self) }
    {
        let Piece {
            ptr: start,
            size: left,
        } = self;
        unsafe {
            let end = ptr.add(size);
            if end == start {
                return Ok(Piece {
                    ptr: start,
                    size: left,
                });
            }
            Err(Piece {
                ptr: start,
                size: left,
            })
        }
    }

    /// The next piece, with this one before it where the two touch, and its size. Where they do not touch this one is lost.
    pub(crate) fn joined(self, next: Piece) -> (Piece, usize)
        requires { (next.region ≡ self.region) × (self.size % 16 ≡ 0) }
        ensures region { result.0.region ≡ next.region }
        ensures end { result.0.at + result.0.size ≡ next.at + next.size }
        ensures kept { result.0.at ≤ next.at }
        ensures size { result.1 ≡ result.0.size }
    {
        let Piece { ptr, size } = self;
        let Piece {
            ptr: next,
            size: left,
        } = next;
        unsafe {
            let end = ptr.add(size);
            if end == next {
                let whole = size + left;
                return (Piece { ptr, size: whole }, whole);
            }
            (
                Piece {
                    ptr: next,
                    size: left,
                },
                left,
            )
        }
    }
}
