//! What is free: all above the last block.
ghost use Rattle.std.specs.Prelude.{◌≡◌, ◌+◌, ◌-◌, ◌^◌, ◌<◌, ◌≤◌, ◌%◌, MatchResult};
ghost use Rattle.ration.specs.Blocks.{IsRegionOf, taken_by};

use crate::loan::{Loan, UNIT};
use crate::piece::Piece;

/// The free piece, and how large it is.
#[derive(Drop)]
pub(crate) struct Free {
    pub(crate) piece: Piece,
    pub(crate) left: usize,
    ghost sized: { piece.size ≡ left },
}

/// What a request of so many bytes takes.
pub(crate) fn units(size: usize) -> usize
    requires { size < 2 ^ 63 }
    ensures { result ≡ taken_by size }
{
    size.max(UNIT).next_multiple_of(UNIT)
}

impl Free {
    /// All of the memory is free.
    pub(crate) fn lent(loan: Loan) -> Free
        ensures left { result.left ≡ loan.size }
        ensures region { IsRegionOf result.piece.region loan.ptr loan.size }
    {
        let (piece, left) = Piece::lent(loan);
        Free { piece, left }
    }

    /// A piece that is free, with its size.
    pub(crate) fn of(piece: Piece, left: usize) -> Free
        requires { piece.size ≡ left }
        ensures { (result.piece ≡ piece) × (result.left ≡ left) }
    {
        Free { piece, left }
    }

    /// A block of so many bytes from the bottom, if they are there, and what is free above it.
    pub(crate) fn take(self, size: usize) -> Result<(Piece, Free), Free>
        requires { size % 16 ≡ 0 }
        ensures { MatchResult result
            (λ r. (r.0.region ≡ self.piece.region) × (r.0.at ≡ self.piece.at) × (r.0.size ≡ size)
            × (r.1.piece.region ≡ self.piece.region) × (r.1.left + size ≡ self.left))
            (λ free. (free ≡ self) × (self.left < size)) }
    {
        if self.left < size {
            return Err(self);
        }
        let Free { piece, left } = self;
        let (block, rest) = piece.cut(size);
        let free = Free {
            piece: rest,
            left: left - size,
        };
        Ok((block, free))
    }

    /// The block is free again if it is the last; any other is lost.
    pub(crate) fn give(self, block: Piece) -> Free
        requires { (block.region ≡ self.piece.region) × (block.size % 16 ≡ 0) }
        ensures region { result.piece.region ≡ self.piece.region }
        ensures no_less { self.left ≤ result.left }
    {
        let Free { piece, left: _ } = self;
        let (piece, left) = block.joined(piece);
        Free { piece, left }
    }
}
