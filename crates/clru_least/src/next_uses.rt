//! The positions at which the keys that are held are requested next.
ghost use Rattle.std.specs.Prelude.{◌≡◌, ℕ, ◌+◌, ◌-◌, ◌^◌, ◌<◌, ◌≤◌, IfOk};
ghost use Rattle.clru_least.specs.Queue.{IsQueue, one_at, queued};

use crate::positions::Positions;
use std::alloc::{AllocError, Allocator};

/// For each key that is held the position of its next request, or the end if it is not requested again. Several may be at the end, and
/// are only counted.
#[derive(Drop)]
pub(crate) struct NextUses<A: Allocator> {
    pub(crate) positions: Positions<A>,
    pub(crate) never_again: usize,
    pub(crate) end: usize,
}

impl<A: Allocator> NextUses<A> {
    /// Holds no key. There are so many requests.
    pub(crate) fn with_room(alloc: A, end: usize) -> Result<Self, AllocError>
        ensures sound { IfOk result IsQueue }
        ensures end { IfOk result (λ q. q.end ≡ end) }
        ensures none { IfOk result (λ q. q.never_again ≡ 0) }
        ensures empty { IfOk result (λ q. (p : ℕ) → queued q p ≡ 0) }
    {
        Ok(NextUses {
            positions: Positions::with_room(alloc, end)?,
            never_again: 0,
            end,
        })
    }

    /// Takes the greatest position out, and returns it.
    pub(crate) fn drop_latest(&mut self) -> usize
        requires sound { IsQueue self.old }
        requires some { (p : ℕ) × (0 < queued self.old p) }
        ensures sound { IsQueue self.new }
        ensures taken { (p : ℕ) → queued self.old p ≡ one_at result p + queued self.new p }
        ensures latest { (p : ℕ) → p ≤ self.old.end → 0 < queued self.old p → p ≤ result }
        ensures end { self.new.end ≡ self.old.end }
        ensures fewer { self.new.never_again ≤ self.old.never_again }
    {
        if self.never_again > 0 {
            self.never_again -= 1;
            return self.end;
        }
        let Some(latest) = self.positions.last() else {
            unreachable!();
        };
        self.positions.flip(latest);
        latest
    }

    /// Puts a position in, which is not to be there unless it is the end.
    pub(crate) fn keep(&mut self, position: usize)
        requires sound { IsQueue self.old }
        requires within { position ≤ self.old.end }
        requires few { self.old.never_again < 2 ^ 64 - 1 }
        ensures sound { IsQueue self.new }
        ensures queued { (position < self.old.end → queued self.old position ≡ 0)
            → (p : ℕ) → queued self.new p ≡ one_at position p + queued self.old p }
        ensures end { self.new.end ≡ self.old.end }
        ensures few { self.new.never_again ≤ self.old.never_again + 1 }
    {
        if position >= self.end {
            self.never_again += 1;
        } else {
            self.positions.flip(position);
        }
    }
}
