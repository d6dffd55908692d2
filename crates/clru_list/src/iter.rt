//! The iterator over the places and the items of a list, from both ends.
ghost use Rattle.std.specs.Prelude.{◌≡◌, length, Some, IfSome, ⊤};
ghost use Rattle.std.specs.Iterator.{UpTo, YieldsFirstBy, YieldsLastBy, at_most, item_count};
ghost use Rattle.std.specs.Iterator.SizeHint.{IsWithinCount};

use crate::list::FixedSizeList;
use std::alloc::{AllocError, Allocator, Global};
use std::iter::FusedIterator;
use std::marker::Model;

/// The places and the items of a list, seen as the list of the entries that are left.
#[derive(Drop)]
pub struct FixedSizeListIter<'a, T, A: Allocator + Copy = Global> {
    pub(crate) list: &'a FixedSizeList<T, A>,
    pub(crate) front: Option<usize>,
    pub(crate) back: Option<usize>,
    // The number of entries before `front`, which only the proof reads.
    pub(crate) done: usize,
    pub(crate) left: usize,
}

impl<'a, T, A: Allocator + Copy> Model for FixedSizeListIter<'a, T, A> {
    ghost use Rattle.std.specs.Prelude.{ℕ, List};
    ghost use Rattle.std.specs.Map.{keys_of};
    ghost use Rattle.clru_list.specs.Walks.{stretch, IsWindow};

    ghost Value = { List (ℕ × T) };

    ghost view = { λ it. stretch it.done it.left it.list.now.entries };

    ghost invariant = { λ it. IsWindow (keys_of it.list.now.entries) it.done it.left it.front it.back };
}

impl<'a, T, A: Allocator + Copy> Iterator for FixedSizeListIter<'a, T, A> {
    type Item = (usize, &'a T);

    ghost next_gives = { YieldsFirstBy (λ item. (item.0, item.1.now)) (λ rest. rest) };

    ghost remaining = { item_count (λ rest. rest) };

    fn next(&mut self) -> Option<(usize, &'a T)> {
        if self.left == 0 {
            return None;
        }
        let list = self.list;
        let Some(place) = self.front else {
            unreachable!()
        };
        let Some(item) = list.get(place) else {
            unreachable!()
        };
        self.front = list.next_idx(place);
        self.done += 1;
        self.left -= 1;
        Some((place, item))
    }

    fn size_hint(&self) -> (usize, Option<usize>)
        ensures lower { IsWithinCount result.0 (at_most (length self.now)) }
        ensures upper { IfSome result.1 (UpTo (at_most (length self.now))) }
        ensures value { result ≡ (length self.now, Some (length self.now)) }
    {
        (self.left, Some(self.left))
    }
}

impl<'a, T, A: Allocator + Copy> DoubleEndedIterator for FixedSizeListIter<'a, T, A> {
    ghost next_back_gives = { YieldsLastBy (λ item. (item.0, item.1.now)) (λ rest. rest) };

    fn next_back(&mut self) -> Option<(usize, &'a T)> {
        if self.left == 0 {
            return None;
        }
        let list = self.list;
        let Some(place) = self.back else {
            unreachable!()
        };
        let Some(item) = list.get(place) else {
            unreachable!()
        };
        self.back = list.prev_idx(place);
        self.left -= 1;
        Some((place, item))
    }
}

impl<'a, T, A: Allocator + Copy> ExactSizeIterator for FixedSizeListIter<'a, T, A> {
    fn len(&self) -> usize {
        self.left
    }
}

impl<'a, T, A: Allocator + Copy> FusedIterator for FixedSizeListIter<'a, T, A> {}

impl<'a, T, A: Allocator + Copy> Clone for FixedSizeListIter<'a, T, A> {
    ghost is_clone = { λ it copy. copy ≡ it };

    ghost is_infallible = { λ _. ⊤ };

    fn clone(&self) -> Result<Self, AllocError> {
        Ok(FixedSizeListIter {
            list: self.list,
            front: self.front,
            back: self.back,
            done: self.done,
            left: self.left,
        })
    }
}
