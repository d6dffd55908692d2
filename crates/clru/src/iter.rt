//! The iterator over the pairs of a cache, from both ends.
ghost use Rattle.std.specs.Prelude.{◌≡◌, length, Some, IfSome, ⊤};
ghost use Rattle.std.specs.Iterator.{UpTo, YieldsFirstBy, YieldsLastBy, at_most, item_count};
ghost use Rattle.std.specs.Iterator.SizeHint.{IsWithinCount};
ghost use Rattle.std.specs.Map.Iter.{deref_pair};

use clru_list::FixedSizeListIter;
use std::alloc::{AllocError, Allocator, Global};
use std::iter::FusedIterator;
use std::marker::Model;

pub(crate) mod owned;

/// The pairs of a cache, the most recently used first. A clause sees the list of the remaining ones.
#[derive(Drop)]
pub struct CLruCacheIter<'a, K, V, A: Allocator + Copy = Global> {
    pub(crate) items: FixedSizeListIter<'a, (K, V), A>,
}

impl<'a, K, V, A: Allocator + Copy> Model for CLruCacheIter<'a, K, V, A> {
    ghost use Rattle.std.specs.Prelude.{List};
    ghost use Rattle.clru_linked_map.specs.LinkedMap.{pairs_of};

    ghost Value = { List (K × V) };

    ghost view = { λ it. pairs_of it.items };
}

impl<'a, K, V, A: Allocator + Copy> Iterator for CLruCacheIter<'a, K, V, A> {
    type Item = (&'a K, &'a V);

    ghost next_gives = { YieldsFirstBy deref_pair (λ rest. rest) };

    ghost remaining = { item_count (λ rest. rest) };

    fn next(&mut self) -> Option<(&'a K, &'a V)> {
        let (_, pair) = self.items.next()?;
        Some((&pair.0, &pair.1))
    }

    fn size_hint(&self) -> (usize, Option<usize>)
        ensures lower { IsWithinCount result.0 (at_most (length self.now)) }
        ensures upper { IfSome result.1 (UpTo (at_most (length self.now))) }
        ensures value { result ≡ (length self.now, Some (length self.now)) }
    {
        self.items.size_hint()
    }
}

impl<'a, K, V, A: Allocator + Copy> DoubleEndedIterator for CLruCacheIter<'a, K, V, A> {
    ghost next_back_gives = { YieldsLastBy deref_pair (λ rest. rest) };

    fn next_back(&mut self) -> Option<(&'a K, &'a V)> {
        let (_, pair) = self.items.next_back()?;
        Some((&pair.0, &pair.1))
    }
}

impl<'a, K, V, A: Allocator + Copy> ExactSizeIterator for CLruCacheIter<'a, K, V, A> {
    fn len(&self) -> usize {
        self.items.len()
    }
}

impl<'a, K, V, A: Allocator + Copy> FusedIterator for CLruCacheIter<'a, K, V, A> {}

impl<'a, K, V, A: Allocator + Copy> Clone for CLruCacheIter<'a, K, V, A> {
    ghost is_clone = { λ it copy. copy ≡ it };

    ghost is_infallible = { λ _. ⊤ };

    fn clone(&self) -> Result<Self, AllocError> {
        Ok(CLruCacheIter {
            items: self.items.clone()?,
        })
    }
}
