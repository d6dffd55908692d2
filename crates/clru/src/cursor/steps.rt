//! What a cursor has left, and how it passes entries.
ghost use Rattle.std.specs.Prelude.{◌≡◌, ◌-◌, ◌<◌, length, Some, IfSome, slice_get};
ghost use Rattle.std.specs.Borrow.{sem};
ghost use Rattle.std.specs.Map.Iter.{deref_pair_mut};
ghost use Rattle.std.specs.Option.{option_map, option_copied_mut};
ghost use Rattle.clru.specs.WalkLends.{lends_next, lends_next_back, lends_next_if, lends_next_back_if};
ghost use Rattle.clru.specs.Walks.{Passes, PassesBack, cursor_rest, stepped, stepped_back};

use crate::cursor::CLruCacheIterMut;
use std::alloc::Allocator;
use std::hash::{BuildHasher, Hash};

impl<'a, K: Eq + Hash, V, S: BuildHasher, A: Allocator + Copy> CLruCacheIterMut<'a, K, V, S, A> {
    /// Returns the number of remaining entries.
    /// Cost: a read.
    pub fn len(&self) -> usize
        ensures { result ≡ length (cursor_rest self.now) }
    {
        self.end.min(self.cache.len()).saturating_sub(self.done)
    }

    /// Passes the first remaining entry and returns its value for writing, or `None` if none remains.
    /// Cost: no hash and no comparison.
    pub fn next(&mut self) -> Option<&mut V>
        ensures* lends { sem 𝓛 (lends_next_if K.row V.row S.row A.row S.Hasher.row K.Hash S.BuildHasher S.Hasher.Hasher
            A.Allocator self.entry result) }
        ensures value { option_copied_mut result ≡ option_map (λ e. e.1) (slice_get (cursor_rest self.old) 0) }
        ensures passes { IfSome result (λ x. (w : V) → Passes self.old x.now w (stepped self.old w)) }
    {
        if self.len() == 0 {
            return None;
        }
        let (_, value) = self.next_entry();
        Some(value)
    }

    /// Passes the last remaining entry and returns its value for writing, or `None` if none remains.
    /// Cost: no hash and no comparison.
    pub fn next_back(&mut self) -> Option<&mut V>
        ensures* lends { sem 𝓛 (lends_next_back_if K.row V.row S.row A.row S.Hasher.row K.Hash S.BuildHasher
            S.Hasher.Hasher A.Allocator self.entry result) }
        ensures value { option_copied_mut result
            ≡ option_map (λ e. e.1) (slice_get (cursor_rest self.old) (length (cursor_rest self.old) - 1)) }
        ensures passes { IfSome result (λ x. (w : V) → PassesBack self.old x.now w (stepped_back self.old w)) }
    {
        if self.len() == 0 {
            return None;
        }
        let (_, value) = self.next_entry_back();
        Some(value)
    }

    /// Passes the first remaining entry and returns its key, with its value for writing.
    /// Cost: no hash and no comparison.
    pub fn next_entry(&mut self) -> (&K, &mut V)
        requires { 0 < length (cursor_rest self.old) }
        ensures* lends { sem 𝓛 (lends_next K.row V.row S.row A.row S.Hasher.row K.Hash S.BuildHasher S.Hasher.Hasher
            A.Allocator self.entry result.1) }
        ensures entry { slice_get (cursor_rest self.old) 0 ≡ Some (deref_pair_mut result) }
        ensures passes { (w : V) → Passes self.old result.1.now w (stepped self.old w) }
    {
        let index = self.done;
        self.done += 1;
        let cache = &mut *self.cache;
        cache.entry_at(index)
    }

    /// Passes the last remaining entry and returns its key, with its value for writing.
    /// Cost: no hash and no comparison.
    pub fn next_entry_back(&mut self) -> (&K, &mut V)
        requires { 0 < length (cursor_rest self.old) }
        ensures* lends { sem 𝓛 (lends_next_back K.row V.row S.row A.row S.Hasher.row K.Hash S.BuildHasher
            S.Hasher.Hasher A.Allocator self.entry result.1) }
        ensures entry { slice_get (cursor_rest self.old) (length (cursor_rest self.old) - 1)
            ≡ Some (deref_pair_mut result) }
        ensures passes { (w : V) → PassesBack self.old result.1.now w (stepped_back self.old w) }
    {
        let index = self.end.min(self.cache.len()) - 1;
        self.end = index;
        let cache = &mut *self.cache;
        cache.entry_at_back(index)
    }
}
