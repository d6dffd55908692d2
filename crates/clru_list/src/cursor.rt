//! The cursor over the places and the items of a list, which lends one item at a time for writing.
ghost use Rattle.std.specs.Prelude.{◌≡◌, ◌<◌, length, Some, IfSome};
ghost use Rattle.std.specs.Option.{option_map, option_copied_mut};
ghost use Rattle.std.specs.Borrow.{sem};
ghost use Rattle.clru_list.specs.PlaceList.{first_entry, last_entry};
ghost use Rattle.clru_list.specs.Cursors.{CanStep, Passes, PassesBack, cursor_rest, stepped, stepped_back, lends_next, lends_next_back, lends_next_if, lends_next_back_if};

use crate::list::FixedSizeList;
use std::alloc::{Allocator, Global};

mod ends;

/// A cursor over a list. It passes the entries one by one from either end, and lends their items. What is written to an item
/// is then in the list.
#[derive(Drop)]
pub struct FixedSizeListIterMut<'a, T, A: Allocator + Copy = Global> {
    pub(crate) list: &'a mut FixedSizeList<T, A>,
    pub(crate) front: Option<usize>,
    pub(crate) back: Option<usize>,
    // The number of entries before `front`, which only the proof reads.
    pub(crate) done: usize,
    pub(crate) left: usize,
}

impl<'a, T, A: Allocator + Copy> FixedSizeListIterMut<'a, T, A> {
    /// Returns the number of remaining items.
    pub fn len(&self) -> usize
        requires { CanStep self.now }
        ensures { result ≡ length (cursor_rest self.now) }
    {
        self.left
    }

    /// Passes the first remaining entry and returns its item for writing, or `None` if none remains.
    pub fn next(&mut self) -> Option<&mut T>
        requires { CanStep self.old }
        ensures* lends { sem 𝓛 (lends_next_if T.row A.row A.Allocator self.entry result) }
        ensures value { option_copied_mut result ≡ option_map (λ e. e.1) (first_entry (cursor_rest self.old)) }
        ensures passes { IfSome result (λ x. (w : T) → Passes self.old x.now w (stepped self.old w)) }
    {
        if self.len() == 0 {
            return None;
        }
        let (_, item) = self.next_entry();
        Some(item)
    }

    /// Passes the last remaining entry and returns its item for writing, or `None` if none remains.
    pub fn next_back(&mut self) -> Option<&mut T>
        requires { CanStep self.old }
        ensures* lends { sem 𝓛 (lends_next_back_if T.row A.row A.Allocator self.entry result) }
        ensures value { option_copied_mut result ≡ option_map (λ e. e.1) (last_entry (cursor_rest self.old)) }
        ensures passes { IfSome result (λ x. (w : T) → PassesBack self.old x.now w (stepped_back self.old w)) }
    {
        if self.len() == 0 {
            return None;
        }
        let (_, item) = self.next_entry_back();
        Some(item)
    }

    /// Passes the first remaining entry and returns its place, with its item for writing.
    pub fn next_entry(&mut self) -> (usize, &mut T)
        requires can { CanStep self.old }
        requires left { 0 < length (cursor_rest self.old) }
        ensures* lends { sem 𝓛 (lends_next T.row A.row A.Allocator self.entry result.1) }
        ensures entry { first_entry (cursor_rest self.old) ≡ Some (result.0, result.1.now) }
        ensures passes { (w : T) → Passes self.old result.1.now w (stepped self.old w) }
    {
        let place = self.pass_front();
        match self.list.get_mut(place) {
            Some(item) => (place, item),
            None => unreachable!(),
        }
    }

    /// Passes the last remaining entry and returns its place, with its item for writing.
    pub fn next_entry_back(&mut self) -> (usize, &mut T)
        requires can { CanStep self.old }
        requires left { 0 < length (cursor_rest self.old) }
        ensures* lends { sem 𝓛 (lends_next_back T.row A.row A.Allocator self.entry result.1) }
        ensures entry { last_entry (cursor_rest self.old) ≡ Some (result.0, result.1.now) }
        ensures passes { (w : T) → PassesBack self.old result.1.now w (stepped_back self.old w) }
    {
        let place = self.pass_back();
        match self.list.get_mut(place) {
            Some(item) => (place, item),
            None => unreachable!(),
        }
    }
}
