//! The places by index, for walks that hold the list for writing.
ghost use Rattle.std.specs.Prelude.{◌≡◌, ◌<◌, length, slice_get};
ghost use Rattle.std.specs.Map.{keys_of};
ghost use Rattle.clru_list.specs.PlaceList.{IsValid};

use crate::fingers::pointing;
use crate::list::FixedSizeList;
use std::alloc::Allocator;

impl<T, A: Allocator + Copy> FixedSizeList<T, A> {
    /// Returns the place of the entry at an index, counted from the front.
    ///
    /// If a walk asks for one index after another, upwards from 0, each takes the same short time, because the list remembers
    /// its place until the order changes. Any other index costs a walk from the front.
    pub fn place_at(&mut self, index: usize) -> Option<usize>
        ensures place { result ≡ slice_get (keys_of self.old.entries) index }
        ensures same { self.new ≡ self.old }
        ensures valid { IsValid self.new }
    {
        let place = self.place_up(index)?;
        let next = self.next_idx(place);
        self.fingers.set_up(pointing(index + 1, next));
        Some(place)
    }

    /// Returns the place of the entry at an index, counted from the front, for a walk downwards from the last index.
    ///
    /// If a walk asks for one index after another, downwards, each takes the same short time, because the list remembers its
    /// place until the order changes. Any other index costs a walk from the back.
    pub fn place_at_back(&mut self, index: usize) -> Option<usize>
        ensures place { result ≡ slice_get (keys_of self.old.entries) index }
        ensures same { self.new ≡ self.old }
        ensures valid { IsValid self.new }
    {
        let place = self.place_down(index)?;
        let before = self.prev_idx(place);
        self.fingers
            .set_down(pointing(index.saturating_sub(1), before));
        Some(place)
    }

    fn place_up(&self, index: usize) -> Option<usize>
        ensures place { result ≡ slice_get (keys_of self.now.entries) index }
        ensures valid { IsValid self.now }
    {
        if let Some(place) = self.fingers.up_at(index) {
            return Some(place);
        }
        self.walk_up(index)
    }

    fn place_down(&self, index: usize) -> Option<usize>
        ensures place { result ≡ slice_get (keys_of self.now.entries) index }
        ensures valid { IsValid self.now }
    {
        if let Some(place) = self.fingers.down_at(index) {
            return Some(place);
        }
        self.walk_down(index)
    }

    fn walk_up(&self, index: usize) -> Option<usize>
        ensures { result ≡ slice_get (keys_of self.now.entries) index }
    {
        let mut place = self.front_idx()?;
        let mut at = 0;
        while at < index {
            place = self.next_idx(place)?;
            at += 1;
        }
        Some(place)
    }

    fn walk_down(&self, index: usize) -> Option<usize>
        ensures { result ≡ slice_get (keys_of self.now.entries) index }
    {
        if index >= self.len() {
            return None;
        }
        let mut place = self.back_idx()?;
        let mut at = self.len() - 1;
        while index < at {
            place = self.prev_idx(place)?;
            at -= 1;
        }
        Some(place)
    }
}
