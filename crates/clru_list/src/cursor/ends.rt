//! How the ends of a cursor move.
ghost use Rattle.std.specs.Prelude.{◌≡◌, ◌<◌, Some};
ghost use Rattle.clru_list.specs.Cursors.{CanStep, past_front, past_back};

use crate::cursor::FixedSizeListIterMut;
use std::alloc::Allocator;

impl<'a, T, A: Allocator + Copy> FixedSizeListIterMut<'a, T, A> {
    pub(crate) fn pass_front(&mut self) -> usize
        requires can { CanStep self.old }
        requires left { 0 < self.old.left }
        ensures place { self.old.front ≡ Some result }
        ensures passed { self.new ≡ past_front self.old }
    {
        let Some(place) = self.front else {
            unreachable!()
        };
        self.front = self.list.next_idx(place);
        self.done += 1;
        self.left -= 1;
        place
    }

    pub(crate) fn pass_back(&mut self) -> usize
        requires can { CanStep self.old }
        requires left { 0 < self.old.left }
        ensures place { self.old.back ≡ Some result }
        ensures passed { self.new ≡ past_back self.old }
    {
        let Some(place) = self.back else {
            unreachable!()
        };
        self.back = self.list.prev_idx(place);
        self.left -= 1;
        place
    }
}
