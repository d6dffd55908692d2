//! The walks over a list.
ghost use Rattle.std.specs.Prelude.{◌≡◌};
ghost use Rattle.clru_list.specs.Cursors.{IsAtStart, cursor_name};

use crate::cursor::FixedSizeListIterMut;
use crate::iter::FixedSizeListIter;
use crate::list::FixedSizeList;
use std::alloc::Allocator;

impl<T, A: Allocator + Copy> FixedSizeList<T, A> {
    /// Returns an iterator over the places and the items, from the front to the back.
    pub fn iter(&self) -> FixedSizeListIter<'_, T, A>
        ensures { result ≡ self.now.entries }
    {
        FixedSizeListIter {
            list: self,
            front: self.front_idx(),
            back: self.back_idx(),
            done: 0,
            left: self.len(),
        }
    }

    /// Returns a cursor over the places and the items, which lends each item for writing.
    pub fn iter_mut(&mut self) -> FixedSizeListIterMut<'_, T, A>
        ensures same_list { cursor_name result ≡ self.entry.ghost_name }
        ensures start { IsAtStart result self.old }
    {
        let front = self.front_idx();
        let back = self.back_idx();
        let left = self.len();
        FixedSizeListIterMut {
            list: self,
            front,
            back,
            done: 0,
            left,
        }
    }
}

impl<'a, T, A: Allocator + Copy> IntoIterator for &'a FixedSizeList<T, A> {
    type Item = (usize, &'a T);

    type IntoIter = FixedSizeListIter<'a, T, A>;

    ghost into_iter_gives = { λ list it. it ≡ list.now.entries };

    fn into_iter(self) -> FixedSizeListIter<'a, T, A> {
        self.iter()
    }
}
