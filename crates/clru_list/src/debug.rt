//! What `{:?}` prints of a list and of its walks: counts, and nothing of the items.

use crate::cursor::FixedSizeListIterMut;
use crate::iter::FixedSizeListIter;
use crate::list::FixedSizeList;
use std::alloc::Allocator;
use std::fmt;

impl<T, A: Allocator + Copy> fmt::Debug for FixedSizeList<T, A> {
    fn fmt<W: fmt::Write>(&self, f: &mut fmt::Formatter<W>) -> fmt::Result {
        f.debug_struct("FixedSizeList")
            .field("len", &self.len())
            .field("capacity", &self.capacity())
            .finish()
    }
}

impl<'a, T, A: Allocator + Copy> fmt::Debug for FixedSizeListIter<'a, T, A> {
    fn fmt<W: fmt::Write>(&self, f: &mut fmt::Formatter<W>) -> fmt::Result {
        f.debug_struct("FixedSizeListIter")
            .field("len", &self.left)
            .finish()
    }
}

impl<'a, T, A: Allocator + Copy> fmt::Debug for FixedSizeListIterMut<'a, T, A> {
    fn fmt<W: fmt::Write>(&self, f: &mut fmt::Formatter<W>) -> fmt::Result {
        f.debug_struct("FixedSizeListIterMut")
            .field("len", &self.left)
            .finish()
    }
}
