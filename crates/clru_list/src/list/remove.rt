//! The calls that take items out. They leave the places.
ghost use Rattle.std.specs.Prelude.{◌≡◌, [], drop};
ghost use Rattle.std.specs.Option.{option_map};
ghost use Rattle.clru_list.specs.PlaceList.{with_entries, item_at, without, first_entry, IsValid};

use crate::links::NOWHERE;
use crate::list::FixedSizeList;
use std::alloc::Allocator;

impl<T, A: Allocator + Copy> FixedSizeList<T, A> {
    /// Removes the item at a place and returns it. If none is there, nothing changes.
    #[inline(always)]
    pub fn remove(&mut self, place: usize) -> Option<T>
        ensures value { result ≡ item_at place self.old.entries }
        ensures entries { self.new ≡ with_entries self.old (without place self.old.entries) }
        ensures valid { IsValid self.new }
    {
        let item = self.links.take(place)?;
        self.links.unlink(place);
        self.links.release(place);
        self.len -= 1;
        self.fingers.clear();
        Some(item)
    }

    /// Removes the first item and returns it.
    pub fn pop_front(&mut self) -> Option<T>
        ensures value { result ≡ option_map (λ e. e.1) (first_entry self.old.entries) }
        ensures entries { self.new ≡ with_entries self.old (drop 1 self.old.entries) }
        ensures valid { IsValid self.new }
    {
        let front = self.links.front();
        self.remove(front)
    }

    /// Removes each item. The places stay ready.
    pub fn clear(&mut self)
    where
        T: Drop,
        ensures entries { self.new ≡ with_entries self.old [] }
        ensures valid { IsValid self.new }
    {
        self.links.nodes.clear();
        self.links.front = 0;
        self.links.back = 0;
        self.links.free = NOWHERE;
        self.len = 0;
        self.fingers.clear();
    }
}
