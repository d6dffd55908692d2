//! The calls that keep the items at which a closure returns `true`.
ghost use Rattle.std.specs.Prelude.{◌≡◌, if◌then◌else◌};
ghost use Rattle.std.specs.Map.Calls.{CallableOnEachPair, RetainsPairs};
ghost use Rattle.clru_list.specs.PlaceList.{with_entries, without, IsValid};
ghost use Rattle.clru_list.specs.Retains.{CalledAtItem, TakesItem, CalledAtItemMut, TakesItemMut};

use crate::list::FixedSizeList;
use std::alloc::Allocator;

impl<T, A: Allocator + Copy> FixedSizeList<T, A> {
    /// Calls a closure at each place and its item, from the front to the back, and removes those items at which it returns
    /// `false`.
    pub fn retain<F: FnMut(usize, &T) -> bool>(&mut self, mut f: F)
    where
        T: Drop,
        requires { CallableOnEachPair (CalledAtItem F.FnMut) (TakesItem F.FnMut) f self.old.entries }
        ensures called { RetainsPairs (CalledAtItem F.FnMut) f self.old.entries self.new.entries }
        ensures stays { self.new ≡ with_entries self.old self.new.entries }
        ensures valid { IsValid self.new }
    {
        self.retain_mut(
            |place: usize, item: &mut T| -> bool
                requires { TakesItem F.FnMut f place item.old }
                ensures { CalledAtItem F.FnMut f.entry place item.old result item.new f.exit }
            { f(place, item) },
        );
    }

    /// Calls a closure at each place and its item, from the front to the back, and removes those items at which it returns
    /// `false`. The others have what it left there.
    pub fn retain_mut<F: FnMut(usize, &mut T) -> bool>(&mut self, mut f: F)
    where
        T: Drop,
        requires { CallableOnEachPair (CalledAtItemMut F.FnMut) (TakesItemMut F.FnMut) f self.old.entries }
        ensures called { RetainsPairs (CalledAtItemMut F.FnMut) f self.old.entries self.new.entries }
        ensures stays { self.new ≡ with_entries self.old self.new.entries }
        ensures valid { IsValid self.new }
    {
        let mut next = self.front_idx();
        while let Some(place) = next {
            next = self.next_idx(place);
            let kept = match self.get_mut(place) {
                Some(item) => f(place, item),
                None => unreachable!(),
            };
            self.keep_if(place, kept);
        }
    }

    fn keep_if(&mut self, place: usize, keep: bool)
    where
        T: Drop,
        ensures entries { self.new
            ≡ with_entries self.old (if keep then self.old.entries else without place self.old.entries) }
        ensures valid { IsValid self.new }
    {
        // The list's invariant is known where a field is used.
        let _ = &self.links;
        if !keep {
            self.remove(place);
        }
    }
}
