//! The calls that lend an item for writing, move one or put one in, and those that find memory for more.
ghost use Rattle.std.specs.Prelude.{◌≡◌, ◌*◌, ◌<◌, ◌≤◌, ◌∷◌, ◌++◌, IsSome, Some, [], min, max, length, IfOk, OnOk, IfErr, OnErr};
ghost use Rattle.std.specs.Option.{option_map, option_copied_mut};
ghost use Rattle.std.specs.Borrow.{sem};
ghost use Rattle.clru_list.specs.PlaceList.{with_entries, item_at, to_back, to_front, first_entry, last_entry, IsValid, place_list, NeedsPlace};
ghost use Rattle.clru_list.specs.Lends.{lends_item, lends_held, lends_moved, lends_first, lends_last};
ghost use Rattle.clru_list.specs.Pushes.{GrowsIfNeeded, Refuses};

use crate::error::{NoMemory, PushError};
use crate::links::NOWHERE;
use crate::list::FixedSizeList;
use std::alloc::Allocator;

impl<T, A: Allocator + Copy> FixedSizeList<T, A> {
    /// Returns the item at a place for writing, or `None` if none is there.
    pub fn get_mut(&mut self, place: usize) -> Option<&mut T>
        ensures* lends { sem 𝓛 (lends_item T.row A.row A.Allocator self.entry place result) }
        ensures value { option_copied_mut result ≡ item_at place self.old.entries }
        ensures valid { IsValid self.old }
    {
        if self.get(place).is_some() {
            Some(self.item_mut(place))
        } else {
            None
        }
    }

    /// Returns the first item for writing.
    pub fn front_mut(&mut self) -> Option<&mut T>
        ensures* lends { sem 𝓛 (lends_first T.row A.row A.Allocator self.entry result) }
        ensures value { option_copied_mut result ≡ option_map (λ e. e.1) (first_entry self.old.entries) }
        ensures valid { IsValid self.old }
    {
        let front = self.front_idx()?;
        Some(self.item_mut(front))
    }

    /// Returns the last item for writing.
    pub fn back_mut(&mut self) -> Option<&mut T>
        ensures* lends { sem 𝓛 (lends_last T.row A.row A.Allocator self.entry result) }
        ensures value { option_copied_mut result ≡ option_map (λ e. e.1) (last_entry self.old.entries) }
        ensures valid { IsValid self.old }
    {
        let back = self.back_idx()?;
        Some(self.item_mut(back))
    }

    /// Moves the item at a place to the front, and returns it for writing. It keeps its place. If no item is there, nothing
    /// changes.
    #[inline(always)]
    pub fn move_front(&mut self, place: usize) -> Option<&mut T>
        ensures* lends { sem 𝓛 (lends_moved T.row A.row A.Allocator self.entry place result) }
        ensures value { option_copied_mut result ≡ item_at place self.old.entries }
        ensures valid { IsValid self.old }
    {
        if self.get(place).is_none() {
            return None;
        }
        self.bring_front(place);
        Some(self.item_mut(place))
    }

    /// Moves the item at a place to the front. It keeps its place; if it is already the first, nothing is written.
    #[inline(always)]
    pub fn bring_front(&mut self, place: usize)
        requires { IsSome (item_at place self.old.entries) }
        ensures moved { self.new ≡ with_entries self.old (to_front place self.old.entries) }
        ensures valid { IsValid self.new }
    {
        if self.links.front() == place {
            return;
        }
        self.links.bring_front(place);
        self.fingers.clear();
    }

    /// Moves the item at a place to the back. It keeps its place; if it is already the last, nothing is written.
    pub fn move_back(&mut self, place: usize)
        requires { IsSome (item_at place self.old.entries) }
        ensures moved { self.new ≡ with_entries self.old (to_back place self.old.entries) }
        ensures valid { IsValid self.new }
    {
        if self.links.back() == place {
            return;
        }
        self.links.bring_back(place);
        self.fingers.clear();
    }

    fn item_mut(&mut self, place: usize) -> &mut T
        requires { IsSome (item_at place self.old.entries) }
        ensures* lends { sem 𝓛 (lends_held T.row A.row A.Allocator self.entry place result) }
        ensures value { item_at place self.old.entries ≡ Some result.now }
    {
        self.links.nodes[place].item_mut()
    }

    /// Finds memory for one more item, if the length is below the capacity and each place is taken. The places grow to
    /// four times as many, up to the capacity.
    #[inline(always)]
    pub fn make_ready(&mut self) -> Result<(), NoMemory>
        ensures entries { self.new.entries ≡ self.old.entries }
        ensures ready { OnOk result (length self.old.entries < self.old.capacity
            → length self.old.entries < self.new.places) }
        ensures refused { OnErr result (NeedsPlace self.old × (self.new ≡ self.old)) }
        ensures places { GrowsIfNeeded self.old self.new }
        ensures reach { self.new.places ≤ max 4 (4 * self.old.places) }
        ensures valid { IsValid self.new }
    {
        if self.len == self.capacity {
            return Ok(());
        }
        if self.len < self.places {
            return Ok(());
        }
        let places = self.grown_places();
        let Ok(()) = self.links.reserve(places, self.limit) else {
            return Err(NoMemory);
        };
        self.places = places;
        Ok(())
    }

    /// Returns how many places there are after the next growth: four times as many, at least four, and at most the capacity.
    /// If the places reach the capacity, nothing grows, and it returns the capacity.
    pub fn grown_places(&self) -> usize
        ensures grown { result ≡ min self.now.capacity (max 4 (4 * self.now.places)) }
        ensures valid { IsValid self.now }
    {
        self.places.saturating_mul(4).max(4).min(self.capacity)
    }

    /// Sets the capacity. The items, their order and their places stay, and so does the number of places, even if it is
    /// above the new capacity. Takes no memory.
    pub fn resize(&mut self, capacity: usize)
        requires { length self.old.entries ≤ capacity }
        ensures resized { self.new ≡ place_list self.old.entries capacity self.old.places }
        ensures valid { IsValid self.new }
    {
        self.capacity = capacity;
    }

    /// Puts an item to the front, and returns its place: one that was free, or a new one.
    ///
    /// If the list is full, or memory is refused, it returns the item.
    #[inline(always)]
    pub fn push_front(&mut self, item: T) -> Result<usize, PushError<T>>
        ensures entries { IfOk result (λ place. self.new.entries ≡ (place, item) ∷ self.old.entries) }
        ensures refused { IfErr result (Refuses self.old item) }
        ensures stays { OnErr result (self.new ≡ self.old) }
        ensures places { GrowsIfNeeded self.old self.new }
        ensures valid { IsValid self.new }
    {
        let item = self.admit(item)?;
        let place = self.links.occupy(item);
        let front = self.links.front();
        self.links.link(NOWHERE, place, front);
        self.len += 1;
        self.fingers.clear();
        Ok(place)
    }

    /// Puts an item to the back, and returns its place: one that was free, or a new one.
    ///
    /// If the list is full, or memory is refused, it returns the item.
    pub fn push_back(&mut self, item: T) -> Result<usize, PushError<T>>
        ensures entries { IfOk result (λ place. self.new.entries ≡ self.old.entries ++ (place, item) ∷ []) }
        ensures refused { IfErr result (Refuses self.old item) }
        ensures stays { OnErr result (self.new ≡ self.old) }
        ensures places { GrowsIfNeeded self.old self.new }
        ensures valid { IsValid self.new }
    {
        let item = self.admit(item)?;
        let place = self.links.occupy(item);
        let back = self.links.back();
        self.links.link(back, place, NOWHERE);
        self.len += 1;
        self.fingers.clear();
        Ok(place)
    }

    /// Finds room for an item, and gives it back.
    #[inline(always)]
    fn admit(&mut self, item: T) -> Result<T, PushError<T>>
        ensures item { IfOk result (λ x. x ≡ item) }
        ensures room { OnOk result (length self.new.entries < self.new.places) }
        ensures below { OnOk result (length self.new.entries < self.new.capacity) }
        ensures entries { self.new.entries ≡ self.old.entries }
        ensures refused { IfErr result (λ e. Refuses self.old item e × (self.new ≡ self.old)) }
        ensures places { GrowsIfNeeded self.old self.new }
        ensures valid { IsValid self.new }
    {
        if self.is_full() {
            return Err(PushError::Full(item));
        }
        match self.make_ready() {
            Ok(()) => Ok(item),
            Err(NoMemory) => Err(PushError::NoMemory(item)),
        }
    }
}
