//! `FixedSizeList`: its makers, and the calls that read it. A clause sees a list as its `entries`, its `capacity` and its
//! `places`.
ghost use Rattle.std.specs.Prelude.{◌≡◌, ◌<◌, ◌≤◌, ◌↔◌, ◌^◌, [], length, min, Some, IfOk, OnOk, IsOk, IsSome, IsTrue, max, option_copied, vec_capacity, vec_len};
ghost use Rattle.std.specs.Option.{option_map};
ghost use Rattle.clru_list.specs.Links.{place_of};
ghost use Rattle.clru_list.specs.Places.{narrow};
ghost use Rattle.clru_list.specs.PlaceList.{place_list, item_at, first_entry, last_entry, first_place, last_place, place_after, place_before, IsValid};

use crate::error::NoMemory;
use crate::fingers::Fingers;
use crate::halves::{NARROW, Upper, uppers};
use crate::links::{Links, NOWHERE, Node};
use std::alloc::{Allocator, Global};
use std::marker::Model;

mod index;
mod order;
mod remove;
mod retain;
mod walk;

/// A list of at most `capacity` items, each of which keeps its place number until it is removed.
pub struct FixedSizeList<T, A: Allocator + Copy = Global> {
    pub(crate) links: Links<T, A>,
    pub(crate) len: usize,
    pub(crate) capacity: usize,
    // No more than is allotted to the links, and not that number itself: a growth that was refused changes nothing.
    pub(crate) places: usize,
    // Links take 4 bytes each only if the places are no more. A test sets it low, to reach the wide form.
    pub(crate) limit: usize,
    pub(crate) fingers: Fingers,
}

// By hand, as are those of all that hold a list: each place where one goes is then one call for who proves it.
impl<T: Drop, A: Allocator + Copy> Drop for FixedSizeList<T, A> {
    fn drop(self) {
        let FixedSizeList {
            links,
            len: _,
            capacity: _,
            places: _,
            limit: _,
            fingers: _,
        } = self;
        drop(links);
    }
}

impl<T, A: Allocator + Copy> Model for FixedSizeList<T, A> {
    ghost use Rattle.std.specs.Prelude.{ℕ, List};
    ghost use Rattle.std.specs.Map.{keys_of};
    ghost use Rattle.clru_list.specs.PlaceList.{PlaceList, place_list, place_list_code};
    ghost use Rattle.clru_list.specs.Fingers.{IsPointed};
    ghost use Rattle.clru_list.specs.Links.{links_of, allotted_of, walk, IsSound};
    ghost use Rattle.clru_list.specs.Places.{nowhere};

    ghost Value = { PlaceList T };

    ghost coded = { place_list_code T.code };

    ghost view = { λ l. place_list (walk (links_of l.links) ((links_of l.links).next nowhere) l.len) l.capacity l.places };

    ghost invariant = { λ l. ((es : List (ℕ × T))
        × IsSound (links_of l.links) l.len l.capacity l.places (allotted_of l.links) es)
        × IsPointed (keys_of (walk (links_of l.links) ((links_of l.links).next nowhere) l.len)) l.fingers };
}

impl<T, A: Allocator + Copy> FixedSizeList<T, A> {
    /// Creates an empty list that holds at most `capacity` items. Takes no memory.
    pub fn new(alloc: A, capacity: usize) -> Self
        ensures { result ≡ place_list [] capacity 0 }
    {
        FixedSizeList::with_narrow_places(alloc, capacity, NARROW)
    }

    /// Creates an empty list whose links take 8 bytes for each place if there are more than `limit` places, and 4 else. The
    /// limit of `new` is 2^32 - 1, which no test reaches. A greater limit changes nothing.
    pub fn with_narrow_places(alloc: A, capacity: usize, limit: usize) -> Self
        ensures { result ≡ place_list [] capacity 0 }
    {
        FixedSizeList::empty(Vec::new(alloc), Vec::new(alloc), capacity, 0, limit)
    }

    /// Creates an empty list with memory for `reserve` items, or for `capacity` items if that is less.
    pub fn with_memory(alloc: A, capacity: usize, reserve: usize) -> Result<Self, NoMemory>
        ensures empty { IfOk result (λ l. l ≡ place_list [] capacity (min reserve capacity)) }
        ensures never_refused { min reserve capacity ≡ 0 → IsOk result }
        ensures countable { OnOk result (min reserve capacity < 2 ^ 63) }
    {
        let places = reserve.min(capacity);
        let upper = uppers(alloc, places)?;
        // Last, since nodes may be let go only if items may.
        let Ok(nodes) = Vec::with_capacity(alloc, places) else {
            return Err(NoMemory);
        };
        Ok(FixedSizeList::empty(nodes, upper, capacity, places, NARROW))
    }

    fn empty(
        nodes: Vec<Node<T>, A>,
        upper: Vec<Upper, A>,
        capacity: usize,
        places: usize,
        limit: usize,
    ) -> Self
        requires none { nodes.items ≡ [] }
        requires reserved { vec_capacity nodes ≡ places }
        requires named { places ≤ max narrow (vec_len upper) }
        ensures { result ≡ place_list [] capacity places }
    {
        FixedSizeList {
            links: Links::new(nodes, upper),
            len: 0,
            capacity,
            places,
            limit,
            fingers: Fingers::none(),
        }
    }

    /// Returns the number of items.
    pub fn len(&self) -> usize
        ensures len { result ≡ length self.now.entries }
        ensures valid { IsValid self.now }
    {
        self.len
    }

    /// Returns the number of items that the list may hold.
    pub fn capacity(&self) -> usize
        ensures capacity { result ≡ self.now.capacity }
        ensures valid { IsValid self.now }
    {
        self.capacity
    }

    /// Returns the number of items for which memory was found.
    pub fn places(&self) -> usize
        ensures places { result ≡ self.now.places }
        ensures valid { IsValid self.now }
    {
        self.places
    }

    /// Returns the allocator.
    pub fn allocator(&self) -> &A {
        self.links.nodes.allocator()
    }

    /// Returns whether there is no item.
    pub fn is_empty(&self) -> bool
        ensures empty { IsTrue result ↔ (self.now.entries ≡ []) }
        ensures valid { IsValid self.now }
    {
        self.len == 0
    }

    /// Returns whether the length is the capacity.
    pub fn is_full(&self) -> bool
        ensures full { IsTrue result ↔ (length self.now.entries ≡ self.now.capacity) }
        ensures valid { IsValid self.now }
    {
        self.len == self.capacity
    }

    /// Returns the item at a place, or `None` if none is there.
    pub fn get(&self, place: usize) -> Option<&T>
        ensures value { option_copied result ≡ item_at place self.now.entries }
        ensures valid { IsValid self.now }
    {
        self.links.item(place)
    }

    /// Returns the item at a place. The caller shows that one is there.
    pub fn item(&self, place: usize) -> &T
        requires { IsSome (item_at place self.now.entries) }
        ensures value { item_at place self.now.entries ≡ Some result.now }
        ensures valid { IsValid self.now }
    {
        self.links.nodes[place].item()
    }

    /// Returns the first item.
    pub fn front(&self) -> Option<&T>
        ensures value { option_copied result ≡ option_map (λ e. e.1) (first_entry self.now.entries) }
        ensures valid { IsValid self.now }
    {
        self.links.item(self.links.front())
    }

    /// Returns the last item.
    pub fn back(&self) -> Option<&T>
        ensures value { option_copied result ≡ option_map (λ e. e.1) (last_entry self.now.entries) }
        ensures valid { IsValid self.now }
    {
        self.links.item(self.links.back())
    }

    /// Returns the place of the first item.
    pub fn front_idx(&self) -> Option<usize>
        ensures place { result ≡ first_place self.now.entries }
        ensures valid { IsValid self.now }
    {
        some_place(self.links.front())
    }

    /// Returns the place of the last item.
    pub fn back_idx(&self) -> Option<usize>
        ensures place { result ≡ last_place self.now.entries }
        ensures valid { IsValid self.now }
    {
        some_place(self.links.back())
    }

    /// Returns the place after that of an item, or `None` if the item is the last or there is no item.
    pub fn next_idx(&self, place: usize) -> Option<usize>
        ensures place { result ≡ place_after place self.now.entries }
        ensures valid { IsValid self.now }
    {
        self.get(place)?;
        some_place(self.links.next(place))
    }

    /// Returns the place before that of an item, or `None` if the item is the first or there is no item.
    pub fn prev_idx(&self, place: usize) -> Option<usize>
        ensures place { result ≡ place_before place self.now.entries }
        ensures valid { IsValid self.now }
    {
        self.get(place)?;
        some_place(self.links.prev(place))
    }
}

fn some_place(place: usize) -> Option<usize>
    ensures { result ≡ place_of place }
{
    if place == NOWHERE { None } else { Some(place) }
}
