//! The nodes and their links. Each call is one change of the links, in the words of `Links`: at `NOWHERE` the next place is
//! the front, and the one before is the back.
ghost use Rattle.std.specs.Prelude.{◌≡◌, ◌<◌, ◌≤◌, Some, None, vec_len, option_copied, IsSome, OnOk};
ghost use Rattle.std.specs.Borrow.{Lends, sem};
ghost use Rattle.clru_list.specs.Places.{nowhere};
ghost use Rattle.clru_list.specs.Links.{links_of, allotted_of, set_next, set_prev, set_item, unlinked, linked, brought_back, brought_front, released, spot, occupied, appended, filled, IsEnd};

use crate::error::NoMemory;
use crate::halves::{
    NARROW, Upper, clear_upper, halves, number_of, place_by, place_numbered, widen,
};
use crate::narrow;
use std::alloc::Allocator;

/// The place that no node has: what stands before the front and behind the back.
pub const NOWHERE: usize = usize::MAX;

/// A place. A free one has no item, and its `next` is the next free one. A link is kept as the number of the place that it
/// leads to, one more than it, and 0 for none; here are the lower 4 bytes of that.
#[derive(Drop)]
pub struct Node<T> {
    pub(crate) prev: u32,
    pub(crate) next: u32,
    item: Option<T>,
}

/// The places. `front` and `back` are numbers of places, `free` is a place.
#[derive(Drop)]
pub struct Links<T, A: Allocator> {
    pub(crate) nodes: Vec<Node<T>, A>,
    // None are there if lower halves serve; else those of each place that the list may use.
    pub(crate) upper: Vec<Upper, A>,
    pub(crate) front: usize,
    pub(crate) back: usize,
    pub(crate) free: usize,
}

impl<T> Node<T> {
    ghost use Rattle.clru_list.specs.contracts.links.Node.{the_row};

    pub(crate) fn item(&self) -> &T
        requires { IsSome self.now.item }
        ensures { self.now.item ≡ Some result.now }
    {
        match &self.item {
            Some(item) => item,
            None => unreachable!(),
        }
    }

    pub(crate) fn item_mut(&mut self) -> &mut T
        requires { IsSome self.old.item }
        ensures* lends { sem 𝓛 (Lends (the_row T.row) T.row self.entry result
            (λ w. record self.entry.now { item = Some w })) }
        ensures value { self.old.item ≡ Some result.now }
    {
        match &mut self.item {
            Some(item) => item,
            None => unreachable!(),
        }
    }
}

impl<T, A: Allocator> Links<T, A> {
    pub(crate) fn new(nodes: Vec<Node<T>, A>, upper: Vec<Upper, A>) -> Self
        ensures nodes { result.nodes ≡ nodes }
        ensures upper { result.upper ≡ upper }
        ensures ends { (result.front ≡ 0) × (result.back ≡ 0) × (result.free ≡ nowhere) }
    {
        Links {
            nodes,
            upper,
            front: 0,
            back: 0,
            free: NOWHERE,
        }
    }

    pub(crate) fn front(&self) -> usize
        ensures { result ≡ (links_of self.now).next nowhere }
    {
        place_numbered(self.front)
    }

    pub(crate) fn back(&self) -> usize
        ensures { result ≡ (links_of self.now).prev nowhere }
    {
        place_numbered(self.back)
    }

    pub(crate) fn next(&self, place: usize) -> usize
        requires { place < vec_len self.now.nodes }
        ensures { result ≡ (links_of self.now).next place }
    {
        if place < self.upper.len() {
            place_by(self.nodes[place].next, self.upper[place].next)
        } else {
            place_by(self.nodes[place].next, 0)
        }
    }

    pub(crate) fn prev(&self, place: usize) -> usize
        requires { place < vec_len self.now.nodes }
        ensures { result ≡ (links_of self.now).prev place }
    {
        if place < self.upper.len() {
            place_by(self.nodes[place].prev, self.upper[place].prev)
        } else {
            place_by(self.nodes[place].prev, 0)
        }
    }

    pub(crate) fn item(&self, place: usize) -> Option<&T>
        ensures { option_copied result ≡ (links_of self.now).item place }
    {
        self.nodes.get(place)?.item.as_ref()
    }

    fn set_next(&mut self, at: usize, to: usize)
        requires at { IsEnd (links_of self.old) at }
        requires to { IsEnd (links_of self.old) to }
        requires allotted { vec_len self.old.nodes ≤ allotted_of self.old }
        ensures links { links_of self.new ≡ set_next (links_of self.old) at to }
        ensures same_allotted { allotted_of self.new ≡ allotted_of self.old }
    {
        if at == NOWHERE {
            self.front = number_of(to);
        } else {
            self.write_next(at, to);
        }
    }

    /// Links a place to the next one.
    fn write_next(&mut self, at: usize, to: usize)
        requires at { at < vec_len self.old.nodes }
        requires to { IsEnd (links_of self.old) to }
        requires allotted { vec_len self.old.nodes ≤ allotted_of self.old }
        ensures links { links_of self.new ≡ set_next (links_of self.old) at to }
        ensures same_allotted { allotted_of self.new ≡ allotted_of self.old }
    {
        let (lower, upper) = halves(to);
        self.nodes[at].next = lower;
        if at < self.upper.len() {
            self.upper[at].next = upper;
        }
    }

    fn set_prev(&mut self, at: usize, to: usize)
        requires at { IsEnd (links_of self.old) at }
        requires to { IsEnd (links_of self.old) to }
        requires allotted { vec_len self.old.nodes ≤ allotted_of self.old }
        ensures links { links_of self.new ≡ set_prev (links_of self.old) at to }
        ensures same_allotted { allotted_of self.new ≡ allotted_of self.old }
    {
        if at == NOWHERE {
            self.back = number_of(to);
        } else {
            self.write_prev(at, to);
        }
    }

    /// Links a place to the one before.
    fn write_prev(&mut self, at: usize, to: usize)
        requires at { at < vec_len self.old.nodes }
        requires to { IsEnd (links_of self.old) to }
        requires allotted { vec_len self.old.nodes ≤ allotted_of self.old }
        ensures links { links_of self.new ≡ set_prev (links_of self.old) at to }
        ensures same_allotted { allotted_of self.new ≡ allotted_of self.old }
    {
        let (lower, upper) = halves(to);
        self.nodes[at].prev = lower;
        if at < self.upper.len() {
            self.upper[at].prev = upper;
        }
    }

    /// Links the neighbours of a place to each other.
    #[inline(always)]
    pub(crate) fn unlink(&mut self, place: usize)
        requires place { place < vec_len self.old.nodes }
        requires prev { IsEnd (links_of self.old) ((links_of self.old).prev place) }
        requires next { IsEnd (links_of self.old) ((links_of self.old).next place) }
        requires allotted { vec_len self.old.nodes ≤ allotted_of self.old }
        ensures links { links_of self.new ≡ unlinked (links_of self.old) place }
        ensures same_allotted { allotted_of self.new ≡ allotted_of self.old }
    {
        let prev = self.prev(place);
        let next = self.next(place);
        self.set_next(prev, next);
        self.set_prev(next, prev);
    }

    /// Puts a place between two neighbours.
    #[inline(always)]
    pub(crate) fn link(&mut self, prev: usize, place: usize, next: usize)
        requires place { place < vec_len self.old.nodes }
        requires prev { IsEnd (links_of self.old) prev }
        requires next { IsEnd (links_of self.old) next }
        requires allotted { vec_len self.old.nodes ≤ allotted_of self.old }
        ensures links { links_of self.new ≡ linked (links_of self.old) prev place next }
        ensures same_allotted { allotted_of self.new ≡ allotted_of self.old }
    {
        self.write_next(place, next);
        self.write_prev(place, prev);
        self.set_next(prev, place);
        self.set_prev(next, place);
    }

    /// Moves a place that is not the first one to the front.
    #[inline(always)]
    pub(crate) fn bring_front(&mut self, place: usize)
        requires place { place < vec_len self.old.nodes }
        requires prev { (links_of self.old).prev place < vec_len self.old.nodes }
        requires next { IsEnd (links_of self.old) ((links_of self.old).next place) }
        requires front { (links_of self.old).next nowhere < vec_len self.old.nodes }
        requires allotted { vec_len self.old.nodes ≤ allotted_of self.old }
        ensures links { links_of self.new ≡ brought_front (links_of self.old) place }
        ensures same_allotted { allotted_of self.new ≡ allotted_of self.old }
    {
        if self.upper.is_empty() {
            self.bring_front_narrow(place);
        } else {
            self.bring_front_wide(place);
        }
    }

    // In line, though it is seldom run: by a call a look-up in a loop would keep what it counts on the stack.
    #[inline(always)]
    fn bring_front_wide(&mut self, place: usize)
        requires place { place < vec_len self.old.nodes }
        requires prev { (links_of self.old).prev place < vec_len self.old.nodes }
        requires next { IsEnd (links_of self.old) ((links_of self.old).next place) }
        requires front { (links_of self.old).next nowhere < vec_len self.old.nodes }
        requires allotted { vec_len self.old.nodes ≤ allotted_of self.old }
        ensures links { links_of self.new ≡ brought_front (links_of self.old) place }
        ensures same_allotted { allotted_of self.new ≡ allotted_of self.old }
    {
        let front = self.front();
        self.unlink(place);
        self.link(NOWHERE, place, front);
    }

    fn bring_front_narrow(&mut self, place: usize)
        requires place { place < vec_len self.old.nodes }
        requires prev { (links_of self.old).prev place < vec_len self.old.nodes }
        requires next { IsEnd (links_of self.old) ((links_of self.old).next place) }
        requires front { (links_of self.old).next nowhere < vec_len self.old.nodes }
        requires allotted { vec_len self.old.nodes ≤ allotted_of self.old }
        requires narrow { vec_len self.old.upper ≡ 0 }
        ensures links { links_of self.new ≡ brought_front (links_of self.old) place }
        ensures same_allotted { allotted_of self.new ≡ allotted_of self.old }
    {
        let nodes = self.nodes.as_mut_slice();
        narrow::bring_front(nodes, &mut self.front, &mut self.back, place);
    }

    /// Moves a place that is not the last one to the back.
    pub(crate) fn bring_back(&mut self, place: usize)
        requires place { place < vec_len self.old.nodes }
        requires prev { IsEnd (links_of self.old) ((links_of self.old).prev place) }
        requires next { (links_of self.old).next place < vec_len self.old.nodes }
        requires back { IsEnd (links_of self.old) ((links_of self.old).prev nowhere) }
        requires allotted { vec_len self.old.nodes ≤ allotted_of self.old }
        ensures links { links_of self.new ≡ brought_back (links_of self.old) place }
        ensures same_allotted { allotted_of self.new ≡ allotted_of self.old }
    {
        let back = self.back();
        self.unlink(place);
        self.link(back, place, NOWHERE);
    }

    /// Takes the item out of a place, if one is there.
    #[inline(always)]
    pub(crate) fn take(&mut self, place: usize) -> Option<T>
        ensures value { result ≡ (links_of self.old).item place }
        ensures links { links_of self.new ≡ set_item (links_of self.old) place None }
        ensures same_allotted { allotted_of self.new ≡ allotted_of self.old }
    {
        match self.nodes.get_mut(place) {
            Some(node) => node.item.take(),
            None => None,
        }
    }

    /// Makes a place the first free one.
    #[inline(always)]
    pub(crate) fn release(&mut self, place: usize)
        requires place { place < vec_len self.old.nodes }
        requires end { IsEnd (links_of self.old) self.old.free }
        requires allotted { vec_len self.old.nodes ≤ allotted_of self.old }
        ensures links { links_of self.new ≡ released (links_of self.old) place }
        ensures same_allotted { allotted_of self.new ≡ allotted_of self.old }
    {
        let free = self.free;
        self.write_next(place, free);
        self.free = place;
    }

    /// Stores an item in the first free place, or in a new one if none is free.
    #[inline(always)]
    pub(crate) fn occupy(&mut self, item: T) -> usize
        requires end { IsEnd (links_of self.old) self.old.free }
        requires free { (links_of self.old).item self.old.free ≡ None }
        requires allotted { self.old.free ≡ nowhere → vec_len self.old.nodes < allotted_of self.old }
        ensures place { result ≡ spot (links_of self.old) }
        ensures links { links_of self.new ≡ occupied (links_of self.old) item }
        ensures same_allotted { allotted_of self.new ≡ allotted_of self.old }
    {
        if self.free == NOWHERE {
            self.append(item)
        } else {
            self.fill(item)
        }
    }

    #[inline(always)]
    fn append(&mut self, item: T) -> usize
        requires { vec_len self.old.nodes < allotted_of self.old }
        ensures place { result ≡ vec_len self.old.nodes }
        ensures links { links_of self.new ≡ appended (links_of self.old) item }
        ensures same_allotted { allotted_of self.new ≡ allotted_of self.old }
    {
        let place = self.nodes.len();
        self.nodes.push_reserved(Node {
            prev: 0,
            next: 0,
            item: Some(item),
        });
        clear_upper(&mut self.upper, place);
        place
    }

    #[inline(always)]
    fn fill(&mut self, item: T) -> usize
        requires place { self.old.free < vec_len self.old.nodes }
        requires free { (links_of self.old).item self.old.free ≡ None }
        ensures place { result ≡ self.old.free }
        ensures links { links_of self.new ≡ filled (links_of self.old) item }
        ensures same_allotted { allotted_of self.new ≡ allotted_of self.old }
    {
        let place = self.free;
        let next = self.next(place);
        let node = &mut self.nodes[place];
        self.free = next;
        match node.item.replace(item) {
            None => place,
            Some(_) => unreachable!(),
        }
    }

    /// Finds memory for so many places, and names for them. Lower halves alone name at most `limit` places.
    #[cold]
    #[inline(never)]
    pub(crate) fn reserve(&mut self, places: usize, limit: usize) -> Result<(), NoMemory>
        requires { vec_len self.old.nodes ≤ places }
        ensures links { links_of self.new ≡ links_of self.old }
        ensures grows { allotted_of self.old ≤ allotted_of self.new }
        ensures ready { OnOk result (places ≤ allotted_of self.new) }
    {
        let more = places - self.nodes.len();
        let Ok(()) = self.nodes.reserve_exact(more) else {
            return Err(NoMemory);
        };
        if places <= limit.min(NARROW) {
            return Ok(());
        }
        widen(&mut self.upper, places)
    }
}
