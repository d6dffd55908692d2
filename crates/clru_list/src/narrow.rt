//! Writes of links if their lower halves alone serve. They take the nodes as one slice, so that its address is read once for
//! all writes, and copy a number without making a place of it.
ghost use Rattle.std.specs.Prelude.{◌≡◌, ◌⊎◌, ℕ, ◌<◌, ◌≤◌, length};
ghost use Rattle.clru_list.specs.Places.{nowhere, narrow, place_by};
ghost use Rattle.clru_list.specs.Links.{narrow_links, set_next, set_prev, brought_front, IsEnd};

use crate::halves::{number_of, place_numbered};
use crate::links::Node;

/// Moves a place that is not the first one to the front. `front` and `back` are numbers of places.
#[inline(always)]
pub(crate) fn bring_front<T>(
    nodes: &mut [Node<T>],
    front: &mut usize,
    back: &mut usize,
    place: usize,
)
    requires place { place < length nodes.old }
    requires narrow { length nodes.old ≤ narrow }
    requires prev { (narrow_links nodes.old front.old back.old 0).prev place < length nodes.old }
    requires next { IsEnd (narrow_links nodes.old front.old back.old 0) ((narrow_links nodes.old front.old back.old 0).next place) }
    requires front { place_by front.old 0 < length nodes.old }
    ensures links { (free : ℕ) → narrow_links nodes.new front.new back.new free
        ≡ brought_front (narrow_links nodes.old front.old back.old free) place }
    ensures len { length nodes.new ≡ length nodes.old }
{
    let before = nodes[place].prev;
    let behind = nodes[place].next;
    let first = *front;
    let number = number_of(place);
    write_next(nodes, place_numbered(before as usize), behind);
    write_prev_or_back(nodes, back, behind, before);
    write_next(nodes, place, first as u32);
    write_prev(nodes, place, 0);
    write_prev(nodes, place_numbered(first), number as u32);
    *front = number;
}

/// Links a place to the next one by its number.
fn write_next<T>(nodes: &mut [Node<T>], at: usize, to: u32)
    requires at { at < length nodes.old }
    requires narrow { length nodes.old ≤ narrow }
    ensures links { (front back free : ℕ) → narrow_links nodes.new front back free
        ≡ set_next (narrow_links nodes.old front back free) at (place_by to 0) }
    ensures len { length nodes.new ≡ length nodes.old }
{
    nodes[at].next = to;
}

/// Links a place to the one before by its number.
fn write_prev<T>(nodes: &mut [Node<T>], at: usize, to: u32)
    requires at { at < length nodes.old }
    requires narrow { length nodes.old ≤ narrow }
    ensures links { (front back free : ℕ) → narrow_links nodes.new front back free
        ≡ set_prev (narrow_links nodes.old front back free) at (place_by to 0) }
    ensures len { length nodes.new ≡ length nodes.old }
{
    nodes[at].prev = to;
}

/// Links the place of a number to the one before. For 0 the back becomes that one.
fn write_prev_or_back<T>(nodes: &mut [Node<T>], back: &mut usize, number: u32, to: u32)
    requires at { (place_by number 0 ≡ nowhere) ⊎ (place_by number 0 < length nodes.old) }
    requires narrow { length nodes.old ≤ narrow }
    ensures links { (front free : ℕ) → narrow_links nodes.new front back.new free
        ≡ set_prev (narrow_links nodes.old front back.old free) (place_by number 0) (place_by to 0) }
    ensures len { length nodes.new ≡ length nodes.old }
{
    if number == 0 {
        *back = to as usize;
    } else {
        write_prev(nodes, place_numbered(number as usize), to);
    }
}
