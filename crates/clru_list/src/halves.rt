//! A link in two halves of 4 bytes each. The upper halves stand apart, and only if there may be more places than lower
//! ones name.
ghost use Rattle.std.specs.Prelude.{◌≡◌, ◌≤◌, max, vec_len, IfOk, IsOk};
ghost use Rattle.clru_list.specs.Halves.{upper_next, upper_prev};
ghost use Rattle.clru_list.specs.Places.{narrow, place_by, put};

use crate::error::NoMemory;
use std::alloc::Allocator;

/// The places that lower halves alone can name: those below.
pub const NARROW: usize = 4294967295;

/// The upper halves of the links of a place.
#[derive(Clone, Copy, Drop)]
pub struct Upper {
    pub(crate) prev: u32,
    pub(crate) next: u32,
}

/// The place that a link leads to.
pub(crate) fn place_by(lower: u32, upper: u32) -> usize
    ensures { result ≡ place_by lower upper }
{
    (lower as usize + upper as usize * 4294967296).wrapping_sub(1)
}

/// The number of a place, one more than it, and 0 if there is none.
pub(crate) fn number_of(place: usize) -> usize
    ensures { place_by result 0 ≡ place }
{
    place.wrapping_add(1)
}

/// The place of a number.
pub(crate) fn place_numbered(number: usize) -> usize
    ensures { result ≡ place_by number 0 }
{
    number.wrapping_sub(1)
}

/// The halves of a link to a place.
pub(crate) fn halves(to: usize) -> (u32, u32)
    ensures { place_by result.0 result.1 ≡ to }
{
    let number = number_of(to);
    ((number % 4294967296) as u32, (number / 4294967296) as u32)
}

/// Upper halves for so many places, if the lower ones can't name them.
pub(crate) fn uppers<A: Allocator>(alloc: A, places: usize) -> Result<Vec<Upper, A>, NoMemory>
    ensures named { IfOk result (λ upper. places ≤ max narrow (vec_len upper)) }
    ensures never_refused { places ≡ 0 → IsOk result }
{
    if places <= NARROW {
        return Ok(Vec::new(alloc));
    }
    match Vec::from_elem(alloc, Upper { prev: 0, next: 0 }, places) {
        Ok(upper) => Ok(upper),
        Err(_) => Err(NoMemory),
    }
}

/// Clears a place's upper halves, if it has some.
pub(crate) fn clear_upper<A: Allocator>(upper: &mut Vec<Upper, A>, place: usize)
    ensures next { upper_next upper.new ≡ put (upper_next upper.old) place 0 }
    ensures prev { upper_prev upper.new ≡ put (upper_prev upper.old) place 0 }
    ensures len { vec_len upper.new ≡ vec_len upper.old }
{
    if place < upper.len() {
        upper[place] = Upper { prev: 0, next: 0 };
    }
}

/// Adds upper halves that are 0, up to so many places.
#[cold]
#[inline(never)]
pub(crate) fn widen<A: Allocator>(upper: &mut Vec<Upper, A>, places: usize) -> Result<(), NoMemory>
    ensures next { upper_next upper.new ≡ upper_next upper.old }
    ensures prev { upper_prev upper.new ≡ upper_prev upper.old }
    ensures grows { vec_len upper.old ≤ vec_len upper.new }
    ensures named { IfOk result (λ _. places ≤ vec_len upper.new) }
{
    let len = upper.len();
    if places <= len {
        return Ok(());
    }
    let Ok(()) = upper.reserve_exact(places - len) else {
        return Err(NoMemory);
    };
    match upper.resize(places, Upper { prev: 0, next: 0 }) {
        Ok(()) => Ok(()),
        Err(_) => Err(NoMemory),
    }
}
