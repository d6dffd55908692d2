//! Sizes with the numbers of their requests: in 8 bytes each as long as all of these fit 4 bytes, and in 16 otherwise.
ghost use Rattle.std.specs.Prelude.{◌≡◌, ℕ, ◌+◌, ◌*◌, ◌/◌, ◌^◌, ◌<◌, ◌≤◌, [], ◌∷◌, ◌++◌, length, map, slice_set, vec_len, vec_capacity, OnOk, IfOk};
ghost use Rattle.std.specs.List.{filter};
ghost use Rattle.clru_curve.specs.LatestSizes.{sizes_from};
ghost use Rattle.clru_curve.specs.Rising.{has_value, numbered, number_at, value_at, HasNumber, IsRising};
ghost use Rattle.clru_curve.specs.SizeLists.{widened};

use crate::numbered::{Numbered, NumberedValue, place_near};
use std::alloc::{AllocError, Allocator};
use std::marker::Model;

/// How many sizes are summed up together.
pub(crate) const BLOCK: usize = 8;

/// Masks that leave nothing of a size, and then masks that leave all of it.
const MASKS: [usize; 16] = [
    0,
    0,
    0,
    0,
    0,
    0,
    0,
    0,
    usize::MAX,
    usize::MAX,
    usize::MAX,
    usize::MAX,
    usize::MAX,
    usize::MAX,
    usize::MAX,
    usize::MAX,
];

/// The greatest number of 4 bytes.
const GREATEST_NARROW: usize = 4294967295;

/// A size and the number of its request, in half of the memory.
#[derive(Clone, Copy)]
pub(crate) struct NarrowSize {
    number: u32,
    value: u32,
}

impl NumberedValue for NarrowSize {
    ghost seen = { widened };

    #[inline]
    fn number(&self) -> usize {
        self.number as usize
    }

    #[inline]
    fn value(&self) -> usize {
        self.value as usize
    }
}

#[derive(Drop)]
enum Form<A: Allocator> {
    Narrow(Vec<NarrowSize, A>),
    Wide(Vec<Numbered, A>),
}

/// Sizes with the numbers of their requests. A clause sees them as their list, with the room that there is and the greatest number and
/// size that fit.
#[derive(Drop)]
pub(crate) struct SizeList<A: Allocator> {
    form: Form<A>,
}

impl<A: Allocator> Model for SizeList<A> {
    ghost use Rattle.clru_curve.specs.SizeLists.{SizeItems, size_items_code, size_items};

    ghost Value = { SizeItems };

    ghost coded = { size_items_code };

    ghost view = { λ s. size_items s.form };
}

impl<A: Allocator + Copy> SizeList<A> {
    /// A list of no sizes.
    /// Cost: no request for memory.
    pub(crate) fn new(alloc: A) -> Self
        ensures { result.items ≡ [] }
    {
        SizeList {
            form: Form::Narrow(Vec::new(alloc)),
        }
    }

    #[inline]
    pub(crate) fn len(&self) -> usize
        ensures { result ≡ length self.now.items }
    {
        match &self.form {
            Form::Narrow(sizes) => sizes.len(),
            Form::Wide(sizes) => sizes.len(),
        }
    }

    /// The number of the request whose size stands at a place.
    #[inline]
    pub(crate) fn number(&self, at: usize) -> usize
        requires { at < length self.now.items }
        ensures { result ≡ number_at self.now.items at }
    {
        match &self.form {
            Form::Narrow(sizes) => sizes[at].number as usize,
            Form::Wide(sizes) => sizes[at].number,
        }
    }

    /// The size at a place.
    #[inline]
    pub(crate) fn value(&self, at: usize) -> usize
        requires { at < length self.now.items }
        ensures { result ≡ value_at self.now.items at }
    {
        match &self.form {
            Form::Narrow(sizes) => sizes[at].value as usize,
            Form::Wide(sizes) => sizes[at].value,
        }
    }

    /// Makes room for one more size, and makes numbers and sizes up to `greatest` fit. If memory is refused, the sizes stay.
    /// Cost: a request for memory only if there is no room, or if `greatest` does not fit yet; then also a copy of each size.
    #[inline]
    pub(crate) fn make_room(&mut self, greatest: usize) -> Result<(), AllocError>
        ensures items { self.new.items ≡ self.old.items }
        ensures room { OnOk result (length self.new.items < self.new.capacity) }
        ensures fits { OnOk result (greatest ≤ self.new.greatest) }
    {
        match &mut self.form {
            Form::Narrow(sizes) => {
                if greatest <= GREATEST_NARROW {
                    return sizes.reserve(1);
                }
            }
            Form::Wide(sizes) => return sizes.reserve(1),
        }
        self.widen()
    }

    // Out of line, because it succeeds at most once. (the second arm is never reached)
    #[cold]
    #[inline(never)]
    fn widen(&mut self) -> Result<(), AllocError>
        ensures items { self.new.items ≡ self.old.items }
        ensures room { OnOk result (length self.new.items < self.new.capacity) }
        ensures fits { OnOk result (self.new.greatest ≡ 18446744073709551615) }
    {
        match &mut self.form {
            Form::Narrow(sizes) => {
                let Ok(wide) = all_widened(sizes) else {
                    return Err(AllocError);
                };
                self.form = Form::Wide(wide);
                Ok(())
            }
            Form::Wide(sizes) => sizes.reserve(1),
        }
    }

    /// Adds a size at the end.
    #[inline]
    pub(crate) fn push_reserved(&mut self, number: usize, value: usize)
        requires room { length self.old.items < self.old.capacity }
        requires number { number ≤ self.old.greatest }
        requires value { value ≤ self.old.greatest }
        ensures items { self.new.items ≡ self.old.items ++ numbered number value ∷ [] }
        ensures capacity { self.new.capacity ≡ self.old.capacity }
        ensures greatest { self.new.greatest ≡ self.old.greatest }
    {
        match &mut self.form {
            Form::Narrow(sizes) => sizes.push_reserved(NarrowSize {
                number: number as u32,
                value: value as u32,
            }),
            Form::Wide(sizes) => sizes.push_reserved(Numbered { number, value }),
        }
    }

    /// Makes the size at a place 0.
    #[inline]
    pub(crate) fn empty(&mut self, at: usize)
        requires { at < length self.old.items }
        ensures items { self.new.items ≡ slice_set self.old.items at (numbered (number_at self.old.items at) 0) }
        ensures capacity { self.new.capacity ≡ self.old.capacity }
        ensures greatest { self.new.greatest ≡ self.old.greatest }
    {
        match &mut self.form {
            Form::Narrow(sizes) => sizes[at].value = 0,
            Form::Wide(sizes) => sizes[at].value = 0,
        }
    }

    /// Drops the sizes that are 0.
    /// Cost: a step for each size.
    pub(crate) fn drop_empty(&mut self)
        ensures items { self.new.items ≡ filter has_value self.old.items }
        ensures capacity { self.new.capacity ≡ self.old.capacity }
        ensures greatest { self.new.greatest ≡ self.old.greatest }
    {
        match &mut self.form {
            Form::Narrow(sizes) => sizes.retain(
                |size: &NarrowSize| -> bool
                    ensures { result ≡ has_value (widened size.now) }
                { size.value != 0 },
            ),
            Form::Wide(sizes) => sizes.retain(
                |size: &Numbered| -> bool
                    ensures { result ≡ has_value size.now }
                { size.value != 0 },
            ),
        }
    }

    /// The place of the size of a request, which there is. It looks first at the place where that is likely to be.
    #[inline]
    pub(crate) fn place_near(&self, number: usize, guess: usize) -> usize
        requires there { HasNumber self.now.items number }
        requires rising { (high : ℕ) × IsRising 0 self.now.items high }
        ensures inside { result < length self.now.items }
        ensures number { number_at self.now.items result ≡ number }
    {
        match &self.form {
            Form::Narrow(sizes) => place_near(sizes, number, guess),
            Form::Wide(sizes) => place_near(sizes, number, guess),
        }
    }

    /// The sum of the sizes from a place up to the end of its block.
    #[inline]
    pub(crate) fn sum_of_rest(&self, at: usize) -> usize
        requires inside { 8 * (at / 8 + 1) ≤ length self.now.items }
        requires fits { sizes_from self.now.items at < 2 ^ 64 }
        ensures { result + sizes_from self.now.items (8 * (at / 8 + 1)) ≡ sizes_from self.now.items at }
    {
        match &self.form {
            Form::Narrow(sizes) => sum_of_rest(sizes, at),
            Form::Wide(sizes) => sum_of_rest(sizes, at),
        }
    }

    /// The sum of the sizes from `first` up to `end`.
    #[inline]
    pub(crate) fn sum_between(&self, first: usize, end: usize) -> usize
        requires order { first ≤ end }
        requires inside { end ≤ length self.now.items }
        requires fits { sizes_from self.now.items first < 2 ^ 64 }
        ensures { result + sizes_from self.now.items end ≡ sizes_from self.now.items first }
    {
        match &self.form {
            Form::Narrow(sizes) => sum_between(sizes, first, end),
            Form::Wide(sizes) => sum_between(sizes, first, end),
        }
    }

    /// Whether the size of the request stands at this place.
    #[inline]
    pub(crate) fn is_at(&self, request: usize, place: usize) -> bool {
        match &self.form {
            Form::Narrow(sizes) => is_at(sizes, request, place),
            Form::Wide(sizes) => is_at(sizes, request, place),
        }
    }

    /// The place, if the size of the request stands there and the block is full, or else `usize::MAX`. It reads both ends of the block too,
    /// and the middle of a wide one, since its sizes may be summed up next: a block may lie in two lines of the processor's cache, a wide
    /// one in three.
    #[inline]
    pub(crate) fn read_block(&self, request: usize, place: usize) -> usize {
        let first = place / BLOCK * BLOCK;
        let (middle, last) = (first | (BLOCK / 2), first | (BLOCK - 1));
        let is_here = match &self.form {
            Form::Narrow(sizes) => is_at(sizes, request, place) && rises(sizes, first, last),
            Form::Wide(sizes) => {
                is_at(sizes, request, place)
                    && rises(sizes, first, middle)
                    && rises(sizes, middle, last)
            }
        };
        if is_here { place } else { usize::MAX }
    }
}

/// Returns the same sizes in 16 bytes each, with room for as many again.
/// Cost: one request for memory.
fn all_widened<A: Allocator + Copy>(
    sizes: &Vec<NarrowSize, A>,
) -> Result<Vec<Numbered, A>, AllocError>
    ensures items { IfOk result (λ w. w.items ≡ map widened sizes.now.items) }
    ensures room { IfOk result (λ w. vec_len w < vec_capacity w) }
{
    let room = sizes.len().saturating_mul(2).saturating_add(1);
    let mut wide = Vec::with_capacity(*sizes.allocator(), room)?;
    for at in 0..sizes.len() {
        let size = sizes[at];
        let Ok(()) = wide.push(Numbered {
            number: size.number as usize,
            value: size.value as usize,
        }) else {
            return Err(AllocError);
        };
    }
    wide.reserve(1)?;
    Ok(wide)
}

#[inline]
fn is_at<T: NumberedValue>(sizes: &[T], request: usize, place: usize) -> bool {
    match sizes.get(place) {
        Some(size) => size.number() == request,
        None => false,
    }
}

/// Whether the numbers at two places rise: always, if both are there. It is asked so that both are read, since the compiler leaves out a
/// read that nothing uses.
#[inline]
fn rises<T: NumberedValue>(sizes: &[T], first: usize, last: usize) -> bool {
    match (sizes.get(first), sizes.get(last)) {
        (Some(start), Some(end)) => start.number() <= end.number(),
        _ => false,
    }
}

/// The sum of the sizes from `first` up to `end`.
fn sum_between<T: NumberedValue>(sizes: &[T], first: usize, end: usize) -> usize
    requires order { first ≤ end }
    requires inside { end ≤ length sizes.now }
    requires fits { sizes_from (map T.seen sizes.now) first < 2 ^ 64 }
    ensures { result + sizes_from (map T.seen sizes.now) end ≡ sizes_from (map T.seen sizes.now) first }
{
    let mut sum = 0;
    let mut at = first;
    while at < end {
        sum += sizes[at].value();
        at += 1;
    }
    sum
}

/// The sum of the sizes from a place up to the end of its block.
#[inline]
fn sum_of_rest<T: NumberedValue>(sizes: &[T], at: usize) -> usize
    requires inside { 8 * (at / 8 + 1) ≤ length sizes.now }
    requires fits { sizes_from (map T.seen sizes.now) at < 2 ^ 64 }
    ensures { result + sizes_from (map T.seen sizes.now) (8 * (at / 8 + 1)) ≡ sizes_from (map T.seen sizes.now) at }
{
    let first = at / BLOCK * BLOCK;
    let mut sum = 0;
    for place in first..first + BLOCK {
        sum += size_behind(sizes, at, place);
    }
    sum
}

/// The size at a place, or 0 if that is before `at`, which is in the same block.
#[inline(always)]
fn size_behind<T: NumberedValue>(sizes: &[T], at: usize, place: usize) -> usize
    requires inside { place < length sizes.now }
    requires block { place / 8 ≡ at / 8 }
    ensures before { place < at → result ≡ 0 }
    ensures behind { at ≤ place → result ≡ value_at (map T.seen sizes.now) place }
{
    // (by a table: LLVM makes a branch of a computed mask, and the processor would guess it wrong)
    sizes[place].value() & MASKS[BLOCK + place % BLOCK - at % BLOCK]
}
