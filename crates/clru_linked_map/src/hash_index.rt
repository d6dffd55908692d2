//! `HashIndex`: which place each bucket leads to, and which place each place is linked to in its chain. A place takes 4 bytes there,
//! or 8 if there may be more places than 4 bytes name, or than a limit that the constructor was given.
//!
//! A number there is 0 for no place. Otherwise its lowest bits, those of the mask that picks a bucket, are the place and 1; those above
//! are the same bits of the hash of the key at that place, its tag; and the highest one says that the place is linked on. So a
//! look-up passes the places of other keys by their tags, and sees where a chain ends, without going there. `NOWHERE`, for
//! which 0 stands, is the end of each chain, and in calls its start.
ghost use Rattle.std.specs.Prelude.{◌≡◌, ℕ, ◌+◌, ◌*◌, ◌/◌, ◌^◌, ◌<◌, ◌≤◌, ◌==◌, Some, false, true, length, replicate, set, IfOk, IfSome, IfNone, IsOk};
ghost use Rattle.std.specs.Int.{IsNextPowerOfTwo, IsPowerOfTwo};
ghost use Rattle.clru_list.specs.Places.{nowhere};
ghost use Rattle.clru_linked_map.specs.BucketList.{bucket_list, place_named, place_numbered, tag_by};
ghost use Rattle.clru_linked_map.specs.Buckets.{number_in, bucket_by, low_of, HasLink, IsNumber, IsNumberOf, place_in, numbers_along, steps_in, IsRewritten, KeepsSizes};
ghost use Rattle.clru_linked_map.specs.Chained.{IsCut, IsCutBehind, IsPlace, IsRelinked, IsWalk};

use clru_list::{NOWHERE, NoMemory, PackedNumbers};
use std::alloc::Allocator;
use std::marker::Model;

// The highest bits of 4 bytes and of 8. In a number that bit says that its place is linked on.
const MORE_BIT_32: usize = 2147483648;

const MORE_BIT_64: usize = 9223372036854775808;

/// A clause sees buckets as the numbers of the buckets and of the links, the bound of the places that can be named, and the bits of a
/// number that are those of a hash.
#[derive(Drop)]
pub(crate) struct HashIndex<A: Allocator + Copy> {
    // The buckets, and behind them the links by their places, since one request for memory finds both.
    words: PackedNumbers<A>,
    // How many buckets there are, less one. They are a power of two, so it is a mask.
    mask: usize,
    // The bits of a tag: those between the mask and the highest one.
    tags: usize,
    // An index for more places has 8 bytes for each. A test sets it low, to reach that form.
    limit: usize,
}

impl<A: Allocator + Copy> Model for HashIndex<A> {
    ghost use Rattle.clru_linked_map.specs.BucketList.{BucketList, bucket_list_code, list_of, IsWorded};

    ghost Value = { BucketList };

    ghost coded = { bucket_list_code };

    ghost view = { λ h. list_of h.words h.mask h.tags };

    ghost invariant = { λ h. IsWorded h.words h.mask h.tags };
}

impl<A: Allocator + Copy> HashIndex<A> {
    /// One bucket, and no link. They take no memory.
    pub(crate) fn new(alloc: A, limit: usize) -> Self
        ensures unlinked { length result.links ≡ 0 }
        ensures free { (h : ℕ) → number_in result.firsts h ≡ 0 }
    {
        HashIndex {
            words: PackedNumbers::one_zero(alloc),
            mask: 0,
            tags: MORE_BIT_64 - 1,
            limit,
        }
    }

    /// Creates an index of empty chains, with links for so many places, which it can name. Without places it takes no memory.
    pub(crate) fn empty(alloc: A, places: usize, limit: usize) -> Result<Self, NoMemory>
        ensures free { IfOk result (λ x. (h : ℕ) → number_in x.firsts h ≡ 0) }
        ensures linked { IfOk result (λ x. places ≤ length x.links) }
        ensures spread { IfOk result (λ x. length x.links ≤ length x.firsts) }
        ensures named { IfOk result (λ x. length x.links ≤ x.bound) }
        ensures narrow { 0 < places → places ≤ limit → IfOk result (λ x. length x.firsts ≤ 2 ^ 31
            → x.tags + length x.firsts ≡ 2 ^ 31) }
        ensures never_refused { places ≡ 0 → IsOk result }
    {
        if places == 0 {
            return Ok(HashIndex::new(alloc, limit));
        }
        let Some(size) = buckets_for(places) else {
            return Err(NoMemory);
        };
        let Some(len) = size.checked_add(size / 2) else {
            return Err(NoMemory);
        };
        let is_narrow = fits_narrow(places, size, limit);
        let words = PackedNumbers::zeros(alloc, len, is_narrow)?;
        Ok(HashIndex {
            words,
            mask: size - 1,
            tags: tags_above(size, is_narrow),
            limit,
        })
    }

    /// Empty buckets for so many places, from the allocator of these and with their limit.
    pub(crate) fn empty_resized(&self, places: usize) -> Result<Self, NoMemory>
        ensures free { IfOk result (λ x. (h : ℕ) → number_in x.firsts h ≡ 0) }
        ensures linked { IfOk result (λ x. places ≤ length x.links) }
        ensures spread { IfOk result (λ x. length x.links ≤ length x.firsts) }
        ensures named { IfOk result (λ x. length x.links ≤ x.bound) }
    {
        HashIndex::empty(*self.words.allocator(), places, self.limit)
    }

    /// How many places have a link: those below.
    pub(crate) fn link_count(&self) -> usize
        ensures count { result ≡ length self.now.links }
        ensures named { length self.now.links ≤ self.now.bound }
    {
        self.words.len().saturating_sub(self.mask).saturating_sub(1)
    }

    /// The bucket of the keys with the hash.
    pub(crate) fn bucket_of(&self, hash: u64) -> usize
        ensures bucket { result ≡ bucket_by (length self.now.firsts) hash }
        ensures within { result < length self.now.firsts }
    {
        hash as usize & self.mask
    }

    /// The number of a bucket.
    pub(crate) fn first(&self, bucket: usize) -> usize
        requires { bucket < length self.now.firsts }
        ensures number { result ≡ number_in self.now.firsts bucket }
        ensures fits { IsNumber self.now result }
        ensures countable { length self.now.links < nowhere }
    {
        self.words.get(bucket)
    }

    /// The number of the link of a place.
    pub(crate) fn next(&self, place: usize) -> usize
        requires { HasLink self.now place }
        ensures number { result ≡ number_in self.now.links place }
        ensures fits { IsNumber self.now result }
    {
        self.words.get(self.mask + 1 + place)
    }

    /// The place that a number names.
    pub(crate) fn place(&self, number: usize) -> usize
        ensures { result ≡ place_named self.now.bound number }
    {
        place_numbered(number & self.mask)
    }

    /// Returns whether a number has another tag than a hash.
    pub(crate) fn has_other_tag(&self, number: usize, hash: u64) -> bool
        ensures other { result ≡ true → tag_by self.now.tags number ≡ tag_by self.now.tags hash → ⊥ }
        ensures same { result ≡ false → tag_by self.now.tags number ≡ tag_by self.now.tags hash }
    {
        number & self.tags != hash as usize & self.tags
    }

    /// Returns whether the place that a number names is not linked on, or the number names none.
    pub(crate) fn is_last(&self, number: usize) -> bool
        ensures last { result ≡ true → number ≤ low_of self.now }
        ensures more { result ≡ false → low_of self.now < number }
    {
        number <= low_in(&self.words)
    }

    /// The first place with the tag of a hash in the chain that begins with a number, or one that is not far down. It looks at no key.
    #[inline(always)]
    pub(crate) fn likely(&self, number: usize, hash: u64) -> usize {
        let mut number = number;
        let mut left = 8usize;
        'chain: while self.has_other_tag(number, hash) && !self.is_last(number) && left > 0 {
            let place = self.place(number);
            if place >= self.link_count() {
                break;
            }
            number = self.next(place);
            left -= 1;
        }
        self.place(number)
    }

    /// The number of a place, whose key has the hash, and which is the last one of its chain.
    pub(crate) fn number_of(&self, place: usize, hash: u64) -> usize
        requires { place < self.now.bound }
        ensures { IsNumberOf self.now place hash result }
    {
        let tag = hash as usize & self.tags;
        (place + 1) | tag
    }

    /// Returns whether a number names a place.
    pub(crate) fn is_named(&self, number: usize) -> bool
        ensures some { result ≡ true → place_named self.now.bound number ≡ nowhere → ⊥ }
        ensures none { result ≡ false → place_named self.now.bound number ≡ nowhere }
    {
        number & self.mask != 0
    }

    /// The number with the note that its place is linked on, or that it is not.
    pub(crate) fn noted(&self, number: usize, leads: bool) -> usize
        requires fits { IsNumber self.now number }
        ensures place { place_named self.now.bound result ≡ place_named self.now.bound number }
        ensures tag { tag_by self.now.tags result ≡ tag_by self.now.tags number }
        ensures leads { leads ≡ true → low_of self.now < result }
        ensures ends { leads ≡ false → result ≤ low_of self.now }
        ensures fits { IsNumber self.now result }
    {
        let low = low_in(&self.words);
        if leads {
            number | (low + 1)
        } else {
            number & low
        }
    }

    /// Writes the number of a bucket.
    pub(crate) fn set_first(&mut self, bucket: usize, number: usize)
        requires bucket { bucket < length self.old.firsts }
        requires led { 0 < length self.old.links }
        requires fits { IsNumber self.old number }
        ensures { self.new ≡ bucket_list (set self.old.firsts bucket number) self.old.links self.old.bound self.old.tags }
    {
        self.words.set(bucket, number);
    }

    /// Writes the number of the link of a place.
    pub(crate) fn set_next(&mut self, place: usize, number: usize)
        requires place { HasLink self.old place }
        requires fits { IsNumber self.old number }
        ensures { self.new ≡ bucket_list self.old.firsts (set self.old.links place number) self.old.bound self.old.tags }
    {
        self.words.set(self.mask + 1 + place, number);
    }

    /// Empties all buckets, and unlinks all places.
    pub(crate) fn clear(&mut self)
        ensures { self.new ≡ bucket_list (replicate (length self.old.firsts) 0) (replicate (length self.old.links) 0)
            self.old.bound self.old.tags }
    {
        self.words.clear();
    }

    /// Writes the number of a place of a chain, or of its start.
    #[inline(always)]
    pub(crate) fn link(&mut self, bucket: usize, at: usize, number: usize)
        requires bucket { at ≡ nowhere → bucket < length self.old.firsts }
        requires place { (at ≡ nowhere → ⊥) → HasLink self.old at }
        requires led { 0 < length self.old.links }
        requires fits { IsNumber self.old number }
        ensures written { IsRelinked (number_in self.old.firsts) (number_in self.old.links) bucket at number
            (number_in self.new.firsts) (number_in self.new.links) }
        ensures same { KeepsSizes self.old self.new }
    {
        if at == NOWHERE {
            self.set_first(bucket, number);
        } else {
            self.set_next(at, number);
        }
    }

    /// The number of a place of a chain, or of its start.
    #[inline(always)]
    fn number_at(&self, bucket: usize, at: usize) -> usize
        requires bucket { at ≡ nowhere → bucket < length self.now.firsts }
        requires place { (at ≡ nowhere → ⊥) → HasLink self.now at }
        ensures number { result ≡ numbers_along self.now bucket at }
        ensures fits { IsNumber self.now result }
    {
        if at == NOWHERE {
            self.first(bucket)
        } else {
            self.next(at)
        }
    }

    /// Notes where `behind` leads to the place `at` that this is linked on, or that it is not. It does nothing at the start.
    #[inline(always)]
    pub(crate) fn note(&mut self, bucket: usize, at: usize, behind: usize, leads: bool)
        requires bucket { behind ≡ nowhere → bucket < length self.old.firsts }
        requires place { (behind ≡ nowhere → ⊥) → HasLink self.old behind }
        requires led { 0 < length self.old.links }
        ensures none { at ≡ nowhere → self.new ≡ self.old }
        ensures written { (at ≡ nowhere → ⊥) → IsRewritten self.old self.new bucket behind }
        ensures leads { (at ≡ nowhere → ⊥) → leads ≡ true → low_of self.old < numbers_along self.new bucket behind }
        ensures ends { (at ≡ nowhere → ⊥) → leads ≡ false → numbers_along self.new bucket behind ≤ low_of self.old }
        ensures same { KeepsSizes self.old self.new }
    {
        if at == NOWHERE {
            return;
        }
        let number = self.number_at(bucket, behind);
        let noted = self.noted(number, leads);
        self.link(bucket, behind, noted);
    }

    /// The places in the chain one and two before the given one, or before its end for `NOWHERE`. At the start they are `NOWHERE`.
    #[inline(always)]
    pub(crate) fn before(&self, bucket: usize, place: usize) -> (usize, usize)
        requires bucket { bucket < length self.now.firsts }
        requires walk { IsWalk (steps_in self.now bucket) (HasLink self.now) (IsPlace place)
            (place_in self.now.bound self.now.firsts bucket) (length self.now.links) }
        ensures leads { steps_in self.now bucket result.0 ≡ place }
        ensures behind { (result.0 ≡ nowhere → ⊥) → steps_in self.now bucket result.1 ≡ result.0 }
        ensures cut { (met : ℕ → ℕ)
            → IsCut (steps_in self.now bucket) met nowhere → IsCutBehind (steps_in self.now bucket) met result.1 result.0 }
    {
        let mut behind = NOWHERE;
        let mut at = NOWHERE;
        let first = self.first(bucket);
        let mut next = self.place(first);
        while next != place {
            behind = at;
            at = next;
            let link = self.next(next);
            next = self.place(link);
        }
        (at, behind)
    }
}

/// The number of buckets for so many places: the least power of two that is at least twice as many. There is none if it
/// passes what can be counted.
fn buckets_for(places: usize) -> Option<usize>
    requires { 0 < places }
    ensures least { IfSome result (IsNextPowerOfTwo (places * 2)) }
    ensures enough { IfSome result (λ n. places * 2 ≤ n) }
    ensures countable { IfNone result (2 ^ 61 < places) }
{
    places.checked_mul(2)?.checked_next_power_of_two()
}

fn place_numbered(number: usize) -> usize
    ensures { result ≡ place_numbered number }
{
    number.wrapping_sub(1)
}

/// The greatest number that leaves the highest bit 0. A sum of the mask and the tags is the same, and takes longer.
fn low_in<A: Allocator + Copy>(words: &PackedNumbers<A>) -> usize
    ensures { result ≡ words.now.greatest / 2 }
{
    words.greatest() / 2
}

/// Returns whether so many buckets, for so many places, have 4 bytes each.
fn fits_narrow(places: usize, size: usize, limit: usize) -> bool
    ensures fits { result ≡ true → size ≤ 2 ^ 31 }
    ensures wide { result ≡ false → places ≤ limit → 2 ^ 31 < size }
{
    places <= limit && size <= MORE_BIT_32
}

/// The bits of a number above those of its place, but for the highest one.
fn tags_above(size: usize, is_narrow: bool) -> usize
    requires power { IsPowerOfTwo size }
    requires narrow { is_narrow ≡ true → size ≤ 2 ^ 31 }
    ensures narrow { is_narrow ≡ true → result + size ≡ 2 ^ 31 }
    ensures wide { is_narrow ≡ false → result + size ≡ 2 ^ 63 }
{
    if is_narrow {
        MORE_BIT_32 - size
    } else {
        MORE_BIT_64 - size
    }
}
