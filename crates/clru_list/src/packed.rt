//! `PackedNumbers`: numbers that take 4 bytes each while all of them fit, and 8 otherwise. The hash index of the map above and
//! the foresight of `clru_least` keep theirs in it. The links of the list have halves of their own, beside the items.
ghost use Rattle.std.specs.Prelude.{◌≡◌, ◌<◌, ◌≤◌, [], ◌∷◌, ◌++◌, length, replicate, set, slice_index_or, true, IfOk, OnOk, OnErr};
ghost use Rattle.clru_list.specs.Packed.{greatest_by, or_zero};

use crate::error::NoMemory;
use std::alloc::Allocator;
use std::marker::Model;

const GREATEST_NARROW: usize = 4294967295;

const GREATEST_WIDE: usize = 18446744073709551615;

// An empty `Wide` reads as one 0, so a look-up in an index without memory needs no test of its own.
#[derive(Drop)]
enum Form<A: Allocator + Copy> {
    Narrow(Vec<u32, A>),
    Wide(Vec<usize, A>),
}

/// Numbers that take 4 bytes each while all of them fit, and 8 otherwise. A clause sees them as their list, with the greatest
/// one that fits.
#[derive(Drop)]
pub struct PackedNumbers<A: Allocator + Copy> {
    form: Form<A>,
}

impl<A: Allocator + Copy> Model for PackedNumbers<A> {
    ghost use Rattle.clru_list.specs.Packed.{Packed, packed_in};

    ghost Value = { Packed };

    ghost view = { λ p. packed_in p.form };
}

impl<A: Allocator + Copy> PackedNumbers<A> {
    /// Creates a list of no numbers.
    /// Cost: no request for memory.
    pub fn new(alloc: A) -> Self
        ensures numbers { result.numbers ≡ [] }
        ensures greatest { result.greatest ≡ greatest_by true }
    {
        PackedNumbers {
            form: Form::Narrow(Vec::new(alloc)),
        }
    }

    /// Creates a list of one 0. No other number can be written over it, because it takes no memory.
    /// Cost: no request for memory.
    pub fn one_zero(alloc: A) -> Self
        ensures numbers { result.numbers ≡ 0 ∷ [] }
        ensures greatest { result.greatest ≡ 18446744073709551615 }
    {
        PackedNumbers {
            form: Form::Wide(Vec::new(alloc)),
        }
    }

    /// Creates a list of `len` zeros, which take 4 bytes each if `is_narrow` holds, and 8 otherwise.
    /// Cost: one request for memory.
    pub fn zeros(alloc: A, len: usize, is_narrow: bool) -> Result<Self, NoMemory>
        requires { 0 < len }
        ensures numbers { IfOk result (λ p. p.numbers ≡ replicate len 0) }
        ensures greatest { IfOk result (λ p. p.greatest ≡ greatest_by is_narrow) }
    {
        if is_narrow {
            match Vec::from_elem(alloc, 0, len) {
                Ok(words) => Ok(PackedNumbers {
                    form: Form::Narrow(words),
                }),
                Err(_) => Err(NoMemory),
            }
        } else {
            match Vec::from_elem(alloc, 0, len) {
                Ok(words) => Ok(PackedNumbers {
                    form: Form::Wide(words),
                }),
                Err(_) => Err(NoMemory),
            }
        }
    }

    /// Returns how many numbers there are.
    pub fn len(&self) -> usize
        ensures { result ≡ length self.now.numbers }
    {
        match &self.form {
            Form::Narrow(words) => words.len(),
            Form::Wide(words) => words.len().max(1),
        }
    }

    /// Returns the allocator.
    pub fn allocator(&self) -> &A {
        match &self.form {
            Form::Narrow(words) => words.allocator(),
            Form::Wide(words) => words.allocator(),
        }
    }

    /// Returns the greatest number that fits.
    pub fn greatest(&self) -> usize
        ensures { result ≡ self.now.greatest }
    {
        match &self.form {
            Form::Narrow(_) => GREATEST_NARROW,
            Form::Wide(_) => GREATEST_WIDE,
        }
    }

    /// Returns the number at an index.
    pub fn get(&self, at: usize) -> usize
        requires { at < length self.now.numbers }
        ensures number { result ≡ slice_index_or self.now.numbers at 0 }
        ensures fits { result ≤ self.now.greatest }
    {
        match &self.form {
            Form::Narrow(words) => words[at] as usize,
            Form::Wide(words) => match words.get(at) {
                Some(number) => *number,
                None => 0,
            },
        }
    }

    /// Writes the number at an index. There must be another number too.
    pub fn set(&mut self, at: usize, number: usize)
        requires at { at < length self.old.numbers }
        requires some { 1 < length self.old.numbers }
        requires fits { number ≤ self.old.greatest }
        ensures numbers { self.new.numbers ≡ set self.old.numbers at number }
        ensures greatest { self.new.greatest ≡ self.old.greatest }
    {
        match &mut self.form {
            Form::Narrow(words) => words[at] = number as u32,
            Form::Wide(words) => words[at] = number,
        }
    }

    /// Sets each number to 0.
    pub fn clear(&mut self)
        ensures numbers { self.new.numbers ≡ replicate (length self.old.numbers) 0 }
        ensures greatest { self.new.greatest ≡ self.old.greatest }
    {
        match &mut self.form {
            Form::Narrow(words) => words.fill(0),
            Form::Wide(words) => words.fill(0),
        }
    }

    /// Adds a number at the end. If memory is refused, the numbers stay as they were.
    /// Cost: a request for memory only if there is no room for it.
    pub fn push(&mut self, number: usize) -> Result<(), NoMemory>
        requires { number ≤ self.old.greatest }
        ensures pushed { OnOk result (self.new.numbers ≡ self.old.numbers ++ number ∷ []) }
        ensures refused { OnErr result (self.new.numbers ≡ self.old.numbers) }
        ensures greatest { self.new.greatest ≡ self.old.greatest }
    {
        match &mut self.form {
            Form::Narrow(words) => match words.push(number as u32) {
                Ok(()) => Ok(()),
                Err(_) => Err(NoMemory),
            },
            Form::Wide(words) => push_wide(words, number),
        }
    }

    /// Makes numbers up to `greatest` fit. If memory is refused, nothing changes. An empty list cannot be widened.
    /// Cost: none if they fit already; otherwise one request for memory, and a copy of each number.
    pub fn widen_for(&mut self, greatest: usize) -> Result<(), NoMemory>
        requires { self.old.greatest < greatest → 0 < length self.old.numbers }
        ensures fits { OnOk result (greatest ≤ self.new.greatest) }
        ensures numbers { self.new.numbers ≡ self.old.numbers }
        ensures stays { greatest ≤ self.old.greatest → self.new ≡ self.old }
        ensures refused { OnErr result (self.new ≡ self.old) }
    {
        if greatest <= self.greatest() {
            return Ok(());
        }
        self.widen()
    }

    // Out of line, because it is called at most once.
    #[cold]
    #[inline(never)]
    fn widen(&mut self) -> Result<(), NoMemory>
        requires { 0 < length self.old.numbers }
        ensures fits { OnOk result (self.new.greatest ≡ 18446744073709551615) }
        ensures numbers { self.new.numbers ≡ self.old.numbers }
        ensures refused { OnErr result (self.new ≡ self.old) }
    {
        match &self.form {
            Form::Narrow(words) => {
                let words = widened(words)?;
                self.form = Form::Wide(words);
                Ok(())
            }
            Form::Wide(_) => Ok(()),
        }
    }
}

fn push_wide<A: Allocator>(words: &mut Vec<usize, A>, number: usize) -> Result<(), NoMemory>
    ensures pushed { OnOk result (or_zero words.new.items ≡ or_zero words.old.items ++ number ∷ []) }
    ensures refused { OnErr result (or_zero words.new.items ≡ or_zero words.old.items) }
{
    if words.is_empty() {
        let Ok(()) = words.push(0) else {
            return Err(NoMemory);
        };
    }
    match words.push(number) {
        Ok(()) => Ok(()),
        Err(_) => Err(NoMemory),
    }
}

/// Returns the same numbers at 8 bytes each, with room for as many as there was.
fn widened<A: Allocator + Copy>(words: &Vec<u32, A>) -> Result<Vec<usize, A>, NoMemory>
    ensures { IfOk result (λ w. w.items ≡ words.now.items) }
{
    let Ok(mut wide) = Vec::with_capacity(*words.allocator(), words.capacity()) else {
        return Err(NoMemory);
    };
    for at in 0..words.len() {
        let Ok(()) = wide.push(words[at] as usize) else {
            return Err(NoMemory);
        };
    }
    Ok(wide)
}
