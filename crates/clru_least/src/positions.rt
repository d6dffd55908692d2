//! A set of positions that finds its greatest one in a few steps.
ghost use Rattle.std.specs.Prelude.{◌≡◌, ℕ, ◌+◌, ◌-◌, ◌*◌, ◌/◌, ◌%◌, ◌^◌, ◌<◌, ◌≤◌, ◌≢◌, length, nat_eq, slice_index, bit_xor, if◌then◌else◌, None, IfOk, IfSome};
ghost use Rattle.clru_least.specs.Positions.{IsSaid, IsSaidBut, IsTree, bit, times_in};

use std::alloc::{AllocError, Allocator};

/// How many bits a word has.
const BITS: usize = 64;

/// Positions as the bits of the leaves of a tree. A bit of any other node says whether the child that it stands for has a bit: the
/// children of node n are 64 n + 1 to 64 n + 64, and the leaves are the last level.
#[derive(Drop)]
pub(crate) struct Positions<A: Allocator> {
    pub(crate) words: Vec<u64, A>,
    // The number of levels above the leaves, and the first leaf.
    pub(crate) levels: usize,
    pub(crate) leaves: usize,
}

impl<A: Allocator> Positions<A> {
    /// Creates an empty set with room for the positions up to `end`.
    pub(crate) fn with_room(alloc: A, end: usize) -> Result<Self, AllocError>
        ensures tree { IfOk result (λ s. IsTree s.levels s.leaves s.words.items) }
        ensures room { IfOk result (λ s. s.leaves + end / 64 < length s.words.items) }
        ensures empty { IfOk result (λ s. (p : ℕ) → times_in s.leaves s.words.items p ≡ 0) }
    {
        let count = end / BITS + 1;
        // (a level has one node more than 63 times the nodes above it)
        let enough = (count + 61) / 63;
        let mut levels = 0;
        let mut leaves = 0;
        while leaves < enough {
            leaves = BITS * leaves + 1;
            levels += 1;
        }
        let mut words = Vec::new(alloc);
        words.resize(leaves + count, 0)?;
        Ok(Positions {
            words,
            levels,
            leaves,
        })
    }

    /// Returns whether the position is in the set.
    pub(crate) fn contains(&self, position: usize) -> bool
        requires room { self.now.leaves + position / 64 < length self.now.words.items }
        ensures { result ≡ nat_eq (times_in self.now.leaves self.now.words.items position) 1 }
    {
        (self.words[self.leaves + position / BITS] >> (position % BITS)) & 1 == 1
    }

    /// Puts the position into the set, or takes it out if it is there.
    pub(crate) fn flip(&mut self, position: usize)
        requires tree { IsTree self.old.levels self.old.leaves self.old.words.items }
        requires room { self.old.leaves + position / 64 < length self.old.words.items }
        ensures tree { IsTree self.new.levels self.new.leaves self.new.words.items }
        ensures flipped { (p : ℕ) → times_in self.new.leaves self.new.words.items p
            ≡ (if nat_eq position p then 1 - times_in self.old.leaves self.old.words.items p
            else times_in self.old.leaves self.old.words.items p) }
        ensures length { length self.new.words.items ≡ length self.old.words.items }
        ensures leaves { self.new.leaves ≡ self.old.leaves }
    {
        let (leaf, bit) = (self.leaves + position / BITS, position % BITS);
        flip_bit(&mut self.words, leaf, bit);
    }

    /// Returns the greatest position of the set.
    pub(crate) fn last(&self) -> Option<usize>
        requires tree { IsTree self.now.levels self.now.leaves self.now.words.items }
        ensures some { IfSome result (λ l. times_in self.now.leaves self.now.words.items l ≡ 1) }
        ensures greatest { IfSome result (λ l. (p : ℕ) → 0 < times_in self.now.leaves self.now.words.items p → p ≤ l) }
        ensures none { result ≡ None → (p : ℕ) → times_in self.now.leaves self.now.words.items p ≡ 0 }
    {
        if self.words[0] == 0 {
            return None;
        }
        let mut node = 0;
        for _level in 0..self.levels {
            let bit = last_bit(self.words[node]);
            node = BITS * node + 1 + bit;
        }
        Some((node - self.leaves) * BITS + last_bit(self.words[node]))
    }
}

/// Flips a bit of a node, and above it the bits that say which nodes have one. If what is said of the child at that bit alone was wrong,
/// nothing is then.
fn flip_bit<A: Allocator>(words: &mut Vec<u64, A>, node: usize, bit: usize)
    requires node { node < length words.old.items }
    requires bit { bit < 64 }
    ensures said { (leaves : ℕ) → IsSaidBut leaves (64 * node + 1 + bit) words.old.items → IsSaid leaves words.new.items }
    ensures flipped { slice_index words.new.items node ≡ bit_xor (slice_index words.old.items node) (2 ^ bit) }
    ensures others { (n : ℕ) → (node - 1) / 64 < n → n ≢ node → slice_index words.new.items n ≡ slice_index words.old.items n }
    ensures length { length words.new.items ≡ length words.old.items }
{
    let was = words[node];
    let now = was ^ (1 << bit);
    words[node] = now;
    if node == 0 {
        return;
    }
    if was.min(now) > 0 {
        return;
    }
    flip_bit(words, (node - 1) / BITS, (node - 1) % BITS);
}

/// Returns the highest bit of a word that has one.
fn last_bit(word: u64) -> usize
    requires { 0 < word }
    ensures below { result < 64 }
    ensures set { bit word result ≡ 1 }
    ensures highest { (j : ℕ) → result < j → bit word j ≡ 0 }
{
    63 - word.leading_zeros() as usize
}
