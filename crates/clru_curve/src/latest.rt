//! For each request a bit, which is set if the request is the latest of its key. Bits are in blocks, and blocks without any are
//! dropped.
ghost use Rattle.std.specs.Prelude.{◌≡◌, ℕ, suc, ◌+◌, ◌%◌, ◌/◌, ◌^◌, ◌<◌, [], true, false, OnOk, IsOk, length};
ghost use Rattle.clru_curve.specs.Latest.{ones_from, blocks_from, IsLatest};
ghost use Rattle.clru_curve.specs.Rising.{has_value, EndsAt, IsRising};
ghost use Rattle.clru_curve.specs.Tree.{up_by, up_to, IsCounted};

use crate::numbered::{Numbered, place_of};
use crate::tree::{add_at, count_from, subtract_at};
use std::alloc::{AllocError, Allocator};

/// How many requests share a block.
const BITS: usize = 64;

/// How many blocks there may be more than those with bits and half as many again.
const FEW: usize = 4;

/// The blocks, and for each of them a node, which counts the bits of some blocks from its own on.
///
/// A request keeps its number, however many blocks before it are dropped. So memory goes with the bits that are set.
#[derive(Drop)]
pub(crate) struct Latest<A: Allocator> {
    pub(crate) blocks: Vec<Numbered, A>,
    pub(crate) nodes: Vec<usize, A>,
    pub(crate) requests: usize,
    // From so many blocks on, those without bits are dropped before one more is made.
    pub(crate) limit: usize,
}

impl<A: Allocator + Copy> Latest<A> {
    pub(crate) fn new(alloc: A) -> Self
        ensures kept { IsLatest result.blocks.items result.nodes.items result.requests }
        ensures blocks { result.blocks.items ≡ [] }
        ensures requests { result.requests ≡ 0 }
    {
        Latest {
            blocks: Vec::new(alloc),
            nodes: Vec::new(alloc),
            requests: 0,
            limit: FEW,
        }
    }

    /// Makes room for one more request.
    pub(crate) fn make_ready(&mut self) -> Result<(), AllocError>
        requires kept { IsLatest self.old.blocks.items self.old.nodes.items self.old.requests }
        ensures kept { IsLatest self.new.blocks.items self.new.nodes.items self.new.requests }
        ensures ones { (p : ℕ) → ones_from self.new.blocks.items p ≡ ones_from self.old.blocks.items p }
        ensures requests { self.new.requests ≡ self.old.requests }
        ensures room { OnOk result (EndsAt self.new.blocks.items (self.new.requests / 64)) }
        ensures countable { OnOk result (self.new.requests + 1 < 2 ^ 64) }
        ensures memory { 0 < self.old.requests % 64 → self.old.requests + 1 < 2 ^ 64 → IsOk result }
    {
        if self.requests == usize::MAX {
            return Err(AllocError);
        }
        if self.requests % BITS != 0 {
            return Ok(());
        }
        let number = self.requests / BITS;
        if ends_at(&self.blocks, number) {
            return Ok(());
        }
        self.drop_empty();
        let Ok(()) = self.nodes.reserve(1) else {
            return Err(AllocError);
        };
        let Ok(()) = self.blocks.push(Numbered { number, value: 0 }) else {
            return Err(AllocError);
        };
        self.nodes.push_reserved(0);
        Ok(())
    }

    /// Drops the blocks without bits, if there are many blocks. None is begun.
    fn drop_empty(&mut self)
        requires kept { IsLatest self.old.blocks.items self.old.nodes.items self.old.requests }
        requires whole { self.old.requests % 64 ≡ 0 }
        requires countable { self.old.requests + 1 < 2 ^ 64 }
        ensures kept { IsLatest self.new.blocks.items self.new.nodes.items self.new.requests }
        ensures ones { (p : ℕ) → ones_from self.new.blocks.items p ≡ ones_from self.old.blocks.items p }
        ensures rising { (high : ℕ) → IsRising 0 self.old.blocks.items high → IsRising 0 self.new.blocks.items high }
        ensures requests { self.new.requests ≡ self.old.requests }
    {
        if self.blocks.len() < self.limit {
            return;
        }
        self.blocks.retain(
            |block: &Numbered| -> bool
                ensures { result ≡ has_value block.now }
            { block.value != 0 },
        );
        let blocks = self.blocks.len();
        self.nodes.truncate(blocks);
        count_anew(&mut self.nodes, &self.blocks);
        self.limit = (blocks / 2).saturating_add(blocks).saturating_add(FEW);
    }

    /// One more request, the latest of its key.
    pub(crate) fn push(&mut self)
        requires kept { IsLatest self.old.blocks.items self.old.nodes.items self.old.requests }
        requires room { EndsAt self.old.blocks.items (self.old.requests / 64) }
        requires countable { self.old.requests + 1 < 2 ^ 64 }
        ensures kept { IsLatest self.new.blocks.items self.new.nodes.items self.new.requests }
        ensures ones { (p : ℕ) → ones_from self.new.blocks.items p
            ≡ ones_from self.old.blocks.items p + up_to p self.old.requests }
        ensures requests { self.new.requests ≡ self.old.requests + 1 }
    {
        let last = self.blocks.len() - 1;
        self.blocks[last].value += 1 << (self.requests % BITS);
        add_at(&mut self.nodes, last, 1);
        self.requests += 1;
    }

    /// The request is no longer the latest of its key. Returns how many later requests are the latest of theirs.
    pub(crate) fn remove(&mut self, request: usize) -> usize
        requires kept { IsLatest self.old.blocks.items self.old.nodes.items self.old.requests }
        requires latest { ones_from self.old.blocks.items request ≡ suc (ones_from self.old.blocks.items (suc request)) }
        ensures count { result ≡ ones_from self.old.blocks.items (suc request) }
        ensures kept { IsLatest self.new.blocks.items self.new.nodes.items self.new.requests }
        ensures ones { (p : ℕ) → ones_from self.old.blocks.items p ≡ ones_from self.new.blocks.items p + up_to p request }
        ensures requests { self.new.requests ≡ self.old.requests }
        ensures room { EndsAt self.old.blocks.items (self.old.requests / 64)
            → EndsAt self.new.blocks.items (self.new.requests / 64) }
    {
        let at = place_of(&self.blocks, request / BITS);
        let above = (self.blocks[at].value >> (request % BITS)) >> 1;
        let count = above.count_ones() as usize + count_from(&self.nodes, at + 1);
        self.blocks[at].value -= 1 << (request % BITS);
        subtract_at(&mut self.nodes, at, 1);
        count
    }
}

/// Whether the last block has this number.
fn ends_at(blocks: &[Numbered], number: usize) -> bool
    ensures yes { result ≡ true → EndsAt blocks.now number }
    ensures no { result ≡ false → EndsAt blocks.now number → ⊥ }
{
    match blocks.last() {
        Some(block) => block.number == number,
        None => false,
    }
}

/// Counts the bits of the blocks anew.
fn count_anew(nodes: &mut [usize], blocks: &[Numbered])
    requires length { length nodes.old ≡ length blocks.now }
    requires few { blocks_from blocks.now 0 < 2 ^ 64 }
    ensures length { length nodes.new ≡ length nodes.old }
    ensures counted { IsCounted (blocks_from blocks.now) nodes.new }
{
    nodes.fill(0);
    for at in 0..blocks.len() {
        add_at(nodes, at, blocks[at].value.count_ones() as usize);
    }
}
