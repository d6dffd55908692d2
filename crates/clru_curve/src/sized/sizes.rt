//! For each key the number of its latest request and its size. Sizes of earlier requests are 0, and are dropped now and then.
ghost use Rattle.std.specs.Prelude.{◌≡◌, ℕ, suc, ◌+◌, ◌*◌, ◌^◌, ◌<◌, ◌≤◌, List, [], ◌∷◌, ◌++◌, length, slice_set, OnOk};
ghost use Rattle.clru_curve.specs.LatestSizes.{AreSums, IsRemoved, IsSummed, live_from, sizes_from, total_from};
ghost use Rattle.clru_curve.specs.declared.numbered.Numbered.{Numbered};
ghost use Rattle.clru_curve.specs.Rising.{numbered, value_at};
ghost use Rattle.clru_curve.specs.SizeLists.{HasRoom};

use crate::ahead::AHEAD;
use crate::sized::guide::Guide;
use crate::sized::size_list::{BLOCK, SizeList};
use crate::tree::{add_at, count_from, subtract_at};
use std::alloc::{AllocError, Allocator};

/// How many sizes there may be beyond half as many again as were not 0 when they were last looked through.
const FEW: usize = 64;

/// The sizes by the numbers of their requests, and for each eight of them a node of the tree above their sums.
///
/// A block comes into the tree when it is full. The first node is above none, so until then it holds the sum of that block.
/// Sizes are dropped, not renumbered: a request keeps its number. So memory goes with the keys.
#[derive(Drop)]
pub(crate) struct Sizes<A: Allocator> {
    pub(crate) sizes: SizeList<A>,
    pub(crate) nodes: Vec<usize, A>,
    pub(crate) requests: usize,
    // From so many sizes on, those that are 0 are dropped.
    limit: usize,
    guide: Guide<A>,
}

impl<A: Allocator + Copy> Sizes<A> {
    pub(crate) fn new(alloc: A) -> Self
        ensures kept { IsSummed result.sizes.items result.nodes.items result.requests }
        ensures sizes { result.sizes.items ≡ [] }
        ensures requests { result.requests ≡ 0 }
    {
        Sizes {
            sizes: SizeList::new(alloc),
            nodes: Vec::new(alloc),
            requests: 0,
            limit: FEW,
            guide: Guide::new(alloc),
        }
    }

    /// Makes room for one more request, of a key of this size. If memory is refused, the sizes stay.
    pub(crate) fn make_ready(&mut self, size: usize) -> Result<(), AllocError>
        requires kept { IsSummed self.old.sizes.items self.old.nodes.items self.old.requests }
        ensures kept { IsSummed self.new.sizes.items self.new.nodes.items self.new.requests }
        ensures sizes { self.new.sizes.items ≡ self.old.sizes.items }
        ensures requests { self.new.requests ≡ self.old.requests }
        ensures room { OnOk result (HasRoom self.new.sizes self.new.requests size) }
        ensures node { OnOk result (length self.new.sizes.items < 8 * length self.new.nodes.items) }
    {
        let Ok(()) = self.sizes.make_room(self.requests.max(size)) else {
            return Err(AllocError);
        };
        if self.sizes.len() / BLOCK < self.nodes.len() {
            return Ok(());
        }
        let Ok(()) = self.guide.make_ready(self.nodes.len()) else {
            return Err(AllocError);
        };
        let Ok(()) = self.nodes.push(0) else {
            return Err(AllocError);
        };
        Ok(())
    }

    /// One more request, the latest of a key of this size.
    pub(crate) fn push(&mut self, size: usize)
        requires kept { IsSummed self.old.sizes.items self.old.nodes.items self.old.requests }
        requires room { HasRoom self.old.sizes self.old.requests size }
        requires node { length self.old.sizes.items < 8 * length self.old.nodes.items }
        requires fits { sizes_from self.old.sizes.items 0 + size < 2 ^ 64 }
        requires countable { self.old.requests + 1 < 2 ^ 64 }
        ensures kept { IsSummed self.new.sizes.items self.new.nodes.items self.new.requests }
        ensures sizes { self.new.sizes.items ≡ self.old.sizes.items ++ numbered self.old.requests size ∷ [] }
        ensures requests { self.new.requests ≡ self.old.requests + 1 }
    {
        let at = self.sizes.len();
        self.sizes.push_reserved(self.requests, size);
        add_size(&mut self.nodes, at, size);
        self.requests += 1;
    }

    /// The place where the size of a request is, or `usize::MAX` if the guide does not know it. Reads of several such places do not
    /// wait for one another.
    pub(crate) fn likely(&self, request: usize) -> usize {
        let place = self.guide.likely(request);
        if self.sizes.is_at(request, place) {
            place
        } else {
            usize::MAX
        }
    }

    /// The hint, if the size stands there, and else what `likely` returns.
    pub(crate) fn likely_by(&self, request: usize, hint: usize) -> usize {
        if self.sizes.is_at(request, hint) {
            hint
        } else {
            self.likely(request)
        }
    }

    /// The places where the sizes of the first of these requests are, or `usize::MAX` where that is not known or in a block that is not full.
    /// All are guessed before the first is read, so that no read waits for another.
    pub(crate) fn read_ahead(&self, requests: &[Option<usize>]) -> [usize; AHEAD] {
        let mut places = [usize::MAX; AHEAD];
        let count = requests.len().min(AHEAD);
        for at in 0..count {
            if let Some(request) = requests[at] {
                places[at] = self.guide.likely(request);
            }
        }
        for at in 0..count {
            if let Some(request) = requests[at] {
                places[at] = self.sizes.read_block(request, places[at]);
            }
        }
        places
    }

    /// The request is no longer the latest of its key. Returns its size and those of all later requests that are the latest of
    /// theirs. Only the time depends on the likely place.
    pub(crate) fn remove(&mut self, request: usize, likely: usize) -> usize
        requires kept { IsSummed self.old.sizes.items self.old.nodes.items self.old.requests }
        requires live { live_from self.old.sizes.items request ≡ suc (live_from self.old.sizes.items (suc request)) }
        requires fits { sizes_from self.old.sizes.items 0 < 2 ^ 64 }
        ensures total { result ≡ total_from self.old.sizes.items request }
        ensures kept { IsSummed self.new.sizes.items self.new.nodes.items self.new.requests }
        ensures removed { IsRemoved self.old.sizes.items request self.new.sizes.items }
        ensures requests { self.new.requests ≡ self.old.requests }
        ensures room { (number size : ℕ) → HasRoom self.old.sizes number size → HasRoom self.new.sizes number size }
        ensures nodes { length self.new.nodes.items ≡ length self.old.nodes.items }
    {
        let at = self.sizes.place_near(request, likely);
        let total = self.sum_from(at);
        let size = self.sizes.value(at);
        self.sizes.empty(at);
        subtract_size(&mut self.nodes, self.sizes.len(), at, size);
        total
    }

    /// The sum of the sizes from this place on.
    fn sum_from(&self, at: usize) -> usize
        requires kept { IsSummed self.now.sizes.items self.now.nodes.items self.now.requests }
        requires before { at < length self.now.sizes.items }
        requires fits { sizes_from self.now.sizes.items 0 < 2 ^ 64 }
        ensures { result ≡ sizes_from self.now.sizes.items at }
    {
        let block = at / BLOCK;
        if block < self.sizes.len() / BLOCK {
            self.sizes.sum_of_rest(at) + count_from(&self.nodes, block + 1) + self.nodes[0]
        } else {
            self.sizes.sum_between(at, self.sizes.len())
        }
    }

    /// Drops the sizes that are 0, if there are many sizes.
    pub(crate) fn drop_empty(&mut self)
        requires kept { IsSummed self.old.sizes.items self.old.nodes.items self.old.requests }
        requires fits { sizes_from self.old.sizes.items 0 < 2 ^ 64 }
        ensures kept { IsSummed self.new.sizes.items self.new.nodes.items self.new.requests }
        ensures totals { (t : ℕ) → total_from self.new.sizes.items t ≡ total_from self.old.sizes.items t }
        ensures live { (t : ℕ) → live_from self.new.sizes.items t ≡ live_from self.old.sizes.items t }
        ensures requests { self.new.requests ≡ self.old.requests }
    {
        let sizes = self.sizes.len();
        // (the limit is never 0, but no clause says so)
        if sizes == 0 || sizes < self.limit {
            return;
        }
        self.sizes.drop_empty();
        let sizes = self.sizes.len();
        self.nodes.truncate(sizes / BLOCK + 1);
        sum_anew(&mut self.nodes, &self.sizes);
        self.guide.learn(&self.sizes, self.requests);
        self.limit = (sizes / 2).saturating_add(sizes).saturating_add(FEW);
    }

    /// The sizes of all keys.
    pub(crate) fn total(&self) -> usize
        requires fits { sizes_from self.now.sizes.items 0 < 2 ^ 64 }
        ensures { result ≡ sizes_from self.now.sizes.items 0 }
    {
        self.sizes.sum_between(0, self.sizes.len())
    }
}

/// One more size at the end, at this place.
fn add_size(nodes: &mut [usize], at: usize, size: usize)
    requires inside { at < 8 * length nodes.old }
    requires sums { (ss : List Numbered) × (length ss ≡ at) × (sizes_from ss 0 + size < 2 ^ 64) × AreSums ss nodes.old }
    ensures length { length nodes.new ≡ length nodes.old }
    ensures sums { (ss : List Numbered) (m : ℕ) → length ss ≡ at → AreSums ss nodes.old
        → AreSums (ss ++ numbered m size ∷ []) nodes.new }
{
    let sum = nodes[0] + size;
    if at % BLOCK < BLOCK - 1 {
        nodes[0] = sum;
    } else {
        add_at(nodes, at / BLOCK, sum);
        nodes[0] = 0;
    }
}

/// Of so many sizes the one at this place is 0 now.
fn subtract_size(nodes: &mut [usize], count: usize, at: usize, size: usize)
    requires inside { at < count }
    requires covers { count ≤ 8 * length nodes.old }
    requires sums { (ss : List Numbered) × (length ss ≡ count) × (value_at ss at ≡ size) × AreSums ss nodes.old }
    ensures length { length nodes.new ≡ length nodes.old }
    ensures sums { (ss : List Numbered) (m : ℕ) → length ss ≡ count → value_at ss at ≡ size → AreSums ss nodes.old
        → AreSums (slice_set ss at (numbered m 0)) nodes.new }
{
    if at / BLOCK < count / BLOCK {
        subtract_at(nodes, at / BLOCK, size);
    } else {
        nodes[0] -= size;
    }
}

/// Sums the sizes of each block anew.
fn sum_anew<A: Allocator + Copy>(nodes: &mut [usize], sizes: &SizeList<A>)
    requires covers { length sizes.now.items ≤ 8 * length nodes.old }
    requires some { 0 < length nodes.old }
    requires fits { sizes_from sizes.now.items 0 < 2 ^ 64 }
    ensures length { length nodes.new ≡ length nodes.old }
    ensures sums { AreSums sizes.now.items nodes.new }
{
    nodes.fill(0);
    let full = sizes.len() / BLOCK * BLOCK;
    let mut at = 0;
    while at < full {
        let block = at / BLOCK;
        let end = ((block + 1) * BLOCK).min(full);
        add_at(nodes, block, sizes.sum_between(at, end));
        at = end;
    }
    nodes[0] = sizes.sum_between(full, sizes.len());
}
