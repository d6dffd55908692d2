//! `LinePass`, which takes lines one by one.
ghost use Rattle.std.specs.Prelude.{◌≡◌, ℕ, List, [], ◌∷◌, ◌++◌, Some, length, map, reverse, bytes_eq, IfOk, OnOk};
ghost use Rattle.std.specs.List.{slice_get};
ghost use Rattle.clru_curve.specs.Curves.{HasMissesOf};
ghost use Rattle.clru_model.specs.Parts.{firsts, lasts};
ghost use Rattle.clru_model.specs.Requests.{IsLatestOf, distinct};
ghost use Rattle.clru_text.specs.Keys.{line_of, same_line};
ghost use Rattle.clru_text.specs.Texts.{bytes_of};
ghost use Rattle.clru_text.specs.declared.lines.OwnedKey.{OwnedKey};
ghost use Rattle.clru_report.specs.LinePasses.{IsInOrder, IsLinePass};

use crate::prefetch::prefetch;
use clru_curve::{MissCurve, NoMemory, PositionPass};
use clru_linked_map::BytesMap;
use clru_text::OwnedKey;
use std::alloc::Allocator;
use std::hash::BuildHasher;

/// How many lines are looked up at a time. What is read ahead for more does not fit the processor's first cache.
const AHEAD: usize = 64;

/// A pass over lines as keys. One table has the bytes of each distinct line and the position of its latest request, so a line costs
/// one look-up, and a new line has no allocation of its own.
#[derive(Drop)]
pub(crate) struct LinePass<S: BuildHasher, A: Allocator + Copy> {
    latest: BytesMap<usize, S, A>,
    pass: PositionPass<OwnedKey<A>, A>,
    requests: usize,
    // How many lines were looked up and are not taken yet.
    ahead: usize,
}

impl<S: BuildHasher, A: Allocator + Copy> LinePass<S, A> {
    /// Creates a pass that has taken no line.
    /// Cost: no request for memory.
    pub(crate) fn new(alloc: A, hash_builder: S) -> Self
        ensures { IsLinePass [] result }
    {
        LinePass {
            latest: BytesMap::new(alloc, hash_builder),
            pass: PositionPass::new(alloc),
            requests: 0,
            ahead: 0,
        }
    }

    /// Takes one more line, and returns the position of its latest request: how many lines came before that one. Returns `None` if the
    /// line is new.
    ///
    /// `behind` is what was read behind the line; its lines may be looked up ahead.
    ///
    /// If memory is refused, or there were `usize::MAX` lines, no more can be said of the pass.
    /// Cost: that of `BytesMap::insert`, and of `prefetch`, and steps that grow as the logarithm of the number of lines.
    pub(crate) fn take(
        &mut self,
        key: &OwnedKey<A>,
        behind: &[u8],
    ) -> Result<Option<usize>, NoMemory>
        requires { (past : List (OwnedKey A)) × IsLinePass past self.old }
        ensures latest { (past : List (OwnedKey A)) → IsLinePass past self.old → IfOk result (IsLatestOf same_line past key.now) }
        ensures taken { (past : List (OwnedKey A)) → IsLinePass past self.old → OnOk result (IsLinePass (key.now ∷ past) self.new) }
    {
        let Some(requests) = self.requests.checked_add(1) else {
            return Err(NoMemory);
        };
        let latest = self.latest.insert(&key.0, self.requests)?;
        self.ahead = prefetch(&mut self.latest, self.ahead, behind, AHEAD)?;
        // (without times each reuse comes soon enough)
        self.pass.request(latest, latest.is_some())?;
        self.requests = requests;
        Ok(latest)
    }

    /// Returns the first request for each distinct line, in order, as lines with their newlines.
    /// Cost: a copy of these lines; requests for memory as the text grows.
    pub(crate) fn firsts(&self, alloc: A) -> Result<Vec<u8, A>, NoMemory>
        ensures { (past : List (OwnedKey A)) → IsLinePass past self.now
            → IfOk result (λ text. text.items ≡ bytes_of (firsts bytes_eq (map line_of (reverse past)))) }
    {
        let mut text = Vec::new(alloc);
        for index in 0..self.latest.len() {
            push_line(&mut text, &self.latest, index)?;
        }
        Ok(text)
    }

    /// Returns the latest request for each distinct line, in order, as lines with their newlines.
    /// Cost: a sort of their positions and a copy of these lines; two numbers for each of them, and requests for memory as the text grows.
    pub(crate) fn lasts(&self, alloc: A) -> Result<Vec<u8, A>, NoMemory>
        ensures { (past : List (OwnedKey A)) → IsLinePass past self.now
            → IfOk result (λ text. text.items ≡ bytes_of (lasts bytes_eq (map line_of (reverse past)))) }
    {
        let order = latest_order(alloc, &self.latest)?;
        let mut text = Vec::new(alloc);
        for line in &order {
            push_line(&mut text, &self.latest, line.index)?;
        }
        Ok(text)
    }

    /// Returns the curve of the lines so far, and lets the pass go on.
    /// Cost: a step for each distinct line; one request for memory, of a number for each, and none without lines.
    pub(crate) fn curve(&self, alloc: A) -> Result<MissCurve<A>, NoMemory>
        ensures misses { (past : List (OwnedKey A)) → IsLinePass past self.now
            → IfOk result (HasMissesOf same_line (reverse past)) }
        ensures distinct { (past : List (OwnedKey A)) → IsLinePass past self.now
            → IfOk result (λ curve. length curve ≡ distinct same_line past) }
    {
        self.pass.curve(alloc)
    }

    /// Returns the curve of the lines so far.
    /// Cost: a step for each distinct line; no request for memory.
    pub(crate) fn into_curve(self) -> MissCurve<A>
    where
        S: Drop,
        ensures misses { (past : List (OwnedKey A)) → IsLinePass past self → HasMissesOf same_line (reverse past) result }
        ensures distinct { (past : List (OwnedKey A)) → IsLinePass past self → length result ≡ distinct same_line past }
    {
        let LinePass {
            latest: _,
            pass,
            requests: _,
            ahead: _,
        } = self;
        pass.into_curve()
    }
}

/// The latest position of a distinct line, and how many others came first.
#[derive(Clone, Copy)]
struct Latest {
    position: usize,
    index: usize,
}

/// The distinct lines by their latest positions.
fn latest_order<S: BuildHasher, A: Allocator + Copy>(
    alloc: A,
    latest: &BytesMap<usize, S, A>,
) -> Result<Vec<Latest, A>, NoMemory>
    ensures { IfOk result (λ order. IsInOrder latest.now order.items) }
{
    let mut order = Vec::new(alloc);
    for index in 0..latest.len() {
        if let Some((_, position)) = latest.get_index(index) {
            let Ok(()) = order.push(Latest { position, index }) else {
                return Err(NoMemory);
            };
        }
    }
    order.sort_unstable_by_key(|line| line.position);
    Ok(order)
}

/// Writes a line of the map and its newline.
fn push_line<S: BuildHasher, A: Allocator + Copy>(
    text: &mut Vec<u8, A>,
    lines: &BytesMap<usize, S, A>,
    index: usize,
) -> Result<(), NoMemory>
    ensures { (line : List ℕ × ℕ) → slice_get (reverse lines.now) index ≡ Some line
        → OnOk result (text.new.items ≡ text.old.items ++ line.0 ++ 10 ∷ []) }
{
    if let Some((line, _)) = lines.get_index(index) {
        let Ok(()) = text.extend_from_slice(line) else {
            return Err(NoMemory);
        };
        let Ok(()) = text.push(b'\n') else {
            return Err(NoMemory);
        };
    }
    Ok(())
}
