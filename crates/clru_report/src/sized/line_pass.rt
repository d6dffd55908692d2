//! `SizedLinePass`, which takes lines with sizes one by one.
ghost use Rattle.std.specs.Prelude.{◌≡◌, List, [], ◌∷◌, reverse, IfOk, OnOk};
ghost use Rattle.clru_curve.specs.SizedCurves.{IsSizedCurveOf};
ghost use Rattle.clru_model.specs.Requests.{IsLatestOf};
ghost use Rattle.clru_text.specs.Keys.{line_of, same_line};
ghost use Rattle.clru_text.specs.Sizes.{weight_of_line};
ghost use Rattle.clru_text.specs.declared.lines.OwnedKey.{OwnedKey};
ghost use Rattle.clru_report.specs.Passes.{weight_of_key};
ghost use Rattle.clru_report.specs.SizedLinePasses.{IsSizedLinePass};

use crate::prefetch::prefetch;
use clru_curve::{NoMemory, SizedCurve, SizedPositionPass};
use clru_linked_map::BytesMap;
use clru_text::OwnedKey;
use std::alloc::Allocator;
use std::hash::BuildHasher;

/// How many lines are looked up at a time: fewer than by keys, since for each a block of sizes is read too.
const AHEAD: usize = 32;

/// A pass over lines as objects with sizes. One table has the bytes of each distinct line and the position of its latest request, so a
/// line costs one look-up, and a new line has no allocation of its own.
#[derive(Drop)]
pub(super) struct SizedLinePass<S: BuildHasher, A: Allocator + Copy> {
    latest: BytesMap<usize, S, A>,
    pass: SizedPositionPass<OwnedKey<A>, A>,
    requests: usize,
    // How many lines were looked up and are not taken yet.
    ahead: usize,
}

impl<S: BuildHasher, A: Allocator + Copy> SizedLinePass<S, A> {
    /// Creates a pass that has taken no line.
    /// Cost: no request for memory.
    pub(super) fn new(alloc: A, hash_builder: S) -> Self
        ensures { IsSizedLinePass [] result }
    {
        SizedLinePass {
            latest: BytesMap::new(alloc, hash_builder),
            pass: SizedPositionPass::new(alloc),
            requests: 0,
            ahead: 0,
        }
    }

    /// Takes one more line, of this weight, and returns the position of its latest request: how many lines came before that one. Returns
    /// `None` if the line is new.
    ///
    /// `behind` is what was read behind the line; its lines may be looked up ahead.
    ///
    /// If memory is refused, there were `usize::MAX` lines, or their sizes exceed `usize::MAX` together, no more can be said of the pass.
    /// Cost: that of `BytesMap::insert`, and of `prefetch`, and steps that grow as the logarithm of the number of lines.
    pub(super) fn take(
        &mut self,
        key: &OwnedKey<A>,
        weight: usize,
        behind: &[u8],
    ) -> Result<Option<usize>, NoMemory>
        requires weight { weight ≡ weight_of_line (line_of key.now) }
        requires taken { (past : List (OwnedKey A)) × IsSizedLinePass past self.old }
        ensures latest { (past : List (OwnedKey A)) → IsSizedLinePass past self.old → IfOk result (IsLatestOf same_line past key.now) }
        ensures taken { (past : List (OwnedKey A)) → IsSizedLinePass past self.old → OnOk result (IsSizedLinePass (key.now ∷ past) self.new) }
    {
        let Some(requests) = self.requests.checked_add(1) else {
            return Err(NoMemory);
        };
        let latest = self.latest.insert(&key.0, self.requests)?;
        let left = self.ahead;
        self.ahead = prefetch(&mut self.latest, left, behind, AHEAD)?;
        // (without times each reuse comes soon enough)
        let Ok(_) = self.pass.request(latest, latest.is_some(), weight) else {
            return Err(NoMemory);
        };
        let fresh = if left <= 1 { self.ahead } else { 0 };
        announce(&mut self.pass, &self.latest, fresh);
        self.requests = requests;
        Ok(latest)
    }

    /// Returns the curve of the lines so far, and lets the pass go on.
    /// Cost: that of `SizedPositionPass::curve`.
    pub(super) fn curve(&self, alloc: A) -> Result<SizedCurve<A>, NoMemory>
        ensures { (past : List (OwnedKey A)) → IsSizedLinePass past self.now
            → IfOk result (IsSizedCurveOf same_line weight_of_key (reverse past)) }
    {
        self.pass.curve(alloc)
    }

    /// Does what `curve` does, when no line follows. The lines are dropped first.
    /// Cost: that of `SizedPositionPass::into_curve`.
    pub(super) fn into_curve(self) -> SizedCurve<A>
    where
        S: Drop,
        ensures { (past : List (OwnedKey A)) → IsSizedLinePass past self → IsSizedCurveOf same_line weight_of_key (reverse past) result }
    {
        let SizedLinePass {
            latest,
            pass,
            requests: _,
            ahead: _,
        } = self;
        drop(latest);
        pass.into_curve()
    }
}

/// Announces so many lines that were looked up together to the pass, which reads their sizes ahead.
fn announce<S: BuildHasher, A: Allocator + Copy>(
    pass: &mut SizedPositionPass<OwnedKey<A>, A>,
    lines: &BytesMap<usize, S, A>,
    count: usize,
)
    ensures { pass.new ≡ pass.old }
{
    // (mostly so, and then no array is filled)
    if count == 0 {
        return;
    }
    let mut latest = [None; AHEAD];
    let count = count.min(AHEAD);
    for number in 0..count {
        latest[number] = lines.announced_value(number);
    }
    pass.announce(&latest[..count]);
}
