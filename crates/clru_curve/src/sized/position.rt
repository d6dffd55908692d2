//! `SizedPositionPass`, which takes requests of keys that weigh something one by one, and holds no key.
ghost use Rattle.std.specs.Prelude.{◌≡◌, ℕ, ◌+◌, ◌^◌, ◌≤◌, ◌↔◌, List, [], ◌∷◌, reverse, Some, IfOk, IfSome, IsErrAnd, OnOk, OnErr, IsOk};
ghost use Rattle.std.specs.List.{All};
ghost use Rattle.std.specs.Map.{keys_of};
ghost use Rattle.clru_model.specs.Ages.{is_recent};
ghost use Rattle.clru_model.specs.Requests.{IsLatestOf};
ghost use Rattle.clru_model.specs.Sizes.{SameWeights, span};
ghost use Rattle.clru_curve.specs.Ahead.{HasMoved};
ghost use Rattle.clru_curve.specs.LatestSizes.{IsLiveAt};
ghost use Rattle.clru_curve.specs.Rising.{IsRising};
ghost use Rattle.clru_curve.specs.Seen.{reuse_by};
ghost use Rattle.clru_curve.specs.SizedCurves.{IsSizedCurveOf};
ghost use Rattle.clru_curve.specs.SizedIdlePasses.{IsSizedIdleCurveOf};
ghost use Rattle.clru_curve.specs.SizedPasses.{IsTooLarge};
ghost use Rattle.clru_curve.specs.SizedPositionPasses.{IsSizedPositionPass};

use crate::pass::copied;
use crate::sized::curve::SizedCurve;
use crate::sized::error::SizedRequestError;
use crate::sized::hints::Hints;
use crate::sized::idle::hit_if;
use crate::sized::pass::greater;
use crate::sized::sizes::Sizes;
use crate::sized::step::Step;
use clru_list::NoMemory;
use std::alloc::{Allocator, Global};
use std::marker::{Model, PhantomData};

/// A pass over requests of keys that weigh something, which holds no key. It takes for each request the position of the latest
/// request of its key, whether that came within an idle limit, and the weight of the key, and returns its span, as a
/// [`SizedIdlePass`](crate::SizedIdlePass) does. So several passes, as one for each class of keys and one for all, can share one
/// table of keys.
///
/// Equal keys must weigh the same each time, and `request` requires it. Clauses describe the requests that it has taken under a
/// limit, the latest first, each with its time, by `IsSizedPositionPass`. Without times each has the time 0, and each reuse comes
/// soon enough.
///
/// Takes the memory of a `SizedPass` but for its hash table, and a kilobyte for announced requests.
pub struct SizedPositionPass<K: Eq, A: Allocator + Copy = Global> {
    pub(crate) latest: Sizes<A>,
    // For each request that can hit, from which capacity on it does, and its own size, which is missed below.
    hits: Vec<Step, A>,
    pub(crate) size: usize,
    greatest: usize,
    hints: Hints,
    keys: PhantomData<K>,
}

impl<K: Eq, A: Allocator + Copy> Drop for SizedPositionPass<K, A> {
    fn drop(self) {
        let SizedPositionPass {
            latest,
            hits,
            size: _,
            greatest: _,
            hints: _,
            keys: _,
        } = self;
        drop(latest);
        drop(hits);
    }
}

impl<K: Eq, A: Allocator + Copy> Model for SizedPositionPass<K, A> {
    ghost use Rattle.clru_curve.specs.SizedPositionPasses.{CountedBySize, counted_by_size, counted_by_size_code, IsSoundCountedBySize};

    ghost Value = { CountedBySize };

    ghost coded = { counted_by_size_code };

    ghost view = { λ p. counted_by_size p.latest.sizes.items p.latest.requests p.hits.items p.size p.greatest };

    ghost invariant = { λ p. IsSoundCountedBySize p.latest.nodes.items
        (counted_by_size p.latest.sizes.items p.latest.requests p.hits.items p.size p.greatest) };
}

impl<K: Eq, A: Allocator + Copy> SizedPositionPass<K, A> {
    /// Creates a pass that has taken no request.
    /// Cost: no request for memory.
    pub fn new(alloc: A) -> Self
        ensures { (w : K → ℕ) (idle : ℕ) → IsSizedPositionPass K.eq w idle [] result }
    {
        SizedPositionPass {
            latest: Sizes::new(alloc),
            hits: Vec::new(alloc),
            size: 0,
            greatest: 0,
            hints: Hints::new(),
            keys: PhantomData,
        }
    }

    /// Takes one more request, of a key of this weight, and returns its span, or `None` if its key was not requested before, or too
    /// long ago. `latest` is the position of the latest request of its key, which is how many came before that one, or `None` if
    /// its key was not requested before. `soon` says whether there was one and it came within the limit. If each key fits, the
    /// request hits at the capacities from the span on, and at no other.
    ///
    /// If memory is refused, or the sizes of all requests with this one exceed `usize::MAX`, the pass is unchanged.
    /// Cost: steps that grow as the logarithm of the number of requests.
    pub fn request(
        &mut self,
        latest: Option<usize>,
        soon: bool,
        weight: usize,
    ) -> Result<Option<usize>, SizedRequestError<()>>
        requires { (w : K → ℕ) × (idle : ℕ) × (past : List (K × ℕ)) × (key : K) × (time : ℕ) × SameWeights K.eq w
            × IsSizedPositionPass K.eq w idle past self.old × (w key ≡ weight)
            × IsLatestOf K.eq (keys_of past) key latest × (soon ≡ is_recent K.eq (Some idle) (key, time) past) }
        ensures span { (w : K → ℕ) (idle : ℕ) (past : List (K × ℕ)) (key : K) (time : ℕ) → SameWeights K.eq w
            → IsSizedPositionPass K.eq w idle past self.old → w key ≡ weight
            → IsLatestOf K.eq (keys_of past) key latest → soon ≡ is_recent K.eq (Some idle) (key, time) past
            → IfOk result (λ s. s ≡ reuse_by K.eq (span K.eq w) idle (key, time) past) }
        ensures taken { (w : K → ℕ) (idle : ℕ) (past : List (K × ℕ)) (key : K) (time : ℕ) → SameWeights K.eq w
            → IsSizedPositionPass K.eq w idle past self.old → w key ≡ weight
            → IsLatestOf K.eq (keys_of past) key latest → soon ≡ is_recent K.eq (Some idle) (key, time) past
            → OnOk result (IsSizedPositionPass K.eq w idle ((key, time) ∷ past) self.new) }
        ensures size { OnOk result (self.new.size ≡ self.old.size + (1 + weight)) }
        ensures refused { OnErr result (self.new ≡ self.old) }
        ensures too_large { IsErrAnd result IsTooLarge ↔ (2 ^ 64 ≤ self.old.size + (1 + weight)) }
    {
        let hint = self.hints.pass();
        let likely = self.likely(latest, hint);
        self.count(latest, soon, weight, likely)
    }

    /// Announces the requests that follow those announced before, and reads ahead what they probably need. `latest` has for each the position
    /// of the latest request of its key, or a guess, and `None` if the key is probably new. This only saves time: the pass stays as it is,
    /// whatever comes instead. Of those to come the first 128 are remembered.
    /// Cost: a few reads for each.
    pub fn announce(&mut self, latest: &[Option<usize>])
        ensures { self.new ≡ self.old }
    {
        let places = self.latest.read_ahead(latest);
        self.hints.push(&places, latest.len());
    }

    /// Where the size of this request is likely to stand, for `count`: at the hint, if it stands there. Reads of several such places do not
    /// wait for one another.
    pub(crate) fn likely(&self, latest: Option<usize>, hint: usize) -> usize
        ensures rising { IsRising 0 self.now.sizes self.now.requests }
    {
        match latest {
            Some(position) => self.latest.likely_by(position, hint),
            None => 0,
        }
    }

    /// Does what `request` does, also where equal keys weigh differently. Only the time depends on the likely place.
    pub(crate) fn count(
        &mut self,
        latest: Option<usize>,
        soon: bool,
        weight: usize,
        likely: usize,
    ) -> Result<Option<usize>, SizedRequestError<()>>
        requires live { IfSome latest (λ p. IsLiveAt self.old.sizes p) }
        ensures span { (w : K → ℕ) (idle : ℕ) (past : List (K × ℕ)) (key : K) (time : ℕ) → SameWeights K.eq w
            → IsSizedPositionPass K.eq w idle past self.old → w key ≡ weight
            → IsLatestOf K.eq (keys_of past) key latest → soon ≡ is_recent K.eq (Some idle) (key, time) past
            → IfOk result (λ s. s ≡ reuse_by K.eq (span K.eq w) idle (key, time) past) }
        ensures taken { (w : K → ℕ) (idle : ℕ) (past : List (K × ℕ)) (key : K) (time : ℕ) → SameWeights K.eq w
            → IsSizedPositionPass K.eq w idle past self.old → w key ≡ weight
            → IsLatestOf K.eq (keys_of past) key latest → soon ≡ is_recent K.eq (Some idle) (key, time) past
            → OnOk result (IsSizedPositionPass K.eq w idle ((key, time) ∷ past) self.new) }
        ensures moved { OnOk result (HasMoved latest self.old self.new) }
        ensures size { OnOk result (self.new.size ≡ self.old.size + (1 + weight)) }
        ensures refused { OnErr result (self.new ≡ self.old) }
        ensures too_large { IsErrAnd result IsTooLarge ↔ (2 ^ 64 ≤ self.old.size + (1 + weight)) }
    {
        if weight >= usize::MAX - self.size {
            return Err(SizedRequestError::TooLarge(()));
        }
        let size = weight + 1;
        let greatest = greater(self.greatest, weight);
        let Ok(()) = self.latest.make_ready(size) else {
            return Err(SizedRequestError::NoMemory(()));
        };
        match latest {
            Some(position) => {
                let Ok(()) = self.hits.reserve(1) else {
                    return Err(SizedRequestError::NoMemory(()));
                };
                let span = self.latest.remove(position, likely);
                self.latest.push(size);
                self.latest.drop_empty();
                self.size += size;
                self.greatest = greatest;
                Ok(hit_if(&mut self.hits, soon, span, size))
            }
            None => {
                self.latest.push(size);
                self.size += size;
                self.greatest = greatest;
                Ok(None)
            }
        }
    }

    /// Returns the curve of the requests so far.
    /// Cost: a sort of the spans, and a step for each size; no request for memory.
    pub fn into_curve(self) -> SizedCurve<A>
        ensures curve { (w : K → ℕ) (idle : ℕ) (past : List (K × ℕ)) → IsSizedPositionPass K.eq w idle past self
            → IsSizedIdleCurveOf K.eq w idle (reverse past) result }
        ensures timeless { (w : K → ℕ) (idle : ℕ) (past : List (K × ℕ)) → SameWeights K.eq w → All (λ r. r.1 ≡ 0) past
            → IsSizedPositionPass K.eq w idle past self → IsSizedCurveOf K.eq w (reverse (keys_of past)) result }
    {
        let SizedPositionPass {
            latest,
            hits,
            size,
            greatest,
            hints: _,
            keys: _,
        } = self;
        SizedCurve::from_hits(hits, latest.requests, size, latest.total(), greatest)
    }

    /// Returns the curve of the requests so far, and lets the pass go on.
    /// Cost: a sort of the spans, and a step for each size; one request for memory, of two numbers for each hit that is possible, and
    /// none without hits.
    pub fn curve(&self, alloc: A) -> Result<SizedCurve<A>, NoMemory>
        ensures curve { (w : K → ℕ) (idle : ℕ) (past : List (K × ℕ)) → IsSizedPositionPass K.eq w idle past self.now
            → IfOk result (λ c. IsSizedIdleCurveOf K.eq w idle (reverse past) c) }
        ensures timeless { (w : K → ℕ) (idle : ℕ) (past : List (K × ℕ)) → SameWeights K.eq w → All (λ r. r.1 ≡ 0) past
            → IsSizedPositionPass K.eq w idle past self.now → IfOk result (λ c. IsSizedCurveOf K.eq w (reverse (keys_of past)) c) }
        ensures never_refused { (w : K → ℕ) (idle : ℕ) → IsSizedPositionPass K.eq w idle [] self.now → IsOk result }
    {
        let Ok(hits) = copied(alloc, &self.hits) else {
            return Err(NoMemory);
        };
        Ok(SizedCurve::from_hits(
            hits,
            self.latest.requests,
            self.size,
            self.latest.total(),
            self.greatest,
        ))
    }
}
