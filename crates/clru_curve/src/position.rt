//! `PositionPass`, which takes requests one by one and holds no key.
ghost use Rattle.std.specs.Prelude.{◌≡◌, ℕ, ◌+◌, ◌%◌, ◌^◌, ◌<◌, List, [], ◌∷◌, length, reverse, Option, Some, is_some, true, IfOk, OnOk, OnErr, IsOk};
ghost use Rattle.std.specs.List.{All};
ghost use Rattle.std.specs.Map.{keys_of};
ghost use Rattle.clru_model.specs.Ages.{is_recent};
ghost use Rattle.clru_model.specs.Distances.{distance};
ghost use Rattle.clru_model.specs.Requests.{IsLatestOf, distinct};
ghost use Rattle.clru_curve.specs.Curves.{HasMissesOf};
ghost use Rattle.clru_curve.specs.IdlePasses.{HasIdleMissesOf};
ghost use Rattle.clru_curve.specs.PositionPasses.{IsPositionPass};
ghost use Rattle.clru_curve.specs.Seen.{reuse_by};

use crate::curve::MissCurve;
use crate::idle::count_if;
use crate::latest::Latest;
use crate::pass::{copied, misses_of};
use clru_list::NoMemory;
use std::alloc::{Allocator, Global};
use std::marker::{Model, PhantomData};

/// A pass over requests that holds no key. It takes for each request the position of the latest request of its key, and whether that
/// came within an idle limit, and returns its distance, as an `IdlePass` does. So several passes, as one for each class of keys and one
/// for all, can share one table of keys.
///
/// Clauses describe the requests that it has taken under a limit, the latest first, each with its time, by `IsPositionPass`. Without
/// times each has the time 0, and each reuse comes soon enough.
///
/// Takes the memory of a `DistancePass` but for its hash table.
pub struct PositionPass<K: Eq, A: Allocator + Copy = Global> {
    latest: Latest<A>,
    histogram: Vec<usize, A>,
    keys: PhantomData<K>,
}

impl<K: Eq, A: Allocator + Copy> Drop for PositionPass<K, A> {
    fn drop(self) {
        let PositionPass {
            latest,
            histogram,
            keys: _,
        } = self;
        drop(latest);
        drop(histogram);
    }
}

impl<K: Eq, A: Allocator + Copy> Model for PositionPass<K, A> {
    ghost use Rattle.clru_curve.specs.PositionPasses.{Counted, counted, counted_code, IsSoundCounted};

    ghost Value = { Counted };

    ghost coded = { counted_code };

    ghost view = { λ p. counted p.latest.blocks.items p.latest.requests p.histogram.items };

    ghost invariant = { λ p. IsSoundCounted K.eq p.latest.nodes.items
        (counted p.latest.blocks.items p.latest.requests p.histogram.items) };
}

impl<K: Eq, A: Allocator + Copy> PositionPass<K, A> {
    /// Creates a pass that has taken no request.
    /// Cost: no request for memory.
    pub fn new(alloc: A) -> Self
        ensures { (idle : ℕ) → IsPositionPass K.eq idle [] result }
    {
        PositionPass {
            latest: Latest::new(alloc),
            histogram: Vec::new(alloc),
            keys: PhantomData,
        }
    }

    /// Takes one more request, and returns its distance, or `None` if its key was not requested before, or too long ago. `latest` is the
    /// position of the latest request of its key, which is how many came before that one, or `None` if its key was not requested
    /// before. `soon` says whether there was one and it came within the limit.
    ///
    /// If memory is refused, or there were `usize::MAX` requests, the pass is unchanged. A key that was requested before asks for
    /// memory at most once in 64 requests.
    /// Cost: steps that grow as the logarithm of the number of requests.
    pub fn request(&mut self, latest: Option<usize>, soon: bool) -> Result<Option<usize>, NoMemory>
        requires { (idle : ℕ) × (past : List (K × ℕ)) × (key : K) × (time : ℕ) × IsPositionPass K.eq idle past self.old
            × IsLatestOf K.eq (keys_of past) key latest × (soon ≡ is_recent K.eq (Some idle) (key, time) past) }
        ensures distance { (idle : ℕ) (past : List (K × ℕ)) (key : K) (time : ℕ) → IsPositionPass K.eq idle past self.old
            → IsLatestOf K.eq (keys_of past) key latest → soon ≡ is_recent K.eq (Some idle) (key, time) past
            → IfOk result (λ d. d ≡ reuse_by K.eq (distance K.eq) idle (key, time) past) }
        ensures taken { (idle : ℕ) (past : List (K × ℕ)) (key : K) (time : ℕ) → IsPositionPass K.eq idle past self.old
            → IsLatestOf K.eq (keys_of past) key latest → soon ≡ is_recent K.eq (Some idle) (key, time) past
            → OnOk result (IsPositionPass K.eq idle ((key, time) ∷ past) self.new) }
        ensures refused { (idle : ℕ) (past : List (K × ℕ)) → IsPositionPass K.eq idle past self.old
            → OnErr result (IsPositionPass K.eq idle past self.new) }
        ensures memory { (idle : ℕ) (past : List (K × ℕ)) → IsPositionPass K.eq idle past self.old → is_some latest ≡ true
            → 0 < length past % 64 → length past + 1 < 2 ^ 64 → IsOk result }
    {
        let Ok(()) = self.latest.make_ready() else {
            return Err(NoMemory);
        };
        match latest {
            Some(position) => {
                let distance = self.latest.remove(position);
                self.latest.push();
                Ok(count_if(&mut self.histogram, soon, distance))
            }
            None => {
                let Ok(()) = self.histogram.reserve(1) else {
                    return Err(NoMemory);
                };
                self.latest.push();
                self.histogram.push_reserved(0);
                Ok(None)
            }
        }
    }

    /// Returns the curve of the requests so far.
    /// Cost: a step for each distinct key; no request for memory.
    pub fn into_curve(self) -> MissCurve<A>
        ensures misses { (idle : ℕ) (past : List (K × ℕ)) → IsPositionPass K.eq idle past self → HasIdleMissesOf K.eq idle (reverse past) result }
        ensures timeless { (idle : ℕ) (past : List (K × ℕ)) → All (λ r. r.1 ≡ 0) past → IsPositionPass K.eq idle past self
            → HasMissesOf K.eq (reverse (keys_of past)) result }
        ensures distinct { (idle : ℕ) (past : List (K × ℕ)) → IsPositionPass K.eq idle past self
            → length result ≡ distinct K.eq (keys_of past) }
    {
        let PositionPass {
            latest,
            mut histogram,
            keys: _,
        } = self;
        misses_of(&mut histogram, latest.requests);
        MissCurve::from_misses(histogram)
    }

    /// Returns the curve of the requests so far, and lets the pass go on.
    /// Cost: a step for each distinct key; one request for memory, of a number for each, and none without requests.
    pub fn curve(&self, alloc: A) -> Result<MissCurve<A>, NoMemory>
        ensures misses { (idle : ℕ) (past : List (K × ℕ)) → IsPositionPass K.eq idle past self.now
            → IfOk result (λ c. HasIdleMissesOf K.eq idle (reverse past) c) }
        ensures timeless { (idle : ℕ) (past : List (K × ℕ)) → All (λ r. r.1 ≡ 0) past → IsPositionPass K.eq idle past self.now
            → IfOk result (λ c. HasMissesOf K.eq (reverse (keys_of past)) c) }
        ensures distinct { (idle : ℕ) (past : List (K × ℕ)) → IsPositionPass K.eq idle past self.now
            → IfOk result (λ c. length c ≡ distinct K.eq (keys_of past)) }
        ensures never_refused { (idle : ℕ) → IsPositionPass K.eq idle [] self.now → IsOk result }
    {
        let Ok(mut misses) = copied(alloc, &self.histogram) else {
            return Err(NoMemory);
        };
        misses_of(&mut misses, self.latest.requests);
        Ok(MissCurve::from_misses(misses))
    }
}
