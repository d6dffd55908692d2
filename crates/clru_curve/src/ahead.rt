//! Looks up requests of a whole list, many at a time, before they are counted: so no look-up waits until the request before it is
//! counted.
ghost use Rattle.std.specs.Prelude.{◌≡◌, ◌+◌, ◌^◌, ◌<◌, ◌≤◌, length, reverse, take, IfOk, IfErr, OnOk};
ghost use Rattle.clru_curve.specs.Ahead.{ArePlaced, AreLatest, HaveWeights};
ghost use Rattle.clru_curve.specs.SizedCurves.{size_of_all};
ghost use Rattle.clru_curve.specs.SizedPasses.{IsFirstRefused};

use crate::sized::SizedRequestError;
use clru_linked_map::{KeyTable, TOGETHER};
use clru_model::WeightScale;
use std::alloc::Allocator;
use std::hash::{BuildHasher, Hash};

/// How many announced requests are remembered.
pub(crate) const AHEAD: usize = 128;

/// What is known of a request that was looked up: the position of the latest request of its key before it, and its weight.
#[derive(Clone, Copy)]
pub(crate) struct Ahead {
    pub(crate) latest: Option<usize>,
    pub(crate) weight: usize,
}

/// Looks up the requests from `first` to before `end`. `size` is the size of all before `first`. Returns the size of all before `end`, or
/// the first request that is refused.
pub(crate) fn look_up<K, W, S, A>(
    positions: &mut KeyTable<K, usize, S, A>,
    keys: &[K],
    first: usize,
    end: usize,
    scale: &W,
    size: usize,
    ahead: &mut [Ahead],
) -> Result<usize, SizedRequestError<K>>
where
    K: Eq + Hash + Copy,
    W: WeightScale<K, ()>,
    S: BuildHasher,
    A: Allocator + Copy,
    requires order { first ≤ end }
    requires within { end ≤ length keys.now }
    requires few { end ≤ first + 64 }
    requires room { end ≤ first + length ahead.old }
    requires placed { ArePlaced K.eq (reverse (take first keys.now)) positions.old.entries }
    requires size { size ≡ size_of_all (λ x. W.weight scale.now x tt) (take first keys.now) }
    ensures length { length ahead.new ≡ length ahead.old }
    ensures latest { OnOk result (AreLatest K.eq keys.now first end ahead.new) }
    ensures weights { OnOk result (HaveWeights (λ x. W.weight scale.now x tt) keys.now first end ahead.new) }
    ensures placed { OnOk result (ArePlaced K.eq (reverse (take end keys.now)) positions.new.entries) }
    ensures size { IfOk result (λ s. s ≡ size_of_all (λ x. W.weight scale.now x tt) (take end keys.now)) }
    ensures fits { OnOk result (size_of_all (λ x. W.weight scale.now x tt) (take end keys.now) < 2 ^ 64) }
    ensures refused { IfErr result (λ e. IsFirstRefused (λ x. W.weight scale.now x tt) keys.now e) }
{
    let (hashes, places) = positions.prefetch(keys, first, end);
    let mut sum = size;
    let mut at = first;
    while at < end {
        let key = keys[at];
        let weight = scale.weight(&key, &());
        if weight >= usize::MAX - sum {
            return Err(SizedRequestError::TooLarge(key));
        }
        let latest = match positions.put(hashes[at - first], key, at, places[at - first]) {
            Ok(latest) => latest,
            Err(key) => return Err(SizedRequestError::NoMemory(key)),
        };
        ahead[at - first] = Ahead { latest, weight };
        sum += weight + 1;
        at += 1;
    }
    Ok(sum)
}
