//! Requests by size that were looked up, and are counted now.
ghost use Rattle.std.specs.Prelude.{◌≡◌, ℕ, ◌+◌, ◌<◌, ◌≤◌, List, length, reverse, take, Some, slice_get, IfErr, OnOk};
ghost use Rattle.clru_model.specs.Sizes.{SameWeights};
ghost use Rattle.clru_curve.specs.Ahead.{AreLatest, HaveWeights, HoldsLatest};
ghost use Rattle.clru_curve.specs.Seen.{timeless};
ghost use Rattle.clru_curve.specs.SizedPositionPasses.{IsSizedPositionPass};

use crate::ahead::{AHEAD, Ahead};
use crate::sized::position::SizedPositionPass;
use std::alloc::Allocator;

/// Counts the requests from `first` to before `end`, which were looked up. Returns the first key for which memory is refused.
pub(crate) fn count<K: Eq + Copy, A: Allocator + Copy>(
    pass: &mut SizedPositionPass<K, A>,
    keys: &[K],
    first: usize,
    end: usize,
    ahead: &[Ahead],
) -> Result<(), K>
    requires order { first ≤ end }
    requires within { end ≤ length keys.now }
    requires room { end ≤ first + length ahead.now }
    requires few { length ahead.now ≤ 128 }
    requires latest { AreLatest K.eq keys.now first end ahead.now }
    requires held { HoldsLatest K.eq (reverse (take first keys.now)) pass.old }
    ensures held { OnOk result (HoldsLatest K.eq (reverse (take end keys.now)) pass.new) }
    ensures taken { (w : K → ℕ) → SameWeights K.eq w → HaveWeights w keys.now first end ahead.now
        → IsSizedPositionPass K.eq w 0 (timeless (reverse (take first keys.now))) pass.old
        → OnOk result (IsSizedPositionPass K.eq w 0 (timeless (reverse (take end keys.now))) pass.new) }
    ensures refused { IfErr result (λ x. (at : ℕ) × (first ≤ at) × (at < end) × (slice_get keys.now at ≡ Some x)) }
{
    let places = places_in(pass, ahead);
    let mut at = first;
    while at < end {
        let Ahead { latest, weight } = ahead[at - first];
        let likely = pass.likely(latest, places[at - first]);
        match pass.count(latest, latest.is_some(), weight, likely) {
            Ok(_) => {}
            Err(_) => return Err(keys[at]),
        }
        at += 1;
    }
    Ok(())
}

/// Where the sizes of the latest requests are likely to stand, which are read ahead.
fn places_in<K: Eq, A: Allocator + Copy>(
    pass: &SizedPositionPass<K, A>,
    ahead: &[Ahead],
) -> [usize; AHEAD] {
    let count = ahead.len().min(AHEAD);
    let mut latest = [None; AHEAD];
    for at in 0..count {
        latest[at] = ahead[at].latest;
    }
    pass.latest.read_ahead(&latest[..count])
}
