//! The curve of a whole list of requests for keys with sizes.
ghost use Rattle.std.specs.Prelude.{◌≡◌, ◌^◌, ◌<◌, ◌≤◌, [], IfOk, IfErr, IsOk, IsErr};
ghost use Rattle.clru_model.specs.Sizes.{SameWeights};
ghost use Rattle.clru_curve.specs.SizedCurves.{IsSizedCurveOf, size_of_all};
ghost use Rattle.clru_curve.specs.SizedPasses.{IsNoMemory, IsFirstRefused};

use crate::ahead::{Ahead, look_up};
use crate::sized::ahead::count;
use crate::sized::curve::SizedCurve;
use crate::sized::error::SizedRequestError;
use crate::sized::position::SizedPositionPass;
use clru_linked_map::{KeyTable, TOGETHER};
use clru_model::WeightScale;
use std::alloc::Allocator;
use std::hash::{BuildHasher, Hash};

/// Returns the misses of the requests at every capacity above the greatest weight, and the size that they miss, from one pass
/// over them.
///
/// A key weighs what the scale says of it with the value `()`. If equal keys weigh differently, nothing is said of the curve.
/// Borrows the keys; pass keys that are not `Copy` as references. Without keys it asks for no memory. If memory is refused, it
/// returns a key before which all sizes fit; if the sizes of all requests exceed `usize::MAX`, the first key with which they
/// do. A `SizedPass` takes requests one by one.
/// Cost: that of a `SizedPass` which takes each request, and is then turned into its curve.
pub fn sized_curve<K, W, S, A>(
    alloc: A,
    keys: &[K],
    scale: W,
    hash_builder: S,
) -> Result<SizedCurve<A>, SizedRequestError<K>>
where
    K: Eq + Hash + Copy,
    W: WeightScale<K, ()> + Drop,
    S: BuildHasher + Drop,
    A: Allocator + Copy,
    ensures curve { SameWeights K.eq (λ x. W.weight scale x tt)
        → IfOk result (λ c. IsSizedCurveOf K.eq (λ x. W.weight scale x tt) keys.now c) }
    ensures too_large { size_of_all (λ x. W.weight scale x tt) keys.now < 2 ^ 64 → IfErr result IsNoMemory }
    ensures passes { 2 ^ 64 ≤ size_of_all (λ x. W.weight scale x tt) keys.now → IsErr result }
    ensures given_back { IfErr result (λ e. IsFirstRefused (λ x. W.weight scale x tt) keys.now e) }
    ensures never_refused { keys.now ≡ [] → IsOk result }
{
    let mut positions = KeyTable::new(alloc, hash_builder);
    let mut pass: SizedPositionPass<K, A> = SizedPositionPass::new(alloc);
    let mut ahead = [Ahead {
        latest: None,
        weight: 0,
    }; TOGETHER];
    let mut first = 0;
    let mut size = 0;
    while first < keys.len() {
        let end = first + (keys.len() - first).min(TOGETHER);
        match look_up(&mut positions, keys, first, end, &scale, size, &mut ahead) {
            Ok(sum) => size = sum,
            Err(refusal) => return Err(refusal),
        }
        if let Err(key) = count(&mut pass, keys, first, end, &ahead) {
            return Err(SizedRequestError::NoMemory(key));
        }
        first = end;
    }
    Ok(pass.into_curve())
}
