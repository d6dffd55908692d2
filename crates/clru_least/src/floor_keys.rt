//! Floors of what every policy misses of a list of keys.
ghost use Rattle.std.specs.Prelude.{◌≡◌, ◌+◌, ◌^◌, ◌<◌, ◌≤◌, [], reverse, IfOk, IsErr, IsOk};
ghost use Rattle.std.specs.List.{sum_by};
ghost use Rattle.std.specs.Result.{IsErrAnd};
ghost use Rattle.clru_least.specs.FloorNumbers.{IsFloorOf};
ghost use Rattle.clru_least.specs.Reuses.{IsFloorPass, IsTooLarge};

use crate::floor_error::FloorRequestError;
use crate::floor_pass::FloorPass;
use crate::floors::Floor;
use clru_model::{WeightScale, ZeroWeightScale};
use std::alloc::{AllocError, Allocator};
use std::collections::HashMap;
use std::hash::{BuildHasher, Hash};

impl<K: Eq, A: Allocator + Copy> FloorPass<K, A> {
    /// Creates a pass that has taken a request for each of the keys, in order. A key weighs what the scale says of it with the
    /// value `()`.
    ///
    /// Memory may be refused; without keys none is asked for. If the sizes of all requests exceed `usize::MAX`, the keys are
    /// refused. They stay the caller's, and are hashed with `hash_builder`.
    /// Cost: one look-up for each request in a table of the keys; memory for a `FloorPass`, and meanwhile for the table.
    pub fn of_keys<W, S>(
        alloc: A,
        keys: &[K],
        scale: W,
        hash_builder: S,
    ) -> Result<Self, FloorRequestError>
    where
        K: Hash,
        W: WeightScale<K, ()> + Drop,
        S: BuildHasher + Drop,
        ensures taken { IfOk result (IsFloorPass K.eq (λ x. W.weight scale x tt) (reverse keys.now)) }
        ensures too_large { IsErrAnd result IsTooLarge → 2 ^ 64 ≤ sum_by (λ x. 1 + W.weight scale x tt) keys.now }
        ensures passes { 2 ^ 64 ≤ sum_by (λ x. 1 + W.weight scale x tt) keys.now → IsErr result }
        ensures never_refused { keys.now ≡ [] → IsOk result }
    {
        let mut pass = FloorPass::new(alloc);
        let mut latest = HashMap::with_hasher(alloc, hash_builder);
        for position in 0..keys.len() {
            let key = &keys[position];
            let weight = scale.weight(key, &());
            let Ok(before) = latest.insert(key, position) else {
                return Err(FloorRequestError::NoMemory);
            };
            match pass.request(before, weight) {
                Ok(()) => {}
                Err(refusal) => return Err(refusal),
            }
        }
        Ok(pass)
    }
}

/// Returns a floor of the misses of the requests for these keys, if room is counted in keys: no policy misses fewer of them, even
/// if it bypasses keys and knows all requests beforehand.
///
/// Memory may be refused; without keys none is asked for. The keys stay the caller's, and are hashed with `hash_builder`.
/// Cost: that of `FloorPass::of_keys`, and of one call of its `floor`.
pub fn floor<K: Eq + Hash, S: BuildHasher + Drop, A: Allocator + Copy>(
    alloc: A,
    keys: &[K],
    hash_builder: S,
) -> Result<Floor<A>, AllocError>
    ensures floor { IfOk result (IsFloorOf K.eq (λ _. 0) keys.now) }
    ensures never_refused { keys.now ≡ [] → IsOk result }
{
    let Ok(pass) = FloorPass::of_keys(alloc, keys, ZeroWeightScale, hash_builder) else {
        return Err(AllocError);
    };
    pass.floor()
}
