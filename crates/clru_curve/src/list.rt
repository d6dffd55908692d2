//! The curve of a whole list of requests.
ghost use Rattle.std.specs.Prelude.{◌≡◌, [], length, reverse, IfOk, IsOk};
ghost use Rattle.clru_model.specs.Requests.{distinct};
ghost use Rattle.clru_curve.specs.Curves.{HasMissesOf};

use crate::ahead::{Ahead, look_up};
use crate::curve::MissCurve;
use crate::position::PositionPass;
use clru_linked_map::{KeyTable, TOGETHER};
use clru_list::NoMemory;
use clru_model::ZeroWeightScale;
use std::alloc::Allocator;
use std::hash::{BuildHasher, Hash};

/// Returns the misses of the requests at every capacity, from one pass over them.
///
/// Borrows the keys; pass keys that are not `Copy` as references. Without keys it asks for no memory. A `DistancePass` takes
/// requests one by one.
/// Cost: that of a `DistancePass` which takes each request, and is then turned into its curve.
///
/// What a cache of a capacity would miss:
///
/// ```rust
/// pub fn misses_of(alloc: Global, requests: &[u64], capacity: NonZeroUsize) -> Result<usize, NoMemory>
///     ensures { IfOk result (λ n. n ≡ misses nat_eq (non_zero_usize_get capacity) requests.now) }
/// {
///     let curve = miss_curve(alloc, requests, DefaultState)?;
///     Ok(curve.misses(capacity))
/// }
/// ```
pub fn miss_curve<K: Eq + Hash + Copy, S: BuildHasher + Drop, A: Allocator + Copy>(
    alloc: A,
    keys: &[K],
    hash_builder: S,
) -> Result<MissCurve<A>, NoMemory>
    ensures misses { IfOk result (λ c. HasMissesOf K.eq keys.now c) }
    ensures distinct { IfOk result (λ c. length c ≡ distinct K.eq (reverse keys.now)) }
    ensures never_refused { keys.now ≡ [] → IsOk result }
{
    let mut positions = KeyTable::new(alloc, hash_builder);
    let mut pass: PositionPass<K, A> = PositionPass::new(alloc);
    let mut ahead = [Ahead {
        latest: None,
        weight: 0,
    }; TOGETHER];
    let mut first = 0;
    let mut size = 0;
    while first < keys.len() {
        let end = first + (keys.len() - first).min(TOGETHER);
        match look_up(
            &mut positions,
            keys,
            first,
            end,
            &ZeroWeightScale,
            size,
            &mut ahead,
        ) {
            Ok(sum) => size = sum,
            Err(_) => return Err(NoMemory),
        }
        let mut at = first;
        while at < end {
            let latest = ahead[at - first].latest;
            // (without times each reuse comes soon enough)
            pass.request(latest, latest.is_some())?;
            at += 1;
        }
        first = end;
    }
    Ok(pass.into_curve())
}
