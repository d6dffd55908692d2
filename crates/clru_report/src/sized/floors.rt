//! Floors by size: what every policy misses at least.
ghost use Rattle.std.specs.Prelude.{◌≡◌, Bool, List, map, reverse, IfOk};
ghost use Rattle.std.specs.Int.NonZero.{non_zero_usize_get};
ghost use Rattle.clru_text.specs.Keys.{line_of};
ghost use Rattle.clru_text.specs.Sizes.{weight_of_line};
ghost use Rattle.clru_text.specs.declared.lines.OwnedKey.{OwnedKey};
ghost use Rattle.clru_report.specs.Passes.{AreFloorsFor, HasFloorPass, floors_at};

use clru_least::{Floor, FloorPass, SizeFloor};
use clru_text::OwnedKey;
use std::alloc::{AllocError, Allocator};
use std::num::NonZeroUsize;

/// What every policy misses at least at one capacity, also one that bypasses keys.
#[derive(Clone, Copy, Debug, PartialEq, Eq)]
pub struct RowFloor {
    pub misses: usize,

    /// The size of the requests that miss, at least.
    pub missed_size: usize,
}

/// Both floors at every capacity.
#[derive(Drop)]
pub(crate) struct Floors<A: Allocator> {
    pub(crate) misses: Floor<A>,
    pub(crate) missed_size: SizeFloor<A>,
}

/// The floors, if they are asked for.
pub(super) fn floors_of<A: Allocator + Copy>(
    reuses: &Option<FloorPass<OwnedKey<A>, A>>,
) -> Result<Option<Floors<A>>, AllocError>
    ensures { (floored : Bool) (past : List (OwnedKey A)) → HasFloorPass weight_of_line floored past reuses.now
        → IfOk result (AreFloorsFor floored (map line_of (reverse past))) }
{
    match reuses {
        None => Ok(None),
        Some(reuses) => {
            let misses = reuses.floor()?;
            let missed_size = reuses.size_floor()?;
            Ok(Some(Floors {
                misses,
                missed_size,
            }))
        }
    }
}

/// What the floors are at a capacity, if they are there.
pub(super) fn floor_at<A: Allocator>(
    floors: &Option<Floors<A>>,
    capacity: NonZeroUsize,
) -> Option<RowFloor>
    ensures { result ≡ floors_at floors.now (non_zero_usize_get capacity) }
{
    match floors {
        None => None,
        Some(floors) => Some(RowFloor {
            misses: floors.misses.misses(capacity),
            missed_size: floors.missed_size.missed_size(capacity),
        }),
    }
}
