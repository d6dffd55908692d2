//! Uses of the library, each proved from public contracts alone. Callers with clauses of their own show whether a contract tells
//! enough; the docs quote the others, and `tools/check/quotes` compares them. `clru_tests` runs some of them.
#![tactic(auto)]

ghost use Rattle.std.specs.Prelude.{◌≡◌, ◌+◌, Some, nat_eq, IfSome};
ghost use Rattle.std.specs.Map.{lookup};
ghost use Rattle.clru_model.specs.Entries.{size_of};

pub mod budget;
pub mod clocked;
pub mod curves;
pub mod drops;
pub mod errors;
pub mod files;
pub mod gains;
pub mod hasher;
pub mod idioms;
pub mod idle;
pub mod lends;
pub mod limits;
pub mod lists;
pub mod lookups;
pub mod makers;
pub mod of_curves;
pub mod of_floors;
pub mod of_least;
pub mod of_lists;
pub mod of_stores;
pub mod own;
pub mod pages;
pub mod parts;
pub mod performed;
pub mod removals;
pub mod replays;
pub mod runs;
pub mod scale;
pub mod seed;
pub mod sized_curves;
pub mod sized_runs;
pub mod sizes;
pub mod splits;
pub mod stamps;
pub mod store;
pub mod texts;
pub mod walks;
pub mod watched;
pub mod weighted;
pub mod words;

use clru::{CLruCache, DefaultState, WeightScale};

/// Counts one more look at a page, and returns how often it was looked at since it was forgotten.
pub fn count(looks: &mut CLruCache<u64, u64>, page: u64) -> Option<u64>
    ensures written { IfSome result (λ times. lookup (nat_eq page) looks.new.entries ≡ Some times) }
{
    match looks.put_or_modify(page, |_, _| 0, |_, _, _| {}, ()) {
        Ok(times) => {
            *times = times.saturating_add(1);
            Some(*times)
        }
        Err(_) => None,
    }
}

/// Returns the room that is left for entries and their weight.
pub fn room_left<W: WeightScale<u64, u64>>(cache: &CLruCache<u64, u64, DefaultState, W>) -> usize
    ensures { result + size_of (W.weight cache.now.scale) cache.now.entries ≡ cache.now.capacity }
{
    cache.capacity() - cache.size()
}
