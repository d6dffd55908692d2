//! How often loads fetch.
ghost use Rattle.std.specs.Prelude.{◌≡◌, ℕ, [], nat_eq, IfSome, IsTrue};
ghost use Rattle.clru_model.specs.Requests.{marks, misses};
ghost use Rattle.clru_model.specs.Sizes.{marks_by_size, missed_size};
ghost use Rattle.clru_through.specs.LoadRuns.{FetchedKeys, FetchedSize, missed};

use clru::{DefaultState, WeightScale};
use clru_through::{Fetch, Loaded, Through, law_loads};
use std::alloc::Global;

/// Loads each page in turn through an empty store, and returns how many were fetched: as many as a replay misses at the store's
/// capacity. The fetches are, in order, those of the requests that miss, whatever the source promises. It returns `None` if a
/// fetch fails or a value is passed on.
pub fn fetches_of_all<E: Drop, R: Fetch<u64, u64, E, M>, W: WeightScale<u64, u64>, M>(
    store: &mut Through<u64, u64, E, R, DefaultState, W, Global, M>,
    pages: &[u64],
) -> Option<usize>
    requires weightless { (scale : W) (page size : ℕ) → W.weight scale page size ≡ 0 }
    requires empty { store.old.cache.entries ≡ [] }
    ensures count { IfSome result (λ fetches. fetches ≡ misses nat_eq store.old.cache.capacity pages.now) }
    ensures fetched { IfSome result (λ _. FetchedKeys nat_eq W.weight R.fetches
        (missed (marks nat_eq store.old.cache.capacity pages.now) pages.now) store.old store.new) }
{
    law_loads::<u64, u64, E, R, W, M>();
    let mut fetches = 0;
    for page in pages {
        match store.load(*page) {
            Ok(Loaded::Held { fetched }) => fetches += fetched as usize,
            _ => return None,
        }
    }
    Some(fetches)
}

/// Loads each page in turn through an empty store in which a page weighs its number, and returns whether each is then held. If
/// so, the fetches are, in order, those of the requests that miss by size, and what they bring has the missed size.
pub fn are_all_held<E: Drop, R: Fetch<u64, u64, E, M>, W: WeightScale<u64, u64>, M>(
    store: &mut Through<u64, u64, E, R, DefaultState, W, Global, M>,
    pages: &[u64],
) -> bool
    requires by_number { (scale : W) (page value : ℕ) → W.weight scale page value ≡ page }
    requires empty { store.old.cache.entries ≡ [] }
    ensures size { let c = store.old.cache.capacity in IsTrue result → FetchedSize nat_eq W.weight R.fetches
        (missed (marks_by_size nat_eq (λ page. page) c pages.now) pages.now)
        (missed_size nat_eq (λ page. page) c pages.now) store.old store.new }
{
    law_loads::<u64, u64, E, R, W, M>();
    for page in pages {
        let Ok(Loaded::Held { .. }) = store.load(*page) else {
            return false;
        };
    }
    true
}
