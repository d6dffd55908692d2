//! Runs of puts by weight and their requests, by the contracts of the calls and the laws alone.
ghost use Rattle.std.specs.Prelude.{◌≡◌, ◌<◌, ◌≤◌, ℕ, [], List, Some, nat_eq, IfSome, IsSome};
ghost use Rattle.std.specs.List.{slice_get};
ghost use Rattle.clru_model.specs.Requests.{hit};
ghost use Rattle.clru_model.specs.Sizes.{span, marks_by_size, misses_by_size};
ghost use Rattle.clru_model.specs.SizedRuns.{IsSizedPut};
ghost use Rattle.clru_model.specs.SpansByPosition.{IsSpanAt};

use clru::{CLruCache, DefaultState, WeightScale, law_sizes};
use clru_model::{law_distances, law_spans_by_position};

/// A scale by which a page weighs its number, whatever is stored.
#[derive(Clone, Copy, Drop)]
pub struct ByPage;

impl<V> WeightScale<usize, V> for ByPage {
    ghost weight = { λ _ page _. page };

    fn weight(&self, page: &usize, _value: &V) -> usize {
        *page
    }
}

/// Puts each page in turn into an empty cache, and counts those that it did not hold before. `None` is for a put that is
/// refused, as none is where there are places for all that fit and no page is as heavy as the capacity.
pub fn pages_missed<W: WeightScale<usize, ()>>(
    cache: &mut CLruCache<usize, (), DefaultState, W>,
    pages: Vec<usize>,
) -> Option<usize>
    requires empty { cache.old.entries ≡ [] }
    ensures misses { (weight : ℕ → ℕ) → ((page : ℕ) → W.weight cache.old.scale page tt ≡ weight page)
        → IfSome result (λ n. n ≡ misses_by_size nat_eq weight cache.old.capacity pages.items) }
    ensures never_refused { cache.old.capacity ≤ cache.old.places
        → ((page : ℕ) → W.weight cache.old.scale page tt < cache.old.capacity) → IsSome result }
{
    law_sizes::<usize, ()>();
    let mut misses = 0;
    for page in pages {
        match cache.put_with_weight(page, (), |_, _| {}) {
            Ok(Some(())) => {}
            Ok(None) => misses += 1,
            Err(_) => return None,
        }
    }
    Some(misses)
}

/// Looks for a page that may be held. Where it is, the cache is then as after a put of its pair.
pub fn look_again<W: WeightScale<usize, usize>>(
    cache: &mut CLruCache<usize, usize, DefaultState, W>,
    page: &usize,
) -> Option<usize>
    ensures { IsSome result → IsSizedPut nat_eq (W.weight cache.old.scale) cache.old.capacity page.now
        cache.old.entries cache.new.entries }
{
    law_sizes::<usize, usize>();
    // It tells that the entries are within the capacity.
    let _ = cache.len();
    cache.get(page).copied()
}

/// Returns whether a request of this span, the least capacity at which it hits, hits at the capacity. The span follows from the
/// positions of the requests, also if keys weigh nothing.
pub fn hits_by_span<K: Eq>(least: usize, capacity: usize) -> bool
    ensures by_position { (weight : K → ℕ) (requests : List K) (i : ℕ) → IsSpanAt K.eq weight requests i least
        → slice_get (marks_by_size K.eq weight capacity requests) i ≡ Some result }
    ensures weightless { (weight : K → ℕ) (x : K) (past : List K) → ((k : K) → weight k ≡ 0)
        → span K.eq weight x past ≡ Some least → result ≡ hit K.eq capacity x past }
{
    law_distances::<K>();
    law_sizes::<K, ()>();
    law_spans_by_position::<K>();
    least <= capacity
}
