//! A cache that tells what each other capacity would have missed.
ghost use Rattle.std.specs.Prelude.{◌≡◌, ℕ, List, [], ◌∷◌, reverse, nat_eq, IfOk, OnOk, OnErr};
ghost use Rattle.std.specs.Int.NonZero.{non_zero_usize_get};
ghost use Rattle.clru_model.specs.Requests.{misses};
ghost use Rattle.clru_uses.specs.Watched.{IsWatched};

use clru::{CLruCache, NoMemory, NonZeroUsize, law_requests};
use clru_curve::DistancePass;
use std::alloc::Global;

/// A cache of pages, a pass over their requests, and the hits and misses so far. Clauses describe the requests that it has
/// taken, the latest first, by `IsWatched`.
#[derive(Drop)]
pub struct Watched {
    pub cache: CLruCache<u64, u64>,
    pub pass: DistancePass<u64>,
    pub hits: usize,
    pub misses: usize,
}

impl Watched {
    /// Creates one that has taken no request. It takes the memory of all its entries, so that no put is refused.
    pub fn new(alloc: Global, capacity: NonZeroUsize) -> Result<Watched, NoMemory>
        ensures taken { IfOk result (λ watched. IsWatched [] watched) }
        ensures capacity { IfOk result (λ watched. watched.cache.capacity ≡ non_zero_usize_get capacity) }
    {
        let cache = CLruCache::with_memory(alloc, capacity, capacity.get())?;
        // Only for the proof: clause `valid` of `len` says that the capacity is at least 1.
        let _ = cache.len();
        Ok(Watched {
            cache,
            pass: DistancePass::new(alloc),
            hits: 0,
            misses: 0,
        })
    }

    /// Looks a page up, and fetches and puts it only if it is not found. Here a page's text is its number. If the pass finds no
    /// memory, or a number is too large to count further, it returns the page, and all stays as it was.
    pub fn text_of(&mut self, page: u64) -> Result<u64, u64>
        ensures taken { (past : List ℕ) → IsWatched past self.old → OnOk result (IsWatched (page ∷ past) self.new) }
        ensures refused { (past : List ℕ) → IsWatched past self.old → OnErr result (IsWatched past self.new) }
    {
        law_requests::<u64, u64>();
        let (Some(hits), Some(misses)) = (self.hits.checked_add(1), self.misses.checked_add(1))
        else {
            return Err(page);
        };
        self.pass.request(page)?;
        if let Some(text) = self.cache.get(&page).copied() {
            self.hits = hits;
            return Ok(text);
        }
        self.misses = misses;
        match self.cache.put(page, page) {
            Ok(_) => Ok(page),
            Err((page, _)) => Err(page),
        }
    }

    /// Returns how many of the requests a cache of another capacity would have missed. At its own this is the number counted.
    pub fn misses_at(&self, alloc: Global, capacity: NonZeroUsize) -> Result<usize, NoMemory>
        ensures misses { (past : List ℕ) → IsWatched past self.now
            → IfOk result (λ n. n ≡ misses nat_eq (non_zero_usize_get capacity) (reverse past)) }
        ensures own { (past : List ℕ) → IsWatched past self.now → non_zero_usize_get capacity ≡ self.now.cache.capacity
            → IfOk result (λ n. n ≡ self.now.misses) }
    {
        Ok(self.pass.curve(alloc)?.misses(capacity))
    }
}
