//! A law of the definitions: a function that does nothing.
ghost use Rattle.clru_curve.specs.Apart.{OneIsNearMany, OneIsNearerMany, OneSizeIsNearMany, OneSizeIsNearerMany};

/// States how one cache for all requests compares with a cache for each class. One cache of `k` keys misses at most `k / (k - h)` times
/// as much as caches that have `h < k` keys together, where capacity 0 misses each request. If each of them has room for a key, it misses
/// at most `k / (k - h + 1)` times as much, for `h ≤ k`. Equal keys are of one class.
///
/// By size it misses at most `k / (k - h - g)` times the size that they miss, if no request weighs more than `g` and `h + g < k`. If each
/// has room for the requests of its class, it is `k / (k - h + 1)`, for `h ≤ k`. Equal keys have equal weights.
pub fn law_split<K: Eq>()
    ensures near { OneIsNearMany K.eq }
    ensures nearer { OneIsNearerMany K.eq }
    ensures near_by_size { OneSizeIsNearMany K.eq }
    ensures nearer_by_size { OneSizeIsNearerMany K.eq }
{}
