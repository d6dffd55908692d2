//! Callers that take entries out, or change the capacity.
ghost use Rattle.std.specs.Prelude.{◌≡◌, ◌/◌, true, None, nat_lt, filter, map, take};
ghost use Rattle.std.specs.Map.{lookup};

use clru::{CLruCache, NonZeroUsize};
use std::hash::Hash;

/// Keeps the pages that are larger than the size.
pub fn keep_larger(sizes: &mut CLruCache<u64, u64>, least: u64)
    ensures { sizes.new.entries ≡ filter (λ e. nat_lt least e.1) sizes.old.entries }
{
    sizes.retain(
        |_, size: &u64| -> bool
            ensures { result ≡ nat_lt least size.now }
        { *size > least },
    );
}

/// Halves each size.
pub fn halve(sizes: &mut CLruCache<u64, u64>)
    ensures { sizes.new.entries ≡ map (λ e. (e.0, e.1 / 2)) sizes.old.entries }
{
    sizes.retain_mut(
        |_, size: &mut u64| -> bool
            ensures { (result ≡ true) × (size.new ≡ size.old / 2) }
        {
            *size /= 2;
            true
        },
    );
}

/// Keeps the large pages, and says nothing of it.
pub fn keep_large(sizes: &mut CLruCache<u64, u64>) {
    sizes.retain(|_, size| *size > 4096);
}

/// Forgets a page. A second time it is not there.
pub fn forget_twice<K: Eq + Hash + Drop>(sizes: &mut CLruCache<K, u64>, page: &K) -> Option<u64>
    ensures answer { result ≡ None }
    ensures gone { lookup (K.eq page.now) sizes.new.entries ≡ None }
{
    // It tells that no page is held twice.
    let _ = sizes.len();
    let _ = sizes.pop(page);
    sizes.pop(page)
}

/// Keeps the page that was looked at last, and no other.
pub fn keep_last(sizes: &mut CLruCache<u64, u64>)
    ensures entries { sizes.new.entries ≡ take 1 sizes.old.entries }
    ensures capacity { sizes.new.capacity ≡ 1 }
{
    sizes.resize(NonZeroUsize::MIN);
}
