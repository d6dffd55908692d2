//! Callers that write through what a cache lends, and one whose closure fails.
ghost use Rattle.std.specs.Prelude.{◌≡◌, Some, nat_eq, is_some, slice_get, IsTrue};
ghost use Rattle.std.specs.Map.{lookup};
ghost use Rattle.std.specs.Option.{option_map};
ghost use Rattle.clru.specs.Cache.{with_entries};
ghost use Rattle.clru_model.specs.Entries.{touch, with_value_at};

use clru::{CLruCache, TryPutError};

/// Gives a page another size, and returns whether it is remembered. A look-up then finds the new size.
pub fn correct(sizes: &mut CLruCache<u64, u64>, page: u64, size: u64) -> bool
    ensures found { result ≡ is_some (lookup (nat_eq page) sizes.old.entries) }
    ensures written { IsTrue result → lookup (nat_eq page) sizes.new.entries ≡ Some size }
{
    match sizes.get_mut(&page) {
        Some(held) => {
            *held = size;
            true
        }
        None => false,
    }
}

/// Gives the page that was used last another size, and returns which one that is.
pub fn correct_latest(sizes: &mut CLruCache<u64, u64>, size: u64) -> Option<u64>
    ensures page { result ≡ option_map (λ e. e.0) (slice_get sizes.old.entries 0) }
    ensures written { sizes.new ≡ with_entries sizes.old (with_value_at 0 size sizes.old.entries) }
{
    let mut latest = sizes.front_mut()?;
    *latest = size;
    Some(*latest.key())
}

/// Doubles the size of the page that was looked at last, and returns the page.
pub fn double_last(sizes: &mut CLruCache<u64, u64>) -> Option<u64> {
    let mut last = sizes.front_mut()?;
    *last = last.saturating_mul(2);
    Some(*last.key())
}

/// Looks for a page by a put that can't succeed: if a page is not remembered, nothing changes, even if the cache is full.
pub fn look_for(sizes: &mut CLruCache<u64, u64>, page: u64) -> Option<u64>
    ensures size { result ≡ lookup (nat_eq page) sizes.old.entries }
    ensures entries { sizes.new.entries ≡ touch nat_eq page sizes.old.entries }
{
    match sizes.try_put_or_modify(page, |_, ()| Err(()), |_, _, ()| Ok(()), ()) {
        Ok(size) => Some(*size),
        Err(refusal) => match refusal {
            TryPutError::NoMemory(..) => None,
            TryPutError::Failed(()) => None,
        },
    }
}
