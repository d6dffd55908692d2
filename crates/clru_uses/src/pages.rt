//! A cache of pages.
ghost use Rattle.std.specs.Prelude.{◌≡◌, None, Some, nat_eq, OnOk, OnErr};
ghost use Rattle.std.specs.Map.{lookup};

use clru::CLruCache;

/// Remembers the size of a page, and returns the pair that was dropped for it. A look-up then finds the size.
pub fn remember(
    sizes: &mut CLruCache<u64, u64>,
    page: u64,
    size: u64,
) -> Result<Option<(u64, u64)>, (u64, u64)>
    ensures stored { OnOk result (lookup (nat_eq page) sizes.new.entries ≡ Some size) }
    ensures kept { OnErr result (sizes.new.entries ≡ sizes.old.entries) }
{
    match sizes.put(page, size) {
        Ok(put) => Ok(put.dropped),
        Err(pair) => Err(pair),
    }
}

/// Forgets a page. A look-up then finds none.
pub fn forget(sizes: &mut CLruCache<u64, u64>, page: u64) -> Option<u64>
    ensures size { result ≡ lookup (nat_eq page) sizes.old.entries }
    ensures gone { lookup (nat_eq page) sizes.new.entries ≡ None }
{
    // Its clause `valid` says that no page is held twice.
    let _ = sizes.len();
    sizes.pop(&page)
}

/// Halves each size.
pub fn halve(sizes: &mut CLruCache<u64, u64>) {
    let mut cursor = sizes.iter_mut();
    while let Some(size) = cursor.next() {
        *size /= 2;
    }
}
