//! Callers that know what other look-ups answer, and how many entries there are, after a put, a removal and a look.
ghost use Rattle.std.specs.Prelude.{◌≡◌, ℕ, ◌+◌, true, false, nat_eq, length, if◌then◌else◌, IfOk};
ghost use Rattle.std.specs.Map.{lookup};

use clru::CLruCache;

/// Remembers the size of a page, and returns whether none was forgotten for it: then each other page has the size that it had.
pub fn remember_beside(
    sizes: &mut CLruCache<u64, u64>,
    page: u64,
    size: u64,
) -> Result<bool, (u64, u64)>
    ensures others { IfOk result (λ none. (other : ℕ) → none ≡ true → nat_eq page other ≡ false
        → lookup (nat_eq other) sizes.new.entries ≡ lookup (nat_eq other) sizes.old.entries) }
{
    // It tells that no page is held twice.
    let _ = sizes.len();
    match sizes.put(page, size) {
        Ok(put) => Ok(put.dropped.is_none()),
        Err(pair) => Err(pair),
    }
}

/// Remembers the size of a page, and returns whether there is one page more than before.
pub fn remember_one_more(
    sizes: &mut CLruCache<u64, u64>,
    page: u64,
    size: u64,
) -> Result<bool, (u64, u64)>
    ensures { IfOk result (λ more. length sizes.new.entries ≡ length sizes.old.entries + (if more then 1 else 0)) }
{
    // It tells that the pages are within the capacity.
    let _ = sizes.len();
    match sizes.put(page, size) {
        Ok(put) => Ok(put.replaced.is_none() && put.dropped.is_none()),
        Err(pair) => Err(pair),
    }
}

/// Forgets a page, and returns how many are left. Each other page has the size that it had.
pub fn forget(sizes: &mut CLruCache<u64, u64>, page: &u64) -> usize
    ensures number { result ≡ length sizes.new.entries }
    ensures others { (other : ℕ) → nat_eq page.now other ≡ false
        → lookup (nat_eq other) sizes.new.entries ≡ lookup (nat_eq other) sizes.old.entries }
{
    let before = sizes.len();
    match sizes.pop(page) {
        Some(_) => before - 1,
        None => before,
    }
}

/// Looks at a page and then at another one, which has the size that it had.
pub fn look_at_both(sizes: &mut CLruCache<u64, u64>, page: &u64, other: &u64) -> Option<u64>
    ensures { result ≡ lookup (nat_eq other.now) sizes.old.entries }
{
    // It tells that no page is held twice.
    let _ = sizes.len();
    let _ = sizes.get(page);
    sizes.peek(other).copied()
}

/// Looks at a page, and returns how many there are, as many as before.
pub fn look_and_count(sizes: &mut CLruCache<u64, u64>, page: &u64) -> usize
    ensures { result ≡ length sizes.old.entries }
{
    let _ = sizes.get(page);
    sizes.len()
}
