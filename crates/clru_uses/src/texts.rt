//! Texts as keys.
ghost use Rattle.std.specs.Prelude.{◌≡◌, ◌⊎◌, ℕ, None, Some, OnOk, OnErr};
ghost use Rattle.std.specs.Map.{lookup};
ghost use Rattle.std.specs.Str.{bytes_eq};
ghost use Rattle.std.specs.String.{string_bytes, string_eq};

use clru::CLruCache;
use std::alloc::Global;

/// Returns how often a page was looked at, if it is held. The text is lent, and no key is built of it.
pub fn looks_at(looks: &mut CLruCache<String, u64>, page: &str) -> Option<u64>
    ensures { result ≡ lookup (λ key. bytes_eq page.now (string_bytes key)) looks.old.entries }
{
    looks.get(page).copied()
}

/// What became of a look at a page.
#[derive(Clone, Copy, Debug, PartialEq, Eq)]
pub enum Looked {
    /// The page is held, and was looked at so often.
    Counted(u64),
    NoMemory,
}

/// Counts one more look at a page. A key is built only if the page is not held.
pub fn look(looks: &mut CLruCache<String, u64>, alloc: Global, page: &str) -> Looked
    ensures counted { (result ≡ Looked.NoMemory) ⊎ ((times : ℕ) × (result ≡ Looked.Counted times)
        × (lookup (λ key. bytes_eq page.now (string_bytes key)) looks.new.entries ≡ Some times)) }
    ensures first { lookup (λ key. bytes_eq page.now (string_bytes key)) looks.old.entries ≡ None
        → (result ≡ Looked.NoMemory) ⊎ (result ≡ Looked.Counted 1) }
{
    if let Some(times) = looks.get_mut(page) {
        *times = times.saturating_add(1);
        return Looked::Counted(*times);
    }
    let Ok(key) = page.to_string(alloc) else {
        return Looked::NoMemory;
    };
    match looks.put(key, 1) {
        Ok(_) => Looked::Counted(1),
        Err(_) => Looked::NoMemory,
    }
}

/// Remembers how often a page was looked at. A look-up of the same text then finds it.
pub fn remember_looks(
    looks: &mut CLruCache<String, u64>,
    page: String,
    times: u64,
) -> Result<(), (String, u64)>
    ensures stored { OnOk result (lookup (string_eq page) looks.new.entries ≡ Some times) }
    ensures kept { OnErr result (looks.new.entries ≡ looks.old.entries) }
{
    match looks.put(page, times) {
        Ok(_) => Ok(()),
        Err(pair) => Err(pair),
    }
}
