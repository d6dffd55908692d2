//! What programs do with other caches, in the calls of this one.
ghost use Rattle.std.specs.Prelude.{◌≡◌, ◌+◌, ◌-◌, ◌^◌, ◌<◌, ◌≤◌, ◌↔◌, [], min, nat_lt, Some, None, length, nat_eq, is_some, slice_get, not, IsTrue, IsSome, IfOk, IfSome, OnOk, if◌then◌else◌};
ghost use Rattle.std.specs.Map.{lookup};
ghost use Rattle.std.specs.Cmp.Rules.{comparing};
ghost use Rattle.std.proofs.Common.{rules};
ghost use Rattle.clru_model.specs.AgedRuns.{is_fresh};
ghost use Rattle.clru_model.specs.Entries.{plain_drop, size_of};

use crate::pages::remember;
use clru::{CLruCache, DefaultState, PutError, WeightScale};
use clru_through::{Loaded, Source, Through};

/// A text, which here is a number, and the time of its latest request.
#[derive(Clone, Copy, Drop)]
pub struct Used {
    pub text: u64,
    pub time: u64,
}

/// Returns the text of a page if its latest request was at most `idle` before now (time to idle), and notes this one. If it returns
/// nothing, fetch the page, and put it with this time.
pub fn text_in_use(pages: &mut CLruCache<u64, Used>, page: u64, now: u64, idle: u64) -> Option<u64>
    ensures recent { is_some result ≡ is_fresh nat_eq (λ used. used.time) (Some idle) (page, now) pages.old.entries }
    ensures noted { IfSome result (λ text. lookup (nat_eq page) pages.new.entries ≡ Some (record { text = text; time = now })) }
{
    let used = pages.get_mut(&page)?;
    if now.saturating_sub(used.time) > idle {
        return None;
    }
    *used = Used {
        text: used.text,
        time: now,
    };
    Some(used.text)
}

/// A size weighs itself.
#[derive(Clone, Copy, Drop)]
pub struct BySize;

impl<K> WeightScale<K, usize> for BySize {
    ghost weight = { λ _ _ size. size };

    fn weight(&self, _key: &K, size: &usize) -> usize {
        *size
    }
}

/// A cache of the sizes of pages, which weigh as much.
pub type Sizes = CLruCache<u64, usize, DefaultState, BySize>;

/// Changes a weighted value: gives a held page another size without a copy of its key, and returns whether it is held. A page that
/// is then too heavy is held no more.
pub fn change_size(sizes: &mut Sizes, page: &u64, size: usize) -> Result<bool, PutError<u64, usize>>
    ensures held { IfOk result (λ held. held ≡ is_some (lookup (nat_eq page.now) sizes.old.entries)) }
    ensures written { IfOk result (λ held. IsTrue held → lookup (nat_eq page.now) sizes.new.entries ≡ Some size) }
{
    if sizes.get(page).is_none() {
        return Ok(false);
    }
    match sizes.pop_front() {
        Some((key, _old)) => {
            sizes.put_with_weight_dropping(key, size)?;
            Ok(true)
        }
        None => Ok(false),
    }
}

/// Takes out the pair that a put of a page would drop: a listener before `put_or_modify`.
pub fn pop_for(looks: &mut CLruCache<u64, u64>, page: u64) -> Option<(u64, u64)>
    ensures { result ≡ plain_drop nat_eq looks.old.capacity page looks.old.entries }
{
    if looks.contains(&page) {
        return None;
    }
    if looks.len() < looks.capacity() {
        return None;
    }
    looks.pop_back()
}

/// Takes out the next pair that does not fit within the capacity, until it returns nothing: a listener before `resize`, and before
/// `clear` by a capacity of 0.
pub fn pop_above(sizes: &mut Sizes, capacity: usize) -> Option<(u64, usize)>
    ensures pair { IfSome result (λ pair. slice_get sizes.old.entries (length sizes.old.entries - 1) ≡ Some pair) }
    ensures fits { IsSome result ↔ (capacity < size_of (λ _ size. size) sizes.old.entries) }
{
    if sizes.size() > capacity {
        sizes.pop_back()
    } else {
        None
    }
}

/// Copies all entries into an empty cache of at least this capacity, in their order. Returns the pair for which memory was refused.
///
/// Saves and restores, if a list of the pairs stands between, and gives memory back, if the old cache is then dropped.
pub fn copy_into(from: &CLruCache<u64, u64>, to: &mut CLruCache<u64, u64>) -> Result<(), (u64, u64)>
    requires empty { to.old.entries ≡ [] }
    requires room { from.now.capacity ≤ to.old.capacity }
    ensures { OnOk result (to.new.entries ≡ from.now.entries) }
{
    // It tells that no page is held twice.
    let _ = from.len();
    let mut walk = from.iter();
    while let Some((page, text)) = walk.next_back() {
        to.put(*page, *text)?;
    }
    Ok(())
}

/// Puts a page only if it was seen before (admission on the second request), and returns whether it was.
pub fn put_seen(
    seen: &mut CLruCache<u64, ()>,
    pages: &mut CLruCache<u64, u64>,
    page: u64,
    text: u64,
) -> Result<bool, u64>
    ensures admitted { IfOk result (λ before. before ≡ is_some (lookup (nat_eq page) seen.old.entries)) }
    ensures put { IfOk result (λ before. IsTrue before → lookup (nat_eq page) pages.new.entries ≡ Some text) }
    ensures passed { IfOk result (λ before. IsTrue (not before) → pages.new.entries ≡ pages.old.entries) }
{
    let before = match seen.put(page, ()) {
        Ok(put) => put.replaced.is_some(),
        Err((page, ())) => return Err(page),
    };
    if !before {
        return Ok(false);
    }
    match remember(pages, page, text) {
        Ok(_) => Ok(true),
        Err((page, _)) => Err(page),
    }
}

/// Owners of pages, of which some have none.
#[derive(Drop)]
pub struct Owners {
    pub pages: u64,
    pub fetches: u64,
}

impl Source<u64, Option<u64>, ()> for Owners {
    // The pages below a number own themselves.
    ghost value = { λ owners page. Some (if nat_lt page owners.pages then Some page else None) };

    ghost fetches = { λ old _ _ new. new.fetches ≡ min (old.fetches + 1) (2 ^ 64 - 1) };

    fn fetch(&mut self, page: &u64) -> Result<Option<u64>, ()> {
        self.fetches = self.fetches.saturating_add(1);
        Ok(if *page < self.pages {
            Some(*page)
        } else {
            None
        })
    }

    ghost same = { Prim.search (rules, comparing) };
}

/// Returns the owner of a page. The store also holds that a page has none (negative caching), and so fetches it once.
pub fn owner_of(
    owners: &mut Through<u64, Option<u64>, (), Owners>,
    page: u64,
) -> Result<Option<u64>, ()>
    ensures owner { IfOk result (λ owner. owner ≡ (if nat_lt page owners.old.source.pages then Some page else None)) }
    ensures held { IsSome (lookup (nat_eq page) owners.old.cache.entries) → owners.new.source ≡ owners.old.source }
{
    match owners.load(page)? {
        Loaded::Passed(owner) => Ok(owner),
        Loaded::Held { .. } => match owners.peek(&page) {
            Some(owner) => Ok(*owner),
            None => unreachable!(),
        },
    }
}
