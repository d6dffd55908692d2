//! A store of pages, which are fetched by name.
ghost use Rattle.std.specs.Prelude.{◌≡◌, ℕ, ◌+◌, ◌-◌, ◌^◌, [], ◌∷◌, ◌++◌, List, Some, IfOk, is_some, length, min};
ghost use Rattle.std.specs.Map.{lookup};
ghost use Rattle.std.specs.String.{string_bytes, string_eq};
ghost use Rattle.std.specs.Cmp.Rules.{comparing};
ghost use Rattle.std.proofs.Common.{rules};

use clru::{CLruCache, NonZeroUsize};
use clru_through::{Loaded, Source, Through};
use std::alloc::{AllocError, Global};
use std::marker::Model;

/// A page. Contracts see its bytes alone, so that two fetches of one name give the same value.
#[derive(Drop)]
pub struct Page {
    bytes: Vec<u8>,
}

impl Model for Page {
    ghost Value = { List ℕ };

    ghost view = { λ page. page.bytes.items };
}

/// Gives a page for each name, and counts the fetches.
#[derive(Drop)]
pub struct Shelf {
    alloc: Global,
    pub fetches: u64,
}

impl Source<String, Page, AllocError> for Shelf {
    // The page of a name has the name's bytes and a full stop.
    ghost value = { λ _ name. Some (string_bytes name ++ 46 ∷ []) };

    // Each fetch is counted, whether it succeeds or fails.
    ghost fetches = { λ old _ _ new. new.fetches ≡ min (old.fetches + 1) (2 ^ 64 - 1) };

    fn fetch(&mut self, name: &String) -> Result<Page, AllocError> {
        self.fetches = self.fetches.saturating_add(1);
        let mut bytes = Vec::from_slice(self.alloc, name.as_bytes())?;
        bytes.push(b'.')?;
        Ok(Page { bytes })
    }

    ghost same = { Prim.search (rules, comparing) };
}

/// The pages that were requested last.
pub type Pages = Through<String, Page, AllocError, Shelf>;

/// Makes a store of so many pages. It takes no memory yet.
pub fn pages_of(alloc: Global, capacity: NonZeroUsize) -> Pages {
    Through::new(CLruCache::new(alloc, capacity), Shelf { alloc, fetches: 0 })
}

/// Returns the length of a page, and whether it was held.
pub fn length_of(pages: &mut Pages, name: String) -> Result<(usize, bool), AllocError>
    ensures length { IfOk result (λ found. found.0 ≡ length (string_bytes name) + 1) }
    ensures held { IfOk result (λ found. found.1 ≡ is_some (lookup (string_eq name) pages.old.cache.entries)) }
{
    match pages.load(name)? {
        Loaded::Passed(page) => Ok((page.bytes.len(), false)),
        Loaded::Held { fetched } => match pages.front() {
            Some((_, page)) => Ok((page.bytes.len(), !fetched)),
            None => unreachable!(),
        },
    }
}
