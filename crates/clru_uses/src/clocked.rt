//! A store of texts that get old: each is held with the time of its fetch, by a clock that the caller tells.
ghost use Rattle.std.specs.Prelude.{◌≡◌, ◌+◌, ◌-◌, ◌%◌, ◌≤◌, ◌^◌, ℕ, IfOk};
ghost use Rattle.std.specs.Cmp.Rules.{comparing};
ghost use Rattle.std.proofs.Common.{rules};
ghost use Rattle.clru_through.specs.Store.{AllKeep};
ghost use Rattle.clru_uses.specs.Clocked.{IsOfItsTime};

use clru::{CLruCache, DefaultState, NonZeroUsize, ZeroWeightScale};
use clru_through::{ByPromise, Fetch, Loaded, Through};
use std::alloc::Global;

/// A text, which here is a number, and when it was fetched.
#[derive(Clone, Copy, Drop)]
pub struct Dated {
    pub text: u64,
    pub at: u64,
}

/// Gives each page its text of this moment, which is another one at each moment.
#[derive(Drop)]
pub struct Origin {
    pub now: u64,
}

impl Fetch<u64, Dated, (), ByPromise> for Origin {
    // Of a page it is promised that a text is the one that the page had at the text's time.
    ghost Promise = { ℕ };

    ghost promised = { λ _ page. page };

    ghost keeps = { IsOfItsTime };

    ghost fetches = { λ old _ answer _. IfOk answer (λ dated. dated.at ≡ old.now) };

    fn fetch(&mut self, page: &u64) -> Result<Dated, ()> {
        if *page == 0 {
            return Err(());
        }
        Ok(Dated {
            text: page.wrapping_add(self.now),
            at: self.now,
        })
    }

    ghost same = { Prim.search (rules, comparing) };
}

/// The pages that were requested last.
pub type Pages = Through<u64, Dated, (), Origin, DefaultState, ZeroWeightScale, Global, ByPromise>;

/// Makes a store of so many pages. It takes no memory yet.
pub fn pages_of(alloc: Global, capacity: NonZeroUsize) -> Pages {
    Through::new(CLruCache::new(alloc, capacity), Origin { now: 0 })
}

/// Returns the text of a page that was fetched at most so long ago, by the given clock. If that clock went back, a text from
/// later counts as one from now.
pub fn text_within(pages: &mut Pages, page: u64, now: u64, limit: u64) -> Result<Dated, ()>
    ensures recent { IfOk result (λ dated. now - dated.at ≤ limit) }
    ensures dated { IfOk result (IsOfItsTime page) }
    ensures all_dated { AllKeep IsOfItsTime (λ page. page) pages.new.cache.entries }
{
    pages.source_mut().now = now;
    let loaded = pages.load_unless(page, |_, dated| now.saturating_sub(dated.at) > limit);
    // It tells that each text is of its time.
    let _ = pages.len();
    match loaded? {
        Loaded::Passed(dated) => Ok(dated),
        Loaded::Held { .. } => match pages.front() {
            Some((_, dated)) => Ok(*dated),
            None => unreachable!(),
        },
    }
}
