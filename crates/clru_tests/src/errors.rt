//! Refusals as errors, whatever the pair is, and callers that pass them up.

use crate::printed::prints;
use clru::{CLruCache, NoMemory, NonZeroUsize, PutError};
use clru_uses::errors::{StoreError, message, put_page, put_page_in_io, store};
use ration::equal;
use std::alloc::{AllocError, Global};
use std::test::Fail;

// Neither prints itself.
#[derive(Drop, PartialEq, Eq, Hash)]
struct Name(u64);

#[derive(Drop)]
struct Page(u64);

#[test]
fn a_refusal_is_an_error_whatever_the_pair_is(rt: HostRuntime) {
    let heavy = PutError::TooHeavy(Name(1), Page(2));
    let text = "the pair is too heavy for the cache, TooHeavy(..)";
    equal!(rt; prints(rt.alloc(), heavy, text), Ok(true));
    let no_memory = PutError::NoMemory(Name(1), Page(2));
    equal!(rt; prints(rt.alloc(), no_memory, "out of memory, NoMemory(..)"), Ok(true));
    equal!(rt; prints(rt.alloc(), NoMemory, "out of memory, NoMemory"), Ok(true));
}

type Pages = CLruCache<Name, Page>;

#[test]
fn a_test_passes_any_refusal_up(rt: HostRuntime) -> Result<(), Fail> {
    equal!(rt; holds_a_page(rt.alloc())?, true);
    Ok(())
}

fn holds_a_page(alloc: Global) -> Result<bool, Fail> {
    puts_a_page(&mut CLruCache::new(alloc, NonZeroUsize::MIN))
}

// Whether the page is held that is put.
fn puts_a_page(pages: &mut Pages) -> Result<bool, Fail> {
    pages.put_with_weight(Name(1), Page(2), |_, _| {})?;
    Ok(pages.get(&Name(1)).is_some_and(|page| page.0 == 2))
}

type Sizes = CLruCache<u64, u64>;

#[test]
fn callers_pass_refusals_up(rt: HostRuntime) {
    let mut sizes = CLruCache::new(rt.alloc(), NonZeroUsize::MIN);
    let passed = (
        stores(&mut sizes),
        refuses_a_word(&mut sizes),
        stores_in_io(&mut sizes),
    );
    equal!(rt; passed, (Ok((Some(70), Some(80))), true, Some(80)));
}

fn stores_in_io(sizes: &mut Sizes) -> Option<u64> {
    match put_page_in_io(sizes, 4, 90) {
        Ok(old) => old,
        Err(_) => None,
    }
}

fn stores(sizes: &mut Sizes) -> Result<(Option<u64>, Option<u64>), AllocError> {
    let stored = store(sizes, "3", 70).is_ok();
    let first = sizes.peek(&3).copied().filter(|_| stored);
    put_page(sizes, 4, 80)?;
    Ok((first, sizes.peek(&4).copied()))
}

fn refuses_a_word(sizes: &mut Sizes) -> bool {
    matches!(store(sizes, "x", 70), Err(StoreError::NoNumber(_)))
}

#[test]
fn a_refusal_prints_within_another(rt: HostRuntime) {
    let heavy = StoreError::from(PutError::TooHeavy(3, 70));
    let text = "not stored: the pair is too heavy for the cache, Refused(TooHeavy(..))";
    equal!(rt; prints(rt.alloc(), heavy, text), Ok(true));
    equal!(rt; is_message(rt.alloc(), "out of memory"), Ok(true));
}

fn is_message(alloc: Global, text: &str) -> Result<bool, AllocError> {
    Ok(message(alloc, &PutError::NoMemory(3, 70))?.as_str() == text)
}
