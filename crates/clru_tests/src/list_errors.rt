//! Refusals of the list as errors, whatever the item is, and a caller that passes them up.

use crate::printed::prints;
use clru_list::{FixedSizeList, NoMemory, PushError};
use clru_uses::of_lists::errors::{message, ready_list};
use ration::equal;
use std::alloc::{AllocError, Global};
use std::test::Fail;

// It does not print itself.
#[derive(Drop)]
struct Page(u64);

#[test]
fn a_refused_push_is_an_error_whatever_the_item_is(rt: HostRuntime) {
    let full = PushError::Full(Page(1));
    equal!(rt; prints(rt.alloc(), full, "the list is full, Full(..)"), Ok(true));
    let no_memory = PushError::NoMemory(Page(1));
    equal!(rt; prints(rt.alloc(), no_memory, "out of memory, NoMemory(..)"), Ok(true));
    equal!(rt; prints(rt.alloc(), NoMemory, "out of memory, NoMemory"), Ok(true));
    equal!(rt; is_message(rt.alloc(), "the list is full"), Ok(true));
}

fn is_message(alloc: Global, text: &str) -> Result<bool, AllocError> {
    Ok(message(alloc, &PushError::Full(3))?.as_str() == text)
}

#[test]
fn callers_pass_refusals_up(rt: HostRuntime) -> Result<(), Fail> {
    equal!(rt; pushes_to_ready(rt.alloc())?, Some(5));
    equal!(rt; holds_a_page(rt.alloc())?, true);
    Ok(())
}

fn pushes_to_ready(alloc: Global) -> Result<Option<u64>, Fail> {
    let mut list = ready_list(alloc, 1)?;
    pushes(&mut list)
}

fn holds_a_page(alloc: Global) -> Result<bool, Fail> {
    pushes_a_page(&mut FixedSizeList::new(alloc, 1))
}

fn pushes(list: &mut FixedSizeList<u64>) -> Result<Option<u64>, Fail> {
    list.push_back(5)?;
    Ok(list.front().copied())
}

fn pushes_a_page(pages: &mut FixedSizeList<Page>) -> Result<bool, Fail> {
    pages.push_back(Page(5))?;
    Ok(pages.front().is_some_and(|page| page.0 == 5))
}
