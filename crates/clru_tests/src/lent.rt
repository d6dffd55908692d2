//! Memory that was lent: what is left of it, what it refuses, and what it hands back.

use ration::{LentBlock, Loan, equal, shows};
use std::alloc::AllocError;
use std::process::Abort;

fn lent<R: Abort + AllocGlobal>(rt: &R, size: usize) -> LentBlock {
    LentBlock::new(Loan::taken(&rt.alloc(), size).expect(rt, "a block"))
}

// What is handed back, lent again.
fn lent_again(rt: &impl Abort, heap: LentBlock) -> LentBlock {
    LentBlock::new(heap.into_loan().expect(rt, "what is handed back"))
}

/// A list of lent memory, if there was any. Where it is not asked for by `?`, nothing has to be let go of on the way.
type List<'h, T> = Result<Vec<T, &'h LentBlock>, AllocError>;

fn count<T: PartialEq + Drop>(list: &List<'_, T>, item: T) -> usize {
    let Ok(items) = list else {
        return 0;
    };
    let mut found = 0usize;
    for each in items {
        if *each == item {
            found = found.saturating_add(1);
        }
    }
    found
}

#[test]
fn a_block_is_filled_and_freed_from_the_top(rt: HostRuntime) {
    let heap = lent(&rt, 100);
    equal!(rt; (heap.left(), frees(&heap)), (96, (80, 32, (true, 32, 0, true), (32, 32, 80))));
    equal!(rt; lent_again(&rt, heap).left(), 80);
}

/// What is left with one byte, which takes 16, with five words, which take 48, what a filling does then, and what is left after it,
/// without the byte, which lies below the words and is lost, and without the words.
type Freed = (usize, usize, Filled, (usize, usize, usize));

fn frees(heap: &LentBlock) -> Freed {
    let byte = Box::new(heap, 7u8);
    let one = heap.left();
    let words: List<'_, u64> = Vec::with_capacity(heap, 5);
    let both = heap.left();
    let filled = fills(heap);
    // The last one is free again.
    let last = heap.left();
    drop(byte);
    let below = heap.left();
    drop(words);
    (one, both, filled, (last, below, heap.left()))
}

/// Whether a block is refused, what is left then and once all is taken, and whether one more is refused.
type Filled = (bool, usize, usize, bool);

/// Of 32 bytes that are left: whether 33 are refused, what is left then and once 32 are taken, and whether one more is refused.
fn fills(heap: &LentBlock) -> Filled {
    let refused = Vec::<u8, &LentBlock>::with_capacity(heap, 33).is_err();
    let left = heap.left();
    let _bytes: List<'_, u8> = Vec::with_capacity(heap, 32);
    (refused, left, heap.left(), Box::new(heap, 1u8).is_err())
}

#[test]
fn a_block_may_be_aligned_to_sixteen(rt: HostRuntime) {
    equal!(rt; aligns(&lent(&rt, 64)), Ok((7, Ok((8, 32)))));
}

/// A byte, and behind it a number that is aligned to 16, with what is left then.
fn aligns(heap: &LentBlock) -> Result<(u8, Result<(u128, usize), AllocError>), AllocError> {
    let byte = Box::new(heap, 7u8)?;
    Ok((*byte, aligned(heap)))
}

fn aligned(heap: &LentBlock) -> Result<(u128, usize), AllocError> {
    let wide = Box::new(heap, 8u128)?;
    Ok((*wide, heap.left()))
}

#[test]
fn a_block_freed_in_reverse_is_handed_back_whole(rt: HostRuntime) {
    let mut heap = lent(&rt, 4096);
    for _ in 0..3 {
        // Nothing lies on another.
        equal!(rt; (counts(&heap), heap.left()), ((1000, 101, 7), 4096));
        heap = lent_again(&rt, heap);
    }
}

fn counts(heap: &LentBlock) -> (usize, usize, usize) {
    let low = Vec::from_elem(heap, 1u8, 1000);
    let middle = Vec::from_elem(heap, 2u32, 101);
    let high = Vec::from_elem(heap, 3u64, 7);
    let counts = (count(&low, 1), count(&middle, 2), count(&high, 3));
    drop(high);
    drop(middle);
    drop(low);
    counts
}

#[test]
fn the_last_list_grows_in_place(rt: HostRuntime) {
    let heap = lent(&rt, 4096);
    // All 4096 bytes hold numbers, which a list that moves as it grows could not have.
    equal!(rt; (grows(&heap), heap.left()), ((512, 512, 0), 4096));
}

/// How many numbers are right, how many there are, and what is left then.
fn grows(heap: &LentBlock) -> (usize, usize, usize) {
    let mut numbers = Vec::new(heap);
    for number in 0..1000usize {
        if numbers.push(number).is_err() {
            break;
        }
    }
    let mut right = 0usize;
    for index in 0..numbers.len() {
        if numbers.get(index) == Some(&index) {
            right = right.saturating_add(1);
        }
    }
    (right, numbers.len(), heap.left())
}

#[test]
fn a_list_below_another_moves_as_it_grows(rt: HostRuntime) {
    // The old block is lost, and the new one has room for eight.
    let left = 4096 - 32 - 32 - 64;
    equal!(rt; moves(&lent(&rt, 4096)), ((5, 4, left), (5, left)));
}

/// The items of both lists and what is left once the one below has grown, and its items and what is left once it has shrunk.
fn moves(heap: &LentBlock) -> ((usize, usize, usize), (usize, usize)) {
    let mut low = Vec::from_elem(heap, 1u64, 4);
    let high = Vec::from_elem(heap, 2u64, 4);
    if let Ok(low) = &mut low {
        let _ = low.push(1);
    }
    let grown = (count(&low, 1), count(&high, 2), heap.left());
    if let Ok(low) = &mut low {
        low.shrink_to_fit();
    }
    (grown, (count(&low, 1), heap.left()))
}

#[test]
fn a_block_prints_what_is_left(rt: HostRuntime) {
    equal!(rt; shows(rt.alloc(), &lent(&rt, 100), "LentBlock { left: 96 }"), Ok(true));
}
