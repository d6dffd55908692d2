//! The allocator that refuses: what it counts and refuses, by vectors that grow and shrink.

use crate::rations::Step::{
    Capacity, Counts, Limit, Push, RefuseAfter, RefuseNone, RefuseOneAfter, Reserve, Shrink,
};
use ration::{Rationed, equal};
use std::alloc::{Allocator, Global};

type Numbers<'a> = Vec<u64, &'a Rationed<Global>>;

/// A call of a vector or of its allocator, or a look at one.
enum Step {
    /// So many pushes, and whether the last one went in.
    Push(u64, bool),
    /// Room for so many more, and whether it was found.
    Reserve(usize, bool),
    Shrink,
    Capacity(usize),
    RefuseAfter(u64),
    RefuseOneAfter(u64),
    RefuseNone,
    /// So many bytes may be held at once.
    Limit(u64),
    /// Requests, those that were refused, and blocks; bytes that were asked for, and those that are held.
    Counts(u64, u64, u64, u64, u64),
}

static GROWTHS: &[Step] = &[
    Counts(0, 0, 0, 0, 0),
    Push(1, true),
    Counts(1, 0, 1, 32, 32),
    Reserve(8, true),
    Counts(2, 0, 1, 104, 72),
    Push(8, true),
    Counts(2, 0, 1, 104, 72),
    Push(1, true),
    Counts(3, 0, 1, 248, 144),
    Shrink,
    Counts(4, 0, 1, 328, 80),
];

static REFUSALS: &[Step] = &[
    Reserve(2, true),
    Push(1, true),
    RefuseAfter(0),
    Shrink,
    Capacity(2),
    Push(1, true),
    Push(1, false),
    Reserve(1, false),
    Counts(4, 3, 1, 80, 16),
    RefuseNone,
    Push(1, true),
    Counts(5, 3, 1, 112, 32),
];

static BYTES: &[Step] = &[
    Reserve(4, true),
    Push(1, true),
    Counts(1, 0, 1, 32, 32),
    Reserve(7, true),
    Counts(2, 0, 1, 96, 64),
    RefuseOneAfter(0),
    Reserve(15, false),
    Counts(3, 1, 1, 224, 64),
];

// The old block lies beside the new one, and a limit stays where no request is refused any more.
static LIMITS: &[Step] = &[
    Reserve(1, true),
    Limit(32),
    Reserve(4, false),
    Reserve(3, true),
    Counts(3, 1, 1, 64, 24),
    RefuseNone,
    Reserve(4, false),
    Limit(56),
    Reserve(4, true),
    Counts(5, 2, 1, 128, 32),
];

fn counts(heap: &Rationed<Global>) -> (u64, u64, u64, u64, u64) {
    (
        heap.requests(),
        heap.refused(),
        heap.blocks(),
        heap.requested_bytes(),
        heap.held_bytes(),
    )
}

fn pushes(numbers: &mut Numbers, number: u64) -> bool {
    let mut pushed = false;
    for i in 0..number {
        pushed = numbers.push(i).is_ok();
    }
    pushed
}

fn is_right(heap: &Rationed<Global>, numbers: &mut Numbers, step: &Step) -> bool {
    match step {
        Push(number, pushed) => pushes(numbers, *number) == *pushed,
        Reserve(more, reserved) => numbers.reserve_exact(*more).is_ok() == *reserved,
        Shrink => {
            numbers.shrink_to_fit();
            true
        }
        Capacity(capacity) => numbers.capacity() == *capacity,
        RefuseAfter(number) => {
            heap.refuse_after(*number);
            true
        }
        RefuseOneAfter(number) => {
            heap.refuse_one_after(*number);
            true
        }
        RefuseNone => {
            heap.refuse_none();
            true
        }
        Limit(bytes) => {
            heap.limit_bytes(*bytes);
            true
        }
        Counts(requests, refused, blocks, bytes, held) => {
            counts(heap) == (*requests, *refused, *blocks, *bytes, *held)
        }
    }
}

/// Makes the calls of an empty vector, and answers which of them answered something else, if any.
fn first_wrong(heap: &Rationed<Global>, steps: &[Step]) -> Option<usize> {
    let mut numbers = Vec::new(heap);
    wrong_of(heap, &mut numbers, steps)
}

fn wrong_of(heap: &Rationed<Global>, numbers: &mut Numbers, steps: &[Step]) -> Option<usize> {
    for (i, step) in steps.iter().enumerate() {
        if !is_right(heap, numbers, step) {
            return Some(i);
        }
    }
    None
}

#[test]
fn a_vector_asks_for_what_it_needs(rt: HostRuntime) {
    for steps in [GROWTHS, REFUSALS, BYTES, LIMITS] {
        let heap = Rationed::new(rt.alloc());
        equal!(rt; first_wrong(&heap, steps), None);
        equal!(rt; (heap.blocks(), heap.held_bytes()), (0, 0));
    }
}

/// Whether two vectors over copies of one handle find memory. Where the first finds none, the second is not made.
fn twins<A: Allocator + Copy>(alloc: A) -> bool {
    let Ok(first) = Vec::<u8, A>::with_capacity(alloc, 1) else {
        return false;
    };
    let second = Vec::<u8, A>::with_capacity(alloc, 1).is_ok();
    second && first.is_empty()
}

/// Requests, those that were refused, and blocks.
fn requests<A: Allocator + Copy>(heap: &Rationed<A>) -> (u64, u64, u64) {
    (heap.requests(), heap.refused(), heap.blocks())
}

#[test]
fn a_refusal_below_is_no_block(rt: HostRuntime) {
    let low = Rationed::new(rt.alloc());
    let heap = Rationed::new(&low);
    low.refuse_one_after(0);
    equal!(rt; (twins(&heap), requests(&heap)), (false, (1, 1, 0)));
    equal!(rt; (twins(&heap), requests(&heap)), (true, (3, 1, 0)));
    equal!(rt; requests(&low), (3, 1, 0));
}

#[test]
fn refuses_all_from_the_nth_on(rt: HostRuntime) {
    let heap = Rationed::new(rt.alloc());
    heap.refuse_after(1);
    equal!(rt; (twins(&heap), twins(&heap)), (false, false));
    equal!(rt; requests(&heap), (3, 2, 0));
}

/// Whether the third request is refused, and the one after it is not, while two vectors hold a block each.
fn grows_at_last(heap: &Rationed<Global>, first: &mut Numbers, second: &mut Numbers) -> bool {
    let held = first.reserve_exact(1).is_ok() && second.reserve_exact(1).is_ok();
    let refused = heap.blocks() == 2 && first.reserve_exact(9).is_err();
    let kept = (first.capacity(), second.capacity()) == (1, 1);
    held && refused && kept && first.reserve_exact(9).is_ok()
}

fn refuses_the_third(heap: &Rationed<Global>) -> bool {
    let (mut first, mut second) = (Vec::new(heap), Vec::new(heap));
    grows_at_last(heap, &mut first, &mut second)
}

#[test]
fn refuses_one_in_the_middle(rt: HostRuntime) {
    let heap = Rationed::new(rt.alloc());
    heap.refuse_one_after(2);
    equal!(rt; (refuses_the_third(&heap), requests(&heap)), (true, (4, 1, 0)));
}
