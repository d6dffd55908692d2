//! Packed numbers of either form: what they hold, and the bytes that they ask for.

use clru_list::{NoMemory, PackedNumbers};
use ration::{Rationed, equal};
use std::alloc::Global;

/// What a number of 4 bytes holds at most.
const LAST: usize = 4294967295;

/// 4 bytes each, until one does not fit; a refused widening leaves them.
#[test]
fn numbers_widen(rt: HostRuntime) {
    let heap = Rationed::new(rt.alloc());
    equal!(rt; widened(&heap), Ok(((16, true, 32), (2, LAST + 1, LAST), (3, usize::MAX))));
}

/// The bytes before and after a widening and whether it is refused at first, the length and two numbers, and the same with one
/// more.
type Widened = ((u64, bool, u64), (usize, usize, usize), (usize, usize));

fn widened(heap: &Rationed<Global>) -> Result<Widened, NoMemory> {
    let mut numbers = PackedNumbers::new(heap);
    numbers.push(7)?;
    numbers.widen_for(LAST)?;
    numbers.push(LAST)?;
    let narrow_bytes = heap.held_bytes();
    heap.refuse_after(0);
    let refused = numbers.widen_for(LAST + 1).is_err();
    heap.refuse_none();
    numbers.widen_for(LAST + 1)?;
    let bytes = (narrow_bytes, refused, heap.held_bytes());
    numbers.set(0, LAST + 1);
    let two = (numbers.len(), numbers.get(0), numbers.get(1));
    numbers.push(usize::MAX)?;
    Ok((bytes, two, (numbers.len(), numbers.get(2))))
}

/// A lone 0 takes no memory until a number follows it.
#[test]
fn a_lone_zero_takes_no_memory(rt: HostRuntime) {
    let heap = Rationed::new(rt.alloc());
    equal!(rt; lone(&heap), Ok(((1, 0, 0), (2, 0, 9))));
}

/// The length, the number and the requests at first, and the length and both numbers with one more.
type Lone = ((usize, usize, u64), (usize, usize, usize));

fn lone(heap: &Rationed<Global>) -> Result<Lone, NoMemory> {
    let mut numbers = PackedNumbers::one_zero(heap);
    let zero = (numbers.len(), numbers.get(0), heap.requests());
    numbers.push(9)?;
    Ok((zero, (numbers.len(), numbers.get(0), numbers.get(1))))
}
