// What the program returns if requests for memory are refused.
use super::{FOUR, FOUR_MISSES, equal};
use crate::fault::Fault;
use crate::program::run;
use ration::Rationed;
use std::alloc::Global;

// How a run ends over `input`, and what it writes, where its requests for memory go to `heap`.
fn ran_over(alloc: Global, heap: &Rationed<Global>, input: &[u8]) -> (Result<(), Fault>, Vec<u8>) {
    let mut reader = input;
    let mut written = Vec::new(alloc);
    let outcome = run(heap, &mut reader, &mut written);
    (outcome, written)
}

#[test]
fn each_refused_request_is_want_of_memory(rt: HostRuntime) {
    let mut met_none = false;
    for n in 0..100u64 {
        let heap = Rationed::new(rt.alloc());
        heap.refuse_one_after(n);
        let (outcome, written) = ran_over(rt.alloc(), &heap, FOUR);
        met_none = heap.refused() == 0;
        let asked = heap.requests();
        let wanted = if met_none {
            (Ok(()), FOUR_MISSES, asked)
        } else {
            // Nothing is asked again.
            (Err(Fault::Memory), b"".as_slice(), n + 1)
        };
        equal(&rt, (outcome, written.as_slice(), asked), wanted, n);
        equal(&rt, heap.blocks(), 0, n);
        if met_none {
            break;
        }
    }
    equal(&rt, met_none, true, "the last one");
}

#[test]
fn a_first_line_is_tested_before_other_memory_is_asked_for(rt: HostRuntime) {
    for (n, wanted) in [(0, Fault::Memory), (1, Fault::BadCapacity)] {
        let heap = Rationed::new(rt.alloc());
        heap.refuse_after(n);
        let (outcome, written) = ran_over(rt.alloc(), &heap, b"0\na\n");
        equal(
            &rt,
            (outcome, heap.requests(), written.len()),
            (Err(wanted), 1, 0),
            n,
        );
    }
}
