// What the program returns for worked inputs.
mod costs;
mod fakes;
mod faults;
mod large;
mod memory;

use crate::fault::{Fault, status};
use crate::program::run;
use std::alloc::{AllocError, Global};
use std::fmt::Debug;
use std::process::Abort;
use std::test::Fail;

const FOUR: &[u8] = b"2\na\nb\nc\na";

const FOUR_MISSES: &[u8] = b"M\nM\nM\nM\nmisses 4\n";

// Ends the process where the two are not equal, by a message that shows `of`. std's macro is proved wherever it stands, and a
// call in a fifth of the time.
fn equal<T: PartialEq + Debug + Drop>(rt: &impl Abort, left: T, right: T, of: impl Debug + Drop) {
    assert_eq!(rt; left, right, "{of:?}");
}

// The first text, the second so many times, and the third.
fn lines(
    alloc: Global,
    times: usize,
    [first, line, last]: [&[u8]; 3],
) -> Result<Vec<u8>, AllocError> {
    let mut text = Vec::from_slice(alloc, first)?;
    for _ in 0..times {
        text.extend_from_slice(line)?;
    }
    text.extend_from_slice(last)?;
    Ok(text)
}

// How a run ends, and what it writes.
fn ran(alloc: Global, input: &[u8]) -> (Result<(), Fault>, Vec<u8>) {
    let mut reader = input;
    let mut written = Vec::new(alloc);
    let outcome = run(alloc, &mut reader, &mut written);
    (outcome, written)
}

#[test]
fn worked_inputs_give_their_reports(rt: HostRuntime) {
    let rows = [
        (FOUR, FOUR_MISSES),
        (b"007\nx\nx\n".as_slice(), b"M\nH\nmisses 1\n".as_slice()),
        (b"2\n\n\n".as_slice(), b"M\nH\nmisses 1\n".as_slice()),
        (b"2".as_slice(), b"misses 0\n".as_slice()),
        (
            b"18446744073709551615\na\n".as_slice(),
            b"M\nmisses 1\n".as_slice(),
        ),
        (
            b"1\n\0\n\0\n\0\r\n".as_slice(),
            b"M\nH\nM\nmisses 2\n".as_slice(),
        ),
    ];
    for (input, report) in rows {
        let (outcome, written) = ran(rt.alloc(), input);
        equal(&rt, (outcome, written.as_slice()), (Ok(()), report), input);
    }
}

#[test]
fn a_first_line_that_is_no_capacity_is_a_fault(rt: HostRuntime) {
    let inputs = [
        b"".as_slice(),
        b"0\n".as_slice(),
        b"\n2\na\n".as_slice(),
        b"18446744073709551616\na\n".as_slice(),
        b"+2\na\n".as_slice(),
        b"2\r\na\n".as_slice(),
        b"000000000000000000001\n".as_slice(),
    ];
    for input in inputs {
        let (outcome, written) = ran(rt.alloc(), input);
        equal(
            &rt,
            (outcome, written.len()),
            (Err(Fault::BadCapacity), 0),
            input,
        );
    }
}

#[test]
fn each_fault_has_its_status(rt: HostRuntime) {
    let rows = [
        (Fault::BadCapacity, 2),
        (Fault::Memory, 3),
        (Fault::Reading, 4),
        (Fault::Writing, 5),
    ];
    for (fault, number) in rows {
        equal(&rt, status(&fault), number, number);
    }
}

// A capacity, and then 1,000 requests that go round four keys.
fn round_of_four(alloc: Global, capacity: &[u8]) -> Result<Vec<u8>, AllocError> {
    lines(alloc, 250, [capacity, b"\na\nb\nc\nd", b""])
}

#[test]
fn a_round_of_four_keys_hits_with_room_for_four_alone(rt: HostRuntime) -> Result<(), Fail> {
    let rows = [
        (b"3", b"M\n", b"misses 1000\n".as_slice()),
        (b"4", b"H\n", b"misses 4\n".as_slice()),
    ];
    for (capacity, line, last) in rows {
        let (outcome, written) = ran(rt.alloc(), &round_of_four(rt.alloc(), capacity)?);
        let report = lines(rt.alloc(), 996, [b"M\nM\nM\nM\n", line, last])?;
        equal(
            &rt,
            (outcome, written.as_slice()),
            (Ok(()), report.as_slice()),
            capacity,
        );
    }
    Ok(())
}
