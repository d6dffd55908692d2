// Readers and writers that fail, and how they are called.
use super::fakes::{Call, Dripping, Noting};
use super::{FOUR, FOUR_MISSES, equal};
use crate::fault::Fault;
use crate::program::run;
use std::alloc::Global;
use std::io::ErrorKind;

// How a run ends over `input` a byte at a time, how often it reads, and its writer.
fn ran_dripping(
    alloc: Global,
    input: &[u8],
    failing: usize,
    kind: ErrorKind,
) -> (Result<(), Fault>, usize, Noting) {
    let mut reader = Dripping {
        left: input,
        calls: 0,
        failing,
        kind,
    };
    let mut writer = Noting::new(alloc, usize::MAX, 0);
    let outcome = run(alloc, &mut reader, &mut writer);
    (outcome, reader.calls, writer)
}

#[test]
fn a_reader_is_asked_until_it_answers_no_byte(rt: HostRuntime) {
    let (outcome, reads, writer) = ran_dripping(rt.alloc(), FOUR, 0, ErrorKind::TimedOut);
    // Nine bytes, and the end.
    equal(
        &rt,
        (outcome, writer.got.as_slice(), reads),
        (Ok(()), FOUR_MISSES, 10),
        "",
    );
}

#[test]
fn a_failed_read_of_any_kind_is_the_last_call(rt: HostRuntime) {
    for failing in [1, 2, 3, 10] {
        for kind in [ErrorKind::TimedOut, ErrorKind::Interrupted] {
            let (outcome, reads, writer) = ran_dripping(rt.alloc(), FOUR, failing, kind);
            equal(
                &rt,
                (outcome, reads, writer.calls.len()),
                (Err(Fault::Reading), failing, 0),
                failing,
            );
        }
    }
}

#[test]
fn a_bad_capacity_is_no_call_of_the_writer(rt: HostRuntime) {
    let (outcome, reads, writer) = ran_dripping(rt.alloc(), b"0\na\n", 0, ErrorKind::TimedOut);
    // Four bytes, and the end.
    equal(
        &rt,
        (outcome, reads, writer.calls.len()),
        (Err(Fault::BadCapacity), 5, 0),
        "",
    );
}

// What a writer that takes three bytes a call is offered of the report, and the flush.
const BY_THREE: [Call; 7] = [
    Call::Offer(17),
    Call::Offer(14),
    Call::Offer(11),
    Call::Offer(8),
    Call::Offer(5),
    Call::Offer(2),
    Call::Flush,
];

#[test]
fn a_writer_is_offered_all_that_is_left_and_flushed_once(rt: HostRuntime) {
    let whole = [Call::Offer(17), Call::Flush];
    let rows = [
        (usize::MAX, 0, FOUR_MISSES, whole.as_slice()),
        (17, 2, FOUR_MISSES, whole.as_slice()),
        (3, 0, FOUR_MISSES, BY_THREE.as_slice()),
        (3, 3, b"M\nM\nM\n".as_slice(), &BY_THREE[..3]),
        (3, 7, FOUR_MISSES, BY_THREE.as_slice()),
        (0, 0, b"".as_slice(), &BY_THREE[..1]),
    ];
    for (most, failing, got, calls) in rows {
        let mut writer = Noting::new(rt.alloc(), most, failing);
        let mut reader = FOUR;
        let outcome = run(rt.alloc(), &mut reader, &mut writer);
        let fails = most == 0 || failing > 0;
        let wanted = if fails { Err(Fault::Writing) } else { Ok(()) };
        equal(
            &rt,
            (outcome, writer.got.as_slice(), writer.calls.as_slice()),
            (wanted, got, calls),
            (failing, most),
        );
    }
}
