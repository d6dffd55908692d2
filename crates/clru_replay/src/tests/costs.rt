// What a run asks for, what it offers its reader, and that no block is left however it ends.
use super::fakes::Noting;
use super::{FOUR, equal, lines};
use crate::fault::Fault;
use crate::program::run;
use ration::Rationed;
use std::alloc::Global;
use std::io::{self, Read};
use std::test::Fail;

// Gives what is left, and notes the length of each buffer. It fails once it has given all, where it is told to.
#[derive(Drop)]
struct Offered<'a> {
    left: &'a [u8],
    lengths: Vec<usize>,
    failing: bool,
}

impl<'a> Read for Offered<'a> {
    fn read(&mut self, buf: &mut [u8]) -> io::Result<usize> {
        self.lengths.push(buf.len())?;
        if self.failing && self.left.is_empty() {
            return Err(io::Error::from(io::ErrorKind::TimedOut));
        }
        self.left.read(buf)
    }
}

// How a run over the input ends, and the lengths of the buffers.
fn ran(
    alloc: Global,
    heap: &Rationed<Global>,
    input: &[u8],
    failing: bool,
    writer: &mut Noting,
) -> (Result<(), Fault>, Vec<usize>) {
    let mut reader = Offered {
        left: input,
        lengths: Vec::new(alloc),
        failing,
    };
    let outcome = run(heap, &mut reader, writer);
    (outcome, reader.lengths)
}

// The bytes of a place of the cache, and of a bucket with its part of the links.
const PLACE: u64 = 40;

const HEAD: u64 = 6;

#[test]
fn a_run_asks_for_what_its_input_needs(rt: HostRuntime) -> Result<(), Fail> {
    let large = lines(rt.alloc(), 600_000, [b"1", b"\na", b""])?;
    // Room for the input, the keys, places, buckets and marks, the report, and its last line.
    let small = 65_536 + 4 * 16 + 2 * PLACE + 4 * HEAD + 4 + (4 * 2 + 9) + (8 + 16);
    // Input and keys double from 65,536 and 4: six and 19 times. The report is asked for once.
    let input = 65_536 * 63;
    let keys = 16 * 4 * 524_287;
    let report = 600_000 * 2 + 9;
    let most = input + keys + PLACE + 2 * HEAD + 600_000 + report + (8 + 16);
    let offers = [
        65_536, 65_536, 131_072, 262_144, 524_288, 1_048_576, 897_151,
    ];
    let rows = [
        (FOUR, 1 + 1 + 3 + 1 + 2, small, [65_536, 65_527].as_slice()),
        (
            large.as_slice(),
            6 + 19 + 3 + 1 + 2,
            most,
            offers.as_slice(),
        ),
    ];
    for (input, requests, bytes, offers) in rows {
        let heap = Rationed::new(rt.alloc());
        let mut writer = Noting::new(rt.alloc(), usize::MAX, 0);
        let (outcome, lengths) = ran(rt.alloc(), &heap, input, false, &mut writer);
        equal(
            &rt,
            (
                outcome,
                heap.requests(),
                heap.requested_bytes(),
                lengths.as_slice(),
            ),
            (Ok(()), requests, bytes, offers),
            requests,
        );
    }
    Ok(())
}

#[test]
fn no_block_is_left_however_a_run_ends(rt: HostRuntime) {
    let rows = [
        (FOUR, false, 0, Ok(())),
        (FOUR, true, 0, Err(Fault::Reading)),
        (FOUR, false, 1, Err(Fault::Writing)),
        (FOUR, false, 2, Err(Fault::Writing)),
        (FOUR, false, 7, Err(Fault::Writing)),
        (b"0\na\n".as_slice(), false, 0, Err(Fault::BadCapacity)),
        (b"".as_slice(), false, 0, Err(Fault::BadCapacity)),
    ];
    for (input, failing, call, wanted) in rows {
        let heap = Rationed::new(rt.alloc());
        // A report of 17 bytes in six writes, and the flush.
        let mut writer = Noting::new(rt.alloc(), 3, call);
        let (outcome, _) = ran(rt.alloc(), &heap, input, failing, &mut writer);
        equal(&rt, (outcome, heap.blocks()), (wanted, 0), call);
    }
}
