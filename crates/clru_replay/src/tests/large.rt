// An input and a report of over a million bytes.
use super::fakes::Noting;
use super::{equal, lines};
use crate::program::run;
use std::test::Fail;

#[test]
fn over_a_million_bytes_are_read_and_written(rt: HostRuntime) -> Result<(), Fail> {
    let input = lines(rt.alloc(), 599_999, [b"1\na", b"\na", b""])?;
    let report = lines(rt.alloc(), 599_999, [b"M\n", b"H\n", b"misses 1\n"])?;
    // A report of 1,200,009 bytes in 13 writes.
    let mut writer = Noting::new(rt.alloc(), 100_000, 0);
    let mut reader = input.as_slice();
    let outcome = run(rt.alloc(), &mut reader, &mut writer);
    equal(
        &rt,
        (outcome, writer.calls.len(), writer.got == report),
        (Ok(()), 14, true),
        "with the flush",
    );
    Ok(())
}
