//! Logs that are counted, written, read and joined, next to the whole.
use crate::{JoinError, count_part, join_parts};
use clru_parts::{Part, read_part, write_part};
use clru_report::DefaultState;
use std::alloc::Global;
use std::fmt::Debug;
use std::process::Abort;
use std::test::Fail;

fn equal<T: PartialEq + Debug + Drop>(rt: &impl Abort, left: T, right: T) {
    assert_eq!(rt; left, right);
}

fn part_of(alloc: Global, log: &[u8]) -> Result<Part, Fail> {
    let mut left = log;
    match count_part(alloc, &mut left, DefaultState) {
        Ok(part) => Ok(part),
        Err(_) => Err("a log was not counted")?,
    }
}

fn text_of(alloc: Global, part: &Part) -> Result<Vec<u8>, Fail> {
    let mut text = Vec::new(alloc);
    write_part(alloc, part, &mut text)?;
    Ok(text)
}

fn read_of(alloc: Global, text: &[u8]) -> Result<Part, Fail> {
    match read_part(alloc, text) {
        Ok((part, _)) => Ok(part),
        Err(_) => Err("a part was refused")?,
    }
}

fn refusal_of(alloc: Global, one: &Part, two: &Part) -> Option<JoinError> {
    match join_parts(alloc, one, two, DefaultState) {
        Ok(_) => None,
        Err(error) => Some(error),
    }
}

/// Parts of a log, cut behind newlines, but for the end.
static LOGS: [&[u8]; 3] = [b"a\nb\na\nc\n", b"", b"b\na\nd"];

#[test]
fn joined_parts_are_that_of_the_whole(rt: HostRuntime) -> Result<(), Fail> {
    let alloc = rt.alloc();
    let mut whole = Vec::new(alloc);
    let mut joined = part_of(alloc, b"")?;
    for log in &LOGS {
        whole.extend_from_slice(log)?;
        let text = text_of(alloc, &part_of(alloc, log)?)?;
        let next = read_of(alloc, text.as_slice())?;
        joined = match join_parts(alloc, &joined, &next, DefaultState) {
            Ok(both) => both,
            Err(_) => return Err("parts were not joined")?,
        };
        let counted = part_of(alloc, whole.as_slice())?;
        equal(&rt, text_of(alloc, &joined)?, text_of(alloc, &counted)?);
    }
    Ok(())
}

#[test]
fn a_sample_is_not_joined(rt: HostRuntime) -> Result<(), Fail> {
    let alloc = rt.alloc();
    let one = part_of(alloc, LOGS[0])?;
    let mut two = part_of(alloc, LOGS[2])?;
    equal(&rt, refusal_of(alloc, &one, &two), None);
    two.counts.one_in = 0;
    equal(&rt, refusal_of(alloc, &one, &two), Some(JoinError::Sampled));
    equal(&rt, refusal_of(alloc, &two, &one), Some(JoinError::Sampled));
    two.counts.one_in = 1;
    two.counts.bytes = usize::MAX;
    equal(&rt, refusal_of(alloc, &one, &two), Some(JoinError::TooMany));
    Ok(())
}
