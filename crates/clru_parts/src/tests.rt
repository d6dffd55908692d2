//! What is written of a part, and which damage is named.
use crate::{Counts, Part, PartError, read_part, write_part};
use std::alloc::{AllocError, Global};
use std::fmt::Debug;
use std::process::Abort;
use std::test::Fail;

fn equal<T: PartialEq + Debug + Drop>(rt: &impl Abort, left: T, right: T, of: usize) {
    assert_eq!(rt; left, right, "{of}");
}

/// The text of the part of the lines a, b, a, b.
static TEXT: &[u8] =
    b"clru_mrc part 1\nkeys, one in 1\n4\n8\n4\na\nb\n4\na\nb\n4\n4\n2\n14748836911864396166\n";

fn write_four(alloc: Global, text: &mut Vec<u8>) -> Result<(), AllocError> {
    let part = Part {
        counts: Counts {
            one_in: 1,
            requests: 4,
            bytes: 8,
        },
        firsts: b"a\nb\n".to_vec(alloc)?,
        lasts: b"a\nb\n".to_vec(alloc)?,
        curve: vec![in alloc; 4, 2]?,
    };
    write_part(alloc, &part, text)
}

fn refusal_of(alloc: Global, bytes: &[u8]) -> Option<PartError> {
    match read_part(alloc, bytes) {
        Ok(_) => None,
        Err(error) => Some(error),
    }
}

#[test]
fn parts_are_read_one_by_one(rt: HostRuntime) -> Result<(), Fail> {
    let alloc = rt.alloc();
    let mut text = Vec::new(alloc);
    write_four(alloc, &mut text)?;
    equal(&rt, text.as_slice(), TEXT, 0);
    write_four(alloc, &mut text)?;
    let mut left = text.as_slice();
    for _ in 0..2 {
        match read_part(alloc, left) {
            Ok((part, rest)) => {
                equal(&rt, part.curve.as_slice(), [4, 2].as_slice(), 0);
                equal(&rt, part.lasts.as_slice(), b"a\nb\n".as_slice(), 0);
                left = rest;
            }
            Err(_) => return Err("a part was refused")?,
        }
    }
    equal(&rt, left.len(), 0, 0);
    Ok(())
}

#[test]
fn a_part_that_is_cut_short_is_refused_as_short(rt: HostRuntime) -> Result<(), Fail> {
    for length in 0..TEXT.len() {
        equal(
            &rt,
            refusal_of(rt.alloc(), &TEXT[..length]),
            Some(PartError::Short),
            length,
        );
    }
    Ok(())
}

#[test]
fn a_part_with_a_changed_byte_is_refused(rt: HostRuntime) -> Result<(), Fail> {
    let alloc = rt.alloc();
    for at in 0..TEXT.len() {
        let mut text = TEXT.to_vec(alloc)?;
        text[at] ^= 1;
        equal(&rt, refusal_of(alloc, text.as_slice()).is_some(), true, at);
    }
    equal(
        &rt,
        refusal_of(alloc, b"clru_mrc part 2\nkeys, one in 1\n"),
        Some(PartError::Version),
        0,
    );
    Ok(())
}
