//! How `clru_text` calls readers and writers, and the errors that only what is called shows. What it returns
//! follows from clauses. Rows of `reports/report` call `capacity_of` and `digits_of`.

use crate::tests::fakes::{Breaking, Filling, Piecewise};
use clru_text::{LineBuffer, ReadError, keys_of, next_line, read_input, write_text};
use ration::{Rationed, equal};
use std::alloc::{Allocator, Global};
use std::io::{ErrorKind, Read};
use std::test::Fail;

#[test]
fn lines_stand_between_newlines(rt: HostRuntime) {
    equal!(rt; next_line(b"a\n\nb"), Some((b"a".as_slice(), b"\nb".as_slice())));
    equal!(rt; number_of_keys(rt.alloc(), b"a\n\nb"), Some(3));
}

fn number_of_keys(alloc: Global, bytes: &[u8]) -> Option<usize> {
    match keys_of(alloc, bytes) {
        Ok(keys) => Some(keys.len()),
        Err(_) => None,
    }
}

/// Pieces of an input, its lines, and how many bytes it has.
static PIECES: &[(&[&[u8]], &[&[u8]], usize)] = &[
    (&[], &[], 0),
    (&[b"a\n\nb"], &[b"a", b"", b"b"], 4),
    (&[b"ab", b"c\nd", b"\n"], &[b"abc", b"d"], 6),
    (&[b"a", b"b", b"\n", b"\n"], &[b"ab", b""], 4),
    (&[b"\n"], &[b""], 1),
];

/// Whether the next line is this one or, where none is wanted, there is none. A test that asks so has nothing to let go of where
/// a read fails, which is dear to prove.
fn is_next<R: Read, A: Allocator>(
    buffer: &mut LineBuffer<A>,
    reader: &mut R,
    line: &mut Vec<u8, A>,
    wanted: Option<&[u8]>,
) -> bool {
    let Ok(found) = buffer.read_line(reader, line) else {
        return false;
    };
    (found, line.as_slice()) == (wanted.is_some(), wanted.unwrap_or(b""))
}

#[test]
fn lines_are_told_one_by_one_whatever_a_read_gives(rt: HostRuntime) {
    for (pieces, lines, bytes) in PIECES {
        let mut reader = Piecewise {
            pieces,
            least: usize::MAX,
            calls: 0,
        };
        let mut buffer = LineBuffer::new(rt.alloc());
        let mut line = Vec::new(rt.alloc());
        let mut is_as_wanted = true;
        for wanted in *lines {
            is_as_wanted = is_next(&mut buffer, &mut reader, &mut line, Some(wanted))
                && is_as_wanted;
        }
        // The end is told again with no further call.
        for _ in 0..2 {
            is_as_wanted = is_next(&mut buffer, &mut reader, &mut line, None) && is_as_wanted;
        }
        equal!(rt;
            (is_as_wanted, buffer.bytes_read(), reader.calls, reader.least),
            (true, *bytes, pieces.len() + 1, 65_536)
        );
    }
}

#[test]
fn a_line_may_be_longer_than_the_buffer(rt: HostRuntime) -> Result<(), Fail> {
    for length in [65_535, 65_536, 65_537, 200_000] {
        let mut bytes = Vec::new(rt.alloc());
        bytes.resize(length, b'a')?;
        bytes.extend_from_slice(b"\nb")?;
        let mut reader = bytes.as_slice();
        let mut buffer = LineBuffer::new(rt.alloc());
        let mut line = Vec::new(rt.alloc());
        let mut is_as_wanted = true;
        for wanted in [Some(&bytes[..length]), Some(b"b".as_slice()), None] {
            is_as_wanted = is_next(&mut buffer, &mut reader, &mut line, wanted) && is_as_wanted;
        }
        equal!(rt; (is_as_wanted, buffer.bytes_read()), (true, length + 2), length);
    }
    Ok(())
}

#[test]
fn a_failed_read_ends_the_lines(rt: HostRuntime) {
    for kind in [ErrorKind::Interrupted, ErrorKind::WouldBlock] {
        let mut reader = Breaking {
            left: b"a\nb",
            kind,
            calls: 0,
        };
        let mut buffer = LineBuffer::new(rt.alloc());
        let mut line = Vec::new(rt.alloc());
        equal!(rt; is_next(&mut buffer, &mut reader, &mut line, Some(b"a")), true);
        let outcome = buffer.read_line(&mut reader, &mut line);
        equal!(rt; matches!(outcome, Err(ReadError::Reading)), true);
        equal!(rt; reader.calls, 4);
    }
}

// One request for the buffer, one for the line: a line that fits asks for nothing.
#[test]
fn memory_is_asked_for_once(rt: HostRuntime) {
    let heap = Rationed::new(rt.alloc());
    let mut reader = b"abcdefgh\nab\nabc\n".as_slice();
    let mut buffer = LineBuffer::new(&heap);
    let mut line = Vec::new(&heap);
    for wanted in [b"abcdefgh".as_slice(), b"ab", b"abc"] {
        let is_as_wanted = is_next(&mut buffer, &mut reader, &mut line, Some(wanted));
        equal!(rt; (is_as_wanted, heap.requests()), (true, 2), wanted);
    }
}

/// The error where the text was not written, and what was taken of it: five bytes at most.
fn written(alloc: Global, text: &[u8], error: Option<ErrorKind>) -> (Option<ErrorKind>, Vec<u8>) {
    let mut writer = Filling {
        got: Vec::new(alloc),
        most: 5,
        error,
    };
    let outcome = write_text(&mut writer, text);
    (outcome.err().map(|error| error.kind()), writer.got)
}

#[test]
fn a_text_is_written_whole_or_the_error_is_told(rt: HostRuntime) {
    let rows = [
        (b"".as_slice(), None, None),
        (b"abcde".as_slice(), Some(ErrorKind::BrokenPipe), None),
        (b"abcdef".as_slice(), None, Some(ErrorKind::WriteZero)),
        (
            b"abcdef".as_slice(),
            Some(ErrorKind::Interrupted),
            Some(ErrorKind::Interrupted),
        ),
    ];
    for (text, error, wanted) in rows {
        let (result, got) = written(rt.alloc(), text, error);
        equal!(rt; result, wanted, text);
        equal!(rt; got.as_slice(), &text[..text.len().min(5)], text);
    }
}

#[test]
fn a_failed_read_is_the_last_call(rt: HostRuntime) {
    let mut reader = Breaking {
        left: b"a",
        kind: ErrorKind::Interrupted,
        calls: 0,
    };
    let outcome = read_input(rt.alloc(), &mut reader);
    equal!(rt; matches!(outcome, Err(ReadError::Reading)), true);
    equal!(rt; reader.calls, 2);
}
