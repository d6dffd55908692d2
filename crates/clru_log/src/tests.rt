//! What is cut of logs, and which times columns name.
use crate::{Columns, CutReader, Format, Wanted, log_time};
use clru_text::{ReadError, read_input};
use std::alloc::{AllocError, Global};
use std::fmt::Debug;
use std::process::Abort;
use std::test::Fail;

fn equal<T: PartialEq + Debug + Drop>(rt: &impl Abort, left: T, right: T) {
    assert_eq!(rt; left, right);
}

/// Its lines count, have another method, another status, too few columns, end in a carriage return, and without a newline.
static COMBINED: &[u8] =
    b"192.0.2.1 - - [15/Nov/2023:02:23:08 +0000] \"GET /a?b=1 HTTP/1.1\" 200 5 \"-\" \"x y\"\n\
192.0.2.1 - - [15/Nov/2023:02:23:08 +0000] \"POST /a HTTP/1.1\" 200 5 \"-\" \"x\"\n\
192.0.2.1 - - [15/Nov/2023:02:23:09 +0000] \"GET /b HTTP/1.1\" 404 5 \"-\" \"x\"\n\
192.0.2.1 - -\n\
192.0.2.1 - - [15/Nov/2023:02:23:09 +0000] \"GET /c HTTP/1.1\" 304\r\n\
192.0.2.1 - - [15/Nov/2023:02:23:09 +0000] \"GET /d HTTP/1.1\" 200";

/// Two columns of a key, of which one is the last and one is empty.
static TABS: &[u8] =
    b"TCP_HIT/200\t/a\texample.org\r\nTCP_MISS/503\t/a\texample.org\r\nTCP_HIT/200\t\tb";

fn combined(alloc: Global) -> Result<Format, AllocError> {
    Ok(Format {
        columns: Columns::Blanks,
        key: vec![in alloc; 7]?,
        method: Some(6),
        status: Some(9),
    })
}

fn tabs(alloc: Global) -> Result<Format, AllocError> {
    Ok(Format {
        columns: Columns::Tabs,
        key: vec![in alloc; 3, 2]?,
        method: None,
        status: Some(1),
    })
}

// What is cut, and how many lines there are, count, or have another method, another status or too few columns.
fn cut(
    alloc: Global,
    format: Format,
    wanted: Wanted,
    log: &[u8],
) -> Result<(Vec<u8>, [u64; 5]), ReadError> {
    let mut reader = CutReader::new(alloc, log, format, wanted);
    let plain = read_input(alloc, &mut reader)?;
    let counts = reader.counts();
    Ok((
        plain,
        [
            counts.lines,
            counts.kept,
            counts.methods,
            counts.statuses,
            counts.columns,
        ],
    ))
}

#[test]
fn lines_that_count_are_cut(rt: HostRuntime) -> Result<(), Fail> {
    let alloc = rt.alloc();
    let counted = Wanted {
        all_requests: false,
        no_query: true,
    };
    let all = Wanted {
        all_requests: true,
        no_query: false,
    };
    let (plain, counts) = cut(alloc, combined(alloc)?, counted, COMBINED)?;
    equal(
        &rt,
        (plain.as_slice(), counts),
        (b"/a\n/c\n/d\n", [6, 3, 1, 1, 1]),
    );
    let (plain, counts) = cut(alloc, combined(alloc)?, all, COMBINED)?;
    equal(
        &rt,
        (plain.as_slice(), counts),
        (b"/a?b=1\n/a\n/b\n/c\n/d\n", [6, 5, 0, 0, 1]),
    );
    let (plain, counts) = cut(alloc, tabs(alloc)?, counted, TABS)?;
    equal(
        &rt,
        (plain.as_slice(), counts),
        (b"example.org /a\nb \n", [3, 2, 0, 1, 0]),
    );
    Ok(())
}

/// The first room has 256 KiB, and the first line more. Its columns are at its beginning, so that they are soon found.
#[test]
fn a_long_line_is_cut(rt: HostRuntime) -> Result<(), Fail> {
    let alloc = rt.alloc();
    let mut log = b"200\t/a\tb\t".to_vec(alloc)?;
    log.resize(300_000, b'x')?;
    log.extend_from_slice(b"\n200\t/c\td")?;
    let wanted = Wanted {
        all_requests: false,
        no_query: false,
    };
    let (plain, counts) = cut(alloc, tabs(alloc)?, wanted, log.as_slice())?;
    equal(
        &rt,
        (plain.as_slice(), counts),
        (b"b /a\nd /c\n", [2, 2, 0, 0, 0]),
    );
    Ok(())
}

/// Further ones are in specs/DateLaws.
#[test]
fn columns_name_times(rt: HostRuntime) {
    let rows = [
        (
            b"[15/Nov/2023:02:23:08 +0000]".as_slice(),
            Some(1_700_014_988_000_000),
        ),
        (
            b"2024-02-29T00:00:00.5+01:00".as_slice(),
            Some(1_709_161_200_500_000),
        ),
        (b"1700014988.25".as_slice(), Some(1_700_014_988_250_000)),
        (b"2023-02-29T00:00:00Z".as_slice(), None),
    ];
    for (text, time) in rows {
        equal(&rt, log_time(text), time);
    }
}
