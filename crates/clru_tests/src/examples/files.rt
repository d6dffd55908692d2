//! The store of files.

use crate::plain::room;
use clru_uses::files::{Shelf, files_of, size_of};
use ration::equal;
use std::fs;
use std::rt::Files;

const FILE: &str = "clru_tests_files_test";

#[test]
fn a_file_is_read_once_and_where_it_is_not_held(rt: HostRuntime) {
    let sizes = (Some((4, false)), Some((4, true)), Some((7, false)));
    let large = (Some((12, false)), true, None);
    equal!(rt; reads(&rt), (sizes, (1, 7), large, (0, 4)));
}

/// The number of a file's bytes and whether it was held, if it was written and read.
type Size = Option<(usize, bool)>;

/// Three sizes of a file that is written twice: at first, while it is held, and after all is dropped. Then the number and the weight
/// of the held files; the size of a file that is too large, whether it was removed, and its size after that; last, the number of held
/// files and of reads.
type Reads = (
    (Size, Size, Size),
    (usize, usize),
    (Size, bool, Size),
    (usize, u64),
);

fn reads<R: Files + AllocGlobal>(rt: &R) -> Reads {
    reads_into(rt, &mut files_of(rt, room(10)))
}

fn reads_into<R: Files + AllocGlobal>(rt: &R, files: &mut Shelf<'_, R>) -> Reads {
    let (first, held) = (written(rt, files, b"four"), written(rt, files, b"seven.."));
    files.clear();
    let sizes = (first, held, size(files));
    let weight = (files.len(), files.weight());
    files.clear();
    let large = written(rt, files, b"eleven bytes");
    let is_removed = fs::remove_file(rt, FILE).is_ok();
    let gone = size(files);
    let ends = (files.len(), files.source().reads);
    (sizes, weight, (large, is_removed, gone), ends)
}

/// The size of a file once this is written.
fn written<R: Files + AllocGlobal>(rt: &R, files: &mut Shelf<'_, R>, text: &[u8]) -> Size {
    if fs::write(rt, FILE, text).is_err() {
        return None;
    }
    size(files)
}

fn size<R: Files + AllocGlobal>(files: &mut Shelf<'_, R>) -> Size {
    size_of(files, FILE).ok()
}
