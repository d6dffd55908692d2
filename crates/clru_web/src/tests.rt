// What a call answers, beside what `clru_mrc` writes for the same words and log; and where block or text are too small. The files of
// this folder test what no script can show of reports, and of reading and writing lines: readers that fail, writers that are full or
// closed, the memory of a report, and what commands print. They stand here since this crate has tests, and is proved twice anyway.
mod costs;
mod fakes;
mod faults;
mod lines;
mod seeds;
mod shown;
mod words;

use crate::asserts::equal;
use crate::exports::{join, part, report, report_of_parts, split};
use crate::text::tell;
use clru_text::Fault;
use ration::Loan;
use std::process::Abort;

const ENOUGH: usize = 1 << 20;

const TEN: &str = "a\nb\na\nc\nb\na\nd\na\nb\ne\n";

// of a block, words, a log and the room for the text the status and the text
static CALLS: &[(usize, &str, &str, usize, u32, &str)] = &[
    (
        ENOUGH,
        "",
        TEN,
        256,
        0,
        "capacity,misses,miss_ratio,saved_per_key,knee\n1,10,1.000000,0.000000,0\n2,8,0.800000,2.000000,0\n3,5,0.500000,3.000000,1\n5,5,0.500000,0.000000,0\n",
    ),
    (
        ENOUGH,
        "--at\n3,2\n--progress\n--least\n",
        TEN,
        256,
        0,
        "capacity,misses,miss_ratio,least_misses,saved_per_key,knee\n2,8,0.800000,7,1.000000,0\n3,5,0.500000,5,3.000000,1\n",
    ),
    (
        ENOUGH,
        "--summary",
        "",
        256,
        0,
        "requests,distinct_keys,input_bytes\n0,0,0\n",
    ),
    (
        ENOUGH,
        "--summary",
        "",
        41,
        0,
        "requests,distinct_keys,input_bytes\n0,0,0\n",
    ),
    (
        ENOUGH,
        "--summary",
        "",
        35,
        5,
        "clru_mrc: standard output cannot be",
    ),
    (
        ENOUGH,
        "--at",
        TEN,
        256,
        2,
        "clru_mrc: --at wants capacities: write --at 100,1000\n",
    ),
    (
        ENOUGH,
        "--at\n5 K",
        TEN,
        256,
        2,
        "clru_mrc: \"5 K\" is no capacity: write 1 to 18446744073709551615, or with a unit 500MB, 1.5G or 64MiB (K, M, G, T or KB, MB, GB, TB by 1000; KiB, MiB, GiB, TiB by 1024)\n",
    ),
    (64, "", TEN, 256, 3, "clru_mrc: memory ran out\n"),
    (16, "--svg", TEN, 256, 3, "clru_mrc: memory ran out\n"),
    (
        ENOUGH,
        "",
        TEN,
        66,
        5,
        "clru_mrc: standard output cannot be written\n",
    ),
    (ENOUGH, "", TEN, 12, 5, "clru_mrc: st"),
    (
        ENOUGH,
        "--sizes",
        "5 a\nb\n",
        256,
        6,
        "clru_mrc: line 2 has no size: with --sizes each begins with one and a blank, as in 512 /index.html\n",
    ),
    (
        ENOUGH,
        "--times",
        "5 a\nb\n",
        256,
        6,
        "clru_mrc: line 2 has no time: with --times each begins with one and a blank, as in 1700000000.123 /index.html\n",
    ),
    (
        ENOUGH,
        "--times\n--sizes",
        "1 5 a\n2 b\n",
        256,
        6,
        "clru_mrc: line 2 has no time and size: with --times --sizes each begins with both, as in 1700000000.123 512 /index.html\n",
    ),
];

// of a block, a budget, whether there are sizes, a form, a log and the room for the text the status and the text
static SPLITS: &[(usize, usize, u64, u64, &str, usize, u32, &str)] = &[
    (
        ENOUGH,
        2,
        0,
        0,
        "b x\na y\na y\n",
        256,
        0,
        "class,capacity,misses,miss_ratio\na,1,1,0.500000\nb,0,1,1.000000\nbest split,1,2,0.666667\nequal parts,2,2,0.666667\none for all,2,2,0.666667\n",
    ),
    (
        ENOUGH,
        1,
        0,
        1,
        "",
        256,
        0,
        "{\"class\":\"best split\",\"capacity\":0,\"misses\":0,\"miss_ratio\":0.000000}\n{\"class\":\"equal parts\",\"capacity\":0,\"misses\":0,\"miss_ratio\":0.000000}\n{\"class\":\"one for all\",\"capacity\":1,\"misses\":0,\"miss_ratio\":0.000000}\n",
    ),
    (
        ENOUGH,
        0,
        1,
        0,
        "a b\n",
        256,
        2,
        "clru_mrc: a budget is at least 1\n",
    ),
    (64, 2, 0, 2, "a b\n", 256, 3, "clru_mrc: memory ran out\n"),
    (
        ENOUGH,
        2,
        0,
        2,
        "a b\n",
        256,
        5,
        "clru_mrc: standard output cannot be written\n",
    ),
    (
        ENOUGH,
        2,
        0,
        0,
        "a b\nc\n",
        256,
        6,
        "clru_mrc: line 2 has no class: with --split each begins with one and a blank, as in images /logo.png\n",
    ),
    (
        ENOUGH,
        4,
        1,
        0,
        "b 5 x\na 3 y\nb 9 z\nc 8 y\n",
        256,
        6,
        "clru_mrc: a class has an object of 9 bytes, more than the budget\n",
    ),
    (
        ENOUGH,
        7,
        1,
        0,
        "b 5 x\na 3 y\na 3 y\n",
        256,
        0,
        "class,capacity,misses,miss_ratio,missed_bytes,byte_miss_ratio\na,3,1,0.500000,3,0.500000\nb,0,1,1.000000,5,1.000000\nbest split,3,2,0.666667,8,0.727273\nequal parts,3,2,0.666667,8,0.727273\none for all,7,2,0.666667,8,0.727273\n",
    ),
];

fn lent<R: Abort + AllocGlobal>(rt: &R, size: usize) -> Loan {
    Loan::taken(&rt.alloc(), size).expect(rt, "a block")
}

// The first items of an array, as many as there is room for.
fn first<T>(items: &mut [T], room: usize) -> &mut [T] {
    let end = room.min(items.len());
    &mut items[..end]
}

fn front<T>(items: &[T], count: usize) -> &[T] {
    items.get(..count).unwrap_or(items)
}

#[test]
fn a_call_answers_as_the_program(rt: HostRuntime) {
    for (size, words, log, room, status, wanted) in CALLS {
        let mut text = [0; 256];
        let mut written = 0;
        let code = report(
            lent(&rt, *size),
            words.as_bytes(),
            log.as_bytes(),
            1,
            2,
            first(&mut text, *room),
            &mut written,
        );
        equal(
            &rt,
            (code, text.get(..written)),
            (*status, Some(wanted.as_bytes())),
        );
    }
}

#[test]
fn a_split_answers_as_the_program(rt: HostRuntime) {
    for (size, budget, sizes, form, log, room, status, wanted) in SPLITS {
        let mut text = [0; 256];
        let mut written = 0;
        let code = split(
            lent(&rt, *size),
            *budget,
            *sizes,
            *form,
            log.as_bytes(),
            1,
            2,
            first(&mut text, *room),
            &mut written,
        );
        equal(
            &rt,
            (code, text.get(..written)),
            (*status, Some(wanted.as_bytes())),
        );
    }
}

#[test]
fn the_longest_line_of_a_fault_is_told_whole(rt: HostRuntime) {
    let mut text = [0; 160];
    let mut written = 0;
    let code = tell(Fault::NoSize(usize::MAX), &mut text, &mut written);
    let wanted =
        "clru_mrc: line 18446744073709551615 has no size: with --sizes each begins with one and a blank, as in 512 /index.html\n";
    equal(
        &rt,
        (code, text.get(..written)),
        (6, Some(wanted.as_bytes())),
    );
}

// What is known of lines, in arrays that are long enough.
#[derive(Clone, Copy)]
struct Known {
    curve: [usize; 8],
    firsts: [u8; 32],
    lasts: [u8; 32],
    requests: usize,
    keys: usize,
    first_bytes: usize,
    last_bytes: usize,
}

static NOTHING: Known = Known {
    curve: [0; 8],
    firsts: [0; 32],
    lasts: [0; 32],
    requests: 0,
    keys: 0,
    first_bytes: 0,
    last_bytes: 0,
};

// What is known of lines, with memory, places of the curve and bytes for either text.
fn known_of(loan: Loan, log: &[u8], places: usize, room: usize) -> (u32, Known) {
    let mut known = NOTHING;
    let code = part(
        loan,
        log,
        1,
        2,
        first(&mut known.curve, places),
        first(&mut known.firsts, room),
        first(&mut known.lasts, room),
        &mut known.requests,
        &mut known.keys,
        &mut known.first_bytes,
        &mut known.last_bytes,
    );
    (code, known)
}

fn joined_of(loan: Loan, one: &Known, two: &Known, places: usize, room: usize) -> (u32, Known) {
    let mut known = NOTHING;
    known.requests = one.requests.saturating_add(two.requests);
    let code = join(
        loan,
        front(&one.curve, one.keys),
        front(&one.lasts, one.last_bytes),
        front(&two.curve, two.keys),
        front(&two.firsts, two.first_bytes),
        front(&two.lasts, two.last_bytes),
        3,
        4,
        first(&mut known.curve, places),
        first(&mut known.lasts, room),
        &mut known.keys,
        &mut known.last_bytes,
    );
    (code, known)
}

// What is told of lines of one byte each.
fn told_of(loan: Loan, known: &Known, words: &str, text: &mut [u8]) -> (u32, usize) {
    let mut written = text.len();
    let requests = known.requests;
    let curve = front(&known.curve, known.keys);
    let words = words.as_bytes();
    let bytes = requests.saturating_mul(2);
    let code = report_of_parts(loan, words, requests, bytes, curve, text, &mut written);
    (code, written)
}

#[test]
fn parts_answer_as_the_whole(rt: HostRuntime) {
    for cut in 0..11 {
        let log = TEN.as_bytes();
        let (one, two) = (front(log, 2 * cut), log.get(2 * cut..).unwrap_or(log));
        let (_, first) = known_of(lent(&rt, ENOUGH), one, 8, 32);
        let (_, second) = known_of(lent(&rt, ENOUGH), two, 8, 32);
        let (_, all) = joined_of(lent(&rt, ENOUGH), &first, &second, 8, 32);
        for words in ["", "--summary", "--at\n2,9\n--json", "--no", "--version"] {
            let (mut text, mut wanted) = ([0; 256], [0; 256]);
            let mut end = 0;
            let (given, log) = (words.as_bytes(), TEN.as_bytes());
            let status = report(lent(&rt, ENOUGH), given, log, 1, 2, &mut wanted, &mut end);
            let (code, written) = told_of(lent(&rt, ENOUGH), &all, words, &mut text);
            equal(
                &rt,
                (code, text.get(..written)),
                (status, wanted.get(..end)),
            );
        }
    }
}

// of a block, the places of a curve and the bytes of a text the status
static ROOMS: [(usize, usize, usize, u32); 4] = [
    (ENOUGH, 5, 10, 0),
    (ENOUGH, 4, 10, 5),
    (ENOUGH, 5, 9, 5),
    (64, 5, 10, 3),
];

#[test]
fn parts_want_room_and_do_not_tell_all(rt: HostRuntime) {
    let (_, known) = known_of(lent(&rt, ENOUGH), TEN.as_bytes(), 8, 32);
    for (size, places, room, status) in ROOMS {
        let (code, _) = known_of(lent(&rt, size), TEN.as_bytes(), places, room);
        let (joined, _) = joined_of(lent(&rt, size), &known, &known, places, room);
        equal(&rt, (code, joined), (status, status));
    }
    let mut text = [0; 256];
    for words in [
        "--least",
        "--floor",
        "--sizes",
        "--times",
        "--after\n1",
        "--sample\n2",
    ] {
        equal(
            &rt,
            told_of(lent(&rt, ENOUGH), &known, words, &mut text),
            (7, 0),
        );
    }
    let (code, _) = told_of(lent(&rt, ENOUGH), &known, "", first(&mut text, 9));
    equal(&rt, code, 5);
}
