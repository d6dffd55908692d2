//! What words and the beginnings of lines name, and ratios. Programs call these through reports.

use clru_text::{number_of_word, ratio_of, time_of};
use ration::equal;

/// A word, and the number that it names, or 0.
static NUMBERS: &[(&str, usize)] = &[
    (" 12 ", 12),
    ("500MB", 500_000_000),
    ("1.5KiB", 1536),
    ("0", 0),
    ("1.5", 0),
    ("MB", 0),
];

/// A line, and the millionths of its time.
static TIMES: &[(&[u8], Option<usize>)] = &[
    (b"12 a", Some(12_000_000)),
    (b"0.1234567 a", Some(123_456)),
    (b"192.0.2.1 a", None),
    (b"12", None),
];

#[test]
fn words_and_lines_name_numbers_and_times(rt: HostRuntime) {
    for (word, number) in NUMBERS {
        equal!(rt; named(word), *number, word);
    }
    for (line, time) in TIMES {
        equal!(rt; time_of(line), *time, line);
    }
    equal!(rt; (ratio_of(1, 3).0, ratio_of(2, 3).0, ratio_of(0, 0).0), (333_333, 666_667, 0));
}

fn named(word: &str) -> usize {
    match number_of_word(word) {
        Some(number) => number.get(),
        None => 0,
    }
}
