//! The time that a line begins with, and how long a time a word names.
ghost use Rattle.std.specs.Prelude.{◌≡◌, ◌<◌, ◌≤◌, ◌^◌, ◌==◌, length, position, None, Some, IfNone, IfSome};
ghost use Rattle.clru_text.specs.Times.{decimal_span, decimal_time, duration_in, in_time as in_time_by, millionths_of as millionths_by, rest_of_line, span_named as span_by, time_in as time_by, time_of_line, times_span as times_span_by};

use crate::capacity::{digits_of, leading_number};
use crate::numbers::{point_at, unit_at};

const MILLION: u128 = 1_000_000;

/// Returns the time before the first blank of a line, in millionths, or `None` if there is none: 1 to 20 digits, and if need be a
/// point and 1 to 20 more, of which six count. A time that is more than the greatest `usize` is none.
/// Cost: a step for each byte up to the blank; no request for memory.
pub fn time_of(line: &[u8]) -> Option<usize>
    ensures { result ≡ time_of_line line.now }
{
    match split_time(line) {
        Some((time, _)) => Some(time),
        None => None,
    }
}

/// Returns the time before the first blank of a line, in millionths, and what follows the blank, or `None` if there is no time.
/// Cost: a step for each byte up to the blank; no request for memory.
pub fn split_time(line: &[u8]) -> Option<(usize, &[u8])>
    ensures time { IfSome result (λ found. time_of_line line.now ≡ Some found.0) }
    ensures rest { IfSome result (λ found. found.1.now ≡ rest_of_line line.now) }
    ensures none { IfNone result (time_of_line line.now ≡ None) }
{
    match split_short(line) {
        Some(found) => Some(found),
        None => split_any(line),
    }
}

// In one reading, if the time has few digits; else `None`.
fn split_short(line: &[u8]) -> Option<(usize, &[u8])>
    ensures time { IfSome result (λ found. time_of_line line.now ≡ Some found.0) }
    ensures rest { IfSome result (λ found. found.1.now ≡ rest_of_line line.now) }
{
    let (whole, at) = leading_number(line);
    if at == 0 || at >= line.len() {
        return None;
    }
    let behind = &line[at + 1..];
    if line[at] == b' ' {
        return match in_time(whole as u128 * MILLION) {
            Some(time) => Some((time, behind)),
            None => None,
        };
    }
    let (part, places) = leading_number(behind);
    if line[at] != b'.' || places == 0 || places >= behind.len() || behind[places] != b' ' {
        return None;
    }
    match in_time(whole as u128 * MILLION + millionths_of(part as u128, places)) {
        Some(time) => Some((time, &behind[places + 1..])),
        None => None,
    }
}

fn split_any(line: &[u8]) -> Option<(usize, &[u8])>
    ensures time { IfSome result (λ found. time_of_line line.now ≡ Some found.0) }
    ensures rest { IfSome result (λ found. found.1.now ≡ rest_of_line line.now) }
    ensures none { IfNone result (time_of_line line.now ≡ None) }
{
    match blank_at(line) {
        Some(at) => match time_in(&line[..at]) {
            Some(time) => Some((time, &line[at + 1..])),
            None => None,
        },
        None => None,
    }
}

// The place of the first blank.
fn blank_at(line: &[u8]) -> Option<usize>
    ensures place { result ≡ position (λ b. b == 32) line.now }
    ensures within { IfSome result (λ at. at < length line.now) }
{
    line.iter().position(|byte| *byte == b' ')
}

// The time that figures name, in millionths.
fn time_in(figures: &[u8]) -> Option<usize>
    ensures { result ≡ time_by figures.now }
{
    match point_at(figures) {
        None => in_time(digits_of(figures)? * MILLION),
        Some(at) => time_with(&figures[..at], &figures[at + 1..]),
    }
}

fn time_with(whole: &[u8], decimals: &[u8]) -> Option<usize>
    ensures { result ≡ decimal_time whole.now decimals.now }
{
    let whole = digits_of(whole)?;
    let part = digits_of(decimals)?;
    in_time(whole * MILLION + millionths_of(part, decimals.len()))
}

fn in_time(number: u128) -> Option<usize>
    ensures { result ≡ in_time_by number }
{
    usize::try_from(number).ok()
}

// So many decimals as millionths.
fn millionths_of(part: u128, places: usize) -> u128
    requires few { places ≤ 20 }
    requires below { part < 10 ^ 20 }
    ensures value { result ≡ millionths_by part places }
    ensures below { result < 10 ^ 26 }
{
    if places <= 6 {
        part * power_of_ten(6 - places)
    } else {
        part / 10u128.pow((places - 6) as u32)
    }
}

fn power_of_ten(exponent: usize) -> u128
    requires { exponent ≤ 6 }
    ensures { result ≡ 10 ^ exponent }
{
    match exponent {
        0 => 1,
        1 => 10,
        2 => 10 * 10,
        3 => 10 * 10 * 10,
        4 => 10 * 10 * 10 * 10,
        5 => 10 * 10 * 10 * 10 * 10,
        _ => MILLION,
    }
}

/// Returns how long a time a word names, in millionths of the unit of the log, or `None` if it names none. Behind the figures of a
/// time may stand `s`, `m`, `h` or `d`, if that unit is the second. What is less than a millionth is cut off.
pub(crate) fn duration_of_word(word: &str) -> Option<usize>
    ensures { result ≡ duration_in word.now }
{
    let bytes = word.trim().as_bytes();
    let at = unit_at(bytes);
    times_span(&bytes[..at], span_named(&bytes[at..])?)
}

// So many times that many seconds.
fn times_span(figures: &[u8], span: u128) -> Option<usize>
    requires { span < 2 ^ 17 }
    ensures { result ≡ times_span_by figures.now span }
{
    let unit = span * MILLION;
    match point_at(figures) {
        None => in_time(digits_of(figures)? * unit),
        Some(at) => decimals_of(unit, &figures[..at], &figures[at + 1..]),
    }
}

// So many units and their decimals.
fn decimals_of(unit: u128, whole: &[u8], decimals: &[u8]) -> Option<usize>
    requires { unit < 2 ^ 41 }
    ensures { result ≡ decimal_span unit whole.now decimals.now }
{
    let whole = digits_of(whole)?;
    let part = digits_of(decimals)?;
    in_time(whole * unit + part * unit / 10u128.pow(decimals.len() as u32))
}

const HOUR: u128 = 60 * 60;

const DAY: u128 = 24 * 60 * 60;

// How many seconds a unit has, if it is one.
fn span_named(unit: &[u8]) -> Option<u128>
    ensures value { result ≡ span_by unit.now }
    ensures small { IfSome result (λ n. n < 2 ^ 17) }
{
    match unit {
        b"" | b"s" => Some(1),
        b"m" => Some(60),
        b"h" => Some(HOUR),
        b"d" => Some(DAY),
        _ => None,
    }
}
