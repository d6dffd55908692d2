//! The time that a column of a log names.
ghost use Rattle.std.specs.Prelude.{◌≡◌, ◌<◌, ◌≤◌, ◌^◌, ◌==◌, length, take, drop, position, slice_index, not, true, IfSome};
ghost use Rattle.std.specs.Char.{is_ascii_digit};
ghost use Rattle.std.specs.List.{list_all};
ghost use Rattle.clru_log.specs.Dates.{clock_of as clock_by, earlier as earlier_by, digits_end as digits_end_by, in_utc as in_utc_by, is_separator as is_separator_by, iso_time as iso_by, month_named as month_by, offset_named as offset_by, offset_of as offset_of_by, seconds_of as seconds_by, server_time as server_by};
ghost use Rattle.clru_log.specs.Dates.{time_behind as behind_by, time_in_zone as zone_by, time_of_log, time_on as time_on_by, time_unbracketed as unbracketed_by, time_with_decimals as decimals_by, without_first as without_first_by, without_last as without_last_by};

use crate::calendar::days_to;
use crate::figures::{millionths_of, time_in};
use crate::shape::{four_digits, has_shape, is_of_shape, two_digits};
use clru_text::digits_of;

const MILLION: usize = 1_000_000;

/// Returns the time that a column of a log names, in millionths of a second since 1970 began in UTC, or `None` if it names none.
///
/// A column is a date of a web server, `[15/Nov/2023:02:23:08 +0000]`, one of ISO 8601, `2023-11-15T02:23:08Z`, also with a blank for
/// the `T`, or a number as for [`time_of`](clru_text::time_of). Brackets, decimals of the second and the zone may be missing, and
/// without a zone it is UTC. No time are dates that the calendar does not have, years before 1970 and what a zone moves before it.
/// A second 60 is the next one.
/// Cost: a step or two for each byte; no request for memory.
pub fn log_time(text: &[u8]) -> Option<usize>
    ensures { result ≡ time_of_log text.now }
{
    time_unbracketed(without_last(b']', without_first(b'[', text)))
}

fn time_unbracketed(text: &[u8]) -> Option<usize>
    ensures { result ≡ unbracketed_by text.now }
{
    if has_shape(b"00/???/0000:", text) {
        server_time(text)
    } else if has_shape(b"0000-00-00?", text) {
        iso_time(text)
    } else {
        time_in(text)
    }
}

// The time of a date as web servers write it.
fn server_time(text: &[u8]) -> Option<usize>
    requires long { 12 ≤ length text.now }
    requires year { list_all is_ascii_digit (take 4 (drop 7 text.now)) ≡ true }
    requires day { list_all is_ascii_digit (take 2 (drop 0 text.now)) ≡ true }
    ensures { result ≡ server_by text.now }
{
    match days_to(
        four_digits(text, 7),
        month_named(&text[3..6]),
        two_digits(text, 0),
    ) {
        Some(days) => time_on(&text[12..], days),
        None => None,
    }
}

// The time of a date as ISO 8601 has it.
fn iso_time(text: &[u8]) -> Option<usize>
    requires long { 11 ≤ length text.now }
    requires year { list_all is_ascii_digit (take 4 (drop 0 text.now)) ≡ true }
    requires month { list_all is_ascii_digit (take 2 (drop 5 text.now)) ≡ true }
    requires day { list_all is_ascii_digit (take 2 (drop 8 text.now)) ≡ true }
    ensures { result ≡ iso_by text.now }
{
    if !is_separator(text[10]) {
        return None;
    }
    match days_to(
        four_digits(text, 0),
        two_digits(text, 5),
        two_digits(text, 8),
    ) {
        Some(days) => time_on(&text[11..], days),
        None => None,
    }
}

// What parts date and clock.
fn is_separator(byte: u8) -> bool
    ensures { result ≡ is_separator_by byte }
{
    byte == b'T' || byte == b' '
}

// The time of a clock on a day.
fn time_on(text: &[u8], day: usize) -> Option<usize>
    requires { day < 3000000 }
    ensures { result ≡ time_on_by text.now day }
{
    let clock = clock_of(text)?;
    time_behind(day * DAY + clock, &text[8..])
}

// The seconds of the clock that a text begins with.
fn clock_of(text: &[u8]) -> Option<usize>
    ensures clock { result ≡ clock_by text.now }
    ensures below { IfSome result (λ clock. clock < 86401) }
    ensures long { IfSome result (λ _. 8 ≤ length text.now) }
{
    if has_shape(b"00:00:00", text) {
        seconds_of(
            two_digits(text, 0),
            two_digits(text, 3),
            two_digits(text, 6),
        )
    } else {
        None
    }
}

const HOUR: usize = 60 * 60;

const DAY: usize = 24 * HOUR;

fn seconds_of(hours: usize, minutes: usize, seconds: usize) -> Option<usize>
    ensures seconds { result ≡ seconds_by hours minutes seconds }
    ensures below { IfSome result (λ seconds. seconds < 86401) }
{
    if hours < 24 && minutes < 60 && seconds <= 60 {
        Some(hours * HOUR + minutes * 60 + seconds)
    } else {
        None
    }
}

// Seconds, their decimals if a point stands first, and the zone.
fn time_behind(seconds: usize, text: &[u8]) -> Option<usize>
    requires { seconds < 2 ^ 40 }
    ensures { result ≡ behind_by seconds text.now }
{
    if !begins_with(text, b'.') {
        return time_in_zone(seconds, 0, text);
    }
    let behind = &text[1..];
    let places = digits_end(behind);
    time_with_decimals(seconds, &behind[..places], &behind[places..])
}

fn time_with_decimals(seconds: usize, decimals: &[u8], zone: &[u8]) -> Option<usize>
    requires { seconds < 2 ^ 40 }
    ensures { result ≡ decimals_by seconds decimals.now zone.now }
{
    let part = digits_of(decimals)?;
    time_in_zone(seconds, millionths_of(part, decimals.len()) as usize, zone)
}

fn time_in_zone(seconds: usize, part: usize, zone: &[u8]) -> Option<usize>
    requires seconds { seconds < 2 ^ 40 }
    requires part { part < 10 ^ 6 }
    ensures { result ≡ zone_by seconds part zone.now }
{
    let utc = in_utc(seconds, without_first(b' ', zone))?;
    Some(utc * MILLION + part)
}

// The seconds in UTC of those in a zone.
fn in_utc(seconds: usize, zone: &[u8]) -> Option<usize>
    requires { seconds < 2 ^ 40 }
    ensures utc { result ≡ in_utc_by seconds zone.now }
    ensures below { IfSome result (λ utc. utc < 2 ^ 41) }
{
    match zone {
        b"" | b"Z" => Some(seconds),
        _ => if begins_with(zone, b'+') {
            earlier(seconds, offset_named(&zone[1..])?)
        } else if begins_with(zone, b'-') {
            Some(seconds + offset_named(&zone[1..])?)
        } else {
            None
        },
    }
}

fn earlier(seconds: usize, offset: usize) -> Option<usize>
    ensures time { result ≡ earlier_by seconds offset }
    ensures within { IfSome result (λ time. time ≤ seconds) }
{
    seconds.checked_sub(offset)
}

// How far a zone is off, in seconds.
fn offset_named(text: &[u8]) -> Option<usize>
    ensures offset { result ≡ offset_by text.now }
    ensures below { IfSome result (λ offset. offset < 86400) }
{
    if is_of_shape(b"0000", text) {
        offset_of(two_digits(text, 0), two_digits(text, 2))
    } else if is_of_shape(b"00:00", text) {
        offset_of(two_digits(text, 0), two_digits(text, 3))
    } else {
        None
    }
}

fn offset_of(hours: usize, minutes: usize) -> Option<usize>
    ensures offset { result ≡ offset_of_by hours minutes }
    ensures below { IfSome result (λ offset. offset < 86400) }
{
    if hours < 24 && minutes < 60 {
        Some(hours * HOUR + minutes * 60)
    } else {
        None
    }
}

// Where the digits at the front of a text end.
fn digits_end(text: &[u8]) -> usize
    ensures end { result ≡ digits_end_by text.now }
    ensures within { result ≤ length text.now }
{
    other_at(text).unwrap_or(text.len())
}

// The place of the first byte that is no digit.
fn other_at(text: &[u8]) -> Option<usize>
    ensures place { result ≡ position (λ b. not (is_ascii_digit b)) text.now }
    ensures within { IfSome result (λ at. at < length text.now) }
{
    text.iter().position(|byte| !byte.is_ascii_digit())
}

// Whether a byte that is not 0 stands first.
fn begins_with(text: &[u8], byte: u8) -> bool
    requires { 0 < byte }
    ensures first { result ≡ (slice_index text.now 0 == byte) }
    ensures some { result ≡ true → 0 < length text.now }
{
    text.len() > 0 && text[0] == byte
}

fn without_first(byte: u8, text: &[u8]) -> &[u8]
    requires { 0 < byte }
    ensures { result.now ≡ without_first_by byte text.now }
{
    if begins_with(text, byte) {
        &text[1..]
    } else {
        text
    }
}

fn without_last(byte: u8, text: &[u8]) -> &[u8]
    requires { 0 < byte }
    ensures { result.now ≡ without_last_by byte text.now }
{
    if text.len() > 0 && text[text.len() - 1] == byte {
        &text[..text.len() - 1]
    } else {
        text
    }
}

// The month of an English abbreviation, or 0.
fn month_named(name: &[u8]) -> usize
    ensures { result ≡ month_by name.now }
{
    match name {
        b"Jan" => 1,
        b"Feb" => 2,
        b"Mar" => 3,
        b"Apr" => 4,
        b"May" => 5,
        b"Jun" => 6,
        b"Jul" => 7,
        b"Aug" => 8,
        b"Sep" => 9,
        b"Oct" => 10,
        b"Nov" => 11,
        b"Dec" => 12,
        _ => 0,
    }
}
