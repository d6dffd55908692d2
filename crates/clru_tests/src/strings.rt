//! Strings of bytes with values: many of them, those that begin alike, those that were announced, the memory that they ask for, and
//! its refusals.
ghost use Rattle.std.specs.Prelude.{◌≤◌};

use clru::DefaultState;
use clru_linked_map::BytesMap;
use ration::{Rationed, equal};
use std::alloc::{Allocator, Global};

/// How many strings are inserted: as many as the index has links for by then, so that one more would ask for memory.
const STRINGS: u32 = 32_768;

/// A string that no other number has, of 4 to 8 bytes.
fn bytes_of(number: u32) -> ([u8; 8], usize)
    ensures { result.1 ≤ 8 }
{
    let bytes = (u64::from(number) << 32).to_be_bytes();
    (bytes, 4 + (number % 5) as usize)
}

/// Inserts the first strings, each with its number and `more`, and returns how many had this number and `less`.
fn insert_each<A: Allocator + Copy>(
    map: &mut BytesMap<u32, DefaultState, A>,
    count: u32,
    less: u32,
    more: u32,
) -> u32 {
    let mut met = 0u32;
    for number in 0..count {
        let (bytes, len) = bytes_of(number);
        if map.insert(&bytes[..len], number.wrapping_add(more))
            == Ok(Some(number.wrapping_add(less)))
        {
            met = met.saturating_add(1);
        }
    }
    met
}

#[test]
fn values_are_those_inserted_last(rt: HostRuntime) {
    let heap = Rationed::new(rt.alloc());
    equal!(rt; (inserts_thrice(&heap), heap.blocks()), (([0, STRINGS, STRINGS], 0), 0));
}

/// How many strings were held in each of three rounds, and how many requests the last two rounds made.
fn inserts_thrice(heap: &Rationed<Global>) -> ([u32; 3], u64) {
    let mut map = BytesMap::new(heap, DefaultState);
    let first = insert_each(&mut map, STRINGS, 0, 1);
    let before = heap.requests();
    let second = insert_each(&mut map, STRINGS, 1, 2);
    let third = insert_each(&mut map, STRINGS, 2, 3);
    ([first, second, third], heap.requests().wrapping_sub(before))
}

/// At each fiftieth number announces the next 50 strings, leaves out one in each `but`, and looks them up. Returns how often memory was refused.
fn announce_some<A: Allocator + Copy>(
    map: &mut BytesMap<u32, DefaultState, A>,
    from: u32,
    but: u32,
) -> u64 {
    let mut refused = 0u64;
    if from % ANNOUNCED != 3 {
        return refused;
    }
    for number in from..from.saturating_add(ANNOUNCED) {
        let (bytes, len) = bytes_of(number);
        if number % but.max(1) != but / 2 && map.announce(&bytes[..len]).is_err() {
            refused = refused.saturating_add(1);
        }
    }
    if map.prefetch().is_err() {
        refused = refused.saturating_add(1);
    }
    refused
}

/// How many strings are announced at a time.
const ANNOUNCED: u32 = 50;

#[test]
fn announced_strings_find_the_same_values(rt: HostRuntime) {
    for but in [u32::MAX, 2, 3, 7, 50, 51] {
        let mut map = BytesMap::new(rt.alloc(), DefaultState);
        let mut met = [0u32; 3];
        for round in 0..3u32 {
            for number in 0..1000u32 {
                let _ = announce_some(&mut map, number, but);
                let (bytes, len) = bytes_of(number);
                let before = if round == 0 { None } else { Some(round) };
                if map.insert(&bytes[..len], round.wrapping_add(1)) == Ok(before) {
                    met[round as usize % 3] = met[round as usize % 3].saturating_add(1);
                }
            }
        }
        equal!(rt; met, [1000, 1000, 1000], but);
    }
}

#[test]
fn strings_are_told_by_their_numbers(rt: HostRuntime) {
    let heap = Rationed::new(rt.alloc());
    equal!(rt; (told_by_numbers(&heap), heap.blocks()), (([1000, 47], 0), 0));
}

/// Of 1,000 strings, and of 50 announced ones from the 953rd on, how many are told by their numbers with their values, and how many requests
/// that made.
fn told_by_numbers(heap: &Rationed<Global>) -> ([u32; 2], u64) {
    let mut map = BytesMap::new(heap, DefaultState);
    let _ = insert_each(&mut map, 1000, 0, 7);
    let _ = announce_some(&mut map, 953, u32::MAX);
    let before = heap.requests();
    let mut held = 0u32;
    let mut announced = 0u32;
    for number in 0..1100u32 {
        let (bytes, len) = bytes_of(number);
        let value = number.wrapping_add(7);
        if map.get_index(number as usize) == Some((&bytes[..len], value)) {
            held = held.saturating_add(1);
        }
        if map.announced_value(number as usize) == Some(value.wrapping_add(953)) {
            announced = announced.saturating_add(1);
        }
    }
    ([held, announced], heap.requests().wrapping_sub(before))
}

/// Strings in the order in which they are inserted, each with the place of its latest insertion before this one.
static ALIKE: &[(&[u8], Option<usize>)] = &[
    (b"", None),
    (b"a", None),
    (b"ab", None),
    (b"", Some(0)),
    (b"b", None),
    (b"aba", None),
    (b"ab", Some(2)),
    (b"", Some(3)),
    (b"ba", None),
    (b"\0", None),
    (b"a", Some(1)),
    (b"\0", Some(9)),
];

#[test]
fn strings_that_begin_alike_are_told_apart(rt: HostRuntime) {
    let mut map = BytesMap::new(rt.alloc(), DefaultState);
    for index in 0..ALIKE.len() {
        let (bytes, before) = ALIKE[index];
        equal!(rt; map.insert(bytes, index), Ok(before), index);
    }
    equal!(rt; map.len(), 7);
}

#[test]
fn a_refusal_leaves_the_strings(rt: HostRuntime) {
    let mut met = 0;
    for n in 0..60u64 {
        let heap = Rationed::new(rt.alloc());
        heap.refuse_one_after(n);
        let (failed, lost) = inserts_refused(&heap);
        let refused = heap.refused();
        equal!(rt; (failed, lost, heap.blocks()), (refused, 0, 0), n);
        met = met.max(refused.saturating_mul(n + 1));
    }
    // There was a request to refuse, and the last runs met none.
    equal!(rt; met > 0 && met < 60, true, met);
}

/// How many inserts and announcements of 300 strings were refused, and how many strings were lost at an insert, or held that should not
/// be.
fn inserts_refused(heap: &Rationed<Global>) -> (u64, u64) {
    let mut map = BytesMap::new(heap, DefaultState);
    let mut failed = 0u64;
    let mut lost = 0u64;
    for number in 0..300u32 {
        failed = failed.saturating_add(announce_some(&mut map, number, u32::MAX));
        let (bytes, len) = bytes_of(number);
        if map.insert(&bytes[..len], number).is_err() {
            failed = failed.saturating_add(1);
            let held = insert_each(&mut map, number, 0, 0);
            lost = lost.saturating_add(u64::from(number.saturating_sub(held)));
            if map.insert(&bytes[..len], number) != Ok(None) {
                lost = lost.saturating_add(1);
            }
        }
    }
    (failed, lost)
}
