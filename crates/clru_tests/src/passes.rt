//! A pass over requests, what it knows of a key, and a curve that was kept.

use clru_curve::{DistancePass, MissCurve};
use ration::{Rationed, equal};
use std::alloc::Global;

/// Of three keys the positions of their latest requests, after 1, 2 and 1. `None` is for want of memory.
fn latest_of(pass: &mut DistancePass<u64>) -> Option<[Option<usize>; 3]> {
    for key in [1, 2, 1] {
        if pass.request(key).is_err() {
            return None;
        }
    }
    Some([
        pass.latest_request(&1),
        pass.latest_request(&2),
        pass.latest_request(&3),
    ])
}

#[test]
fn the_latest_request_of_a_key_is_known(rt: HostRuntime) {
    let mut pass = DistancePass::new(rt.alloc());
    equal!(rt; latest_of(&mut pass), Some([Some(2), Some(1), None]));
}

/// Misses that were kept, after how many requests memory is refused, and whether a curve of them is made, with how many requests.
static KEPT: &[(&[usize], u64, bool, u64)] = &[
    (&[], 0, true, 0),
    (&[5, 3, 2], 1, true, 1),
    (&[5, 3, 2], 0, false, 1),
];

#[test]
fn a_curve_is_made_of_its_misses(rt: HostRuntime) {
    for (misses, after, is_made, requests) in KEPT {
        let heap = Rationed::new(rt.alloc());
        heap.refuse_after(*after);
        let made = (is_curve_of(&heap, misses), heap.requests(), heap.blocks());
        equal!(rt; made, (*is_made, *requests, 0), (*misses, *after));
    }
}

fn is_curve_of(heap: &Rationed<Global>, misses: &[usize]) -> bool {
    match MissCurve::from_slice(heap, misses) {
        Ok(curve) => curve.as_slice() == misses,
        Err(_) => false,
    }
}
