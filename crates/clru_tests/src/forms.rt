//! Look-ups by a form of the key: a text that is lent, where the keys own their memory.

use crate::plain::room;
use clru::{CLruCache, DefaultState, NonZeroUsize, ZeroWeightScale};
use clru_curve::{DistancePass, SizedPass};
use ration::{Rationed, equal};
use std::alloc::{Allocator, Global};

/// A cache of texts over any memory, as their keys: what calls it is proved with no look at how that counts.
type Texts<A> = CLruCache<String<A>, &'static str, DefaultState, ZeroWeightScale, A>;

type Heap<'a> = &'a Rationed<Global>;

/// Also the Rust crate's test_get_with_borrow and test_get_mut_with_borrow.
#[test]
fn a_look_up_by_a_lent_text_asks_for_no_memory(rt: HostRuntime) {
    let heap = Rationed::new(rt.alloc());
    equal!(rt; (requests(&heap, room(2)), heap.blocks()), (Some(0), 0));
}

/// How many requests each look-up of a held text makes with the others, where each finds it.
fn requests(heap: &Rationed<Global>, capacity: NonZeroUsize) -> Option<u64> {
    match String::from_str(heap, "apple") {
        Ok(key) => {
            let mut cache = CLruCache::new(heap, capacity);
            requests_of(heap, &mut cache, key)
        }
        Err(_) => None,
    }
}

fn requests_of<'a>(
    heap: &'a Rationed<Global>,
    cache: &mut Texts<Heap<'a>>,
    key: String<Heap<'a>>,
) -> Option<u64> {
    let _ = cache.put(key, "red");
    let before = heap.requests();
    if looks(cache, "apple") {
        Some(heap.requests().wrapping_sub(before))
    } else {
        None
    }
}

fn looks<A: Allocator + Copy>(cache: &mut Texts<A>, text: &str) -> bool {
    finds(cache, text)
        && writes(cache, text)
        && cache.pop(text) == Some("red")
        && !cache.contains(text)
}

fn finds<A: Allocator + Copy>(cache: &Texts<A>, text: &str) -> bool {
    cache.contains(text) && cache.peek(text).copied() == Some("red")
}

fn writes<A: Allocator + Copy>(cache: &mut Texts<A>, text: &str) -> bool {
    cache.get(text).copied() == Some("red")
        && cache.peek_mut(text).copied() == Some("red")
        && cache.get_mut(text).copied() == Some("red")
}

#[test]
fn a_pass_is_asked_again_by_a_lent_text_and_asks_for_no_memory(rt: HostRuntime) {
    let heap = Rationed::new(rt.alloc());
    equal!(rt; (distances(&heap), spans(&heap), heap.blocks()), (Some((1, 0)), Some((5, 0)), 0));
}

/// The distance of a key that comes again, asked for by its text, and the requests for memory of that.
fn distances(heap: &Rationed<Global>) -> Option<(usize, u64)> {
    distances_of(heap, &mut DistancePass::new(heap))
}

fn distances_of<'a>(
    heap: Heap<'a>,
    pass: &mut DistancePass<String<Heap<'a>>, DefaultState, Heap<'a>>,
) -> Option<(usize, u64)> {
    if !(is_first(heap, pass, "apple") && is_first(heap, pass, "banana")) {
        return None;
    }
    let before = heap.requests();
    let hash = pass.hash("apple");
    match pass.request_again_with_hash(hash, "apple") {
        Ok(Some(distance)) => Some((distance, heap.requests().wrapping_sub(before))),
        _ => None,
    }
}

/// Whether a text was not requested before. It is then.
fn is_first<A: Allocator + Copy>(
    heap: A,
    pass: &mut DistancePass<String<A>, DefaultState, A>,
    text: &str,
) -> bool {
    let Ok(key) = String::from_str(heap, text) else {
        return false;
    };
    matches!(pass.request_again(text), Ok(None)) && matches!(pass.request(key), Ok(None))
}

/// The same of spans, where the weights are 1 and 2.
fn spans(heap: &Rationed<Global>) -> Option<(usize, u64)> {
    spans_of(heap, &mut SizedPass::new(heap))
}

fn spans_of<'a>(
    heap: Heap<'a>,
    pass: &mut SizedPass<String<Heap<'a>>, DefaultState, Heap<'a>>,
) -> Option<(usize, u64)> {
    if !(is_first_sized(heap, pass, "apple", 1) && is_first_sized(heap, pass, "banana", 2)) {
        return None;
    }
    let before = heap.requests();
    let hash = pass.hash("apple");
    match pass.request_again_with_hash(hash, "apple", 1) {
        Ok(Some(span)) => Some((span, heap.requests().wrapping_sub(before))),
        _ => None,
    }
}

fn is_first_sized<A: Allocator + Copy>(
    heap: A,
    pass: &mut SizedPass<String<A>, DefaultState, A>,
    text: &str,
    weight: usize,
) -> bool {
    let Ok(key) = String::from_str(heap, text) else {
        return false;
    };
    matches!(pass.request_again(text, weight), Ok(None))
        && matches!(pass.request(key, weight), Ok(None))
}
