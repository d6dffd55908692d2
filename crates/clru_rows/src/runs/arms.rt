//! The calls of a run by their names, those that take numbers alone. `tools/check/calls --write` writes this file, from
//! `clru_runs/src/call.rt`.

use clru_runs::{Call, PlainCall};

/// Returns how many numbers a call takes.
pub(crate) fn arity(name: &str) -> usize {
    match name {
        "put_with_weight" | "put" | "put_or_modify" | "get_mut" | "peek_mut" => 2,
        "retain_mut" => 2,
        "len" | "weight" | "size" | "capacity" | "is_empty" | "is_full" | "front" => 0,
        "back" | "pop_front" | "pop_back" | "clear" => 0,
        _ => 1,
    }
}

/// Returns the call of that name with these numbers.
pub(crate) fn call_of(name: &str, first: usize, second: usize) -> Option<PlainCall<usize, usize>> {
    Some(match name {
        "put" => PlainCall::Put(first, second),
        "put_or_modify" => PlainCall::PutOrModify(first, second),
        "get_mut" => PlainCall::GetMut(first, second),
        "peek_mut" => PlainCall::PeekMut(first, second),
        "front_mut" => PlainCall::FrontMut(first),
        "back_mut" => PlainCall::BackMut(first),
        "retain_mut" => PlainCall::RetainMut(first, second),
        _ => return any_call(name, first, second),
    })
}

/// Returns one that each cache has.
fn any_call(name: &str, first: usize, second: usize) -> Option<PlainCall<usize, usize>> {
    Some(PlainCall::Any(match name {
        "put_with_weight" => Call::PutWithWeight(first, second),
        "get" => Call::Get(first),
        "peek" => Call::Peek(first),
        "contains" => Call::Contains(first),
        "len" => Call::Len,
        "weight" => Call::Weight,
        "size" => Call::Size,
        "capacity" => Call::Capacity,
        "is_empty" => Call::IsEmpty,
        "is_full" => Call::IsFull,
        "demote" => Call::Demote(first),
        "pop" => Call::Pop(first),
        "front" => Call::Front,
        "back" => Call::Back,
        "nth" => Call::Nth(first),
        "nth_back" => Call::NthBack(first),
        "pop_front" => Call::PopFront,
        "pop_back" => Call::PopBack,
        "clear" => Call::Clear,
        "resize" => Call::Resize(first),
        "retain" => Call::Retain(first),
        _ => return None,
    }))
}
