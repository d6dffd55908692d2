//! The unit structs, made by `default` and copied by `clone`.

use clru::{DefaultState, NoMemory, WeightScale, ZeroWeightScale};
use ration::equal;
use std::hash::BuildHasher;

#[test]
fn unit_structs_are_made_and_cloned(rt: HostRuntime) {
    equal!(rt; weighs(&ZeroWeightScale::default()), Some(0));
    equal!(rt; hashes(&DefaultState::default()), Some(DefaultState.hash_one(7u64)));
    equal!(rt; matches!(NoMemory.clone(), Ok(NoMemory)), true);
}

/// What a copy weighs a pair,
fn weighs(scale: &ZeroWeightScale) -> Option<usize> {
    match scale.clone() {
        Ok(copy) => Some(copy.weight(&1u64, &2u64)),
        Err(_) => None,
    }
}

/// and how a copy hashes a key.
fn hashes(state: &DefaultState) -> Option<u64> {
    match state.clone() {
        Ok(copy) => Some(copy.hash_one(7u64)),
        Err(_) => None,
    }
}
