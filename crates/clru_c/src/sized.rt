//! The misses by size: each key comes with the size of what it names.
ghost use Rattle.std.specs.Prelude.{◌≡◌, ◌≢◌, ◌^◌, ◌<◌, ◌≤◌, true, false, [], length, slice_index, EachIndex, SomeIndex, IfOk, IfErr, IsErr, IsOk};
ghost use Rattle.std.specs.List.{zip};
ghost use Rattle.clru_curve.specs.SizedCurves.{IsSizedCurveOf, misses_within, missed_size_within, size_of_all};
ghost use Rattle.clru_curve.specs.SizedPasses.{IsNoMemory};
ghost use Rattle.clru_c.specs.Arrays.{AreBelow};
ghost use Rattle.clru_c.specs.Objects.{AreSizedMisses, IsSizedCode, same_object, weight_of};

use crate::codes::{NO_CAPACITY, NO_MEMORY, OK, TOO_LARGE, TOO_SMALL, WRONG_LENGTH};
use clru_curve::{SizedCurve, SizedRequestError, WeightScale, sized_curve};
use std::alloc::{AllocError, Allocator};
use std::hash::BuildHasher;
use std::num::NonZeroUsize;

/// A key with a size weighs the size less 1, so that its entry takes the size; one of size 0 takes 1.
#[derive(Clone, Copy, Drop)]
pub(crate) struct SizeScale;

impl WeightScale<(u64, usize), ()> for SizeScale {
    ghost weight = { λ _ object _. weight_of object };

    fn weight(&self, object: &(u64, usize), _value: &()) -> usize {
        object.1.saturating_sub(1)
    }
}

/// The misses and the missed size at each of the capacities, and the size of the distinct objects.
#[allow(too_many_arguments)]
pub(crate) fn misses_by_size<S: BuildHasher + Drop, A: Allocator + Copy>(
    alloc: A,
    keys: &[u64],
    sizes: &[usize],
    capacities: &[usize],
    missed: &mut [usize],
    lost: &mut [usize],
    size: &mut usize,
    hash_builder: S,
) -> u32
    ensures misses { result ≡ OK → AreSizedMisses (zip keys.now sizes.now) capacities.now missed.new lost.new size.new }
    ensures left { result ≢ OK → (missed.new ≡ missed.old) × (lost.new ≡ lost.old) × (size.new ≡ size.old) }
    ensures codes { IsSizedCode keys.now sizes.now capacities.now missed.old lost.old result }
    ensures never_refused { keys.now ≡ [] → result ≢ NO_MEMORY }
{
    if capacities.contains(&0) {
        return NO_CAPACITY;
    }
    if sizes.len() != keys.len()
        || missed.len() != capacities.len()
        || lost.len() != capacities.len()
    {
        return WRONG_LENGTH;
    }
    let Ok(objects) = objects_of(alloc, keys, sizes) else {
        return NO_MEMORY;
    };
    let curve = match curve_of(alloc, &objects, hash_builder) {
        Ok(curve) => curve,
        Err(SizedRequestError::NoMemory(_)) => return NO_MEMORY,
        Err(SizedRequestError::TooLarge(_)) => return TOO_LARGE,
    };
    if has_within(capacities, curve.greatest_weight()) {
        return TOO_SMALL;
    }
    write_misses(&curve, capacities, missed, lost);
    *size = curve.distinct_size();
    OK
}

/// The curve of the objects. As a function of its own its loop has the registers to itself.
#[inline(never)]
fn curve_of<S: BuildHasher + Drop, A: Allocator + Copy>(
    alloc: A,
    objects: &[(u64, usize)],
    hash_builder: S,
) -> Result<SizedCurve<A>, SizedRequestError<(u64, usize)>>
    ensures curve { IfOk result (IsSizedCurveOf same_object weight_of objects.now) }
    ensures too_large { size_of_all weight_of objects.now < 2 ^ 64 → IfErr result IsNoMemory }
    ensures passes { 2 ^ 64 ≤ size_of_all weight_of objects.now → IsErr result }
    ensures never_refused { objects.now ≡ [] → IsOk result }
{
    sized_curve(alloc, objects, SizeScale, hash_builder)
}

/// Whether some capacity is not above the weight.
fn has_within(capacities: &[usize], weight: usize) -> bool
    ensures some { result ≡ true → SomeIndex capacities.now (λ i. slice_index capacities.now i ≤ weight) }
    ensures none { result ≡ false → EachIndex capacities.now (λ i. weight < slice_index capacities.now i) }
{
    for index in 0..capacities.len() {
        if capacities[index] <= weight {
            return true;
        }
    }
    false
}

/// The misses of the curve and the missed size at each of the capacities.
fn write_misses<A: Allocator>(
    curve: &SizedCurve<A>,
    capacities: &[usize],
    missed: &mut [usize],
    lost: &mut [usize],
)
    requires above { EachIndex capacities.now (λ i. curve.now.greatest_weight < slice_index capacities.now i) }
    requires many { length missed.old ≡ length capacities.now }
    requires many_lost { length lost.old ≡ length capacities.now }
    ensures misses { AreBelow (λ i m. m ≡ misses_within curve.now (slice_index capacities.now i)) missed.new
        (length missed.new) }
    ensures lost { AreBelow (λ i m. m ≡ missed_size_within curve.now (slice_index capacities.now i)) lost.new
        (length lost.new) }
{
    for index in 0..capacities.len() {
        let Some(capacity) = NonZeroUsize::new(capacities[index]) else {
            unreachable!();
        };
        let (Some(misses), Some(size)) = (curve.misses(capacity), curve.missed_size(capacity))
        else {
            unreachable!();
        };
        missed[index] = misses;
        lost[index] = size;
    }
}

/// Each key beside its size.
pub(crate) fn objects_of<A: Allocator>(
    alloc: A,
    keys: &[u64],
    sizes: &[usize],
) -> Result<Vec<(u64, usize), A>, AllocError>
    requires equally_long { length sizes.now ≡ length keys.now }
    ensures objects { IfOk result (λ objects. objects.items ≡ zip keys.now sizes.now) }
    ensures never_refused { keys.now ≡ [] → IsOk result }
{
    let mut objects = Vec::with_capacity(alloc, keys.len())?;
    for index in 0..keys.len() {
        objects.push_reserved((keys[index], sizes[index]));
    }
    Ok(objects)
}
