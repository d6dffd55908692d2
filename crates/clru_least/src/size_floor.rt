//! The floor of what every policy misses of the size, at any room.
ghost use Rattle.std.specs.Prelude.{◌≡◌, ◌^◌, ◌<◌, ◌≤◌, nat_le, length, All};
ghost use Rattle.std.specs.Int.NonZero.{non_zero_usize_get};
ghost use Rattle.std.specs.List.{prefix_len, sum_by};
ghost use Rattle.std.specs.List.Sorted.{IsNonDecreasingBy};
ghost use Rattle.clru_least.specs.FloorNumbers.{AreSound, AreSteps, IsFloorOfSteps, hit_size_at, own_volume, size_floor_at, step_before};

use std::alloc::{Allocator, Global};
use std::marker::Model;
use std::num::NonZeroUsize;

/// A floor of the size that is missed of a list of requests at every room: no policy misses less, even if it bypasses keys and
/// knows all requests beforehand.
#[derive(Drop)]
pub struct SizeFloor<A: Allocator = Global> {
    steps: Vec<FloorStep, A>,
    pub(crate) requests: usize,
    size: usize,
}

impl<A: Allocator> Model for SizeFloor<A> {
    ghost use Rattle.clru_least.specs.FloorNumbers.{FlooredBySize, floored_by_size, floored_by_size_code, AreSound};

    ghost Value = { FlooredBySize };

    ghost coded = { floored_by_size_code };

    ghost view = { λ f. floored_by_size f.steps.items f.requests f.size };

    ghost invariant = { λ f. AreSound f.steps.items f.size };
}

/// A gap, and the sums of the sizes and of the volumes up to there.
#[derive(Clone, Copy)]
pub(crate) struct FloorStep {
    pub(crate) gap: usize,
    pub(crate) size: usize,
    pub(crate) volume: u128,
}

impl<A: Allocator> SizeFloor<A> {
    /// Returns the floor of the missed size with this room, which bounds the size of the keys held together.
    /// Cost: steps that grow as the logarithm of the number of requests.
    pub fn missed_size(&self, room: NonZeroUsize) -> usize
        ensures { result ≡ size_floor_at self.now (non_zero_usize_get room) }
    {
        let paid = room.get() as u128 * self.requests as u128;
        self.size - hit_size(&self.steps, paid, self.size)
    }

    pub(crate) fn from_steps(steps: Vec<FloorStep, A>, requests: usize, size: usize) -> Self
        requires gaps { All (λ s. 1 ≤ s.gap) steps.items }
        requires fits { sum_by own_volume steps.items < 2 ^ 128 }
        requires sizes { sum_by (λ s. s.size) steps.items ≤ size }
        ensures { IsFloorOfSteps steps.items requests size result }
    {
        let mut steps = steps;
        steps.sort_unstable_by_key(|step| step.gap);
        add_up(&mut steps);
        SizeFloor {
            steps,
            requests,
            size,
        }
    }
}

/// The size of the hits that are paid for, and of the part of the next.
fn hit_size(steps: &[FloorStep], paid: u128, size: usize) -> usize
    requires { AreSound steps.now size }
    ensures value { result ≡ hit_size_at paid steps.now (prefix_len (λ s. nat_le s.volume paid) steps.now) }
    ensures within { result ≤ size }
{
    let count = paid_steps(steps, paid);
    let before = last_of(steps, count);
    if count >= steps.len() {
        return before.size;
    }
    let part = (paid - before.volume) / steps[count].gap as u128;
    before.size + part as usize
}

/// The last of the first steps.
fn last_of(steps: &[FloorStep], count: usize) -> FloorStep
    requires { count ≤ length steps.now }
    ensures { result ≡ step_before steps.now count }
{
    if count == 0 {
        return FloorStep {
            gap: 0,
            size: 0,
            volume: 0,
        };
    }
    steps[count - 1]
}

/// How many steps are paid for.
fn paid_steps(steps: &[FloorStep], paid: u128) -> usize
    requires { IsNonDecreasingBy (λ s. s.volume) steps.now }
    ensures { result ≡ prefix_len (λ s. nat_le s.volume paid) steps.now }
{
    steps.partition_point(
        |step: &FloorStep| -> bool
            ensures { result ≡ nat_le step.now.volume paid }
        { step.volume <= paid },
    )
}

/// Adds to each step the sizes and the volumes of those before it.
fn add_up(steps: &mut [FloorStep])
    requires volumes { sum_by own_volume steps.old < 2 ^ 128 }
    requires sizes { sum_by (λ s. s.size) steps.old < 2 ^ 64 }
    ensures { AreSteps steps.old steps.new }
{
    let mut size = 0;
    let mut volume = 0;
    for step in steps.iter_mut() {
        size += step.size;
        volume += step.gap as u128 * step.size as u128;
        *step = FloorStep {
            gap: step.gap,
            size,
            volume,
        };
    }
}
