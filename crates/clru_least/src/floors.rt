//! Floors of what every policy misses, at any room.
ghost use Rattle.std.specs.Prelude.{◌≡◌, ◌^◌, ◌<◌, ◌≤◌, nat_le, length};
ghost use Rattle.std.specs.Int.NonZero.{non_zero_usize_get};
ghost use Rattle.std.specs.List.{prefix_len, sum_by};
ghost use Rattle.std.specs.List.Sorted.{IsNonDecreasing};
ghost use Rattle.clru_least.specs.FloorNumbers.{floor_at, AreSums, IsFloorOfVolumes};

use std::alloc::{Allocator, Global};
use std::marker::Model;
use std::num::NonZeroUsize;

/// A floor of the misses of a list of requests at every room: no policy misses fewer of them, even if it bypasses keys and knows
/// all requests beforehand.
#[derive(Drop)]
pub struct Floor<A: Allocator = Global> {
    // The sum of the least volume, of the two least, and so on.
    volumes: Vec<u128, A>,
    pub(crate) requests: usize,
}

impl<A: Allocator> Model for Floor<A> {
    ghost use Rattle.std.specs.Prelude.{length, ◌≤◌};
    ghost use Rattle.std.specs.List.Sorted.{IsNonDecreasing};
    ghost use Rattle.clru_least.specs.FloorNumbers.{Floored, floored, floored_code};

    ghost Value = { Floored };

    ghost coded = { floored_code };

    ghost view = { λ f. floored f.volumes.items f.requests };

    ghost invariant = { λ f. IsNonDecreasing f.volumes.items × (length f.volumes.items ≤ f.requests) };
}

impl<A: Allocator> Floor<A> {
    /// Returns the floor of the misses with this room, which bounds the size of the keys held together.
    /// Cost: steps that grow as the logarithm of the number of requests.
    pub fn misses(&self, room: NonZeroUsize) -> usize
        ensures { result ≡ floor_at self.now (non_zero_usize_get room) }
    {
        let paid = room.get() as u128 * self.requests as u128;
        self.requests - paid_hits(&self.volumes, paid)
    }

    pub(crate) fn from_volumes(volumes: Vec<u128, A>, requests: usize) -> Self
        requires few { length volumes.items ≤ requests }
        requires fits { sum_by (λ n. n) volumes.items < 2 ^ 128 }
        ensures { IsFloorOfVolumes volumes.items requests result }
    {
        let mut volumes = volumes;
        volumes.sort_unstable();
        sum_up(&mut volumes);
        Floor { volumes, requests }
    }
}

/// How many of the sums are at most what is paid.
fn paid_hits(sums: &[u128], paid: u128) -> usize
    requires { IsNonDecreasing sums.now }
    ensures { result ≡ prefix_len (λ v. nat_le v paid) sums.now }
{
    sums.partition_point(
        |sum: &u128| -> bool
            ensures { result ≡ nat_le sum.now paid }
        { *sum <= paid },
    )
}

/// Adds to each number those before it.
fn sum_up(numbers: &mut [u128])
    requires { sum_by (λ n. n) numbers.old < 2 ^ 128 }
    ensures { AreSums numbers.old numbers.new }
{
    let mut sum = 0;
    for number in numbers.iter_mut() {
        sum += *number;
        *number = sum;
    }
}
