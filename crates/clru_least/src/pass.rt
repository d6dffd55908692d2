//! `ForesightPass`, which takes requests one by one and holds no key.
ghost use Rattle.std.specs.Prelude.{◌≡◌, ℕ, List, ◌+◌, ◌-◌, ◌^◌, ◌<◌, ◌≤◌, [], ◌∷◌, length, reverse, true, IfOk, OnOk, OnErr, IsOk};
ghost use Rattle.std.specs.Int.NonZero.{non_zero_usize_get};
ghost use Rattle.clru_list.specs.Packed.{greatest_by};
ghost use Rattle.clru_model.specs.Least.{IsLeast, IsNearFromAnyStart};
ghost use Rattle.clru_model.specs.Requests.{IsLatestOf, misses};
ghost use Rattle.clru_least.specs.Passes.{IsForesight, next_or};

use crate::next_uses::NextUses;
use clru_list::PackedNumbers;
use std::alloc::{AllocError, Allocator, Global};
use std::marker::{Model, PhantomData};
use std::num::NonZeroUsize;

/// A pass over requests that holds no key. It takes for each request the position of the latest request of its key, which a
/// `DistancePass` of `clru_curve` over the same requests returns. It returns the fewest misses for any room, as `Foresight` does.
///
/// Clauses describe the requests that it has taken, the latest first, by `IsForesight`: none at first, then each taken request
/// comes in front.
///
/// Memory is 4 to 8 bytes for each request, since it doubles, or twice that if there are more than 4,294,967,295.
pub struct ForesightPass<K: Eq, A: Allocator + Copy = Global> {
    // For each request the position of the next one of its key, and 0 where there is none.
    pub(crate) later: PackedNumbers<A>,
    alloc: A,
    keys: PhantomData<K>,
}

impl<K: Eq, A: Allocator + Copy> Drop for ForesightPass<K, A> {
    fn drop(self) {
        let ForesightPass {
            later,
            alloc: _,
            keys: _,
        } = self;
        drop(later);
    }
}

impl<K: Eq, A: Allocator + Copy> Model for ForesightPass<K, A> {
    ghost use Rattle.std.specs.Prelude.{ℕ, List};
    ghost use Rattle.clru_least.specs.Passes.{IsSound};

    ghost Value = { List ℕ };

    ghost view = { λ p. p.later.numbers };

    ghost invariant = { λ p. IsSound K.eq p.later };
}

impl<K: Eq, A: Allocator + Copy> ForesightPass<K, A> {
    /// Creates a pass that has taken no request.
    /// Cost: no request for memory.
    pub fn new(alloc: A) -> Self
        ensures { IsForesight K.eq [] result }
    {
        ForesightPass {
            later: PackedNumbers::new(alloc),
            alloc,
            keys: PhantomData,
        }
    }

    /// Creates a pass from the positions of the next requests.
    pub(crate) fn of_numbers(alloc: A, later: PackedNumbers<A>) -> Self
        requires taken { (past : List K) × IsForesight K.eq past later.numbers }
        requires narrow { length later.numbers < 2 ^ 32 → later.greatest ≡ greatest_by true }
        ensures { result ≡ later.numbers }
    {
        ForesightPass {
            later,
            alloc,
            keys: PhantomData,
        }
    }

    /// Takes one more request: `latest` is the position of the latest request of its key, which is how many came before that one,
    /// or `None` if its key was not requested before.
    ///
    /// If memory is refused, the pass is unchanged.
    /// Cost: two writes; one request for memory if there is no room for a number. When numbers begin to take 8 bytes, one more,
    /// and a copy of each.
    pub fn request(&mut self, latest: Option<usize>) -> Result<(), AllocError>
        requires { (past : List K) × (key : K) × IsForesight K.eq past self.old × IsLatestOf K.eq past key latest }
        ensures taken { (past : List K) (key : K) → IsForesight K.eq past self.old → IsLatestOf K.eq past key latest
            → OnOk result (IsForesight K.eq (key ∷ past) self.new) }
        ensures refused { OnErr result (self.new ≡ self.old) }
    {
        let position = self.later.len();
        self.later.widen_for(position)?;
        self.later.push(0)?;
        match latest {
            Some(latest) => {
                self.later.set(latest, position);
                Ok(())
            }
            None => Ok(()),
        }
    }

    /// Returns the fewest misses of any policy on the requests so far, with room for so many keys, even if it knows all requests
    /// beforehand. The policy starts empty, and takes in each requested key and no other.
    ///
    /// One that starts with keys has at most `room` fewer; a replay of that capacity has no fewer.
    ///
    /// Memory is asked for at the start, and may be refused; without requests none is.
    /// Cost: time that grows as the requests times the logarithm of their number; memory of about a byte for four requests, until
    /// it returns.
    pub fn least(&self, room: NonZeroUsize) -> Result<usize, AllocError>
        ensures least { (past : List K) → IsForesight K.eq past self.now
            → IfOk result (IsLeast K.eq (non_zero_usize_get room) (reverse past)) }
        ensures any_start { (past : List K) → IsForesight K.eq past self.now
            → IfOk result (IsNearFromAnyStart K.eq (non_zero_usize_get room) (reverse past)) }
        ensures beside_lru { (past : List K) → IsForesight K.eq past self.now
            → IfOk result (λ n. n ≤ misses K.eq (non_zero_usize_get room) (reverse past)) }
        ensures never_refused { IsForesight K.eq [] self.now → IsOk result }
    {
        let count = self.later.len();
        if count == 0 {
            return Ok(0);
        }
        let mut next_uses = NextUses::with_room(self.alloc, count)?;
        let mut held = 0;
        let mut misses = 0;
        for position in 0..count {
            if !next_uses.positions.contains(position) {
                misses += 1;
                if held < room.get() {
                    held += 1;
                } else {
                    next_uses.drop_latest();
                }
            }
            next_uses.keep(next_or(self.later.get(position), count));
        }
        Ok(misses)
    }
}

/// The position of the next request, or the end where there is none.
fn next_or(later: usize, end: usize) -> usize
    ensures { result ≡ next_or end later }
{
    if later == 0 { end } else { later }
}
