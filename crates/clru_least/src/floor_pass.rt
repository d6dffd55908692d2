//! `FloorPass`, which takes requests one by one for a floor of their misses, and holds no key.
ghost use Rattle.std.specs.Prelude.{◌≡◌, ℕ, List, ◌+◌, ◌^◌, ◌<◌, ◌≤◌, ◌↔◌, [], ◌∷◌, map, reverse, IfOk, IfSome, OnOk, OnErr, IsNone, IsOk};
ghost use Rattle.std.specs.Result.{IsErrAnd};
ghost use Rattle.clru_model.specs.Requests.{IsLatestOf};
ghost use Rattle.clru_least.specs.FloorNumbers.{IsFloorOf, IsSizeFloorOf, own_step};
ghost use Rattle.clru_least.specs.Reuses.{IsFloorPass, IsTooLarge, volume_of};

use crate::floor_error::FloorRequestError;
use crate::floors::Floor;
use crate::reuse::Reuse;
use crate::size_floor::{FloorStep, SizeFloor};
use std::alloc::{AllocError, Allocator, Global};
use std::marker::{Model, PhantomData};

/// A pass over requests that holds no key. It takes for each request the weight of its key and the position of the latest request
/// of that key, which a `DistancePass` of `clru_curve` over the same requests returns. It returns a floor of what every policy
/// misses, for any room.
///
/// Clauses describe the requests that it has taken, the latest first, by `IsFloorPass`: none at first, then each taken request
/// comes in front.
///
/// Memory is 16 bytes for each request whose key came before.
pub struct FloorPass<K: Eq, A: Allocator + Copy = Global> {
    reuses: Vec<Reuse, A>,
    pub(crate) requests: usize,
    size: usize,
    alloc: A,
    keys: PhantomData<K>,
}

impl<K: Eq, A: Allocator + Copy> Drop for FloorPass<K, A> {
    fn drop(self) {
        let FloorPass {
            reuses,
            requests: _,
            size: _,
            alloc: _,
            keys: _,
        } = self;
        drop(reuses);
    }
}

impl<K: Eq, A: Allocator + Copy> Model for FloorPass<K, A> {
    ghost use Rattle.clru_least.specs.Reuses.{Reused, reused, reused_code, IsSoundFloor};

    ghost Value = { Reused };

    ghost coded = { reused_code };

    ghost view = { λ p. reused p.reuses.items p.requests p.size };

    ghost invariant = { λ p. IsSoundFloor (reused p.reuses.items p.requests p.size) };
}

impl<K: Eq, A: Allocator + Copy> FloorPass<K, A> {
    /// Creates a pass that has taken no request.
    /// Cost: no request for memory.
    pub fn new(alloc: A) -> Self
        ensures { (w : K → ℕ) → IsFloorPass K.eq w [] result }
    {
        FloorPass {
            reuses: Vec::new(alloc),
            requests: 0,
            size: 0,
            alloc,
            keys: PhantomData,
        }
    }

    /// Takes one more request, of a key of this weight: `latest` is the position of the latest request of its key, which is how
    /// many came before that one, or `None` if its key was not requested before.
    ///
    /// If memory is refused, or the sizes of all requests with this one exceed `usize::MAX`, the pass is unchanged.
    /// Cost: a write; one request for memory if there is no room for a reuse, and none for a new key.
    pub fn request(&mut self, latest: Option<usize>, weight: usize) -> Result<(), FloorRequestError>
        requires { IfSome latest (λ p. p < self.old.requests) }
        ensures taken { (w : K → ℕ) (past : List K) (key : K) → IsFloorPass K.eq w past self.old
            → IsLatestOf K.eq past key latest → w key ≡ weight → OnOk result (IsFloorPass K.eq w (key ∷ past) self.new) }
        ensures requests { OnOk result (self.new.requests ≡ self.old.requests + 1) }
        ensures size { OnOk result (self.new.size ≡ self.old.size + (1 + weight)) }
        ensures refused { OnErr result (self.new ≡ self.old) }
        ensures too_large { IsErrAnd result IsTooLarge ↔ (2 ^ 64 ≤ self.old.size + (1 + weight)) }
        ensures memory { IsNone latest → self.old.size + (1 + weight) < 2 ^ 64 → IsOk result }
    {
        if weight >= usize::MAX - self.size {
            return Err(FloorRequestError::TooLarge);
        }
        let size = weight + 1;
        let requests = self.requests + 1;
        let all = self.size + size;
        match latest {
            Some(latest) => {
                let gap = self.requests - latest;
                let Ok(()) = self.reuses.push(Reuse { gap, size }) else {
                    return Err(FloorRequestError::NoMemory);
                };
                self.requests = requests;
                self.size = all;
                Ok(())
            }
            None => {
                self.requests = requests;
                self.size = all;
                Ok(())
            }
        }
    }

    /// Returns a floor of the misses of the requests so far.
    ///
    /// Memory may be refused; none is asked for unless a key came before.
    /// Cost: a sort of the volumes; memory for 16 bytes for each request whose key came before.
    pub fn floor(&self) -> Result<Floor<A>, AllocError>
        ensures floor { (w : K → ℕ) (past : List K) → IsFloorPass K.eq w past self.now
            → IfOk result (IsFloorOf K.eq w (reverse past)) }
        ensures never_refused { (w : K → ℕ) → IsFloorPass K.eq w [] self.now → IsOk result }
        ensures none_again { self.now.reuses ≡ [] → IsOk result }
    {
        if self.reuses.is_empty() {
            return Ok(Floor::from_volumes(Vec::new(self.alloc), self.requests));
        }
        let volumes = volumes_of(self.alloc, &self.reuses)?;
        Ok(Floor::from_volumes(volumes, self.requests))
    }

    /// Returns a floor of the size that is missed of the requests so far.
    ///
    /// Memory may be refused; none is asked for unless a key came before.
    /// Cost: a sort of the gaps; memory for 32 bytes for each request whose key came before.
    pub fn size_floor(&self) -> Result<SizeFloor<A>, AllocError>
        ensures floor { (w : K → ℕ) (past : List K) → IsFloorPass K.eq w past self.now
            → IfOk result (IsSizeFloorOf K.eq w (reverse past)) }
        ensures never_refused { (w : K → ℕ) → IsFloorPass K.eq w [] self.now → IsOk result }
        ensures none_again { self.now.reuses ≡ [] → IsOk result }
    {
        if self.reuses.is_empty() {
            return Ok(SizeFloor::from_steps(Vec::new(self.alloc), self.requests, self.size));
        }
        let steps = steps_of(self.alloc, &self.reuses)?;
        Ok(SizeFloor::from_steps(steps, self.requests, self.size))
    }
}

/// The volume of each.
fn volumes_of<A: Allocator + Copy>(alloc: A, reuses: &[Reuse]) -> Result<Vec<u128, A>, AllocError>
    ensures { IfOk result (λ v. v.items ≡ map volume_of reuses.now) }
{
    reuses
        .iter()
        .map(
            |reuse: &Reuse| -> u128
                ensures { result ≡ volume_of reuse.now }
            { reuse.gap as u128 * reuse.size as u128 },
        )
        .collect(alloc)
}

/// The step of each, with nothing summed up.
fn steps_of<A: Allocator + Copy>(
    alloc: A,
    reuses: &[Reuse],
) -> Result<Vec<FloorStep, A>, AllocError>
    ensures { IfOk result (λ v. v.items ≡ map own_step reuses.now) }
{
    reuses
        .iter()
        .map(
            |reuse: &Reuse| -> FloorStep
                ensures { result ≡ own_step reuse.now }
            {
                FloorStep {
                    gap: reuse.gap,
                    size: reuse.size,
                    volume: 0,
                }
            },
        )
        .collect(alloc)
}
