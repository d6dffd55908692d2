//! The least number of misses of a list of requests, for any room.
ghost use Rattle.std.specs.Prelude.{◌≡◌, ◌≤◌, [], IfOk, IsOk};
ghost use Rattle.std.specs.Int.NonZero.{non_zero_usize_get};
ghost use Rattle.clru_model.specs.Least.{IsLeast, IsNearFromAnyStart};
ghost use Rattle.clru_model.specs.Requests.{misses};

use crate::chains::next_requests;
use crate::pass::ForesightPass;
use std::alloc::{AllocError, Allocator};
use std::hash::{BuildHasher, Hash};
use std::marker::Model;
use std::num::NonZeroUsize;

/// A list of requests, with the position of the next request of each key. It is made once, and returns the fewest misses for
/// any room. It borrows the requests; a clause sees it as their list.
#[derive(Drop)]
pub struct Foresight<'a, K: Eq, A: Allocator + Copy> {
    pub(crate) keys: &'a [K],
    pass: ForesightPass<K, A>,
}

impl<'a, K: Eq, A: Allocator + Copy> Model for Foresight<'a, K, A> {
    ghost use Rattle.std.specs.Prelude.{List, reverse};
    ghost use Rattle.std.specs.Coded.{coded_list};
    ghost use Rattle.clru_least.specs.Passes.{IsForesight};

    ghost Value = { List K };

    ghost coded = { coded_list K.code };

    ghost view = { λ f. f.keys.now };

    ghost invariant = { λ f. IsForesight K.eq (reverse f.keys.now) f.pass };
}

impl<'a, K: Eq, A: Allocator + Copy> Foresight<'a, K, A> {
    /// Looks up where the key of each request is requested next.
    ///
    /// Memory may be refused; without requests none is asked for.
    /// Cost: each request is hashed once, with `hash_builder`, and compared with those keys of its bucket that were requested since its own
    /// key was, or with all if it is new: at most half of the square of their number, if all hashes agree. Two requests for memory: for
    /// 4 bytes for each request (8 above 4,294,967,295 of them), and as much for each bucket, one for two to four requests, which are
    /// dropped at the end.
    pub fn new<S: BuildHasher + Drop>(
        alloc: A,
        keys: &'a [K],
        hash_builder: S,
    ) -> Result<Foresight<'a, K, A>, AllocError>
    where
        K: Hash,
        ensures requests { IfOk result (λ f. f ≡ keys.now) }
        ensures never_refused { keys.now ≡ [] → IsOk result }
    {
        if keys.is_empty() {
            return Ok(Foresight {
                keys,
                pass: ForesightPass::new(alloc),
            });
        }
        let later = next_requests(alloc, keys, &hash_builder)?;
        Ok(Foresight {
            keys,
            pass: ForesightPass::of_numbers(alloc, later),
        })
    }

    /// Returns the fewest misses of any policy with room for so many keys, even if it knows all requests beforehand. The policy
    /// starts empty, and takes in each requested key and no other.
    ///
    /// One that starts with keys has at most `room` fewer; a replay of that capacity has no fewer.
    ///
    /// Memory is asked for at the start, and may be refused; without requests none is.
    /// Cost: time that grows as the requests times the logarithm of their number; memory of about a byte for four requests, until
    /// it returns. No key is hashed or compared.
    pub fn least(&self, room: NonZeroUsize) -> Result<usize, AllocError>
        ensures least { IfOk result (IsLeast K.eq (non_zero_usize_get room) self.now) }
        ensures any_start { IfOk result (IsNearFromAnyStart K.eq (non_zero_usize_get room) self.now) }
        ensures beside_lru { IfOk result (λ n. n ≤ misses K.eq (non_zero_usize_get room) self.now) }
        ensures never_refused { self.now ≡ [] → IsOk result }
    {
        self.pass.least(room)
    }
}

/// Returns the fewest misses of any policy with room for so many keys, even if it knows all requests beforehand: `Foresight` for
/// one room. The policy takes in each requested key and no other.
///
/// Memory may be refused; without keys none is asked for. The keys stay the caller's, and are hashed with `hash_builder`.
/// Cost: that of `Foresight::new` and of one call of its `least`.
pub fn least<K: Eq + Hash, S: BuildHasher + Drop, A: Allocator + Copy>(
    alloc: A,
    room: NonZeroUsize,
    keys: &[K],
    hash_builder: S,
) -> Result<usize, AllocError>
    ensures least { IfOk result (IsLeast K.eq (non_zero_usize_get room) keys.now) }
    ensures any_start { IfOk result (IsNearFromAnyStart K.eq (non_zero_usize_get room) keys.now) }
    ensures beside_lru { IfOk result (λ n. n ≤ misses K.eq (non_zero_usize_get room) keys.now) }
    ensures never_refused { keys.now ≡ [] → IsOk result }
{
    let foresight = Foresight::new(alloc, keys, hash_builder)?;
    foresight.least(room)
}
