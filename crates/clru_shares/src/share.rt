//! The curve of a class.
ghost use Rattle.std.specs.Prelude.{◌≡◌, ℕ, Bool, List, Option, map, IfOk};
ghost use Rattle.std.specs.Int.NonZero.{non_zero_usize_get};
ghost use Rattle.std.specs.Map.{keys_of};
ghost use Rattle.std.specs.Option.{option_map};
ghost use Rattle.clru_shares.specs.Passes.{AreTimeless, HasTaken, HaveShares, HaveTaken, IsShareOf, name_of};
ghost use Rattle.clru_shares.specs.Sampled.{kept_in};
ghost use Rattle.clru_shares.specs.ShareCurves.{missed_by_curve};
ghost use Rattle.clru_shares.specs.Times.{limit_of};

use crate::classes::Class;
use crate::curve::{LineCurve, curve_of};
use crate::sampled::told_in;
use clru_curve::Curve;
use std::alloc::{AllocError, Allocator};
use std::num::NonZeroUsize;

/// A class with the number and the size of its requests, and what misses at every capacity, of all or of a sample.
#[derive(Drop)]
pub(crate) struct Share<A: Allocator> {
    pub(crate) name: Vec<u8, A>,
    pub(crate) requests: usize,
    pub(crate) size: usize,
    pub(crate) sample: Option<NonZeroUsize>,

    /// How many of the requests the sample has.
    pub(crate) kept: usize,
    pub(crate) curve: LineCurve<A>,
}

impl<A: Allocator> Curve for Share<A> {
    ghost use Rattle.clru_shares.specs.ShareCurves.{all_of_share, missed_of_share};

    ghost all = { all_of_share };

    ghost missed = { missed_of_share };

    fn all(&self) -> usize {
        match &self.curve {
            LineCurve::ByKeys(_) => self.requests,
            LineCurve::BySize(_) => self.size,
        }
    }

    fn missed(&self, capacity: NonZeroUsize) -> Option<usize> {
        match missed_by(&self.curve, capacity) {
            Some(missed) => told_in(self.sample, self.all(), missed),
            None => None,
        }
    }
}

// What the lines of the curve miss.
fn missed_by<A: Allocator>(curve: &LineCurve<A>, capacity: NonZeroUsize) -> Option<usize>
    ensures { result ≡ missed_by_curve curve.now (non_zero_usize_get capacity) }
{
    match curve {
        LineCurve::ByKeys(curve) => Some(curve.misses(capacity)),
        LineCurve::BySize(curve) => curve.missed_size(capacity),
    }
}

/// Returns the curves of the classes, whose passes took the lines of a sample.
pub(crate) fn shares_of<A: Allocator + Copy>(
    alloc: A,
    sample: Option<NonZeroUsize>,
    classes: &[Class<A>],
) -> Result<Vec<Share<A>, A>, AllocError>
    ensures { (sizes : Bool) (idle : Option ℕ) (requests : List (List ℕ × ℕ)) → AreTimeless idle requests
        → HaveTaken sizes (limit_of idle) (keys_of requests) (kept_in (option_map non_zero_usize_get sample) requests) classes.now
        → IfOk result (λ shares. HaveShares sizes idle (option_map non_zero_usize_get sample) requests (map name_of classes.now) shares.items) }
{
    let mut shares = Vec::new(alloc);
    for class in classes {
        shares.push(share_of(alloc, sample, class)?)?;
    }
    Ok(shares)
}

fn share_of<A: Allocator + Copy>(
    alloc: A,
    sample: Option<NonZeroUsize>,
    class: &Class<A>,
) -> Result<Share<A>, AllocError>
    ensures { (sizes : Bool) (idle : Option ℕ) (requests : List (List ℕ × ℕ)) → AreTimeless idle requests
        → HasTaken sizes (limit_of idle) (keys_of requests) (kept_in (option_map non_zero_usize_get sample) requests) class.now
        → IfOk result (IsShareOf sizes idle (option_map non_zero_usize_get sample) requests (name_of class.now)) }
{
    Ok(Share {
        name: Vec::from_slice(alloc, &class.name)?,
        requests: class.requests,
        size: class.size,
        sample,
        kept: class.kept,
        curve: curve_of(alloc, &class.pass)?,
    })
}
