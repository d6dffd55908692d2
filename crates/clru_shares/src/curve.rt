//! The curve of a pass over lines.
ghost use Rattle.std.specs.Prelude.{◌≡◌, ℕ, Bool, List, IfOk};
ghost use Rattle.clru_shares.specs.LinePasses.{HasTakenBy, IsCurveBy};

use crate::pass::LinePass;
use clru_curve::{MissCurve, SizedCurve};
use std::alloc::{AllocError, Allocator};

/// What misses at every capacity.
#[derive(Drop)]
pub(crate) enum LineCurve<A: Allocator> {
    ByKeys(MissCurve<A>),
    BySize(SizedCurve<A>),
}

/// Returns the curve of the lines so far.
pub(crate) fn curve_of<A: Allocator + Copy>(
    alloc: A,
    pass: &LinePass<A>,
) -> Result<LineCurve<A>, AllocError>
    ensures { (sizes : Bool) (limit : ℕ) (requests : List (List ℕ × ℕ)) → HasTakenBy sizes limit requests pass.now
        → IfOk result (IsCurveBy sizes limit requests) }
{
    match pass {
        LinePass::OfKeys(pass) => match pass.curve(alloc) {
            Ok(curve) => Ok(LineCurve::ByKeys(curve)),
            Err(_) => Err(AllocError),
        },
        LinePass::OfSizes(pass) => match pass.curve(alloc) {
            Ok(curve) => Ok(LineCurve::BySize(curve)),
            Err(_) => Err(AllocError),
        },
    }
}
