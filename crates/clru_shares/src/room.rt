//! Whether the budget has room for each request.
ghost use Rattle.std.specs.Prelude.{◌≡◌, ℕ, Bool, List, Option, false, IfErr, OnOk};
ghost use Rattle.std.specs.Int.NonZero.{non_zero_usize_get};
ghost use Rattle.std.specs.List.{All};
ghost use Rattle.clru_shares.specs.Faults.{comes_of_a_line, comes_of_writing};
ghost use Rattle.clru_shares.specs.LinePasses.{IsCurveBy};
ghost use Rattle.clru_shares.specs.Passes.{HaveShares};
ghost use Rattle.clru_shares.specs.Refusals.{IsFirstWithoutRoom};
ghost use Rattle.clru_shares.specs.Shares.{HasRoom, greatest_size as greatest_size_of};

use crate::curve::LineCurve;
use crate::fault::SplitFault;
use crate::share::Share;
use clru_text::Fault;
use std::alloc::Allocator;
use std::num::NonZeroUsize;

/// Fails if a class has a request that is larger than the budget. The name of the first such class is put into `name`.
pub(crate) fn check_room<A: Allocator>(
    budget: NonZeroUsize,
    shares: &[Share<A>],
    name: &mut Vec<u8, A>,
) -> Result<(), SplitFault>
    ensures room { (sizes : Bool) (idle sample : Option ℕ) (requests : List (List ℕ × ℕ)) (names : List (List ℕ))
        → HaveShares sizes idle sample requests names shares.now
        → OnOk result (All (HasRoom sizes sample (non_zero_usize_get budget) requests) names) }
    ensures no_room { (sizes : Bool) (idle sample : Option ℕ) (requests : List (List ℕ × ℕ)) (names : List (List ℕ))
        → HaveShares sizes idle sample requests names shares.now
        → IfErr result (λ fault. (size : ℕ) → fault ≡ SplitFault.NoRoom size
        → IsFirstWithoutRoom sizes sample (non_zero_usize_get budget) size requests names name.new.items) }
    ensures line { IfErr result (λ fault. comes_of_a_line fault ≡ false) }
    ensures fault { IfErr result (λ fault. comes_of_writing fault ≡ false) }
{
    for share in shares {
        let size = greatest_size(&share.curve);
        if budget.get() < size {
            name.clear();
            let Ok(()) = name.extend_from_slice(&share.name) else {
                return Err(SplitFault::Other(Fault::Memory));
            };
            return Err(SplitFault::NoRoom(size));
        }
    }
    Ok(())
}

// The greatest size that was requested. By keys none is counted.
fn greatest_size<A: Allocator>(curve: &LineCurve<A>) -> usize
    ensures { (sizes : Bool) (limit : ℕ) (requests : List (List ℕ × ℕ)) → IsCurveBy sizes limit requests curve.now
        → result ≡ greatest_size_of sizes requests }
{
    match curve {
        LineCurve::ByKeys(_) => 0,
        LineCurve::BySize(curve) => {
            // It tells that the size is below 2^64.
            let _size = curve.distinct_size();
            curve.greatest_weight().saturating_add(1)
        }
    }
}
