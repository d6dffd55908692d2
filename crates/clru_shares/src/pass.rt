//! A pass over lines with times, by keys or by size.
ghost use Rattle.std.specs.Prelude.{◌≡◌, ℕ, Bool, true, List, [], ◌∷◌, ◌++◌, OnOk};
ghost use Rattle.clru_text.specs.Keys.{line_of};
ghost use Rattle.clru_text.specs.TakenRequests.{shown_of};
ghost use Rattle.clru_text.specs.declared.lines.OwnedKey.{OwnedKey};
ghost use Rattle.clru_shares.specs.LinePasses.{HasTakenBy};
ghost use Rattle.clru_shares.specs.Passes.{next_kept};
ghost use Rattle.clru_shares.specs.Places.{IsAskedOf};
ghost use Rattle.clru_shares.specs.Sizes.{own_size};

use clru_curve::{PositionPass, SizedPositionPass};
use clru_text::OwnedKey;
use std::alloc::{AllocError, Allocator};

/// A pass over lines under an idle limit, which holds no line. Lines without times have the time 0 and the greatest limit.
#[derive(Drop)]
pub(crate) enum LinePass<A: Allocator + Copy> {
    OfKeys(PositionPass<OwnedKey<A>, A>),
    OfSizes(SizedPositionPass<OwnedKey<A>, A>),
}

/// What a request tells a pass: where the latest one of its line was among those of the pass, whether that came within the limit, and
/// the line's size.
#[derive(Clone, Copy)]
pub(crate) struct Asked {
    pub(crate) latest: Option<usize>,
    pub(crate) soon: bool,
    pub(crate) size: usize,
}

/// Returns a pass that has taken no line.
pub(crate) fn empty_pass<A: Allocator + Copy>(alloc: A, sizes: bool) -> LinePass<A>
    ensures { (limit : ℕ) → HasTakenBy sizes limit [] result }
{
    if sizes {
        LinePass::OfSizes(SizedPositionPass::new(alloc))
    } else {
        LinePass::OfKeys(PositionPass::new(alloc))
    }
}

/// Takes one more request, if its line is kept.
pub(crate) fn take_kept<A: Allocator + Copy>(
    is_kept: bool,
    pass: &mut LinePass<A>,
    asked: Asked,
) -> Result<(), AllocError>
    requires { (sizes : Bool) × (limit : ℕ) × (kept : List (List ℕ × ℕ)) × (request : OwnedKey A × ℕ) × HasTakenBy sizes limit kept pass.old
        × (asked.size ≡ own_size sizes (line_of request.0))
        × (is_kept ≡ true → IsAskedOf limit kept (shown_of request) asked) }
    ensures { (sizes : Bool) (limit : ℕ) (kept : List (List ℕ × ℕ)) (request : OwnedKey A × ℕ) → HasTakenBy sizes limit kept pass.old
        → asked.size ≡ own_size sizes (line_of request.0)
        → (is_kept ≡ true → IsAskedOf limit kept (shown_of request) asked)
        → OnOk result (HasTakenBy sizes limit (next_kept is_kept kept (shown_of request)) pass.new) }
{
    if is_kept { take(pass, asked) } else { Ok(()) }
}

// Takes one more request. The sizes of the lines of a class are too large only where those of all are, and then the line was refused
// before.
fn take<A: Allocator + Copy>(pass: &mut LinePass<A>, asked: Asked) -> Result<(), AllocError>
    requires { (sizes : Bool) × (limit : ℕ) × (kept : List (List ℕ × ℕ)) × (request : OwnedKey A × ℕ) × HasTakenBy sizes limit kept pass.old
        × (asked.size ≡ own_size sizes (line_of request.0)) × IsAskedOf limit kept (shown_of request) asked }
    ensures { (sizes : Bool) (limit : ℕ) (kept : List (List ℕ × ℕ)) (request : OwnedKey A × ℕ) → HasTakenBy sizes limit kept pass.old
        → asked.size ≡ own_size sizes (line_of request.0) → IsAskedOf limit kept (shown_of request) asked
        → OnOk result (HasTakenBy sizes limit (kept ++ shown_of request ∷ []) pass.new) }
{
    match pass {
        LinePass::OfKeys(pass) => match pass.request(asked.latest, asked.soon) {
            Ok(_) => Ok(()),
            Err(_) => Err(AllocError),
        },
        LinePass::OfSizes(pass) => match pass.request(asked.latest, asked.soon, asked.size - 1) {
            Ok(_) => Ok(()),
            Err(_) => Err(AllocError),
        },
    }
}
