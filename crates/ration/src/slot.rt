//! A cell for what is free, which is empty while one of the allocator's functions runs.
ghost use Rattle.std.specs.Prelude.{◌≡◌, IfSome};
ghost use base.Fml.{fex, fsep, ftrue};
ghost use Rattle.ration.specs.Blocks.{Region, behind_a_ref};

use crate::free::Free;
use std::marker::{Move, Owns};

/// What is free of one region, whose value a `&` keeps.
pub(crate) struct Slot {
    free: Option<Free>,
}

impl Owns for Slot {
    ghost Value = { Region };

    ghost shr_at = { λ r. behind_a_ref Fields (λ i. fex (IfSome i.free (λ f. f.piece.region ≡ r)) (λ _. ftrue)) };
}

impl Move for Slot {
    ghost own_val = { λ r vs. fex Inside (λ i. fsep (Fields.own_val i vs) (fex (IfSome i.free (λ f. f.piece.region ≡ r)) (λ _. ftrue))) };
}

impl Slot {
    pub(crate) fn new(free: Free) -> Slot
        ensures { result ≡ free.piece.region }
    {
        Slot { free: Some(free) }
    }

    /// Puts something into the slot, and gives what was in it.
    pub(crate) fn replace(&self, free: Option<Free>) -> Option<Free>
        requires { IfSome free (λ f. f.piece.region ≡ self.now) }
        ensures { IfSome result (λ f. f.piece.region ≡ self.now) }
    {
        let place = &raw const self.free as *mut Option<Free>;
        unsafe {
            let old = place.read();
            place.write(free);
            old
        }
    }

    pub(crate) fn into_inner(self) -> Option<Free>
        ensures { IfSome result (λ f. f.piece.region ≡ self) }
    {
        let Slot { free } = self;
        free
    }
}
