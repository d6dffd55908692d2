//! What is wrong with what a script calls, where something is: no contract would let it be so.

use crate::out::Out;

/// What a look after a call found.
#[derive(Clone, Copy)]
pub enum Fault {
    Blocks,
    Size,
    LookUp,
    Walk,
}

/// Says what is wrong behind an answer, where something is.
pub fn say_fault(fault: Option<Fault>, out: &mut Out) {
    out.say(match fault {
        Some(Fault::Blocks) => "; ? pairs are forgotten, or go too early",
        Some(Fault::Size) => "; ? the size is above the capacity",
        Some(Fault::LookUp) => "; ? a key of the walk is not found",
        Some(Fault::Walk) => "; ? the walks from both ends differ",
        None => "",
    });
}
