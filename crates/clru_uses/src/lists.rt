//! A place list: who waits in a line, each by the ticket that he was given.
ghost use Rattle.std.specs.Prelude.{◌≡◌, ◌∷◌, ◌++◌, [], IfOk, OnErr};
ghost use Rattle.clru_list.specs.PlaceList.{item_at, without};

use clru_list::{FixedSizeList, PushError};

/// Joins the line at its end, and returns the ticket: the place, which is this person's until he leaves.
pub fn join(line: &mut FixedSizeList<u64>, who: u64) -> Result<usize, PushError<u64>>
    ensures joined { IfOk result (λ ticket. line.new.entries ≡ line.old.entries ++ (ticket, who) ∷ []) }
    ensures kept { OnErr result (line.new ≡ line.old) }
{
    line.push_back(who)
}

/// Leaves the line, wherever he stands. The others stay in their order, each with his ticket.
pub fn leave(line: &mut FixedSizeList<u64>, ticket: usize) -> Option<u64>
    ensures who { result ≡ item_at ticket line.old.entries }
    ensures others { line.new.entries ≡ without ticket line.old.entries }
{
    line.remove(ticket)
}
