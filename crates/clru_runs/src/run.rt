//! Many calls, made in turn.
ghost use Rattle.std.specs.Prelude.{◌≡◌, [], IfOk, IfErr, OnErr, IsOk};
ghost use Rattle.clru_runs.specs.Run.{Run};

use crate::perform::Perform;
use std::alloc::Allocator;

/// Makes the calls in order, and returns their results.
///
/// Takes memory for the results before the first call; without calls it asks for none. If memory is refused, it makes no
/// call, and returns the calls.
pub fn perform_all<C, Q: Perform<C> + Drop, A: Allocator + Copy>(
    alloc: A,
    cache: &mut C,
    calls: Vec<Q, A>,
) -> Result<Vec<Q::Answer, A>, Vec<Q, A>>
    ensures run { IfOk result (λ answers. Run Q.step cache.old calls.items answers.items cache.new) }
    ensures refused { IfErr result (λ back. back.items ≡ calls.items) }
    ensures unchanged { OnErr result (cache.new ≡ cache.old) }
    ensures never_refused { calls.items ≡ [] → IsOk result }
{
    let Ok(mut answers) = Vec::with_capacity(alloc, calls.len()) else {
        return Err(calls);
    };
    for call in calls {
        answers.push_reserved(call.perform(cache));
    }
    Ok(answers)
}
