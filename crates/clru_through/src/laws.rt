//! The law of the store: a function that does nothing, whose contract is a statement about loads.
ghost use Rattle.clru_through.specs.LoadRuns.{LoadsFetchMissedSize, LoadsFetchMisses, LoadsFetchWhereMissed, LoadsFetchWhereMissedBySize, MissedAreMisses};

use crate::source::Fetch;
use clru::WeightScale;

/// States when a store fetches. Its cache is empty at first; keys are loaded one after the other, none is refused and no value is passed
/// on. It fetches exactly for the requests that miss at the cache's capacity, in their order, each once. If pairs weigh nothing, these
/// are as many as `replay` counts there. If each pair weighs what its key does, they are those that miss by size, and the size of what is
/// fetched is the missed size.
///
/// No other call changes the store in between.
pub fn law_loads<K: Eq, V, E, R: Fetch<K, V, E, M>, W: WeightScale<K, V>, M>()
    ensures fetched { LoadsFetchWhereMissed K.eq W.weight R.fetches }
    ensures fetches { LoadsFetchMisses K.eq W.weight R.fetches }
    ensures count { MissedAreMisses K.eq }
    ensures fetched_by_size { LoadsFetchWhereMissedBySize K.eq W.weight R.fetches }
    ensures fetched_size { LoadsFetchMissedSize K.eq W.weight R.fetches }
{}
