//! Laws of runs: functions that do nothing.
ghost use Rattle.clru_runs.specs.IncludedRun.{LesserRunBeginsGreater};
ghost use Rattle.clru_runs.specs.PutRun.{RunsArePutRuns, RunsHit, RunsCompete, RunsCompeteFromAnyStart};
ghost use Rattle.clru_runs.specs.SizedPutRun.{RunsHitBySize};

/// States `clru_model::law_inclusion` for runs. The same calls of two caches of one scale, empty at first, leave the lesser with the
/// first entries of the greater, if each call is a weighted put that is not refused, a removal, or a read that moves no entry.
pub fn law_included_runs<K: Eq, V, W>()
    ensures included { LesserRunBeginsGreater K.eq V W }
{}

/// States `clru_model::law_requests` for runs. The calls of a run put the keys of a list in turn, in whichever form and none refused,
/// into a cache that is empty at first and whose pairs weigh nothing. Then a key is held before its put exactly if `replay` of the list
/// marks a hit, and the puts whose key is not held keep the competitive bounds.
pub fn law_put_runs<K: Eq, V, W>()
    ensures put_runs { RunsArePutRuns K.eq V W }
    ensures hits { RunsHit K.eq V W }
    ensures bound { RunsCompete K.eq V W }
    ensures bound_any_start { RunsCompeteFromAnyStart K.eq V W }
{}

/// States `clru_model::law_sizes` for runs. The calls of a run put the keys of a list in turn by weight, none refused, each pair with
/// the weight of its key, into a cache that is empty at first. Then a key is held before its put exactly if the request hits by size.
pub fn law_sized_put_runs<K: Eq, V, W>()
    ensures { RunsHitBySize K.eq V W }
{}
