//! Laws of the definitions that the contracts cite. Each is a function that does nothing; its contract is the law.
ghost use Rattle.clru_model.specs.Ages.{UnlimitedMarksAreMarks, UnlimitedMarksAreMarksBySize, IdleMarksAreBelow, IdleMarksAreWithin};
ghost use Rattle.clru_model.specs.Ages.{AgedMissesFall, AgedMissesBySizeFall, VersionsMissMore};
ghost use Rattle.clru_model.specs.AgedRuns.{AgedPutsHit, SizedAgedPutsHit};
ghost use Rattle.clru_model.specs.Distances.{HitsAreBelow, MarksAreBelow, RoomForAllMissesFirst};
ghost use Rattle.clru_model.specs.Laws.{TrueMarksAreHits, OneMarkForEach, MissesAreFalseMarks, DistinctCountsFirst};
ghost use Rattle.clru_model.specs.Laws.{SchedulesAreByPosition, FalseMarksAreMisses, ScheduleMissesAreByPosition};
ghost use Rattle.clru_model.specs.Laws.{HitsGrow, MissesFall};
ghost use Rattle.clru_model.specs.Laws.{LesserBeginsGreater};
ghost use Rattle.clru_model.specs.Laws.{CutsMissMore, CutsMissFewMore, SomeKeysMissLess};
ghost use Rattle.clru_model.specs.Laws.{PutsHit, PutsCompete, PutsCompeteFromAnyStart, GetsOrPutsArePuts, DropsAreMissesNotLeft};
ghost use Rattle.clru_model.specs.Laws.{FitIsLongest, OnlyFitIsLongest};
ghost use Rattle.clru_model.specs.SizedRuns.{SizedPutsHit, LightPutsHit, TouchesArePuts, SizedGetsOrPutsArePuts};
ghost use Rattle.clru_model.specs.SizedRuns.{HighHitsAreHeld, HeldHitsByLow};
ghost use Rattle.clru_model.specs.SizedRuns.{SizedPutsCompete, SizedPutsCompeteFromAnyStart};
ghost use Rattle.clru_model.specs.SizedRuns.{LightMarksAreOfOthers};
ghost use Rattle.clru_model.specs.SizedSchedule.{MissedSizeCompetes, MissedSizeCompetesFromAnyStart};
ghost use Rattle.clru_model.specs.SizedSchedule.{WeightlessScheduleMissesAreMisses, SchedulesAreWeightless};
ghost use Rattle.clru_model.specs.Spans.{HitsAreWithin, MarksAreWithin, MissedSizeIsOfMarks, RoomForTotalMissesFirst};
ghost use Rattle.clru_model.specs.Spans.{HitsBySizeGrow, MissesBySizeFall, MissedSizeFalls};
ghost use Rattle.clru_model.specs.Spans.{WeightlessTotalIsDistinct, WeightlessMarksAreMarks, WeightlessMissedSizeIsMisses};
ghost use Rattle.clru_model.specs.Spans.{WeightlessSpanIsDistance};
ghost use Rattle.clru_model.specs.Joins.{JoinIsOfBoth, JoinsAssociate};
ghost use Rattle.clru_model.specs.Parts.{PartsMiss, PartsMissBySize, PartsMissSize, SamplesKeepParts, TestedPartsMiss};
ghost use Rattle.clru_model.specs.Parts.{IdlePartsMiss, IdlePartsMissBySize, IdlePartsMissSize};
ghost use Rattle.clru_model.specs.SpansByPosition.{SpansAreByPosition, OneSpanForEach, TotalSumsFirst};
ghost use Rattle.clru_model.specs.Least.{LeastIsThere, LeastIsOne, LeastFalls, RoomForAllHasDistinct, LeastIsNearFromAnyStart};
ghost use Rattle.clru_model.specs.Least.{ReplayIsSchedule, LeastIsBelowReplay, ReplayIsNearLeast};
ghost use Rattle.clru_model.specs.Bounds.{DistinctMiss, NoMoreMiss, NoMoreSizeMisses, SizesMissMore, RoomForGreatestMissesLess};
ghost use Rattle.clru_model.specs.Bypass.{SchedulesMayPass, DistinctIsFloor, OneKeyMoreIsEnough};
ghost use Rattle.clru_model.specs.Floor.{HitsArePaid, FloorIsBelow, SizeFloorIsBelow, FloorIsBelowLeast, FloorIsBelowReplay, SizeFloorIsBelowReplay};

/// States what the hits, misses and numbers of distinct keys mean that other contracts cite. They are defined by computing; this
/// describes the same by a sentence about positions.
pub fn law_by_position<K: Eq>()
    ensures hits { TrueMarksAreHits K.eq }
    ensures one_mark_each { OneMarkForEach K.eq }
    ensures misses { MissesAreFalseMarks K.eq }
    ensures distinct { DistinctCountsFirst K.eq }
{}

/// States the same of schedules and of their misses.
pub fn law_schedules_by_position<K: Eq>()
    ensures schedules { SchedulesAreByPosition K.eq }
    ensures marks { FalseMarksAreMisses K.eq }
    ensures misses { ScheduleMissesAreByPosition K.eq }
{}

/// States the same of spans and of the size of the distinct keys.
pub fn law_spans_by_position<K: Eq>()
    ensures spans { SpansAreByPosition K.eq }
    ensures one_span_each { OneSpanForEach K.eq }
    ensures total { TotalSumsFirst K.eq }
{}

/// States that a replay at a greater capacity hits wherever one at a lesser capacity does.
///
/// `law_greater_capacity` is its second name.
pub fn law_growth<K: Eq>()
    ensures grows { HitsGrow K.eq }
    ensures misses { MissesFall K.eq }
{}

/// States that of two caches of one scale, both empty at first and sent the same calls, the one of the lesser capacity ends with
/// the first entries of the other.
///
/// The calls are `put_with_weight`, `pop`, `pop_front`, `pop_back`, `clear`, `peek` and `contains`, and no put is refused. It does not
/// hold with a `get` among them, which moves an entry that the lesser cache may not hold, or with a put that one cache refuses.
pub fn law_inclusion<K: Eq, V>()
    ensures included { LesserBeginsGreater K.eq V }
{}

/// States that a cache of weight zero hits as `replay` says. The cache is empty at first and takes each key of a list in turn by one
/// of the puts. It holds a key before its put exactly if `replay` of the list marks a hit, and the puts whose key it does not hold keep
/// the bound that `replay` keeps. A loop that looks each key up, and puts it only if the look-up finds nothing, is such a run of puts.
/// The pairs that plain puts drop and the entries left at the end together number the misses.
///
/// No put is refused, and no other call changes the cache.
pub fn law_requests<K: Eq, V>()
    ensures hits { PutsHit K.eq V }
    ensures bound { PutsCompete K.eq V }
    ensures bound_any_start { PutsCompeteFromAnyStart K.eq V }
    ensures gets { GetsOrPutsArePuts K.eq V }
    ensures drops { DropsAreMissesNotLeft K.eq V }
{}

/// States that a weighted put keeps the longest beginning of the other entries that fits, and that no other beginning is the longest.
/// What it keeps is defined by computing.
pub fn law_longest_fit<K, V>()
    ensures longest { FitIsLongest K V }
    ensures only { OnlyFitIsLongest K V }
{}

/// States that exactly one number is the least possible misses of a list with room for a key or more. With more room it is no
/// greater. With room for all keys it is their number. Beside schedules that start with keys it is at most the room more.
///
/// The misses of a replay are those of a schedule, so they are no fewer, and at capacity `k` at most `k / (k - h + 1)` times the least
/// of `h` keys, for `h` from 1 to `k`. A schedule that may bypass requested keys also misses each distinct key once if it starts empty,
/// and no fewer than the least with room for one key more.
pub fn law_least<K: Eq>()
    ensures there { LeastIsThere K.eq }
    ensures one { LeastIsOne K.eq }
    ensures falls { LeastFalls K.eq }
    ensures room_for_all { RoomForAllHasDistinct K.eq }
    ensures any_start { LeastIsNearFromAnyStart K.eq }
    ensures may_pass { SchedulesMayPass K.eq }
    ensures floor { DistinctIsFloor K.eq }
    ensures one_key_more { OneKeyMoreIsEnough K.eq }
    ensures schedule { ReplayIsSchedule K.eq }
    ensures below { LeastIsBelowReplay K.eq }
    ensures near { ReplayIsNearLeast K.eq }
{}

/// States that a request hits at exactly the capacities above its distance. So one list of distances has the marks of `replay` at
/// every capacity. If there is room for all keys, the misses are as many as the distinct keys.
pub fn law_distances<K: Eq>()
    ensures hits { HitsAreBelow K.eq }
    ensures marks { MarksAreBelow K.eq }
    ensures beyond { RoomForAllMissesFirst K.eq }
{}

/// States where requests hit by size, if keys weigh something. The size of an entry is 1 plus the weight of its key.
///
/// A cache, empty at first, takes each key of a list in turn by `put_with_weight`, and each pair weighs what its key does. It holds a key
/// before its put exactly if the request hits by size at the cache's capacity. No put is refused, so the capacity is above each weight. No
/// other call changes the cache, but a `get` of a held key leaves what a put of its pair does. A request hits at all sizes from its span
/// on, so one list of spans has the hits at every size. If each key weighs 0, sizes are numbers of keys.
///
/// If the capacity is not above each weight, puts of the heavier keys are refused and miss, and the others have the marks of the list
/// without them. If the weight of a key changes between its puts, what would hit by the highest weights is held, and what is held would
/// hit by the lowest.
pub fn law_sizes<K: Eq, V>()
    ensures puts { SizedPutsHit K.eq V }
    ensures light_puts { LightPutsHit K.eq V }
    ensures light_marks { LightMarksAreOfOthers K.eq }
    ensures changing_high { HighHitsAreHeld K.eq V }
    ensures changing_low { HeldHitsByLow K.eq V }
    ensures gets { TouchesArePuts K.eq V }
    ensures gets_or_puts { SizedGetsOrPutsArePuts K.eq V }
    ensures hits { HitsAreWithin K.eq }
    ensures marks { MarksAreWithin K.eq }
    ensures missed_size { MissedSizeIsOfMarks K.eq }
    ensures grows { HitsBySizeGrow K.eq }
    ensures falls { MissesBySizeFall K.eq }
    ensures size_falls { MissedSizeFalls K.eq }
    ensures beyond { RoomForTotalMissesFirst K.eq }
    ensures weightless_total { WeightlessTotalIsDistinct K.eq }
    ensures weightless_marks { WeightlessMarksAreMarks K.eq }
    ensures weightless_size { WeightlessMissedSizeIsMisses K.eq }
    ensures weightless_span { WeightlessSpanIsDistance K.eq }
{}

/// States that the missed size at `c` is at most `c / (c - h + 1)` times what any schedule of the size `h` misses, for `h` from 1 to
/// `c`, if equal keys have equal weights. Beside schedules that start with keys it is at most `h` more than that. The same holds of the
/// weighted puts of a cache that is empty at first, if none is refused and each pair weighs what its key does. A schedule holds each
/// requested key, so nothing is said of sizes `h` below the greatest request. If keys weigh nothing, sizes are numbers of keys.
pub fn law_size_bound<K: Eq, V>()
    ensures bound { MissedSizeCompetes K.eq }
    ensures bound_any_start { MissedSizeCompetesFromAnyStart K.eq }
    ensures puts { SizedPutsCompete K.eq V }
    ensures puts_any_start { SizedPutsCompeteFromAnyStart K.eq V }
    ensures weightless_misses { WeightlessScheduleMissesAreMisses K.eq }
    ensures weightless_schedules { SchedulesAreWeightless K.eq }
{}

/// States that no schedule that starts empty misses less than the floor, in requests or in size, even if it bypasses requested keys.
/// Equal keys must have equal weights. The reason is clause `paid`: a hit takes room at each position since the latest request of its key.
/// If keys weigh nothing, the floor is at most the least possible misses. It is at most what LRU misses, which holds the keys whose span
/// is at most the room.
pub fn law_floor<K: Eq>()
    ensures paid { HitsArePaid K.eq }
    ensures misses { FloorIsBelow K.eq }
    ensures missed_size { SizeFloorIsBelow K.eq }
    ensures below_least { FloorIsBelowLeast K.eq }
    ensures below_replay { FloorIsBelowReplay K.eq }
    ensures size_below_replay { SizeFloorIsBelowReplay K.eq }
{}

/// States that two parts of a list, each counted from an empty cache, have at least the misses of the whole, and at most the capacity
/// more. The misses of the whole follow from those of each part, and those of the first part's latest requests for its keys with the
/// second's first ones behind them. The requests for some of the keys, as a sample has them, have no more misses than all requests.
///
/// Clause `tested` is the general law: it holds for any test of hits that looks only at the latest request of a key and at which keys
/// were requested since then, and at any cost of a miss. So it also holds by size, if equal keys have equal weights, and under an idle
/// limit. It does not hold under an age limit, where a hit depends on the latest fetch. What is known of a part, by that law, can be
/// joined to what is known of the next one, in any tree.
pub fn law_parts<K: Eq>()
    ensures parts { PartsMiss K.eq }
    ensures by_size { PartsMissBySize K.eq }
    ensures size { PartsMissSize K.eq }
    ensures idle { IdlePartsMiss K.eq }
    ensures idle_by_size { IdlePartsMissBySize K.eq }
    ensures idle_size { IdlePartsMissSize K.eq }
    ensures tested { TestedPartsMiss K.eq }
    ensures kept { SamplesKeepParts K.eq }
    ensures joined { JoinIsOfBoth K.eq }
    ensures associative { JoinsAssociate K.eq }
    ensures cut { CutsMissMore K.eq }
    ensures cut_few { CutsMissFewMore K.eq }
    ensures some_keys { SomeKeysMissLess K.eq }
{}

/// States how many requests miss: at each capacity at least the first of each key, and at most all. By size at most all of the size
/// is missed. A size has at least the misses of as many keys. If no request weighs more than `g`, room for `k` entries of the size `g + 1`
/// has at most the misses of `k` keys.
pub fn law_bounds<K: Eq>()
    ensures at_least_distinct { DistinctMiss K.eq }
    ensures at_most_all { NoMoreMiss K.eq }
    ensures size_at_most_all { NoMoreSizeMisses K.eq }
    ensures above_keys { SizesMissMore K.eq }
    ensures below_keys { RoomForGreatestMissesLess K.eq }
{}

/// States which requests hit if entries expire: those that would hit anyway, and whose key had its latest request within the idle limit
/// and its latest fetch within the age limit. A fetch is a request that misses.
///
/// Without limits these are the hits of `replay`. With an idle limit alone, a reuse that comes too late counts as a first request, so one
/// list of distances has the marks at every capacity. Misses fall with the capacity and with both limits. The marks of one capacity are not
/// among those of a greater one, because a hit keeps the older fetch. If times never fall, requests for keys with a version, which changes
/// with each fetch of a cache without bound, miss at least as often.
///
/// A cache whose values tell when they were fetched holds, before each request, a value within the age limit exactly if the request hits.
/// It is empty at first. At each request it looks such a value up, or else puts one that was fetched at that time. No put is refused, and
/// no other call changes the cache.
pub fn law_ages<K: Eq, V>()
    ensures unlimited { UnlimitedMarksAreMarks K.eq }
    ensures unlimited_by_size { UnlimitedMarksAreMarksBySize K.eq }
    ensures idle { IdleMarksAreBelow K.eq }
    ensures idle_by_size { IdleMarksAreWithin K.eq }
    ensures falls { AgedMissesFall K.eq }
    ensures falls_by_size { AgedMissesBySizeFall K.eq }
    ensures versions { VersionsMissMore K.eq }
    ensures puts { AgedPutsHit K.eq V }
    ensures puts_by_size { SizedAgedPutsHit K.eq V }
{}
