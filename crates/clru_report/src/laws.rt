//! What is true of each row of a table, whatever the requests are.
ghost use Rattle.clru_report.specs.OneSizeLaws.{GreatestIsOfOne, KeysStay, NoneIsGreater, SizesAreGreatest};
ghost use Rattle.clru_report.specs.Parts.{CutsBetweenLines};
ghost use Rattle.clru_report.specs.RatioLaws.{ByteHitRatioIsLeast, HitRatioIsLeast, SizedHitRatioIsLeast};
ghost use Rattle.clru_report.specs.RowLaws.{FloorIsBelowMisses, LeastIsBetween, SizedFloorsAreBelow};

/// States that in each row the floor is at most the misses, and the least possible misses, if the row has them, lie between both.
/// By size each floor is at most what the row misses.
pub fn law_rows()
    ensures misses { FloorIsBelowMisses }
    ensures least { LeastIsBetween }
    ensures by_size { SizedFloorsAreBelow }
{}

/// States that a hit ratio asks for the least capacity that has it, or where none has it for the least with the fewest misses: of all
/// capacities, by size of those from the greatest size on.
pub fn law_hit_ratios()
    ensures by_keys { HitRatioIsLeast }
    ensures by_size { SizedHitRatioIsLeast }
    ensures of_bytes { ByteHitRatioIsLeast }
{}

/// States that, if each key has one size, the line of a request that counts has the key of its line in the input, and the greatest
/// size of that key; no line of that key has a greater one, and one has it.
pub fn law_one_size()
    ensures size { SizesAreGreatest }
    ensures key { KeysStay }
    ensures none { NoneIsGreater }
    ensures of_one { GreatestIsOfOne }
{}

/// States that the lines of a log that is cut behind a newline are those of one part, and then those of the other.
pub fn law_cut_logs()
    ensures { CutsBetweenLines }
{}
