//! What a floor is, in other words.
ghost use Rattle.clru_least.specs.Greedy.{FloorIsGreedy};

/// States that the floor of the misses is the number of requests less the most hits whose volumes, the least first, are together at most
/// the room times that number. The volume of a request is its key's size times the positions since the latest request for it, and without
/// sizes these positions.
pub fn law_greedy_floor<K: Eq>()
    ensures { FloorIsGreedy K.eq }
{}
