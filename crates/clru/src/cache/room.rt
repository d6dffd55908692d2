//! Room for a pair: the entries that do not fit beside it go, or there is memory for one more.
ghost use Rattle.std.specs.Prelude.{◌≡◌, ◌<◌, ◌≤◌, length, reverse, OnOk, OnErr};
ghost use Rattle.clru_model.specs.Entries.{fit, past_fit, size_of, weight_of};
ghost use Rattle.clru_linked_map.specs.Growth.{GrowsIf, IsRefused};
ghost use Rattle.clru_linked_map.specs.LinkedMap.{linked_map, with_entries};
ghost use Rattle.clru.specs.Drops.{HandsOutTo, TakesEach};

use clru_linked_map::LinkedHashMap;
use clru_list::NoMemory;
use clru_model::WeightScale;
use std::alloc::Allocator;
use std::hash::{BuildHasher, Hash};

/// Removes entries from the back until the number of entries and their weight are at most `room`, and hands each of them out.
#[inline]
pub(crate) fn shrink<K: Eq + Hash, V, S: BuildHasher, W: WeightScale<K, V>, A, F: FnMut(K, V)>(
    map: &mut LinkedHashMap<K, V, S, A>,
    scale: &W,
    total: &mut usize,
    room: usize,
    on_drop: &mut F,
)
where
    A: Allocator + Copy,
    requires weighs { total.old ≡ weight_of (W.weight scale.now) map.old.entries }
    requires fits { size_of (W.weight scale.now) map.old.entries ≤ map.old.capacity }
    requires callable { TakesEach F.FnMut on_drop.old (reverse (past_fit (W.weight scale.now) room map.old.entries)) }
    ensures entries { map.new ≡ with_entries map.old (fit (W.weight scale.now) room map.old.entries) }
    ensures weighs { total.new ≡ weight_of (W.weight scale.now) map.new.entries }
    ensures handed_out { HandsOutTo F.FnMut on_drop.old (reverse (past_fit (W.weight scale.now) room map.old.entries))
        on_drop.new }
{
    // Read for the proof alone: no sum below passes the capacity.
    let _capacity = map.capacity();
    while map.len() + *total > room {
        match map.pop_back() {
            Some((key, value)) => {
                *total -= scale.weight(&key, &value);
                on_drop(key, value);
            }
            None => unreachable!(),
        }
    }
}

/// Removes what does not fit into the room, the last entry first; if none has to go, finds memory for one more entry.
#[inline]
pub(crate) fn make_room<K: Eq + Hash, V, S: BuildHasher, W: WeightScale<K, V>, A, F: FnMut(K, V)>(
    map: &mut LinkedHashMap<K, V, S, A>,
    scale: &W,
    total: &mut usize,
    room: usize,
    on_drop: &mut F,
) -> Result<(), NoMemory>
where
    A: Allocator + Copy,
    requires weighs { total.old ≡ weight_of (W.weight scale.now) map.old.entries }
    requires fits { size_of (W.weight scale.now) map.old.entries ≤ map.old.capacity }
    requires below { room < map.old.capacity }
    requires callable { TakesEach F.FnMut on_drop.old (reverse (past_fit (W.weight scale.now) room map.old.entries)) }
    ensures entries { OnOk result (map.new.entries ≡ fit (W.weight scale.now) room map.old.entries) }
    ensures ready { OnOk result (length map.new.entries < map.new.places) }
    ensures stays { OnErr result (map.new.entries ≡ map.old.entries) }
    ensures grows { GrowsIf (size_of (W.weight scale.now) map.old.entries ≤ room) (length map.old.entries)
        map.old.capacity map.old.places map.new.places }
    ensures refused { OnErr result (IsRefused (size_of (W.weight scale.now) map.old.entries ≤ room)
        (length map.old.entries) map.old.places map.new.places) }
    ensures same { map.new ≡ linked_map map.new.entries map.old.capacity map.new.places map.old.builder }
    ensures weighs { total.new ≡ weight_of (W.weight scale.now) map.new.entries }
    ensures handed_out { OnOk result (HandsOutTo F.FnMut on_drop.old
        (reverse (past_fit (W.weight scale.now) room map.old.entries)) on_drop.new) }
    ensures not_called { OnErr result (on_drop.new ≡ on_drop.old) }
{
    // As in `shrink`.
    let _capacity = map.capacity();
    if map.len() + *total > room {
        shrink(map, scale, total, room, on_drop);
        return Ok(());
    }
    map.make_ready()?;
    Ok(())
}
