//! Where and when the latest request of each line was.
ghost use Rattle.std.specs.Prelude.{◌≡◌, ℕ, List, [], ◌∷◌, ◌++◌, length, true, OnOk, IfOk};
ghost use Rattle.clru_text.specs.Keys.{line_of};
ghost use Rattle.clru_shares.specs.Classes.{class_in, of_class};
ghost use Rattle.clru_shares.specs.Passes.{next_kept};
ghost use Rattle.clru_shares.specs.Places.{AreLatest, IsNoted, all_of as all_of_by, own_of as own_of_by, soon_of as soon_of_by};

use clru_linked_map::BytesMap;
use clru_text::OwnedKey;
use std::alloc::{AllocError, Allocator};
use std::hash::BuildHasher;

/// The position of a request among those of its class, and among all, and its time.
#[derive(Clone, Copy)]
pub(crate) struct Places {
    pub(crate) own: usize,
    pub(crate) all: usize,
    pub(crate) time: usize,
}

/// If the line is kept, returns where its latest request was, and notes that it is requested here.
pub(crate) fn note_kept<S: BuildHasher, A: Allocator + Copy>(
    is_kept: bool,
    latest: &mut BytesMap<Places, S, A>,
    key: &OwnedKey<A>,
    here: Places,
) -> Result<Option<Places>, AllocError>
    ensures latest { (kept : List (List ℕ × ℕ)) → IsNoted kept latest.old
        → IfOk result (λ places. is_kept ≡ true → AreLatest kept (line_of key.now) places) }
    ensures noted { (kept : List (List ℕ × ℕ)) → IsNoted kept latest.old → here.all ≡ length kept
        → here.own ≡ length (of_class (class_in (line_of key.now)) kept)
        → OnOk result (IsNoted (next_kept is_kept kept (line_of key.now, here.time)) latest.new) }
{
    if is_kept {
        note_line(latest, key, here)
    } else {
        Ok(None)
    }
}

// Notes a line.
fn note_line<S: BuildHasher, A: Allocator + Copy>(
    latest: &mut BytesMap<Places, S, A>,
    key: &OwnedKey<A>,
    here: Places,
) -> Result<Option<Places>, AllocError>
    ensures latest { (kept : List (List ℕ × ℕ)) → IsNoted kept latest.old → IfOk result (AreLatest kept (line_of key.now)) }
    ensures noted { (kept : List (List ℕ × ℕ)) → IsNoted kept latest.old → here.all ≡ length kept
        → here.own ≡ length (of_class (class_in (line_of key.now)) kept)
        → OnOk result (IsNoted (kept ++ (line_of key.now, here.time) ∷ []) latest.new) }
{
    match latest.insert(&key.0, here) {
        Ok(before) => Ok(before),
        Err(_) => Err(AllocError),
    }
}

/// Returns the position among the requests of the class.
pub(crate) fn own_of(places: Option<Places>) -> Option<usize>
    ensures { result ≡ own_of_by places }
{
    match places {
        Some(places) => Some(places.own),
        None => None,
    }
}

/// Returns the position among all requests.
pub(crate) fn all_of(places: Option<Places>) -> Option<usize>
    ensures { result ≡ all_of_by places }
{
    match places {
        Some(places) => Some(places.all),
        None => None,
    }
}

/// Returns whether the latest request came at most this long ago.
pub(crate) fn soon_of(limit: usize, time: usize, places: Option<Places>) -> bool
    ensures { result ≡ soon_of_by limit time places }
{
    match places {
        Some(before) => time.saturating_sub(before.time) <= limit,
        None => false,
    }
}
