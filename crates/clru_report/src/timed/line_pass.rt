//! `TimedLinePass`, which takes lines with times one by one.
ghost use Rattle.std.specs.Prelude.{◌≡◌, ℕ, List, [], ◌∷◌, Some, IfOk, OnOk};
ghost use Rattle.std.specs.Map.{keys_of};
ghost use Rattle.clru_model.specs.Ages.{is_recent};
ghost use Rattle.clru_model.specs.Requests.{IsLatestOf};
ghost use Rattle.clru_text.specs.Keys.{same_line};
ghost use Rattle.clru_text.specs.declared.lines.OwnedKey.{OwnedKey};
ghost use Rattle.clru_report.specs.TimedPasses.{IsNoted, position_of as position_by, soon_of as soon_by};

use clru_linked_map::BytesMap;
use clru_text::OwnedKey;
use std::alloc::{AllocError, Allocator};
use std::hash::BuildHasher;

/// The position of a request, and its time.
#[derive(Clone, Copy)]
struct Seen {
    position: usize,
    time: usize,
}

/// Where and when the latest request of each line was. A line costs one look-up, and a new line has no allocation of its own.
#[derive(Drop)]
pub(super) struct LatestLines<S: BuildHasher, A: Allocator + Copy> {
    latest: BytesMap<Seen, S, A>,
    limit: usize,
    requests: usize,
}

impl<S: BuildHasher, A: Allocator + Copy> LatestLines<S, A> {
    /// Creates a table without lines, under this idle limit.
    /// Cost: no request for memory.
    pub(super) fn new(alloc: A, limit: usize, hash_builder: S) -> Self
        ensures { IsNoted limit [] result }
    {
        LatestLines {
            latest: BytesMap::new(alloc, hash_builder),
            limit,
            requests: 0,
        }
    }

    /// Notes one more request of a line. Returns the position of its latest request, or `None` if the line is new, and whether that one
    /// came within the limit.
    ///
    /// If memory is refused, or there were `usize::MAX` requests, no more can be said of the table.
    /// Cost: that of `BytesMap::insert`.
    pub(super) fn note(
        &mut self,
        key: &OwnedKey<A>,
        time: usize,
    ) -> Result<(Option<usize>, bool), AllocError>
        ensures latest { (idle : ℕ) (past : List (OwnedKey A × ℕ)) → IsNoted idle past self.old
            → IfOk result (λ found. IsLatestOf same_line (keys_of past) key.now found.0) }
        ensures soon { (idle : ℕ) (past : List (OwnedKey A × ℕ)) → IsNoted idle past self.old
            → IfOk result (λ found. found.1 ≡ is_recent same_line (Some idle) (key.now, time) past) }
        ensures noted { (idle : ℕ) (past : List (OwnedKey A × ℕ)) → IsNoted idle past self.old
            → OnOk result (IsNoted idle ((key.now, time) ∷ past) self.new) }
    {
        let Some(requests) = self.requests.checked_add(1) else {
            return Err(AllocError);
        };
        let here = Seen {
            position: self.requests,
            time,
        };
        let Ok(before) = self.latest.insert(&key.0, here) else {
            return Err(AllocError);
        };
        self.requests = requests;
        Ok((position_of(before), soon_of(self.limit, time, before)))
    }
}

fn position_of(seen: Option<Seen>) -> Option<usize>
    ensures { result ≡ position_by seen }
{
    match seen {
        Some(seen) => Some(seen.position),
        None => None,
    }
}

// Whether the latest request came within the limit before this time, or later.
fn soon_of(limit: usize, time: usize, seen: Option<Seen>) -> bool
    ensures { result ≡ soon_by limit time seen }
{
    match seen {
        Some(seen) => time.saturating_sub(seen.time) <= limit,
        None => false,
    }
}

/// A pass that holds no key, with the table of its lines.
#[derive(Drop)]
pub(super) struct TimedLinePass<P, S: BuildHasher, A: Allocator + Copy> {
    pub(super) lines: LatestLines<S, A>,
    pub(super) pass: P,
}

impl<P, S: BuildHasher, A: Allocator + Copy> TimedLinePass<P, S, A> {
    /// Drops the lines, when no request follows.
    pub(super) fn into_pass(self) -> P
    where
        S: Drop,
        ensures { result ≡ self.pass }
    {
        let TimedLinePass { lines, pass } = self;
        drop(lines);
        pass
    }
}
