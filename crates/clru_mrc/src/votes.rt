//! Which line leads. Each line votes: for the leader where it is the same, and else against it. One without votes is succeeded by the
//! next line.

use std::alloc::Global;

/// The leader between two reads.
#[derive(Drop)]
pub(crate) struct Leader {
    line: Vec<u8>,
    votes: u64,
    // How often it came since it leads.
    seen: u64,
}

/// The votes of the lines of one read. Mostly a leader is succeeded soon, so only the last one is copied.
#[derive(Clone, Copy)]
pub(crate) struct Votes<'a> {
    leader: &'a [u8],
    votes: u64,
    seen: u64,
    is_new: bool,
}

/// What a read leaves.
#[derive(Drop)]
pub(crate) struct Ended {
    // The leader, if it is another one than before.
    line: Option<Vec<u8>>,
    votes: u64,
    seen: u64,
}

impl Leader {
    pub(crate) fn new(alloc: Global) -> Leader {
        Leader {
            line: Vec::new(alloc),
            votes: 0,
            seen: 0,
        }
    }

    pub(crate) fn votes(&self) -> Votes<'_> {
        Votes {
            leader: self.line.as_slice(),
            votes: self.votes,
            seen: self.seen,
            is_new: false,
        }
    }

    /// Takes over what a read left.
    pub(crate) fn follow(&mut self, ended: Ended) {
        let Ended { line, votes, seen } = ended;
        self.votes = votes;
        self.seen = seen;
        if let Some(line) = line {
            self.line = line;
        }
    }

    /// How often it came at least, and its line.
    pub(crate) fn seen(&self) -> (u64, &[u8]) {
        (self.seen, self.line.as_slice())
    }
}

impl<'a> Votes<'a> {
    #[inline]
    pub(crate) fn count(&mut self, line: &'a [u8]) {
        if self.votes == 0 {
            *self = Votes {
                leader: line,
                votes: 1,
                seen: 1,
                is_new: true,
            };
        } else if is_same(self.leader, line) {
            self.votes = self.votes.saturating_add(1);
            self.seen = self.seen.saturating_add(1);
        } else {
            self.count_against();
        }
    }

    /// One more line is like no other.
    pub(crate) fn count_against(&mut self) {
        self.votes = self.votes.saturating_sub(1);
    }

    /// A copy of the leader, if it is another one than before these votes. (without memory for it, no line leads)
    pub(crate) fn end(self, alloc: Global) -> Ended {
        let mut ended = Ended {
            line: None,
            votes: self.votes,
            seen: self.seen,
        };
        if self.is_new {
            let mut line = Vec::new(alloc);
            if line.extend_from_slice(self.leader).is_err() {
                ended.votes = 0;
                ended.seen = 0;
            }
            ended.line = Some(line);
        }
        ended
    }
}

// (most lines differ in their lengths or last bytes)
#[inline]
fn is_same(one: &[u8], other: &[u8]) -> bool {
    one.len() == other.len() && last_word(one) == last_word(other) && one == other
}

#[inline]
fn last_word(line: &[u8]) -> u64 {
    match line.last_chunk::<8>() {
        Some(word) => u64::from_le_bytes(*word),
        None => 0,
    }
}
