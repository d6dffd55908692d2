//! `Hints`: where the sizes of announced requests are likely to stand. No clause speaks of them: only the time of a request rests on them.

use crate::ahead::AHEAD;

/// The likely places for the requests that are announced, in their order.
#[derive(Drop)]
pub(crate) struct Hints {
    places: [usize; AHEAD],
    announced: usize,
    // How many of these requests came.
    passed: usize,
}

impl Hints {
    /// No request is announced.
    pub(crate) fn new() -> Self {
        Hints {
            places: [0; AHEAD],
            announced: 0,
            passed: 0,
        }
    }

    /// Announces `count` more requests, each by its likely place, up to `AHEAD` in all. Those that came are dropped once all have come.
    pub(crate) fn push(&mut self, places: &[usize; AHEAD], count: usize) {
        if self.passed >= self.announced {
            self.announced = 0;
            self.passed = 0;
        }
        for at in 0..count.min(AHEAD) {
            if self.announced < AHEAD {
                self.places[self.announced] = places[at];
                self.announced += 1;
            }
        }
    }

    /// Returns the likely place for the request that comes now, or `usize::MAX` if it was not announced.
    pub(crate) fn pass(&mut self) -> usize {
        if self.passed >= self.announced || self.passed >= AHEAD {
            return usize::MAX;
        }
        let place = self.places[self.passed];
        self.passed += 1;
        place
    }
}
