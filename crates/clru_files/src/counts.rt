//! How many requests were answered, and how.
ghost use Rattle.std.specs.Prelude.{◌≡◌, ◌+◌, ◌<◌, ◌^◌, cond};
ghost use Rattle.clru_files.specs.Serving.{is_hit, is_fetch, is_no_text, is_no_memory};

use crate::served::Served;

/// How requests ended. Those that are no text, or found no memory, never reached the store.
#[derive(Clone, Copy)]
pub struct Counts {
    pub hits: usize,
    pub fetches: usize,
    pub no_text: usize,
    pub no_memory: usize,
}

impl Counts {
    /// Creates the counts of no request.
    pub fn new() -> Self
        ensures { result ≡ record { hits = 0; fetches = 0; no_text = 0; no_memory = 0 } }
    {
        Counts {
            hits: 0,
            fetches: 0,
            no_text: 0,
            no_memory: 0,
        }
    }

    /// Counts one more request.
    pub fn add(&mut self, served: Served)
        requires fits { self.old.hits + self.old.fetches + self.old.no_text + self.old.no_memory + 1 < 2 ^ 64 }
        ensures hits { self.new.hits ≡ self.old.hits + cond (is_hit served) 1 0 }
        ensures fetches { self.new.fetches ≡ self.old.fetches + cond (is_fetch served) 1 0 }
        ensures no_text { self.new.no_text ≡ self.old.no_text + cond (is_no_text served) 1 0 }
        ensures no_memory { self.new.no_memory ≡ self.old.no_memory + cond (is_no_memory served) 1 0 }
    {
        match served {
            Served::Hit(_) => self.hits += 1,
            Served::Fetched(_) => self.fetches += 1,
            Served::NoText => self.no_text += 1,
            Served::NoMemory => self.no_memory += 1,
        }
    }
}
