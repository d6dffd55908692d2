//! Where the sizes of requests are likely to stand. Only the time of a search rests on it, and no result.
use crate::sized::size_list::SizeList;
use std::alloc::{AllocError, Allocator};

/// How many requests share a word.
const BITS: usize = 64;

/// A bit for each of some requests, which is set if its size was there, and the place behind the last of these sizes.
#[derive(Clone, Copy)]
struct Word {
    bits: usize,
    end: usize,
}

/// What was seen of the sizes when they were last looked through.
///
/// The latest requests up to then have a bit each. Later ones stand behind those sizes, in order.
#[derive(Drop)]
pub(crate) struct Guide<A: Allocator> {
    words: Vec<Word, A>,
    // How many words there would be before these.
    first: usize,
    requests: usize,
    sizes: usize,
}

impl<A: Allocator + Copy> Guide<A> {
    pub(crate) fn new(alloc: A) -> Self {
        Guide {
            words: Vec::new(alloc),
            first: 0,
            requests: 0,
            sizes: 0,
        }
    }

    /// Adds a word if there are fewer than so many.
    pub(crate) fn make_ready(&mut self, words: usize) -> Result<(), AllocError> {
        if self.words.len() >= words {
            return Ok(());
        }
        let Ok(()) = self.words.push(Word { bits: 0, end: 0 }) else {
            return Err(AllocError);
        };
        Ok(())
    }

    /// The place where the size of a request is likely to stand.
    pub(crate) fn likely(&self, request: usize) -> usize {
        let later = self
            .sizes
            .saturating_add(request.saturating_sub(self.requests));
        // (a word is read each time, so that no guess of the processor is wrong)
        let last = self.words.len().saturating_sub(1);
        let at = (request / BITS).wrapping_sub(self.first).min(last);
        let Some(word) = self.words.get(at) else {
            return later;
        };
        let behind = (word.bits >> (request % BITS)).count_ones() as usize;
        if request < self.requests {
            word.end.wrapping_sub(behind)
        } else {
            later
        }
    }

    /// Looks where the sizes of so many requests stand now.
    pub(crate) fn learn(&mut self, sizes: &SizeList<A>, requests: usize) {
        self.requests = requests;
        self.sizes = sizes.len();
        self.first = (requests / BITS + 1).saturating_sub(self.words.len());
        self.words.fill(Word { bits: 0, end: 0 });
        for place in 0..sizes.len() {
            let number = sizes.number(place);
            let at = (number / BITS).wrapping_sub(self.first);
            if at < self.words.len() {
                self.words[at] = Word {
                    bits: self.words[at].bits | 1 << (number % BITS),
                    end: place + 1,
                };
            }
        }
    }
}
