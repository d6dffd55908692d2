//! A cache of counts, which closures make and change.

use clru::{CLruCache, NonZeroUsize};
use std::alloc::{AllocError, Global};

/// Counts the words of a text, and keeps the counts of the `capacity` words that came last.
pub fn count_words(
    alloc: Global,
    capacity: NonZeroUsize,
    text: &'static str,
) -> Result<CLruCache<&'static str, u64>, AllocError> {
    let mut counts = CLruCache::new(alloc, capacity);
    for word in text.split_whitespace() {
        let one_more = |_: &_, count: &mut u64, _| *count = count.saturating_add(1);
        if counts.put_or_modify(word, |_, _| 1, one_more, ()).is_err() {
            return Err(AllocError);
        }
    }
    Ok(counts)
}
