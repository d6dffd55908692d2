//! What a plain put returns.

/// What a plain put replaced or dropped: at most one of the two is there.
///
/// A caller can write the dropped pair back:
///
/// ```rust
/// match pages.put(page, contents) {
///     Ok(put) => match put.dropped {
///         Some((lost, old)) => {
///             write(disk, lost, old);
///             Ok(Some(lost))
///         }
///         None => Ok(None),
///     },
///     Err(pair) => Err(pair),
/// }
/// ```
#[derive(Debug, Drop, PartialEq, Eq)]
pub struct Put<K, V> {
    /// The old value of the key, if it was held.
    pub replaced: Option<V>,

    /// The least recently used pair, if it was dropped because the key was not held and the cache was full.
    pub dropped: Option<(K, V)>,
}
