//! What a store returns for a key.

/// The value of a key.
#[derive(Debug, Drop, PartialEq, Eq)]
pub enum Answer<'a, V> {
    /// It is held, and lent.
    Held(&'a V),

    /// It is not held: it was too heavy, or no memory was found. The store keeps it until the next `get`, and lends it.
    Passed(&'a V),
}

/// What became of the value of a key.
#[derive(Debug, Drop, PartialEq, Eq)]
pub enum Loaded<V> {
    /// It is held, and stands first.
    Held {
        /// Whether it was fetched now. Else it was held before.
        fetched: bool,
    },

    /// It was fetched and is not held: it was too heavy, or no memory was found.
    Passed(V),
}
