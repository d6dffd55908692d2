//! A request whose key came before, as a floor counts it.

/// How many positions after the latest request of its key a request comes, and the size of the key.
#[derive(Clone, Copy)]
pub(crate) struct Reuse {
    pub(crate) gap: usize,
    pub(crate) size: usize,
}
