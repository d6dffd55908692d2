//! The latest request of a key, with its time.
ghost use Rattle.std.specs.Prelude.{◌≡◌, ◌-◌, nat_le};

/// How many requests came before the latest one of a key, and the time of that one.
#[derive(Clone, Copy)]
pub(crate) struct Seen {
    pub(crate) position: usize,
    pub(crate) time: usize,
}

/// Whether a request comes within the limit after the one before it, or earlier.
pub(crate) fn is_soon(limit: usize, before: usize, time: usize) -> bool
    ensures { result ≡ nat_le (time - before) limit }
{
    time.saturating_sub(before) <= limit
}
