//! When the file of a held page is read again.
use std::time::Duration;

/// How long a held page answers requests, before its file is read again.
#[derive(Clone, Copy)]
pub enum Freshness {
    /// As long as it is held.
    WhileHeld,
    /// As long as its file says the same of itself.
    WhileUnchanged,
    /// So long after its file was read.
    Within(Duration),
}
