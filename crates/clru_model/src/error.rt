//! Errors of calls that may be refused memory.
ghost use Rattle.std.specs.Prelude.{Some};
ghost use Rattle.clru_model.specs.Errors.{put_error_debug, put_error_text, try_put_error_debug, try_put_error_text};

use std::error::Error;
use std::fmt;

/// Says why a weighted put was refused. The pair comes back, and no entry has changed.
///
/// It is an error, which `?` passes up:
///
/// ```rust
/// sizes.put_with_weight(page, size, |_, _| {})?;
/// ```
#[derive(Drop, PartialEq, Eq)]
pub enum PutError<K, V> {
    /// The pair weighs as much as the capacity, or more.
    TooHeavy(K, V),

    /// Memory for one more entry was refused.
    NoMemory(K, V),
}

// No key and no value is printed, so that each type of them makes an error.
impl<K, V> fmt::Debug for PutError<K, V> {
    ghost debug_output = { λ e. Some (put_error_debug e) };

    fn fmt<W: fmt::Write>(&self, f: &mut fmt::Formatter<W>) -> fmt::Result {
        match self {
            PutError::TooHeavy(..) => f.write_str("TooHeavy(..)"),
            PutError::NoMemory(..) => f.write_str("NoMemory(..)"),
        }
    }
}

impl<K, V> fmt::Display for PutError<K, V> {
    ghost output = { λ e. Some (put_error_text e) };

    fn fmt<W: fmt::Write>(&self, f: &mut fmt::Formatter<W>) -> fmt::Result {
        match self {
            PutError::TooHeavy(..) => f.write_str("the pair is too heavy for the cache"),
            PutError::NoMemory(..) => f.write_str("out of memory"),
        }
    }
}

impl<K: Drop, V: Drop> Error for PutError<K, V> {}

/// Says why a put whose closures may fail was refused.
#[derive(Drop, PartialEq, Eq)]
pub enum TryPutError<K, T, E> {
    /// Memory for one more entry was refused. Key and data come back, no closure was called, and no entry has changed.
    NoMemory(K, T),

    /// The closure that was called returned this error.
    Failed(E),
}

impl<K, T, E> fmt::Debug for TryPutError<K, T, E> {
    ghost debug_output = { λ e. Some (try_put_error_debug e) };

    fn fmt<W: fmt::Write>(&self, f: &mut fmt::Formatter<W>) -> fmt::Result {
        match self {
            TryPutError::NoMemory(..) => f.write_str("NoMemory(..)"),
            TryPutError::Failed(_) => f.write_str("Failed(..)"),
        }
    }
}

impl<K, T, E> fmt::Display for TryPutError<K, T, E> {
    ghost output = { λ e. Some (try_put_error_text e) };

    fn fmt<W: fmt::Write>(&self, f: &mut fmt::Formatter<W>) -> fmt::Result {
        match self {
            TryPutError::NoMemory(..) => f.write_str("out of memory"),
            TryPutError::Failed(_) => f.write_str("the closure failed"),
        }
    }
}

impl<K: Drop, T: Drop, E: Drop> Error for TryPutError<K, T, E> {}
