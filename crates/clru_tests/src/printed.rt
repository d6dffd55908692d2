//! What errors print.

use std::alloc::{AllocError, Global};
use std::error::Error;

/// Whether an error prints the text by `{}` and by `{:?}`, and in a box the same.
pub(crate) fn prints<E: Error + Drop>(
    alloc: Global,
    error: E,
    text: &str,
) -> Result<bool, AllocError> {
    let bare = is_printed(alloc, &error, text)?;
    let boxed = Box::new(alloc, error)?;
    Ok(bare && is_printed(alloc, &boxed, text)?)
}

fn is_printed<E: Error>(alloc: Global, error: &E, text: &str) -> Result<bool, AllocError> {
    let printed = format!(in alloc; "{error}, {error:?}")?;
    Ok(printed.as_str() == text)
}
