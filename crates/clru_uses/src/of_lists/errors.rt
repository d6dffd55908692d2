//! Refusals that `?` passes up as want of memory, and the text of a refused push.
ghost use Rattle.std.specs.Prelude.{◌≡◌, [], IfOk, string_bytes};
ghost use Rattle.clru_list.specs.Errors.{push_error_text};

use clru_list::{FixedSizeList, PushError};
use std::alloc::{AllocError, Global};

/// Creates an empty list, which takes its first item without asking for memory.
pub fn ready_list(alloc: Global, capacity: usize) -> Result<FixedSizeList<u64>, AllocError>
    ensures capacity { IfOk result (λ list. list.capacity ≡ capacity) }
    ensures empty { IfOk result (λ list. list.entries ≡ []) }
{
    let mut list = FixedSizeList::with_memory(alloc, capacity, 0)?;
    list.make_ready()?;
    Ok(list)
}

/// Returns what a program prints of a refused item, whatever it is.
pub fn message<T>(alloc: Global, why: &PushError<T>) -> Result<String, AllocError>
    ensures text { IfOk result (λ text. string_bytes text ≡ push_error_text why.now) }
{
    format!(in alloc; "{why}")
}
