//! The lines of the input, each a key without a copy of its bytes.
ghost use Rattle.std.specs.Prelude.{◌≡◌, ◌<◌, ◌⊎◌, [], ◌∷◌, ◌++◌, map, length, IfOk, IfSome, IfNone, IsOk};
ghost use Rattle.std.specs.Cmp.{on_equiv, on_per, partial_equiv_from_equiv};
ghost use Rattle.std.specs.Cmp.Lexicographic.{nat_list_eq_equiv};
ghost use Rattle.std.specs.Cmp.Rules.{hashing};
ghost use Rattle.std.specs.Str.{bytes_eq};
ghost use Rattle.std.proofs.Common.{rules};
ghost use Rattle.clru_text.specs.Lines.{lines_of};

use crate::newline::newline_at;
use std::alloc::{AllocError, Allocator, Global};
use std::hash::{Hash, Hasher};

/// The key of a request: the bytes of its line.
#[derive(Clone, Copy, Debug, PartialEq, Eq)]
pub struct Key<'a>(pub &'a [u8]);

/// A key that owns the bytes of its line. It hashes as a [`Key`] of the same bytes.
#[derive(Debug, Drop)]
pub struct OwnedKey<A: Allocator = Global>(pub Vec<u8, A>);

// (derived, both would ask that the allocator is one of equal ones)
impl<A: Allocator> PartialEq for OwnedKey<A> {
    ghost eq = { λ x y. bytes_eq x.0.items y.0.items };

    ghost laws = { on_per (λ x. x.0.items) (partial_equiv_from_equiv nat_list_eq_equiv) };

    fn eq(&self, other: &Self) -> bool {
        self.0.as_slice() == other.0.as_slice()
    }
}

impl<A: Allocator> Eq for OwnedKey<A> {
    ghost laws = { on_equiv (λ x. x.0.items) nat_list_eq_equiv };
}

impl<A: Allocator> Hash for OwnedKey<A> {
    ghost hash_input = { λ key. key.0.items ∷ [] };

    ghost respects_eq = { Prim.search (hashing, rules) };

    fn hash<H: Hasher>(&self, state: &mut H) {
        state.write(self.0.as_slice())
    }
}

// The bytes go to the hasher in one call. A slice's own `Hash` gives it one byte a call.
impl<'a> Hash for Key<'a> {
    ghost hash_input = { λ key. key.0.now ∷ [] };

    ghost respects_eq = { Prim.search (hashing, rules) };

    fn hash<H: Hasher>(&self, state: &mut H) {
        state.write(self.0);
    }
}

/// Returns the first line of the bytes and what follows its newline, or `None` if there is no line.
pub fn next_line(bytes: &[u8]) -> Option<(&[u8], &[u8])>
    ensures line { IfSome result (λ found. lines_of bytes.now ≡ found.0.now ∷ lines_of found.1.now) }
    ensures bytes { IfSome result (λ found. (bytes.now ≡ found.0.now ++ 10 ∷ found.1.now)
        ⊎ ((bytes.now ≡ found.0.now) × (found.1.now ≡ []))) }
    ensures shorter { IfSome result (λ found. length found.1.now < length bytes.now) }
    ensures none { IfNone result (lines_of bytes.now ≡ []) }
{
    match newline_at(bytes) {
        Some(at) => Some((&bytes[..at], &bytes[at + 1..])),
        None if bytes.is_empty() => None,
        None => Some((bytes, &[])),
    }
}

/// Returns the lines of the bytes, as keys. Without bytes it asks for no memory.
pub fn keys_of<'a, A: Allocator>(alloc: A, bytes: &'a [u8]) -> Result<Vec<Key<'a>, A>, AllocError>
    ensures keys { IfOk result (λ keys. map (λ key. key.0.now) keys.items ≡ lines_of bytes.now) }
    ensures never_refused { bytes.now ≡ [] → IsOk result }
{
    let mut keys = Vec::new(alloc);
    let mut left = bytes;
    'lines: while let Some((line, rest)) = next_line(left) {
        keys.push(Key(line))?;
        left = rest;
    }
    Ok(keys)
}
