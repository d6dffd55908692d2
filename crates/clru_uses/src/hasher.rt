//! A hasher of one's own.
ghost use Rattle.std.specs.Prelude.{◌*◌, ◌%◌, ◌^◌, bit_xor, fold};

use std::hash::{BuildHasher, Hasher};

/// The hash FNV-1a of the bytes so far.
#[derive(Clone, Copy, Drop)]
pub struct Fnv(u64);

impl Hasher for Fnv {
    ghost write = { λ h bytes. record { 0 = fold (λ s b. (bit_xor s b * 1099511628211) % 2 ^ 64) h.0 bytes } };

    ghost finish = { λ h. h.0 };

    fn finish(&self) -> u64 {
        self.0
    }

    fn write(&mut self, bytes: &[u8]) {
        for byte in bytes {
            self.0 = (self.0 ^ u64::from(*byte)).wrapping_mul(1099511628211);
        }
    }
}

/// Builds it.
#[derive(Clone, Copy, Drop)]
pub struct FnvState;

impl BuildHasher for FnvState {
    type Hasher = Fnv;

    ghost build_hasher = { λ _. record { 0 = 14695981039346656037 } };

    fn build_hasher(&self) -> Fnv {
        Fnv(14695981039346656037)
    }
}
