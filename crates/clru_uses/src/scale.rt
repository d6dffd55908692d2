//! A scale of one's own.
ghost use Rattle.std.specs.Prelude.{length};

use clru::WeightScale;

/// Weighs bytes by their number.
#[derive(Clone, Copy, Drop)]
pub struct ByLength;

impl<K> WeightScale<K, Vec<u8>> for ByLength {
    ghost weight = { λ _ _ bytes. length bytes.items };

    fn weight(&self, _key: &K, bytes: &Vec<u8>) -> usize {
        bytes.len()
    }
}
