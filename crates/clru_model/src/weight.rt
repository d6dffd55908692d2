//! What a pair weighs.
ghost use Rattle.std.specs.Prelude.{◌≡◌, ℕ};

/// A scale of key and value pairs.
///
/// A scale by length:
///
/// ```rust
/// #[derive(Clone, Copy, Drop)]
/// pub struct ByLength;
///
/// impl<K> WeightScale<K, Vec<u8>> for ByLength {
///     ghost weight = { λ _ _ bytes. length bytes.items };
///
///     fn weight(&self, _key: &K, bytes: &Vec<u8>) -> usize {
///         bytes.len()
///     }
/// }
/// ```
pub trait WeightScale<K, V> {
    // A function of the scale, the key and the value: what a pair weighs does not change while it is held.
    ghost weight: { Self → K → V → ℕ };

    /// Returns the weight of a key and value pair.
    fn weight(&self, key: &K, value: &V) -> usize
        ensures { result ≡ weight self.now key.now value.now };
}

/// The scale of a cache whose capacity limits the number of its entries: each pair weighs 0.
#[derive(Clone, Copy, Debug, Default)]
pub struct ZeroWeightScale;

impl<K, V> WeightScale<K, V> for ZeroWeightScale {
    ghost weight = { λ _ _ _. 0 };

    fn weight(&self, _key: &K, _value: &V) -> usize {
        0
    }
}
