//! The seed of a call.
ghost use Rattle.std.specs.Prelude.{◌≡◌, ◌↔◌, IfSome, IsNone};

use clru_text::Seed;

/// The hash builder under both words, or none for `0, 0`, which stands for `DefaultState`.
pub(crate) fn seeded(low: u64, high: u64) -> Option<Seed>
    ensures fixed { IsNone result ↔ ((low ≡ 0) × (high ≡ 0)) }
    ensures words { IfSome result (λ seed. (seed.low ≡ low) × (seed.high ≡ high)) }
{
    if low == 0 && high == 0 {
        None
    } else {
        Some(Seed { low, high })
    }
}
