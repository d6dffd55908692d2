//! The checksum of a part's text.
ghost use Rattle.std.specs.Prelude.{◌≡◌};
ghost use Rattle.clru_text.specs.Samples.{fnv};

// Both numbers of FNV-1a for 64 bits.
const BASIS: u64 = 14695981039346656037;

const PRIME: u64 = 1099511628211;

pub(crate) fn checksum_of(bytes: &[u8]) -> usize
    ensures { result ≡ fnv bytes.now }
{
    let mut hash = BASIS;
    for byte in bytes {
        hash = (hash ^ u64::from(*byte)).wrapping_mul(PRIME);
    }
    hash as usize
}
