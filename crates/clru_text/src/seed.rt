//! The hash builder for keys that others pick.
ghost use Rattle.std.specs.Hash.DefaultHasher as sip;
ghost use Rattle.clru_text.specs.SipHasher.{from_std};

use crate::hasher::SipHasher13;
use std::hash::BuildHasher;
use std::io;
use std::random::RandomSource;

/// The two words under which SipHash-1-3 hashes keys, as under std's `RandomState`.
#[derive(Clone, Copy)]
pub struct Seed {
    pub low: u64,
    pub high: u64,
}

impl Seed {
    /// Returns a seed of random bytes. Fails if the system gives none.
    pub fn new(rt: &impl RandomSource) -> io::Result<Seed> {
        let mut words = [[0; 8]; 2];
        rt.fill_bytes(&mut words[0])?;
        rt.fill_bytes(&mut words[1])?;
        let (low, high) = (u64::from_le_bytes(words[0]), u64::from_le_bytes(words[1]));
        Ok(Seed { low, high })
    }
}

impl BuildHasher for Seed {
    type Hasher = SipHasher13;

    ghost build_hasher = { λ seed. from_std (sip.with_keys seed.low seed.high) };

    fn build_hasher(&self) -> SipHasher13 {
        SipHasher13::new_with_keys(self.low, self.high)
    }
}
