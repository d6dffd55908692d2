//! Which keys came with several sizes.

use clru_text::Seed;
use std::collections::HashMap;

/// The size of each key, by a hash of its bytes: 0 once it came with another size. Of many keys a part is looked at.
#[derive(Drop)]
pub(crate) struct SizesOfKeys {
    seen: HashMap<u64, usize, Seed>,
    // How many of these keys came with several sizes.
    several: usize,
    // Keys are looked at whose hash has none of these bits.
    mask: u64,
    // Memory was refused, so nothing is told.
    is_lost: bool,
}

// More keys with several sizes than one in so many are told.
const FEW_KEYS: usize = 100;

// At most so many keys are looked at: their table fits the processor's cache.
const MOST_KEYS: usize = 4096;

impl SizesOfKeys {
    pub(crate) fn new(rt: &HostRuntime, seed: Seed) -> SizesOfKeys {
        SizesOfKeys {
            seen: HashMap::with_hasher(rt.alloc(), seed),
            several: 0,
            mask: 0,
            is_lost: false,
        }
    }

    /// Returns the hash of the key at the end of the line, if this key is looked at.
    #[inline]
    pub(crate) fn looked_at(&self, line: &[u8], key: &[u8]) -> Option<u64> {
        let hash = hash_of(line, key);
        if hash & self.mask == 0 && !self.is_lost {
            Some(hash)
        } else {
            None
        }
    }

    /// Looks at a key with this hash and size.
    #[inline(never)]
    pub(crate) fn note(&mut self, hash: u64, size: usize) {
        match self.seen.get_mut(&hash) {
            None => {
                self.is_lost = self.seen.insert(hash, size).is_err();
                if self.seen.len() > MOST_KEYS {
                    self.halve();
                }
            }
            Some(held) => {
                let is_other = *held != 0 && *held != size;
                if is_other {
                    *held = 0;
                    self.several = self.several.saturating_add(1);
                }
            }
        }
    }

    // Looks at half of the keys from here on.
    fn halve(&mut self) {
        let mask = self.mask << 1 | 1;
        self.mask = mask;
        self.seen.retain(|key, _| *key & mask == 0);
        self.several = self.seen.values().filter(|size| **size == 0).count();
    }

    /// How many keys came with several sizes, of how many that were looked at, and whether these were all, where it is more than one in
    /// a hundred.
    pub(crate) fn told(&self) -> Option<(usize, usize, bool)> {
        let keys = self.seen.len();
        let are_many = self.several.saturating_mul(FEW_KEYS) > keys;
        if are_many && !self.is_lost {
            Some((self.several, keys, self.mask == 0))
        } else {
            None
        }
    }
}

// Keys with one hash count as one, which is rare enough for what is told.
#[inline]
fn hash_of(line: &[u8], key: &[u8]) -> u64 {
    let length = key.len() as u64;
    match (key.first_chunk::<8>(), key.last_chunk::<8>()) {
        (Some(first), Some(last)) => {
            let mut hash = mixed(length, u64::from_le_bytes(*first));
            if length > 16 {
                hash = mixed_words(hash, key);
            }
            mixed(hash, u64::from_le_bytes(*last))
        }
        _ => mixed(mixed(0, short_word(line, key)), length),
    }
}

#[inline(never)]
fn mixed_words(before: u64, key: &[u8]) -> u64 {
    let mut hash = before;
    let mut left = key.get(8..).unwrap_or(&[]);
    'words: while let Some((word, behind)) = left.split_first_chunk::<8>() {
        hash = mixed(hash, u64::from_le_bytes(*word));
        left = behind;
    }
    hash
}

#[inline]
fn mixed(hash: u64, word: u64) -> u64 {
    let product = (hash ^ word).wrapping_mul(0x9e37_79b9_7f4a_7c15);
    product ^ product >> 32
}

// A key of fewer than eight bytes as one word: in a longer line by one read.
#[inline]
fn short_word(line: &[u8], key: &[u8]) -> u64 {
    if let Some(last) = line.last_chunk::<8>() {
        return u64::from_be_bytes(*last) & !(u64::MAX << (8 * (key.len() % 8)));
    }
    let mut word = 0;
    for byte in key {
        word = word << 8 | u64::from(*byte);
    }
    word
}
