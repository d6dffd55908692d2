//! A seed hashes as std's builder under the same words, however the bytes are cut.
ghost use Rattle.std.specs.Prelude.{◌<◌};

use clru_text::{Key, Seed};
use ration::equal;
use std::cell::Cell;
use std::hash::{BuildHasher, Hasher, RandomState};
use std::io;
use std::random::RandomSource;

/// Gives its bytes from the first on, at each call those after the last call's.
#[derive(Drop)]
struct Given(Cell<u8>);

impl RandomSource for Given {
    fn fill_bytes(&self, buffer: &mut [u8]) -> io::Result<()> {
        for byte in buffer {
            self.0.set(self.0.get().wrapping_add(77));
            *byte = self.0.get();
        }
        Ok(())
    }
}

#[test]
fn both_words_are_the_key(rt: HostRuntime) {
    // as `clru_c` has it
    let seed = Seed { low: 1, high: 2 };
    equal!(rt; seed.hash_one(&7u64), 0x27af_68d8_34d1_f21d);
}

#[test]
fn a_seed_hashes_as_std_does(rt: HostRuntime) {
    let (Ok(seed), Ok(state)) = (
        Seed::new(&Given(Cell::new(0))),
        RandomState::new(&Given(Cell::new(0))),
    ) else {
        return equal!(rt; true, false);
    };
    let mut bytes = [0; 280];
    for index in 0..280 {
        bytes[index] = (index * index % 251) as u8;
    }
    for end in 0..=280 {
        let key = Key(&bytes[..end]);
        equal!(rt; seed.hash_one(&key), state.hash_one(&key), end);
    }
    for size in 1..=20 {
        for end in 0..=60 {
            let part = &bytes[..end];
            equal!(rt; hash_in_parts(&seed, part, size), hash_in_parts(&state, part, size), (size, end));
        }
    }
}

fn hash_in_parts<S: BuildHasher>(builder: &S, bytes: &[u8], size: usize) -> u64
    requires { 0 < size }
{
    let mut hasher = builder.build_hasher();
    for part in bytes.chunks(size) {
        hasher.write(part);
    }
    hasher.finish()
}
