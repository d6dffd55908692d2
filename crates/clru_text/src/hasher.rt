//! SipHash-1-3 that takes the bytes after the last whole word together. std's `DefaultHasher` computes the same, but takes them one
//! by one.
ghost use Rattle.std.specs.Prelude.{◌≡◌, ◌%◌, ◌^◌, ◌<◌, length};
ghost use Rattle.std.specs.Hash.DefaultHasher as sip;
ghost use Rattle.clru_text.specs.SipHasher.{as_std, from_std, number_of};

use std::hash::Hasher;

/// The hasher of a [`Seed`](crate::Seed): SipHash-1-3 of the bytes written, in however many writes.
#[derive(Clone, Copy)]
pub struct SipHasher13 {
    v0: u64,
    v1: u64,
    v2: u64,
    v3: u64,
    // The bytes since the last whole word, the first of them lowest.
    tail: u64,
    // How many bytes were written, modulo 2^64.
    length: u64,
}

impl SipHasher13 {
    pub(crate) fn new_with_keys(low: u64, high: u64) -> SipHasher13
        ensures { result ≡ from_std (sip.with_keys low high) }
    {
        SipHasher13 {
            v0: low ^ 0x736f_6d65_7073_6575,
            v1: high ^ 0x646f_7261_6e64_6f6d,
            v2: low ^ 0x6c79_6765_6e65_7261,
            v3: high ^ 0x7465_6462_7974_6573,
            tail: 0,
            length: 0,
        }
    }

    fn round(&mut self)
        ensures { self.new ≡ from_std (sip.round (as_std self.old)) }
    {
        self.v0 = self.v0.wrapping_add(self.v1);
        self.v2 = self.v2.wrapping_add(self.v3);
        self.v1 = self.v1.rotate_left(13) ^ self.v0;
        self.v3 = self.v3.rotate_left(16) ^ self.v2;
        self.v0 = self.v0.rotate_left(32);
        self.v2 = self.v2.wrapping_add(self.v1);
        self.v0 = self.v0.wrapping_add(self.v3);
        self.v1 = self.v1.rotate_left(17) ^ self.v2;
        self.v3 = self.v3.rotate_left(21) ^ self.v0;
        self.v2 = self.v2.rotate_left(32);
    }

    fn write_word(&mut self, word: u64)
        ensures { self.new ≡ from_std (sip.write_word (as_std self.old) word) }
    {
        self.v3 ^= word;
        self.round();
        self.v0 ^= word;
    }

    fn write_byte(&mut self, byte: u8)
        ensures { self.new ≡ from_std (sip.write_byte (as_std self.old) byte) }
    {
        self.tail |= (byte as u64) << (8 * (self.length % 8));
        self.length = self.length.wrapping_add(1);
        if self.length % 8 == 0 {
            self.write_word(self.tail);
            self.tail = 0;
        }
    }
}

impl Hasher for SipHasher13 {
    ghost write = { λ s bytes. from_std (sip.write (as_std s) bytes) };

    ghost finish = { λ s. sip.finish (as_std s) };

    #[inline]
    fn write(&mut self, bytes: &[u8]) {
        if self.length % 8 != 0 || self.tail != 0 {
            for byte in bytes {
                self.write_byte(*byte);
            }
            return;
        }
        let mut rest = bytes;
        'words: while let Some((word, behind)) = rest.split_first_chunk::<8>() {
            self.write_word(u64::from_le_bytes(*word));
            self.length = self.length.wrapping_add(8);
            rest = behind;
        }
        self.tail = number(rest);
        self.length = self.length.wrapping_add(rest.len() as u64);
    }

    fn finish(&self) -> u64 {
        let mut s = *self;
        s.write_word((self.length & 0xFF) << 56 | self.tail);
        s.v2 ^= 0xFF;
        s.round();
        s.round();
        s.round();
        s.v0 ^ s.v1 ^ s.v2 ^ s.v3
    }
}

/// Returns the number of these bytes, the first of them lowest.
fn number(bytes: &[u8]) -> u64
    requires { length bytes.now < 8 }
    ensures { result ≡ number_of bytes.now }
{
    match bytes.split_first_chunk::<4>() {
        Some((four, rest)) => u64::from(u32::from_le_bytes(*four)) + (below_four(rest) << 32),
        None => below_four(bytes),
    }
}

fn below_four(bytes: &[u8]) -> u64
    requires { length bytes.now < 4 }
    ensures number { result ≡ number_of bytes.now }
    ensures bound { result < 2 ^ 24 }
{
    match bytes.split_first_chunk::<2>() {
        Some((two, rest)) => u64::from(u16::from_le_bytes(*two)) + (below_two(rest) << 16),
        None => below_two(bytes),
    }
}

fn below_two(bytes: &[u8]) -> u64
    requires { length bytes.now < 2 }
    ensures number { result ≡ number_of bytes.now }
    ensures bound { result < 2 ^ 8 }
{
    match bytes.first() {
        Some(byte) => u64::from(*byte),
        None => 0,
    }
}
