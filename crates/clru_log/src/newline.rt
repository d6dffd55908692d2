//! The position of the first newline. Sixteen bytes are looked at together, without a branch on each, because the processor would
//! guess the end of most lines wrong.
ghost use Rattle.std.specs.Prelude.{◌≡◌, ◌==◌, ◌+◌, ◌≤◌, length, position, take, drop};
ghost use Rattle.std.specs.List.{position_or_len};

use std::simd::prelude::*;

pub(crate) fn newline_at(bytes: &[u8]) -> Option<usize>
    ensures { result ≡ position (λ b. b == 10) bytes.now }
{
    let mut start = 0;
    while bytes.len() - start >= 16 {
        let at = first_of_sixteen(bytes, start);
        if at < 16 {
            return Some(start + at);
        }
        start += 16;
    }
    match newline_in(&bytes[start..]) {
        Some(at) => Some(start + at),
        None => None,
    }
}

fn newline_in(bytes: &[u8]) -> Option<usize>
    ensures { result ≡ position (λ b. b == 10) bytes.now }
{
    bytes.iter().position(|byte| *byte == b'\n')
}

/// Returns how many of the sixteen bytes from `start` on are before the first newline.
#[inline(always)]
fn first_of_sixteen(bytes: &[u8], start: usize) -> usize
    requires { start + 16 ≤ length bytes.now }
    ensures { result ≡ position_or_len (λ b. b == 10) (take 16 (drop start bytes.now)) }
{
    let newlines = u8x16::from_slice(&bytes[start..])
        .simd_eq(u8x16::splat(b'\n'))
        .to_bitmask();
    if newlines == 0 {
        16
    } else {
        newlines.trailing_zeros() as usize
    }
}
