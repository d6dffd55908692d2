//! The checksum of a page.

/// The reversed polynomial of CRC-32, which gzip and zip have.
const POLYNOMIAL: u32 = 0xedb8_8320;

/// The CRC-32 of the bytes.
pub(crate) fn checksum(bytes: &[u8]) -> u32 {
    let mut rest = u32::MAX;
    for byte in bytes {
        rest ^= u32::from(*byte);
        for _ in 0..8 {
            rest = (rest >> 1) ^ if rest & 1 == 1 { POLYNOMIAL } else { 0 };
        }
    }
    !rest
}
