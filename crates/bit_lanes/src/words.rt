// Runs of bytes, 64 bytes at a time.
ghost use Rattle.std.specs.Prelude.{◌≡◌, ◌+◌, ◌≤◌, length};
ghost use Rattle.bit_lanes.specs.Words.{eight_words};

use std::simd::prelude::*;

// The bytes that are taken at a time.
pub(crate) const PART: usize = 64;

// The eight words in the 64 bytes from a place on, each in its lane.
pub(crate) fn words_at(bytes: &[u8], at: usize) -> u64x8
    requires { at + PART ≤ length bytes.now }
    ensures { result ≡ eight_words bytes.now at }
{
    u64x8::from_le_bytes(u8x64::from_slice(&bytes[at..]))
}
