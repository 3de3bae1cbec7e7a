// Bits of two runs of one length.
ghost use Rattle.std.specs.Prelude.{◌≡◌, ℕ, ◌+◌, ◌<◌, ◌≤◌, ◌||◌, ◌&&◌, ◌↔◌, length, slice_index, bit_and, bit_or, false, IsTrue};
ghost use Rattle.apfs_model.specs.Bytes.{bit_at};
ghost use Rattle.bit_lanes.specs.Bits.{ShareBit};

use crate::words::PART;
use std::simd::prelude::*;

/// Sets each bit that is set in the other run.
pub fn or_into(into: &mut [u8], from: &[u8])
    requires { length into.old ≡ length from.now }
    ensures { (k : ℕ) → bit_at into.new k ≡ (bit_at into.old k || bit_at from.now k) }
{
    let parts = from.len() / PART;
    'parts: for part in 0..parts {
        or_at(into, from, PART * part);
    }
    'bytes: for i in PART * parts..from.len() {
        into[i] |= from[i];
    }
}

// Sets each bit that is set in the other run, in the 64 bytes from a place on.
fn or_at(into: &mut [u8], from: &[u8], at: usize)
    requires into { at + PART ≤ length into.old }
    requires from { at + PART ≤ length from.now }
    ensures joined { (i : ℕ) → at ≤ i → i < at + PART → slice_index into.new i ≡ bit_or (slice_index into.old i) (slice_index from.now i) }
    ensures before { (i : ℕ) → i < at → slice_index into.new i ≡ slice_index into.old i }
    ensures after { (i : ℕ) → at + PART ≤ i → slice_index into.new i ≡ slice_index into.old i }
{
    let joined = u8x64::from_slice(&into[at..]) | u8x64::from_slice(&from[at..]);
    joined.copy_to_slice(&mut into[at..]);
}

/// Leaves the bits that are set in the other run too.
pub fn and_into(into: &mut [u8], from: &[u8])
    requires { length into.old ≡ length from.now }
    ensures { (k : ℕ) → bit_at into.new k ≡ (bit_at into.old k && bit_at from.now k) }
{
    'bytes: for i in 0..from.len() {
        into[i] &= from[i];
    }
}

/// Whether some bit is set in both runs.
#[tactic(auto, using(crate::proofs::ByteLemmas::share_from_byte))]
pub fn and_any(a: &[u8], b: &[u8]) -> bool
    requires { length a.now ≡ length b.now }
    ensures { IsTrue result ↔ ShareBit a.now b.now }
{
    'bytes: for i in apart_parts(a, b)..a.len() {
        if a[i] & b[i] != 0 {
            return true;
        }
    }
    false
}

// How many bytes two runs have without a bit in both, before the first 64 that have one.
fn apart_parts(a: &[u8], b: &[u8]) -> usize
    requires { length a.now ≡ length b.now }
    ensures inside { result ≤ length a.now }
    ensures apart { (i : ℕ) → i < result → bit_and (slice_index a.now i) (slice_index b.now i) ≡ 0 }
{
    let parts = a.len() / PART;
    'parts: for part in 0..parts {
        if share_at(a, b, PART * part) {
            return PART * part;
        }
    }
    PART * parts
}

// Whether two runs have a bit in both, in the 64 bytes from a place on.
fn share_at(a: &[u8], b: &[u8], at: usize) -> bool
    requires a { at + PART ≤ length a.now }
    requires b { at + PART ≤ length b.now }
    ensures apart { result ≡ false → (i : ℕ) → at ≤ i → i < at + PART → bit_and (slice_index a.now i) (slice_index b.now i) ≡ 0 }
{
    (u8x64::from_slice(&a[at..]) & u8x64::from_slice(&b[at..])) != u8x64::splat(0)
}
