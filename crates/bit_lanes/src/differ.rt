// The least bit that differs.
ghost use Rattle.std.specs.Prelude.{◌≡◌, ◌≢◌, ℕ, ◌^◌, ◌<◌, ◌≤◌, ◌↔◌, length, slice_index, IsNone, IfSome};
ghost use Rattle.bit_lanes.specs.Bits.{IsFirstDifference, IsLowestApart};

use crate::words::{PART, words_at};

/// The least bit at which two runs of one length differ, and `None` where they are equal.
#[tactic(auto, using(crate::proofs::ByteLemmas::differ_apart))]
pub fn first_difference(a: &[u8], b: &[u8]) -> Option<usize>
    requires same_length { length a.now ≡ length b.now }
    requires short { length a.now ≤ 2 ^ 61 }
    ensures value { IfSome result (IsFirstDifference a.now b.now) }
    ensures equal { IsNone result ↔ (a.now ≡ b.now) }
{
    'bytes: for i in equal_parts(a, b)..a.len() {
        if a[i] != b[i] {
            return Some(8 * i + lowest_difference(a[i], b[i]));
        }
    }
    None
}

// How many bytes two runs have that are equal, before the first 64 that differ.
fn equal_parts(a: &[u8], b: &[u8]) -> usize
    requires { length a.now ≡ length b.now }
    ensures inside { result ≤ length a.now }
    ensures equal { (i : ℕ) → i < result → slice_index a.now i ≡ slice_index b.now i }
{
    let parts = a.len() / PART;
    'parts: for part in 0..parts {
        if words_at(a, PART * part) != words_at(b, PART * part) {
            return PART * part;
        }
    }
    PART * parts
}

// The lowest bit at which two bytes differ.
#[tactic(auto, using(crate::proofs::ByteLemmas::lowest_apart))]
fn lowest_difference(x: u8, y: u8) -> usize
    requires { x ≢ y }
    ensures { IsLowestApart x y result }
{
    (x ^ y).trailing_zeros() as usize
}
