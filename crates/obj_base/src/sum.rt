// The sum of an object.
ghost use Rattle.std.specs.Prelude.{◌≡◌, ◌+◌, ◌*◌, ◌<◌, ◌≤◌, ◌%◌, ◌^◌, length, sum};
ghost use Rattle.std.specs.Simd.Lanes.{Each1};
ghost use Rattle.apfs_model.specs.Sum.{sum_of, weighted};
ghost use Rattle.obj_base.specs.Words.{words_from};

use crate::u32_at;
use apfs_layout::object::FIRST_WORD;
use std::simd::prelude::*;

// The greatest number of 32 bits, by which sums are taken.
const TOP: u64 = 0xffff_ffff;

// So many times eight words are added up before a sum is reduced: the weighted sum of these stays below 2^62.
const MAX_STEPS: usize = 4096;

// A plain and a weighted sum.
#[derive(Drop)]
struct Sums {
    plain: u64,
    weighted: u64,
}

// Eight words, from one of them on, each in its lane.
fn eight_words(bytes: &[u8], first: usize) -> u64x8
    requires { 8 + 4 * (first + 8) ≤ length bytes.now }
    ensures words { result ≡ words_from bytes.now first 8 }
    ensures small { Each1 (λ word. word < 2 ^ 32) result }
{
    u32x8::from_le_bytes(u8x32::from_slice(&bytes[FIRST_WORD + 4 * first..])).cast::<u64>()
}

// The sums of eight words a step, from one of them on, with no remainder taken. The word in lane i counts i times too often in
// eight times the weighted lanes.
fn sums_by_eight(bytes: &[u8], first: usize, steps: usize) -> Sums
    requires few { steps ≤ MAX_STEPS }
    requires inside { 8 + 4 * (first + 8 * steps) ≤ length bytes.now }
    ensures plain { result.plain ≡ sum (words_from bytes.now first (8 * steps)) }
    ensures weighted { result.weighted ≡ weighted (words_from bytes.now first (8 * steps)) }
    ensures small { (result.plain < 2 ^ 62) × (result.weighted < 2 ^ 62) }
{
    let mut plain = u64x8::splat(0);
    let mut weighted = u64x8::splat(0);
    'steps: for step in 0..steps {
        plain = plain.strict_add(eight_words(bytes, first + 8 * step));
        weighted = weighted.strict_add(plain);
    }
    let late = plain.strict_mul(u64x8::from_array([0, 1, 2, 3, 4, 5, 6, 7]));
    Sums {
        plain: plain.strict_reduce_sum(),
        weighted: 8 * weighted.strict_reduce_sum() - late.strict_reduce_sum(),
    }
}

/// The sum of an object, over all its bytes but the stored sum (Objects, `obj_phys_t`, `o_cksum`).
pub fn sum64(bytes: &[u8]) -> u64
    requires whole { length bytes.now % 4 ≡ 0 }
    requires long { 12 ≤ length bytes.now }
    ensures { result ≡ sum_of bytes.now }
{
    let count = (bytes.len() - FIRST_WORD) / 4;
    let mut plain: u64 = 0;
    let mut weighted: u64 = 0;
    let mut first: usize = 0;
    'parts: while count - first >= 8 {
        let steps = MAX_STEPS.min((count - first) / 8);
        let sums = sums_by_eight(bytes, first, steps);
        weighted = (weighted + 8 * steps as u64 * plain + sums.weighted) % TOP;
        plain = (plain + sums.plain) % TOP;
        first += 8 * steps;
    }
    'words: for i in first..count {
        plain += u64::from(u32_at(bytes, FIRST_WORD + 4 * i));
        weighted += plain;
    }
    let low = TOP - (plain + weighted) % TOP;
    let high = TOP - (plain + low) % TOP;
    high * 0x1_0000_0000 + low
}
