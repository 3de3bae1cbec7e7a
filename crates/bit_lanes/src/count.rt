// Bits that are set.
ghost use Rattle.std.specs.Prelude.{◌≡◌, ◌+◌, ◌*◌, ◌^◌, ◌<◌, ◌≤◌, length};
ghost use Rattle.apfs_model.specs.Counts.{given};
ghost use Rattle.bit_lanes.specs.Bits.{ones_of, ones_below};

use crate::words::{PART, words_at};

// How many bits are set in the 64 bytes from a place on.
fn ones_at(bytes: &[u8], at: usize) -> u64
    requires { at + PART ≤ length bytes.now }
    ensures { ones_below bytes.now (8 * at) + result ≡ ones_below bytes.now (8 * (at + PART)) }
{
    let words = words_at(bytes, at).to_array();
    let mut ones: u64 = 0;
    'words: for word in words {
        ones += u64::from(word.count_ones());
    }
    ones
}

/// How many bits are set. From 2^61 bytes on `u64::MAX` stands for each greater number.
#[tactic(auto, using(crate::proofs::CountLemmas::ones_of_byte, crate::proofs::CountLemmas::given_more, crate::proofs::CountLemmas::ones_bound), unfolding(crate::specs::Bits::ones_of))]
pub fn count_ones(bytes: &[u8]) -> u64
    ensures value { result ≡ given (ones_of bytes.now) }
    ensures below { length bytes.now < 2 ^ 61 → result ≡ ones_of bytes.now }
{
    let parts = bytes.len() / PART;
    let mut count: u64 = 0;
    'parts: for part in 0..parts {
        count = count.saturating_add(ones_at(bytes, PART * part));
    }
    'bytes: for i in PART * parts..bytes.len() {
        count = count.saturating_add(u64::from(bytes[i].count_ones()));
    }
    count
}
