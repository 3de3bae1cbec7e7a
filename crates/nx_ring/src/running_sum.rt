// The sum of an object of which the bytes come in parts (Objects, `obj_phys_t`, `o_cksum`).
ghost use Rattle.std.specs.Prelude.{◌≡◌, ◌≤◌, ◌<◌, ◌^◌, ◌++◌, [], List, ℕ, length, sum};
ghost use Rattle.apfs_model.specs.Sum.{weighted as weighted_sum, stored_sum};

use obj_base::u32_at;

// The greatest number of 32 bits, by which sums are taken.
const TOP: u64 = 0xffff_ffff;

/// The plain and the weighted sum of the words so far, as remainders.
#[derive(Clone, Copy)]
pub(crate) struct RunningSum {
    plain: u64,
    weighted: u64,
    ghost plain_small: { plain < 2 ^ 32 },
    ghost weighted_small: { weighted < 2 ^ 32 },
}

impl RunningSum {
    ghost use Rattle.nx_ring.specs.Sums.{words_after, IsSumOf};

    // The sum of no word.
    pub(crate) fn new() -> RunningSum
        ensures { IsSumOf result [] }
    {
        RunningSum {
            plain: 0,
            weighted: 0,
        }
    }

    // Adds the words of a block from byte `at` on.
    pub(crate) fn add(&mut self, bytes: &[u8], at: usize)
        requires short { length bytes.now ≤ 65536 }
        requires inside { at ≤ length bytes.now }
        ensures { (words : List ℕ) → IsSumOf self.old words → IsSumOf self.new (words ++ words_after bytes.now at) }
    {
        let mut plain = self.plain;
        let mut weighted = self.weighted;
        'words: for i in 0..(bytes.len() - at) / 4 {
            plain += u64::from(u32_at(bytes, at + 4 * i));
            weighted += plain;
        }
        self.plain = plain % TOP;
        self.weighted = weighted % TOP;
    }

    // The number that is stored for these words.
    pub(crate) fn stored(&self) -> u64
        ensures { (words : List ℕ) → IsSumOf self.now words → result ≡ stored_sum (sum words) (weighted_sum words) }
    {
        let low = TOP - (self.plain + self.weighted) % TOP;
        let high = TOP - (self.plain + low) % TOP;
        high * 0x1_0000_0000 + low
    }
}
