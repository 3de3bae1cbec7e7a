// What a source is.
ghost use Rattle.std.specs.Prelude.{◌≡◌, ◌+◌, ◌≤◌, List, ℕ, Option, Some, length, OnOk, OnErr};
ghost use Rattle.apfs_model.specs.Counts.{one_more, Rose};
ghost use Rattle.apfs_model.specs.Source.{Copies};

use apfs_model::ReadFailed;

/// Bytes that can be read at any place, a piece at a time. A source has a size, the bytes where it tells them, and two
/// counts: how often it failed, and how often it was read. No call changes its size or its bytes.
pub trait BlockSource: Drop {
    /// How many bytes it has.
    ghost bytes_len: { Self → ℕ };

    /// The bytes, where it tells them.
    ghost bytes: { Self → Option (List ℕ) };

    /// How often it has failed, up to the greatest number of 64 bits.
    ghost faults: { Self → ℕ };

    /// How often it was read, up to the greatest number of 64 bits.
    ghost reads: { Self → ℕ };

    /// The size in bytes.
    fn size(&self) -> u64
        ensures { result ≡ bytes_len self.now };

    /// Reads the bytes from byte `at` on into the whole of `into`, which has 1 to 65,536 bytes. After an error what
    /// `into` holds isn't said. Takes no memory.
    fn read_at(&mut self, at: u64, into: &mut [u8]) -> Result<(), ReadFailed>
        requires inside { at + length into.old ≤ bytes_len self.old }
        requires some { 1 ≤ length into.old }
        requires short { length into.old ≤ 65536 }
        ensures found { (image : List ℕ) → bytes self.old ≡ Some image → OnOk result (Copies image at into.new) }
        ensures cause { OnErr result (Rose (faults self.old) (faults self.new)) }
        ensures bytes { bytes self.new ≡ bytes self.old }
        ensures size { bytes_len self.new ≡ bytes_len self.old }
        ensures later { faults self.old ≤ faults self.new }
        ensures reads { reads self.new ≡ one_more (reads self.old) };

    /// What it tells is as long as it says.
    ghost whole: { (s : Self) (image : List ℕ) → bytes s ≡ Some image → length image ≡ bytes_len s };
}

/// What the program was handed for the image.
#[derive(Drop)]
pub enum Opened<S> {
    Absent,
    Image(S),
}
