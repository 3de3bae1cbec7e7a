// Numbers and bytes written into a block, the lowest byte of a number first.
ghost use Rattle.std.specs.Prelude.{◌≡◌, ◌+◌, ◌≤◌, length};
ghost use Rattle.apfs_model.specs.Bytes as number;
ghost use Rattle.img_edit.specs.Edits.{IsSameAround, put_at};

use byteorder::{ByteOrder, LittleEndian};

/// Writes a number of 16 bits at byte `at`.
#[tactic(auto, using(crate::proofs::Written::number_written, std::proofs::lemmas::Slice::overwrites), unfolding(apfs_model::specs::Bytes::u16_at))]
pub fn put_u16(block: &mut [u8], at: usize, value: u16)
    requires { at + 2 ≤ length block.old }
    ensures value { number.u16_at block.new at ≡ value }
    ensures same { IsSameAround at (at + 2) block.old block.new }
{
    LittleEndian::write_u16(&mut block[at..at + 2], value);
}

/// Writes a number of 32 bits at byte `at`.
#[tactic(auto, using(crate::proofs::Written::number_written, std::proofs::lemmas::Slice::overwrites), unfolding(apfs_model::specs::Bytes::u32_at))]
pub fn put_u32(block: &mut [u8], at: usize, value: u32)
    requires { at + 4 ≤ length block.old }
    ensures value { number.u32_at block.new at ≡ value }
    ensures same { IsSameAround at (at + 4) block.old block.new }
{
    LittleEndian::write_u32(&mut block[at..at + 4], value);
}

/// Writes a number of 64 bits at byte `at`.
#[tactic(auto, using(crate::proofs::Written::number_written, std::proofs::lemmas::Slice::overwrites), unfolding(apfs_model::specs::Bytes::u64_at))]
pub fn put_u64(block: &mut [u8], at: usize, value: u64)
    requires { at + 8 ≤ length block.old }
    ensures value { number.u64_at block.new at ≡ value }
    ensures same { IsSameAround at (at + 8) block.old block.new }
{
    LittleEndian::write_u64(&mut block[at..at + 8], value);
}

/// Writes the bytes from byte `at` on.
#[tactic(auto, using(std::proofs::lemmas::Slice::overwrites))]
pub fn put_bytes(block: &mut [u8], at: usize, part: &[u8])
    requires { at + length part.now ≤ length block.old }
    ensures { block.new ≡ put_at at part.now block.old }
{
    block[at..at + part.len()].copy_from_slice(part);
}
