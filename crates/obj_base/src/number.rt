// Numbers in bytes, the lowest byte first.
ghost use Rattle.std.specs.Prelude.{◌≡◌, ◌+◌, ◌≤◌, length};
ghost use Rattle.apfs_model.specs.Bytes as number;

use byteorder::{ByteOrder, LittleEndian};

/// The number of 16 bits at byte `at`.
#[tactic(auto, using(crate::proofs::Numbers::number_at_is), unfolding(apfs_model::specs::Bytes::u16_at))]
pub fn u16_at(bytes: &[u8], at: usize) -> u16
    requires { at + 2 ≤ length bytes.now }
    ensures { result ≡ number.u16_at bytes.now at }
{
    LittleEndian::read_u16(&bytes[at..])
}

/// The number of 32 bits at byte `at`.
#[tactic(auto, using(crate::proofs::Numbers::number_at_is), unfolding(apfs_model::specs::Bytes::u32_at))]
pub fn u32_at(bytes: &[u8], at: usize) -> u32
    requires { at + 4 ≤ length bytes.now }
    ensures { result ≡ number.u32_at bytes.now at }
{
    LittleEndian::read_u32(&bytes[at..])
}

/// The number of 64 bits at byte `at`.
#[tactic(auto, using(crate::proofs::Numbers::number_at_is), unfolding(apfs_model::specs::Bytes::u64_at))]
pub fn u64_at(bytes: &[u8], at: usize) -> u64
    requires { at + 8 ≤ length bytes.now }
    ensures { result ≡ number.u64_at bytes.now at }
{
    LittleEndian::read_u64(&bytes[at..])
}
