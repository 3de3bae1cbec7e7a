// Numbers added to bytes, the lowest byte of a number first.
ghost use Rattle.std.specs.Prelude.{◌≡◌, ◌<◌, ◌^◌, ◌++◌, OnOk, replicate};
ghost use Rattle.img_edit.specs.Nodes.{number_bytes};

use std::alloc::AllocError;

/// Adds a number of 16 bits.
#[tactic(auto, unfolding(crate::specs::Nodes::number_bytes))]
pub(crate) fn add_u16(bytes: &mut Vec<u8>, number: u16) -> Result<(), AllocError>
    ensures added { OnOk result (bytes.new.items ≡ bytes.old.items ++ number_bytes 2 number) }
    ensures fits { number < 2 ^ 16 }
{
    bytes.extend_from_slice(&number.to_le_bytes())
}

/// Adds a number of 32 bits.
#[tactic(auto, unfolding(crate::specs::Nodes::number_bytes))]
pub(crate) fn add_u32(bytes: &mut Vec<u8>, number: u32) -> Result<(), AllocError>
    ensures added { OnOk result (bytes.new.items ≡ bytes.old.items ++ number_bytes 4 number) }
    ensures fits { number < 2 ^ 32 }
{
    bytes.extend_from_slice(&number.to_le_bytes())
}

/// Adds a number of 64 bits.
#[tactic(auto, unfolding(crate::specs::Nodes::number_bytes))]
pub(crate) fn add_u64(bytes: &mut Vec<u8>, number: u64) -> Result<(), AllocError>
    ensures added { OnOk result (bytes.new.items ≡ bytes.old.items ++ number_bytes 8 number) }
    ensures fits { number < 2 ^ 64 }
{
    bytes.extend_from_slice(&number.to_le_bytes())
}

/// Adds so many zeros.
pub(crate) fn add_zeros(bytes: &mut Vec<u8>, count: usize) -> Result<(), AllocError>
    ensures { OnOk result (bytes.new.items ≡ bytes.old.items ++ replicate count 0) }
{
    let all = bytes.len().checked_add(count).ok_or(AllocError)?;
    bytes.resize(all, 0)
}
