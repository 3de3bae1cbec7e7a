// The EFI jumpstart.
//
// Tests: the magic, and that the extents fit. Gives: the extents of the driver. Rests on: nothing below.
ghost use Rattle.std.specs.Prelude.{◌≡◌, ◌≤◌, ◌<◌, length};
ghost use Rattle.nx_block.specs.Jump.{jump_count_of, jump_extent_of};
ghost use Rattle.nx_block.specs.OtherFields.{jump_of};

use crate::view::range_in;
use apfs_layout::jumpstart;
use obj_base::u32_at;
use std::marker::Model;

/// An EFI jumpstart, whose extents fit its block (EFI Jumpstart, `nx_efi_jumpstart_t`). Contracts see its bytes.
#[derive(Drop)]
pub struct Jump<'a> {
    bytes: &'a [u8],
}

impl<'a> Model for Jump<'a> {
    ghost use Rattle.std.specs.Prelude.{◌≡◌, List, ℕ, true};
    ghost use Rattle.nx_block.specs.Jump.{is_jump};

    ghost Value = { List ℕ };

    ghost view = { λ a. a.bytes.now };

    ghost invariant = { λ a. is_jump a.bytes.now ≡ true };
}

/// The view of a jumpstart in its block. None exactly where the magic isn't `JSDR` or the extents don't fit the block.
#[tactic(auto, unfolding(crate::specs::Jump::is_jump, crate::specs::Jump::jump_magic_of, crate::specs::Jump::jump_count_of))]
pub fn jump_read(bytes: &[u8]) -> Option<Jump<'_>>
    requires { 4096 ≤ length bytes.now }
    ensures { result ≡ jump_of bytes.now }
{
    let count = u32_at(bytes, jumpstart::COUNT) as usize;
    if u32_at(bytes, jumpstart::MAGIC) == jumpstart::JUMP_MAGIC
        && jumpstart::EXTENTS + jumpstart::EXTENT_LEN * count <= bytes.len()
    {
        return Some(Jump { bytes });
    }
    None
}

#[tactic(auto, unfolding(crate::specs::Jump::is_jump, crate::specs::Jump::jump_count_of, crate::specs::Jump::jump_extent_of))]
impl Jump<'_> {
    /// The number of extents of the driver.
    pub fn count(&self) -> u32
        ensures { result ≡ jump_count_of self.now }
    {
        u32_at(self.bytes, jumpstart::COUNT)
    }

    /// The first block and the number of blocks of an extent of the driver, counted from 0.
    pub fn extent(&self, i: u32) -> (u64, u64)
        requires { i < jump_count_of self.now }
        ensures { result ≡ jump_extent_of self.now i }
    {
        range_in(
            self.bytes,
            jumpstart::EXTENTS + jumpstart::EXTENT_LEN * i as usize,
        )
    }
}
