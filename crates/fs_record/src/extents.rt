// Extents of streams (Data Streams, j_file_extent_key_t and j_file_extent_val_t).
ghost use Rattle.std.specs.Prelude.{◌≡◌, ◌≤◌, length};
ghost use Rattle.fs_record.specs.Extents.{extent_of};

use crate::RecFault;
use apfs_layout::{key as keys, record as layout};
use obj_base::u64_at;

/// An extent of a stream.
#[derive(Clone, Copy, PartialEq, Eq)]
pub struct FileExt {
    /// Where it starts in its stream, in bytes.
    pub logical: u64,
    /// Its length in bytes.
    pub length: u64,
    /// Its first block; 0 is a hole.
    pub block: u64,
}

impl FileExt {
    ghost use Rattle.std.specs.Prelude.{◌<◌};
    ghost use Rattle.fs_record.specs.StreamExtents.{extent_blocks};

    /// How many blocks it has, the last of which may be used in part.
    #[tactic(auto, using(apfs_model::proofs::Rounding::rounding))]
    pub fn blocks(self, block_size: u32) -> u64
        requires { 0 < block_size }
        ensures { result ≡ extent_blocks block_size self }
    {
        self.length.div_ceil(u64::from(block_size))
    }
}

/// The extent of a record, whose key has its logical address. `Length` exactly where the value is shorter than 24 bytes.
#[tactic(auto, unfolding(crate::specs::Extents::extent_of, bt_keys::specs::RecordKey::second_of))]
pub fn file_ext(key: &[u8], value: &[u8]) -> Result<FileExt, RecFault>
    requires { 16 ≤ length key.now }
    ensures { result ≡ extent_of key.now value.now }
{
    if value.len() < layout::EXTENT_LEN {
        return Err(RecFault::Length);
    }
    Ok(FileExt {
        logical: u64_at(key, keys::SECOND),
        length: u64_at(value, layout::EXTENT_LENGTH) % layout::EXTENT_FLAG_UNIT,
        block: u64_at(value, layout::EXTENT_BLOCK),
    })
}
