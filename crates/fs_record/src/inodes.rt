// Reading inodes (File-System Objects, j_inode_val_t).
ghost use Rattle.std.specs.Prelude.{◌≡◌, ◌≤◌, ◌+◌, length, IfSome, option_map};
ghost use Rattle.fs_record.specs.Inodes.{inode_of, stream_at};

use crate::fields::find;
use crate::{Inode, RecFault, StreamSize};
use apfs_layout::record as layout;
use obj_base::u64_at;

// The size of the stream at a place.
#[tactic(auto, unfolding(crate::specs::Inodes::stream_at))]
fn stream_size(value: &[u8], at: usize) -> StreamSize
    requires { at + 40 ≤ length value.now }
    ensures { result ≡ stream_at value.now at }
{
    StreamSize {
        size: u64_at(value, at + layout::STREAM_SIZE),
        allocated: u64_at(value, at + layout::STREAM_ALLOCATED),
    }
}

// The size of the stream whose field is at this place, if there is one.
fn stream(value: &[u8], place: Option<usize>) -> Option<StreamSize>
    requires { IfSome place (λ at. at + 40 ≤ length value.now) }
    ensures { result ≡ option_map (stream_at value.now) place }
{
    match place {
        Some(at) => Some(stream_size(value, at)),
        None => None,
    }
}

/// The inode of a record. `Length` where the value is shorter than 92 bytes, otherwise `Fields` where its extended fields
/// don't fit it or that of its stream has fewer than 40 bytes.
#[tactic(auto, using(crate::proofs::Readings::inode_short, crate::proofs::Readings::inode_bad, crate::proofs::Readings::inode_read))]
pub fn inode(value: &[u8]) -> Result<Inode<'_>, RecFault>
    ensures { result ≡ inode_of value.now }
{
    if value.len() < layout::INODE_LEN {
        return Err(RecFault::Length);
    }
    match find(
        value,
        layout::INODE_LEN,
        layout::FIELD_STREAM,
        layout::STREAM_LEN,
    ) {
        Ok(place) => Ok(Inode {
            value,
            stream: stream(value, place),
        }),
        Err(why) => Err(why),
    }
}
