// Reading a superblock.
//
// Tests: the magic, the block size, the header. Gives: the block size, the view of a superblock. Rests on: `sound`.
ghost use Rattle.std.specs.Prelude.{◌≡◌, ◌≤◌, ◌%◌, length};
ghost use Rattle.nx_block.specs.Read.{size_of, read_of};

use crate::{NxFault, NxView};
use apfs_layout::{container, kind};
use obj_base::{Bad, Expect, HeadFault, is_accepted, sound, u32_at};

/// The block size in bytes by the first 4,096 bytes of a container. None exactly where the magic isn't `NXSB` or the
/// size isn't one of those accepted.
#[tactic(auto, unfolding(crate::specs::Read::size_of, crate::specs::Super::magic_of, crate::specs::Super::block_size_of))]
pub fn nx_size(first: &[u8]) -> Option<u32>
    requires { length first.now ≡ 4096 }
    ensures { result ≡ size_of first.now }
{
    let size = u32_at(first, container::BLOCK_SIZE);
    if u32_at(first, container::MAGIC) == container::NX_MAGIC && is_accepted(size) {
        Some(size)
    } else {
        None
    }
}

/// The view of a superblock of any transaction, or the first test that fails: the magic, the block size, the header.
/// The bytes are one block. A header that is encrypted or missing counts as one of another kind.
#[tactic(auto, unfolding(crate::specs::Read::read_of, crate::specs::Super::magic_of, crate::specs::Super::block_size_of))]
pub fn nx_read(bytes: &[u8]) -> Result<NxView<'_>, NxFault>
    requires whole { length bytes.now % 4 ≡ 0 }
    requires long { 4096 ≤ length bytes.now }
    ensures { result ≡ read_of bytes.now }
{
    if u32_at(bytes, container::MAGIC) != container::NX_MAGIC {
        return Err(NxFault::BadMagic);
    }
    let size = u32_at(bytes, container::BLOCK_SIZE);
    if !is_accepted(size) || size as usize != bytes.len() {
        return Err(NxFault::BadBlockSize);
    }
    let expect = Expect {
        kind: kind::CONTAINER,
        subtype: None,
        oid: Some(container::NX_OID),
        max_xid: u64::MAX,
    };
    match sound(bytes, &expect) {
        Ok(header) => Ok(NxView::kept(header, bytes)),
        Err(Bad::Found(fault)) => Err(NxFault::Head(fault)),
        Err(Bad::Unsupported(_)) => Err(NxFault::Head(HeadFault::BadKind)),
    }
}
