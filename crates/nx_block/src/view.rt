// The fields of a superblock.
ghost use Rattle.std.specs.Prelude.{◌≡◌, ◌<◌, ◌≤◌, ◌+◌, length};
ghost use Rattle.obj_base.specs.Sound.{header_of};
ghost use Rattle.nx_block.specs.Read.{read_of};
ghost use Rattle.nx_block.specs.Super.{block_size_of, block_count_of, incompat_of, uuid_of, desc_blocks_of, data_blocks_of, desc_base_of, data_base_of, desc_index_of, desc_len_of, space_oid_of, omap_oid_of, reaper_oid_of, fs_oid_of, blocked_of, eviction_of, jumpstart_of, locker_of, media_locker_of, slots, range_at};
ghost use Rattle.nx_block.specs.OtherFields.{magic_bytes_of, next_oid_of, next_xid_of, desc_next_of, data_next_of, data_index_of, data_len_of};

use apfs_layout::container;
use obj_base::{Header, u32_at, u64_at};
use std::marker::Model;

/// A superblock that passed its tests (Container, `nx_superblock_t`). Contracts see its bytes.
#[derive(Drop)]
pub struct NxView<'a> {
    header: Header,
    bytes: &'a [u8],
}

impl<'a> Model for NxView<'a> {
    ghost use Rattle.std.specs.Prelude.{◌≡◌, List, ℕ, ◌≤◌, length};
    ghost use Rattle.obj_base.specs.Sound.{header_of};

    ghost Value = { List ℕ };

    ghost view = { λ a. a.bytes.now };

    ghost invariant = { λ a. (4096 ≤ length a.bytes.now) × (a.header ≡ header_of a.bytes.now) };
}

// A range of blocks at byte `at`: its first block and its number of blocks (General-Purpose Types, prange_t).
pub(crate) fn range_in(bytes: &[u8], at: usize) -> (u64, u64)
    requires { at + 16 ≤ length bytes.now }
    ensures { result ≡ range_at bytes.now at }
{
    (u64_at(bytes, at), u64_at(bytes, at + 8))
}

#[tactic(auto, unfolding(crate::specs::OtherFields::magic_bytes_of, crate::specs::Super::block_size_of, crate::specs::Super::block_count_of, crate::specs::Super::incompat_of, crate::specs::Super::uuid_of, crate::specs::OtherFields::next_oid_of, crate::specs::OtherFields::next_xid_of, crate::specs::Super::desc_blocks_of, crate::specs::Super::data_blocks_of, crate::specs::Super::desc_base_of, crate::specs::Super::data_base_of, crate::specs::OtherFields::desc_next_of, crate::specs::OtherFields::data_next_of, crate::specs::Super::desc_index_of, crate::specs::Super::desc_len_of, crate::specs::OtherFields::data_index_of, crate::specs::OtherFields::data_len_of, crate::specs::Super::space_oid_of, crate::specs::Super::omap_oid_of, crate::specs::Super::reaper_oid_of, crate::specs::Super::fs_oid_of, crate::specs::Super::blocked_of, crate::specs::Super::eviction_of, crate::specs::Super::jumpstart_of, crate::specs::Super::locker_of, crate::specs::Super::media_locker_of))]
impl<'a> NxView<'a> {
    /// The view that `nx_read` gives of a superblock, by the header that this view has, without its tests.
    pub fn kept(header: Header, bytes: &'a [u8]) -> NxView<'a>
        requires long { 4096 ≤ length bytes.now }
        requires header { header ≡ header_of bytes.now }
        requires read { read_of bytes.now ≡ Ok bytes.now }
        ensures { result ≡ bytes.now }
    {
        NxView { header, bytes }
    }

    /// The header of the object.
    pub fn header(&self) -> Header
        ensures { result ≡ header_of self.now }
    {
        self.header
    }

    /// The magic, `NXSB`.
    pub fn magic(&self) -> [u8; 4]
        ensures { result ≡ magic_bytes_of self.now }
    {
        let mut magic = [0u8; 4];
        magic.copy_from_slice(&self.bytes[container::MAGIC..container::MAGIC + 4]);
        magic
    }

    /// The block size in bytes.
    pub fn block_size(&self) -> u32
        ensures { result ≡ block_size_of self.now }
    {
        u32_at(self.bytes, container::BLOCK_SIZE)
    }

    /// The number of blocks of the container.
    pub fn block_count(&self) -> u64
        ensures { result ≡ block_count_of self.now }
    {
        u64_at(self.bytes, container::BLOCK_COUNT)
    }

    /// The incompatible features (Container, Incompatible Container Feature Flags).
    pub fn incompat(&self) -> u64
        ensures { result ≡ incompat_of self.now }
    {
        u64_at(self.bytes, container::INCOMPAT)
    }

    /// The container's identifier.
    pub fn uuid(&self) -> [u8; 16]
        ensures { result ≡ uuid_of self.now }
    {
        let mut uuid = [0u8; 16];
        uuid.copy_from_slice(&self.bytes[container::UUID..container::UUID + 16]);
        uuid
    }

    /// The next object's id.
    pub fn next_oid(&self) -> u64
        ensures { result ≡ next_oid_of self.now }
    {
        u64_at(self.bytes, container::NEXT_OID)
    }

    /// The next transaction.
    pub fn next_xid(&self) -> u64
        ensures { result ≡ next_xid_of self.now }
    {
        u64_at(self.bytes, container::NEXT_XID)
    }

    /// The blocks of the descriptor area; the highest bit says that it isn't contiguous.
    pub fn desc_blocks(&self) -> u32
        ensures { result ≡ desc_blocks_of self.now }
    {
        u32_at(self.bytes, container::DESC_BLOCKS)
    }

    /// The blocks of the data area; the highest bit says that it isn't contiguous.
    pub fn data_blocks(&self) -> u32
        ensures { result ≡ data_blocks_of self.now }
    {
        u32_at(self.bytes, container::DATA_BLOCKS)
    }

    /// The first block of the descriptor area.
    pub fn desc_base(&self) -> u64
        ensures { result ≡ desc_base_of self.now }
    {
        u64_at(self.bytes, container::DESC_BASE)
    }

    /// The first block of the data area.
    pub fn data_base(&self) -> u64
        ensures { result ≡ data_base_of self.now }
    {
        u64_at(self.bytes, container::DATA_BASE)
    }

    /// The next index of the descriptor area.
    pub fn desc_next(&self) -> u32
        ensures { result ≡ desc_next_of self.now }
    {
        u32_at(self.bytes, container::DESC_NEXT)
    }

    /// The next index of the data area.
    pub fn data_next(&self) -> u32
        ensures { result ≡ data_next_of self.now }
    {
        u32_at(self.bytes, container::DATA_NEXT)
    }

    /// The index of the checkpoint's first block in the descriptor area.
    pub fn desc_index(&self) -> u32
        ensures { result ≡ desc_index_of self.now }
    {
        u32_at(self.bytes, container::DESC_INDEX)
    }

    /// The blocks of the checkpoint in the descriptor area: its maps and its superblock.
    pub fn desc_len(&self) -> u32
        ensures { result ≡ desc_len_of self.now }
    {
        u32_at(self.bytes, container::DESC_LEN)
    }

    /// The index of the checkpoint's first block in the data area.
    pub fn data_index(&self) -> u32
        ensures { result ≡ data_index_of self.now }
    {
        u32_at(self.bytes, container::DATA_INDEX)
    }

    /// The blocks of the checkpoint in the data area.
    pub fn data_len(&self) -> u32
        ensures { result ≡ data_len_of self.now }
    {
        u32_at(self.bytes, container::DATA_LEN)
    }

    /// The ephemeral oid of the space manager.
    pub fn space_oid(&self) -> u64
        ensures { result ≡ space_oid_of self.now }
    {
        u64_at(self.bytes, container::SPACE_OID)
    }

    /// The block of the container's object map.
    pub fn omap_oid(&self) -> u64
        ensures { result ≡ omap_oid_of self.now }
    {
        u64_at(self.bytes, container::OMAP_OID)
    }

    /// The ephemeral oid of the reaper.
    pub fn reaper_oid(&self) -> u64
        ensures { result ≡ reaper_oid_of self.now }
    {
        u64_at(self.bytes, container::REAPER_OID)
    }

    /// The virtual oid of the volume in a slot, 0 where there is none.
    pub fn fs_oid(&self, slot: u32) -> u64
        requires { slot < slots }
        ensures { result ≡ fs_oid_of self.now slot }
    {
        u64_at(self.bytes, container::FS_OID + 8 * slot as usize)
    }

    /// The first block and the number of blocks of the range from which none is given out, while the container shrinks.
    pub fn blocked(&self) -> (u64, u64)
        ensures { result ≡ blocked_of self.now }
    {
        range_in(self.bytes, container::BLOCKED)
    }

    /// The tree of the blocks that are moved while the container shrinks, 0 where there is none.
    pub fn eviction(&self) -> u64
        ensures { result ≡ eviction_of self.now }
    {
        u64_at(self.bytes, container::EVICTION)
    }

    /// The block of the EFI jumpstart, 0 where there is none.
    pub fn jumpstart(&self) -> u64
        ensures { result ≡ jumpstart_of self.now }
    {
        u64_at(self.bytes, container::JUMPSTART)
    }

    /// The first block and the number of blocks of the container's key locker.
    pub fn locker(&self) -> (u64, u64)
        ensures { result ≡ locker_of self.now }
    {
        range_in(self.bytes, container::LOCKER)
    }

    /// The first block and the number of blocks of the media key locker.
    pub fn media_locker(&self) -> (u64, u64)
        ensures { result ≡ media_locker_of self.now }
    {
        range_in(self.bytes, container::MEDIA_LOCKER)
    }
}
