// The block size of an image, what follows from it, and how its chunks are grouped.
ghost use Rattle.std.specs.Prelude.{◌≡◌, ◌≤◌, ◌-◌, ◌*◌, ◌/◌, ◌%◌, IsTrue};
ghost use Rattle.obj_base.specs.BlockSize.{is_accepted};

use apfs_layout::chunk_info::{ADDRESS_LEN, CAB_ADDRESSES, CIB_ENTRIES, ENTRY_LEN};

/// How many chunks a chunk-info block has, and how many of these an address block has.
#[derive(Clone, Copy, PartialEq, Eq)]
pub struct Groups {
    /// The most chunks of a chunk-info block.
    pub chunks: u32,
    /// The most chunk-info blocks of an address block.
    pub cibs: u32,
}

/// The block size of an image, and how its chunks are grouped.
#[derive(Clone, Copy)]
pub(crate) struct Geometry {
    /// The bytes of a block.
    pub size: usize,
    /// The most chunks of a chunk-info block.
    pub chunks_per_cib: usize,
    /// The most chunk-info blocks of an address block.
    pub cibs_per_cab: usize,
    /// Whether address blocks name the chunk-info blocks, and not the space manager.
    pub has_cabs: bool,
    ghost least: { 4096 ≤ size },
    ghost most: { size ≤ 65536 },
    ghost words: { size % 4 ≡ 0 },
    ghost some_chunks: { 1 ≤ chunks_per_cib },
    ghost some_cibs: { 1 ≤ cibs_per_cab },
}

impl Geometry {
    /// The geometry of a block size, with as many chunks and chunk-info blocks to a block as there is room for.
    pub(crate) fn new(block_size: u32) -> Geometry
        requires { IsTrue (is_accepted block_size) }
        ensures { result.size ≡ block_size }
    {
        let size = block_size as usize;
        Geometry {
            size,
            chunks_per_cib: (size - CIB_ENTRIES) / ENTRY_LEN,
            cibs_per_cab: (size - CAB_ADDRESSES) / ADDRESS_LEN,
            has_cabs: false,
        }
    }

    /// Blocks of 4,096 bytes, with address blocks and with chunks in groups.
    pub(crate) fn grouped(groups: Groups) -> Geometry
        requires chunks { 1 ≤ groups.chunks }
        requires cibs { 1 ≤ groups.cibs }
        ensures { result.size ≡ 4096 }
    {
        Geometry {
            size: 4096,
            chunks_per_cib: groups.chunks as usize,
            cibs_per_cab: groups.cibs as usize,
            has_cabs: true,
        }
    }

    /// The blocks of a chunk, which are the bits of a block.
    pub(crate) fn chunk(&self) -> usize
        ensures { result ≡ 8 * self.now.size }
    {
        8 * self.size
    }
}
