// The blocks of a new container.
ghost use Rattle.std.specs.Prelude.{◌≡◌, ◌++◌, OnOk};
ghost use Rattle.img_format.specs.Valid.{IsValid};
ghost use Rattle.img_format.specs.Blocks as is;
ghost use Rattle.img_format.specs.Fresh.{block};

use crate::field::Value::{Bytes, U16, U32, U64};
use crate::field::{BLOCK, add_zeros};
use crate::files::add_files;
use crate::object::{EPHEMERAL, Head, PHYSICAL, VIRTUAL, add_object, add_plain};
use crate::places::{
    CHECKPOINT_MAP, CHUNK_BITMAP, CHUNK_INFO, CONTAINER_MAP, CONTAINER_TREE, EXTENTS, FILES,
    FILES_ID, FIRST_COPY, MAIN_QUEUE, MAIN_QUEUE_ID, MANAGER_ID, NEXT_ID, POOL_QUEUE,
    POOL_QUEUE_ID, REAPER, REAPER_ID, RING, SNAPSHOTS, SPACE_MANAGER, SUPERBLOCK, USED, VOLUME,
    VOLUME_ID, VOLUME_MAP, VOLUME_TREE, XID,
};
use crate::roots::{add_extents, add_main_queue, add_map_tree, add_pool_queue, add_snapshots};
use crate::spec::Spec;
use apfs_layout::{
    checkpoint_map as map, chunk_info as info, container, kind, object_map, space_manager as space,
    volume,
};
use std::alloc::{AllocError, Global};

// The blocks of the areas of checkpoints, and how many of each the one checkpoint has.
const DESC_BLOCKS: u32 = 8;

const DATA_BLOCKS: u32 = 16;

const DESC_LEN: u32 = 2;

const DATA_LEN: u32 = 4;

// The superblock.
fn add_superblock(front: &mut Vec<u8>, alloc: Global, spec: &Spec) -> Result<(), AllocError>
    requires { IsValid spec.now }
    ensures { OnOk result (front.new.items ≡ front.old.items ++ is.super spec.now) }
{
    let fields = [
        (container::MAGIC, U32(container::NX_MAGIC)),
        (container::BLOCK_SIZE, U32(BLOCK as u32)),
        (container::BLOCK_COUNT, U64(spec.blocks)),
        (container::INCOMPAT, U64(container::VERSION_2)),
        (container::UUID, Bytes(&spec.container)),
        (container::NEXT_OID, U64(NEXT_ID)),
        (container::NEXT_XID, U64(XID + 1)),
        (container::DESC_BLOCKS, U32(DESC_BLOCKS)),
        (container::DATA_BLOCKS, U32(DATA_BLOCKS)),
        (container::DESC_BASE, U64(CHECKPOINT_MAP)),
        (container::DATA_BASE, U64(SPACE_MANAGER)),
        (container::DESC_NEXT, U32(DESC_LEN)),
        (container::DATA_NEXT, U32(DATA_LEN)),
        (container::DESC_INDEX, U32(0)),
        (container::DESC_LEN, U32(DESC_LEN)),
        (container::DATA_INDEX, U32(0)),
        (container::DATA_LEN, U32(DATA_LEN)),
        (container::SPACE_OID, U64(MANAGER_ID)),
        (container::OMAP_OID, U64(CONTAINER_MAP)),
        (container::REAPER_OID, U64(REAPER_ID)),
        (container::FS_OID, U64(VOLUME_ID)),
    ];
    let head = Head {
        oid: container::NX_OID,
        storage: EPHEMERAL,
        kind: kind::CONTAINER,
        subtype: 0,
    };
    add_object(front, alloc, &head, &fields)
}

// Where the four mappings of the checkpoint map begin.
const FIRST: usize = map::MAPPINGS;

const SECOND: usize = FIRST + map::MAPPING_LEN;

const THIRD: usize = SECOND + map::MAPPING_LEN;

const FOURTH: usize = THIRD + map::MAPPING_LEN;

// The checkpoint map, with four mappings of one block each.
fn add_checkpoint_map(front: &mut Vec<u8>, alloc: Global) -> Result<(), AllocError>
    ensures { OnOk result (front.new.items ≡ front.old.items ++ is.checkpoint_map) }
{
    let fields = [
        (map::COUNT, U32(4)),
        (
            FIRST + map::MAPPING_TYPE,
            U32(EPHEMERAL + kind::SPACE_MANAGER as u32),
        ),
        (FIRST + map::MAPPING_SUBTYPE, U32(0)),
        (FIRST + map::MAPPING_SIZE, U32(BLOCK as u32)),
        (FIRST + map::MAPPING_OID, U64(MANAGER_ID)),
        (FIRST + map::MAPPING_PADDR, U64(SPACE_MANAGER)),
        (
            SECOND + map::MAPPING_TYPE,
            U32(EPHEMERAL + kind::REAPER as u32),
        ),
        (SECOND + map::MAPPING_SUBTYPE, U32(0)),
        (SECOND + map::MAPPING_SIZE, U32(BLOCK as u32)),
        (SECOND + map::MAPPING_OID, U64(REAPER_ID)),
        (SECOND + map::MAPPING_PADDR, U64(REAPER)),
        (
            THIRD + map::MAPPING_TYPE,
            U32(EPHEMERAL + kind::TREE_ROOT as u32),
        ),
        (THIRD + map::MAPPING_SUBTYPE, U32(kind::FREE_QUEUE as u32)),
        (THIRD + map::MAPPING_SIZE, U32(BLOCK as u32)),
        (THIRD + map::MAPPING_OID, U64(POOL_QUEUE_ID)),
        (THIRD + map::MAPPING_PADDR, U64(POOL_QUEUE)),
        (
            FOURTH + map::MAPPING_TYPE,
            U32(EPHEMERAL + kind::TREE_ROOT as u32),
        ),
        (FOURTH + map::MAPPING_SUBTYPE, U32(kind::FREE_QUEUE as u32)),
        (FOURTH + map::MAPPING_SIZE, U32(BLOCK as u32)),
        (FOURTH + map::MAPPING_OID, U64(MAIN_QUEUE_ID)),
        (FOURTH + map::MAPPING_PADDR, U64(MAIN_QUEUE)),
    ];
    let head = Head {
        oid: CHECKPOINT_MAP,
        storage: PHYSICAL,
        kind: kind::CHECKPOINT_MAP,
        subtype: 0,
    };
    add_object(front, alloc, &head, &fields)
}

// The blocks of a chunk, and what the space manager says of its addresses; and the pool, its ring, and where the manager has the
// address of the chunk-info block and the index of the pool's bitmap.
const CHUNK_BLOCKS: u32 = 32_768;

const CIB_CHUNKS: u32 = 126;

const CAB_CIBS: u32 = 507;

const POOL_BLOCKS: u64 = 8;

const RING_BLOCKS: u32 = 16;

const INDEX: usize = 2520;

const ADDRESS: usize = 2528;

// The space manager.
fn add_space_manager(front: &mut Vec<u8>, alloc: Global, spec: &Spec) -> Result<(), AllocError>
    requires { IsValid spec.now }
    ensures { OnOk result (front.new.items ≡ front.old.items ++ is.space_manager spec.now) }
{
    let fields = [
        (space::BLOCK_SIZE, U32(BLOCK as u32)),
        (space::BLOCKS_PER_CHUNK, U32(CHUNK_BLOCKS)),
        (space::CHUNKS_PER_CIB, U32(CIB_CHUNKS)),
        (space::CIBS_PER_CAB, U32(CAB_CIBS)),
        (space::MAIN_BLOCKS, U64(spec.blocks)),
        (space::MAIN_CHUNKS, U64(1)),
        (space::MAIN_CIBS, U32(1)),
        (space::MAIN_CABS, U32(0)),
        (space::MAIN_FREE, U64(spec.blocks - USED)),
        (space::MAIN_ADDRESSES, U32(ADDRESS as u32)),
        (space::POOL_BLOCKS, U64(POOL_BLOCKS)),
        (space::POOL_BITMAP_SIZE, U32(1)),
        (space::RING_BLOCKS, U32(RING_BLOCKS)),
        (space::RING_BASE, U64(RING)),
        (space::POOL_BASE, U64(CHUNK_INFO)),
        (space::POOL_QUEUE_TREE, U64(POOL_QUEUE_ID)),
        (space::MAIN_QUEUE_TREE, U64(MAIN_QUEUE_ID)),
        (space::RING_INDEXES, U32(INDEX as u32)),
        (INDEX, U16(0)),
        (ADDRESS, U64(CHUNK_INFO)),
    ];
    let head = Head {
        oid: MANAGER_ID,
        storage: EPHEMERAL,
        kind: kind::SPACE_MANAGER,
        subtype: 0,
    };
    add_object(front, alloc, &head, &fields)
}

// The reaper, which has nothing to reap.
fn add_reaper(front: &mut Vec<u8>, alloc: Global) -> Result<(), AllocError>
    ensures { OnOk result (front.new.items ≡ front.old.items ++ is.reaper) }
{
    let head = Head {
        oid: REAPER_ID,
        storage: EPHEMERAL,
        kind: kind::REAPER,
        subtype: 0,
    };
    add_object(front, alloc, &head, &[])
}

// An object map in a block, with the root of its tree in another.
fn add_object_map(
    front: &mut Vec<u8>,
    alloc: Global,
    block: u64,
    tree: u64,
) -> Result<(), AllocError>
    ensures { OnOk result (front.new.items ≡ front.old.items ++ is.object_map block tree) }
{
    let fields = [
        (
            object_map::TREE_TYPE,
            U32(PHYSICAL + kind::TREE_ROOT as u32),
        ),
        (
            object_map::SNAP_TREE_TYPE,
            U32(PHYSICAL + kind::TREE_ROOT as u32),
        ),
        (object_map::TREE, U64(tree)),
    ];
    let head = Head {
        oid: block,
        storage: PHYSICAL,
        kind: kind::OBJECT_MAP,
        subtype: 0,
    };
    add_object(front, alloc, &head, &fields)
}

// The bitmap of the pool: the chunk-info block and the bitmap of the chunk are used.
fn add_pool_bitmap(front: &mut Vec<u8>, alloc: Global) -> Result<(), AllocError>
    ensures { OnOk result (front.new.items ≡ front.old.items ++ is.pool_bitmap) }
{
    add_plain(front, alloc, &[(0, Bytes(&[0x03]))])
}

// The chunk-info block, with the one chunk.
fn add_chunk_info(front: &mut Vec<u8>, alloc: Global, spec: &Spec) -> Result<(), AllocError>
    requires { IsValid spec.now }
    ensures { OnOk result (front.new.items ≡ front.old.items ++ is.chunk_info spec.now) }
{
    let fields = [
        (info::CIB_INDEX, U32(0)),
        (info::CIB_COUNT, U32(1)),
        (info::CIB_ENTRIES + info::CHUNK_ADDRESS, U64(0)),
        (
            info::CIB_ENTRIES + info::CHUNK_BLOCKS,
            U32(spec.blocks as u32),
        ),
        (
            info::CIB_ENTRIES + info::CHUNK_FREE,
            U32((spec.blocks - USED) as u32),
        ),
        (info::CIB_ENTRIES + info::CHUNK_BITMAP, U64(CHUNK_BITMAP)),
    ];
    let head = Head {
        oid: CHUNK_INFO,
        storage: PHYSICAL,
        kind: kind::CHUNK_INFO,
        subtype: 0,
    };
    add_object(front, alloc, &head, &fields)
}

// The bitmap of the chunk: the first 57 blocks are used.
fn add_chunk_bitmap(front: &mut Vec<u8>, alloc: Global) -> Result<(), AllocError>
    ensures { OnOk result (front.new.items ≡ front.old.items ++ is.chunk_bitmap) }
{
    add_plain(
        front,
        alloc,
        &[(0, Bytes(&[0xff, 0xff, 0xff, 0xff, 0xff, 0xff, 0xff, 0x01]))],
    )
}

// The superblock of the volume.
fn add_volume(front: &mut Vec<u8>, alloc: Global, spec: &Spec) -> Result<(), AllocError>
    requires { IsValid spec.now }
    ensures { OnOk result (front.new.items ≡ front.old.items ++ is.volume spec.now) }
{
    let fields = [
        (volume::MAGIC, U32(volume::VOLUME_MAGIC)),
        (volume::INCOMPAT, U64(volume::CASE_INSENSITIVE)),
        (volume::ROOT_TYPE, U32(kind::TREE_ROOT as u32)),
        (volume::EXTENTS_TYPE, U32(PHYSICAL + kind::TREE_ROOT as u32)),
        (volume::SNAPS_TYPE, U32(PHYSICAL + kind::TREE_ROOT as u32)),
        (volume::OMAP_OID, U64(VOLUME_MAP)),
        (volume::ROOT_OID, U64(FILES_ID)),
        (volume::EXTENTS_ROOT, U64(EXTENTS)),
        (volume::SNAPS_ROOT, U64(SNAPSHOTS)),
        (volume::UUID, Bytes(&spec.volume)),
        (volume::FS_FLAGS, U64(volume::UNENCRYPTED)),
        (volume::NAME, Bytes(spec.name.as_slice())),
    ];
    let head = Head {
        oid: VOLUME_ID,
        storage: VIRTUAL,
        kind: kind::VOLUME,
        subtype: 0,
    };
    add_object(front, alloc, &head, &fields)
}

/// Adds block `k` of a new container.
pub(crate) fn add_block(
    front: &mut Vec<u8>,
    alloc: Global,
    spec: &Spec,
    k: u64,
) -> Result<(), AllocError>
    requires { IsValid spec.now }
    ensures { OnOk result (front.new.items ≡ front.old.items ++ block spec.now k) }
{
    match k {
        FIRST_COPY => add_superblock(front, alloc, spec),
        CHECKPOINT_MAP => add_checkpoint_map(front, alloc),
        SUPERBLOCK => add_superblock(front, alloc, spec),
        SPACE_MANAGER => add_space_manager(front, alloc, spec),
        REAPER => add_reaper(front, alloc),
        POOL_QUEUE => add_pool_queue(front, alloc),
        MAIN_QUEUE => add_main_queue(front, alloc),
        CONTAINER_MAP => add_object_map(front, alloc, CONTAINER_MAP, CONTAINER_TREE),
        CONTAINER_TREE => add_map_tree(front, alloc, CONTAINER_TREE, VOLUME_ID, VOLUME),
        RING => add_pool_bitmap(front, alloc),
        CHUNK_INFO => add_chunk_info(front, alloc, spec),
        CHUNK_BITMAP => add_chunk_bitmap(front, alloc),
        VOLUME => add_volume(front, alloc, spec),
        VOLUME_MAP => add_object_map(front, alloc, VOLUME_MAP, VOLUME_TREE),
        VOLUME_TREE => add_map_tree(front, alloc, VOLUME_TREE, FILES_ID, FILES),
        FILES => add_files(front, alloc),
        EXTENTS => add_extents(front, alloc),
        SNAPSHOTS => add_snapshots(front, alloc),
        _ => add_zeros(front, BLOCK),
    }
}
