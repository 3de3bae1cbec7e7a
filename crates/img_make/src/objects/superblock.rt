// The container superblock (Container, nx_superblock_t).
ghost use Rattle.std.specs.Prelude.{◌≡◌, ◌≤◌, length};

use crate::geometry::Geometry;
use crate::objects::fields::{Field, put_fields};
use crate::objects::object_map::Placed;
use apfs_layout::container::{
    BLOCK_COUNT, BLOCK_SIZE, DATA_BASE, DATA_BLOCKS, DATA_LEN, DATA_NEXT, DESC_BASE, DESC_BLOCKS,
    DESC_LEN, DESC_NEXT, EPHEMERAL_INFO, FS_OID, INCOMPAT, JUMPSTART, MAGIC, MAX_FILE_SYSTEMS,
    NEXT_OID, NEXT_XID, NX_MAGIC, NX_OID, OMAP_OID, REAPER_OID, SLOTS, SPACE_OID, UUID, VERSION_2,
};
use apfs_layout::kind;
use img_edit::header::{Head, block_with};
use img_edit::{places, put_bytes, put_u64, reseal};
use std::alloc::{AllocError, Global};

// A minimum of 8 blocks of checkpoint data and 4 ephemeral objects a volume, in version 1 of this field.
const EPHEMERAL_VERSION_1: u64 = 0x8_0004_0001;

// A container has room for a volume for each so many bytes, and at most for 100.
const BYTES_OF_A_VOLUME: usize = 0x2000_0000;

/// The identifier of each image's container.
const CONTAINER_UUID: [u8; 16] = [
    0x00, 0x11, 0x22, 0x33, 0x44, 0x55, 0x66, 0x77, 0x88, 0x99, 0xaa, 0xbb, 0xcc, 0xdd, 0xee, 0xff,
];

/// What a superblock says beyond what all images have in common.
#[derive(Clone, Copy)]
pub(crate) struct Container<'a> {
    pub blocks: u64,
    pub xid: u64,
    pub next_oid: u64,
    /// How many blocks of the data area are in use.
    pub data_len: usize,
    /// The block of the jumpstart, 0 where there is none.
    pub jumpstart: u64,
    /// The volumes by slot.
    pub volumes: &'a [Placed],
}

// How many volumes the container may have.
fn most_volumes(geometry: Geometry, container: &Container<'_>) -> u32 {
    let by_size = container
        .blocks
        .div_ceil((BYTES_OF_A_VOLUME / geometry.size) as u64);
    let least = container.volumes.len() as u64;
    by_size.max(least).max(1).min(SLOTS as u64) as u32
}

// The descriptor area and the data area, of which the first blocks are in use.
fn put_areas(block: &mut [u8], data_len: usize) {
    let used = (data_len % 0x1_0000_0000) as u32;
    let fields = [
        Field::U32(DESC_BLOCKS, places::DESC_BLOCKS),
        Field::U32(DATA_BLOCKS, places::DATA_BLOCKS),
        Field::U64(DESC_BASE, places::DESC_BASE),
        Field::U64(DATA_BASE, places::DATA_BASE),
        Field::U32(DESC_NEXT, 2),
        Field::U32(DATA_NEXT, used),
        Field::U32(DESC_LEN, 2),
        Field::U32(DATA_LEN, used),
    ];
    put_fields(block, &fields);
}

// The volumes that the superblock names.
fn put_volumes(block: &mut [u8], volumes: &[Placed])
    requires { 4096 ≤ length block.old }
{
    for (slot, volume) in volumes.iter().enumerate() {
        if slot < SLOTS {
            put_u64(block, FS_OID + 8 * slot, volume.oid);
        }
    }
}

// What the superblock says after its header.
fn put_container(block: &mut [u8], geometry: Geometry, container: &Container<'_>)
    requires { 4096 ≤ length block.old }
{
    let fields = [
        Field::U32(MAGIC, NX_MAGIC),
        Field::U32(BLOCK_SIZE, geometry.size as u32),
        Field::U64(BLOCK_COUNT, container.blocks),
        Field::U64(INCOMPAT, VERSION_2),
        Field::U64(NEXT_OID, container.next_oid),
        Field::U64(NEXT_XID, container.xid.saturating_add(1)),
        Field::U64(SPACE_OID, places::SPACE_OID),
        Field::U64(OMAP_OID, places::CONTAINER_MAP as u64),
        Field::U64(REAPER_OID, places::REAPER_OID),
        Field::U64(JUMPSTART, container.jumpstart),
        Field::U32(MAX_FILE_SYSTEMS, most_volumes(geometry, container)),
        Field::U64(EPHEMERAL_INFO, EPHEMERAL_VERSION_1),
    ];
    put_fields(block, &fields);
    put_areas(block, container.data_len);
    put_bytes(block, UUID, &CONTAINER_UUID);
    put_volumes(block, container.volumes);
}

/// The container superblock.
pub(crate) fn superblock(
    alloc: Global,
    geometry: Geometry,
    container: &Container<'_>,
) -> Result<Vec<u8>, AllocError> {
    let head = Head::ephemeral(NX_OID, container.xid, kind::CONTAINER);
    let mut block = block_with(alloc, geometry.size, &head)?;
    put_container(&mut block, geometry, container);
    reseal(&mut block);
    Ok(block)
}
