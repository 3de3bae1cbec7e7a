// The space manager (Space Manager, spaceman_phys_t).
ghost use Rattle.std.specs.Prelude.{◌≡◌, ◌≤◌, length};

use super::chunk_info::put_addresses;
use crate::geometry::Geometry;
use crate::objects::fields::{Field, put_fields};
use apfs_layout::kind;
use apfs_layout::space_manager::{
    BLOCK_SIZE, BLOCKS_PER_CHUNK, CHUNKS_PER_CIB, CIBS_PER_CAB, MAIN_ADDRESSES, MAIN_BLOCKS,
    MAIN_CABS, MAIN_CHUNKS, MAIN_CIBS, MAIN_FREE, MAIN_QUEUE_COUNT, MAIN_QUEUE_LIMIT,
    MAIN_QUEUE_OLDEST, MAIN_QUEUE_TREE, POOL_BASE, POOL_BITMAP_SIZE, POOL_BLOCKS, POOL_QUEUE_LIMIT,
    POOL_QUEUE_TREE, RING_BASE, RING_BITMAPS, RING_BLOCKS, RING_FREE_HEAD, RING_FREE_NEXT,
    RING_FREE_TAIL, RING_INDEXES, RING_XIDS, SECOND_ADDRESSES,
};
use img_edit::header::{Head, block_with};
use img_edit::{places, put_u16, put_u32, reseal};
use img_plan::QueueEntry;
use std::alloc::{AllocError, Global};

// After the fields, where the fields say: the index of the current bitmap, the address of the first block of the chunks, the
// transaction of the bitmap, the order of the ring's free blocks, no address of a second device, and all addresses where
// there are several.
const RING_INDEX: usize = 2520;

const ONE_ADDRESS: usize = 2528;

const RING_XID: usize = 2536;

const RING_NEXT: usize = 2544;

const NO_ADDRESSES: usize = 2576;

const ADDRESSES: usize = 2584;

// No block of the ring follows.
const NO_INDEX: u16 = 0xffff;

/// What stands in the pool, from its first block on: chunk-info blocks, the bitmaps of chunks in use, address blocks.
#[derive(Clone, Copy)]
pub(crate) struct PoolPlan {
    pub chunks: usize,
    pub cibs: usize,
    pub bitmaps: usize,
    pub cabs: usize,
}

impl PoolPlan {
    /// The first address block, where there is one.
    pub(crate) fn first_cab(&self) -> usize {
        places::POOL_BASE
            .saturating_add(self.cibs)
            .saturating_add(self.bitmaps)
    }

    /// How many blocks of the pool are in use.
    pub(crate) fn in_use(&self) -> usize {
        self.cibs
            .saturating_add(self.bitmaps)
            .saturating_add(self.cabs)
    }

    // The first of the blocks that the space manager names, and their number.
    fn named(&self) -> (usize, usize) {
        if self.cabs == 0 {
            (places::POOL_BASE, self.cibs)
        } else {
            (self.first_cab(), self.cabs)
        }
    }
}

/// How the blocks of a container are used.
#[derive(Clone, Copy)]
pub(crate) struct Space<'a> {
    pub xid: u64,
    pub blocks: usize,
    pub free: usize,
    pub pool_blocks: usize,
    pub pool: PoolPlan,
    pub queued: &'a [QueueEntry],
}

// The low 32 bits of a number.
fn narrow(number: usize) -> u32 {
    (number % 0x1_0000_0000) as u32
}

// The sizes of a chunk and of its kin, and the main device.
fn put_device(block: &mut [u8], geometry: Geometry, space: &Space<'_>) {
    let fields = [
        Field::U32(BLOCK_SIZE, geometry.size as u32),
        Field::U32(BLOCKS_PER_CHUNK, geometry.chunk() as u32),
        Field::U32(CHUNKS_PER_CIB, narrow(geometry.chunks_per_cib)),
        Field::U32(CIBS_PER_CAB, narrow(geometry.cibs_per_cab)),
        Field::U64(MAIN_BLOCKS, space.blocks as u64),
        Field::U64(MAIN_CHUNKS, space.pool.chunks as u64),
        Field::U32(MAIN_CIBS, narrow(space.pool.cibs)),
        Field::U32(MAIN_CABS, narrow(space.pool.cabs)),
        Field::U64(MAIN_FREE, space.free as u64),
        Field::U32(SECOND_ADDRESSES, NO_ADDRESSES as u32),
    ];
    put_fields(block, &fields);
}

// The addresses of the blocks that lead to the chunks.
fn put_names(block: &mut [u8], pool: &PoolPlan)
    requires { 4096 ≤ length block.old }
{
    let (first, count) = pool.named();
    let place = if count == 1 { ONE_ADDRESS } else { ADDRESSES };
    put_u32(block, MAIN_ADDRESSES, place as u32);
    put_addresses(&mut block[place..], first, count);
}

// The pool with its ring.
fn put_pool(block: &mut [u8], space: &Space<'_>) {
    let fields = [
        Field::U32(RING_BITMAPS, places::RING_BLOCKS),
        Field::U64(POOL_BLOCKS, space.pool_blocks as u64),
        Field::U32(POOL_BITMAP_SIZE, 1),
        Field::U32(RING_BLOCKS, places::RING_BLOCKS),
        Field::U64(RING_BASE, places::RING_BASE as u64),
        Field::U64(POOL_BASE, places::POOL_BASE as u64),
    ];
    put_fields(block, &fields);
}

// The free queues: their trees, and what the main one holds.
fn put_queues(block: &mut [u8], queued: &[QueueEntry]) {
    let mut count = 0u64;
    for entry in queued.iter() {
        count = count.saturating_add(entry.length);
    }
    let oldest = match queued.first() {
        Some(entry) => entry.xid,
        None => 0,
    };
    let fields = [
        Field::U64(POOL_QUEUE_TREE, places::POOL_QUEUE_OID),
        Field::U16(POOL_QUEUE_LIMIT, 1),
        Field::U64(MAIN_QUEUE_TREE, places::MAIN_QUEUE_OID),
        Field::U16(MAIN_QUEUE_LIMIT, 8),
        Field::U64(MAIN_QUEUE_COUNT, count),
        Field::U64(MAIN_QUEUE_OLDEST, oldest),
    ];
    put_fields(block, &fields);
}

// The ring of the pool's bitmaps: its first block is the current one, the others are free and follow one another.
fn put_ring(block: &mut [u8], xid: u64)
    requires { 4096 ≤ length block.old }
{
    let fields = [
        Field::U16(RING_FREE_HEAD, 1),
        Field::U16(RING_FREE_TAIL, 15),
        Field::U32(RING_XIDS, RING_XID as u32),
        Field::U32(RING_INDEXES, RING_INDEX as u32),
        Field::U32(RING_FREE_NEXT, RING_NEXT as u32),
        Field::U64(RING_XID, xid),
        Field::U16(RING_NEXT, NO_INDEX),
        Field::U16(RING_NEXT + 30, NO_INDEX),
    ];
    put_fields(block, &fields);
    for i in 1..15usize {
        put_u16(block, RING_NEXT + 2 * i, (i + 1) as u16);
    }
}

/// The space manager.
pub(crate) fn space_manager(
    alloc: Global,
    geometry: Geometry,
    space: &Space<'_>,
) -> Result<Vec<u8>, AllocError> {
    let head = Head::ephemeral(places::SPACE_OID, space.xid, kind::SPACE_MANAGER);
    let mut block = block_with(alloc, geometry.size, &head)?;
    put_device(&mut block, geometry, space);
    put_names(&mut block, &space.pool);
    put_pool(&mut block, space);
    put_queues(&mut block, space.queued);
    put_ring(&mut block, space.xid);
    reseal(&mut block);
    Ok(block)
}
