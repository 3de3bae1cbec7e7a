// Chunk-info blocks (Space Manager, chunk_info_block_t and chunk_info_t), the blocks of their addresses
// (cib_addr_block_t), and bitmaps.
ghost use Rattle.std.specs.Prelude.{◌≡◌, ◌≤◌, length};

use crate::geometry::Geometry;
use crate::objects::fields::{Field, put_fields};
use apfs_layout::chunk_info::{
    ADDRESS_LEN, CAB_ADDRESSES, CAB_COUNT, CAB_INDEX, CHUNK_ADDRESS, CHUNK_BITMAP, CHUNK_BLOCKS,
    CHUNK_FREE, CHUNK_XID, CIB_COUNT, CIB_ENTRIES, CIB_INDEX, ENTRY_LEN,
};
use apfs_layout::kind;
use img_edit::header::{Head, block_with};
use img_edit::{put_u64, reseal};
use std::alloc::{AllocError, Global};

/// A chunk of blocks.
#[derive(Clone, Copy)]
pub(crate) struct Chunk {
    pub blocks: usize,
    pub free: usize,
    /// The block of its bitmap, 0 where all its blocks are free.
    pub bitmap: usize,
}

// The entry of the chunk that starts at a block, in the bytes that are its own.
fn put_chunk(part: &mut [u8], first: usize, chunk: &Chunk, xid: u64) {
    let fields = [
        Field::U64(CHUNK_XID, xid),
        Field::U64(CHUNK_ADDRESS, first as u64),
        Field::U32(CHUNK_BLOCKS, (chunk.blocks % 0x1_0000_0000) as u32),
        Field::U32(CHUNK_FREE, (chunk.free % 0x1_0000_0000) as u32),
        Field::U64(CHUNK_BITMAP, chunk.bitmap as u64),
    ];
    put_fields(part, &fields);
}

// The entries of the chunks from a block on, those that the chunk-info block has room for.
fn put_chunks(block: &mut [u8], start: usize, chunks: &[Chunk], xid: u64)
    requires { 40 ≤ length block.old }
{
    let mut first = start;
    let parts = block[CIB_ENTRIES..].chunks_exact_mut(ENTRY_LEN);
    for (part, chunk) in parts.zip(chunks.iter()) {
        put_chunk(part, first, chunk, xid);
        first = first.saturating_add(chunk.blocks);
    }
}

/// Where a block of the pool stands, and its place among those of its kind.
#[derive(Clone, Copy)]
pub(crate) struct Spot {
    pub block: usize,
    pub index: usize,
}

/// A chunk-info block, whose chunks start at a block.
pub(crate) fn chunk_info(
    alloc: Global,
    geometry: Geometry,
    xid: u64,
    spot: Spot,
    start: usize,
    chunks: &[Chunk],
) -> Result<Vec<u8>, AllocError> {
    let head = Head::physical(spot.block, xid, kind::CHUNK_INFO);
    let mut block = block_with(alloc, geometry.size, &head)?;
    let fields = [
        Field::U32(CIB_INDEX, (spot.index % 0x1_0000_0000) as u32),
        Field::U32(CIB_COUNT, (chunks.len() % 0x1_0000_0000) as u32),
    ];
    put_fields(&mut block, &fields);
    put_chunks(&mut block, start, chunks, xid);
    reseal(&mut block);
    Ok(block)
}

/// Addresses of blocks that follow one another, those that there is room for.
pub(crate) fn put_addresses(part: &mut [u8], first: usize, count: usize) {
    for i in 0..count.min(part.len() / ADDRESS_LEN) {
        put_u64(part, ADDRESS_LEN * i, first.saturating_add(i) as u64);
    }
}

/// An address block of chunk-info blocks that follow one another.
pub(crate) fn address_block(
    alloc: Global,
    geometry: Geometry,
    xid: u64,
    spot: Spot,
    first: usize,
    count: usize,
) -> Result<Vec<u8>, AllocError> {
    let head = Head::physical(spot.block, xid, kind::CHUNK_ADDRESSES);
    let mut block = block_with(alloc, geometry.size, &head)?;
    let fields = [
        Field::U32(CAB_INDEX, (spot.index % 0x1_0000_0000) as u32),
        Field::U32(CAB_COUNT, (count % 0x1_0000_0000) as u32),
    ];
    put_fields(&mut block, &fields);
    put_addresses(&mut block[CAB_ADDRESSES..], first, count);
    reseal(&mut block);
    Ok(block)
}

// The bits of the blocks that are used, those that the block has room for.
fn mark_bits(block: &mut [u8], used: &[bool]) {
    for (i, is_used) in used.iter().enumerate() {
        if *is_used && i / 8 < block.len() {
            block[i / 8] |= 1 << (i % 8);
        }
    }
}

/// The bitmap of blocks, lowest bit first: 1 where a block is used.
pub(crate) fn bitmap(
    alloc: Global,
    geometry: Geometry,
    used: &[bool],
) -> Result<Vec<u8>, AllocError> {
    let mut block = vec![in alloc; 0u8; geometry.size]?;
    mark_bits(&mut block, used);
    Ok(block)
}
