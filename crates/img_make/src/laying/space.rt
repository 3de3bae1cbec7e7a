// The space manager, the chunks and the pool, once all other blocks are placed.
ghost use Rattle.std.specs.Prelude.{◌≡◌, ◌<◌, length};
ghost use Rattle.img_make.specs.Images.{HasGrown};

use crate::geometry::Geometry;
use crate::laying::image::Image;
use crate::objects::chunk_info::{Chunk, Spot, address_block, bitmap, chunk_info};
use crate::objects::space_manager::{PoolPlan, Space, space_manager};
use img_edit::places::{POOL_BASE, RING_BASE, SPACE_MANAGER};
use img_plan::QueueEntry;
use std::alloc::{AllocError, Global};

// How many blocks are free.
fn free_count(used: &[bool]) -> usize {
    used.iter().filter(|is_used| !**is_used).count()
}

// How many chunk-info blocks a container has.
fn cibs_of(geometry: Geometry, blocks: usize) -> usize {
    blocks
        .div_ceil(geometry.chunk())
        .div_ceil(geometry.chunks_per_cib)
}

/// The chunks of a container, and where their bitmaps stand in the pool: after the chunk-info blocks, one for each chunk
/// in use.
pub(crate) fn chunks_of(
    alloc: Global,
    geometry: Geometry,
    used: &[bool],
) -> Result<Vec<Chunk>, AllocError> {
    let mut chunks = Vec::new(alloc);
    let mut bitmap = POOL_BASE.saturating_add(cibs_of(geometry, used.len()));
    for part in used.chunks(geometry.chunk()) {
        let free = free_count(part);
        let in_use = free < part.len();
        chunks.push(Chunk {
            blocks: part.len(),
            free,
            bitmap: if in_use { bitmap } else { 0 },
        })?;
        if in_use {
            bitmap = bitmap.saturating_add(1);
        }
    }
    Ok(chunks)
}

/// What stands in the pool of a container with these chunks.
pub(crate) fn pool_of(geometry: Geometry, chunks: &[Chunk]) -> PoolPlan {
    let cibs = chunks.len().div_ceil(geometry.chunks_per_cib);
    PoolPlan {
        chunks: chunks.len(),
        cibs,
        bitmaps: chunks.iter().filter(|chunk| chunk.bitmap != 0).count(),
        cabs: if geometry.has_cabs {
            cibs.div_ceil(geometry.cibs_per_cab)
        } else {
            0
        },
    }
}

// The chunk-info blocks.
fn put_cibs(alloc: Global, image: &mut Image, xid: u64, chunks: &[Chunk]) -> Result<(), AllocError>
    ensures { HasGrown image.old image.new }
{
    let geometry = image.geometry;
    let most = geometry.chunks_per_cib;
    for (index, group) in chunks.chunks(most).enumerate() {
        let block = POOL_BASE.saturating_add(index);
        let start = index.saturating_mul(most).saturating_mul(geometry.chunk());
        let spot = Spot { block, index };
        image.store(block, chunk_info(alloc, geometry, xid, spot, start, group))?;
    }
    Ok(())
}

// The address blocks, each of which names the chunk-info blocks after those of the one before it.
fn put_cabs(alloc: Global, image: &mut Image, xid: u64, pool: &PoolPlan) -> Result<(), AllocError>
    ensures { HasGrown image.old image.new }
{
    let geometry = image.geometry;
    let most = geometry.cibs_per_cab;
    for index in 0..pool.cabs {
        let named = index.saturating_mul(most);
        let count = pool.cibs.saturating_sub(named).min(most);
        let block = pool.first_cab().saturating_add(index);
        let first = POOL_BASE.saturating_add(named);
        let spot = Spot { block, index };
        image.store(
            block,
            address_block(alloc, geometry, xid, spot, first, count),
        )?;
    }
    Ok(())
}

// The bitmaps of the chunks.
fn put_bitmaps(alloc: Global, image: &mut Image, chunks: &[Chunk]) -> Result<(), AllocError>
    ensures { HasGrown image.old image.new }
{
    let mut first = 0usize;
    for chunk in chunks.iter() {
        let start = first.min(image.used.len());
        let end = first.saturating_add(chunk.blocks).min(image.used.len());
        let bits = bitmap(alloc, image.geometry, &image.used[start..end])?;
        if chunk.bitmap != 0 {
            image.put(chunk.bitmap, &bits);
        }
        first = end;
    }
    Ok(())
}

/// The space manager, the chunks and the pool.
pub(crate) fn put_space(
    alloc: Global,
    image: &mut Image,
    xid: u64,
    queued: &[QueueEntry],
    pool_blocks: usize,
) -> Result<(), AllocError>
    ensures { HasGrown image.old image.new }
{
    let geometry = image.geometry;
    let chunks = chunks_of(alloc, geometry, &image.used)?;
    let pool = pool_of(geometry, &chunks);
    let space = Space {
        xid,
        blocks: image.used.len(),
        free: free_count(&image.used),
        pool_blocks,
        pool,
        queued,
    };
    image.store(SPACE_MANAGER, space_manager(alloc, geometry, &space))?;
    put_cibs(alloc, image, xid, &chunks)?;
    put_bitmaps(alloc, image, &chunks)?;
    put_cabs(alloc, image, xid, &pool)?;
    let in_pool = vec![in alloc; true; pool.in_use()]?;
    image.store(RING_BASE, bitmap(alloc, geometry, &in_pool))
}
