// The image of a plan.
ghost use Rattle.std.specs.Prelude.{◌≡◌, ◌≤◌, ◌*◌, ◌%◌, ◌^◌, max, IfOk, IsTrue, vec_len};
ghost use Rattle.obj_base.specs.BlockSize.{is_accepted};
ghost use Rattle.img_plan.specs.Plans.{IsValid};
ghost use Rattle.img_make.specs.Images.{HasGrown, IsImageOf};

use crate::geometry::{Geometry, Groups};
use crate::laying::container::put_container;
use crate::laying::files::Ids;
use crate::laying::image::Image;
use crate::laying::space::{chunks_of, pool_of};
use crate::laying::volumes::put_volume;
use crate::objects::object_map::Placed;
use apfs_model::NoMemory;
use img_edit::places::{FIRST_OID, POOL_BASE, POOL_BLOCKS};
use img_plan::{Plan, VolPlan};
use std::alloc::{AllocError, Global};

// The most blocks of the pool: those of a chunk-info block of 4,096 bytes, and of a bitmap for each of its chunks.
const MOST_OF_THE_POOL: usize = 127;

// Marks the blocks that the volumes' files own.
fn mark_ranges(image: &mut Image, volumes: &[VolPlan])
    ensures { HasGrown image.old image.new }
{
    for volume in volumes.iter() {
        for range in volume.extents.iter() {
            image.mark(range.first, range.length);
        }
    }
}

// Marks the blocks that the plan itself names: those of files, of the main queue and of the jumpstart.
fn mark_named(image: &mut Image, plan: &Plan)
    ensures { HasGrown image.old image.new }
{
    mark_ranges(image, &plan.volumes);
    for entry in plan.queued.iter() {
        image.mark(entry.paddr, entry.length);
    }
    for (first, length) in plan.jumpstart.iter() {
        image.mark(*first, *length);
    }
}

// The first id that neither a fixed object nor a leaf of the plan has.
fn first_id(volumes: &[VolPlan]) -> u64 {
    let mut next = FIRST_OID;
    for volume in volumes.iter() {
        for version in volume.versions.iter() {
            for leaf in version.leaves.iter() {
                next = next.max(leaf.oid.saturating_add(1));
            }
        }
    }
    next
}

// The volumes, each after the one before it: where their superblocks stand.
fn put_volumes(
    alloc: Global,
    image: &mut Image,
    plan: &Plan,
    ids: &mut Ids,
) -> Result<Vec<Placed>, AllocError>
    ensures { HasGrown image.old image.new }
{
    let mut placed = Vec::new(alloc);
    for (slot, volume) in plan.volumes.iter().enumerate() {
        placed.push(put_volume(alloc, image, volume, slot, plan.xid, ids)?)?;
    }
    Ok(placed)
}

// The image of a plan with a pool of so many blocks.
fn image_of(
    alloc: Global,
    geometry: Geometry,
    plan: &Plan,
    pool_blocks: usize,
) -> Result<Image, AllocError>
    requires valid { IsValid plan.now }
    requires least { 8 ≤ pool_blocks }
    requires most { pool_blocks ≤ 127 }
    ensures { IfOk result (IsImageOf geometry.size plan.now) }
{
    let fixed = (POOL_BASE + pool_blocks) as u64;
    let blocks = plan.blocks.max(fixed) as usize;
    let mut image = Image::new(alloc, geometry, blocks)?;
    image.mark(0, fixed);
    mark_named(&mut image, plan);
    let mut ids = Ids {
        next: first_id(&plan.volumes),
    };
    let placed = put_volumes(alloc, &mut image, plan, &mut ids)?;
    put_container(alloc, &mut image, plan, &placed, &mut ids, pool_blocks)?;
    Ok(image)
}

// The image of a plan, with a pool of 8 blocks or of as many as are needed. A greater pool may move blocks into a
// further chunk, and so may ask for one more.
fn image_that_fits(alloc: Global, geometry: Geometry, plan: &Plan) -> Result<Image, AllocError>
    requires { IsValid plan.now }
    ensures { IfOk result (IsImageOf geometry.size plan.now) }
{
    let mut pool_blocks = POOL_BLOCKS;
    for _ in 0..MOST_OF_THE_POOL {
        let image = image_of(alloc, geometry, plan, pool_blocks)?;
        let chunks = chunks_of(alloc, geometry, &image.used)?;
        let needed = pool_of(geometry, &chunks).in_use();
        if needed <= pool_blocks {
            return Ok(image);
        }
        pool_blocks = needed.min(MOST_OF_THE_POOL);
    }
    Err(AllocError)
}

// The bytes of the image of a plan.
fn made(alloc: Global, geometry: Geometry, plan: &Plan) -> Result<Vec<u8>, NoMemory>
    requires { IsValid plan.now }
    ensures in_blocks { IfOk result (λ image. vec_len image % geometry.size ≡ 0) }
    ensures enough { IfOk result (λ image. geometry.size * max plan.now.blocks 51 ≤ vec_len image) }
{
    match image_that_fits(alloc, geometry, plan) {
        Ok(image) => {
            let Image { bytes, .. } = image;
            Ok(bytes)
        }
        Err(_) => Err(NoMemory),
    }
}

/// The image of a plan with blocks of so many bytes: blocks 0 to 50 hold the container's own objects, and the others
/// follow from block 51 on. It has as many blocks as the plan asks for, or as many as are needed where that is more.
///
/// The blocks of files stand where the plan says; those that it puts outside the container aren't written. An image of
/// more than 4,128,768 blocks is as one for which there is no memory.
pub fn make_with(alloc: Global, plan: &Plan, block_size: u32) -> Result<Vec<u8>, NoMemory>
    requires valid { IsValid plan.now }
    requires accepted { IsTrue (is_accepted block_size) }
    requires small { plan.now.blocks * block_size ≤ 2 ^ 32 }
    ensures in_blocks { IfOk result (λ image. vec_len image % block_size ≡ 0) }
    ensures enough { IfOk result (λ image. block_size * max plan.now.blocks 51 ≤ vec_len image) }
{
    made(alloc, Geometry::new(block_size), plan)
}

/// The image of a plan with blocks of 4,096 bytes and with chunk-info address blocks, whose chunk-info blocks have so many
/// chunks at most; otherwise as `make_with` says. The pool has the chunk-info blocks first, then the bitmaps, and then the
/// address blocks. An image whose pool is of more than 127 blocks is as one for which there is no memory.
pub fn make_grouped(alloc: Global, plan: &Plan, groups: Groups) -> Result<Vec<u8>, NoMemory>
    requires valid { IsValid plan.now }
    requires some_chunks { 1 ≤ groups.chunks }
    requires few_chunks { groups.chunks ≤ 126 }
    requires some_cibs { 1 ≤ groups.cibs }
    requires few_cibs { groups.cibs ≤ 507 }
    ensures in_blocks { IfOk result (λ image. vec_len image % 4096 ≡ 0) }
    ensures enough { IfOk result (λ image. 4096 * max plan.now.blocks 51 ≤ vec_len image) }
{
    made(alloc, Geometry::grouped(groups), plan)
}

/// The image of a plan with blocks of 4,096 bytes, as `make_with` says.
pub fn make(alloc: Global, plan: &Plan) -> Result<Vec<u8>, NoMemory>
    requires { IsValid plan.now }
    ensures in_blocks { IfOk result (λ image. vec_len image % 4096 ≡ 0) }
    ensures enough { IfOk result (λ image. 4096 * max plan.now.blocks 51 ≤ vec_len image) }
{
    make_with(alloc, plan, 4096)
}
