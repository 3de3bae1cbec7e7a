// Reading the current bitmap of the internal pool (Space Manager, sm_ip_bm_base and sm_ip_bitmap_offset).
ghost use Rattle.std.specs.Prelude.{◌≡◌, ◌&&◌, not, nat_lt, ◌^◌, ◌+◌, ◌*◌, ◌≤◌, ◌<◌, ◌++◌, ℕ, List, Some, true, false, length, nat_le, slice_set, slice_index_or, OnOk, IfOk, IfErr, IfNone, IfSome, IsErrOf};
ghost use Rattle.std.specs.List.{list_all, range_with_len};
ghost use Rattle.apfs_model.specs.Blocks as blocks;
ghost use Rattle.apfs_model.specs.Counts.{Rose};
ghost use Rattle.apfs_model.specs.Kept.{IsKept};
ghost use Rattle.obj_base.specs.Stops.{Tells, IsFree, NoFeature};
ghost use Rattle.obj_base.specs.declared.stop.Stop.TheVariants.{ReadFault, NoMemory};
ghost use Rattle.obj_base.specs.Site.{IsSiteFor};
ghost use Rattle.nx_ring.specs.Checkpoint.{site_of};
ghost use Rattle.space_map.specs.Geometry.{chunk_len};
ghost use Rattle.space_map.specs.Fields.{pool_bitmap_blocks_of, indexes_of, ring_blocks_of, ring_base_of};
ghost use Rattle.space_pool.specs.Bits.{index_at, is_pool_count, is_pool_index, is_pool_shaped, pool_bits_of};
ghost use Rattle.space_pool.specs.Stops.{IsPoolFault, ArePoolBits};
ghost use Rattle.space_pool.specs.Read.{IsWrongIndex};

use crate::PoolFault;
use apfs_layout::space_manager as layout;
use blk_read::read_new;
use blk_source::BlockSource;
use nx_ring::Checkpoint;
use obj_base::{Site, Stop, u16_at, u32_at};
use space_map::Space;
use std::alloc::{AllocError, Global};

// The blocks of the current bitmap.
#[tactic(auto, unfolding(space_map::specs::Fields::pool_bitmap_blocks_of))]
fn bitmap_blocks(manager: &[u8]) -> u32
    requires { 4096 ≤ length manager.now }
    ensures { result ≡ pool_bitmap_blocks_of manager.now }
{
    u32_at(manager, layout::POOL_BITMAP_SIZE)
}

// Where the indexes of the current bitmap begin in the manager.
#[tactic(auto, unfolding(space_map::specs::Fields::indexes_of))]
fn indexes(manager: &[u8]) -> u32
    requires { 4096 ≤ length manager.now }
    ensures { result ≡ indexes_of manager.now }
{
    u32_at(manager, layout::RING_INDEXES)
}

// Whether bitmaps of so many blocks have a bit for each of so many blocks.
fn has_bits(block_size: u32, bitmap_blocks: u32, pool_blocks: u64) -> bool
    ensures { result ≡ nat_le pool_blocks (bitmap_blocks * chunk_len block_size) }
{
    u128::from(pool_blocks) <= u128::from(bitmap_blocks) * (8 * u128::from(block_size))
}

// Whether so many blocks from a first one on lie in the container.
fn is_inside(first: u64, count: u64, site: &Site) -> bool
    ensures { result ≡ blocks.is_inside first count site.now.blocks }
{
    first < 1 << 63 && u128::from(first) + u128::from(count) <= u128::from(site.blocks)
}

// Whether the bitmap is large enough, its indexes lie in the manager, and the pool and the ring in the container.
#[tactic(auto, unfolding(crate::specs::Bits::is_pool_count, crate::specs::Bits::has_pool_bits, crate::specs::Bits::has_indexes))]
fn is_count(site: &Site, space: &Space) -> bool
    ensures { result ≡ is_pool_count site.now space.now.manager }
{
    let manager = space.manager();
    let (pool_base, pool_blocks) = space.pool();
    let (ring_base, ring_blocks) = space.pool_ring();
    let size = bitmap_blocks(manager);
    has_bits(site.block_size, size, pool_blocks)
        && u64::from(indexes(manager)) + 2 * u64::from(size) <= manager.len() as u64
        && is_inside(pool_base, pool_blocks, site)
        && is_inside(ring_base, ring_blocks, site)
}

// Index i of the current bitmap.
#[tactic(auto, unfolding(crate::specs::Bits::index_at))]
fn index(manager: &[u8], i: u32) -> u16
    requires long { 4096 ≤ length manager.now }
    requires inside { indexes_of manager.now + (2 * i + 2) ≤ length manager.now }
    ensures { result ≡ index_at manager.now i }
{
    u16_at(manager, indexes(manager) as usize + 2 * i as usize)
}

// Whether an index lies in the ring and wasn't met before; it is met from then on.
fn passes(marks: &mut Vec<bool>, number: u16, ring_blocks: u64) -> bool
    requires { number < length marks.old.items }
    ensures right { result ≡ (nat_lt number ring_blocks && not (slice_index_or marks.old.items number false)) }
    ensures met { marks.new.items ≡ slice_set marks.old.items number true }
{
    let before = marks[number as usize];
    marks[number as usize] = true;
    u64::from(number) < ring_blocks && !before
}

// So many marks, none of them set.
fn no_marks(alloc: Global, count: usize) -> Result<Vec<bool>, AllocError>
    ensures long { IfOk result (λ marks. length marks.items ≡ count) }
    ensures clear { IfOk result (λ marks. (k : ℕ) → slice_index_or marks.items k false ≡ false) }
{
    vec![in alloc; false; count]
}

// The first index of the current bitmap that leaves the ring or equals an earlier one.
fn wrong_index(alloc: Global, manager: &[u8], ring_blocks: u64) -> Result<Option<u32>, AllocError>
    requires long { 4096 ≤ length manager.now }
    requires inside { indexes_of manager.now + 2 * pool_bitmap_blocks_of manager.now ≤ length manager.now }
    requires ring { ring_blocks ≡ ring_blocks_of manager.now }
    ensures clear { IfOk result (λ wrong. IfNone wrong (list_all (is_pool_index manager.now) (range_with_len 0 (pool_bitmap_blocks_of manager.now)) ≡ true)) }
    ensures present { IfOk result (λ wrong. IfSome wrong (IsWrongIndex manager.now)) }
{
    let mut marks = no_marks(alloc, 1 << 16)?;
    for i in 0..bitmap_blocks(manager) {
        if !passes(&mut marks, index(manager, i), ring_blocks) {
            return Ok(Some(i));
        }
    }
    Ok(None)
}

// Reads a block of an image and puts its bytes after others.
fn read_on<S: BlockSource>(
    alloc: Global,
    src: &mut S,
    bits: &mut Vec<u8>,
    block: u64,
    site: &Site,
) -> Result<(), Stop<PoolFault>>
    requires site { IsSiteFor site.now (S.bytes_len src.old) }
    requires below { block < site.now.blocks }
    ensures found { (image : List ℕ) → S.bytes src.old ≡ Some image → OnOk result (bits.new.items ≡ bits.old.items ++ blocks.block_of site.now.block_size image block) }
    ensures long { OnOk result (length bits.new.items ≡ length bits.old.items + site.now.block_size) }
    ensures free { IfErr result IsFree }
    ensures cause { IsErrOf result ReadFault → Rose (S.faults src.old) (S.faults src.new) }
    ensures kept { IsKept S.bytes S.bytes_len S.faults src.old src.new }
    ensures reads { S.reads src.new ≤ S.reads src.old + 1 }
{
    let bytes = read_new(alloc, src, block, site.block_size)?;
    bits.extend_from_slice(&bytes)?;
    Ok(())
}

// The blocks of the current bitmap, joined.
fn read_bits<S: BlockSource>(
    alloc: Global,
    src: &mut S,
    manager: &[u8],
    ring_base: u64,
    site: &Site,
) -> Result<Vec<u8>, Stop<PoolFault>>
    requires site { IsSiteFor site.now (S.bytes_len src.old) }
    requires long { 4096 ≤ length manager.now }
    requires inside { indexes_of manager.now + 2 * pool_bitmap_blocks_of manager.now ≤ length manager.now }
    requires ring { ring_base ≡ ring_base_of manager.now }
    requires low { ring_base < 2 ^ 63 }
    requires below { (i : ℕ) → i < pool_bitmap_blocks_of manager.now → ring_base + index_at manager.now i < site.now.blocks }
    ensures found { (image : List ℕ) → S.bytes src.old ≡ Some image → IfOk result (λ bits. bits.items ≡ pool_bits_of site.now.block_size image manager.now) }
    ensures long { IfOk result (λ bits. length bits.items ≡ pool_bitmap_blocks_of manager.now * site.now.block_size) }
    ensures free { IfErr result IsFree }
    ensures cause { IsErrOf result ReadFault → Rose (S.faults src.old) (S.faults src.new) }
    ensures kept { IsKept S.bytes S.bytes_len S.faults src.old src.new }
    ensures reads { OnOk result (S.reads src.new ≤ S.reads src.old + pool_bitmap_blocks_of manager.now) }
{
    let mut bits = Vec::new(alloc);
    for i in 0..bitmap_blocks(manager) {
        let block = ring_base + u64::from(index(manager, i));
        read_on(alloc, src, &mut bits, block, site)?;
    }
    Ok(bits)
}

// Tests the numbers of the current bitmap and its indexes.
fn check(alloc: Global, cp: &Checkpoint, space: &Space) -> Result<(), Stop<PoolFault>>
    ensures clear { OnOk result (is_pool_shaped (site_of cp.now) space.now.manager ≡ true) }
    ensures present { IfErr result (Tells (IsPoolFault cp.now space.now.manager) NoFeature) }
    ensures no_read { IsErrOf result ReadFault → ⊥ }
{
    let site = cp.site();
    if !is_count(&site, space) {
        return Err(Stop::Found(PoolFault::Count));
    }
    let manager = space.manager();
    let (_, ring_blocks) = space.pool_ring();
    match wrong_index(alloc, manager, ring_blocks)? {
        Some(at) => Err(Stop::Found(PoolFault::Index { at })),
        None => Ok(()),
    }
}

/// The blocks of the current bitmap of the pool, joined, whose bits are counted from the pool's first block. `space` is
/// that of the checkpoint. `Count` comes where the bitmap is too small for the pool, where the pool or the ring leaves the
/// container, or where the indexes leave the manager; `Index` where one of them leaves the ring or equals an earlier one.
pub fn pool_bits<S: BlockSource>(
    alloc: Global,
    src: &mut S,
    cp: &Checkpoint,
    space: &Space,
) -> Result<Vec<u8>, Stop<PoolFault>>
    requires site { IsSiteFor (site_of cp.now) (S.bytes_len src.old) }
    ensures clear { (image : List ℕ) → S.bytes src.old ≡ Some image → IfOk result (λ bits. ArePoolBits image cp.now space.now.manager bits.items) }
    ensures shaped { OnOk result (is_pool_shaped (site_of cp.now) space.now.manager ≡ true) }
    ensures count { IfOk result (λ bits. length bits.items ≡ pool_bitmap_blocks_of space.now.manager * (site_of cp.now).block_size) }
    ensures present { IfErr result (Tells (IsPoolFault cp.now space.now.manager) NoFeature) }
    ensures exact { is_pool_shaped (site_of cp.now) space.now.manager ≡ true → IfErr result IsFree }
    ensures cause { IsErrOf result ReadFault → Rose (S.faults src.old) (S.faults src.new) }
    ensures kept { IsKept S.bytes S.bytes_len S.faults src.old src.new }
    ensures reads { OnOk result (S.reads src.new ≤ S.reads src.old + pool_bitmap_blocks_of space.now.manager) }
{
    match check(alloc, cp, space) {
        Ok(()) => {}
        Err(stop) => return Err(stop),
    }
    let (ring_base, _) = space.pool_ring();
    match read_bits(alloc, src, space.manager(), ring_base, &cp.site()) {
        Ok(bits) => Ok(bits),
        Err(stop) => Err(stop),
    }
}
