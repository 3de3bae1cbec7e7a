// The space of a container.
ghost use Rattle.std.specs.Prelude.{◌≡◌, ◌≤◌, ◌<◌, ◌+◌, ℕ, List, Some, length, true, All, IfOk, OnErr};
ghost use Rattle.apfs_model.specs.Blocks.{block_of};
ghost use Rattle.apfs_model.specs.Bytes as bits;
ghost use Rattle.apfs_model.specs.Bytes.{bit_at};
ghost use Rattle.apfs_model.specs.Counts.{Rose};
ghost use Rattle.apfs_model.specs.Kept.{IsKept};
ghost use Rattle.obj_base.specs.Site.{IsSiteFor};
ghost use Rattle.space_map.specs.Geometry as shape;
ghost use Rattle.apfs_model.specs.Blocks.{rounded_up};
ghost use Rattle.space_map.specs.Fields.{free_of, pool_base_of, pool_blocks_of, ring_base_of, ring_blocks_of};
ghost use Rattle.space_map.specs.Geometry.{chunk_len};
ghost use Rattle.space_map.specs.Marks.{has_bits};

use crate::chunk::is_free_total;
use crate::info::{chunks, info_blocks};
use crate::loading::sound_manager;
use crate::manager::{Manager, chunk_len};
use crate::{Chunk, SpaceFault};
use blk_read::read_block;
use blk_source::{BlockSource, ReadFailed};
use nx_ring::Checkpoint;
use obj_base::{Site, Stop};
use std::alloc::Global;
use std::marker::Model;

/// The space of a container that was loaded: its manager's bytes, the blocks that tell of chunks, and the chunks.
#[derive(Drop)]
pub struct Space {
    site: Site,
    manager: Vec<u8>,
    cabs: Vec<u64>,
    cibs: Vec<u64>,
    chunks: Vec<Chunk>,
}

impl Model for Space {
    ghost use Rattle.space_map.specs.Stops.{Known};
    ghost use Rattle.space_map.specs.Held.{IsHeld};

    ghost Value = { Known };

    ghost view = { λ a. record { site = a.site; manager = a.manager.items; cabs = a.cabs.items; cibs = a.cibs.items; chunks = a.chunks.items } };

    ghost invariant = { λ a. IsHeld a.site a.manager.items a.chunks.items };
}

impl Space {
    /// What the container's objects are measured by.
    pub fn site(&self) -> Site
        ensures { result ≡ self.now.site }
    {
        self.site
    }

    /// The bytes of the space manager, those of all its blocks.
    pub fn manager(&self) -> &[u8]
        ensures all { result.now ≡ self.now.manager }
        ensures least { 4096 ≤ length result.now }
    {
        &self.manager
    }

    /// The chunks, by number.
    pub fn chunks(&self) -> &[Chunk]
        ensures all { result.now ≡ self.now.chunks }
        ensures count { length result.now ≡ rounded_up self.now.site.blocks (chunk_len self.now.site.block_size) }
        ensures inside { All (λ chunk. has_bits self.now.site chunk ≡ true) result.now }
    {
        &self.chunks
    }

    /// The blocks of the chunk-info blocks, by index.
    pub fn cibs(&self) -> &[u64]
        ensures { result.now ≡ self.now.cibs }
    {
        &self.cibs
    }

    /// The blocks of the chunk-info address blocks, by index; none where the manager names the chunk-info blocks itself.
    pub fn cabs(&self) -> &[u64]
        ensures { result.now ≡ self.now.cabs }
    {
        &self.cabs
    }

    /// How many blocks of the device are free (Space Manager, `sm_free_count`).
    pub fn free(&self) -> u64
        ensures { result ≡ free_of self.now.manager }
    {
        Manager::of(&self.manager).free()
    }

    /// The pool, from which the blocks that tell of the space are taken: its first block and how many it has (Space
    /// Manager, `sm_ip_base` and `sm_ip_block_count`).
    pub fn pool(&self) -> (u64, u64)
        ensures { result ≡ (pool_base_of self.now.manager, pool_blocks_of self.now.manager) }
    {
        let manager = Manager::of(&self.manager);
        (manager.pool_base(), manager.pool_blocks())
    }

    /// The ring of the pool's bitmaps: its first block and how many it has (Space Manager, `sm_ip_bm_base` and
    /// `sm_ip_bm_block_count`).
    pub fn pool_ring(&self) -> (u64, u64)
        ensures { result ≡ (ring_base_of self.now.manager, ring_blocks_of self.now.manager) }
    {
        let manager = Manager::of(&self.manager);
        (manager.ring_base(), u64::from(manager.ring_blocks()))
    }
}

impl Space {
    ghost use Rattle.std.specs.Prelude.{OnOk, IfErr, IsErrOf};
    ghost use Rattle.obj_base.specs.Stops.{Tells, IsFree};
    ghost use Rattle.obj_base.specs.declared.stop.Stop.TheVariants.{ReadFault};
    ghost use Rattle.nx_ring.specs.Checkpoint.{site_of};
    ghost use Rattle.space_map.specs.Chunks.{chunk_at};
    ghost use Rattle.space_map.specs.Marks.{is_marked};
    ghost use Rattle.space_map.specs.Stops.{Known, known_of, IsSpaceOf, IsSpaceFault, IsSpaceFeature};
    ghost use Rattle.space_map.specs.Held.{bitmap_of};

    /// The space of a checkpoint's container. `Unnamed` and `Unsound` come for its manager and for the blocks that tell
    /// of chunks, `Geometry` where the manager's shape isn't the container's, `Cab` and `Cib` where such a block has
    /// another index or count, `Index` where a chunk has another address or another number of blocks, `Place` where
    /// such a block or a chunk's bitmap isn't in the pool, and `FreeTotal` where the free blocks of the chunks don't add
    /// up. `Unsupported` comes for a second device, and for a feature of the header of one of these objects. The
    /// bitmaps aren't read.
    pub fn load<S: BlockSource>(
        alloc: Global,
        src: &mut S,
        cp: &Checkpoint,
    ) -> Result<Space, Stop<SpaceFault>>
        requires site { IsSiteFor (site_of cp.now) (S.bytes_len src.old) }
        ensures clear { (image : List ℕ) → S.bytes src.old ≡ Some image → IfOk result (IsSpaceOf image cp.now) }
        ensures site { IfOk result (λ space. space.site ≡ site_of cp.now) }
        ensures present { (image : List ℕ) → S.bytes src.old ≡ Some image → IfErr result (Tells (IsSpaceFault image cp.now) (IsSpaceFeature image cp.now)) }
        ensures exact { (image : List ℕ) → S.bytes src.old ≡ Some image → (space : Known) → IsSpaceOf image cp.now space → IfErr result IsFree }
        ensures cause { IsErrOf result ReadFault → Rose (S.faults src.old) (S.faults src.new) }
        ensures kept { IsKept S.bytes S.bytes_len S.faults src.old src.new }
        ensures reads { IfOk result (λ space. S.reads src.new ≤ S.reads src.old + (length space.cabs + length space.cibs)) }
    {
        let site = cp.site();
        let bytes = match sound_manager(alloc, cp, &site) {
            Ok(bytes) => bytes,
            Err(stop) => return Err(stop),
        };
        let manager = Manager::of(&bytes);
        if !manager.is_shaped(&site) {
            return Err(Stop::Found(SpaceFault::Geometry));
        }
        let blocks = match info_blocks(alloc, src, &site, &manager) {
            Ok(blocks) => blocks,
            Err(stop) => return Err(stop),
        };
        let chunks = match chunks(alloc, src, &site, &manager, &blocks.cibs) {
            Ok(chunks) => chunks,
            Err(stop) => return Err(stop),
        };
        if !is_free_total(manager.free(), &chunks) {
            return Err(Stop::Found(SpaceFault::FreeTotal));
        }
        Ok(Space {
            site,
            manager: bytes,
            cabs: blocks.cabs,
            cibs: blocks.cibs,
            chunks,
        })
    }

    /// The bits of a chunk, one for each block from its first on, the lowest bit of the first byte first: its bitmap,
    /// and zeros where it has none. `into` has one block. After an error what it holds isn't said. Takes no memory.
    pub fn bitmap<S: BlockSource>(
        &self,
        src: &mut S,
        chunk: usize,
        into: &mut [u8],
    ) -> Result<(), ReadFailed>
        requires site { IsSiteFor self.now.site (S.bytes_len src.old) }
        requires low { chunk < length self.now.chunks }
        requires one_block { length into.old ≡ self.now.site.block_size }
        ensures found { (image : List ℕ) → S.bytes src.old ≡ Some image → self.now ≡ known_of image self.now.site self.now.manager → OnOk result (into.new ≡ bitmap_of self.now.site.block_size image (chunk_at self.now.site.block_size image self.now.manager chunk)) }
        ensures cause { OnErr result (Rose (S.faults src.old) (S.faults src.new)) }
        ensures kept { IsKept S.bytes S.bytes_len S.faults src.old src.new }
        ensures reads { S.reads src.new ≤ S.reads src.old + 1 }
    {
        let bitmap = self.chunks[chunk].bitmap;
        if bitmap == 0 {
            into.fill(0);
            return Ok(());
        }
        read_block(src, bitmap, into)
    }

    /// Whether a block of the container is marked as used. Takes no memory.
    pub fn marked<S: BlockSource>(&self, src: &mut S, block: u64) -> Result<bool, ReadFailed>
        requires site { IsSiteFor self.now.site (S.bytes_len src.old) }
        requires inside { block < self.now.site.blocks }
        ensures found { (image : List ℕ) → S.bytes src.old ≡ Some image → self.now ≡ known_of image self.now.site self.now.manager → IfOk result (λ marked. marked ≡ is_marked self.now.site.block_size image self.now.manager block) }
        ensures cause { OnErr result (Rose (S.faults src.old) (S.faults src.new)) }
        ensures kept { IsKept S.bytes S.bytes_len S.faults src.old src.new }
        ensures reads { S.reads src.new ≤ S.reads src.old + 1 }
    {
        let len = chunk_len(self.site.block_size);
        let bitmap = self.chunks[(block / len) as usize].bitmap;
        if bitmap == 0 {
            return Ok(false);
        }
        read_bit(src, &self.site, bitmap, block % len)
    }
}

// Reads bit `i` of a block, the lowest bit of its first byte being bit 0.
fn read_bit<S: BlockSource>(
    src: &mut S,
    site: &Site,
    block: u64,
    i: u64,
) -> Result<bool, ReadFailed>
    requires site { IsSiteFor site.now (S.bytes_len src.old) }
    requires inside { block < site.now.blocks }
    requires low { i < shape.chunk_len site.now.block_size }
    ensures found { (image : List ℕ) → S.bytes src.old ≡ Some image → IfOk result (λ bit. bit ≡ bit_at (block_of site.now.block_size image block) i) }
    ensures cause { OnErr result (Rose (S.faults src.old) (S.faults src.new)) }
    ensures kept { IsKept S.bytes S.bytes_len S.faults src.old src.new }
    ensures reads { S.reads src.new ≤ S.reads src.old + 1 }
{
    let _size = src.size();
    let mut byte = [0u8; 1];
    src.read_at(u64::from(site.block_size) * block + i / 8, &mut byte)?;
    Ok(has_bit(byte[0], (i % 8) as u32))
}

// Whether bit `i` of a byte is set, the lowest being bit 0.
fn has_bit(byte: u8, i: u32) -> bool
    requires { i < 8 }
    ensures { result ≡ bits.has_bit byte i }
{
    (byte >> i) % 2 == 1
}
