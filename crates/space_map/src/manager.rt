// The space manager: its fields, and its shape.
//
// Tests: the second device and tier, the units, the rooms, the numbers and the addresses. Gives: where the blocks that
// tell of chunks are. Rests on: bytes of one block or more.
ghost use Rattle.std.specs.Prelude.{◌≡◌, ◌≤◌, ◌+◌, ◌*◌, ◌-◌, ◌/◌, ◌<◌, ◌^◌, length, true};
ghost use Rattle.apfs_model.specs.Blocks as blocks;
ghost use Rattle.obj_base.specs.BlockSize as sizes;
ghost use Rattle.space_map.specs.Fields as fields;
ghost use Rattle.space_map.specs.Geometry as shape;
ghost use Rattle.space_map.specs.Geometry.{most_chunks, most_cibs, has_address};
ghost use Rattle.space_map.specs.Blocks.{address_at};
ghost use Rattle.space_map.specs.Tests as tests;
ghost use Rattle.space_map.specs.Stops as stops;

use apfs_layout::{chunk_info, space_manager};
use obj_base::{Site, u32_at, u64_at};
use std::marker::Model;

/// A space manager's bytes, of one block or more (Space Manager, `spaceman_phys_t`). Contracts see its bytes.
#[derive(Drop)]
pub(crate) struct Manager<'a> {
    bytes: &'a [u8],
}

impl<'a> Model for Manager<'a> {
    ghost use Rattle.std.specs.Prelude.{List, ℕ, ◌≤◌, length};

    ghost Value = { List ℕ };

    ghost view = { λ a. a.bytes.now };

    ghost invariant = { λ a. 4096 ≤ length a.bytes.now };
}

#[tactic(auto, unfolding(crate::specs::Fields::unit_of, crate::specs::Fields::chunk_blocks_of, crate::specs::Fields::cib_chunks_of, crate::specs::Fields::cab_cibs_of, crate::specs::Fields::blocks_of, crate::specs::Fields::chunks_of, crate::specs::Fields::cibs_of, crate::specs::Fields::cabs_of, crate::specs::Fields::free_of, crate::specs::Fields::addresses_of, crate::specs::Fields::second_blocks_of, crate::specs::Fields::pool_blocks_of, crate::specs::Fields::ring_blocks_of, crate::specs::Fields::ring_base_of, crate::specs::Fields::pool_base_of, crate::specs::Fields::tier_queue_of))]
impl<'a> Manager<'a> {
    pub(crate) fn of(bytes: &'a [u8]) -> Manager<'a>
        requires { 4096 ≤ length bytes.now }
        ensures { result ≡ bytes.now }
    {
        Manager { bytes }
    }

    // The block size.
    fn unit(&self) -> u32
        ensures { result ≡ fields.unit_of self.now }
    {
        u32_at(self.bytes, space_manager::BLOCK_SIZE)
    }

    // The blocks of a chunk.
    fn chunk_blocks(&self) -> u32
        ensures { result ≡ fields.chunk_blocks_of self.now }
    {
        u32_at(self.bytes, space_manager::BLOCKS_PER_CHUNK)
    }

    /// The chunks of a chunk-info block.
    pub(crate) fn cib_chunks(&self) -> u32
        ensures { result ≡ fields.cib_chunks_of self.now }
    {
        u32_at(self.bytes, space_manager::CHUNKS_PER_CIB)
    }

    /// The chunk-info blocks of a chunk-info address block.
    pub(crate) fn cab_cibs(&self) -> u32
        ensures { result ≡ fields.cab_cibs_of self.now }
    {
        u32_at(self.bytes, space_manager::CIBS_PER_CAB)
    }

    // The device's blocks.
    fn blocks(&self) -> u64
        ensures { result ≡ fields.blocks_of self.now }
    {
        u64_at(self.bytes, space_manager::MAIN_BLOCKS)
    }

    /// The device's chunks.
    pub(crate) fn chunks(&self) -> u64
        ensures { result ≡ fields.chunks_of self.now }
    {
        u64_at(self.bytes, space_manager::MAIN_CHUNKS)
    }

    /// The device's chunk-info blocks.
    pub(crate) fn cibs(&self) -> u32
        ensures { result ≡ fields.cibs_of self.now }
    {
        u32_at(self.bytes, space_manager::MAIN_CIBS)
    }

    /// The device's chunk-info address blocks.
    pub(crate) fn cabs(&self) -> u32
        ensures { result ≡ fields.cabs_of self.now }
    {
        u32_at(self.bytes, space_manager::MAIN_CABS)
    }

    /// The device's free blocks.
    pub(crate) fn free(&self) -> u64
        ensures { result ≡ fields.free_of self.now }
    {
        u64_at(self.bytes, space_manager::MAIN_FREE)
    }

    // Where the addresses begin.
    fn addresses(&self) -> u32
        ensures { result ≡ fields.addresses_of self.now }
    {
        u32_at(self.bytes, space_manager::MAIN_ADDRESSES)
    }

    // The second device's blocks.
    fn second_blocks(&self) -> u64
        ensures { result ≡ fields.second_blocks_of self.now }
    {
        u64_at(self.bytes, space_manager::SECOND_BLOCKS)
    }

    // The root of the second tier's free queue.
    fn tier_queue(&self) -> u64
        ensures { result ≡ fields.tier_queue_of self.now }
    {
        u64_at(self.bytes, space_manager::SECOND_QUEUE_TREE)
    }

    /// The first block of the pool.
    pub(crate) fn pool_base(&self) -> u64
        ensures { result ≡ fields.pool_base_of self.now }
    {
        u64_at(self.bytes, space_manager::POOL_BASE)
    }

    /// The blocks of the pool.
    pub(crate) fn pool_blocks(&self) -> u64
        ensures { result ≡ fields.pool_blocks_of self.now }
    {
        u64_at(self.bytes, space_manager::POOL_BLOCKS)
    }

    /// The first block of the ring of the pool's bitmaps.
    pub(crate) fn ring_base(&self) -> u64
        ensures { result ≡ fields.ring_base_of self.now }
    {
        u64_at(self.bytes, space_manager::RING_BASE)
    }

    /// The blocks of that ring.
    pub(crate) fn ring_blocks(&self) -> u32
        ensures { result ≡ fields.ring_blocks_of self.now }
    {
        u32_at(self.bytes, space_manager::RING_BLOCKS)
    }
}

impl Manager<'_> {
    /// Whether there is a second device, or a free queue of the second tier.
    #[tactic(auto, unfolding(crate::specs::Stops::is_fusion))]
    pub(crate) fn is_fusion(&self) -> bool
        ensures { result ≡ stops.is_fusion self.now }
    {
        self.second_blocks() != 0 || self.tier_queue() != 0
    }

    // The block size and the blocks of a chunk are the container's.
    #[tactic(auto, unfolding(crate::specs::Geometry::has_units))]
    fn has_units(&self, size: u32) -> bool
        ensures { result ≡ shape.has_units size self.now }
    {
        self.unit() == size && u64::from(self.chunk_blocks()) == chunk_len(size)
    }

    // A chunk-info block has one chunk or more and at most what fits it, and so has an address block.
    #[tactic(auto, unfolding(crate::specs::Geometry::has_rooms))]
    fn has_rooms(&self, size: u32) -> bool
        requires { 40 ≤ size }
        ensures { result ≡ shape.has_rooms size self.now }
    {
        1 <= self.cib_chunks()
            && self.cib_chunks() <= most(size, chunk_info::ENTRY_LEN as u32)
            && 1 <= self.cab_cibs()
            && self.cab_cibs() <= most(size, chunk_info::ADDRESS_LEN as u32)
    }

    // The device has as many chunks, chunk-info blocks and address blocks as its blocks need.
    #[tactic(auto, unfolding(crate::specs::Geometry::has_numbers))]
    fn has_numbers(&self, site: &Site) -> bool
        requires sized { 1 ≤ site.now.block_size }
        requires chunks { 1 ≤ fields.cib_chunks_of self.now }
        requires cibs { 1 ≤ fields.cab_cibs_of self.now }
        ensures { result ≡ shape.has_numbers site.now self.now }
    {
        self.blocks() == site.blocks
            && self.chunks() == rounded_up(site.blocks, chunk_len(site.block_size))
            && u64::from(self.cibs()) == rounded_up(self.chunks(), u64::from(self.cib_chunks()))
            && (self.cabs() == 0
                || u64::from(self.cabs())
                    == rounded_up(u64::from(self.cibs()), u64::from(self.cab_cibs())))
    }

    // How many addresses there are.
    fn address_count(&self) -> u32
        ensures { result ≡ shape.address_count self.now }
    {
        if self.cabs() == 0 {
            self.cibs()
        } else {
            self.cabs()
        }
    }

    // All addresses lie in the manager.
    #[tactic(auto, unfolding(crate::specs::Geometry::has_addresses))]
    fn has_addresses(&self) -> bool
        ensures { result ≡ shape.has_addresses self.now }
    {
        self.addresses() as usize + chunk_info::ADDRESS_LEN * self.address_count() as usize
            <= self.bytes.len()
    }

    /// Whether the shape is that of the container.
    #[tactic(auto, using(crate::proofs::Shapes::rooms_some), unfolding(crate::specs::Geometry::is_shaped))]
    pub(crate) fn is_shaped(&self, site: &Site) -> bool
        requires { sizes.is_accepted site.now.block_size ≡ true }
        ensures { result ≡ shape.is_shaped site.now self.now }
    {
        self.has_units(site.block_size)
            && self.has_rooms(site.block_size)
            && self.has_numbers(site)
            && self.has_addresses()
    }

    /// The address of an index.
    #[tactic(auto, unfolding(crate::specs::Geometry::has_address, crate::specs::Blocks::address_at))]
    pub(crate) fn address(&self, index: u32) -> u64
        requires { has_address self.now index ≡ true }
        ensures { result ≡ address_at self.now index }
    {
        let at = self.addresses() as usize + chunk_info::ADDRESS_LEN * index as usize;
        u64_at(self.bytes, at)
    }

    /// Whether a block lies in the pool and in the container.
    #[tactic(auto, unfolding(crate::specs::Tests::is_in_pool))]
    pub(crate) fn has_in_pool(&self, site: &Site, block: u64) -> bool
        ensures { result ≡ tests.is_in_pool site.now self.now block }
    {
        let base = self.pool_base();
        base <= block && block - base < self.pool_blocks() && block < site.blocks
    }
}

/// The blocks of a chunk, by the block size.
pub(crate) fn chunk_len(size: u32) -> u64
    ensures { result ≡ shape.chunk_len size }
{
    8 * u64::from(size)
}

// How many parts of a length fit a block after its first 40 bytes.
fn most(size: u32, len: u32) -> u32
    requires sized { 40 ≤ size }
    requires some { 1 ≤ len }
    ensures { result ≡ (size - 40) / len }
{
    (size - chunk_info::CIB_ENTRIES as u32) / len
}

// How many units hold so many things.
#[tactic(auto, using(apfs_model::proofs::Rounding::rounding))]
fn rounded_up(n: u64, unit: u64) -> u64
    requires { 1 ≤ unit }
    ensures { result ≡ blocks.rounded_up n unit }
{
    n.div_ceil(unit)
}

/// Of so many things, as many as fall to a place where each place takes so many.
pub(crate) fn share(all: u64, each: u64, index: u64) -> u64
    requires { each * index < 2 ^ 64 }
    ensures { result ≡ tests.share all each index }
{
    each.min(all.saturating_sub(each * index))
}
