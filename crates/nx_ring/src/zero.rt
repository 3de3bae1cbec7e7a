// Block 0 of an image.
//
// Tests: block 0 is right, the image has all blocks of its container, both areas are contiguous. Gives: the areas.
// Rests on: `nx_size` and `nx_read`.
ghost use Rattle.std.specs.Prelude.{◌≡◌, ◌+◌, ◌*◌, ◌/◌, ◌≤◌, ◌<◌, List, ℕ, true, Some, None, Ok, Err, length, is_ok, IfOk, IfErr, IsErrOf, if◌then◌else◌};
ghost use Rattle.std.specs.Option.{is_some};
ghost use Rattle.apfs_model.specs.Counts.{Rose};
ghost use Rattle.apfs_model.specs.Kept.{IsKept};
ghost use Rattle.obj_base.specs.BlockSize as sizes;
ghost use Rattle.obj_base.specs.Stops.{Gives};
ghost use Rattle.obj_base.specs.declared.stop.Stop.TheVariants.{Found, ReadFault};
ghost use Rattle.nx_block.specs.Super.{block_count_of};
ghost use Rattle.nx_block.specs.Read.{size_of, read_of};
ghost use Rattle.nx_ring.specs.declared.fault.RingFault.TheVariants.{BlockZero};
ghost use Rattle.nx_ring.specs.Zero.{is_area, has_areas, is_contiguous, first_of, zero_of, areas_of, after_zero};
ghost use Rattle.nx_ring.specs.Reading.{zero_in, zero_reads, areas_in, Fits};

use crate::RingFault;
use crate::areas::Areas;
use apfs_layout::container;
use blk_read::read_new;
use blk_source::BlockSource;
use nx_block::{NxView, nx_read, nx_size};
use obj_base::{Feature, Stop};
use std::alloc::Global;

// The bytes that tell the block size.
const FIRST: u32 = container::FIRST_BYTES as u32;

// The first block of this number and above is a negative one.
const NEGATIVE: u64 = 0x8000_0000_0000_0000;

// Whether an area of one block or more lies in a container of `count` blocks.
#[tactic(auto, unfolding(crate::specs::Zero::is_area))]
fn is_inside(base: u64, blocks: u32, count: u64) -> bool
    ensures { result ≡ is_area base blocks count }
{
    let len = u64::from(blocks % container::APART);
    0 < len && base < NEGATIVE && len <= count && base <= count - len
}

// Whether both areas of a superblock lie in its container.
#[tactic(auto, unfolding(crate::specs::Zero::has_areas))]
fn are_inside(zero: &NxView<'_>) -> bool
    ensures { result ≡ has_areas zero.now }
{
    let count = zero.block_count();
    is_inside(zero.desc_base(), zero.desc_blocks(), count)
        && is_inside(zero.data_base(), zero.data_blocks(), count)
}

// Whether both areas are contiguous.
#[tactic(auto, unfolding(crate::specs::Zero::is_contiguous))]
fn are_contiguous(zero: &NxView<'_>) -> bool
    ensures { result ≡ is_contiguous zero.now }
{
    zero.desc_blocks() < container::APART && zero.data_blocks() < container::APART
}

// Reads block 0, by the block size that its first bytes give: these alone where the block is no larger.
fn read_zero<S: BlockSource>(alloc: Global, src: &mut S) -> Result<Vec<u8>, Stop<RingFault>>
    ensures found { (image : List ℕ) → S.bytes src.old ≡ Some image → Gives (λ bytes. bytes.items) result (zero_in image) }
    ensures whole { IfOk result (λ bytes. sizes.is_accepted (length bytes.items) ≡ true) }
    ensures cause { IsErrOf result ReadFault → Rose (S.faults src.old) (S.faults src.new) }
    ensures kept { IsKept S.bytes S.bytes_len S.faults src.old src.new }
    ensures reads { (image : List ℕ) → S.bytes src.old ≡ Some image → S.reads src.new ≤ S.reads src.old + zero_reads image }
{
    let len = src.size();
    if len < u64::from(FIRST) {
        return Err(Stop::Found(RingFault::BlockZero));
    }
    let first = read_new(alloc, src, 0, FIRST)?;
    let Some(size) = nx_size(&first) else {
        return Err(Stop::Found(RingFault::BlockZero));
    };
    if size == FIRST {
        return Ok(first);
    }
    if len < u64::from(size) {
        return Err(Stop::Found(RingFault::BlockZero));
    }
    read_new(alloc, src, 0, size)
}

// The areas that block 0 names in an image of `len` bytes, or the first of its tests that fails.
#[tactic(auto, using(nx_block::proofs::Laws::read_means), unfolding(crate::specs::Reading::areas_in, crate::specs::Zero::where_whole, crate::specs::Zero::is_whole, crate::specs::Zero::is_short))]
fn read_areas(bytes: &[u8], len: u64) -> Result<Areas, Stop<RingFault>>
    requires { sizes.is_accepted (length bytes.now) ≡ true }
    ensures found { Gives (λ areas. areas) result (areas_in len bytes.now) }
    ensures fits { IfOk result (λ areas. Fits areas len) }
    ensures no_read { IsErrOf result ReadFault → ⊥ }
{
    let Ok(zero) = nx_read(bytes) else {
        return Err(Stop::Found(RingFault::BlockZero));
    };
    if !are_inside(&zero) {
        return Err(Stop::Found(RingFault::BlockZero));
    }
    let have = len / u64::from(zero.block_size());
    let need = zero.block_count();
    if have < need {
        return Err(Stop::Found(RingFault::Truncated { have, need }));
    }
    if !are_contiguous(&zero) {
        return Err(Stop::Unsupported {
            feature: Feature::NonContiguous,
            block: 0,
        });
    }
    Ok(Areas::of(&zero))
}

// The areas that block 0 names, or the first of its tests that fails.
#[tactic(auto, unfolding(crate::specs::Zero::after_zero, crate::specs::Zero::is_right, crate::specs::Reading::areas_in, crate::specs::Reading::zero_in))]
pub(crate) fn areas<S: BlockSource>(alloc: Global, src: &mut S) -> Result<Areas, Stop<RingFault>>
    ensures found { (image : List ℕ) → S.bytes src.old ≡ Some image → Gives (λ areas. areas) result (after_zero image (Ok (areas_of (zero_of image)))) }
    ensures fits { IfOk result (λ areas. Fits areas (S.bytes_len src.old)) }
    ensures cause { IsErrOf result ReadFault → Rose (S.faults src.old) (S.faults src.new) }
    ensures kept { IsKept S.bytes S.bytes_len S.faults src.old src.new }
    ensures reads { (image : List ℕ) → S.bytes src.old ≡ Some image → S.reads src.new ≤ S.reads src.old + zero_reads image }
{
    let bytes = read_zero(alloc, src)?;
    read_areas(&bytes, src.size())
}
