// Blocks of an image marked and freed, with the counts made right.
ghost use Rattle.std.specs.Prelude.{◌≡◌, ◌+◌, ◌*◌, ◌/◌, ◌≤◌, ◌%◌, IfSome};
ghost use Rattle.apfs_model.specs.Blocks.{block_of};
ghost use Rattle.apfs_model.specs.Bytes as number;
ghost use Rattle.img_edit.specs.Edits.{IsSameAround, OthersStay, bitmap_of};

use crate::editing::{edit, start_of, write};
use crate::places::{POOL_BASE, SPACE_MANAGER};
use apfs_layout::chunk_info::{CHUNK_BITMAP, CHUNK_FREE, CIB_ENTRIES, ENTRY_LEN};
use apfs_layout::space_manager::MAIN_FREE;
use obj_base::u64_at;

// Where the bit of a block stands: its chunk's bitmap, the byte and the bit in it, and the chunk's entry in the
// chunk-info block.
#[derive(Clone, Copy)]
struct Spot {
    bitmap: usize,
    byte: usize,
    mask: u8,
    entry: usize,
}

// The number of 64 bits from byte `at` of a block on, where the image and the block have it.
#[tactic(auto, unfolding(apfs_model::specs::Blocks::block_of))]
fn number_in(image: &[u8], block_size: usize, block: usize, at: usize) -> Option<u64>
    ensures { IfSome result (λ n. n ≡ number.u64_at (block_of block_size image.now block) at) }
{
    let start = start_of(image.len(), block_size, block)?;
    let whole = &image[start..start + block_size];
    if block_size >= 8 && at <= block_size - 8 {
        Some(u64_at(whole, at))
    } else {
        None
    }
}

// Byte `at` of a block, where the image has it.
fn byte_in(image: &[u8], block_size: usize, block: usize, at: usize) -> Option<u8> {
    let place = block.checked_mul(block_size)?.checked_add(at)?;
    image.get(place).copied()
}

// Where the entry of a block's chunk starts in the chunk-info block.
fn entry_of(block_size: usize, block: usize) -> Option<usize>
    requires { 12 ≤ block_size }
    ensures { IfSome result (λ entry. entry ≡ 40 + 32 * (block / (8 * block_size))) }
{
    let bits = block_size.checked_mul(8)?;
    (block / bits)
        .checked_mul(ENTRY_LEN)?
        .checked_add(CIB_ENTRIES)
}

// Where the bit of a block stands, where its chunk has a bitmap.
fn spot_of(image: &[u8], block_size: usize, block: usize) -> Option<Spot>
    requires { 12 ≤ block_size }
    ensures { IfSome result (λ spot. spot.bitmap ≡ bitmap_of block_size block image.now) }
{
    let entry = entry_of(block_size, block)?;
    let place = entry.checked_add(CHUNK_BITMAP)?;
    let bitmap = number_in(image, block_size, POOL_BASE, place)?;
    let bit = block % block_size.checked_mul(8)?;
    if bitmap == 0 {
        return None;
    }
    Some(Spot {
        bitmap: bitmap as usize,
        byte: bit / 8,
        mask: 1 << (bit % 8),
        entry,
    })
}

// One free block less in the count of so many bytes at a place of a block, or one more.
fn count(
    image: &mut [u8],
    block_size: usize,
    block: usize,
    at: usize,
    bytes: usize,
    used: bool,
) -> bool
    requires whole { block_size % 4 ≡ 0 }
    requires long { 12 ≤ block_size }
    requires number { bytes ≤ 8 }
    ensures { IsSameAround (block_size * block) (block_size * block + block_size) image.old image.new }
{
    let Some(old) = number_in(image, block_size, block, at) else {
        return false;
    };
    let new = if used {
        old.wrapping_sub(1)
    } else {
        old.wrapping_add(1)
    };
    edit(image, block_size, block, at, &new.to_le_bytes()[..bytes])
}

// Changes the bit of a block and both counts of free blocks, where the bit is another.
#[tactic(auto, using(crate::proofs::Others::other_stays))]
fn set(image: &mut [u8], block_size: usize, block: usize, used: bool) -> bool
    requires whole { block_size % 4 ≡ 0 }
    requires long { 12 ≤ block_size }
    ensures { OthersStay block_size block image.old image.new }
{
    let Some(spot) = spot_of(image, block_size, block) else {
        return false;
    };
    let Some(old) = byte_in(image, block_size, spot.bitmap, spot.byte) else {
        return false;
    };
    if (old & spot.mask != 0) == used {
        return false;
    }
    let place = spot.entry.saturating_add(CHUNK_FREE);
    if !count(image, block_size, POOL_BASE, place, 4, used) {
        return false;
    }
    if !count(image, block_size, SPACE_MANAGER, MAIN_FREE, 8, used) {
        return false;
    }
    write(
        image,
        block_size,
        spot.bitmap,
        spot.byte,
        &[old ^ spot.mask],
    )
}

/// Marks a block used: in its chunk's bitmap, with one free block less in the chunk and in the container. Answers
/// whether it was free and its chunk has a bitmap.
pub fn mark(image: &mut [u8], block_size: usize, block: usize) -> bool
    requires whole { block_size % 4 ≡ 0 }
    requires long { 12 ≤ block_size }
    ensures { OthersStay block_size block image.old image.new }
{
    set(image, block_size, block, true)
}

/// Marks a block free: in its chunk's bitmap, with one free block more in the chunk and in the container. Answers
/// whether it was used and its chunk has a bitmap.
pub fn free(image: &mut [u8], block_size: usize, block: usize) -> bool
    requires whole { block_size % 4 ≡ 0 }
    requires long { 12 ≤ block_size }
    ensures { OthersStay block_size block image.old image.new }
{
    set(image, block_size, block, false)
}
