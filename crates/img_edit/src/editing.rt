// Edits of a block of an image, after which an object is whole again.
ghost use Rattle.std.specs.Prelude.{◌≡◌, ◌+◌, ◌*◌, ◌≤◌, ◌<◌, ◌%◌, ◌↔◌, IsTrue, MatchOption, false, length};
ghost use Rattle.apfs_model.specs.Blocks.{block_of};
ghost use Rattle.img_edit.specs.Edits.{HasBlock, IsSameAround, IsSealedAs, put_at};

use crate::seal::reseal;
use crate::writer::put_bytes;

// Where a block starts, where an image of so many bytes has it.
pub(crate) fn start_of(length: usize, block_size: usize, block: usize) -> Option<usize>
    ensures { MatchOption result (length < block_size * block + block_size) (λ start. (start ≡ block_size * block) × (start + block_size ≤ length)) }
{
    let start = block_size.checked_mul(block)?;
    if start <= length && block_size <= length - start {
        Some(start)
    } else {
        None
    }
}

/// Writes the bytes from byte `at` of a block on, and leaves the block's sum as it is. Answers whether the image has
/// the block and the block has room for them; otherwise nothing is written.
#[tactic(auto, using(std::proofs::lemmas::Slice::overwrites), unfolding(apfs_model::specs::Blocks::block_of))]
pub fn write(image: &mut [u8], block_size: usize, block: usize, at: usize, part: &[u8]) -> bool
    ensures decides { IsTrue result ↔ (HasBlock block_size block image.old × (at + length part.now ≤ block_size)) }
    ensures value { IsTrue result → block_of block_size image.new block ≡ put_at at part.now (block_of block_size image.old block) }
    ensures same { IsSameAround (block_size * block) (block_size * block + block_size) image.old image.new }
    ensures none { result ≡ false → image.new ≡ image.old }
{
    let Some(start) = start_of(image.len(), block_size, block) else {
        return false;
    };
    if at > block_size || part.len() > block_size - at {
        return false;
    }
    put_bytes(&mut image[start..start + block_size], at, part);
    true
}

/// Stores the sum of a block anew. Answers whether the image has the block; otherwise nothing is written.
#[tactic(auto, using(std::proofs::lemmas::Slice::overwrites), unfolding(apfs_model::specs::Blocks::block_of))]
pub fn reseal_block(image: &mut [u8], block_size: usize, block: usize) -> bool
    requires whole { block_size % 4 ≡ 0 }
    requires long { 12 ≤ block_size }
    ensures decides { IsTrue result ↔ HasBlock block_size block image.old }
    ensures value { IsTrue result → IsSealedAs block_size block image.new (block_of block_size image.old block) }
    ensures same { IsSameAround (block_size * block) (block_size * block + block_size) image.old image.new }
    ensures none { result ≡ false → image.new ≡ image.old }
{
    let Some(start) = start_of(image.len(), block_size, block) else {
        return false;
    };
    reseal(&mut image[start..start + block_size]);
    true
}

/// Writes the bytes from byte `at` of a block on, and stores the block's sum anew. Answers whether the image has the
/// block and the block has room for them; otherwise nothing is written.
pub fn edit(image: &mut [u8], block_size: usize, block: usize, at: usize, part: &[u8]) -> bool
    requires whole { block_size % 4 ≡ 0 }
    requires long { 12 ≤ block_size }
    ensures decides { IsTrue result ↔ (HasBlock block_size block image.old × (at + length part.now ≤ block_size)) }
    ensures value { IsTrue result → IsSealedAs block_size block image.new (put_at at part.now (block_of block_size image.old block)) }
    ensures same { IsSameAround (block_size * block) (block_size * block + block_size) image.old image.new }
    ensures none { result ≡ false → image.new ≡ image.old }
{
    write(image, block_size, block, at, part) && reseal_block(image, block_size, block)
}
