// Images of several checkpoints, by edits of one of transaction 1 with blocks of 4,096 bytes.
ghost use Rattle.std.specs.Prelude.{◌≡◌, ◌≢◌, ℕ, ◌*◌, ◌≤◌, ◌↔◌, All, IsTrue, length, false};
ghost use Rattle.apfs_model.specs.Blocks.{block_of};
ghost use Rattle.img_make.specs.Checkpoints.{IsNoRingBlock, IsNoSecondBlock};

use apfs_layout::checkpoint_map::{MAPPING_LEN, MAPPING_PADDR, MAPPINGS};
use apfs_layout::container::{DATA_INDEX, DATA_NEXT, DESC_INDEX, DESC_NEXT, NEXT_XID};
use apfs_layout::object::{OID, SUM, XID};
use img_edit::{edit, write};

const BLOCK: usize = 4096;

// An edit: a block, a place in it, and the number of 32 bits that it gets.
type Edit = (usize, usize, u32);

// The checkpoint of transaction 2: which blocks are copied, and what is then other in them.
const SECOND: [(usize, usize); 6] = [(1, 3), (2, 4), (9, 13), (10, 14), (11, 15), (12, 16)];

const SECOND_EDITS: [Edit; 16] = [
    (3, XID, 2),
    (3, OID, 3),
    (3, MAPPINGS + MAPPING_PADDR, 13),
    (3, MAPPINGS + MAPPING_LEN + MAPPING_PADDR, 14),
    (3, MAPPINGS + 2 * MAPPING_LEN + MAPPING_PADDR, 15),
    (3, MAPPINGS + 3 * MAPPING_LEN + MAPPING_PADDR, 16),
    (4, XID, 2),
    (4, NEXT_XID, 3),
    (4, DESC_INDEX, 2),
    (4, DESC_NEXT, 4),
    (4, DATA_INDEX, 4),
    (4, DATA_NEXT, 8),
    (13, XID, 2),
    (14, XID, 2),
    (15, XID, 2),
    (16, XID, 2),
];

// The ring of four superblocks.
const RING: [(usize, usize); 3] = [(2, 4), (2, 6), (2, 8)];

const RING_EDITS: [Edit; 8] = [
    (0, XID, 9),
    (2, XID, 9),
    (4, XID, 6),
    (4, DESC_INDEX, 2),
    (6, XID, 7),
    (6, DESC_INDEX, 4),
    (8, XID, 8),
    (8, DESC_INDEX, 6),
];

// Copies a block to another, where the image has both.
#[tactic(auto, using(img_edit::proofs::Others::other_stays))]
fn copy(image: &mut [u8], from: usize, to: usize)
    ensures { (k : ℕ) → k ≢ to → block_of 4096 image.new k ≡ block_of 4096 image.old k }
{
    let mut block = [0u8; BLOCK];
    match image.chunks_exact(BLOCK).nth(from) {
        Some(bytes) => {
            for (place, byte) in block.iter_mut().zip(bytes.iter()) {
                *place = *byte;
            }
        }
        None => return,
    }
    let _ = write(image, BLOCK, to, 0, &block);
}

// Copies blocks, each as where it stands and where its copy does.
fn copy_all(image: &mut [u8], copies: &[(usize, usize)])
    ensures { (k : ℕ) → All (λ copy. copy.1 ≢ k) copies.now → block_of 4096 image.new k ≡ block_of 4096 image.old k }
{
    for (from, to) in copies.iter() {
        copy(image, *from, *to);
    }
}

// Edits a block, where the image has it.
#[tactic(auto, using(img_edit::proofs::Others::other_stays))]
fn edit_block(image: &mut [u8], block: usize, at: usize, number: u32)
    ensures { (k : ℕ) → k ≢ block → block_of 4096 image.new k ≡ block_of 4096 image.old k }
{
    let _ = edit(image, BLOCK, block, at, &number.to_le_bytes());
}

// Makes the stored sum of a block 0, where the image has it.
#[tactic(auto, using(img_edit::proofs::Others::other_stays))]
fn clear_sum(image: &mut [u8], block: usize)
    ensures { (k : ℕ) → k ≢ block → block_of 4096 image.new k ≡ block_of 4096 image.old k }
{
    let _ = write(image, BLOCK, block, SUM, &[0; 8]);
}

// Edits blocks.
fn edit_all(image: &mut [u8], edits: &[Edit])
    ensures { (k : ℕ) → All (λ edit. edit.0 ≢ k) edits.now → block_of 4096 image.new k ≡ block_of 4096 image.old k }
{
    for (block, at, number) in edits.iter() {
        edit_block(image, *block, *at, *number);
    }
}

/// Adds a checkpoint of transaction 2, whose space manager has a wrong sum, so that it is skipped: its map in block 3,
/// its superblock in block 4, its four objects in blocks 13 to 16. Answers whether the image has these blocks.
pub fn skipped_checkpoint(image: &mut [u8]) -> bool
    ensures decides { IsTrue result ↔ (17 * 4096 ≤ length image.old) }
    ensures as_it_was { result ≡ false → image.new ≡ image.old }
    ensures same { (k : ℕ) → IsNoSecondBlock k → block_of 4096 image.new k ≡ block_of 4096 image.old k }
{
    if image.len() < 17 * BLOCK {
        return false;
    }
    copy_all(image, &SECOND);
    edit_all(image, &SECOND_EDITS);
    clear_sum(image, 13);
    true
}

/// Makes four superblocks in blocks 2, 4, 6 and 8 of the transactions 9, 6, 7 and 8, of which the second one has a
/// wrong sum; block 0 is a copy of the first. Answers whether the image has these blocks.
pub fn ring_of_four(image: &mut [u8]) -> bool
    ensures decides { IsTrue result ↔ (9 * 4096 ≤ length image.old) }
    ensures as_it_was { result ≡ false → image.new ≡ image.old }
    ensures same { (k : ℕ) → IsNoRingBlock k → block_of 4096 image.new k ≡ block_of 4096 image.old k }
{
    if image.len() < 9 * BLOCK {
        return false;
    }
    copy_all(image, &RING);
    edit_all(image, &RING_EDITS);
    clear_sum(image, 4);
    true
}
