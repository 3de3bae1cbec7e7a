// The candidates of the descriptor area.
//
// Tests: a block of the area is a sound superblock, agrees with block 0, and its container lies in the image. Gives:
// the list of candidates. Rests on: the areas of a right block 0.
ghost use Rattle.std.specs.Prelude.{◌≡◌, ◌+◌, ◌*◌, ◌%◌, ◌≤◌, ◌<◌, ◌^◌, ◌++◌, List, ℕ, All, Some, Ok, Err, length, IfOk, IfErr, IfSome, IsErrOf, OnOk, true};
ghost use Rattle.std.specs.Option.{option_to_list};
ghost use Rattle.apfs_model.specs.Counts.{Rose};
ghost use Rattle.apfs_model.specs.Kept.{IsKept};
ghost use Rattle.obj_base.specs.BlockSize as sizes;
ghost use Rattle.obj_base.specs.Stops.{Gives, Tells};
ghost use Rattle.obj_base.specs.declared.stop.Stop.TheVariants.{Found, Unsupported, ReadFault, NoMemory};
ghost use Rattle.nx_block.specs.Super.{desc_blocks_of};
ghost use Rattle.nx_block.specs.Read.{read_of};
ghost use Rattle.nx_ring.specs.Zero.{zero_of, areas_of, IsNonContiguous};
ghost use Rattle.nx_ring.specs.Reading.{zero_reads, Fits, IsHeld};
ghost use Rattle.nx_ring.specs.Candidates.{candidate_in, candidate, candidates, all_candidates};
ghost use Rattle.nx_ring.specs.Ring.{ring_of, IsRingFault};

use crate::areas::Areas;
use crate::zero::areas;
use crate::{RingFault, RingLine};
use blk_read::read_new;
use blk_source::BlockSource;
use nx_block::nx_read;
use obj_base::Stop;
use std::alloc::Global;

// The line of a block at an index, where it is a candidate in an image of `len` bytes.
#[tactic(auto, using(nx_block::proofs::Laws::read_means), unfolding(crate::specs::Candidates::is_candidate, crate::specs::Candidates::candidate_in))]
pub(crate) fn line_in(areas: &Areas, index: u32, len: u64, bytes: &[u8]) -> Option<RingLine>
    requires whole { sizes.is_accepted (length bytes.now) ≡ true }
    requires small { areas.now.desc_base + index < 2 ^ 64 }
    ensures found { result ≡ candidate_in len areas.now index bytes.now }
    ensures here { IfSome result (λ line. line.index ≡ index) }
    ensures read { IfSome result (λ line. read_of bytes.now ≡ Ok bytes.now) }
    ensures held { IfSome result (λ line. IsHeld bytes.now len) }
{
    let Ok(nx) = nx_read(bytes) else {
        return None;
    };
    let held = nx.block_count().checked_mul(u64::from(nx.block_size()));
    if areas.are_those_of(&nx) && held.is_some_and(|held| held <= len) {
        return Some(RingLine {
            index,
            block: areas.desc_base + u64::from(index),
            xid: nx.header().xid,
            desc_index: nx.desc_index(),
            desc_len: nx.desc_len(),
        });
    }
    None
}

// Reads the block at an index, and gives its line where it is a candidate.
#[tactic(auto, using(crate::proofs::Fitting::block_fits), unfolding(crate::specs::Candidates::ring_block))]
fn candidate_at<S: BlockSource>(
    alloc: Global,
    src: &mut S,
    areas: &Areas,
    index: u32,
) -> Result<Option<RingLine>, Stop<RingFault>>
    requires fits { Fits areas.now (S.bytes_len src.old) }
    requires inside { index < areas.now.desc_blocks }
    ensures found { (image : List ℕ) → S.bytes src.old ≡ Some image → Gives (λ line. line) result (Ok (candidate image areas.now index)) }
    ensures here { IfOk result (λ found. IfSome found (λ line. line.index ≡ index)) }
    ensures cause { IsErrOf result ReadFault → Rose (S.faults src.old) (S.faults src.new) }
    ensures kept { IsKept S.bytes S.bytes_len S.faults src.old src.new }
    ensures reads { S.reads src.new ≤ S.reads src.old + 1 }
{
    let len = src.size();
    let bytes = read_new(alloc, src, areas.desc_base + u64::from(index), areas.size)?;
    Ok(line_in(areas, index, len, &bytes))
}

// Adds a line, if there is one.
fn keep(lines: &mut Vec<RingLine>, found: Option<RingLine>) -> Result<(), Stop<RingFault>>
    ensures added { OnOk result (lines.new.items ≡ lines.old.items ++ option_to_list found) }
    ensures memory_only { IfErr result (λ stop. stop ≡ NoMemory) }
{
    if let Some(line) = found {
        lines.push(line)?;
    }
    Ok(())
}

// Reads the blocks of the descriptor area.
pub(crate) fn lines<S: BlockSource>(
    alloc: Global,
    src: &mut S,
    areas: &Areas,
) -> Result<Vec<RingLine>, Stop<RingFault>>
    requires { Fits areas.now (S.bytes_len src.old) }
    ensures found { (image : List ℕ) → S.bytes src.old ≡ Some image → Gives (λ lines. lines.items) result (Ok (all_candidates image areas.now)) }
    ensures inside { IfOk result (λ lines. All (λ line. line.index < areas.now.desc_blocks) lines.items) }
    ensures cause { IsErrOf result ReadFault → Rose (S.faults src.old) (S.faults src.new) }
    ensures kept { IsKept S.bytes S.bytes_len S.faults src.old src.new }
    ensures reads { S.reads src.new ≤ S.reads src.old + areas.now.desc_blocks }
{
    let mut lines = Vec::new(alloc);
    'indices: for index in 0..areas.desc_blocks {
        let found = match candidate_at(alloc, src, areas, index) {
            Ok(found) => found,
            Err(stop) => return Err(stop),
        };
        keep(&mut lines, found)?;
    }
    Ok(lines)
}

/// The candidates of the descriptor area, by index, or the first test of block 0 that fails: `BlockZero`, `Truncated`,
/// `NonContiguous` (Container, "Mounting an Apple File System Partition").
///
/// One read for the first 4,096 bytes, one more for block 0 where it is larger, and one for each block of the descriptor
/// area. Memory is taken for two blocks and the candidates.
#[tactic(auto, using(crate::proofs::Present::told_present), unfolding(crate::specs::Ring::ring_of, crate::specs::Zero::after_zero, crate::specs::Zero::where_whole, crate::specs::Zero::areas_of))]
pub fn ring<S: BlockSource>(alloc: Global, src: &mut S) -> Result<Vec<RingLine>, Stop<RingFault>>
    ensures clear { (image : List ℕ) → S.bytes src.old ≡ Some image → IfOk result (λ lines. ring_of image ≡ Ok lines.items) }
    ensures first { (image : List ℕ) → S.bytes src.old ≡ Some image → IfErr result (Tells (λ fault. ring_of image ≡ Err (Found fault)) (λ name block. ring_of image ≡ Err (Unsupported name block))) }
    ensures present { (image : List ℕ) → S.bytes src.old ≡ Some image → IfErr result (Tells (IsRingFault image) (IsNonContiguous image)) }
    ensures cause { IsErrOf result ReadFault → Rose (S.faults src.old) (S.faults src.new) }
    ensures kept { IsKept S.bytes S.bytes_len S.faults src.old src.new }
    ensures reads { (image : List ℕ) → S.bytes src.old ≡ Some image → S.reads src.new ≤ S.reads src.old + (zero_reads image + desc_blocks_of (zero_of image)) }
{
    let areas = areas(alloc, src)?;
    lines(alloc, src, &areas)
}
