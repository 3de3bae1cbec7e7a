// The rules on the places of extents, and the extents of a view.
ghost use Rattle.std.specs.Prelude.{◌≡◌, ◌<◌, IfOk};
ghost use Rattle.ext_ref.specs.Cover.{is_covered};
ghost use Rattle.ext_ref.specs.Spans.{IsCoverOf};
ghost use Rattle.fs_record.specs.StreamExtents as stream;
ghost use Rattle.view_rules.specs.Extents as spec;
ghost use Rattle.view_rules.specs.Listed as listed;
ghost use Rattle.rule_breaks.specs.Order as order;

use blk_source::NoMemory;
use ext_ref::{Cover, NewRange};
use fs_record::FileExt;
use std::alloc::Global;
use view_facts::{ExtentFact, Facts};

/// A first block of 2^63 or more is a negative one (General-Purpose Types, `prange_t`).
const NEGATIVE: u64 = 0x8000_0000_0000_0000;

// Whether an extent is a hole, or lies in a container of so many blocks.
#[tactic(auto, unfolding(fs_record::specs::StreamExtents::is_extent_placed))]
fn is_placed(block_size: u32, blocks: u64, extent: FileExt) -> bool
    requires { 0 < block_size }
    ensures { result ≡ stream.is_extent_placed block_size blocks extent }
{
    if extent.block == 0 {
        return true;
    }
    if extent.block >= NEGATIVE {
        return false;
    }
    u128::from(extent.block) + u128::from(extent.blocks(block_size)) <= u128::from(blocks)
}

/// Whether an extent leaves the container.
#[tactic(auto, unfolding(view_rules::specs::Extents::is_misplaced))]
pub fn is_misplaced(block_size: u32, blocks: u64, f: &ExtentFact) -> bool
    requires { 0 < block_size }
    ensures { result ≡ spec.is_misplaced block_size blocks f.now }
{
    !is_placed(block_size, blocks, f.extent())
}

// Whether some ranges cover a range of blocks.
#[tactic(auto, using(crate::proofs::Covered::covers_same))]
fn covers(cover: &Cover, ranges: &[NewRange], first: u64, length: u64) -> bool
    requires { IsCoverOf ranges.now cover.now }
    ensures { result ≡ is_covered ranges.now first length }
{
    cover.covers(first, length)
}

/// Whether an extent that is no hole isn't covered.
#[tactic(auto, unfolding(view_rules::specs::Extents::is_uncovered))]
pub fn is_uncovered(block_size: u32, cover: &Cover, ranges: &[NewRange], f: &ExtentFact) -> bool
    requires size { 0 < block_size }
    requires cover { IsCoverOf ranges.now cover.now }
    ensures { result ≡ spec.is_uncovered block_size ranges.now f.now }
{
    let extent = f.extent();
    extent.block != 0 && !covers(cover, ranges, extent.block, extent.blocks(block_size))
}

// An extent after its stream's id.
pub(crate) fn piece(f: &ExtentFact) -> (u64, FileExt)
    ensures { result ≡ order.piece f.now }
{
    (f.id(), f.extent())
}

/// The extents among some facts, each after its stream's id.
pub fn extents_with_ids(alloc: Global, facts: &Facts) -> Result<Vec<(u64, FileExt)>, NoMemory>
    ensures { IfOk result (λ extents. extents.items ≡ listed.extents_with_ids facts.now) }
{
    let extents = facts.extents.iter().map(piece).collect(alloc)?;
    Ok(extents)
}
