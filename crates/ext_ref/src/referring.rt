// How many streams refer to ranges.
ghost use Rattle.std.specs.Prelude.{◌≡◌, ◌<◌, length, true, IfOk};
ghost use Rattle.apfs_model.specs.Lists.{distinct};
ghost use Rattle.obj_base.specs.BlockSize.{is_accepted};
ghost use Rattle.ext_ref.specs.References as spec;
ghost use Rattle.ext_ref.specs.Scanned.{references_of};
ghost use Rattle.ext_ref.specs.Sweep.{AreRising, AreCounts};

use crate::NewRange;
use crate::sweeping::Sweep;
use apfs_model::NoMemory;
use fs_record::FileExt;
use std::alloc::{AllocError, Global};

// The block after an extent's last one.
pub(crate) fn end_of(extent: FileExt, block_size: u32) -> u128
    requires { 0 < block_size }
    ensures { result ≡ spec.end_of block_size extent }
{
    u128::from(extent.block) + u128::from(extent.blocks(block_size))
}

// Whether an extent other than a hole has a block in common with a range.
#[tactic(auto, unfolding(crate::specs::References::touches))]
fn touches(range: NewRange, extent: FileExt, block_size: u32) -> bool
    requires { 0 < block_size }
    ensures { result ≡ spec.touches block_size range extent }
{
    let end = u128::from(range.first) + u128::from(range.length);
    let reach = end_of(extent, block_size);
    extent.block != 0 && u128::from(range.first.max(extent.block)) < end.min(reach)
}

// The ids of the extents that touch a range.
fn ids_touching(
    alloc: Global,
    range: NewRange,
    extents: &[(u64, FileExt)],
    block_size: u32,
) -> Result<Vec<u64>, AllocError>
    requires { 0 < block_size }
    ensures { IfOk result (λ ids. ids.items ≡ spec.ids_touching block_size extents.now range) }
{
    extents
        .iter()
        .filter(|extent| touches(range, extent.1, block_size))
        .map(|extent| extent.0)
        .collect(alloc)
}

// How many different numbers there are.
fn count_distinct(mut numbers: Vec<u64>) -> Result<u64, AllocError>
    ensures { IfOk result (λ count. count ≡ length (distinct numbers.items)) }
{
    numbers.sort()?;
    numbers.dedup();
    Ok(numbers.as_slice().len() as u64)
}

// How many streams touch a range, by all extents.
#[tactic(auto, unfolding(crate::specs::References::streams_of))]
fn count_alone(
    alloc: Global,
    range: NewRange,
    extents: &[(u64, FileExt)],
    block_size: u32,
) -> Result<u64, AllocError>
    requires { 0 < block_size }
    ensures { IfOk result (λ count. count ≡ spec.streams_of block_size extents.now range) }
{
    let ids = ids_touching(alloc, range, extents, block_size)?;
    count_distinct(ids)
}

// How many streams touch a range, by a sweep, or by all extents where the sweep left the range out.
fn count_of(
    alloc: Global,
    sweep: &Sweep,
    range: NewRange,
    extents: &[(u64, FileExt)],
    block_size: u32,
) -> Result<u64, AllocError>
    requires some { 0 < block_size }
    requires rising { AreRising sweep.now.spans.items }
    requires counts { AreCounts block_size extents.now sweep.now.spans.items sweep.now.counts.items }
    ensures { IfOk result (λ count. count ≡ spec.streams_of block_size extents.now range) }
{
    match sweep.find(range) {
        Some(count) => Ok(count),
        None => count_alone(alloc, range, extents, block_size),
    }
}

// The same for each range.
fn counted(
    alloc: Global,
    ranges: &[NewRange],
    extents: &[(u64, FileExt)],
    block_size: u32,
) -> Result<Vec<u64>, AllocError>
    requires { is_accepted block_size ≡ true }
    ensures { IfOk result (λ counts. counts.items ≡ references_of block_size ranges.now extents.now) }
{
    let sweep = Sweep::of(alloc, ranges, extents, block_size)?;
    let mut counts = Vec::new(alloc);
    for range in ranges {
        counts.push(count_of(alloc, &sweep, *range, extents, block_size)?)?;
    }
    Ok(counts)
}

/// For each range, how many streams have an extent with a block other than 0 that has a block in common with it. An extent
/// stands after its stream's id. Sorts the ranges, and the extents by their streams; then searches for each of both. Only a range that has no
/// block, or shares one with another range and ends before it or begins with it, is looked for among all extents.
///
/// # Errors
///
/// `NoMemory`: an allocation failed.
pub fn references(
    alloc: Global,
    ranges: &[NewRange],
    extents: &[(u64, FileExt)],
    block_size: u32,
) -> Result<Vec<u64>, NoMemory>
    requires { is_accepted block_size ≡ true }
    ensures { IfOk result (λ counts. counts.items ≡ references_of block_size ranges.now extents.now) }
{
    match counted(alloc, ranges, extents, block_size) {
        Ok(counts) => Ok(counts),
        Err(_) => Err(NoMemory),
    }
}
