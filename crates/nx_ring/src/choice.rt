// The newest checkpoint.
//
// Tests: block 0, some candidate is valid, the container has no feature that is refused. Gives: the valid candidate of
// the greatest transaction, and of the least index on a tie. Rests on: the candidates, and which are valid.
ghost use Rattle.std.specs.Prelude.{◌≡◌, ◌+◌, ◌*◌, ◌≤◌, ◌<◌, ◌++◌, List, ℕ, All, length, option_map, find, if◌then◌else◌, Some, None, Ok, true, [], ◌∷◌, IfOk, IfErr, OnOk, IfSome, IsErrOf};
ghost use Rattle.apfs_model.specs.Counts.{Rose};
ghost use Rattle.apfs_model.specs.Kept.{IsKept};
ghost use Rattle.obj_base.specs.Stops.{Gives, Tells, IsFree};
ghost use Rattle.obj_base.specs.declared.stop.Stop.TheVariants.{ReadFault, NoMemory};
ghost use Rattle.nx_block.specs.Super.{block_size_of, block_count_of, desc_blocks_of, data_blocks_of};
ghost use Rattle.nx_ring.specs.Zero.{zero_of, areas_of};
ghost use Rattle.nx_ring.specs.Reading.{zero_reads, Fits, AreCandidates};
ghost use Rattle.nx_ring.specs.Candidates.{candidate, all_candidates};
ghost use Rattle.nx_ring.specs.Known.{AreKnown};
ghost use Rattle.nx_ring.specs.Valid as valid;
ghost use Rattle.nx_ring.specs.Newest as found;
ghost use Rattle.nx_ring.specs.Reading as reading;
ghost use Rattle.nx_ring.specs.Newest.{newest_of};
ghost use Rattle.nx_ring.specs.Features.{container_features};
ghost use Rattle.nx_ring.specs.Ring.{IsRingFault, IsRingFeature};
ghost use Rattle.nx_ring.specs.Checkpoint.{Seen, site_of};
ghost use Rattle.obj_base.specs.BlockSize as sizes;
ghost use Rattle.obj_base.specs.Site.{IsSiteFor};

use crate::areas::Areas;
use crate::candidates::{line_in, lines};
use crate::features::feature_of;
use crate::known::Known;
use crate::mappings::Mapping;
use crate::order::by_transaction;
use crate::valid::{read_objects, valid_mappings};
use crate::zero::areas;
use crate::{Checkpoint, RingFault, RingLine};
use blk_read::read_new;
use blk_source::BlockSource;
use obj_base::Stop;
use std::alloc::Global;
use std::collections::BTreeMap;

// The checkpoint of a candidate that was found valid, with its mappings, by reading its objects.
fn load<S: BlockSource>(
    alloc: Global,
    src: &mut S,
    areas: &Areas,
    line: &RingLine,
    mappings: &[Mapping],
) -> Result<Option<Checkpoint>, Stop<RingFault>>
    requires fits { Fits areas.now (S.bytes_len src.old) }
    requires inside { line.now.index < areas.now.desc_blocks }
    requires some { 1 ≤ line.now.desc_len }
    requires placed { valid.are_placed areas.now mappings.now ≡ true }
    ensures found { (image : List ℕ) → S.bytes src.old ≡ Some image → candidate image areas.now line.now.index ≡ Some line.now → valid.is_valid image areas.now line.now ≡ true → mappings.now ≡ valid.mappings_of image areas.now line.now → IfOk result (λ new. new ≡ Some (found.seen_of image areas.now [] line.now)) }
    ensures holds { IfOk result (λ new. IfSome new (λ seen. reading.IsHeld seen.nx (S.bytes_len src.old))) }
    ensures free { IfErr result IsFree }
    ensures cause { IsErrOf result ReadFault → Rose (S.faults src.old) (S.faults src.new) }
    ensures kept { IsKept S.bytes S.bytes_len S.faults src.old src.new }
    ensures reads { S.reads src.new ≤ S.reads src.old + (1 + length (valid.blocks_of areas.now mappings.now)) }
{
    let len = src.size();
    let superblock = read_new(
        alloc,
        src,
        areas.desc_base + u64::from(line.index),
        areas.size,
    )?;
    let Some(_entry) = line_in(areas, line.index, len, superblock.as_slice()) else {
        return Ok(None);
    };
    let Some(objects) = read_objects(alloc, src, areas, line.xid, mappings)? else {
        return Ok(None);
    };
    Ok(Some(Checkpoint::of(alloc, *line, superblock, objects)))
}

// The checkpoint of a candidate, where it is valid.
#[tactic(auto)]
fn checkpoint_at<S: BlockSource>(
    alloc: Global,
    src: &mut S,
    areas: &Areas,
    line: &RingLine,
    known: &mut Known,
) -> Result<Option<Checkpoint>, Stop<RingFault>>
    requires fits { Fits areas.now (S.bytes_len src.old) }
    requires inside { line.now.index < areas.now.desc_blocks }
    ensures found { (image : List ℕ) → S.bytes src.old ≡ Some image → AreKnown image areas.now known.old → candidate image areas.now line.now.index ≡ Some line.now → IfOk result (λ new. new ≡ (if valid.is_valid image areas.now line.now then Some (found.seen_of image areas.now [] line.now) else None)) }
    ensures known { (image : List ℕ) → S.bytes src.old ≡ Some image → AreKnown image areas.now known.old → OnOk result (AreKnown image areas.now known.new) }
    ensures holds { IfOk result (λ new. IfSome new (λ seen. reading.IsHeld seen.nx (S.bytes_len src.old))) }
    ensures free { IfErr result IsFree }
    ensures cause { IsErrOf result ReadFault → Rose (S.faults src.old) (S.faults src.new) }
    ensures kept { IsKept S.bytes S.bytes_len S.faults src.old src.new }
    ensures reads { (image : List ℕ) → S.bytes src.old ≡ Some image → AreKnown image areas.now known.old → S.reads src.new ≤ S.reads src.old + (areas.now.desc_blocks + areas.now.data_blocks + reading.loaded image areas.now line.now) }
{
    let Some(mappings) = valid_mappings(alloc, src, areas, line, known)? else {
        return Ok(None);
    };
    load(alloc, src, areas, line, mappings.as_slice())
}

// The checkpoint of the first of some candidates that is valid.
fn first_valid<S: BlockSource>(
    alloc: Global,
    src: &mut S,
    areas: &Areas,
    lines: &[RingLine],
) -> Result<Option<Checkpoint>, Stop<RingFault>>
    requires fits { Fits areas.now (S.bytes_len src.old) }
    requires inside { All (λ line. line.index < areas.now.desc_blocks) lines.now }
    ensures found { (image : List ℕ) → S.bytes src.old ≡ Some image → AreCandidates image areas.now lines.now → IfOk result (λ new. new ≡ option_map (found.seen_of image areas.now []) (find (valid.is_valid image areas.now) lines.now)) }
    ensures holds { IfOk result (λ new. IfSome new (λ seen. reading.IsHeld seen.nx (S.bytes_len src.old))) }
    ensures free { IfErr result IsFree }
    ensures cause { IsErrOf result ReadFault → Rose (S.faults src.old) (S.faults src.new) }
    ensures kept { IsKept S.bytes S.bytes_len S.faults src.old src.new }
    ensures reads { (image : List ℕ) → S.bytes src.old ≡ Some image → AreCandidates image areas.now lines.now → length lines.now ≡ length (all_candidates image areas.now) → S.reads src.new ≤ S.reads src.old + areas.now.desc_blocks * (areas.now.desc_blocks + areas.now.data_blocks) }
{
    let mut known = BTreeMap::new(alloc);
    'each: for line in lines {
        let found = checkpoint_at(alloc, src, areas, line, &mut known)?;
        if found.is_some() {
            return Ok(found);
        }
    }
    Ok(None)
}

// Adds a candidate, where its transaction is greater.
#[tactic(auto, unfolding(crate::specs::Newest::skipped_of))]
fn add_skipped(line: &RingLine, xid: u64, into: &mut Vec<(u32, u64)>) -> Result<(), Stop<RingFault>>
    ensures added { OnOk result (into.new.items ≡ into.old.items ++ found.skipped_of (line.now ∷ []) xid) }
    ensures memory_only { IfErr result (λ stop. stop ≡ NoMemory) }
{
    if xid < line.xid {
        into.push((line.index, line.xid))?;
    }
    Ok(())
}

// The checkpoint, with the candidates before which it stands.
fn with_skipped(
    alloc: Global,
    mut checkpoint: Checkpoint,
    lines: &[RingLine],
) -> Result<Checkpoint, Stop<RingFault>>
    ensures found { IfOk result (λ seen. seen ≡ reading.passing checkpoint (found.skipped_of lines.now checkpoint.line.xid)) }
    ensures memory_only { IfErr result (λ stop. stop ≡ NoMemory) }
{
    let xid = checkpoint.xid();
    let mut passed = Vec::new(alloc);
    'each: for line in lines {
        add_skipped(line, xid, &mut passed)?;
    }
    checkpoint.passed = passed;
    Ok(checkpoint)
}

// The newest checkpoint, or the first of the four tests that fails.
fn find<S: BlockSource>(alloc: Global, src: &mut S) -> Result<Checkpoint, Stop<RingFault>>
    ensures found { (image : List ℕ) → S.bytes src.old ≡ Some image → Gives (λ seen. seen) result (found.newest_of image) }
    ensures holds { IfOk result (λ seen. reading.IsHeld seen.nx (S.bytes_len src.old)) }
    ensures cause { IsErrOf result ReadFault → Rose (S.faults src.old) (S.faults src.new) }
    ensures kept { IsKept S.bytes S.bytes_len S.faults src.old src.new }
    ensures reads { (image : List ℕ) → S.bytes src.old ≡ Some image → S.reads src.new ≤ S.reads src.old + (zero_reads image + desc_blocks_of (zero_of image) + desc_blocks_of (zero_of image) * (desc_blocks_of (zero_of image) + data_blocks_of (zero_of image))) }
{
    let areas = areas(alloc, src)?;
    let lines = lines(alloc, src, &areas)?;
    let listed = lines.as_slice();
    let tried = by_transaction(alloc, listed)?;
    match first_valid(alloc, src, &areas, tried.as_slice())? {
        Some(checkpoint) => with_skipped(alloc, checkpoint, listed),
        None => Err(Stop::Found(RingFault::NoCheckpoint)),
    }
}

// The checkpoint, where its container has no feature that is refused.
#[tactic(auto, using(crate::proofs::Sites::size_accepted))]
fn without_features(checkpoint: Checkpoint) -> Result<Checkpoint, Stop<RingFault>>
    ensures same { IfOk result (λ seen. seen ≡ checkpoint) }
    ensures clear { IfOk result (λ seen. container_features checkpoint.nx ≡ []) }
    ensures present { IfErr result (Tells (λ fault. ⊥) (λ name block. found.IsFeatureOf checkpoint name block)) }
    ensures no_read { IsErrOf result ReadFault → ⊥ }
    ensures accepted { sizes.is_accepted (block_size_of checkpoint.nx) ≡ true }
{
    if let Some(feature) = feature_of(&checkpoint.nx()) {
        return Err(Stop::Unsupported {
            feature,
            block: checkpoint.block(),
        });
    }
    Ok(checkpoint)
}

/// The newest valid checkpoint: of the candidates that are valid the one of the greatest transaction, and of the least
/// index on a tie (Container, "Mounting an Apple File System Partition"). The tests have this order: `BlockZero`,
/// `Truncated`, `NonContiguous`, `NoCheckpoint`, then the other features of the container by the newest superblock, of
/// which any that is there may be named.
///
/// One read for the first 4,096 bytes, one more for block 0 where it is larger, and one for each block of the descriptor
/// area. Then candidates are tried by falling transaction: each takes no more reads than both areas have blocks, for its
/// maps and the blocks of its objects, and ends at its first flaw. An object that was read to its end isn't read again.
/// At last the superblock and the objects of the newest are read once more, and these bytes alone are kept.
#[tactic(auto, using(crate::proofs::Sites::site_right))]
pub fn newest<S: BlockSource>(alloc: Global, src: &mut S) -> Result<Checkpoint, Stop<RingFault>>
    ensures clear { (image : List ℕ) → S.bytes src.old ≡ Some image → IfOk result (λ seen. newest_of image ≡ Ok seen) }
    ensures plain { IfOk result (λ seen. container_features seen.nx ≡ []) }
    ensures first { (image : List ℕ) → S.bytes src.old ≡ Some image → IfErr result (Tells (found.IsFault image) (found.IsFeature image)) }
    ensures present { (image : List ℕ) → S.bytes src.old ≡ Some image → IfErr result (Tells (IsRingFault image) (IsRingFeature image)) }
    ensures exact { (image : List ℕ) → S.bytes src.old ≡ Some image → (seen : Seen) → newest_of image ≡ Ok seen → container_features seen.nx ≡ [] → IfErr result IsFree }
    ensures site { IfOk result (λ seen. IsSiteFor (site_of seen) (S.bytes_len src.old)) }
    ensures cause { IsErrOf result ReadFault → Rose (S.faults src.old) (S.faults src.new) }
    ensures kept { IsKept S.bytes S.bytes_len S.faults src.old src.new }
    ensures reads { (image : List ℕ) → S.bytes src.old ≡ Some image → S.reads src.new ≤ S.reads src.old + (zero_reads image + desc_blocks_of (zero_of image) + desc_blocks_of (zero_of image) * (desc_blocks_of (zero_of image) + data_blocks_of (zero_of image))) }
{
    match find(alloc, src) {
        Ok(checkpoint) => without_features(checkpoint),
        Err(stop) => Err(stop),
    }
}
