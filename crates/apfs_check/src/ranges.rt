// The new ranges of a volume and of its snapshots.
ghost use Rattle.std.specs.Prelude.{◌≡◌, ◌+◌, ◌≤◌, ◌<◌, ◌^◌, ◌∷◌, ◌++◌, [], ℕ, List, Some, Ok, map, flat_map, sum, OnOk, IfOk, IfErr, IsErrOf};
ghost use Rattle.apfs_model.specs.Counts.{Rose};
ghost use Rattle.apfs_model.specs.Lists.{In};
ghost use Rattle.apfs_model.specs.Kept.{IsKept};
ghost use Rattle.obj_base.specs.Site.{IsSiteFor};
ghost use Rattle.obj_base.specs.declared.stop.Stop.TheVariants.{ReadFault};
ghost use Rattle.nx_ring.specs.Checkpoint.{site_of};
ghost use Rattle.nx_ring.specs.Newest.{newest_of};
ghost use Rattle.vol_view.specs.declared.head.VolHead.{VolHead};
ghost use Rattle.ext_ref.specs.Ranges.{ranges_of};
ghost use Rattle.ext_ref.specs.Left.{AreShort};
ghost use Rattle.view_rules.specs.declared.profile.Profile as rules;
ghost use Rattle.apfs_check.specs.Volumes as spec;
ghost use Rattle.apfs_check.specs.Reads.{root_reads, ranges_reads};
ghost use Rattle.apfs_check.specs.Steps.{IsThere, IsReady, IsExtentsRoot, snapshot_root};

use crate::Fault;
use crate::raising::stop_of;
use blk_source::BlockSource;
use ext_ref::{NewRange, new_ranges};
use nx_ring::Checkpoint;
use obj_base::Stop;
use std::alloc::{AllocError, Global};
use vol_view::Volume;

// Puts a range after others, where its end is a number of 64 bits.
fn put_short(ranges: &mut Vec<NewRange>, range: NewRange) -> Result<(), AllocError>
    ensures added { range.first + range.length < 2 ^ 64 → OnOk result (ranges.new.items ≡ ranges.old.items ++ range ∷ []) }
    ensures short { AreShort ranges.old.items → OnOk result (AreShort ranges.new.items) }
{
    if range.first.checked_add(range.length).is_some() {
        ranges.push(range)?;
    }
    Ok(())
}

// The same for each of some ranges.
fn put_all_short(ranges: &mut Vec<NewRange>, more: &[NewRange]) -> Result<(), AllocError>
    ensures added { AreShort more.now → OnOk result (ranges.new.items ≡ ranges.old.items ++ more.now) }
    ensures short { AreShort ranges.old.items → OnOk result (AreShort ranges.new.items) }
{
    'more: for range in more {
        put_short(ranges, *range)?;
    }
    Ok(())
}

// Puts the new ranges of the extent reference tree of a root after others.
fn put_ranges<S: BlockSource>(
    alloc: Global,
    src: &mut S,
    cp: &Checkpoint,
    root: u64,
    ranges: &mut Vec<NewRange>,
) -> Result<(), Stop<Fault>>
    requires site { IsSiteFor (site_of cp.now) (S.bytes_len src.old) }
    ensures clear { (image : List ℕ) → S.bytes src.old ≡ Some image → OnOk result (ranges.new.items ≡ ranges.old.items ++ ranges_of image (site_of cp.now) root) }
    ensures short { AreShort ranges.old.items → OnOk result (AreShort ranges.new.items) }
    ensures present { (profile : rules.Profile) (image : List ℕ) (head : VolHead) → S.bytes src.old ≡ Some image → newest_of image ≡ Ok cp.now → In head (spec.sound_heads image cp.now) → IsExtentsRoot image cp.now head root → IfErr result (IsThere profile image) }
    ensures reads { (image : List ℕ) → S.bytes src.old ≡ Some image → OnOk result (S.reads src.new ≤ S.reads src.old + root_reads image (site_of cp.now) root) }
    ensures cause { IsErrOf result ReadFault → Rose (S.faults src.old) (S.faults src.new) }
    ensures kept { IsKept S.bytes S.bytes_len S.faults src.old src.new }
{
    let site = cp.site();
    match new_ranges(alloc, src, root, &site) {
        Ok(more) => Ok(put_all_short(ranges, &more)?),
        Err(stop) => Err(stop_of(stop, (cp.xid(), root))),
    }
}

// Puts the new ranges of a volume's snapshots after others, by transaction.
fn put_past_ranges<S: BlockSource>(
    alloc: Global,
    src: &mut S,
    cp: &Checkpoint,
    volume: &Volume,
    ranges: &mut Vec<NewRange>,
) -> Result<(), Stop<Fault>>
    requires site { IsSiteFor (site_of cp.now) (S.bytes_len src.old) }
    ensures clear { (image : List ℕ) → S.bytes src.old ≡ Some image → OnOk result (ranges.new.items ≡ ranges.old.items ++ flat_map (ranges_of image (site_of cp.now)) (map snapshot_root volume.now.snaps)) }
    ensures short { AreShort ranges.old.items → OnOk result (AreShort ranges.new.items) }
    ensures present { (profile : rules.Profile) (image : List ℕ) → S.bytes src.old ≡ Some image → IsReady image cp.now volume.now → IfErr result (IsThere profile image) }
    ensures reads { (image : List ℕ) → S.bytes src.old ≡ Some image → OnOk result (S.reads src.new ≤ S.reads src.old + sum (map (root_reads image (site_of cp.now)) (map snapshot_root volume.now.snaps))) }
    ensures cause { IsErrOf result ReadFault → Rose (S.faults src.old) (S.faults src.new) }
    ensures kept { IsKept S.bytes S.bytes_len S.faults src.old src.new }
{
    'snaps: for snapshot in &volume.snaps {
        match put_ranges(alloc, src, cp, snapshot.extents_root, ranges) {
            Ok(()) => {}
            Err(stop) => return Err(stop),
        }
    }
    Ok(())
}

/// The new ranges of a volume, and after them those of its snapshots. None ends after block 2^64 - 1.
pub(crate) fn volume_ranges<S: BlockSource>(
    alloc: Global,
    src: &mut S,
    cp: &Checkpoint,
    volume: &Volume,
) -> Result<Vec<NewRange>, Stop<Fault>>
    requires site { IsSiteFor (site_of cp.now) (S.bytes_len src.old) }
    ensures clear { (image : List ℕ) → S.bytes src.old ≡ Some image → IsReady image cp.now volume.now → IfOk result (λ ranges. ranges.items ≡ spec.volume_ranges image (site_of cp.now) volume.now.head) }
    ensures short { IfOk result (λ ranges. AreShort ranges.items) }
    ensures present { (profile : rules.Profile) (image : List ℕ) → S.bytes src.old ≡ Some image → IsReady image cp.now volume.now → IfErr result (IsThere profile image) }
    ensures reads { (image : List ℕ) → S.bytes src.old ≡ Some image → OnOk result (S.reads src.new ≤ S.reads src.old + ranges_reads image (site_of cp.now) volume.now) }
    ensures cause { IsErrOf result ReadFault → Rose (S.faults src.old) (S.faults src.new) }
    ensures kept { IsKept S.bytes S.bytes_len S.faults src.old src.new }
{
    let mut ranges = Vec::new(alloc);
    match put_ranges(alloc, src, cp, volume.extents_root, &mut ranges) {
        Ok(()) => {}
        Err(stop) => return Err(stop),
    }
    match put_past_ranges(alloc, src, cp, volume, &mut ranges) {
        Ok(()) => Ok(ranges),
        Err(stop) => Err(stop),
    }
}
