// The volumes of a container, one after another: what is told of each, and nothing else of it is held on.
ghost use Rattle.std.specs.Prelude.{◌≡◌, ◌+◌, ◌≤◌, ◌∷◌, [], ℕ, List, Some, map, sum, OnOk, IfErr, IsErrOf};
ghost use Rattle.apfs_model.specs.Counts.{Rose};
ghost use Rattle.apfs_model.specs.Kept.{IsKept};
ghost use Rattle.obj_base.specs.Site.{IsSiteFor};
ghost use Rattle.obj_base.specs.declared.stop.Stop.TheVariants.{ReadFault};
ghost use Rattle.nx_ring.specs.Checkpoint.{site_of};
ghost use Rattle.reach_sweep.specs.Views.{head_of};
ghost use Rattle.apfs_check.specs.Held.{AddsVolumes};
ghost use Rattle.apfs_check.specs.Reads.{volume_reads};
ghost use Rattle.apfs_check.specs.Steps.{IsThere, IsReady, AreReady};

use crate::Fault;
use crate::data::add_data;
use crate::gathered::Gathered;
use crate::ranges::volume_ranges;
use crate::views::add_views;
use blk_source::BlockSource;
use nx_ring::Checkpoint;
use obj_base::Stop;
use std::alloc::Global;
use tree_rules::Profile;
use vol_view::Volume;

// Adds what is told of a volume whose views have their rules.
fn add_volume<S: BlockSource>(
    alloc: Global,
    src: &mut S,
    cp: &Checkpoint,
    volume: &Volume,
    profile: Profile,
    out: &mut Gathered,
) -> Result<(), Stop<Fault>>
    requires site { IsSiteFor (site_of cp.now) (S.bytes_len src.old) }
    ensures clear { (image : List ℕ) → S.bytes src.old ≡ Some image → IsReady image cp.now volume.now → OnOk result (AddsVolumes profile image cp.now (volume.now.head ∷ []) out.old out.new) }
    ensures present { (image : List ℕ) → S.bytes src.old ≡ Some image → IsReady image cp.now volume.now → IfErr result (IsThere profile image) }
    ensures reads { (image : List ℕ) → S.bytes src.old ≡ Some image → OnOk result (S.reads src.new ≤ S.reads src.old + volume_reads image cp.now volume.now) }
    ensures cause { IsErrOf result ReadFault → Rose (S.faults src.old) (S.faults src.new) }
    ensures kept { IsKept S.bytes S.bytes_len S.faults src.old src.new }
{
    let ranges = match volume_ranges(alloc, src, cp, volume) {
        Ok(ranges) => ranges,
        Err(stop) => return Err(stop),
    };
    let extents = match add_views(alloc, src, cp, volume, &ranges, profile, out) {
        Ok(extents) => extents,
        Err(stop) => return Err(stop),
    };
    out.count_views(volume.snaps.len() as u64 + 1);
    match add_data(alloc, cp, volume, &ranges, extents, profile, out) {
        Ok(()) => Ok(()),
        Err(stop) => Err(stop),
    }
}

/// Adds what is told of all volumes, by slot.
pub(crate) fn add_volumes<S: BlockSource>(
    alloc: Global,
    src: &mut S,
    cp: &Checkpoint,
    volumes: &[Volume],
    profile: Profile,
    out: &mut Gathered,
) -> Result<(), Stop<Fault>>
    requires site { IsSiteFor (site_of cp.now) (S.bytes_len src.old) }
    ensures clear { (image : List ℕ) → S.bytes src.old ≡ Some image → AreReady image cp.now volumes.now → OnOk result (AddsVolumes profile image cp.now (map head_of volumes.now) out.old out.new) }
    ensures present { (image : List ℕ) → S.bytes src.old ≡ Some image → AreReady image cp.now volumes.now → IfErr result (IsThere profile image) }
    ensures reads { (image : List ℕ) → S.bytes src.old ≡ Some image → OnOk result (S.reads src.new ≤ S.reads src.old + sum (map (volume_reads image cp.now) volumes.now)) }
    ensures cause { IsErrOf result ReadFault → Rose (S.faults src.old) (S.faults src.new) }
    ensures kept { IsKept S.bytes S.bytes_len S.faults src.old src.new }
{
    'volumes: for volume in volumes {
        match add_volume(alloc, src, cp, volume, profile, out) {
            Ok(()) => {}
            Err(stop) => return Err(stop),
        }
    }
    Ok(())
}
