// The views of the volumes that were loaded, as they are swept.
ghost use Rattle.std.specs.Prelude.{◌≡◌, ◌<◌, ◌≤◌, ◌+◌, ◌^◌, ◌++◌, ℕ, false, List, length, Some, OnOk, IfOk, IfErr, IsErrOf, IsNone, IfSome};
ghost use Rattle.apfs_model.specs.Apart.{Apart};
ghost use Rattle.apfs_model.specs.Counts.{Rose};
ghost use Rattle.apfs_model.specs.Lists.{has};
ghost use Rattle.apfs_model.specs.Kept.{IsKept};
ghost use Rattle.obj_base.specs.Site.{IsSiteFor};
ghost use Rattle.obj_base.specs.Stops.{Tells};
ghost use Rattle.obj_base.specs.declared.stop.Stop.TheVariants.{ReadFault, NoMemory};
ghost use Rattle.nx_ring.specs.Checkpoint.{site_of};
ghost use Rattle.vol_view.specs.Volumes.{Loaded};
ghost use Rattle.vol_view.specs.declared.head.VolHead.{VolHead};
ghost use Rattle.reach_rules.specs.declared.naming.Namer.{Namer};
ghost use Rattle.reach_rules.specs.Features.{HasFeature};
ghost use Rattle.reach_rules.specs.Reached.{IsReachedFault};
ghost use Rattle.reach_gather.specs.Volumes.Laws.{HasParts};
ghost use Rattle.view_sweep.specs.Named.{head_namings, AreLive, AreReached};
ghost use Rattle.reach_sweep.specs.Views as swept;
ghost use Rattle.reach_sweep.specs.Views.{slots_of, HasSlotTwice, AreVolumes, past_heads, volume_heads, swept_heads, supers_of};

use blk_source::BlockSource;
use nx_ring::Checkpoint;
use obj_base::Stop;
use reach_rules::ReachFault;
use std::alloc::Global;
use view_sweep::{Head, SweptView, Used, reach_views};
use vol_view::{Snapshot, Volume};

// The live view of volume `i`, with what the volume's superblock names.
fn live_head(cp: &Checkpoint, i: usize, volume: &Volume) -> Head
    ensures { result ≡ swept.live_head cp.now i volume.now }
{
    Head {
        view: SweptView {
            slot: volume.head.slot,
            place: 0,
            xid: cp.xid(),
            map: volume.omap.block(),
            hashed: volume.names.are_hashed(),
            volume: i,
        },
        root_oid: volume.root_oid,
        meta_ext: volume.meta_ext,
    }
}

// The view of snapshot `k` of volume `i`, with what the snapshot's superblock names.
fn past_head(i: usize, volume: &Volume, k: usize, snapshot: &Snapshot) -> Head
    requires { k < 2 ^ 63 }
    ensures { result ≡ swept.past_head i volume.now k snapshot.now }
{
    Head {
        view: SweptView {
            slot: volume.head.slot,
            place: k as u64 + 1,
            xid: snapshot.xid,
            map: volume.omap.block(),
            hashed: volume.names.are_hashed(),
            volume: i,
        },
        root_oid: snapshot.root_oid,
        meta_ext: snapshot.meta_ext,
    }
}

// Adds the views of the snapshots of volume `i`.
fn add_pasts(i: usize, volume: &Volume, out: &mut Vec<Head>) -> Result<(), Stop<ReachFault>>
    ensures added { OnOk result (out.new.items ≡ out.old.items ++ past_heads i volume.now 0 volume.now.snaps) }
    ensures memory_only { IfErr result (λ stop. stop ≡ NoMemory) }
{
    let snapshots = volume.snaps.as_slice();
    for k in 0..snapshots.len() {
        let snapshot = &snapshots[k];
        let head = past_head(i, volume, k, snapshot);
        out.push(head)?;
    }
    Ok(())
}

// Adds the views of volume `i`.
fn add_volume(
    cp: &Checkpoint,
    i: usize,
    volume: &Volume,
    out: &mut Vec<Head>,
) -> Result<(), Stop<ReachFault>>
    ensures added { OnOk result (out.new.items ≡ out.old.items ++ volume_heads cp.now i volume.now) }
    ensures memory_only { IfErr result (λ stop. stop ≡ NoMemory) }
{
    let head = live_head(cp, i, volume);
    out.push(head)?;
    match add_pasts(i, volume, out) {
        Ok(()) => Ok(()),
        Err(stop) => Err(stop),
    }
}

// The views of all volumes, with what the superblock of each names.
fn heads(alloc: Global, cp: &Checkpoint, volumes: &[Volume]) -> Result<Vec<Head>, Stop<ReachFault>>
    ensures all { IfOk result (λ heads. heads.items ≡ swept_heads cp.now volumes.now) }
    ensures memory_only { IfErr result (λ stop. stop ≡ NoMemory) }
{
    let mut heads = Vec::new(alloc);
    for i in 0..volumes.len() {
        let volume = &volumes[i];
        match add_volume(cp, i, volume, &mut heads) {
            Ok(()) => (),
            Err(stop) => return Err(stop),
        }
    }
    Ok(heads)
}

// Whether one of some volumes has a slot.
fn stands(volumes: &[Volume], slot: u32) -> bool
    ensures { result ≡ has (slots_of volumes.now) slot }
{
    for volume in volumes {
        if volume.head.slot == slot {
            return true;
        }
    }
    false
}

/// The id of a volume whose slot another one has, where there is one.
pub(crate) fn slot_twice(volumes: &[Volume]) -> Option<u64>
    ensures apart { IsNone result → Apart (slots_of volumes.now) }
    ensures twice { IfSome result (HasSlotTwice volumes.now) }
{
    for i in 0..volumes.len() {
        let volume = &volumes[i];
        if stands(&volumes[i + 1..], volume.head.slot) {
            return Some(volume.head.oid);
        }
    }
    None
}

/// Reads what the superblocks of the views of all volumes lead to: each object once, however many views name it. What is answered
/// is the records that are used, each once. No two volumes have one slot.
pub(crate) fn sweep_views<S: BlockSource>(
    alloc: Global,
    src: &mut S,
    cp: &Checkpoint,
    volumes: &[Volume],
) -> Result<Vec<Used>, Stop<ReachFault>>
    requires site { IsSiteFor (site_of cp.now) (S.bytes_len src.old) }
    requires apart { Apart (slots_of volumes.now) }
    ensures clear { (image : List ℕ) (heads : List VolHead) (namer : Loaded → Namer) → S.bytes src.old ≡ Some image → HasParts image cp.now heads → AreVolumes image cp.now heads volumes.now namer → IfOk result (λ used. AreReached image cp.now (head_namings (supers_of namer volumes.now) (swept_heads cp.now volumes.now)) used.items) }
    ensures present { (image : List ℕ) (heads : List VolHead) (namer : Loaded → Namer) → S.bytes src.old ≡ Some image → HasParts image cp.now heads → AreVolumes image cp.now heads volumes.now namer → AreLive image cp.now (head_namings (supers_of namer volumes.now) (swept_heads cp.now volumes.now)) → IfErr result (Tells (IsReachedFault image cp.now) (HasFeature image cp.now)) }
    ensures reads { IfOk result (λ used. S.reads src.new ≤ S.reads src.old + length used.items) }
    ensures cause { IsErrOf result ReadFault → Rose (S.faults src.old) (S.faults src.new) }
    ensures kept { IsKept S.bytes S.bytes_len S.faults src.old src.new }
{
    let _size = src.size();
    let heads = heads(alloc, cp, volumes)?;
    let site = cp.site();
    match reach_views(alloc, src, &site, volumes, &heads) {
        Ok(used) => Ok(used),
        Err(stop) => Err(stop),
    }
}
