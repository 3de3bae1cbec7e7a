// The snapshots of a volume: their superblocks and their extent references; what their superblocks name is left to the views.
ghost use Rattle.std.specs.Prelude.{◌≡◌, ◌<◌, ◌^◌, ◌+◌, ◌≤◌, ℕ, List, [], length, Some, OnOk, IfErr, IsErrOf};
ghost use Rattle.apfs_model.specs.Counts.{Rose};
ghost use Rattle.apfs_model.specs.Kept.{IsKept};
ghost use Rattle.fs_name.specs.Normal.{are_hashed};
ghost use Rattle.obj_base.specs.Site.{IsSiteFor};
ghost use Rattle.obj_base.specs.Stops.{Tells};
ghost use Rattle.obj_base.specs.declared.stop.Stop.TheVariants.{ReadFault};
ghost use Rattle.nx_ring.specs.Checkpoint.{site_of};
ghost use Rattle.reach_rules.specs.Features.{HasFeature};
ghost use Rattle.reach_rules.specs.declared.naming.LookUp.TheVariants.{ByBlock};
ghost use Rattle.reach_rules.specs.declared.naming.Namer.TheVariants.{Kept};
ghost use Rattle.reach_rules.specs.declared.naming.TreeKind.TheVariants.{ExtentRefs};
ghost use Rattle.reach_rules.specs.declared.naming.Expected.TheVariants.{TreeRoot};
ghost use Rattle.reach_rules.specs.Next.{unless_zero};
ghost use Rattle.reach_rules.specs.Reached.{IsReachedFault};
ghost use Rattle.reach_gather.specs.Volumes.Told.{past_at, told_snapshot, told_snapshots};
ghost use Rattle.reach_gather.specs.Adds.{Adds, AreLive};
ghost use Rattle.reach_gather.specs.Views.{IsSuperPart, AreSuperParts, past_view_namings, pasts_namings};

use crate::Gathered;
use crate::trees::add_extents;
use apfs_layout::value;
use blk_source::BlockSource;
use nx_ring::Checkpoint;
use obj_base::Stop;
use reach_rules::{Expected, LookUp, Namer, Naming, ReachFault, TreeKind, ViewAt};
use std::alloc::Global;
use vol_view::{Snapshot, Volume};

// Adds the extent references of a snapshot, where it has some.
fn add_kept_extents<S: BlockSource>(
    alloc: Global,
    src: &mut S,
    cp: &Checkpoint,
    view: ViewAt,
    oid: u64,
    out: &mut Gathered,
) -> Result<(), Stop<ReachFault>>
    requires site { IsSiteFor (site_of cp.now) (S.bytes_len src.old) }
    ensures clear { (image : List ℕ) → S.bytes src.old ≡ Some image → OnOk result (Adds image cp.now (unless_zero (Kept view) 0 (TreeRoot ExtentRefs) ByBlock oid) [] out.old out.new) }
    ensures present { (image : List ℕ) → S.bytes src.old ≡ Some image → AreLive image cp.now (unless_zero (Kept view) 0 (TreeRoot ExtentRefs) ByBlock oid) → IfErr result (Tells (IsReachedFault image cp.now) (HasFeature image cp.now)) }
    ensures reads { (image : List ℕ) → S.bytes src.old ≡ Some image → OnOk result (S.reads src.new + length out.old.namings ≤ S.reads src.old + length out.new.namings) }
    ensures cause { IsErrOf result ReadFault → Rose (S.faults src.old) (S.faults src.new) }
    ensures kept { IsKept S.bytes S.bytes_len S.faults src.old src.new }
{
    if oid == 0 {
        return Ok(());
    }
    let root = Naming {
        namer: Namer::Kept(view),
        at: value::SNAPSHOT_EXTENTS as u64,
        expected: Expected::TreeRoot(TreeKind::ExtentRefs),
        how: LookUp::ByBlock,
        oid,
    };
    match add_extents(alloc, src, cp, root, out) {
        Ok(()) => Ok(()),
        Err(stop) => Err(stop),
    }
}

/// Adds a snapshot, by the record of its view: its superblock, whose own namings are left to the rest, and its extent references.
pub(crate) fn add_snapshot<S: BlockSource>(
    alloc: Global,
    src: &mut S,
    cp: &Checkpoint,
    view: ViewAt,
    snapshot: &Snapshot,
    out: &mut Gathered,
) -> Result<(), Stop<ReachFault>>
    requires site { IsSiteFor (site_of cp.now) (S.bytes_len src.old) }
    ensures clear { (image : List ℕ) → S.bytes src.old ≡ Some image → IsSuperPart image cp.now view snapshot.now → OnOk result (Adds image cp.now (told_snapshot view snapshot.now) (past_view_namings view snapshot.now) out.old out.new) }
    ensures present { (image : List ℕ) → S.bytes src.old ≡ Some image → AreLive image cp.now (told_snapshot view snapshot.now) → IfErr result (Tells (IsReachedFault image cp.now) (HasFeature image cp.now)) }
    ensures reads { (image : List ℕ) → S.bytes src.old ≡ Some image → OnOk result (S.reads src.new + length out.old.namings ≤ S.reads src.old + length out.new.namings) }
    ensures cause { IsErrOf result ReadFault → Rose (S.faults src.old) (S.faults src.new) }
    ensures kept { IsKept S.bytes S.bytes_len S.faults src.old src.new }
{
    let named = Naming {
        namer: Namer::Kept(view),
        at: value::SNAPSHOT_SUPERBLOCK as u64,
        expected: Expected::SnapshotSuper(view),
        how: LookUp::ByBlock,
        oid: snapshot.super_block,
    };
    out.note_block(named)?;
    match add_kept_extents(alloc, src, cp, view, snapshot.extents_root, out) {
        Ok(()) => Ok(()),
        Err(stop) => Err(stop),
    }
}

// The view of snapshot `i` of a volume whose object map stands in a block.
fn view_at(volume: &Volume, map: u64, i: usize, snapshot: &Snapshot) -> ViewAt
    requires { i < 2 ^ 63 }
    ensures { result ≡ past_at volume.now.head.slot map (are_hashed volume.now.names) i snapshot.now }
{
    ViewAt {
        slot: volume.head.slot,
        place: i as u64 + 1,
        xid: snapshot.xid,
        map,
        hashed: volume.names.are_hashed(),
    }
}

/// Adds the snapshots of a volume whose object map stands in a block; what their superblocks name is left to the rest.
pub(crate) fn add_snapshots<S: BlockSource>(
    alloc: Global,
    src: &mut S,
    cp: &Checkpoint,
    volume: &Volume,
    map: u64,
    out: &mut Gathered,
) -> Result<(), Stop<ReachFault>>
    requires site { IsSiteFor (site_of cp.now) (S.bytes_len src.old) }
    ensures clear { (image : List ℕ) → S.bytes src.old ≡ Some image → AreSuperParts image cp.now volume.now map → OnOk result (Adds image cp.now (told_snapshots volume.now.head.slot map (are_hashed volume.now.names) 0 volume.now.snaps) (pasts_namings volume.now.head.slot map (are_hashed volume.now.names) 0 volume.now.snaps) out.old out.new) }
    ensures present { (image : List ℕ) → S.bytes src.old ≡ Some image → AreLive image cp.now (told_snapshots volume.now.head.slot map (are_hashed volume.now.names) 0 volume.now.snaps) → IfErr result (Tells (IsReachedFault image cp.now) (HasFeature image cp.now)) }
    ensures reads { (image : List ℕ) → S.bytes src.old ≡ Some image → OnOk result (S.reads src.new + length out.old.namings ≤ S.reads src.old + length out.new.namings) }
    ensures cause { IsErrOf result ReadFault → Rose (S.faults src.old) (S.faults src.new) }
    ensures kept { IsKept S.bytes S.bytes_len S.faults src.old src.new }
{
    let snapshots = volume.snaps.as_slice();
    for i in 0..snapshots.len() {
        let snapshot = &snapshots[i];
        let view = view_at(volume, map, i, snapshot);
        match add_snapshot(alloc, src, cp, view, snapshot, out) {
            Ok(()) => (),
            Err(stop) => return Err(stop),
        }
    }
    Ok(())
}
