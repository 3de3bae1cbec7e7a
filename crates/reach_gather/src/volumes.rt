// The volumes: their superblocks by records of the container's map, their maps, their physical trees and their snapshots; what
// their views name is left to the sweep over all views.
ghost use Rattle.std.specs.Prelude.{◌≡◌, ◌∷◌, ◌+◌, ◌≤◌, ℕ, List, [], length, None, Some, OnOk, IfErr, IsErrOf};
ghost use Rattle.apfs_model.specs.Counts.{Rose};
ghost use Rattle.apfs_model.specs.Kept.{IsKept};
ghost use Rattle.nx_block.specs.Super.{omap_oid_of};
ghost use Rattle.obj_base.specs.Site.{IsSiteFor};
ghost use Rattle.obj_base.specs.Stops.{Tells};
ghost use Rattle.obj_base.specs.declared.stop.Stop.TheVariants.{ReadFault};
ghost use Rattle.nx_ring.specs.Checkpoint.{Seen, site_of};
ghost use Rattle.omap_map.specs.Maps.{map_records};
ghost use Rattle.reach_rules.specs.Features.{HasFeature};
ghost use Rattle.reach_rules.specs.Live.{IsLive};
ghost use Rattle.vol_view.specs.Volumes.{Loaded};
ghost use Rattle.reach_rules.specs.declared.naming.LookUp.TheVariants.{ByBlock};
ghost use Rattle.reach_rules.specs.declared.naming.Namer.{Namer};
ghost use Rattle.reach_rules.specs.declared.naming.TreeKind.TheVariants.{ExtentRefs, SnapMetadata};
ghost use Rattle.reach_rules.specs.declared.naming.Expected.TheVariants.{TreeRoot};
ghost use Rattle.reach_rules.specs.Next.{unless_zero};
ghost use Rattle.reach_rules.specs.Reached.{IsReachedFault};
ghost use Rattle.reach_gather.specs.Volumes.Parts.{HasWholeMetadata, IsVolumePart, volume_namer};
ghost use Rattle.reach_gather.specs.Volumes.Told.{head_naming, told_volume};
ghost use Rattle.reach_gather.specs.Adds.{Adds, AreLive};
ghost use Rattle.reach_gather.specs.Views.{AreVolumeParts, AreNamedParts, volume_views, slots_namings, loaded_views};

use crate::Gathered;
use crate::maps::add_map;
use crate::snapshots::add_snapshots;
use crate::trees::{add_extents, add_nodes};
use apfs_layout::{container, volume as layout};
use blk_source::{BlockSource, NoMemory};
use nx_ring::Checkpoint;
use obj_base::{Stop, Within};
use omap_map::Omap;
use reach_rules::{Expected, LookUp, Namer, Naming, Object, ReachFault, TreeKind};
use std::alloc::Global;
use vol_view::Volume;

// Adds a volume's extent references, where it has some.
fn add_live_extents<S: BlockSource>(
    alloc: Global,
    src: &mut S,
    cp: &Checkpoint,
    namer: Namer,
    oid: u64,
    out: &mut Gathered,
) -> Result<(), Stop<ReachFault>>
    requires site { IsSiteFor (site_of cp.now) (S.bytes_len src.old) }
    ensures clear { (image : List ℕ) → S.bytes src.old ≡ Some image → OnOk result (Adds image cp.now (unless_zero namer 144 (TreeRoot ExtentRefs) ByBlock oid) [] out.old out.new) }
    ensures present { (image : List ℕ) → S.bytes src.old ≡ Some image → AreLive image cp.now (unless_zero namer 144 (TreeRoot ExtentRefs) ByBlock oid) → IfErr result (Tells (IsReachedFault image cp.now) (HasFeature image cp.now)) }
    ensures reads { (image : List ℕ) → S.bytes src.old ≡ Some image → OnOk result (S.reads src.new + length out.old.namings ≤ S.reads src.old + length out.new.namings) }
    ensures cause { IsErrOf result ReadFault → Rose (S.faults src.old) (S.faults src.new) }
    ensures kept { IsKept S.bytes S.bytes_len S.faults src.old src.new }
{
    if oid == 0 {
        return Ok(());
    }
    let root = Naming {
        namer,
        at: layout::EXTENTS_ROOT as u64,
        expected: Expected::TreeRoot(TreeKind::ExtentRefs),
        how: LookUp::ByBlock,
        oid,
    };
    match add_extents(alloc, src, cp, root, out) {
        Ok(()) => Ok(()),
        Err(stop) => Err(stop),
    }
}

// Adds a volume's snapshot metadata, where it has some, by the steps of its tree. Nothing is read.
fn add_live_metadata(volume: &Volume, namer: Namer, out: &mut Gathered) -> Result<(), NoMemory>
    ensures clear { (image : List ℕ) (seen : Seen) → HasWholeMetadata image seen volume.now → OnOk result (Adds image seen (unless_zero namer 152 (TreeRoot SnapMetadata) ByBlock volume.now.snaps_root) [] out.old out.new) }
    ensures longer { OnOk result (length out.old.namings ≤ length out.new.namings) }
{
    let oid = volume.snaps_root;
    if oid == 0 {
        return Ok(());
    }
    let root = Naming {
        namer,
        at: layout::SNAPS_ROOT as u64,
        expected: Expected::TreeRoot(TreeKind::SnapMetadata),
        how: LookUp::ByBlock,
        oid,
    };
    add_nodes(TreeKind::SnapMetadata, root, &volume.snaps_steps, out)?;
    Ok(())
}

// The naming of a volume by its slot.
fn named(volume: &Volume) -> Naming
    ensures { result ≡ head_naming volume.now.head }
{
    Naming {
        namer: Namer::Whole(Object::Newest),
        at: container::FS_OID as u64 + 8 * u64::from(volume.head.slot),
        expected: Expected::VolumeIn(volume.head.slot),
        how: LookUp::InContainer,
        oid: volume.head.oid,
    }
}

// Adds what a volume's superblock names, by the object of which it is; what its views name is left to the rest.
fn add_named<S: BlockSource>(
    alloc: Global,
    src: &mut S,
    cp: &Checkpoint,
    volume: &Volume,
    namer: Namer,
    out: &mut Gathered,
) -> Result<(), Stop<ReachFault>>
    requires site { IsSiteFor (site_of cp.now) (S.bytes_len src.old) }
    ensures clear { (image : List ℕ) → S.bytes src.old ≡ Some image → AreVolumeParts image cp.now namer volume.now → OnOk result (Adds image cp.now (told_volume cp.now namer volume.now) (volume_views cp.now namer volume.now) out.old out.new) }
    ensures present { (image : List ℕ) → S.bytes src.old ≡ Some image → AreVolumeParts image cp.now namer volume.now → AreLive image cp.now (told_volume cp.now namer volume.now) → IfErr result (Tells (IsReachedFault image cp.now) (HasFeature image cp.now)) }
    ensures reads { (image : List ℕ) → S.bytes src.old ≡ Some image → OnOk result (S.reads src.new + length out.old.namings ≤ S.reads src.old + length out.new.namings) }
    ensures cause { IsErrOf result ReadFault → Rose (S.faults src.old) (S.faults src.new) }
    ensures kept { IsKept S.bytes S.bytes_len S.faults src.old src.new }
{
    let map = volume.omap.block();
    let naming = Naming {
        namer,
        at: layout::OMAP_OID as u64,
        expected: Expected::VolumeMap,
        how: LookUp::ByBlock,
        oid: map,
    };
    add_map(naming, &volume.omap, out)?;
    match add_live_extents(alloc, src, cp, namer, volume.extents_root, out) {
        Ok(()) => (),
        Err(stop) => return Err(stop),
    }
    add_live_metadata(volume, namer, out)?;
    match add_snapshots(alloc, src, cp, volume, map, out) {
        Ok(()) => Ok(()),
        Err(stop) => Err(stop),
    }
}

/// Adds a volume, by a record of the container's map, with all that its superblock names but what its views do, which is left to
/// the rest. `omap` is the container's map.
pub fn add_volume<S: BlockSource>(
    alloc: Global,
    src: &mut S,
    cp: &Checkpoint,
    volume: &Volume,
    omap: &Omap,
    out: &mut Gathered,
) -> Result<(), Stop<ReachFault>>
    requires site { IsSiteFor (site_of cp.now) (S.bytes_len src.old) }
    ensures clear { (image : List ℕ) → S.bytes src.old ≡ Some image → omap.now.records ≡ map_records image (site_of cp.now) (omap_oid_of cp.now.nx) → (part : IsVolumePart image cp.now volume.now.head volume.now) → OnOk result (Adds image cp.now (head_naming volume.now.head ∷ []) (volume_views cp.now (volume_namer cp.now part.mapping) volume.now) out.old out.new) }
    ensures present { (image : List ℕ) → S.bytes src.old ≡ Some image → omap.now.records ≡ map_records image (site_of cp.now) (omap_oid_of cp.now.nx) → IsVolumePart image cp.now volume.now.head volume.now → IsLive image cp.now (head_naming volume.now.head) → IfErr result (Tells (IsReachedFault image cp.now) (HasFeature image cp.now)) }
    ensures reads { (image : List ℕ) → S.bytes src.old ≡ Some image → OnOk result (S.reads src.new + length out.old.namings ≤ S.reads src.old + length out.new.namings) }
    ensures cause { IsErrOf result ReadFault → Rose (S.faults src.old) (S.faults src.new) }
    ensures kept { IsKept S.bytes S.bytes_len S.faults src.old src.new }
{
    let map = cp.nx().omap_oid();
    let found = match omap.record(volume.head.oid, cp.xid()) {
        Some(found) => found,
        None => {
            return Err(Stop::Found(ReachFault::Unnamed {
                within: Within::Container,
                oid: volume.head.oid,
                xid: cp.xid(),
            }));
        }
    };
    let namer = Namer::Whole(Object::OfRecord(map, found));
    out.note_record(named(volume), map, found)?;
    match add_named(alloc, src, cp, volume, namer, out) {
        Ok(()) => Ok(()),
        Err(stop) => Err(stop),
    }
}

/// Adds volumes, each with all that its superblock names but what its views do, which is left to the rest. `omap` is the
/// container's map.
pub fn add_volumes<S: BlockSource>(
    alloc: Global,
    src: &mut S,
    cp: &Checkpoint,
    volumes: &[Volume],
    omap: &Omap,
    out: &mut Gathered,
) -> Result<(), Stop<ReachFault>>
    requires site { IsSiteFor (site_of cp.now) (S.bytes_len src.old) }
    ensures clear { (image : List ℕ) (namer : Loaded → Namer) → S.bytes src.old ≡ Some image → omap.now.records ≡ map_records image (site_of cp.now) (omap_oid_of cp.now.nx) → AreNamedParts image cp.now namer volumes.now → OnOk result (Adds image cp.now (slots_namings volumes.now) (loaded_views cp.now namer volumes.now) out.old out.new) }
    ensures present { (image : List ℕ) (namer : Loaded → Namer) → S.bytes src.old ≡ Some image → omap.now.records ≡ map_records image (site_of cp.now) (omap_oid_of cp.now.nx) → AreNamedParts image cp.now namer volumes.now → AreLive image cp.now (slots_namings volumes.now) → IfErr result (Tells (IsReachedFault image cp.now) (HasFeature image cp.now)) }
    ensures reads { (image : List ℕ) → S.bytes src.old ≡ Some image → OnOk result (S.reads src.new + length out.old.namings ≤ S.reads src.old + length out.new.namings) }
    ensures cause { IsErrOf result ReadFault → Rose (S.faults src.old) (S.faults src.new) }
    ensures kept { IsKept S.bytes S.bytes_len S.faults src.old src.new }
{
    for volume in volumes {
        match add_volume(alloc, src, cp, volume, omap, out) {
            Ok(()) => (),
            Err(stop) => return Err(stop),
        }
    }
    Ok(())
}
