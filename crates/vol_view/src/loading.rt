// A volume whole: its superblock, its object map and its snapshots.
ghost use Rattle.std.specs.Prelude.{◌≡◌, ◌≤◌, ◌+◌, ℕ, List, [], length, Some, IfOk, IfErr, IsErrOf, OnOk};
ghost use Rattle.apfs_model.specs.Counts.{Rose};
ghost use Rattle.apfs_model.specs.Kept.{IsKept};
ghost use Rattle.obj_base.specs.Stops.{Tells, IsFree};
ghost use Rattle.obj_base.specs.declared.stop.Stop.TheVariants.{ReadFault, NoMemory};
ghost use Rattle.obj_base.specs.Site.{IsSiteFor};
ghost use Rattle.nx_ring.specs.Checkpoint.{site_of};
ghost use Rattle.vol_view.specs.Features.{volume_features};
ghost use Rattle.vol_view.specs.Heads.{super_in};
ghost use Rattle.vol_view.specs.Placed.{IsHead, IsPlaced};
ghost use Rattle.vol_view.specs.Volumes.{super_of, loaded_by};
ghost use Rattle.vol_view.specs.LoadStops.{IsSuperFeature, IsLoadStop, IsLoadFeature, IsLoadable, IsVolumeOf};
ghost use Rattle.vol_view.specs.Gathered.{IsFeatureAt};
ghost use Rattle.vol_view.specs.ReadBound.{load_reads};

use crate::agree::agree;
use crate::features::of_volume;
use crate::fields::{extents_root, meta_ext, root_oid, snaps_root};
use crate::head::incompat;
use crate::map::volume_map;
use crate::metadata::gathered;
use crate::snapshots::snapshots;
use crate::{Snapshot, VolHead, VolStop, Volume};
use blk_read::read_new;
use blk_source::{BlockSource, Bytes};
use bt_cursor::Step;
use fs_name::Names;
use nx_ring::Checkpoint;
use obj_base::{Site, Stop};
use omap_map::Omap;
use std::alloc::Global;

// A head once more.
fn copied(alloc: Global, head: &VolHead) -> Result<VolHead, Stop<VolStop>>
    ensures same { IfOk result (λ copy. copy ≡ head.now) }
    ensures memory_only { IfErr result (λ stop. stop ≡ NoMemory) }
{
    let name = Bytes::from_slice(alloc, head.name.as_slice())?;
    Ok(VolHead {
        slot: head.slot,
        oid: head.oid,
        block: head.block,
        uuid: head.uuid,
        role: head.role,
        incompat: head.incompat,
        snapshots: head.snapshots,
        name,
    })
}

// The bytes of the superblock of a volume.
fn superblock_of<S: BlockSource>(
    alloc: Global,
    src: &mut S,
    head: &VolHead,
    site: &Site,
) -> Result<Vec<u8>, Stop<VolStop>>
    requires site { IsSiteFor site.now (S.bytes_len src.old) }
    requires placed { IsPlaced site.now head.now }
    ensures found { (image : List ℕ) → S.bytes src.old ≡ Some image → IfOk result (λ bytes. bytes.items ≡ super_of image site.now head.now) }
    ensures long { IfOk result (λ bytes. 4096 ≤ length bytes.items) }
    ensures reads { S.reads src.new ≤ S.reads src.old + 1 }
    ensures free { IfErr result IsFree }
    ensures cause { IsErrOf result ReadFault → Rose (S.faults src.old) (S.faults src.new) }
    ensures kept { IsKept S.bytes S.bytes_len S.faults src.old src.new }
{
    read_new(alloc, src, head.block, site.block_size)
}

// Tests the features of a volume by its superblock in a block.
fn test(bytes: &[u8], block: u64) -> Result<(), Stop<VolStop>>
    requires { 4096 ≤ length bytes.now }
    ensures ok { OnOk result (volume_features bytes.now ≡ []) }
    ensures present { IfErr result (Tells (λ fault. ⊥) (IsFeatureAt block (volume_features bytes.now))) }
    ensures no_read { IsErrOf result ReadFault → ⊥ }
{
    match of_volume(bytes) {
        Some(feature) => Err(Stop::Unsupported { feature, block }),
        None => Ok(()),
    }
}

// A volume by its superblock's bytes, its map, the steps of its snapshot metadata tree and its snapshots.
fn made(
    alloc: Global,
    head: &VolHead,
    bytes: &[u8],
    omap: Omap,
    snaps_steps: Vec<Step>,
    snaps: Vec<Snapshot>,
) -> Result<Volume, Stop<VolStop>>
    requires { 1024 ≤ length bytes.now }
    ensures same { IfOk result (λ volume. volume ≡ loaded_by head.now bytes.now omap snaps_steps.items snaps.items) }
    ensures memory_only { IfErr result (λ stop. stop ≡ NoMemory) }
{
    let head = copied(alloc, head)?;
    Ok(Volume {
        head,
        omap,
        names: Names::of_features(incompat(bytes)),
        root_oid: root_oid(bytes),
        extents_root: extents_root(bytes),
        snaps_root: snaps_root(bytes),
        snaps_steps,
        meta_ext: meta_ext(bytes),
        snaps,
    })
}

/// The volume of a head that `heads` gave, with its object map, the steps of its snapshot metadata tree, and its snapshots, by
/// transaction. Its superblock isn't tested again. `Unnamed` comes where its map or the superblock of a snapshot has no block of the container, `Omap` where its map
/// isn't whole, `Walk` where its snapshot metadata tree isn't; `SnapRecord`, `SnapCount`, `SnapName` and `OmapSnaps` where the
/// snapshots' records can't be read or don't agree; `Head` and `Magic` where the superblock of a snapshot isn't sound.
/// `Unsupported` comes for a feature of the volume, of its map and the map's snapshots, of a node of its snapshot metadata tree,
/// of a snapshot's record or of a snapshot's superblock. The flags and sizes of mappings aren't looked at.
/// `reads`: one read for its superblock, one for the map's object, one for each node of the map's trees and of its snapshot metadata tree, and one for each snapshot.
pub fn load<S: BlockSource>(
    alloc: Global,
    src: &mut S,
    cp: &Checkpoint,
    head: &VolHead,
) -> Result<Volume, Stop<VolStop>>
    requires site { IsSiteFor (site_of cp.now) (S.bytes_len src.old) }
    requires head { IsHead (S.bytes src.old) cp.now head.now }
    ensures clear { (image : List ℕ) → S.bytes src.old ≡ Some image → IfOk result (IsVolumeOf image (site_of cp.now) head.now) }
    ensures same { IfOk result (λ volume. volume.head ≡ head.now) }
    ensures present { (image : List ℕ) → S.bytes src.old ≡ Some image → IfErr result (Tells (IsLoadStop image (site_of cp.now) head.now) (IsLoadFeature image (site_of cp.now) head.now)) }
    ensures exact { (image : List ℕ) → S.bytes src.old ≡ Some image → IsLoadable image (site_of cp.now) head.now → IfErr result IsFree }
    ensures reads { (image : List ℕ) → S.bytes src.old ≡ Some image → IfOk result (λ volume. S.reads src.new ≤ S.reads src.old + load_reads image (site_of cp.now) head.now volume.snaps) }
    ensures cause { IsErrOf result ReadFault → Rose (S.faults src.old) (S.faults src.new) }
    ensures kept { IsKept S.bytes S.bytes_len S.faults src.old src.new }
{
    let site = cp.site();
    let bytes = match superblock_of(alloc, src, head, &site) {
        Ok(bytes) => bytes,
        Err(stop) => return Err(stop),
    };
    match test(&bytes, head.block) {
        Ok(()) => {}
        Err(stop) => return Err(stop),
    }
    let omap = match volume_map(alloc, src, &bytes, &site) {
        Ok(omap) => omap,
        Err(stop) => return Err(stop),
    };
    let metadata = match gathered(alloc, src, head, &bytes, &site) {
        Ok(metadata) => metadata,
        Err(stop) => return Err(stop),
    };
    match agree(
        alloc,
        head.slot,
        &bytes,
        &omap,
        &metadata.snapshots,
        &metadata.names,
    ) {
        Ok(()) => {}
        Err(stop) => return Err(stop),
    }
    let snaps = match snapshots(alloc, src, &metadata.snapshots, &site) {
        Ok(snaps) => snaps,
        Err(stop) => return Err(stop),
    };
    made(alloc, head, &bytes, omap, metadata.steps, snaps)
}
