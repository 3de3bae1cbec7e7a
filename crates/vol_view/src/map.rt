// The object maps of the container and of its volumes.
ghost use Rattle.std.specs.Prelude.{◌≡◌, ◌≤◌, ◌+◌, length, [], ℕ, List, Some, IfOk, IfErr, IsErrOf, OnOk};
ghost use Rattle.apfs_model.specs.Counts.{Rose};
ghost use Rattle.apfs_model.specs.Kept.{IsKept};
ghost use Rattle.obj_base.specs.Stops.{Tells};
ghost use Rattle.obj_base.specs.declared.stop.Stop.TheVariants.{ReadFault, NoMemory};
ghost use Rattle.obj_base.specs.Site.{IsSiteFor};
ghost use Rattle.omap_map.specs.Features.{has_snapshot_state, container_features, snapshot_features};
ghost use Rattle.omap_map.specs.Loading.{map_nodes};
ghost use Rattle.nx_block.specs.Super.{omap_oid_of};
ghost use Rattle.nx_ring.specs.Checkpoint.{site_of};
ghost use Rattle.vol_view.specs.Stops.{IsHeadsStop, IsHeadsFeature};
ghost use Rattle.vol_view.specs.Slots.{map_raised, HasMap, IsMarked};
ghost use Rattle.vol_view.specs.Fields as fields;
ghost use Rattle.vol_view.specs.Volumes.{super_of};
ghost use Rattle.vol_view.specs.LoadStops.{IsLoadStop, IsLoadFeature};
ghost use Rattle.vol_view.specs.Gathered.{HasVolumeMap};
ghost use Rattle.vol_view.specs.declared.head.VolHead.{VolHead};

use crate::VolStop;
use crate::fields::omap_oid;
use blk_source::BlockSource;
use nx_ring::Checkpoint;
use obj_base::{Feature, Site, Stop, Within};
use omap_map::{Omap, OmapFault};
use std::alloc::Global;

// Why the container's map stops, said of the volumes.
fn raise(stop: Stop<OmapFault>) -> Stop<VolStop>
    ensures { result ≡ map_raised stop }
{
    stop.map(VolStop::Omap)
}

// Whether a snapshot of the map is being deleted or reverted to.
fn has_marked(omap: &Omap) -> bool
    ensures { result ≡ has_snapshot_state omap.now.snapshots }
{
    omap.snapshots().iter().any(|snapshot| snapshot.1 != 0)
}

// Tests the map's snapshots; `block` is the map's.
fn test(omap: &Omap, block: u64) -> Result<(), Stop<VolStop>>
    ensures plain { OnOk result (container_features omap.now.snap_count ≡ []) }
    ensures unmarked { OnOk result (snapshot_features omap.now.snapshots ≡ []) }
    ensures present { IfErr result (Tells (λ fault. ⊥) (IsMarked omap.now block)) }
    ensures no_read { IsErrOf result ReadFault → ⊥ }
    ensures no_memory { IsErrOf result NoMemory → ⊥ }
{
    if omap.snap_count() != 0 {
        return Err(Stop::Unsupported {
            feature: Feature::ContainerSnapshots,
            block,
        });
    }
    if has_marked(omap) {
        return Err(Stop::Unsupported {
            feature: Feature::SnapshotState,
            block,
        });
    }
    Ok(())
}

/// The container's object map, where it is whole and has no feature.
pub(crate) fn container_map<S: BlockSource>(
    alloc: Global,
    src: &mut S,
    cp: &Checkpoint,
    site: &Site,
) -> Result<Omap, Stop<VolStop>>
    requires site { IsSiteFor site.now (S.bytes_len src.old) }
    requires same { site.now ≡ site_of cp.now }
    ensures clear { (image : List ℕ) → S.bytes src.old ≡ Some image → IfOk result (HasMap image cp.now) }
    ensures present { (image : List ℕ) → S.bytes src.old ≡ Some image → IfErr result (Tells (IsHeadsStop image cp.now) (IsHeadsFeature image cp.now)) }
    ensures reads { (image : List ℕ) → S.bytes src.old ≡ Some image → OnOk result (S.reads src.new ≤ S.reads src.old + (1 + map_nodes image (site_of cp.now) (omap_oid_of cp.now.nx))) }
    ensures cause { IsErrOf result ReadFault → Rose (S.faults src.old) (S.faults src.new) }
    ensures kept { IsKept S.bytes S.bytes_len S.faults src.old src.new }
{
    let block = cp.nx().omap_oid();
    if !site.has_block(block) {
        return Err(Stop::Found(VolStop::Unnamed {
            within: Within::Physical,
            oid: block,
        }));
    }
    let omap = match Omap::load(alloc, src, block, site) {
        Ok(omap) => omap,
        Err(stop) => return Err(raise(stop)),
    };
    match test(&omap, block) {
        Ok(()) => Ok(omap),
        Err(stop) => Err(stop),
    }
}

/// The object map of a volume, by its superblock's bytes, where it is whole and its snapshots have no feature.
pub(crate) fn volume_map<S: BlockSource>(
    alloc: Global,
    src: &mut S,
    bytes: &[u8],
    site: &Site,
) -> Result<Omap, Stop<VolStop>>
    requires site { IsSiteFor site.now (S.bytes_len src.old) }
    requires long { 1024 ≤ length bytes.now }
    ensures clear { (image : List ℕ) → S.bytes src.old ≡ Some image → IfOk result (HasVolumeMap image site.now (fields.omap_oid_of bytes.now)) }
    ensures present { (image : List ℕ) → S.bytes src.old ≡ Some image → (head : VolHead) → bytes.now ≡ super_of image site.now head → IfErr result (Tells (IsLoadStop image site.now head) (IsLoadFeature image site.now head)) }
    ensures reads { (image : List ℕ) → S.bytes src.old ≡ Some image → OnOk result (S.reads src.new ≤ S.reads src.old + (1 + map_nodes image site.now (fields.omap_oid_of bytes.now))) }
    ensures cause { IsErrOf result ReadFault → Rose (S.faults src.old) (S.faults src.new) }
    ensures kept { IsKept S.bytes S.bytes_len S.faults src.old src.new }
{
    let block = omap_oid(bytes);
    if !site.has_block(block) {
        return Err(Stop::Found(VolStop::Unnamed {
            within: Within::Physical,
            oid: block,
        }));
    }
    let omap = match Omap::load(alloc, src, block, site) {
        Ok(omap) => omap,
        Err(stop) => return Err(raise(stop)),
    };
    if has_marked(&omap) {
        return Err(Stop::Unsupported {
            feature: Feature::SnapshotState,
            block,
        });
    }
    Ok(omap)
}
