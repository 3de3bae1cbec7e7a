// The two trees of a map.
ghost use Rattle.std.specs.Prelude.{◌≡◌, ◌+◌, ◌≤◌, ℕ, List, Some, false, IfOk, IfErr, IsErrOf};
ghost use Rattle.apfs_model.specs.Counts.{Rose};
ghost use Rattle.apfs_model.specs.Kept.{IsKept};
ghost use Rattle.obj_base.specs.Stops.{Tells};
ghost use Rattle.obj_base.specs.declared.stop.Stop.TheVariants.{ReadFault};
ghost use Rattle.obj_base.specs.Site.{IsSiteFor};
ghost use Rattle.bt_cursor.specs.Faults.{HasFeature};
ghost use Rattle.bt_cursor.specs.Gathered.{RefusesOne};
ghost use Rattle.omap_map.specs.Records.{records_of, snapshots_of};
ghost use Rattle.omap_map.specs.Loading.{IsAscending};
ghost use Rattle.omap_map.specs.Maps.{record_tree, snapshot_tree, IsTreeFault};
ghost use Rattle.omap_map.specs.Gathered.{SaysOfMap, IsTree, HasSnapshots, IsSnapshotsFault, IsSnapshotsFeature};

use crate::OmapFault;
use crate::keep::{Records, Snapshots};
use blk_source::BlockSource;
use bt_cursor::{GatherFault, Physical, gather};
use bt_keys::{OmapKey, OmapSnapKey};
use obj_base::{Site, Stop};
use std::alloc::Global;

// Why a walk over the tree of a root stops, said of the map. No item of its trees is refused.
fn raise(root: u64, stop: Stop<GatherFault>) -> Stop<OmapFault>
    requires { RefusesOne (λ _. false) stop }
    ensures { SaysOfMap root stop result }
{
    stop.map(|fault| match fault {
        GatherFault::Tree(why) => OmapFault::Tree { root, why },
        GatherFault::Refused { item: _ } => unreachable!(),
    })
}

/// The records of the tree of a root, where it is whole.
pub(crate) fn records<S: BlockSource>(
    alloc: Global,
    src: &mut S,
    root: u64,
    site: &Site,
) -> Result<Records, Stop<OmapFault>>
    requires site { IsSiteFor site.now (S.bytes_len src.old) }
    ensures clear { (image : List ℕ) → S.bytes src.old ≡ Some image → IfOk result (λ kept. IsTree records_of (record_tree image site.now) root kept.records.items kept.steps.items (S.reads src.old) (S.reads src.new)) }
    ensures ascending { IfOk result (λ kept. IsAscending kept.records.items) }
    ensures present { (image : List ℕ) → S.bytes src.old ≡ Some image → IfErr result (Tells (IsTreeFault (record_tree image site.now) root) (HasFeature (record_tree image site.now) root)) }
    ensures cause { IsErrOf result ReadFault → Rose (S.faults src.old) (S.faults src.new) }
    ensures kept { IsKept S.bytes S.bytes_len S.faults src.old src.new }
{
    let none = Records {
        records: Vec::new(alloc),
        steps: Vec::new(alloc),
    };
    let namer = Physical {
        blocks: site.blocks,
    };
    match gather::<OmapKey, S, Physical, Records>(alloc, src, namer, root, site, none) {
        Ok(kept) => Ok(kept),
        Err(stop) => Err(raise(root, stop)),
    }
}

/// The snapshots of the tree of a root, where it is whole.
fn snapshots<S: BlockSource>(
    alloc: Global,
    src: &mut S,
    root: u64,
    site: &Site,
) -> Result<Snapshots, Stop<OmapFault>>
    requires site { IsSiteFor site.now (S.bytes_len src.old) }
    ensures clear { (image : List ℕ) → S.bytes src.old ≡ Some image → IfOk result (λ kept. IsTree snapshots_of (snapshot_tree image site.now) root kept.snapshots.items kept.steps.items (S.reads src.old) (S.reads src.new)) }
    ensures present { (image : List ℕ) → S.bytes src.old ≡ Some image → IfErr result (Tells (IsTreeFault (snapshot_tree image site.now) root) (HasFeature (snapshot_tree image site.now) root)) }
    ensures cause { IsErrOf result ReadFault → Rose (S.faults src.old) (S.faults src.new) }
    ensures kept { IsKept S.bytes S.bytes_len S.faults src.old src.new }
{
    let none = Snapshots {
        snapshots: Vec::new(alloc),
        steps: Vec::new(alloc),
    };
    let namer = Physical {
        blocks: site.blocks,
    };
    match gather::<OmapSnapKey, S, Physical, Snapshots>(alloc, src, namer, root, site, none) {
        Ok(kept) => Ok(kept),
        Err(stop) => Err(raise(root, stop)),
    }
}

/// The snapshots of the tree of a root, where it is whole; none where the root is 0, since there is no tree then.
pub(crate) fn snapshots_if<S: BlockSource>(
    alloc: Global,
    src: &mut S,
    root: u64,
    site: &Site,
) -> Result<Snapshots, Stop<OmapFault>>
    requires site { IsSiteFor site.now (S.bytes_len src.old) }
    ensures clear { (image : List ℕ) → S.bytes src.old ≡ Some image → IfOk result (λ kept. HasSnapshots image site.now root kept.snapshots.items kept.steps.items (S.reads src.old) (S.reads src.new)) }
    ensures present { (image : List ℕ) → S.bytes src.old ≡ Some image → IfErr result (Tells (IsSnapshotsFault image site.now root) (IsSnapshotsFeature image site.now root)) }
    ensures cause { IsErrOf result ReadFault → Rose (S.faults src.old) (S.faults src.new) }
    ensures kept { IsKept S.bytes S.bytes_len S.faults src.old src.new }
{
    if root == 0 {
        return Ok(Snapshots {
            snapshots: Vec::new(alloc),
            steps: Vec::new(alloc),
        });
    }
    match snapshots(alloc, src, root, site) {
        Ok(kept) => Ok(kept),
        Err(stop) => Err(stop),
    }
}
