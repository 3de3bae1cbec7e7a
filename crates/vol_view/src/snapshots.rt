// The snapshots of a volume: what their records tell, and their superblocks.
ghost use Rattle.std.specs.Prelude.{◌≡◌, ◌≤◌, ◌+◌, ℕ, List, length, Some, IfOk, IfErr, IsErrOf, OnOk};
ghost use Rattle.apfs_model.specs.Counts.{Rose};
ghost use Rattle.apfs_model.specs.Lists.{In};
ghost use Rattle.apfs_model.specs.Kept.{IsKept};
ghost use Rattle.obj_base.specs.Stops.{Tells};
ghost use Rattle.obj_base.specs.declared.stop.Stop.TheVariants.{ReadFault, NoMemory};
ghost use Rattle.obj_base.specs.Site.{IsSiteFor};
ghost use Rattle.vol_view.specs.Gathered.{IsRightSnapshotOf, AreSnapshots, IsRecordStop, IsRecordFeature, IsStopOfOne, IsFeatureOfOne};

use crate::features::{of_record, of_snapshot};
use crate::fields::{meta_ext, root_oid};
use crate::records::SnapshotRecord;
use crate::superblock::superblock;
use crate::{Snapshot, VolStop};
use blk_source::{BlockSource, Bytes};
use obj_base::{Site, Stop, Within};
use std::alloc::Global;

// The snapshot of a record, with its superblock, where neither has a feature.
fn snapshot<S: BlockSource>(
    alloc: Global,
    src: &mut S,
    told: &SnapshotRecord,
    site: &Site,
) -> Result<Snapshot, Stop<VolStop>>
    requires site { IsSiteFor site.now (S.bytes_len src.old) }
    ensures clear { (image : List ℕ) → S.bytes src.old ≡ Some image → IfOk result (IsRightSnapshotOf image site.now told.now) }
    ensures reads { S.reads src.new ≤ S.reads src.old + 1 }
    ensures present { (image : List ℕ) → S.bytes src.old ≡ Some image → IfErr result (Tells (IsRecordStop image site.now told.now) (IsRecordFeature image site.now told.now)) }
    ensures cause { IsErrOf result ReadFault → Rose (S.faults src.old) (S.faults src.new) }
    ensures kept { IsKept S.bytes S.bytes_len S.faults src.old src.new }
{
    let block = told.super_block;
    match of_record(told.flags) {
        Some(feature) => return Err(Stop::Unsupported { feature, block }),
        None => {}
    }
    if !site.has_block(block) {
        return Err(Stop::Found(VolStop::Unnamed {
            within: Within::Physical,
            oid: block,
        }));
    }
    let bytes = match superblock(alloc, src, None, block, site) {
        Ok(bytes) => bytes,
        Err(stop) => return Err(stop),
    };
    match of_snapshot(&bytes) {
        Some(feature) => return Err(Stop::Unsupported { feature, block }),
        None => {}
    }
    let name = Bytes::from_slice(alloc, told.name.as_slice())?;
    Ok(Snapshot {
        xid: told.xid,
        created: told.created,
        name,
        super_block: block,
        extents_root: told.extents_root,
        root_oid: root_oid(&bytes),
        meta_ext: meta_ext(&bytes),
    })
}

/// The snapshots of some records, in their order.
pub(crate) fn snapshots<S: BlockSource>(
    alloc: Global,
    src: &mut S,
    records: &[SnapshotRecord],
    site: &Site,
) -> Result<Vec<Snapshot>, Stop<VolStop>>
    requires site { IsSiteFor site.now (S.bytes_len src.old) }
    ensures clear { (image : List ℕ) → S.bytes src.old ≡ Some image → IfOk result (λ snapshots. AreSnapshots image site.now records.now snapshots.items) }
    ensures reads { IfOk result (λ snapshots. S.reads src.new ≤ S.reads src.old + length snapshots.items) }
    ensures present { (image : List ℕ) → S.bytes src.old ≡ Some image → IfErr result (Tells (IsStopOfOne image site.now records.now) (IsFeatureOfOne image site.now records.now)) }
    ensures cause { IsErrOf result ReadFault → Rose (S.faults src.old) (S.faults src.new) }
    ensures kept { IsKept S.bytes S.bytes_len S.faults src.old src.new }
{
    let mut snapshots = Vec::new(alloc);
    'records: for told in records {
        let snapshot = match snapshot(alloc, src, told, site) {
            Ok(snapshot) => snapshot,
            Err(stop) => return Err(stop),
        };
        snapshots.push(snapshot)?;
    }
    Ok(snapshots)
}
