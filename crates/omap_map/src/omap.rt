// An object map, and what its records resolve to.
ghost use Rattle.std.specs.Prelude.{◌≡◌, ◌≤◌, length, true, false, OnOk, IfOk, IfErr};
ghost use Rattle.std.specs.List.Sorted.{IsPartitionPoint};
ghost use Rattle.omap_map.specs.Loading.{IsAscending};
ghost use Rattle.omap_map.specs.Search.{is_by};
ghost use Rattle.omap_map.specs.Resolve as spec;

use crate::object::{object, snap_count, snap_tree, tree};
use crate::trees::{records, snapshots_if};
use crate::{OmapFault, OmapRecord, Place};
use blk_source::BlockSource;
use bt_cursor::Step;
use obj_base::{Site, Stop};
use std::alloc::Global;
use std::marker::Model;

/// An object map that was loaded: its records in tree order, its snapshots, its block, and the roots and the steps of its two trees.
#[derive(Drop)]
pub struct Omap {
    records: Vec<OmapRecord>,
    snapshots: Vec<(u64, u32)>,
    snap_count: u32,
    block: u64,
    tree: u64,
    snap_tree: u64,
    steps: Vec<Step>,
    snap_steps: Vec<Step>,
}

impl Model for Omap {
    ghost use Rattle.omap_map.specs.Loading.{IsAscending};
    ghost use Rattle.omap_map.specs.Maps.{Contents};

    ghost Value = { Contents };

    ghost view = { λ a. record { records = a.records.items; snapshots = a.snapshots.items; snap_count = a.snap_count; block = a.block; tree = a.tree; snap_tree = a.snap_tree; steps = a.steps.items; snap_steps = a.snap_steps.items } };

    ghost invariant = { λ a. IsAscending a.records.items };
}

impl Omap {
    /// The records, in tree order: by oid, then by transaction.
    pub fn records(&self) -> &[OmapRecord]
        ensures all { result.now ≡ self.now.records }
        ensures ascending { IsAscending result.now }
    {
        &self.records
    }

    /// The snapshots that the map knows, each by its transaction and its flags, in tree order.
    pub fn snapshots(&self) -> &[(u64, u32)]
        ensures { result.now ≡ self.now.snapshots }
    {
        &self.snapshots
    }

    /// The number of snapshots that the map counts (Object Maps, `om_snap_count`).
    pub fn snap_count(&self) -> u32
        ensures { result ≡ self.now.snap_count }
    {
        self.snap_count
    }

    /// The block of the map.
    pub fn block(&self) -> u64
        ensures { result ≡ self.now.block }
    {
        self.block
    }

    /// The id of the root of its tree.
    pub fn tree(&self) -> u64
        ensures { result ≡ self.now.tree }
    {
        self.tree
    }

    /// The id of the root of its tree of snapshots, 0 where it has none.
    pub fn snap_tree(&self) -> u64
        ensures { result ≡ self.now.snap_tree }
    {
        self.snap_tree
    }

    /// The steps of its tree, in the order in which a walk takes them: one for each node below the root.
    pub fn steps(&self) -> &[Step]
        ensures { result.now ≡ self.now.steps }
    {
        &self.steps
    }

    /// The steps of its tree of snapshots.
    pub fn snap_steps(&self) -> &[Step]
        ensures { result.now ≡ self.now.snap_steps }
    {
        &self.snap_steps
    }

    // How many records don't come after an id and a transaction.
    fn count_by(&self, oid: u64, xid: u64) -> usize
        ensures bound { result ≤ length self.now.records }
        ensures split { IsPartitionPoint (λ r. is_by oid xid r ≡ true) (λ r. is_by oid xid r ≡ false) self.now.records result }
    {
        self.records.as_slice().partition_point(
            |record: &OmapRecord| -> bool
                ensures { result ≡ is_by oid xid record.now }
            { record.oid < oid || (record.oid == oid && record.xid <= xid) },
        )
    }

    // The record of an id of the greatest transaction of at most `xid`.
    fn latest(&self, oid: u64, xid: u64) -> Option<OmapRecord>
        ensures { result ≡ spec.latest self.now.records oid xid }
    {
        let by = self.count_by(oid, xid);
        if by == 0 {
            return None;
        }
        let last = self.records[by - 1];
        if last.oid != oid {
            return None;
        }
        Some(last)
    }

    /// The record to which `oid` resolves at transaction `xid`: that of the greatest transaction of at most `xid` among those of
    /// `oid`. None where there is no such record, or where it is marked deleted.
    #[tactic(auto, unfolding(crate::specs::Resolve::resolved))]
    pub fn record(&self, oid: u64, xid: u64) -> Option<OmapRecord>
        ensures { result ≡ spec.resolved self.now.records oid xid }
    {
        let record = self.latest(oid, xid)?;
        if record.is_deleted() {
            return None;
        }
        Some(record)
    }

    /// Where `oid` lies at transaction `xid`, by the record to which it resolves.
    #[tactic(auto, unfolding(crate::specs::Resolve::resolve))]
    pub fn resolve(&self, oid: u64, xid: u64) -> Option<Place>
        ensures { result ≡ spec.resolve self.now.records oid xid }
    {
        let record = self.record(oid, xid)?;
        Some(record.place())
    }
}

impl Omap {
    ghost use Rattle.std.specs.Prelude.{◌+◌, ◌<◌, ℕ, List, Some, Err, IsErrOf};
    ghost use Rattle.apfs_model.specs.Counts.{Rose};
    ghost use Rattle.apfs_model.specs.Kept.{IsKept};
    ghost use Rattle.obj_base.specs.Stops.{Tells, Gives, IsFree};
    ghost use Rattle.obj_base.specs.declared.stop.Stop as stops;
    ghost use Rattle.obj_base.specs.declared.stop.Stop.TheVariants.{ReadFault};
    ghost use Rattle.obj_base.specs.Site.{IsSiteFor};
    ghost use Rattle.omap_map.specs.declared.fault.OmapFault as faults;
    ghost use Rattle.omap_map.specs.Features.{is_reverting};
    ghost use Rattle.omap_map.specs.Maps.{map_in, is_whole_map, IsMapFault, IsMapFeature};
    ghost use Rattle.omap_map.specs.Loading.{IsLoaded, map_nodes, object_of};

    /// The object map in a block, with its tree and its tree of snapshots, where all of these are whole. `Head` comes
    /// where its object isn't sound, `Tree` where one of its trees isn't whole, and `Unsupported` for a feature of its
    /// header, for a pending revert (`Revert`) or for a feature of a node. A feature of a mapping, of a snapshot or of
    /// the container's map isn't looked for.
    pub fn load<S: BlockSource>(
        alloc: Global,
        src: &mut S,
        block: u64,
        site: &Site,
    ) -> Result<Omap, Stop<OmapFault>>
        requires site { IsSiteFor site.now (S.bytes_len src.old) }
        requires above { 0 < block }
        requires below { block < site.now.blocks }
        ensures clear { (image : List ℕ) → S.bytes src.old ≡ Some image → IfOk result (IsLoaded image site.now block) }
        ensures present { (image : List ℕ) → S.bytes src.old ≡ Some image → IfErr result (Tells (IsMapFault image site.now block) (IsMapFeature image site.now block)) }
        ensures exact { (image : List ℕ) → S.bytes src.old ≡ Some image → is_whole_map image site.now block ≡ true → is_reverting (map_in image site.now block) ≡ false → IfErr result IsFree }
        ensures head { (image : List ℕ) → S.bytes src.old ≡ Some image → (stop : stops.Stop faults.OmapFault) → object_of image site.now block ≡ Err stop → Gives (λ omap. omap) result (Err stop) }
        ensures cause { IsErrOf result ReadFault → Rose (S.faults src.old) (S.faults src.new) }
        ensures kept { IsKept S.bytes S.bytes_len S.faults src.old src.new }
        ensures reads { (image : List ℕ) → S.bytes src.old ≡ Some image → OnOk result (S.reads src.new ≤ S.reads src.old + (1 + map_nodes image site.now block)) }
    {
        let bytes = match object(alloc, src, block, site) {
            Ok(bytes) => bytes,
            Err(stop) => return Err(stop),
        };
        let root = tree(&bytes);
        let kept = match records(alloc, src, root, site) {
            Ok(kept) => kept,
            Err(stop) => return Err(stop),
        };
        let snap_root = snap_tree(&bytes);
        let snapped = match snapshots_if(alloc, src, snap_root, site) {
            Ok(snapped) => snapped,
            Err(stop) => return Err(stop),
        };
        Ok(Omap {
            records: kept.records,
            snapshots: snapped.snapshots,
            snap_count: snap_count(&bytes),
            block,
            tree: root,
            snap_tree: snap_root,
            steps: kept.steps,
            snap_steps: snapped.steps,
        })
    }
}
