// The records of a volume's snapshot metadata tree, gathered in one walk.
ghost use Rattle.std.specs.Prelude.{◌≡◌, ◌≤◌, ◌+◌, ◌++◌, ℕ, List, [], ◌∷◌, length, Option, Some, true, not, is_some, option_map, option_to_list, OnOk, IfOk, IfErr, IsErrOf, IsTrue};
ghost use Rattle.apfs_model.specs.Counts.{Rose};
ghost use Rattle.apfs_model.specs.Kept.{IsKept};
ghost use Rattle.obj_base.specs.Stops.{Tells, raised};
ghost use Rattle.obj_base.specs.declared.stop.Stop.TheVariants.{ReadFault};
ghost use Rattle.obj_base.specs.Site.{IsSiteFor};
ghost use Rattle.bt_node.specs.Entries.{bytes_in};
ghost use Rattle.bt_keys.specs.RecordKey.{has_plain_name};
ghost use Rattle.bt_keys.specs.Shapes.{snap_shape};
ghost use Rattle.bt_cursor.specs.Line.{Item};
ghost use Rattle.bt_cursor.specs.WholeTree.{child_id, leaf_pairs};
ghost use Rattle.bt_cursor.specs.Gathered.{shown};
ghost use Rattle.vol_view.specs.Fields as fields;
ghost use Rattle.vol_view.specs.SnapRecords.{metadata_steps};
ghost use Rattle.vol_view.specs.ReadBound.{metadata_nodes};
ghost use Rattle.vol_view.specs.Volumes.{super_of};
ghost use Rattle.vol_view.specs.LoadStops.{IsLoadStop, IsLoadFeature};
ghost use Rattle.vol_view.specs.Gathered.{snapshot_read, name_read, is_refused, metadata_stop, Tell, Gives, HasMetadata};

use crate::fields::snaps_root;
use crate::records::{NameRecord, SnapshotRecord, name_record, snapshot_record};
use crate::{VolHead, VolStop};
use apfs_layout::key;
use blk_source::{BlockSource, NoMemory};
use bt_cursor::{GatherFault, Keeper, LineItem, Physical, Step, gather};
use bt_keys::SnapKey;
use obj_base::{Site, Stop};
use std::alloc::Global;

/// The records of snapshots, those of their names, and the steps of their tree, each in tree order.
#[derive(Drop)]
pub(crate) struct Metadata {
    alloc: Global,
    pub snapshots: Vec<SnapshotRecord>,
    pub names: Vec<NameRecord>,
    pub steps: Vec<Step>,
}

// The bytes of a value, none where there is no value.
fn value_bytes<'a>(value: Option<&'a [u8]>) -> &'a [u8]
    ensures { result.now ≡ bytes_in (option_map (λ v. v.now) value.entry) }
{
    match value {
        Some(bytes) => bytes,
        None => &[],
    }
}

impl Metadata {
    // Keeps a snapshot's record; false where it can't be read.
    fn keep_snapshot(&mut self, xid: u64, value: &[u8]) -> Result<bool, NoMemory>
        ensures refused { IfOk result (λ kept. kept ≡ is_some (snapshot_read xid value.now)) }
        ensures more { IfOk result (λ kept. self.new.snapshots.items ≡ self.old.snapshots.items ++ option_to_list (snapshot_read xid value.now)) }
        ensures same { self.new.names.items ≡ self.old.names.items }
        ensures taken { self.new.steps.items ≡ self.old.steps.items }
    {
        let Some(record) = snapshot_record(self.alloc, xid, value)? else {
            return Ok(false);
        };
        match self.snapshots.push(record) {
            Ok(()) => Ok(true),
            Err(_) => Err(NoMemory),
        }
    }

    // Keeps the record of a name; false where it can't be read.
    fn keep_name(&mut self, key: &[u8], value: &[u8]) -> Result<bool, NoMemory>
        requires { has_plain_name key.now ≡ true }
        ensures refused { IfOk result (λ kept. kept ≡ is_some (name_read key.now value.now)) }
        ensures more { IfOk result (λ kept. self.new.names.items ≡ self.old.names.items ++ option_to_list (name_read key.now value.now)) }
        ensures same { self.new.snapshots.items ≡ self.old.snapshots.items }
        ensures taken { self.new.steps.items ≡ self.old.steps.items }
    {
        let Some(record) = name_record(self.alloc, key, value)? else {
            return Ok(false);
        };
        match self.names.push(record) {
            Ok(()) => Ok(true),
            Err(_) => Err(NoMemory),
        }
    }

    // Keeps the step that an item is, if it is one.
    fn note(&mut self, step: Option<Step>) -> Result<(), NoMemory>
        ensures more { OnOk result (self.new.steps.items ≡ self.old.steps.items ++ option_to_list step) }
        ensures snapshots { self.new.snapshots.items ≡ self.old.snapshots.items }
        ensures names { self.new.names.items ≡ self.old.names.items }
    {
        let Some(step) = step else {
            return Ok(());
        };
        self.steps.push(step)?;
        Ok(())
    }

    // Keeps the record of an item; false where it can't be read.
    fn keep_record(&mut self, item: LineItem<'_, SnapKey>) -> Result<bool, NoMemory>
        requires { snap_shape.read item.pair.key_bytes.now ≡ Some item.pair.key }
        ensures refused { IfOk result (λ kept. kept ≡ not (is_refused (shown item.entry.node item.entry.at item.entry.level item.entry.pair.key_bytes.now (option_map (λ value. value.now) item.entry.pair.value)))) }
        ensures held { (items : List Item) → Tell (leaf_pairs items) self.old.snapshots.items self.old.names.items → IfOk result (λ kept. IsTrue kept → Tell (leaf_pairs (items ++ shown item.entry.node item.entry.at item.entry.level item.entry.pair.key_bytes.now (option_map (λ value. value.now) item.entry.pair.value) ∷ [])) self.new.snapshots.items self.new.names.items) }
        ensures taken { self.new.steps.items ≡ self.old.steps.items }
    {
        if item.level > 0 {
            return Ok(true);
        }
        let value = value_bytes(item.pair.value);
        if item.pair.key.kind == key::SNAPSHOT {
            return self.keep_snapshot(item.pair.key.id, value);
        }
        if item.pair.key.kind == key::SNAPSHOT_NAME {
            return self.keep_name(item.pair.key_bytes, value);
        }
        Ok(true)
    }
}

impl Keeper<SnapKey> for Metadata {
    ghost refuses = { is_refused };

    ghost holds = { λ kept items. Gives items kept.snapshots.items kept.names.items kept.steps.items };

    fn keep(&mut self, item: LineItem<'_, SnapKey>) -> Result<bool, NoMemory>
        requires key { snap_shape.read item.pair.key_bytes.now ≡ Some item.pair.key }
        requires child { item.child ≡ child_id (shown item.node item.at item.level item.pair.key_bytes.now (option_map (λ value. value.now) item.pair.value)) }
        ensures refused { IfOk result (λ kept. kept ≡ not (is_refused (shown item.entry.node item.entry.at item.entry.level item.entry.pair.key_bytes.now (option_map (λ value. value.now) item.entry.pair.value)))) }
        ensures held { (items : List Item) → Gives items self.old.snapshots.items self.old.names.items self.old.steps.items → IfOk result (λ kept. IsTrue kept → Gives (items ++ shown item.entry.node item.entry.at item.entry.level item.entry.pair.key_bytes.now (option_map (λ value. value.now) item.entry.pair.value) ∷ []) self.new.snapshots.items self.new.names.items self.new.steps.items) }
    {
        self.note(item.step())?;
        self.keep_record(item)
    }
}

// Why a walk over the snapshot metadata tree of a root stops, said of the volume in a slot.
fn raise(slot: u32, root: u64, stop: Stop<GatherFault>) -> Stop<VolStop>
    ensures { result ≡ raised (metadata_stop slot root) stop }
{
    stop.map(|fault| match fault {
        GatherFault::Tree(why) => VolStop::Walk { root, why },
        GatherFault::Refused { item: _ } => VolStop::SnapRecord { slot },
    })
}

/// The records and the steps of the snapshot metadata tree of a volume, by its superblock's bytes, where the tree is whole and
/// the records can be read; none where the volume has no such tree.
pub(crate) fn gathered<S: BlockSource>(
    alloc: Global,
    src: &mut S,
    head: &VolHead,
    bytes: &[u8],
    site: &Site,
) -> Result<Metadata, Stop<VolStop>>
    requires site { IsSiteFor site.now (S.bytes_len src.old) }
    requires long { 4096 ≤ length bytes.now }
    ensures clear { (image : List ℕ) → S.bytes src.old ≡ Some image → IfOk result (λ kept. HasMetadata image site.now (fields.snaps_root_of bytes.now) kept.snapshots.items kept.names.items) }
    ensures steps { (image : List ℕ) → S.bytes src.old ≡ Some image → IfOk result (λ kept. kept.steps.items ≡ metadata_steps image site.now (fields.snaps_root_of bytes.now)) }
    ensures reads { (image : List ℕ) → S.bytes src.old ≡ Some image → OnOk result (S.reads src.new ≤ S.reads src.old + metadata_nodes image site.now (fields.snaps_root_of bytes.now)) }
    ensures present { (image : List ℕ) → S.bytes src.old ≡ Some image → bytes.now ≡ super_of image site.now head.now → IfErr result (Tells (IsLoadStop image site.now head.now) (IsLoadFeature image site.now head.now)) }
    ensures cause { IsErrOf result ReadFault → Rose (S.faults src.old) (S.faults src.new) }
    ensures kept { IsKept S.bytes S.bytes_len S.faults src.old src.new }
{
    let none = Metadata {
        alloc,
        snapshots: Vec::new(alloc),
        names: Vec::new(alloc),
        steps: Vec::new(alloc),
    };
    let root = snaps_root(bytes);
    if root == 0 {
        return Ok(none);
    }
    let namer = Physical {
        blocks: site.blocks,
    };
    match gather::<SnapKey, S, Physical, Metadata>(alloc, src, namer, root, site, none) {
        Ok(kept) => Ok(kept),
        Err(stop) => Err(raise(head.slot, root, stop)),
    }
}
