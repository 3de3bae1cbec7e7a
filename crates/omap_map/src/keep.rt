// What is kept of the items of a map's two trees.
ghost use Rattle.std.specs.Prelude.{◌≡◌, ◌++◌, ℕ, List, [], ◌∷◌, Option, Some, true, false, option_map, option_to_list, OnOk, IfOk, IsTrue};
ghost use Rattle.bt_keys.specs.Shapes.{omap_shape, omap_snap_shape};
ghost use Rattle.bt_cursor.specs.Line.{Item};
ghost use Rattle.bt_cursor.specs.WholeTree.{child_id};
ghost use Rattle.bt_cursor.specs.Gathered.{shown};
ghost use Rattle.omap_map.specs.Records.{records_of, snapshots_of};
ghost use Rattle.omap_map.specs.Gathered.{records_in, snapshots_in, Gives};

use crate::OmapRecord;
use blk_source::NoMemory;
use bt_cursor::{Keeper, LineItem, Step};
use bt_keys::{OmapKey, OmapSnapKey, omap_snap_flags, omap_value};

/// The records of a map's tree, and the steps of the tree, in the order of its Line.
#[derive(Drop)]
pub(crate) struct Records {
    pub records: Vec<OmapRecord>,
    pub steps: Vec<Step>,
}

/// The snapshots of a map's tree of snapshots, each by its transaction and its flags, and the steps of
/// the tree, in the order of its Line.
#[derive(Drop)]
pub(crate) struct Snapshots {
    pub snapshots: Vec<(u64, u32)>,
    pub steps: Vec<Step>,
}

// Puts what an item gave after what was gathered.
fn add<T: Drop>(gathered: &mut Vec<T>, given: Option<T>) -> Result<(), NoMemory>
    ensures { OnOk result (gathered.new.items ≡ gathered.old.items ++ option_to_list given) }
{
    let Some(item) = given else {
        return Ok(());
    };
    gathered.push(item)?;
    Ok(())
}

// The record of an item; None above the leaves.
#[tactic(auto, unfolding(crate::specs::Records::record_of, bt_keys::specs::Values::omap_value_of))]
fn record_in(item: LineItem<'_, OmapKey>) -> Option<OmapRecord>
    requires { omap_shape.read item.pair.key_bytes.now ≡ Some item.pair.key }
    ensures { option_to_list result ≡ records_in (shown item.entry.node item.entry.at item.entry.level item.entry.pair.key_bytes.now (option_map (λ value. value.now) item.entry.pair.value)) }
{
    if item.level > 0 {
        return None;
    }
    let value = omap_value(item.pair.value?)?;
    Some(OmapRecord {
        oid: item.pair.key.oid,
        xid: item.pair.key.xid,
        flags: value.flags,
        size: value.size,
        paddr: value.paddr,
    })
}

// The snapshot of an item, by its transaction and its flags; None above the leaves.
#[tactic(auto, unfolding(crate::specs::Records::snapshot_of, bt_keys::specs::Values::omap_snap_flags_of))]
fn snapshot_in(item: LineItem<'_, OmapSnapKey>) -> Option<(u64, u32)>
    requires { omap_snap_shape.read item.pair.key_bytes.now ≡ Some item.pair.key }
    ensures { option_to_list result ≡ snapshots_in (shown item.entry.node item.entry.at item.entry.level item.entry.pair.key_bytes.now (option_map (λ value. value.now) item.entry.pair.value)) }
{
    if item.level > 0 {
        return None;
    }
    let flags = omap_snap_flags(item.pair.value?)?;
    Some((item.pair.key.xid, flags))
}

impl Keeper<OmapKey> for Records {
    ghost refuses = { λ _. false };

    ghost holds = { λ kept items. Gives records_of kept.records.items kept.steps.items items };

    fn keep(&mut self, item: LineItem<'_, OmapKey>) -> Result<bool, NoMemory>
        requires key { omap_shape.read item.pair.key_bytes.now ≡ Some item.pair.key }
        requires child { item.child ≡ child_id (shown item.node item.at item.level item.pair.key_bytes.now (option_map (λ value. value.now) item.pair.value)) }
        ensures refused { IfOk result (λ kept. kept ≡ true) }
        ensures held { (items : List Item) → Gives records_of self.old.records.items self.old.steps.items items → IfOk result (λ kept. IsTrue kept → Gives records_of self.new.records.items self.new.steps.items (items ++ shown item.entry.node item.entry.at item.entry.level item.entry.pair.key_bytes.now (option_map (λ value. value.now) item.entry.pair.value) ∷ [])) }
    {
        add(&mut self.steps, item.step())?;
        add(&mut self.records, record_in(item))?;
        Ok(true)
    }
}

impl Keeper<OmapSnapKey> for Snapshots {
    ghost refuses = { λ _. false };

    ghost holds = { λ kept items. Gives snapshots_of kept.snapshots.items kept.steps.items items };

    fn keep(&mut self, item: LineItem<'_, OmapSnapKey>) -> Result<bool, NoMemory>
        requires key { omap_snap_shape.read item.pair.key_bytes.now ≡ Some item.pair.key }
        requires child { item.child ≡ child_id (shown item.node item.at item.level item.pair.key_bytes.now (option_map (λ value. value.now) item.pair.value)) }
        ensures refused { IfOk result (λ kept. kept ≡ true) }
        ensures held { (items : List Item) → Gives snapshots_of self.old.snapshots.items self.old.steps.items items → IfOk result (λ kept. IsTrue kept → Gives snapshots_of self.new.snapshots.items self.new.steps.items (items ++ shown item.entry.node item.entry.at item.entry.level item.entry.pair.key_bytes.now (option_map (λ value. value.now) item.entry.pair.value) ∷ [])) }
    {
        add(&mut self.steps, item.step())?;
        add(&mut self.snapshots, snapshot_in(item))?;
        Ok(true)
    }
}
