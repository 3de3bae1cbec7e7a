// The blocks of the extents whose records stand in a leaf.
ghost use Rattle.std.specs.Prelude.{◌≡◌, ◌<◌, true, length, IfOk, IsTrue};
ghost use Rattle.obj_base.specs.BlockSize.{is_accepted};
ghost use Rattle.bt_node.specs.Entries.{pair_of, pairs_of};
ghost use Rattle.bt_node.specs.Node.{count_of};
ghost use Rattle.use_report.specs.Counted.{Grows};
ghost use Rattle.use_report.specs.Leaves.{IsOfRecord, IsOfRecords, IsPlacedRecord, ArePlacedRecords, AddsLeaf};

use crate::holding::add_extent;
use crate::keep::extent_in;
use crate::pieces::Pieces;
use apfs_model::NoMemory;
use bt_keys::FsTreeKey;
use bt_node::{NodeAt, NodeView};
use obj_base::Site;

// Adds the blocks of the extent of a record, where it is one of an extent; false where it can't be read, or leaves the container.
fn add_record<K: FsTreeKey>(
    held: &mut Pieces,
    site: &Site,
    node: &NodeView<'_, K>,
    i: usize,
) -> Result<bool, NoMemory>
    requires size { 0 < site.now.block_size }
    requires inside { i < count_of node.now }
    ensures added { IfOk result (λ whole. IsTrue whole → Grows held.old held.new (IsOfRecord site.now (pair_of K.shape node.now i))) }
    ensures placed { IfOk result (λ whole. IsTrue whole → IsPlacedRecord site.now (pair_of K.shape node.now i)) }
{
    match extent_in(&node.entry(i)) {
        Ok(Some(extent)) => {
            let placed = add_extent(held, site, extent)?;
            Ok(placed)
        }
        Ok(None) => Ok(true),
        Err(_) => Ok(false),
    }
}

// The same for each record of a node.
fn add_records<K: FsTreeKey>(
    held: &mut Pieces,
    site: &Site,
    node: &NodeView<'_, K>,
) -> Result<bool, NoMemory>
    requires { 0 < site.now.block_size }
    ensures added { IfOk result (λ whole. IsTrue whole → Grows held.old held.new (IsOfRecords site.now (pairs_of K.shape node.now))) }
    ensures placed { IfOk result (λ whole. IsTrue whole → ArePlacedRecords site.now (pairs_of K.shape node.now)) }
{
    'records: for i in 0..node.len() {
        let whole = add_record(held, site, node, i)?;
        if !whole {
            return Ok(false);
        }
    }
    Ok(true)
}

/// Adds the blocks of the extents whose records stand in a node, where it is a leaf; false where it isn't sound, one of them
/// can't be read, or one leaves the container.
#[tactic(auto, using(view_sweep::proofs::Sizes::accepted_size))]
pub(crate) fn add_leaf<K: FsTreeKey>(
    held: &mut Pieces,
    site: &Site,
    at: &NodeAt,
    bytes: &[u8],
) -> Result<bool, NoMemory>
    requires accepted { is_accepted site.now.block_size ≡ true }
    requires long { length bytes.now ≡ site.now.block_size }
    ensures { IfOk result (λ whole. IsTrue whole → AddsLeaf K.shape site.now bytes.now held.old held.new) }
{
    let Ok(node) = NodeView::<K>::read(bytes, at, site) else {
        return Ok(false);
    };
    if node.level() > 0 {
        return Ok(true);
    }
    let whole = add_records(held, site, &node)?;
    Ok(whole)
}
