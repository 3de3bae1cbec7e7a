// Nodes on the way.
ghost use Rattle.std.specs.Prelude.{◌≡◌, ℕ, ◌+◌, ◌<◌, ◌≤◌, List, Option, Some, option_map, OnOk, IfErr, IsErrOf, true};
ghost use Rattle.apfs_model.specs.Counts.{Rose};
ghost use Rattle.apfs_model.specs.Kept.{IsKept};
ghost use Rattle.obj_base.specs.declared.stop.Stop.TheVariants.{ReadFault, NoMemory};
ghost use Rattle.obj_base.specs.Stops.{Gives};
ghost use Rattle.bt_node.specs.Node.{level_of, count_of, key_count_of, node_count_of};
ghost use Rattle.obj_base.specs.BlockSize.{is_accepted};
ghost use Rattle.bt_node.specs.Soundness.{node_of};
ghost use Rattle.bt_node.specs.SoundNode.{IsNode};
ghost use Rattle.bt_node.specs.Entries.{child_of, pair_of};
ghost use Rattle.obj_base.specs.Site.{IsSiteFor};
ghost use Rattle.bt_cursor.specs.Tree.{block_named, judged, look_in};
ghost use Rattle.bt_cursor.specs.WholeTree.{IsOfNodes};
ghost use Rattle.bt_cursor.specs.Stack.{IsStep, IsLong};
ghost use Rattle.bt_cursor.specs.Ahead.{items_of};

use crate::fault::WalkFault;
use crate::namer::Namer;
use crate::way::Step;
use blk_read::read_block;
use blk_source::BlockSource;
use bt_node::{Entry, NodeAt, NodeView, RootInfo, Site, TreeKey};
use obj_base::{Bad, Stop};

// The node of a step.
fn view<'a, K: TreeKey>(step: &'a Step, site: &Site) -> NodeView<'a, K>
    requires { IsStep K.shape site.now step.now }
    ensures { result ≡ step.now.block.items }
{
    NodeView::<K>::kept(&step.block, &step.at, site)
}

/// How far the node stands above the leaves.
pub(crate) fn level<K: TreeKey>(step: &Step, site: &Site) -> u16
    requires { IsStep K.shape site.now step.now }
    ensures { result ≡ level_of step.now.block.items }
{
    view::<K>(step, site).level()
}

/// How many entries the node has.
pub(crate) fn count<K: TreeKey>(step: &Step, site: &Site) -> usize
    requires { IsStep K.shape site.now step.now }
    ensures { result ≡ count_of step.now.block.items }
{
    view::<K>(step, site).len()
}

/// The oid of the child that an entry names.
pub(crate) fn child<K: TreeKey>(step: &Step, site: &Site, i: usize) -> u64
    requires step { IsStep K.shape site.now step.now }
    requires inside { i < count_of step.now.block.items }
    requires upper { 0 < level_of step.now.block.items }
    ensures { result ≡ child_of K.shape step.now.block.items i }
{
    view::<K>(step, site).child(i)
}

// The block that an id names.
fn block_in<N: Namer>(namer: &N, site: &Site, oid: u64) -> Option<u64>
    ensures { result ≡ block_named site.now (N.named namer.now) oid }
{
    let block = namer.block(oid)?;
    if 0 < block && block < site.blocks {
        Some(block)
    } else {
        None
    }
}

// Tests the node in a buffer that was read from a block.
fn test<K: TreeKey>(
    step: &Step,
    site: &Site,
    at: &NodeAt,
    block: u64,
) -> Result<(), Stop<WalkFault>>
    requires accepted { is_accepted site.now.block_size ≡ true }
    requires long { IsLong site.now step.now }
    ensures first { Gives (items_of step.now) result (judged block (node_of K.shape at.now site.now step.now.block.items)) }
    ensures node { OnOk result (IsNode K.shape at.now site.now step.now.block.items) }
    ensures of_nodes { IfErr result IsOfNodes }
    ensures no_read { IsErrOf result ReadFault → ⊥ }
    ensures no_memory { IsErrOf result NoMemory → ⊥ }
{
    match NodeView::<K>::read(&step.block, at, site) {
        Ok(_) => Ok(()),
        Err(Bad::Found(why)) => Err(Stop::Found(WalkFault::Unsound { block, why })),
        Err(Bad::Unsupported(feature)) => Err(Stop::Unsupported { feature, block }),
    }
}

/// Reads the node at a place, and stands before its first entry.
#[tactic(auto, using(crate::proofs::Nodes::accepted_size))]
pub(crate) fn load<K: TreeKey, S: BlockSource, N: Namer>(
    src: &mut S,
    namer: &N,
    site: &Site,
    at: NodeAt,
    into: &mut Step,
) -> Result<(), Stop<WalkFault>>
    requires site { IsSiteFor site.now (S.bytes_len src.old) }
    requires long { IsLong site.now into.old }
    ensures found { (image : List ℕ) → S.bytes src.old ≡ Some image → Gives (items_of into.new) result (look_in K.shape site.now (N.named namer.now) image at) }
    ensures step { OnOk result (IsStep K.shape site.now into.new) }
    ensures first { OnOk result (into.new.next ≡ 0) }
    ensures at { OnOk result (into.new.at ≡ at) }
    ensures long { IsLong site.now into.new }
    ensures reads { S.reads src.new ≤ S.reads src.old + 1 }
    ensures cause { IsErrOf result ReadFault → Rose (S.faults src.old) (S.faults src.new) }
    ensures no_memory { IsErrOf result NoMemory → ⊥ }
    ensures of_nodes { IfErr result IsOfNodes }
    ensures kept { IsKept S.bytes S.bytes_len S.faults src.old src.new }
{
    let Some(block) = block_in(namer, site, at.oid) else {
        return Err(Stop::Found(WalkFault::Unnamed { oid: at.oid }));
    };
    read_block(src, block, &mut into.block)?;
    test::<K>(into, site, &at, block)?;
    into.at = at;
    into.next = 0;
    Ok(())
}

/// The key of an entry.
pub(crate) fn key_at<K: TreeKey>(step: &Step, site: &Site, i: usize) -> K
    requires step { IsStep K.shape site.now step.now }
    requires inside { i < count_of step.now.block.items }
    ensures { K.shape.read (pair_of K.shape step.now.block.items i).key ≡ Some result }
{
    view::<K>(step, site).key(i)
}

/// An entry, lent from the block.
pub(crate) fn lend<'a, K: TreeKey>(step: &'a Step, site: &Site, i: usize) -> Entry<'a, K>
    requires step { IsStep K.shape site.now step.now }
    requires inside { i < count_of step.now.block.items }
    ensures key_bytes { result.key_bytes.now ≡ (pair_of K.shape step.now.block.items i).key }
    ensures value { option_map (λ value. value.now) result.value ≡ (pair_of K.shape step.now.block.items i).value }
    ensures key { K.shape.read result.key_bytes.now ≡ Some result.key }
{
    view::<K>(step, site).entry(i)
}

/// An entry, lent from the block, with its key, which is handed in.
pub(crate) fn lend_with<'a, K: TreeKey>(
    step: &'a Step,
    site: &Site,
    i: usize,
    key: K,
) -> Entry<'a, K>
    requires step { IsStep K.shape site.now step.now }
    requires inside { i < count_of step.now.block.items }
    requires key { K.shape.read (pair_of K.shape step.now.block.items i).key ≡ Some key }
    ensures key_bytes { result.key_bytes.now ≡ (pair_of K.shape step.now.block.items i).key }
    ensures value { option_map (λ value. value.now) result.value ≡ (pair_of K.shape step.now.block.items i).value }
    ensures key { K.shape.read result.key_bytes.now ≡ Some result.key }
{
    view::<K>(step, site).entry_with(i, key)
}

/// What a root tells of its tree.
#[tactic(auto, using(crate::proofs::Nodes::root_told))]
pub(crate) fn info<K: TreeKey>(step: &Step, site: &Site) -> RootInfo
    requires step { IsStep K.shape site.now step.now }
    requires root { step.now.at.root ≡ true }
    ensures keys { result.key_count ≡ key_count_of step.now.block.items }
    ensures nodes { result.node_count ≡ node_count_of step.now.block.items }
{
    view::<K>(step, site).info().unwrap()
}
