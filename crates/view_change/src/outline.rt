// The outline of a tree: its Line without the items of its leaves.
ghost use Rattle.std.specs.Prelude.{◌≡◌, ℕ, ◌+◌, ◌<◌, ◌≤◌, true, List, [], ◌∷◌, ◌++◌, Some, length, IfOk, IfErr, IfSome, IsErrOf, IsTrue, OnOk};
ghost use Rattle.apfs_model.specs.Counts.{Rose};
ghost use Rattle.apfs_model.specs.Kept.{IsKept};
ghost use Rattle.obj_base.specs.BlockSize.{is_accepted};
ghost use Rattle.obj_base.specs.Site.{IsSiteFor};
ghost use Rattle.obj_base.specs.Stops.{IsFree};
ghost use Rattle.obj_base.specs.declared.stop.Stop.TheVariants.{ReadFault};
ghost use Rattle.bt_node.specs.Node.{level_of};
ghost use Rattle.bt_node.specs.SoundNode.{IsNode};
ghost use Rattle.bt_cursor.specs.Tree.{tree_in, node_at, block_named};
ghost use Rattle.bt_cursor.specs.Met.{has_node, places_of};
ghost use Rattle.view_change.specs.Outline.{node_place, separators_of, separators_in, below_of, is_child_there, reads_in, IsOutlined};

use crate::node::read_node;
use apfs_model::NoMemory;
use blk_source::BlockSource;
use bt_cursor::Namer;
use bt_node::{NodeAt, NodeView, Rank, RootInfo, TreeKey};
use obj_base::{Site, Stop};
use std::alloc::Global;

/// An entry of a node above the leaves: the rank of its key, and the id of its child where the child is still to be read.
#[derive(Clone, Copy, PartialEq, Eq)]
pub(crate) struct Separator {
    pub(crate) rank: Rank,
    pub(crate) child: Option<u64>,
}

/// The entries of the nodes above a level, in the order of the Line, and what the root tells of the tree.
#[derive(Drop)]
pub(crate) struct Outline {
    pub(crate) level: u16,
    pub(crate) info: RootInfo,
    pub(crate) separators: Vec<Separator>,
}

/// The block that an id names.
pub(crate) fn block_in<N: Namer>(namer: &N, site: &Site, oid: u64) -> Option<u64>
    ensures { result ≡ block_named site.now (N.named namer.now) oid }
{
    let block = namer.block(oid)?;
    if 0 < block && block < site.blocks {
        Some(block)
    } else {
        None
    }
}

// Reads the node at a place; false where it isn't there.
fn load<K: TreeKey, S: BlockSource, N: Namer>(
    src: &mut S,
    namer: &N,
    site: &Site,
    at: &NodeAt,
    into: &mut [u8],
) -> Result<bool, Stop<()>>
    requires site { IsSiteFor site.now (S.bytes_len src.old) }
    requires long { length into.old ≡ site.now.block_size }
    ensures node { IfOk result (λ read. IsTrue read → IsNode K.shape at.now site.now into.new) }
    ensures found { (image : List ℕ) → S.bytes src.old ≡ Some image → IfOk result (λ read. IsTrue read → node_at (tree_in K.shape site.now (N.named namer.now) image) at.now ≡ Some into.new) }
    ensures reads { S.reads src.new ≤ S.reads src.old + 1 }
    ensures free { IfErr result IsFree }
    ensures cause { IsErrOf result ReadFault → Rose (S.faults src.old) (S.faults src.new) }
    ensures kept { IsKept S.bytes S.bytes_len S.faults src.old src.new }
{
    let Some(block) = block_in(namer, site, at.oid) else {
        return Ok(false);
    };
    read_node::<K, S>(src, site, at, block, into)
}

// Adds the separators of a node above the leaves.
fn put_entries<K: TreeKey>(
    node: &[u8],
    at: &NodeAt,
    site: &Site,
    into: &mut Vec<Separator>,
) -> Result<(), NoMemory>
    requires accepted { is_accepted site.now.block_size ≡ true }
    requires long { length node.now ≡ site.now.block_size }
    requires node { IsNode K.shape at.now site.now node.now }
    requires upper { 0 < level_of node.now }
    ensures { OnOk result (into.new.items ≡ into.old.items ++ separators_of K.shape node.now) }
{
    let view = NodeView::<K>::kept(node, at, site);
    'entries: for i in 0..view.len() {
        into.push(Separator {
            rank: view.key(i).rank(),
            child: Some(view.child(i)),
        })?;
    }
    Ok(())
}

// Adds the separators of the node of an id and of a level above 0; false where the node isn't there.
fn put_node<K: TreeKey, S: BlockSource, N: Namer>(
    src: &mut S,
    namer: &N,
    site: &Site,
    level: u16,
    oid: u64,
    block: &mut [u8],
    into: &mut Vec<Separator>,
) -> Result<bool, Stop<()>>
    requires site { IsSiteFor site.now (S.bytes_len src.old) }
    requires long { length block.old ≡ site.now.block_size }
    requires upper { 0 < level }
    ensures below { (image : List ℕ) → S.bytes src.old ≡ Some image → IfOk result (λ there. IsTrue there → into.new.items ≡ into.old.items ++ separators_in (tree_in K.shape site.now (N.named namer.now) image) level (Some oid)) }
    ensures there { (image : List ℕ) → S.bytes src.old ≡ Some image → IfOk result (λ there. IsTrue there → has_node (tree_in K.shape site.now (N.named namer.now) image) (node_place level oid) ≡ true) }
    ensures reads { S.reads src.new ≤ S.reads src.old + 1 }
    ensures free { IfErr result IsFree }
    ensures cause { IsErrOf result ReadFault → Rose (S.faults src.old) (S.faults src.new) }
    ensures kept { IsKept S.bytes S.bytes_len S.faults src.old src.new }
{
    let at = NodeAt {
        oid,
        root: false,
        level: Some(level),
    };
    if !load::<K, S, N>(src, namer, site, &at, block)? {
        return Ok(false);
    }
    put_entries::<K>(block, &at, site, into)?;
    Ok(true)
}

// Adds a separator and those of its child of a level above 0; false where the child isn't there.
fn put_below<K: TreeKey, S: BlockSource, N: Namer>(
    src: &mut S,
    namer: &N,
    site: &Site,
    level: u16,
    next: Separator,
    block: &mut [u8],
    into: &mut Vec<Separator>,
) -> Result<bool, Stop<()>>
    requires site { IsSiteFor site.now (S.bytes_len src.old) }
    requires long { length block.old ≡ site.now.block_size }
    requires upper { 0 < level }
    ensures below { (image : List ℕ) → S.bytes src.old ≡ Some image → IfOk result (λ there. IsTrue there → into.new.items ≡ into.old.items ++ below_of (tree_in K.shape site.now (N.named namer.now) image) level next) }
    ensures there { (image : List ℕ) → S.bytes src.old ≡ Some image → IfOk result (λ there. IsTrue there → is_child_there (tree_in K.shape site.now (N.named namer.now) image) level next.child ≡ true) }
    ensures reads { S.reads src.new ≤ S.reads src.old + reads_in (next ∷ []) }
    ensures free { IfErr result IsFree }
    ensures cause { IsErrOf result ReadFault → Rose (S.faults src.old) (S.faults src.new) }
    ensures kept { IsKept S.bytes S.bytes_len S.faults src.old src.new }
{
    into.push(Separator {
        child: None,
        ..next
    })?;
    match next.child {
        None => Ok(true),
        Some(oid) => put_node::<K, S, N>(src, namer, site, level, oid, block, into),
    }
}

// The outline one level down; none where a node of the level isn't there, or where there are more separators than blocks, since each leads to
// a node that has a block of its own.
fn below<K: TreeKey, S: BlockSource, N: Namer>(
    alloc: Global,
    src: &mut S,
    namer: &N,
    site: &Site,
    outline: &Outline,
    block: &mut [u8],
) -> Result<Option<Outline>, Stop<()>>
    requires site { IsSiteFor site.now (S.bytes_len src.old) }
    requires long { length block.old ≡ site.now.block_size }
    requires upper { 0 < outline.now.level }
    ensures outlined { (image : List ℕ) (root start : ℕ) → S.bytes src.old ≡ Some image → IsOutlined (tree_in K.shape site.now (N.named namer.now) image) root start (S.reads src.old) outline.now → IfOk result (λ found. IfSome found (IsOutlined (tree_in K.shape site.now (N.named namer.now) image) root start (S.reads src.new))) }
    ensures level { IfOk result (λ found. IfSome found (λ lower. lower.level + 1 ≡ outline.now.level)) }
    ensures reads { S.reads src.new ≤ S.reads src.old + reads_in outline.now.separators.items }
    ensures free { IfErr result IsFree }
    ensures cause { IsErrOf result ReadFault → Rose (S.faults src.old) (S.faults src.new) }
    ensures kept { IsKept S.bytes S.bytes_len S.faults src.old src.new }
{
    let level = outline.level;
    let mut separators = Vec::new(alloc);
    'separators: for next in &outline.separators {
        if !put_below::<K, S, N>(src, namer, site, level, *next, block, &mut separators)? {
            return Ok(None);
        }
        if separators.len() as u64 > site.blocks {
            return Ok(None);
        }
    }
    Ok(Some(Outline {
        level: level - 1,
        info: outline.info,
        separators,
    }))
}

// The outline by the root alone; none where the root isn't there, or stands at level 0.
fn top<K: TreeKey, S: BlockSource, N: Namer>(
    alloc: Global,
    src: &mut S,
    namer: &N,
    site: &Site,
    root: u64,
    block: &mut [u8],
) -> Result<Option<Outline>, Stop<()>>
    requires site { IsSiteFor site.now (S.bytes_len src.old) }
    requires long { length block.old ≡ site.now.block_size }
    ensures outlined { (image : List ℕ) → S.bytes src.old ≡ Some image → IfOk result (λ found. IfSome found (IsOutlined (tree_in K.shape site.now (N.named namer.now) image) root (S.reads src.old) (S.reads src.new))) }
    ensures reads { S.reads src.new ≤ S.reads src.old + 1 }
    ensures free { IfErr result IsFree }
    ensures cause { IsErrOf result ReadFault → Rose (S.faults src.old) (S.faults src.new) }
    ensures kept { IsKept S.bytes S.bytes_len S.faults src.old src.new }
{
    let at = NodeAt {
        oid: root,
        root: true,
        level: None,
    };
    if !load::<K, S, N>(src, namer, site, &at, block)? {
        return Ok(None);
    }
    let view = NodeView::<K>::kept(block, &at, site);
    let Some(info) = view.info() else {
        return Ok(None);
    };
    let Some(level) = view.level().checked_sub(1) else {
        return Ok(None);
    };
    let mut separators = Vec::new(alloc);
    put_entries::<K>(block, &at, site, &mut separators)?;
    Ok(Some(Outline {
        level,
        info,
        separators,
    }))
}

/// The outline of the tree of a root down to its leaves, by the nodes above them; no leaf is read. None where the root is a leaf, and where a
/// node above the leaves isn't there.
pub(crate) fn outline_of<K: TreeKey, S: BlockSource, N: Namer>(
    alloc: Global,
    src: &mut S,
    namer: &N,
    site: &Site,
    root: u64,
) -> Result<Option<Outline>, Stop<()>>
    requires site { IsSiteFor site.now (S.bytes_len src.old) }
    ensures outlined { (image : List ℕ) → S.bytes src.old ≡ Some image → IfOk result (λ found. IfSome found (IsOutlined (tree_in K.shape site.now (N.named namer.now) image) root (S.reads src.old) (S.reads src.new))) }
    ensures end { IfOk result (λ found. IfSome found (λ outline. outline.level ≡ 0)) }
    ensures reads { (image : List ℕ) → S.bytes src.old ≡ Some image → S.reads src.new ≤ S.reads src.old + length (places_of (tree_in K.shape site.now (N.named namer.now) image) root) }
    ensures free { IfErr result IsFree }
    ensures cause { IsErrOf result ReadFault → Rose (S.faults src.old) (S.faults src.new) }
    ensures kept { IsKept S.bytes S.bytes_len S.faults src.old src.new }
{
    let mut block = vec![in alloc; 0u8; site.block_size as usize]?;
    let Some(mut outline) = top::<K, S, N>(alloc, src, namer, site, root, &mut block)? else {
        return Ok(None);
    };
    'levels: while outline.level > 0 {
        let Some(lower) = below::<K, S, N>(alloc, src, namer, site, &outline, &mut block)? else {
            return Ok(None);
        };
        outline = lower;
    }
    Ok(Some(outline))
}
