// Where a walk starts.
ghost use Rattle.std.specs.Prelude.{◌≡◌, ℕ, ◌+◌, ◌≤◌, List, All, Some, Ok, Err, IfOk, IfErr, IsErrOf, vec_len, vec_capacity};
ghost use Rattle.apfs_model.specs.Counts.{Rose};
ghost use Rattle.apfs_model.specs.Kept.{IsKept};
ghost use Rattle.obj_base.specs.declared.stop.Stop.TheVariants.{Found, Unsupported, ReadFault, NoMemory};
ghost use Rattle.obj_base.specs.Stops.{Tells};
ghost use Rattle.obj_base.specs.Site.{IsSiteFor};
ghost use Rattle.bt_node.specs.Node.{level_of};
ghost use Rattle.bt_cursor.specs.Tree.{look_in, tree_in, root_place};
ghost use Rattle.bt_cursor.specs.Faults.{IsNodeFault, HasFeature};
ghost use Rattle.bt_cursor.specs.WholeTree.{IsOfNodes};
ghost use Rattle.bt_cursor.specs.Stack.{IsLong, IsStep, IsWay};
ghost use Rattle.bt_cursor.specs.Ahead.{depth_way, IsStart};

use crate::fault::WalkFault;
use crate::namer::Namer;
use crate::node::{level, load};
use crate::way::{Step, Way};
use blk_source::BlockSource;
use bt_node::{NodeAt, Site, TreeKey};
use obj_base::Stop;
use std::alloc::Global;

// A buffer of one block.
fn blank(alloc: Global, site: &Site, at: NodeAt) -> Result<Step, Stop<WalkFault>>
    ensures long { IfOk result (IsLong site.now) }
    ensures memory_only { IfErr result (λ stop. stop ≡ NoMemory) }
{
    Ok(Step {
        block: vec![in alloc; 0u8; site.block_size as usize]?,
        at,
        next: 0,
    })
}

// So many buffers of one block.
fn buffers(
    alloc: Global,
    site: &Site,
    at: NodeAt,
    count: usize,
) -> Result<Vec<Step>, Stop<WalkFault>>
    ensures long { IfOk result (λ buffers. All (IsLong site.now) buffers.items) }
    ensures count { IfOk result (λ buffers. vec_len buffers ≡ count) }
    ensures room { IfOk result (λ buffers. count ≤ vec_capacity buffers) }
    ensures memory_only { IfErr result (λ stop. stop ≡ NoMemory) }
{
    let mut buffers = Vec::with_capacity(alloc, count)?;
    for i in 0..count {
        buffers.push_reserved(blank(alloc, site, at)?);
    }
    Ok(buffers)
}

// The way that stands before the first entry of a root, with a buffer for each level below it.
fn over<K: TreeKey>(alloc: Global, site: &Site, last: Step) -> Result<Way, Stop<WalkFault>>
    requires step { IsStep K.shape site.now last }
    requires first { last.next ≡ 0 }
    ensures way { IfOk result (λ way. IsWay K.shape site.now way.above.items way.last way.spare.items) }
    ensures start { IfOk result IsStart }
    ensures depth { IfOk result (λ way. depth_way way ≡ level_of way.last.block.items) }
    ensures last { IfOk result (λ way. way.last ≡ last) }
    ensures memory_only { IfErr result (λ stop. stop ≡ NoMemory) }
{
    let depth = usize::from(level::<K>(&last, site));
    let spare = buffers(alloc, site, last.at, depth)?;
    Ok(Way {
        above: Vec::with_capacity(alloc, depth)?,
        last,
        spare,
    })
}

/// Reads a root. The way stands before its first entry, with a buffer for each level below it.
pub(crate) fn start<K: TreeKey, S: BlockSource, N: Namer>(
    alloc: Global,
    src: &mut S,
    namer: &N,
    site: &Site,
    root: u64,
) -> Result<Way, Stop<WalkFault>>
    requires site { IsSiteFor site.now (S.bytes_len src.old) }
    ensures way { IfOk result (λ way. IsWay K.shape site.now way.above.items way.last way.spare.items) }
    ensures start { IfOk result IsStart }
    ensures depth { IfOk result (λ way. depth_way way ≡ level_of way.last.block.items) }
    ensures found { (image : List ℕ) → S.bytes src.old ≡ Some image → IfOk result (λ way. look_in K.shape site.now (N.named namer.now) image (root_place root) ≡ Ok way.last.block.items) }
    ensures at { IfOk result (λ way. way.last.at ≡ root_place root) }
    ensures present { (image : List ℕ) → S.bytes src.old ≡ Some image → IfErr result (Tells (IsNodeFault (tree_in K.shape site.now (N.named namer.now) image) root) (HasFeature (tree_in K.shape site.now (N.named namer.now) image) root)) }
    ensures gap { (image : List ℕ) → S.bytes src.old ≡ Some image → IfErr result (Tells (λ fault. look_in K.shape site.now (N.named namer.now) image (root_place root) ≡ Err (Found fault)) (λ feature block. look_in K.shape site.now (N.named namer.now) image (root_place root) ≡ Err (Unsupported feature block))) }
    ensures of_nodes { IfErr result IsOfNodes }
    ensures reads { S.reads src.new ≤ S.reads src.old + 1 }
    ensures cause { IsErrOf result ReadFault → Rose (S.faults src.old) (S.faults src.new) }
    ensures kept { IsKept S.bytes S.bytes_len S.faults src.old src.new }
{
    let at = NodeAt {
        oid: root,
        root: true,
        level: None,
    };
    let mut last = blank(alloc, site, at)?;
    match load::<K, S, N>(src, namer, site, at, &mut last) {
        Ok(()) => {}
        Err(stop) => return Err(stop),
    }
    match over::<K>(alloc, site, last) {
        Ok(way) => Ok(way),
        Err(stop) => Err(stop),
    }
}
