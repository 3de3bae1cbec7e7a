// Steps over a tree, up and down.
ghost use Rattle.std.specs.Prelude.{◌≡◌, ℕ, ◌+◌, ◌-◌, ◌*◌, ◌<◌, ◌≤◌, List, [], ◌∷◌, ◌++◌, length, Some, Ok, OnOk, OnErr, IfOk, IfErr, IsErrOf, IsTrue, IsFalse};
ghost use Rattle.apfs_model.specs.Counts.{Rose};
ghost use Rattle.apfs_model.specs.Kept.{IsKept};
ghost use Rattle.obj_base.specs.declared.stop.Stop.TheVariants.{ReadFault, NoMemory};
ghost use Rattle.obj_base.specs.Stops.{Gives, Tells};
ghost use Rattle.bt_node.specs.Node.{level_of, count_of};
ghost use Rattle.bt_node.specs.Entries.{pair_of};
ghost use Rattle.obj_base.specs.Site.{IsSiteFor};
ghost use Rattle.bt_cursor.specs.Tree.{Look, tree_by, tree_in, look_in, child_place};
ghost use Rattle.bt_cursor.specs.Faults.{IsNodeFault, HasFeature};
ghost use Rattle.bt_cursor.specs.WholeTree.{IsOfNodes};
ghost use Rattle.bt_cursor.specs.Stack.{IsWay, IsIn};
ghost use Rattle.bt_cursor.specs.Line.{item_at};
ghost use Rattle.bt_cursor.specs.Gaps.{all_flat, StopsAt};
ghost use Rattle.bt_cursor.specs.Ahead.{items_of, ahead, ahead_if, gapped_ahead, passed_child, depth_way, IsDeep, MovesWay, ReadsPast, Stands};
ghost use Rattle.bt_cursor.specs.Fuel.{weight, fuel_way, fuel_if};
ghost use Rattle.bt_cursor.specs.Seen.{reads_for};
ghost use Rattle.bt_cursor.specs.Advance.{Entered, TellsGap, IsGapOf};

use crate::fault::WalkFault;
use crate::namer::Namer;
use crate::node::{child, count, level, load};
use crate::way::Way;
use blk_source::BlockSource;
use bt_node::{NodeAt, Site, TreeKey};
use obj_base::Stop;
use std::mem;

/// Goes down to the child of an entry of the last node.
#[tactic(auto, using(crate::proofs::Nodes::step_few))]
pub(crate) fn enter<K: TreeKey, S: BlockSource, N: Namer>(
    src: &mut S,
    namer: &N,
    site: &Site,
    way: &mut Way,
    i: usize,
) -> Result<(), Stop<WalkFault>>
    requires site { IsSiteFor site.now (S.bytes_len src.old) }
    requires way { IsWay K.shape site.now way.old.above.items way.old.last way.old.spare.items }
    requires low { i < count_of way.old.last.block.items }
    requires upper { 0 < level_of way.old.last.block.items }
    requires passed { way.old.last.next ≡ i + 1 }
    ensures found { (image : List ℕ) → S.bytes src.old ≡ Some image → Gives (items_of way.new.last) result (look_in K.shape site.now (N.named namer.now) image (child_place (level_of way.old.last.block.items - 1) (pair_of K.shape way.old.last.block.items i))) }
    ensures way { IsWay K.shape site.now way.new.above.items way.new.last way.new.spare.items }
    ensures at { OnOk result (way.new.last.at ≡ child_place (level_of way.old.last.block.items - 1) (pair_of K.shape way.old.last.block.items i)) }
    ensures above { OnOk result (way.new.above.items ≡ way.old.above.items ++ way.old.last ∷ []) }
    ensures first { OnOk result (way.new.last.next ≡ 0) }
    ensures level { OnOk result (level_of way.new.last.block.items + 1 ≡ level_of way.old.last.block.items) }
    ensures spare { OnOk result (length way.new.spare.items + 1 ≡ length way.old.spare.items) }
    ensures depth { depth_way way.new ≡ depth_way way.old }
    ensures fuel { OnOk result (fuel_way way.new ≤ fuel_way way.old + 65536 * weight (level_of way.old.last.block.items - 1)) }
    ensures some { OnOk result (0 < count_of way.new.last.block.items) }
    ensures within { (image : List ℕ) → S.bytes src.old ≡ Some image → (root : ℕ) → IsIn (tree_in K.shape site.now (N.named namer.now) image) root way.old.above.items way.old.last → IsIn (tree_in K.shape site.now (N.named namer.now) image) root way.new.above.items way.new.last }
    ensures present { (image : List ℕ) → S.bytes src.old ≡ Some image → (root : ℕ) → IsIn (tree_in K.shape site.now (N.named namer.now) image) root way.old.above.items way.old.last → IfErr result (Tells (IsNodeFault (tree_in K.shape site.now (N.named namer.now) image) root) (HasFeature (tree_in K.shape site.now (N.named namer.now) image) root)) }
    ensures of_nodes { IfErr result IsOfNodes }
    ensures same_above { OnErr result (way.new.above.items ≡ way.old.above.items) }
    ensures same_last { OnErr result (way.new.last ≡ way.old.last) }
    ensures reads { S.reads src.new ≤ S.reads src.old + 1 }
    ensures cause { IsErrOf result ReadFault → Rose (S.faults src.old) (S.faults src.new) }
    ensures no_memory { IsErrOf result NoMemory → ⊥ }
    ensures kept { IsKept S.bytes S.bytes_len S.faults src.old src.new }
{
    let mut lower = way.spare.pop().unwrap();
    let oid = child::<K>(&way.last, site, i);
    let below = level::<K>(&way.last, site) - 1;
    let at = NodeAt {
        oid,
        root: false,
        level: Some(below),
    };
    match load::<K, S, N>(src, namer, site, at, &mut lower) {
        Ok(()) => {
            let upper = mem::replace(&mut way.last, lower);
            way.above.push_reserved(upper);
            Ok(())
        }
        Err(stop) => {
            way.spare.push_reserved(lower);
            Err(stop)
        }
    }
}

// Leaves the last node, to the one above it, if there is one.
fn up(way: &mut Way) -> bool
    ensures up { IsTrue result → way.old.above.items ≡ way.new.above.items ++ way.new.last ∷ [] }
    ensures spare { IsTrue result → way.new.spare.items ≡ way.old.spare.items ++ way.old.last ∷ [] }
    ensures end { IsFalse result → way.old.above.items ≡ [] }
    ensures same_above { IsFalse result → way.new.above.items ≡ way.old.above.items }
    ensures same_last { IsFalse result → way.new.last ≡ way.old.last }
    ensures same_spare { IsFalse result → way.new.spare.items ≡ way.old.spare.items }
{
    match way.above.pop() {
        None => false,
        Some(above) => {
            let lower = mem::replace(&mut way.last, above);
            way.spare.push_reserved(lower);
            true
        }
    }
}

/// Goes back to the root, before its first entry.
pub(crate) fn back<K: TreeKey>(site: &Site, way: &mut Way)
    requires way { IsWay K.shape site.now way.old.above.items way.old.last way.old.spare.items }
    ensures way { IsWay K.shape site.now way.new.above.items way.new.last way.new.spare.items }
    ensures above { way.new.above.items ≡ [] }
    ensures next { way.new.last.next ≡ 0 }
    ensures depth { depth_way way.new ≡ depth_way way.old }
    ensures within { (look : Look) (root : ℕ) → IsIn (tree_by K.shape look) root way.old.above.items way.old.last → IsIn (tree_by K.shape look) root way.new.above.items way.new.last }
{
    'climb: while up(way) {}
    way.last.next = 0;
}

/// Goes up to a node of which something is left, if there is one.
pub(crate) fn climb<K: TreeKey>(site: &Site, way: &mut Way) -> bool
    requires way { IsWay K.shape site.now way.old.above.items way.old.last way.old.spare.items }
    ensures way { IsWay K.shape site.now way.new.above.items way.new.last way.new.spare.items }
    ensures same { (look : Look) → ahead (tree_by K.shape look) way.new ≡ ahead (tree_by K.shape look) way.old }
    ensures same_gapped { (look : Look) → gapped_ahead (tree_by K.shape look) way.new ≡ gapped_ahead (tree_by K.shape look) way.old }
    ensures depth { depth_way way.new ≡ depth_way way.old }
    ensures within { (look : Look) (root : ℕ) → IsIn (tree_by K.shape look) root way.old.above.items way.old.last → IsIn (tree_by K.shape look) root way.new.above.items way.new.last }
    ensures fuel { fuel_way way.new ≤ fuel_way way.old }
    ensures left { IsTrue result → way.new.last.next < count_of way.new.last.block.items }
    ensures end { IsFalse result → (look : Look) → ahead (tree_by K.shape look) way.new ≡ [] }
    ensures end_gapped { IsFalse result → (look : Look) → gapped_ahead (tree_by K.shape look) way.new ≡ [] }
{
    'climb: while count::<K>(&way.last, site) <= way.last.next {
        if !up(way) {
            return false;
        }
    }
    true
}

// Goes one level down, past the entry through which it goes.
#[tactic(auto, using(crate::proofs::Nodes::step_few))]
fn down<K: TreeKey, S: BlockSource, N: Namer>(
    src: &mut S,
    namer: &N,
    site: &Site,
    way: &mut Way,
) -> Result<(), Stop<WalkFault>>
    requires site { IsSiteFor site.now (S.bytes_len src.old) }
    requires way { IsWay K.shape site.now way.old.above.items way.old.last way.old.spare.items }
    requires left { way.old.last.next < count_of way.old.last.block.items }
    requires upper { 0 < level_of way.old.last.block.items }
    ensures way { IsWay K.shape site.now way.new.above.items way.new.last way.new.spare.items }
    ensures passed { (image : List ℕ) → S.bytes src.old ≡ Some image → OnOk result (gapped_ahead (tree_in K.shape site.now (N.named namer.now) image) way.old ≡ Ok (item_at way.old.last.at.oid way.old.last.next (level_of way.old.last.block.items) (pair_of K.shape way.old.last.block.items way.old.last.next)) ∷ gapped_ahead (tree_in K.shape site.now (N.named namer.now) image) way.new) }
    ensures same { (image : List ℕ) → S.bytes src.old ≡ Some image → OnErr result (gapped_ahead (tree_in K.shape site.now (N.named namer.now) image) way.new ≡ gapped_ahead (tree_in K.shape site.now (N.named namer.now) image) way.old) }
    ensures stops { (image : List ℕ) → S.bytes src.old ≡ Some image → IfErr result (StopsAt (all_flat (gapped_ahead (tree_in K.shape site.now (N.named namer.now) image) way.old))) }
    ensures depth { depth_way way.new ≡ depth_way way.old }
    ensures reads { S.reads src.new ≤ S.reads src.old + 1 }
    ensures more { OnOk result (way.new.last.next < count_of way.new.last.block.items) }
    ensures level { OnOk result (level_of way.new.last.block.items + 1 ≡ level_of way.old.last.block.items) }
    ensures within { (image : List ℕ) → S.bytes src.old ≡ Some image → (root : ℕ) → IsIn (tree_in K.shape site.now (N.named namer.now) image) root way.old.above.items way.old.last → IsIn (tree_in K.shape site.now (N.named namer.now) image) root way.new.above.items way.new.last }
    ensures present { (image : List ℕ) → S.bytes src.old ≡ Some image → (root : ℕ) → IsIn (tree_in K.shape site.now (N.named namer.now) image) root way.old.above.items way.old.last → IfErr result (Tells (IsNodeFault (tree_in K.shape site.now (N.named namer.now) image) root) (HasFeature (tree_in K.shape site.now (N.named namer.now) image) root)) }
    ensures of_nodes { IfErr result IsOfNodes }
    ensures fuel { OnOk result (fuel_way way.new < fuel_way way.old) }
    ensures cause { IsErrOf result ReadFault → Rose (S.faults src.old) (S.faults src.new) }
    ensures no_memory { IsErrOf result NoMemory → ⊥ }
    ensures kept { IsKept S.bytes S.bytes_len S.faults src.old src.new }
{
    let i = way.last.next;
    way.last.next = i + 1;
    match enter::<K, S, N>(src, namer, site, way, i) {
        Ok(()) => Ok(()),
        Err(stop) => {
            way.last.next = i;
            Err(stop)
        }
    }
}

/// Moves past the next entry of level 0, if there is one.
#[tactic(auto, using(crate::proofs::Nodes::step_few))]
pub(crate) fn pass<K: TreeKey, S: BlockSource, N: Namer>(
    src: &mut S,
    namer: &N,
    site: &Site,
    way: &mut Way,
) -> Result<bool, Stop<WalkFault>>
    requires site { IsSiteFor site.now (S.bytes_len src.old) }
    requires way { IsWay K.shape site.now way.old.above.items way.old.last way.old.spare.items }
    ensures way { IsWay K.shape site.now way.new.above.items way.new.last way.new.spare.items }
    ensures moved { (image : List ℕ) → S.bytes src.old ≡ Some image → IfOk result (MovesWay (tree_in K.shape site.now (N.named namer.now) image) way.old way.new) }
    ensures same { (image : List ℕ) → S.bytes src.old ≡ Some image → OnErr result (all_flat (gapped_ahead (tree_in K.shape site.now (N.named namer.now) image) way.new) ≡ all_flat (gapped_ahead (tree_in K.shape site.now (N.named namer.now) image) way.old)) }
    ensures stops { (image : List ℕ) → S.bytes src.old ≡ Some image → IfErr result (StopsAt (all_flat (gapped_ahead (tree_in K.shape site.now (N.named namer.now) image) way.old))) }
    ensures depth { depth_way way.new ≡ depth_way way.old }
    ensures unread { (image : List ℕ) → S.bytes src.old ≡ Some image → OnOk result (ReadsPast (tree_in K.shape site.now (N.named namer.now) image) (S.reads src.old) way.old (S.reads src.new) way.new) }
    ensures reads { S.reads src.new ≤ S.reads src.old + depth_way way.old }
    ensures stands { IfOk result (λ more. IsTrue more → Stands way.new) }
    ensures within { (image : List ℕ) → S.bytes src.old ≡ Some image → (root : ℕ) → IsIn (tree_in K.shape site.now (N.named namer.now) image) root way.old.above.items way.old.last → IsIn (tree_in K.shape site.now (N.named namer.now) image) root way.new.above.items way.new.last }
    ensures present { (image : List ℕ) → S.bytes src.old ≡ Some image → (root : ℕ) → IsIn (tree_in K.shape site.now (N.named namer.now) image) root way.old.above.items way.old.last → IfErr result (Tells (IsNodeFault (tree_in K.shape site.now (N.named namer.now) image) root) (HasFeature (tree_in K.shape site.now (N.named namer.now) image) root)) }
    ensures of_nodes { IfErr result IsOfNodes }
    ensures fuel { IfOk result (λ more. IsTrue more → fuel_way way.new < fuel_way way.old) }
    ensures cause { IsErrOf result ReadFault → Rose (S.faults src.old) (S.faults src.new) }
    ensures no_memory { IsErrOf result NoMemory → ⊥ }
    ensures kept { IsKept S.bytes S.bytes_len S.faults src.old src.new }
{
    if !climb::<K>(site, way) {
        return Ok(false);
    }
    'descend: while level::<K>(&way.last, site) > 0 {
        down::<K, S, N>(src, namer, site, way)?;
    }
    way.last.next += 1;
    Ok(true)
}

/// Goes down to the child of the entry passed last, if it is still to come.
#[tactic(auto, using(crate::proofs::Nodes::step_few))]
pub(crate) fn fall<K: TreeKey, S: BlockSource, N: Namer>(
    src: &mut S,
    namer: &N,
    site: &Site,
    way: &mut Way,
    deep: bool,
) -> Result<(), Stop<WalkFault>>
    requires site { IsSiteFor site.now (S.bytes_len src.old) }
    requires way { IsWay K.shape site.now way.old.above.items way.old.last way.old.spare.items }
    requires deep { IsTrue deep → IsDeep way.old }
    ensures way { IsWay K.shape site.now way.new.above.items way.new.last way.new.spare.items }
    ensures same { (image : List ℕ) → S.bytes src.old ≡ Some image → OnOk result (ahead (tree_in K.shape site.now (N.named namer.now) image) way.new ≡ ahead_if (tree_in K.shape site.now (N.named namer.now) image) deep way.old) }
    ensures entered { (image : List ℕ) → S.bytes src.old ≡ Some image → OnOk result (Entered (tree_in K.shape site.now (N.named namer.now) image) deep (passed_child K.shape way.old)) }
    ensures gap { (image : List ℕ) → S.bytes src.old ≡ Some image → IfErr result (TellsGap (IsGapOf (tree_in K.shape site.now (N.named namer.now) image) deep (passed_child K.shape way.old))) }
    ensures fuel { OnOk result (fuel_way way.new ≤ fuel_if deep way.old) }
    ensures back { OnErr result (IsTrue deep → IsDeep way.new) }
    ensures within { (image : List ℕ) → S.bytes src.old ≡ Some image → (root : ℕ) → IsIn (tree_in K.shape site.now (N.named namer.now) image) root way.old.above.items way.old.last → IsIn (tree_in K.shape site.now (N.named namer.now) image) root way.new.above.items way.new.last }
    ensures present { (image : List ℕ) → S.bytes src.old ≡ Some image → (root : ℕ) → IsIn (tree_in K.shape site.now (N.named namer.now) image) root way.old.above.items way.old.last → IfErr result (Tells (IsNodeFault (tree_in K.shape site.now (N.named namer.now) image) root) (HasFeature (tree_in K.shape site.now (N.named namer.now) image) root)) }
    ensures of_nodes { IfErr result IsOfNodes }
    ensures reads { S.reads src.new ≤ S.reads src.old + reads_for deep }
    ensures cause { IsErrOf result ReadFault → Rose (S.faults src.old) (S.faults src.new) }
    ensures no_memory { IsErrOf result NoMemory → ⊥ }
    ensures kept { IsKept S.bytes S.bytes_len S.faults src.old src.new }
{
    if !deep {
        return Ok(());
    }
    let i = way.last.next - 1;
    match enter::<K, S, N>(src, namer, site, way, i) {
        Ok(()) => Ok(()),
        Err(stop) => Err(stop),
    }
}
