// Searches for a rank, in a node and from node to node.
ghost use Rattle.std.specs.Prelude.{◌≡◌, ℕ, ◌+◌, ◌<◌, ◌≤◌, true, List, length, Some, OnOk, IfErr, IsErrOf};
ghost use Rattle.apfs_model.specs.Counts.{Rose};
ghost use Rattle.apfs_model.specs.Kept.{IsKept};
ghost use Rattle.obj_base.specs.declared.stop.Stop.TheVariants.{ReadFault, NoMemory};
ghost use Rattle.obj_base.specs.Stops.{Tells};
ghost use Rattle.bt_node.specs.Node.{count_of};
ghost use Rattle.bt_node.specs.Entries.{pair_of};
ghost use Rattle.obj_base.specs.Site.{IsSiteFor};
ghost use Rattle.bt_cursor.specs.Tree.{tree_in};
ghost use Rattle.bt_cursor.specs.Order.{rank_of};
ghost use Rattle.bt_cursor.specs.Faults.{IsNodeFault, HasFeature};
ghost use Rattle.bt_cursor.specs.WholeTree.{IsOfNodes};
ghost use Rattle.bt_cursor.specs.Stack.{IsStep, IsWay, IsIn};
ghost use Rattle.bt_cursor.specs.Gaps.{gapped_of};
ghost use Rattle.bt_cursor.specs.Ahead.{depth_way};
ghost use Rattle.bt_cursor.specs.Search.{IsCut, IsCutWay, StopsSearch};

use crate::fault::WalkFault;
use crate::namer::Namer;
use crate::node::{count, key_at, level};
use crate::walk::{back, enter};
use crate::way::{Step, Way};
use blk_source::BlockSource;
use bt_node::{Rank, Site, TreeKey};
use obj_base::Stop;

// The rank of an entry.
#[tactic(auto, using(crate::proofs::Steps::rank_read))]
fn rank_at<K: TreeKey>(step: &Step, site: &Site, i: usize) -> Rank
    requires step { IsStep K.shape site.now step.now }
    requires inside { i < count_of step.now.block.items }
    ensures { result ≡ rank_of K.shape (pair_of K.shape step.now.block.items i) }
{
    key_at::<K>(step, site, i).rank()
}

// A place of a rank among the entries of a node, by halves.
fn cut<K: TreeKey>(step: &Step, site: &Site, rank: &Rank) -> usize
    requires { IsStep K.shape site.now step.now }
    ensures inside { result ≤ count_of step.now.block.items }
    ensures cut { IsCut K.shape rank.now step.now.block.items result }
{
    let mut low = 0;
    let mut high = count::<K>(step, site);
    'halve: while low < high {
        let middle = low + (high - low) / 2;
        if rank_at::<K>(step, site, middle).is_below(rank) {
            low = middle + 1;
        } else {
            high = middle;
        }
    }
    low
}

/// Goes to a place of a rank: by its place among the entries of the root, of the child before that place, and so on.
pub(crate) fn find<K: TreeKey, S: BlockSource, N: Namer>(
    src: &mut S,
    namer: &N,
    site: &Site,
    way: &mut Way,
    rank: &Rank,
) -> Result<(), Stop<WalkFault>>
    requires site { IsSiteFor site.now (S.bytes_len src.old) }
    requires way { IsWay K.shape site.now way.old.above.items way.old.last way.old.spare.items }
    ensures way { IsWay K.shape site.now way.new.above.items way.new.last way.new.spare.items }
    ensures cut { OnOk result (IsCutWay K.shape rank.now way.new.above.items way.new.last) }
    ensures depth { depth_way way.new ≡ depth_way way.old }
    ensures within { (image : List ℕ) → S.bytes src.old ≡ Some image → (root : ℕ) → IsIn (tree_in K.shape site.now (N.named namer.now) image) root way.old.above.items way.old.last → IsIn (tree_in K.shape site.now (N.named namer.now) image) root way.new.above.items way.new.last }
    ensures present { (image : List ℕ) → S.bytes src.old ≡ Some image → (root : ℕ) → IsIn (tree_in K.shape site.now (N.named namer.now) image) root way.old.above.items way.old.last → IfErr result (Tells (IsNodeFault (tree_in K.shape site.now (N.named namer.now) image) root) (HasFeature (tree_in K.shape site.now (N.named namer.now) image) root)) }
    ensures stops { (image : List ℕ) → S.bytes src.old ≡ Some image → (root : ℕ) → IsIn (tree_in K.shape site.now (N.named namer.now) image) root way.old.above.items way.old.last → IfErr result (StopsSearch K.shape rank.now (gapped_of (tree_in K.shape site.now (N.named namer.now) image) root)) }
    ensures of_nodes { IfErr result IsOfNodes }
    ensures reads { S.reads src.new ≤ S.reads src.old + depth_way way.old }
    ensures cause { IsErrOf result ReadFault → Rose (S.faults src.old) (S.faults src.new) }
    ensures no_memory { IsErrOf result NoMemory → ⊥ }
    ensures kept { IsKept S.bytes S.bytes_len S.faults src.old src.new }
{
    back::<K>(site, way);
    'descend: loop {
        let i = cut::<K>(&way.last, site, rank);
        way.last.next = i;
        if i == 0 {
            return Ok(());
        }
        if level::<K>(&way.last, site) == 0 {
            return Ok(());
        }
        enter::<K, S, N>(src, namer, site, way, i - 1)?;
    }
}
