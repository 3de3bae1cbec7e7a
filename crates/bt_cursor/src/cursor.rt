// A place in the flat list of a tree.
ghost use Rattle.bt_cursor.specs.Stack.{IsWay};

use crate::fault::WalkFault;
use crate::namer::Namer;
use crate::node::lend;
use crate::seek::find;
use crate::start::start;
use crate::walk::{back, pass};
use crate::way::Way;
use blk_source::BlockSource;
use bt_node::{Entry, Rank, Site, TreeKey};
use obj_base::Stop;
use std::alloc::Global;
use std::marker::PhantomData;

/// A place in the flat list of a tree, over block buffers that it keeps. It holds no source: each call that reads is
/// handed the source from which the cursor was made.
#[derive(Drop)]
pub struct Cursor<K: TreeKey, N: Namer> {
    namer: N,
    site: Site,
    root: u64,
    way: Way,
    kind: PhantomData<K>,
    ghost sound: { IsWay K.shape site way.above.items way.last way.spare.items },
}

impl<K: TreeKey, N: Namer> Cursor<K, N> {
    ghost use Rattle.std.specs.Prelude.{◌≡◌, ℕ, ◌+◌, ◌<◌, ◌≤◌, List, Some, true, option_map, OnOk, OnErr, IfOk, IfErr, IsErrOf, IsOk, IsTrue};
    ghost use Rattle.apfs_model.specs.Counts.{Rose};
    ghost use Rattle.apfs_model.specs.Kept.{IsKept};
    ghost use Rattle.obj_base.specs.declared.stop.Stop.TheVariants.{ReadFault, NoMemory};
    ghost use Rattle.obj_base.specs.Stops.{Tells, IsFree};
    ghost use Rattle.obj_base.specs.Site.{IsSiteFor};
    ghost use Rattle.bt_cursor.specs.Tree.{tree_in};
    ghost use Rattle.bt_cursor.specs.Line.{line_of};
    ghost use Rattle.bt_cursor.specs.Gaps.{gapped_of, all_flat, StopsAt};
    ghost use Rattle.bt_cursor.specs.Search.{IsPlaceOf, StopsSearch};
    ghost use Rattle.bt_cursor.specs.Met.{is_walkable};
    ghost use Rattle.bt_cursor.specs.Order.{is_ordered};
    ghost use Rattle.bt_cursor.specs.From.{gapped_from_rank};
    ghost use Rattle.bt_cursor.specs.Faults.{IsNodeFault, HasFeature};
    ghost use Rattle.bt_cursor.specs.WholeTree.{IsOfNodes};
    ghost use Rattle.bt_cursor.specs.Cursors.{site_of, root_of, tree_of, ahead_of, gapped_left_of, unread_of, passed_of, fuel_of, depth_of, HasDepth, IsOn, HasEntry, Moves};

    /// Reads the root, whose id is `root`, and stands before the first entry. Takes all its buffers here.
    pub fn new<S: BlockSource>(
        alloc: Global,
        src: &mut S,
        namer: N,
        root: u64,
        site: Site,
    ) -> Result<Cursor<K, N>, Stop<WalkFault>>
        requires site { IsSiteFor site (S.bytes_len src.old) }
        ensures site { IfOk result (λ cursor. site_of cursor ≡ site) }
        ensures root { IfOk result (λ cursor. root_of cursor ≡ root) }
        ensures tree { IfOk result (λ cursor. tree_of cursor ≡ tree_in K.shape site (N.named namer)) }
        ensures left { (image : List ℕ) → S.bytes src.old ≡ Some image → IfOk result (λ cursor. ahead_of cursor image ≡ gapped_of (tree_in K.shape site (N.named namer) image) root) }
        ensures depth { (image : List ℕ) → S.bytes src.old ≡ Some image → IfOk result (HasDepth image) }
        ensures within { (image : List ℕ) → S.bytes src.old ≡ Some image → IfOk result (IsOn image) }
        ensures stops { (image : List ℕ) → S.bytes src.old ≡ Some image → IfErr result (StopsAt (all_flat (gapped_of (tree_in K.shape site (N.named namer) image) root))) }
        ensures present { (image : List ℕ) → S.bytes src.old ≡ Some image → IfErr result (Tells (IsNodeFault (tree_in K.shape site (N.named namer) image) root) (HasFeature (tree_in K.shape site (N.named namer) image) root)) }
        ensures exact { (image : List ℕ) → S.bytes src.old ≡ Some image → is_walkable (tree_in K.shape site (N.named namer) image) root ≡ true → IfErr result IsFree }
        ensures of_nodes { IfErr result IsOfNodes }
        ensures reads { S.reads src.new ≤ S.reads src.old + 1 }
        ensures cause { IsErrOf result ReadFault → Rose (S.faults src.old) (S.faults src.new) }
        ensures kept { IsKept S.bytes S.bytes_len S.faults src.old src.new }
    {
        match start::<K, S, N>(alloc, src, &namer, &site, root) {
            Ok(way) => Ok(Cursor {
                namer,
                site,
                root,
                way,
                kind: PhantomData,
            }),
            Err(stop) => Err(stop),
        }
    }

    /// Stands before the first entry. Reads nothing, since the root is kept.
    pub fn first<S: BlockSource>(&mut self, src: &mut S) -> Result<(), Stop<WalkFault>>
        requires site { IsSiteFor (site_of self.old) (S.bytes_len src.old) }
        ensures ok { IsOk result }
        ensures site { site_of self.new ≡ site_of self.old }
        ensures root { root_of self.new ≡ root_of self.old }
        ensures tree { tree_of self.new ≡ tree_of self.old }
        ensures depth { depth_of self.new ≡ depth_of self.old }
        ensures left { (image : List ℕ) → IsOn image self.old → ahead_of self.new image ≡ gapped_of (tree_of self.old image) (root_of self.old) }
        ensures within { (image : List ℕ) → IsOn image self.old → IsOn image self.new }
        ensures kept { src.new ≡ src.old }
    {
        back::<K>(&self.site, &mut self.way);
        Ok(())
    }

    /// Stands at a place of `rank`, by a search in each node on the way down from the root: where the Line is ordered,
    /// before the first entry whose rank isn't below it. Where a child isn't there that may have that entry, it says why.
    /// Takes no memory. After an error it stands at some place in the tree.
    pub fn seek<S: BlockSource>(&mut self, src: &mut S, rank: &Rank) -> Result<(), Stop<WalkFault>>
        requires site { IsSiteFor (site_of self.old) (S.bytes_len src.old) }
        ensures site { site_of self.new ≡ site_of self.old }
        ensures root { root_of self.new ≡ root_of self.old }
        ensures tree { tree_of self.new ≡ tree_of self.old }
        ensures depth { depth_of self.new ≡ depth_of self.old }
        ensures place { (image : List ℕ) → S.bytes src.old ≡ Some image → IsOn image self.old → OnOk result (IsPlaceOf K.shape rank.now (gapped_of (tree_of self.old image) (root_of self.old)) (ahead_of self.new image)) }
        ensures left { (image : List ℕ) → S.bytes src.old ≡ Some image → IsOn image self.old → is_ordered K.shape (line_of (tree_of self.old image) (root_of self.old)) ≡ true → OnOk result (ahead_of self.new image ≡ gapped_from_rank K.shape rank.now (gapped_of (tree_of self.old image) (root_of self.old))) }
        ensures stops { (image : List ℕ) → S.bytes src.old ≡ Some image → IsOn image self.old → IfErr result (StopsSearch K.shape rank.now (gapped_of (tree_of self.old image) (root_of self.old))) }
        ensures within { (image : List ℕ) → S.bytes src.old ≡ Some image → IsOn image self.old → IsOn image self.new }
        ensures present { (image : List ℕ) → S.bytes src.old ≡ Some image → IsOn image self.old → IfErr result (Tells (IsNodeFault (tree_of self.old image) (root_of self.old)) (HasFeature (tree_of self.old image) (root_of self.old))) }
        ensures exact { (image : List ℕ) → S.bytes src.old ≡ Some image → IsOn image self.old → is_walkable (tree_of self.old image) (root_of self.old) ≡ true → IfErr result IsFree }
        ensures of_nodes { IfErr result IsOfNodes }
        ensures reads { S.reads src.new ≤ S.reads src.old + depth_of self.old }
        ensures cause { IsErrOf result ReadFault → Rose (S.faults src.old) (S.faults src.new) }
        ensures no_memory { IsErrOf result NoMemory → ⊥ }
        ensures kept { IsKept S.bytes S.bytes_len S.faults src.old src.new }
    {
        match find::<K, S, N>(src, &self.namer, &self.site, &mut self.way, rank) {
            Ok(()) => Ok(()),
            Err(stop) => Err(stop),
        }
    }

    /// Moves onto the next entry of the flat list; false at its end. Where a child on the way to that entry isn't there
    /// it says why and stays before it. Takes no memory. After an error it stands where it stood.
    pub fn next<S: BlockSource>(&mut self, src: &mut S) -> Result<bool, Stop<WalkFault>>
        requires site { IsSiteFor (site_of self.old) (S.bytes_len src.old) }
        ensures site { site_of self.new ≡ site_of self.old }
        ensures root { root_of self.new ≡ root_of self.old }
        ensures tree { tree_of self.new ≡ tree_of self.old }
        ensures depth { depth_of self.new ≡ depth_of self.old }
        ensures moved { (image : List ℕ) → S.bytes src.old ≡ Some image → IfOk result (Moves image self.old self.new) }
        ensures left { (image : List ℕ) → S.bytes src.old ≡ Some image → OnErr result (gapped_left_of self.new image ≡ gapped_left_of self.old image) }
        ensures stops { (image : List ℕ) → S.bytes src.old ≡ Some image → IfErr result (StopsAt (gapped_left_of self.old image)) }
        ensures stands { IfOk result (λ more. IsTrue more → HasEntry self.new) }
        ensures within { (image : List ℕ) → S.bytes src.old ≡ Some image → IsOn image self.old → IsOn image self.new }
        ensures present { (image : List ℕ) → S.bytes src.old ≡ Some image → IsOn image self.old → IfErr result (Tells (IsNodeFault (tree_of self.old image) (root_of self.old)) (HasFeature (tree_of self.old image) (root_of self.old))) }
        ensures exact { (image : List ℕ) → S.bytes src.old ≡ Some image → IsOn image self.old → is_walkable (tree_of self.old image) (root_of self.old) ≡ true → IfErr result IsFree }
        ensures of_nodes { IfErr result IsOfNodes }
        ensures unread { (image : List ℕ) → S.bytes src.old ≡ Some image → OnOk result (S.reads src.new + unread_of self.new image ≤ S.reads src.old + unread_of self.old image) }
        ensures reads { S.reads src.new ≤ S.reads src.old + depth_of self.old }
        ensures fuel { IfOk result (λ more. IsTrue more → fuel_of self.new < fuel_of self.old) }
        ensures cause { IsErrOf result ReadFault → Rose (S.faults src.old) (S.faults src.new) }
        ensures no_memory { IsErrOf result NoMemory → ⊥ }
        ensures kept { IsKept S.bytes S.bytes_len S.faults src.old src.new }
    {
        match pass::<K, S, N>(src, &self.namer, &self.site, &mut self.way) {
            Ok(more) => Ok(more),
            Err(stop) => Err(stop),
        }
    }

    /// The entry onto which the last call of `next` moved, lent from its block.
    #[tactic(auto, using(crate::proofs::Ways::hold_inside))]
    pub fn item(&self) -> Entry<'_, K>
        requires { HasEntry self.now }
        ensures key_bytes { result.key_bytes.now ≡ (passed_of self.now).key }
        ensures value { option_map (λ value. value.now) result.value ≡ (passed_of self.now).value }
        ensures key { K.shape.read result.key_bytes.now ≡ Some result.key }
    {
        lend::<K>(&self.way.last, &self.site, self.way.last.next - 1)
    }
}
