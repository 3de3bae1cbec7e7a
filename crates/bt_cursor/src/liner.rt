// The Line of a tree, with its order and counts.
ghost use Rattle.std.specs.Prelude.{◌≡◌, ℕ, ◌+◌, ◌<◌, ◌≤◌, nat_lt, true, false, List, Some, OnOk, IfOk, IfErr, IsErrOf, IsSome, IsTrue};
ghost use Rattle.apfs_model.specs.Counts.{Rose};
ghost use Rattle.apfs_model.specs.Kept.{IsKept};
ghost use Rattle.obj_base.specs.declared.stop.Stop.TheVariants.{ReadFault, NoMemory};
ghost use Rattle.obj_base.specs.Stops.{Tells};
ghost use Rattle.obj_base.specs.Site.{IsSiteFor};
ghost use Rattle.bt_node.specs.Node.{level_of};
ghost use Rattle.bt_cursor.specs.Tree.{tree_in};
ghost use Rattle.bt_cursor.specs.Faults.{HasFeature};
ghost use Rattle.bt_cursor.specs.Stack.{IsWay, IsIn};
ghost use Rattle.bt_cursor.specs.Ahead.{ahead_if, passed_pair, passed_item, passed_child, IsDeep};
ghost use Rattle.bt_cursor.specs.Fuel.{fuel_if};
ghost use Rattle.bt_cursor.specs.Seen.{reads_for, is_out, seen_item};
ghost use Rattle.bt_cursor.specs.Advance.{Advances, Entered, StopsFor, TellsGap, IsGapOf};

use crate::fault::WalkFault;
use crate::namer::Namer;
use crate::node::{child, info, lend_with, level};
use crate::seen::{Seen, fits, nothing_seen, see_next};
use crate::start::start;
use crate::step::Step;
use crate::walk::{climb, fall};
use crate::way::Way;
use blk_source::BlockSource;
use bt_node::{Entry, Site, TreeKey};
use obj_base::Stop;
use std::alloc::Global;

/// A walk over the Line of a tree: each entry before those of its child. It tests the order of the items and at the
/// end the root's numbers of keys and of nodes. It holds no source: each call that reads is handed the source from
/// which it was made.
#[derive(Drop)]
pub struct Liner<K: TreeKey, N: Namer> {
    namer: N,
    site: Site,
    root: u64,
    way: Way,
    deep: bool,
    seen: Seen,
    key: Option<K>,
    ghost sound: { IsWay K.shape site way.above.items way.last way.spare.items },
    ghost deep_in: { deep ≡ true → IsDeep way },
}

/// An item of the Line: an entry, the id of its node, its number there, and how far the node stands above the leaves.
#[derive(Drop)]
pub struct LineItem<'a, K: TreeKey> {
    pub node: u64,
    pub at: u64,
    pub level: u16,
    pub pair: Entry<'a, K>,
    /// The id of the child to which it leads; None at an item of a leaf.
    pub child: Option<u64>,
}

impl<K: TreeKey> LineItem<'_, K> {
    ghost use Rattle.std.specs.Prelude.{◌≡◌, option_map, option_to_list};
    ghost use Rattle.bt_cursor.specs.WholeTree.{child_id};
    ghost use Rattle.bt_cursor.specs.Steps.{step_in};
    ghost use Rattle.bt_cursor.specs.Gathered.{shown};

    /// The step that the item is; None at an item of a leaf.
    pub fn step(&self) -> Option<Step>
        requires child { self.now.child ≡ child_id (shown self.now.node self.now.at self.now.level self.now.pair.key_bytes.now (option_map (λ value. value.now) self.now.pair.value)) }
        ensures { option_to_list result ≡ step_in (shown self.now.node self.now.at self.now.level self.now.pair.key_bytes.now (option_map (λ value. value.now) self.now.pair.value)) }
    {
        let child = self.child?;
        Some(Step {
            node: self.node,
            at: self.at,
            level: self.level,
            child,
        })
    }
}

// Moves onto the next item, by what was seen so far.
fn step<K: TreeKey, S: BlockSource, N: Namer>(
    src: &mut S,
    namer: &N,
    site: &Site,
    way: &mut Way,
    deep: &mut bool,
    seen: &mut Seen,
    key: &mut Option<K>,
) -> Result<bool, Stop<WalkFault>>
    requires site { IsSiteFor site.now (S.bytes_len src.old) }
    requires way { IsWay K.shape site.now way.old.above.items way.old.last way.old.spare.items }
    requires deep { deep.old ≡ true → IsDeep way.old }
    ensures way { IsWay K.shape site.now way.new.above.items way.new.last way.new.spare.items }
    ensures deep { deep.new ≡ true → IsDeep way.new }
    ensures moved { (image : List ℕ) → S.bytes src.old ≡ Some image → IfOk result (Advances K.shape seen.old seen.new (ahead_if (tree_in K.shape site.now (N.named namer.now) image) deep.old way.old) (ahead_if (tree_in K.shape site.now (N.named namer.now) image) deep.new way.new) (passed_item K.shape way.new)) }
    ensures entered { (image : List ℕ) → S.bytes src.old ≡ Some image → OnOk result (Entered (tree_in K.shape site.now (N.named namer.now) image) deep.old (passed_child K.shape way.old)) }
    ensures seen { IfOk result (λ more. IsTrue more → (is_out K.shape seen.old (passed_item K.shape way.new) ≡ false) × (seen.new ≡ seen_item K.shape seen.old (passed_item K.shape way.new))) }
    ensures stands { IfOk result (λ more. IsTrue more → (0 < way.new.last.next) × (deep.new ≡ nat_lt 0 (level_of way.new.last.block.items))) }
    ensures key { IfOk result (λ more. IsTrue more → IsSome key.new × (K.shape.read (passed_pair K.shape way.new).key ≡ key.new)) }
    ensures within { (image : List ℕ) → S.bytes src.old ≡ Some image → (root : ℕ) → IsIn (tree_in K.shape site.now (N.named namer.now) image) root way.old.above.items way.old.last → IsIn (tree_in K.shape site.now (N.named namer.now) image) root way.new.above.items way.new.last }
    ensures present { (image : List ℕ) → S.bytes src.old ≡ Some image → (root : ℕ) → IsIn (tree_in K.shape site.now (N.named namer.now) image) root way.old.above.items way.old.last → IfErr result (Tells (StopsFor (tree_in K.shape site.now (N.named namer.now) image) root deep.old (passed_child K.shape way.old) seen.old (ahead_if (tree_in K.shape site.now (N.named namer.now) image) deep.old way.old)) (HasFeature (tree_in K.shape site.now (N.named namer.now) image) root)) }
    ensures gap { (image : List ℕ) → S.bytes src.old ≡ Some image → IfErr result (TellsGap (IsGapOf (tree_in K.shape site.now (N.named namer.now) image) deep.old (passed_child K.shape way.old))) }
    ensures reads { S.reads src.new ≤ S.reads src.old + reads_for deep.old }
    ensures fuel { IfOk result (λ more. IsTrue more → fuel_if deep.new way.new < fuel_if deep.old way.old) }
    ensures cause { IsErrOf result ReadFault → Rose (S.faults src.old) (S.faults src.new) }
    ensures no_memory { IsErrOf result NoMemory → ⊥ }
    ensures kept { IsKept S.bytes S.bytes_len S.faults src.old src.new }
{
    match fall::<K, S, N>(src, namer, site, way, *deep) {
        Ok(()) => *deep = false,
        Err(stop) => return Err(stop),
    }
    if !climb::<K>(site, way) {
        if fits(*seen) {
            return Ok(false);
        }
        return Err(Stop::Found(WalkFault::Counts));
    }
    let Some(next) = see_next::<K>(seen, &way.last, site) else {
        return Err(Stop::Found(WalkFault::Order { item: seen.number }));
    };
    *key = Some(next);
    *deep = 0 < level::<K>(&way.last, site);
    way.last.next += 1;
    Ok(true)
}

impl<K: TreeKey, N: Namer> Liner<K, N> {
    ghost use Rattle.std.specs.Prelude.{[], option_map};
    ghost use Rattle.obj_base.specs.declared.stop.Stop.TheVariants.{Unsupported};
    ghost use Rattle.obj_base.specs.Stops.{IsFree};
    ghost use Rattle.bt_cursor.specs.Line.{Item};
    ghost use Rattle.bt_cursor.specs.Met.{is_walkable};
    ghost use Rattle.bt_cursor.specs.Faults.{IsNodeFault, IsWalkFault};
    ghost use Rattle.bt_cursor.specs.Advance.{IsNextGap, IsNextFault};
    ghost use Rattle.bt_cursor.specs.Liners.{site_of, root_of, tree_of, item_of, is_deep, fuel_of, HasItem, HasItemIf, HasSeenNone, Sees, HasPassed, Passes};
    ghost use Rattle.bt_cursor.specs.WholeTree.{IsOfNodes, IsWhole, child_id};

    /// Reads the root, whose id is `root`, and stands before the first item. Takes all its buffers here.
    pub fn new<S: BlockSource>(
        alloc: Global,
        src: &mut S,
        namer: N,
        root: u64,
        site: Site,
    ) -> Result<Liner<K, N>, Stop<WalkFault>>
        requires site { IsSiteFor site (S.bytes_len src.old) }
        ensures site { IfOk result (λ liner. site_of liner ≡ site) }
        ensures root { IfOk result (λ liner. root_of liner ≡ root) }
        ensures tree { IfOk result (λ liner. tree_of liner ≡ tree_in K.shape site (N.named namer)) }
        ensures deep { IfOk result (λ liner. is_deep liner ≡ false) }
        ensures seen { IfOk result HasSeenNone }
        ensures passed { (image : List ℕ) → S.bytes src.old ≡ Some image → IfOk result (HasPassed image []) }
        ensures present { (image : List ℕ) → S.bytes src.old ≡ Some image → IfErr result (Tells (IsNodeFault (tree_in K.shape site (N.named namer) image) root) (HasFeature (tree_in K.shape site (N.named namer) image) root)) }
        ensures first { (image : List ℕ) → S.bytes src.old ≡ Some image → IfErr result (Tells (IsNextFault (tree_in K.shape site (N.named namer) image) root []) (λ feature block. IsNextGap (tree_in K.shape site (N.named namer) image) root [] (Unsupported feature block))) }
        ensures exact { (image : List ℕ) → S.bytes src.old ≡ Some image → is_walkable (tree_in K.shape site (N.named namer) image) root ≡ true → IfErr result IsFree }
        ensures of_nodes { IfErr result IsOfNodes }
        ensures reads { S.reads src.new ≤ S.reads src.old + 1 }
        ensures cause { IsErrOf result ReadFault → Rose (S.faults src.old) (S.faults src.new) }
        ensures kept { IsKept S.bytes S.bytes_len S.faults src.old src.new }
    {
        match start::<K, S, N>(alloc, src, &namer, &site, root) {
            Ok(way) => {
                let seen = nothing_seen(info::<K>(&way.last, &site));
                Ok(Liner {
                    namer,
                    site,
                    root,
                    way,
                    deep: false,
                    seen,
                    key: None,
                })
            }
            Err(stop) => Err(stop),
        }
    }

    /// Moves onto the next item of the Line; false at the end of a whole tree. Takes no memory. After an error no
    /// further call of it means anything.
    pub fn next<S: BlockSource>(&mut self, src: &mut S) -> Result<bool, Stop<WalkFault>>
        requires site { IsSiteFor (site_of self.old) (S.bytes_len src.old) }
        ensures site { site_of self.new ≡ site_of self.old }
        ensures root { root_of self.new ≡ root_of self.old }
        ensures tree { tree_of self.new ≡ tree_of self.old }
        ensures passed { (image : List ℕ) → S.bytes src.old ≡ Some image → (passed : List Item) → HasPassed image passed self.old → IfOk result (Passes image passed self.old self.new) }
        ensures present { (image : List ℕ) → S.bytes src.old ≡ Some image → (passed : List Item) → HasPassed image passed self.old → IfErr result (Tells (IsWalkFault (tree_of self.old image) (root_of self.old)) (HasFeature (tree_of self.old image) (root_of self.old))) }
        ensures first { (image : List ℕ) → S.bytes src.old ≡ Some image → (passed : List Item) → HasPassed image passed self.old → IfErr result (Tells (IsNextFault (tree_of self.old image) (root_of self.old) passed) (λ feature block. IsNextGap (tree_of self.old image) (root_of self.old) passed (Unsupported feature block))) }
        ensures exact { (image : List ℕ) → S.bytes src.old ≡ Some image → (passed : List Item) → HasPassed image passed self.old → IsWhole (tree_of self.old image) (root_of self.old) → IfErr result IsFree }
        ensures seen { IfOk result (Sees self.old self.new) }
        ensures stands { IfOk result (HasItemIf self.new) }
        ensures reads { S.reads src.new ≤ S.reads src.old + reads_for (is_deep self.old) }
        ensures fuel { IfOk result (λ more. IsTrue more → fuel_of self.new < fuel_of self.old) }
        ensures cause { IsErrOf result ReadFault → Rose (S.faults src.old) (S.faults src.new) }
        ensures no_memory { IsErrOf result NoMemory → ⊥ }
        ensures kept { IsKept S.bytes S.bytes_len S.faults src.old src.new }
    {
        match step::<K, S, N>(
            src,
            &self.namer,
            &self.site,
            &mut self.way,
            &mut self.deep,
            &mut self.seen,
            &mut self.key,
        ) {
            Ok(more) => Ok(more),
            Err(stop) => Err(stop),
        }
    }

    /// The item onto which the last call of `next` moved, lent from its block.
    #[tactic(auto, using(crate::proofs::Ways::hold_inside))]
    pub fn item(&self) -> LineItem<'_, K>
        requires { HasItem self.now }
        ensures node { result.node ≡ (item_of self.now).node }
        ensures at { result.at ≡ (item_of self.now).at }
        ensures level { result.level ≡ (item_of self.now).level }
        ensures key_bytes { result.pair.key_bytes.now ≡ (item_of self.now).pair.key }
        ensures value { option_map (λ value. value.now) result.pair.value ≡ (item_of self.now).pair.value }
        ensures key { K.shape.read result.pair.key_bytes.now ≡ Some result.pair.key }
        ensures child { result.child ≡ child_id (item_of self.now) }
    {
        let last = self.way.last.next - 1;
        let level = level::<K>(&self.way.last, &self.site);
        LineItem {
            node: self.way.last.at.oid,
            at: last as u64,
            level,
            pair: lend_with::<K>(&self.way.last, &self.site, last, self.key.unwrap()),
            child: if level == 0 {
                None
            } else {
                Some(child::<K>(&self.way.last, &self.site, last))
            },
        }
    }
}
