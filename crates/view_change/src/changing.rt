// The difference of a view from the one before, leaf by leaf.
ghost use Rattle.std.specs.Bool.{then_some};
ghost use Rattle.std.specs.Prelude.{◌≡◌, ◌+◌, ◌<◌, ◌≤◌, ◌++◌, [], ◌∷◌, ℕ, List, length, take, drop, Some, None, true, false, IfOk, IfErr, IfSome, IfNone, IsErrOf, IsTrue, OnOk, option_to_list};
ghost use Rattle.apfs_model.specs.Counts.{Rose};
ghost use Rattle.apfs_model.specs.Kept.{IsKept};
ghost use Rattle.obj_base.specs.Site.{IsSiteFor};
ghost use Rattle.obj_base.specs.Stops.{IsFree};
ghost use Rattle.obj_base.specs.declared.site.Site.{Site as Place};
ghost use Rattle.obj_base.specs.declared.stop.Stop.TheVariants.{ReadFault};
ghost use Rattle.fs_name.specs.declared.naming.Names.{Names};
ghost use Rattle.view_change.specs.declared.leaf.Leaf.{Leaf as One};
ghost use Rattle.view_change.specs.declared.changing.Changing.{Changing as State};
ghost use Rattle.rule_index.specs.Order.{AreInOrder};
ghost use Rattle.view_change.specs.Ends.{HasEnds};
ghost use Rattle.view_change.specs.declared.kept.KeptLeaf.{KeptLeaf as Kept};
ghost use Rattle.view_change.specs.Kept.{facts_of, leaves_of, IsHeld, IsKeptView};
ghost use Rattle.view_change.specs.Reading.{IsNodeOf};
ghost use Rattle.view_change.specs.Shared.{is_among, shared_leaves, StayInOrder, ShareLeaves, IsWithin, ComesNext};
ghost use Rattle.view_change.specs.Changing.{facts_before, leaves_left, HasChanged, HasChangedTo, HasSettledTo, HasDifference, IsDifference};

use crate::kept::{Held, KeptLeaf, Numbers, no_facts};
use crate::kept_view::are_known;
use crate::leaf_read::{add_records, ends_of};
use crate::node::read_node;
use crate::runs::{are_none, settle};
use crate::stock::Stock;
use crate::{Ends, KeptView, Leaf, LeafTaker};
use apfs_model::NoMemory;
use blk_source::BlockSource;
use bt_keys::FsTreeKey;
use bt_node::{NodeView, TreeKey};
use obj_base::{Site, Stop};
use std::alloc::Global;
use std::collections::VecDeque;
use std::mem::replace;
use view_facts::Facts;

/// Among how many of the next leaves of the view before a leaf is looked for.
const AHEAD: usize = 256;

/// What takes the leaves of a view that comes after another. A leaf that is found among the next of the view before isn't read again: its facts are
/// those of the view before. Where fewer than half of the leaves of either view are in both, the view before is let go and no difference is followed.
#[derive(Drop)]
pub struct Changing {
    alloc: Global,
    /// The leaves of the view before that are left.
    leaves: VecDeque<KeptLeaf>,
    /// Their facts, and those of the view after up to its last leaf that stays.
    stock: Stock,
    /// The leaves of the view after, and the facts of those that were read since.
    after: Held,
    /// Whether what is gone and what has come is gathered.
    follows: bool,
    /// The facts of the leaves of the view before that were passed since the last leaf that stays.
    passed: Facts,
    /// The facts that are gone and that have come up to that leaf.
    gone: Facts,
    come: Facts,
}

/// The facts that are gone and that have come since the view before.
#[derive(Drop)]
pub struct Change {
    pub gone: Facts,
    pub come: Facts,
}

/// What is kept of a view, and how its facts differ from those of the one before, where that was followed.
#[derive(Drop)]
pub struct Changed {
    pub after: KeptView,
    pub change: Option<Change>,
}

impl Changing {
    /// Begins with no leaf, after a view.
    pub fn new<K: TreeKey>(alloc: Global, before: KeptView) -> Changing
        ensures begun { (site : Place) (image : List ℕ) (names : Names) (leaves : List One) → IsKeptView K.shape site image names leaves before → HasChanged K.shape site image [] result result }
        ensures before { facts_before result ≡ facts_of before }
        ensures leaves { leaves_left result ≡ leaves_of before }
    {
        let KeptView { held, in_order } = before;
        let names = held.names();
        let (leaves, facts) = held.parts();
        Changing {
            alloc,
            leaves: VecDeque::from_vec(leaves),
            stock: Stock::new(facts, in_order),
            after: Held::nothing::<K>(alloc, names),
            follows: true,
            passed: no_facts(alloc, names),
            gone: no_facts(alloc, names),
            come: no_facts(alloc, names),
        }
    }

    // Where a leaf stands among the next of the view before from a place on.
    fn place_of(&self, leaf: &Leaf, from: usize) -> Option<usize>
        ensures inside { IfSome result (λ place. place < length (leaves_left self.now)) }
        ensures found { IfSome result (λ place. ComesNext leaf.now (drop from (leaves_left self.now)) (drop (place + 1) (leaves_left self.now))) }
        ensures none { IfNone result (is_among (take 256 (drop from (leaves_left self.now))) leaf.now ≡ false) }
    {
        'next: for ahead in 0..AHEAD {
            let place = from.saturating_add(ahead);
            match self.leaves.get(place) {
                Some(kept) if kept.leaf == *leaf => return Some(place),
                Some(_) => {}
                None => return None,
            }
        }
        None
    }

    // How many of some leaves are found in the view before, one after the other.
    fn count_found(&self, leaves: &[Leaf]) -> usize
        ensures { StayInOrder (leaves_left self.now) leaves.now → length (shared_leaves (leaves_left self.now) leaves.now) ≤ result }
    {
        let mut from: usize = 0;
        let mut found: usize = 0;
        'leaves: for leaf in leaves {
            if let Some(place) = self.place_of(leaf, from) {
                from = place.saturating_add(1);
                found = found.saturating_add(1);
            }
        }
        found
    }

    // Whether half of some leaves at least, and half of those of the view before, are in both.
    fn shares_half(&self, leaves: &[Leaf]) -> bool
        ensures { ShareLeaves (leaves_left self.now) leaves.now → result ≡ true }
    {
        let most = leaves.len().max(self.leaves.len());
        self.count_found(leaves) >= most - most / 2
    }

    // Lets go of the view before, before a leaf is taken: the difference from it isn't followed.
    fn let_go<K: TreeKey>(&mut self) -> ()
        ensures held { (start : State) (site : Place) (image : List ℕ) → HasChanged K.shape site image [] start self.old → HasChanged K.shape site image [] start self.new }
    {
        let names = self.after.names();
        let none = Stock::new(no_facts(self.alloc, names), false);
        drop(replace(&mut self.leaves, VecDeque::new(self.alloc)));
        drop(replace(&mut self.stock, none));
        drop(replace(&mut self.after, Held::nothing::<K>(self.alloc, names)));
        self.follows = false;
    }

    // Passes over leaves of the view before until one comes; over all of them where none is looked for.
    fn pass_until<K: TreeKey>(&mut self, leaf: Option<Leaf>) -> Result<Option<KeptLeaf>, NoMemory>
        ensures held { (start : State) (site : Place) (image : List ℕ) (leaves : List One) → HasChanged K.shape site image leaves start self.old → IfOk result (λ found. HasChangedTo K.shape site image leaves start (option_to_list found ++ self.new.leaves.items) self.new) }
        ensures same { IfOk result (λ found. IfSome found (λ kept. leaf ≡ Some kept.leaf)) }
        ensures end { IfOk result (λ found. IfNone found (self.new.leaves.items ≡ [])) }
        ensures next { IfOk result (λ found. IfSome found (λ kept. ComesNext kept.leaf (leaves_left self.old) (leaves_left self.new))) }
    {
        'gone: while let Some(kept) = self.leaves.pop_front() {
            if leaf == Some(kept.leaf) {
                return Ok(Some(kept));
            }
            self.stock.pass(&kept.numbers, &mut self.passed)?;
        }
        Ok(None)
    }

    // Tells what is gone and what has come since the last leaf that stays.
    fn settle<K: TreeKey>(&mut self) -> Result<(), NoMemory>
        ensures same { (self.new.leaves ≡ self.old.leaves) × (self.new.follows ≡ self.old.follows) }
        ensures held { (start : State) (site : Place) (image : List ℕ) (leaves : List One) (left : List Kept) → HasChangedTo K.shape site image leaves start left self.old → OnOk result (HasSettledTo K.shape site image leaves start left self.new) }
    {
        if are_none(&self.passed) && are_none(&self.after.facts) {
            return Ok(());
        }
        settle(
            self.alloc,
            &mut self.passed,
            &self.after.facts,
            &mut self.gone,
            &mut self.come,
        )?;
        self.stock.put(self.alloc, &mut self.after.facts)?;
        Ok(())
    }

    // Takes a leaf that the view before has among its next ones.
    fn stay<K: TreeKey>(&mut self, leaf: Leaf) -> Result<Option<Ends>, NoMemory>
        ensures next { IfOk result (λ found. IfSome found (λ ends. ComesNext leaf (leaves_left self.old) (leaves_left self.new))) }
        ensures leaf_ends { (start : State) (site : Place) (image : List ℕ) (leaves : List One) → HasChanged K.shape site image leaves start self.old → IfOk result (λ found. IfSome found (HasEnds K.shape site image leaf)) }
        ensures held { (start : State) (site : Place) (image : List ℕ) (leaves : List One) → HasChanged K.shape site image leaves start self.old → IfOk result (λ found. IfSome found (λ ends. HasChanged K.shape site image (leaves ++ leaf ∷ []) start self.new)) }
    {
        let Some(kept) = self.pass_until::<K>(Some(leaf))? else {
            return Ok(None);
        };
        self.settle::<K>()?;
        self.stock.keep(&kept.numbers);
        self.after.put(kept)?;
        Ok(Some(kept.ends))
    }

    // Takes a leaf by its node.
    fn add<K: FsTreeKey>(
        &mut self,
        leaf: Leaf,
        node: &NodeView<'_, K>,
    ) -> Result<Option<Ends>, NoMemory>
        ensures same { self.new.leaves ≡ self.old.leaves }
        ensures leaf_ends { (site : Place) (image : List ℕ) → IsNodeOf K.shape site image leaf node.now → IfOk result (λ found. IfSome found (HasEnds K.shape site image leaf)) }
        ensures held { (start : State) (site : Place) (image : List ℕ) (leaves : List One) → IsNodeOf K.shape site image leaf node.now → HasChanged K.shape site image leaves start self.old → IfOk result (λ found. IfSome found (λ ends. HasChanged K.shape site image (leaves ++ leaf ∷ []) start self.new)) }
    {
        let Some(ends) = ends_of(node) else {
            return Ok(None);
        };
        let before = Numbers::of(&self.after.facts);
        if !add_records(self.alloc, node, &mut self.after.facts)? {
            return Ok(None);
        }
        let numbers = Numbers::of(&self.after.facts).since(&before);
        self.after.put(KeptLeaf {
            leaf,
            ends,
            numbers,
        })?;
        Ok(Some(ends))
    }

    // Reads a leaf and takes it.
    fn read<K: FsTreeKey, S: BlockSource>(
        &mut self,
        src: &mut S,
        site: &Site,
        leaf: Leaf,
    ) -> Result<Option<Ends>, Stop<()>>
        requires { IsSiteFor site.now (S.bytes_len src.old) }
        ensures leaf_ends { (image : List ℕ) → S.bytes src.old ≡ Some image → IfOk result (λ found. IfSome found (HasEnds K.shape site.now image leaf)) }
        ensures held { (start : State) (image : List ℕ) (leaves : List One) → S.bytes src.old ≡ Some image → HasChanged K.shape site.now image leaves start self.old → IfOk result (λ found. IfSome found (λ ends. HasChanged K.shape site.now image (leaves ++ leaf ∷ []) start self.new)) }
        ensures same { self.new.leaves ≡ self.old.leaves }
        ensures reads { S.reads src.new ≤ S.reads src.old + 1 }
        ensures free { IfErr result IsFree }
        ensures cause { IsErrOf result ReadFault → Rose (S.faults src.old) (S.faults src.new) }
        ensures kept { IsKept S.bytes S.bytes_len S.faults src.old src.new }
    {
        let at = leaf.place();
        let mut block = vec![in self.alloc; 0u8; site.block_size as usize]?;
        if !read_node::<K, S>(src, site, &at, leaf.block, &mut block)? {
            return Ok(None);
        }
        let node = NodeView::<K>::kept(&block, &at, site);
        Ok(self.add(leaf, &node)?)
    }

    // Passes over the rest of the view before, and settles what has changed where it is followed.
    fn end<K: TreeKey>(&mut self) -> Result<(), NoMemory>
        ensures held { (start : State) (site : Place) (image : List ℕ) (leaves : List One) → HasChanged K.shape site image leaves start self.old → OnOk result (HasChangedTo K.shape site image leaves start [] self.new) }
        ensures settled { (start : State) (site : Place) (image : List ℕ) (leaves : List One) → HasChanged K.shape site image leaves start self.old → OnOk result (self.new.follows ≡ true → HasSettledTo K.shape site image leaves start [] self.new) }
    {
        let _ = self.pass_until::<K>(None)?;
        if self.follows {
            self.settle::<K>()?;
        }
        Ok(())
    }

    // Takes out what is kept, and what has changed where that is followed.
    fn take_changed<K: TreeKey>(&mut self, in_order: bool) -> Changed
        requires { IsTrue in_order → AreInOrder self.old.after.facts }
        ensures held { result.after.held ≡ self.old.after }
        ensures change { result.change ≡ then_some self.old.follows (record { gone = self.old.gone; come = self.old.come }) }
    {
        let names = self.after.names();
        let held = replace(&mut self.after, Held::nothing::<K>(self.alloc, names));
        let gone = replace(&mut self.gone, no_facts(self.alloc, names));
        let come = replace(&mut self.come, no_facts(self.alloc, names));
        Changed {
            after: KeptView { held, in_order },
            change: self.follows.then_some(Change { gone, come }),
        }
    }

    // What is kept, once all leaves are taken, and what has changed, where it was followed. Both are taken out.
    fn close<K: TreeKey>(&mut self) -> Result<Changed, NoMemory>
        ensures { (start : State) (site : Place) (image : List ℕ) (leaves : List One) → HasChanged K.shape site image leaves start self.old → IfOk result (IsDifference K.shape site image leaves (facts_before start)) }
    {
        self.end::<K>()?;
        let known = self.stock.whole(self.alloc, &mut self.after.facts)?;
        let in_order = are_known(known, &self.after.facts);
        Ok(self.take_changed::<K>(in_order))
    }

    /// What is kept, once all leaves are taken, and what has changed, where it was followed.
    pub fn finish<K: TreeKey>(mut self) -> Result<Changed, NoMemory>
        ensures { (start : State) (site : Place) (image : List ℕ) (leaves : List One) → HasChanged K.shape site image leaves start self → IfOk result (IsDifference K.shape site image leaves (facts_before start)) }
    {
        let changed = self.close::<K>();
        drop(self);
        changed
    }
}

impl<K: FsTreeKey> LeafTaker<K> for Changing {
    ghost holds = { λ start now site image leaves. HasChanged K.shape site image leaves start now };

    ghost begins_within = { λ now leaves reads limit. ShareLeaves (leaves_left now) leaves × IsWithin (leaves_left now) leaves reads limit };

    ghost goes_within = { λ now leaves reads limit. StayInOrder (leaves_left now) leaves × IsWithin (leaves_left now) leaves reads limit };

    fn foresee(&mut self, leaves: &[Leaf]) -> () {
        if !self.shares_half(leaves) {
            self.let_go::<K>();
        }
    }

    fn take<S: BlockSource>(
        &mut self,
        src: &mut S,
        site: &Site,
        leaf: Leaf,
    ) -> Result<Option<Ends>, Stop<()>> {
        if self.place_of(&leaf, 0).is_some() {
            return Ok(self.stay::<K>(leaf)?);
        }
        self.read::<K, S>(src, site, leaf)
    }
}
