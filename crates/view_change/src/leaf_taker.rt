// What takes the leaves of a tree.
ghost use Rattle.std.specs.Prelude.{◌≡◌, ◌+◌, ◌≤◌, ℕ, List, [], ◌∷◌, ◌++◌, Some, IfOk, IfErr, IfSome, IsErrOf};
ghost use Rattle.apfs_model.specs.Counts.{Rose};
ghost use Rattle.apfs_model.specs.Kept.{IsKept};
ghost use Rattle.obj_base.specs.declared.site.Site.{Site};
ghost use Rattle.obj_base.specs.Site.{IsSiteFor};
ghost use Rattle.obj_base.specs.Stops.{IsFree};
ghost use Rattle.obj_base.specs.declared.stop.Stop.TheVariants.{ReadFault};
ghost use Rattle.view_change.specs.declared.leaf.Leaf.{Leaf};
ghost use Rattle.view_change.specs.Ends.{HasEnds};

use crate::Leaf;
use blk_source::BlockSource;
use bt_node::{Rank, TreeKey};
use obj_base::{Site, Stop};

/// What the order and the counts of a tree need of a leaf.
#[derive(Clone, Copy, PartialEq, Eq)]
pub struct Ends {
    /// The rank of the first key.
    pub first: Rank,
    /// Whether the tree has at most one key of that rank.
    pub strict: bool,
    /// The rank of the last key.
    pub last: Rank,
    /// The number of records.
    pub count: u64,
}

/// What takes the leaves of a tree, one after the other.
pub trait LeafTaker<K: TreeKey>: Drop {
    /// Begun as the first, it has taken these leaves in this image.
    ghost holds: { Self → Self → Site → List ℕ → List Leaf → Type 0 };

    /// Where these leaves are to come, of which it isn't told yet, and so many blocks are read at most until it is: no more than a limit are read
    /// once it has taken them.
    ghost begins_within: { Self → List Leaf → ℕ → ℕ → Type 0 };

    /// The same once it is told them, where these are still to come, and so many blocks are read.
    ghost goes_within: { Self → List Leaf → ℕ → ℕ → Type 0 };

    /// Is told the leaves that are to come, those without a block left out, before it takes the first.
    fn foresee(&mut self, leaves: &[Leaf]) -> ()
        ensures foreseen { (start : Self) (site : Site) (image : List ℕ) → holds start self.old site image [] → holds start self.new site image [] }
        ensures reads_new { (reads most limit : ℕ) → begins_within self.old leaves.now most limit → reads ≤ most → goes_within self.new leaves.now reads limit };

    /// Takes one more leaf and tells its ends; None where it isn't there, isn't in order, has no record, or is refused.
    fn take<S: BlockSource>(
        &mut self,
        src: &mut S,
        site: &Site,
        leaf: Leaf,
    ) -> Result<Option<Ends>, Stop<()>>
        requires site { IsSiteFor site.now (S.bytes_len src.old) }
        ensures leaf_ends { (start : Self) (image : List ℕ) (leaves : List Leaf) → S.bytes src.old ≡ Some image → holds start self.old site.now image leaves → IfOk result (λ found. IfSome found (HasEnds K.shape site.now image leaf)) }
        ensures held { (start : Self) (image : List ℕ) (leaves : List Leaf) → S.bytes src.old ≡ Some image → holds start self.old site.now image leaves → IfOk result (λ found. IfSome found (λ ends. holds start self.new site.now image (leaves ++ leaf ∷ []))) }
        ensures reads { S.reads src.new ≤ S.reads src.old + 1 }
        ensures reads_new { (left : List Leaf) (limit : ℕ) → goes_within self.old (leaf ∷ left) (S.reads src.old) limit → IfOk result (λ found. IfSome found (λ ends. goes_within self.new left (S.reads src.new) limit)) }
        ensures free { IfErr result IsFree }
        ensures cause { IsErrOf result ReadFault → Rose (S.faults src.old) (S.faults src.new) }
        ensures kept { IsKept S.bytes S.bytes_len S.faults src.old src.new };
}
