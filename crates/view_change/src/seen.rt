// What a pass over a Line has seen.
ghost use Rattle.std.specs.Prelude.{◌≡◌, ℕ, List, [], ◌∷◌, ◌++◌, IfSome, IsTrue};
ghost use Rattle.obj_base.specs.declared.site.Site.{Site};
ghost use Rattle.bt_cursor.specs.Line.{Item};
ghost use Rattle.bt_cursor.specs.Seen.{falls_below, is_again};
ghost use Rattle.view_change.specs.declared.leaf.Leaf.{Leaf};
ghost use Rattle.view_change.specs.Ends.{leaf_items, HasEnds};
ghost use Rattle.view_change.specs.Outline.{Separates, HasSeen};

use crate::Ends;
use bt_node::{Rank, RootInfo, TreeKey};

/// The ranks of the last item and of the last one of a leaf, and how many keys and nodes are still to come by the root's numbers.
#[derive(Clone, Copy, PartialEq, Eq)]
pub(crate) struct Seen {
    before: Option<Rank>,
    leaf: Option<Rank>,
    keys: u64,
    nodes: u64,
}

// Whether a rank is below that of the last item.
fn falls(rank: &Rank, before: Option<Rank>) -> bool
    ensures { result ≡ falls_below rank.now before }
{
    match before {
        None => false,
        Some(before) => rank.is_below(&before),
    }
}

// Whether a rank is that of the last item of a leaf.
fn repeats(rank: &Rank, leaf: Option<Rank>) -> bool
    ensures { result ≡ is_again rank.now leaf }
{
    match leaf {
        None => false,
        Some(leaf) => rank.id == leaf.id && rank.kind == leaf.kind && rank.sub == leaf.sub,
    }
}

impl Seen {
    /// Before the first item: of the nodes, the root. None where the root counts no node.
    pub(crate) fn nothing<K: TreeKey>(info: &RootInfo) -> Option<Seen>
        ensures { IfSome result (HasSeen K.shape info.now.key_count info.now.node_count []) }
    {
        Some(Seen {
            before: None,
            leaf: None,
            keys: info.key_count,
            nodes: info.node_count.checked_sub(1)?,
        })
    }

    /// After a separator too; None where it is out of order, or leads to more nodes than were to come.
    pub(crate) fn after_separator<K: TreeKey>(self, rank: Rank) -> Option<Seen>
        ensures { (keys nodes : ℕ) (items : List Item) (item : Item) → HasSeen K.shape keys nodes items self → Separates K.shape rank item → IfSome result (HasSeen K.shape keys nodes (items ++ item ∷ [])) }
    {
        if falls(&rank, self.before) {
            return None;
        }
        Some(Seen {
            before: Some(rank),
            nodes: self.nodes.checked_sub(1)?,
            ..self
        })
    }

    /// After the items of a leaf too; None where the first is out of order, or there are more keys than were to come.
    pub(crate) fn after_leaf<K: TreeKey>(self, ends: &Ends) -> Option<Seen>
        ensures { (keys nodes : ℕ) (items : List Item) (site : Site) (image : List ℕ) (leaf : Leaf) → HasSeen K.shape keys nodes items self → HasEnds K.shape site image leaf ends.now → IfSome result (HasSeen K.shape keys nodes (items ++ leaf_items K.shape site image leaf)) }
    {
        if falls(&ends.first, self.before) {
            return None;
        }
        if ends.strict && repeats(&ends.first, self.leaf) {
            return None;
        }
        Some(Seen {
            before: Some(ends.last),
            leaf: Some(ends.last),
            keys: self.keys.checked_sub(ends.count)?,
            ..self
        })
    }

    /// Whether no key and no node is still to come.
    pub(crate) fn is_all(&self) -> bool
        ensures keys { IsTrue result → self.now.keys ≡ 0 }
        ensures nodes { IsTrue result → self.now.nodes ≡ 0 }
    {
        self.keys == 0 && self.nodes == 0
    }
}
