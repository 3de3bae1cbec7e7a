// The leaves of a tree.
ghost use Rattle.std.specs.Prelude.{◌≡◌};
ghost use Rattle.view_change.specs.Leaves.{leaf_place};

use bt_node::NodeAt;

/// A leaf of a tree below its root: the id by which its parent names it, and the block that this id has.
#[derive(Clone, Copy, PartialEq, Eq)]
pub struct Leaf {
    pub oid: u64,
    pub block: u64,
}

impl Leaf {
    /// The place of the leaf.
    pub(crate) fn place(&self) -> NodeAt
        ensures { result ≡ leaf_place self.now }
    {
        NodeAt {
            oid: self.oid,
            root: false,
            level: Some(0),
        }
    }
}
