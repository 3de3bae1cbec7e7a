// A step of a tree.

/// A step of a tree: an entry of a node above level 0, and the child that it names.
#[derive(Clone, Copy, PartialEq, Eq)]
pub struct Step {
    /// The id of the node.
    pub node: u64,
    /// The number of the entry in the node, from 0.
    pub at: u64,
    /// How far the node stands above the leaves.
    pub level: u16,
    /// The id of the child.
    pub child: u64,
}
