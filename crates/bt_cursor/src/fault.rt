// Why a walk stops.

use bt_node::NodeFault;

/// What is wrong with a tree.
#[derive(Clone, Copy, PartialEq, Eq)]
pub enum WalkFault {
    /// The block in which a node is expected has no such node.
    Unsound { block: u64, why: NodeFault },
    /// A node's id names no block of the container.
    Unnamed { oid: u64 },
    /// The item of this number, counted from 0, is out of order.
    Order { item: u64 },
    /// The root's numbers of keys and of nodes aren't those of its tree.
    Counts,
}
