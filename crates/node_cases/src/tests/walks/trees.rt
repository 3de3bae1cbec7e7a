// Trees, written node by node.

use crate::tests::walks::image::{Form, Node};
use bt_cursor::WalkFault;
use bt_cursor::WalkFault::*;
use bt_node::NodeFault;
use img_edit::node::{Totals, Tree};
use obj_base::{HeadFault, Stop};

/// The keys of a queue are two numbers, and a tree has each once.
pub const QUEUE: Form = Form {
    tree: Tree::QUEUE,
    name: &[],
};

/// A file-system tree whose names are hashed: the name's length with its hash above it, and the name.
pub const HASHED: Form = Form {
    tree: Tree::FILE_SYSTEM,
    name: &[2, 8, 0, 0, b'a', 0],
};

/// One whose names aren't: the name's length, and the name.
pub const PLAIN: Form = Form {
    tree: Tree::FILE_SYSTEM,
    name: &[2, 0, b'a', 0],
};

/// An item: its level, and the id and the kind of its rank.
pub type Item = (u16, u64, u64);

macro_rules! inner {
    ($level:expr, $entries:expr) => {
        Node {
            level: $level,
            root: None,
            entries: $entries,
        }
    };
}

macro_rules! leaf {
    ($entries:expr) => {
        inner!(0, $entries)
    };
}

// A root that tells these numbers of keys and of nodes.
macro_rules! root {
    ($level:expr, ($keys:expr, $nodes:expr), $entries:expr) => {
        Node {
            level: $level,
            root: Some(Totals {
                keys: $keys,
                nodes: $nodes,
                longest_key: 0,
                longest_value: 0,
            }),
            entries: $entries,
        }
    };
}

/// A tree of three levels in the blocks 1 to 6, with the keys 1, 2, 3, 5 and 7.
pub const THREE_LEVELS: &[Node] = &[
    root!(2, (5, 6), &[(1, 2), (5, 3)]),
    inner!(1, &[(1, 4), (3, 5)]),
    inner!(1, &[(5, 6)]),
    leaf!(&[(1, 0), (2, 0)]),
    leaf!(&[(3, 0)]),
    leaf!(&[(5, 0), (7, 0)]),
];

/// The items of its Line.
pub const THREE_LEVELS_LINE: &[Item] = &[
    (2, 1, 0),
    (1, 1, 0),
    (0, 1, 0),
    (0, 2, 0),
    (1, 3, 0),
    (0, 3, 0),
    (2, 5, 0),
    (1, 5, 0),
    (0, 5, 0),
    (0, 7, 0),
];

/// Its flat list.
pub const THREE_LEVELS_LIST: &[Item] = &[(0, 1, 0), (0, 2, 0), (0, 3, 0), (0, 5, 0), (0, 7, 0)];

pub const NO_KEY: &[Node] = &[root!(0, (0, 1), &[])];

pub const KEY_SEVEN: &[Node] = &[root!(0, (1, 1), &[(7, 0)])];

/// A tree whose second child isn't there.
pub const MISSING_CHILD: &[Node] = &[
    root!(1, (3, 4), &[(1, 2), (3, 9), (5, 3)]),
    leaf!(&[(1, 0)]),
    leaf!(&[(5, 0)]),
];

/// A tree of two leaves, and the same where the root tells one key less.
pub const WHOLE: &[Node] = &[
    root!(1, (3, 3), &[(1, 2), (3, 3)]),
    leaf!(&[(1, 0), (2, 0)]),
    leaf!(&[(3, 0)]),
];

pub const TOO_FEW: &[Node] = &[
    root!(1, (2, 3), &[(1, 2), (3, 3)]),
    leaf!(&[(1, 0), (2, 0)]),
    leaf!(&[(3, 0)]),
];

/// Words of records' keys: the ids 2 and 16 under the kinds 9 and 3.
pub const TWO_NINE: u64 = 0x9000_0000_0000_0002;

pub const TWO_THREE: u64 = 0x3000_0000_0000_0002;

pub const SIXTEEN_THREE: u64 = 0x3000_0000_0000_0010;

/// A leaf that its root names twice, where the root counts it twice and where it counts it once.
pub const COUNTED_TWICE: &[Node] = &[
    root!(1, (2, 3), &[(TWO_NINE, 2), (TWO_NINE, 2)]),
    leaf!(&[(TWO_NINE, 0)]),
];

pub const COUNTED_ONCE: &[Node] = &[
    root!(1, (1, 2), &[(TWO_NINE, 2), (TWO_NINE, 2)]),
    leaf!(&[(TWO_NINE, 0)]),
];

/// The same with an inode's key.
pub const INODE_TWICE: &[Node] = &[
    root!(1, (2, 3), &[(TWO_THREE, 2), (TWO_THREE, 2)]),
    leaf!(&[(TWO_THREE, 0)]),
];

/// A tree of two keys, the first of them with the lower id and the higher kind.
pub const TWO_RANKS: &[Node] = &[root!(0, (2, 1), &[(TWO_NINE, 0), (SIXTEEN_THREE, 0)])];

/// A tree with equal ranks in two leaves.
pub const EQUAL_RANKS: &[Node] = &[
    root!(1, (4, 3), &[(TWO_THREE, 2), (TWO_NINE, 3)]),
    leaf!(&[(TWO_THREE, 0), (TWO_NINE, 0)]),
    leaf!(&[(TWO_NINE, 0), (SIXTEEN_THREE, 0)]),
];

/// How a walk ends.
pub type End = Result<(), Stop<WalkFault>>;

/// A tree, the number of the read that fails, if any does, the items of its Line, and how its walk ends.
pub type Walk = (&'static [Node], u64, &'static [Item], End);

// A table of trees of two leaves in the blocks 2 and 3 under a root, and a node above leaves in block 4: a row has what the root tells
// and names, the keys of each leaf, the items, and the stop, and ends with a semicolon.
macro_rules! pairs {
    ($(($keys:expr, $nodes:expr), $children:expr, $first:expr, $second:expr, $items:expr, $fault:expr;)*) => {
        &[$((
            &[root!(1, ($keys, $nodes), $children), leaf!($first), leaf!($second), inner!(1, &[(3, 3)])],
            0,
            $items,
            Err(Stop::Found($fault)),
        )),*]
    };
}

pub const TWO_LEAVES: &[Walk] = pairs! {
    (3, 3), &[(1, 2), (3, 3)], &[(2, 0), (1, 0)], &[(3, 0)], &[(1, 1, 0), (0, 2, 0)], Order { item: 2 };
    (3, 3), &[(1, 2), (3, 3)], &[(1, 0), (4, 0)], &[(3, 0)], &[(1, 1, 0), (0, 1, 0), (0, 4, 0)], Order { item: 3 };
    (3, 3), &[(1, 2), (3, 3)], &[(1, 0), (3, 0)], &[(3, 0)], &[(1, 1, 0), (0, 1, 0), (0, 3, 0), (1, 3, 0)], Order { item: 4 };
    (3, 3), &[(1, 2), (3, 3)], &[(1, 0), (1, 0)], &[(3, 0)], &[(1, 1, 0), (0, 1, 0)], Order { item: 2 };
    (3, 3), &[(1, 2), (3, 3)], &[(1, 0)], &[(3, 0)], &[(1, 1, 0), (0, 1, 0), (1, 3, 0), (0, 3, 0)], Counts;
    (2, 2), &[(1, 2), (3, 3)], &[(1, 0)], &[(3, 0)], &[(1, 1, 0), (0, 1, 0), (1, 3, 0), (0, 3, 0)], Counts;
    (2, 3), &[(1, 2), (3, 9)], &[(1, 0)], &[(3, 0)], &[(1, 1, 0), (0, 1, 0), (1, 3, 0)], Unnamed { oid: 9 };
    (2, 3), &[(1, 2), (3, 7)], &[(1, 0)], &[(3, 0)], &[(1, 1, 0), (0, 1, 0), (1, 3, 0)],
        Unsound { block: 7, why: NodeFault::Head(HeadFault::BadSum) };
    (2, 3), &[(1, 2), (3, 4)], &[(1, 0)], &[(3, 0)], &[(1, 1, 0), (0, 1, 0), (1, 3, 0)], Unsound { block: 4, why: NodeFault::Level };
};
