// Nodes read with the keys of their trees. The node that the cases start from is a root of level 0 of an object map's
// tree, in block 26 of 4,096 bytes: its table is at offset 0 with length 4, and has one entry of key offset 0 and value
// offset 16.

use apfs_layout::{node, object};
use bt_keys::{ExtKey, FsKey, OmapKey, QueueKey};
use bt_node::{NodeAt, NodeFault, NodeView, Site, TreeKey};
use obj_base::{Bad, Feature, HeadFault, is_accepted, sum64};
use std::alloc::{AllocError, Global};
use std::process::Abort;

const SITE: Site = Site {
    block_size: 4096,
    blocks: 256,
    max_xid: 1,
};

const AT: NodeAt = NodeAt {
    oid: 26,
    root: true,
    level: None,
};

// The fields that the cases change: those of the header and of the node, the two numbers of the entry in the table, and
// the node size that the root tells.
const OID: usize = object::OID;

const KIND: usize = object::TYPE;

const SUBTYPE: usize = object::SUBTYPE;

const FLAGS: usize = node::FLAGS;

const LEVEL: usize = node::LEVEL;

const COUNT: usize = node::COUNT;

const TABLE_OFFSET: usize = node::TABLE_OFFSET;

const TABLE_LENGTH: usize = node::TABLE_LENGTH;

const KEY_OFFSET: usize = node::TABLE;

const VALUE_OFFSET: usize = node::TABLE + 2;

const NODE_SIZE: usize = 4096 - node::INFO_LEN + node::NODE_SIZE;

// A field's place and its 16 bits.
type Edit = (usize, u16);

// What a case is called, why its node isn't sound, and what is changed.
type Case = (&'static str, Option<Bad<NodeFault>>, &'static [Edit]);

const BASE: &[Edit] = &[
    (OID, 26),
    (16, 1),
    (KIND, 2),
    (SUBTYPE, 0xb),
    (FLAGS, 7),
    (COUNT, 1),
    (TABLE_LENGTH, 4),
    (KEY_OFFSET, 0),
    (VALUE_OFFSET, 16),
    (NODE_SIZE, 4096),
    (4080, 1),
    (4088, 1),
];

fn put(node: &mut [u8; 4096], edits: &[Edit]) {
    for (at, value) in edits {
        if *at < 4095 {
            node[*at] = (*value % 256) as u8;
            node[*at + 1] = (*value / 256) as u8;
        }
    }
}

fn seal(node: &mut [u8; 4096]) {
    let sum = sum64(&node[..]).to_le_bytes();
    for i in 0..8 {
        node[i] = sum[i];
    }
}

fn made(edits: &[Edit], more: &[Edit]) -> [u8; 4096] {
    let mut node = [0; 4096];
    put(&mut node, BASE);
    put(&mut node, edits);
    put(&mut node, more);
    seal(&mut node);
    node
}

// Why the node isn't sound, or None where it is.
fn fault<K: TreeKey>(node: &[u8; 4096], at: &NodeAt) -> Option<Bad<NodeFault>> {
    match NodeView::<K>::read(&node[..], at, &SITE) {
        Ok(_) => None,
        Err(bad) => Some(bad),
    }
}

// Asserts why the nodes of some cases aren't sound, after these edits of each.
fn assert_faults<K: TreeKey>(rt: &impl Abort, at: &NodeAt, edits: &[Edit], cases: &[Case]) {
    for (name, expected, more) in cases {
        assert!(rt; fault::<K>(&made(edits, more), at) == *expected, "{name}");
    }
}

const HEAD: Option<Bad<NodeFault>> = Some(Bad::Found(NodeFault::Head(HeadFault::BadKind)));

const SEALED: Option<Bad<NodeFault>> = Some(Bad::Unsupported(Feature::Sealed));

const NO_HEADER: Option<Bad<NodeFault>> = Some(Bad::Unsupported(Feature::NoHeader));

const WRONG_FLAGS: Option<Bad<NodeFault>> = Some(Bad::Found(NodeFault::Flags));

const DEEP: Option<Bad<NodeFault>> = Some(Bad::Unsupported(Feature::Deep));

const WRONG_LEVEL: Option<Bad<NodeFault>> = Some(Bad::Found(NodeFault::Level));

const WRONG_SIZE: Option<Bad<NodeFault>> = Some(Bad::Unsupported(Feature::Size));

const EMPTY: Option<Bad<NodeFault>> = Some(Bad::Found(NodeFault::Empty));

const BOUNDS: Option<Bad<NodeFault>> = Some(Bad::Found(NodeFault::Bounds));

const GHOST: Option<Bad<NodeFault>> = Some(Bad::Found(NodeFault::Ghost));

const KEY: Option<Bad<NodeFault>> = Some(Bad::Found(NodeFault::Key));

// Each test that an object map's node can fail alone, and then each neighbour pair, of which the first is named.
const CASES: &[Case] = &[
    ("nothing fails", None, &[]),
    ("header", HEAD, &[(KIND, 3)]),
    ("sealed", SEALED, &[(FLAGS, 7 + 8)]),
    ("no header", NO_HEADER, &[(FLAGS, 7 + 16)]),
    ("root flag", WRONG_FLAGS, &[(FLAGS, 6)]),
    ("leaf flag", WRONG_FLAGS, &[(FLAGS, 5)]),
    (
        "fixed flag",
        WRONG_FLAGS,
        &[(FLAGS, 3), (60, 16), (62, 16), (TABLE_LENGTH, 8)],
    ),
    ("deep", DEEP, &[(FLAGS, 5), (LEVEL, 16)]),
    ("size", WRONG_SIZE, &[(NODE_SIZE, 8192)]),
    ("empty", EMPTY, &[(FLAGS, 5), (LEVEL, 1), (COUNT, 0)]),
    ("value past the end", BOUNDS, &[(VALUE_OFFSET, 8)]),
    ("value before the keys", BOUNDS, &[(VALUE_OFFSET, 4000)]),
    ("key past the end", BOUNDS, &[(KEY_OFFSET, 3981)]),
    ("table too short", BOUNDS, &[(TABLE_LENGTH, 3)]),
    (
        "table past the end",
        BOUNDS,
        &[(COUNT, 0), (TABLE_OFFSET, 4000)],
    ),
    ("ghost", GHOST, &[(VALUE_OFFSET, 0xffff)]),
    ("header, sealed", HEAD, &[(KIND, 3), (FLAGS, 7 + 8)]),
    ("sealed, no header", SEALED, &[(FLAGS, 7 + 8 + 16)]),
    ("no header, flags", NO_HEADER, &[(FLAGS, 6 + 16)]),
    ("flags, deep", WRONG_FLAGS, &[(FLAGS, 7), (LEVEL, 16)]),
    (
        "bounds, ghost",
        BOUNDS,
        &[(KEY_OFFSET, 3981), (VALUE_OFFSET, 0xffff)],
    ),
];

// The same where level 1 is expected of the root.
const LEVEL_CASES: &[Case] = &[
    ("level", WRONG_LEVEL, &[]),
    ("level, size", WRONG_LEVEL, &[(NODE_SIZE, 8192)]),
    ("deep, level", DEEP, &[(FLAGS, 5), (LEVEL, 16)]),
    (
        "size, empty",
        WRONG_SIZE,
        &[(FLAGS, 5), (LEVEL, 1), (COUNT, 0), (NODE_SIZE, 8192)],
    ),
    (
        "empty, bounds",
        EMPTY,
        &[(FLAGS, 5), (LEVEL, 1), (COUNT, 0), (TABLE_OFFSET, 4000)],
    ),
];

const AT_LEVEL_ONE: NodeAt = NodeAt {
    level: Some(1),
    ..AT
};

// The record key of an inode of a file-system tree is 8 bytes with kind 3; the entry of the table has lengths.
const FS: &[Edit] = &[
    (SUBTYPE, 0xe),
    (FLAGS, 3),
    (TABLE_LENGTH, 8),
    (58, 8),
    (60, 16),
    (62, 16),
    (64, 2),
    (70, 0x3000),
];

const KEY_CASES: &[Case] = &[
    ("nothing fails", None, &[]),
    ("key", KEY, &[(58, 7)]),
    ("ghost, key", GHOST, &[(58, 7), (60, 0xffff)]),
];

// A node of an extent reference tree whose table has offsets alone, and one whose table has lengths too.
const EXT_CASES: &[Case] = &[
    (
        "offsets",
        None,
        &[(SUBTYPE, 0xf), (VALUE_OFFSET, 20), (66, 0x2000)],
    ),
    (
        "offsets and lengths",
        None,
        &[
            (SUBTYPE, 0xf),
            (FLAGS, 3),
            (TABLE_LENGTH, 8),
            (58, 8),
            (60, 20),
            (62, 20),
            (70, 0x2000),
        ],
    ),
];

#[test]
fn the_first_failing_test_is_named(rt: HostRuntime) {
    assert_faults::<OmapKey>(&rt, &AT, &[], CASES);
    assert_faults::<OmapKey>(&rt, &AT_LEVEL_ONE, &[], LEVEL_CASES);
    assert_faults::<FsKey>(&rt, &AT, FS, KEY_CASES);
    assert_faults::<ExtKey>(&rt, &AT, &[], EXT_CASES);
}

// The entry's key has the id 5, and its value starts with 9.
const FIVE_NINE: &[Edit] = &[(60, 5), (4040, 9)];

// Whether a node is sound, and lends that entry from its block.
fn lends(node: &[u8; 4096]) -> bool {
    let Ok(read) = NodeView::<OmapKey>::read(&node[..], &AT, &SITE) else {
        return false;
    };
    if (read.level(), read.len()) != (0, 1) {
        return false;
    }
    let entry = NodeView::<OmapKey>::kept(&node[..], &AT, &SITE).entry(0);
    entry.key_bytes == &node[60..76]
        && entry.value == Some(&node[4040..4056])
        && entry.key == OmapKey { oid: 5, xid: 0 }
}

const NO_ENTRY: &[Edit] = &[(COUNT, 0), (TABLE_LENGTH, 0)];

// Whether a node is sound, and a root without entries.
fn is_empty(node: &[u8; 4096]) -> bool {
    let Ok(view) = NodeView::<OmapKey>::read(&node[..], &AT, &SITE) else {
        return false;
    };
    match view.info() {
        Some(info) => {
            (view.len(), info.node_size, info.key_count, info.node_count) == (0, 4096, 1, 1)
        }
        None => false,
    }
}

// A queue's node, whose entry has no value.
const QUEUE_GHOST: &[Edit] = &[(SUBTYPE, 9), (VALUE_OFFSET, 0xffff)];

// Whether a queue's node is sound, and has an entry without a value.
fn has_ghost(node: &[u8; 4096]) -> bool {
    match NodeView::<QueueKey>::read(&node[..], &AT, &SITE) {
        Ok(view) => view.len() == 1 && view.entry(0).value == None,
        Err(_) => false,
    }
}

// The number of the child is 9, with 1 in its highest byte.
const PARENT: &[Edit] = &[(FLAGS, 5), (LEVEL, 1), (4040, 9), (4046, 0x100)];

// Whether a node is sound, and names that child.
fn names_child(node: &[u8; 4096]) -> bool {
    match NodeView::<OmapKey>::read(&node[..], &AT, &SITE) {
        Ok(view) => {
            view.len() == 1 && view.level() == 1 && view.child(0) == 9 + 0x0100_0000_0000_0000
        }
        Err(_) => false,
    }
}

#[test]
fn entries_are_lent_and_children_named(rt: HostRuntime) {
    assert!(rt; lends(&made(FIVE_NINE, &[])));
    assert!(rt; is_empty(&made(NO_ENTRY, &[])));
    assert!(rt; has_ghost(&made(QUEUE_GHOST, &[])));
    assert!(rt; names_child(&made(PARENT, &[])));
}

// Where bytes start and end.
type Part = (usize, usize);

// A larger node: its block size, whether it is a root, its bytes other than 0 by place, and where the key and the value of
// its last entry lie. The sums were worked out apart.
type Large = (u32, bool, &'static [(usize, u8)], Part, Part);

// A root with two entries, of which the last has the key offset 60,000 and the value offset 65,000; and a node below a
// root, whose table is at offset 512, with the key offset 12,000.
const LARGE: &[Large] = &[
    (
        65536,
        true,
        &[
            (0, 201),
            (1, 19),
            (2, 20),
            (3, 169),
            (4, 82),
            (5, 1),
            (6, 234),
            (7, 88),
            (8, 26),
            (16, 1),
            (24, 2),
            (28, 11),
            (32, 7),
            (36, 2),
            (42, 8),
            (58, 16),
            (60, 96),
            (61, 234),
            (62, 232),
            (63, 253),
            (64, 4),
            (72, 1),
            (496, 7),
            (504, 61),
            (60064, 5),
            (60072, 1),
            (65502, 1),
            (65520, 2),
            (65528, 1),
        ],
        (60064, 60080),
        (496, 512),
    ),
    (
        16384,
        false,
        &[
            (0, 202),
            (1, 204),
            (2, 252),
            (3, 197),
            (4, 219),
            (5, 1),
            (6, 239),
            (7, 57),
            (8, 26),
            (16, 1),
            (24, 3),
            (28, 11),
            (32, 6),
            (36, 1),
            (41, 2),
            (42, 4),
            (568, 224),
            (569, 46),
            (570, 16),
            (12572, 5),
            (12580, 1),
            (16368, 7),
            (16376, 61),
        ],
        (12572, 12588),
        (16368, 16384),
    ),
];

fn filled(alloc: Global, len: usize, bytes: &[(usize, u8)]) -> Result<Vec<u8>, AllocError> {
    let mut node = vec![in alloc; 0u8; len]?;
    for (at, byte) in bytes {
        if let Some(place) = node.get_mut(*at) {
            *place = *byte;
        }
    }
    Ok(node)
}

// Whether the key and the value of the last entry of a node lie where a row says.
fn is_last(node: &[u8], at: &NodeAt, site: &Site, row: &Large) -> bool {
    if !is_accepted(site.block_size) || node.len() != site.block_size as usize {
        return false;
    }
    let Ok(view) = NodeView::<OmapKey>::read(node, at, site) else {
        return false;
    };
    let last = view.len().saturating_sub(1);
    if last >= view.len() {
        return false;
    }
    let entry = view.entry(last);
    let (_, _, _, key, value) = *row;
    entry.key == OmapKey { oid: 5, xid: 1 }
        && Some(entry.key_bytes) == node.get(key.0..key.1)
        && entry.value == node.get(value.0..value.1)
}

fn is_large(alloc: Global, row: &Large) -> Result<bool, AllocError> {
    let site = Site {
        block_size: row.0,
        ..SITE
    };
    let at = NodeAt { root: row.1, ..AT };
    let node = filled(alloc, row.0 as usize, row.2)?;
    Ok(is_last(&node, &at, &site, row))
}

#[test]
fn larger_nodes_end_where_their_blocks_do(rt: HostRuntime) {
    for (i, row) in LARGE.iter().enumerate() {
        assert!(rt; is_large(rt.alloc(), row) == Ok(true), "node {i}");
    }
}
