// Nodes of object maps, each in a block of its own.
use blk_source::{BlockSource, MemSource};
use bt_cursor::Physical;
use bt_keys::OmapKey;
use bt_node::TreeKey;
use img_edit::node::{Item, NodeHead, Totals, Tree, node};
use obj_base::{Site, Stop};
use std::alloc::{AllocError, Global};
use std::process::Abort;
use view_change::{Ends, Leaf, LeafTaker, walk_leaves};

// What remembers the leaves; the leaf of an id has one record, for this id.
#[derive(Drop)]
struct Leaves(Vec<Leaf>);

impl LeafTaker<OmapKey> for Leaves {
    ghost use Rattle.std.specs.Prelude.{◌+◌, ◌≤◌, IfErr, IsErrOf};
    ghost use Rattle.apfs_model.specs.Counts.{Rose};
    ghost use Rattle.apfs_model.specs.Kept.{IsKept};
    ghost use Rattle.obj_base.specs.Stops.{IsFree};
    ghost use Rattle.obj_base.specs.declared.stop.Stop.TheVariants.{ReadFault};

    ghost holds = { λ start taker site image leaves. ⊥ };

    ghost begins_within = { λ taker leaves reads limit. ⊥ };

    ghost goes_within = { λ taker leaves reads limit. ⊥ };

    fn foresee(&mut self, leaves: &[Leaf]) -> () {
        let _ = leaves;
    }

    fn take<S: BlockSource>(
        &mut self,
        src: &mut S,
        site: &Site,
        leaf: Leaf,
    ) -> Result<Option<Ends>, Stop<()>>
        ensures reads { S.reads src.new ≤ S.reads src.old + 1 }
        ensures free { IfErr result IsFree }
        ensures cause { IsErrOf result ReadFault → Rose (S.faults src.old) (S.faults src.new) }
        ensures kept { IsKept S.bytes S.bytes_len S.faults src.old src.new }
    {
        self.0.push(leaf)?;
        let key = OmapKey {
            oid: leaf.oid,
            xid: 1,
        };
        Ok(Some(Ends {
            first: key.rank(),
            strict: key.strict(),
            last: key.rank(),
            count: 1,
        }))
    }
}

// A node: its id, its level, the totals of a root, and its entries: ids of keys, and above the leaves those of children.
struct Made {
    oid: u64,
    level: u16,
    totals: Option<Totals>,
    entries: &'static [(u64, u64)],
}

const TOTALS: Totals = Totals {
    keys: 3,
    nodes: 6,
    longest_key: 16,
    longest_value: 16,
};

const SMALL: Totals = Totals {
    keys: 1,
    nodes: 2,
    ..TOTALS
};

macro_rules! nodes {
    ($($oid:expr, $level:expr, $totals:expr, $entries:expr;)*) => {
        &[$(Made { oid: $oid, level: $level, totals: $totals, entries: $entries }),*]
    };
}

// Trees of which each id is a block. That of block 6 has the nodes in blocks 4 and 5 below its root, and the leaves in blocks 1, 2 and 3. The
// other roots stand above leaves: that of block 7 names a block outside the container, that of block 8 the leaf of block 1 by a greater key,
// that of block 9 two leaves where it counts one, and that of block 10 the leaf of block 1 as it is.
const NODES: &[Made] = nodes! {
    1, 0, None, &[(1, 0)];
    2, 0, None, &[(2, 0)];
    3, 0, None, &[(3, 0)];
    4, 1, None, &[(1, 1), (2, 2)];
    5, 1, None, &[(3, 3)];
    6, 2, Some(TOTALS), &[(1, 4), (3, 5)];
    7, 1, Some(SMALL), &[(1, 11)];
    8, 1, Some(SMALL), &[(2, 1)];
    9, 1, Some(SMALL), &[(1, 1), (2, 2)];
    10, 1, Some(SMALL), &[(1, 1)];
};

// The key of an id at transaction 1.
fn key(alloc: Global, id: u64) -> Result<Vec<u8>, AllocError> {
    let mut key = Vec::from_slice(alloc, &id.to_le_bytes())?;
    key.extend_from_slice(&[1, 0, 0, 0, 0, 0, 0, 0])?;
    Ok(key)
}

// The value of an entry: 16 zeros in a leaf, and the id of a child above.
fn value(alloc: Global, level: u16, child: u64) -> Result<Vec<u8>, AllocError> {
    if level == 0 {
        vec![in alloc; 0u8; 16]
    } else {
        Vec::from_slice(alloc, &child.to_le_bytes())
    }
}

fn items(alloc: Global, made: &Made) -> Result<Vec<Item>, AllocError> {
    let mut items: Vec<Item> = Vec::new(alloc);
    for (id, child) in made.entries {
        items.push((key(alloc, *id)?, value(alloc, made.level, *child)?))?;
    }
    Ok(items)
}

fn block(alloc: Global, made: &Made) -> Result<Vec<u8>, AllocError> {
    let head = NodeHead {
        oid: made.oid,
        xid: 1,
        level: made.level,
        totals: made.totals,
    };
    let items = items(alloc, made)?;
    node(alloc, 4096, &Tree::OBJECT_MAP, &head, &items)?.ok_or(AllocError)
}

// Those trees; block 0 has nothing.
fn tall_image(alloc: Global) -> Result<Vec<u8>, AllocError> {
    let mut image = vec![in alloc; 0u8; 4096]?;
    for made in NODES {
        image.extend_from_slice(&block(alloc, made)?)?;
    }
    image.resize(45056, 0)?;
    Ok(image)
}

const SITE: Site = Site {
    block_size: 4096,
    blocks: 11,
    max_xid: 9,
};

const PHYSICAL: Physical = Physical { blocks: 11 };

// A source of that image.
fn source(rt: &impl Abort, alloc: Global) -> MemSource {
    let image = tall_image(alloc).ok().expect(rt, "memory");
    MemSource::new(image, Vec::new(alloc))
}

// The leaves of the tree of a root in that source.
fn leaves_below(alloc: Global, source: &mut MemSource, root: u64) -> Option<Leaves> {
    if source.size() != 45056 {
        return None;
    }
    walk_leaves::<OmapKey, MemSource, Physical, Leaves>(
        alloc,
        source,
        &PHYSICAL,
        &SITE,
        root,
        Leaves(Vec::new(alloc)),
    )
    .unwrap_or(None)
}

// The leaves of the tree of block 6.
const THREE_LEAVES: &[Leaf] = &[
    Leaf { oid: 1, block: 1 },
    Leaf { oid: 2, block: 2 },
    Leaf { oid: 3, block: 3 },
];

// Whether the leaves of that tree are taken by the nodes above them.
fn takes_three(alloc: Global, source: &mut MemSource) -> bool {
    match leaves_below(alloc, source, 6) {
        Some(leaves) => leaves.0.as_slice() == THREE_LEAVES && source.read_count() == 3,
        None => false,
    }
}

// Blocks, and whether they are roots of whole trees.
const WHOLE: &[(u64, bool)] = &[(10, true), (1, false), (7, false), (8, false), (9, false)];

#[test]
fn leaves_are_taken_by_the_nodes_above_them_of_whole_trees_alone(rt: HostRuntime) {
    let mut source = source(&rt, rt.alloc());
    assert!(rt; takes_three(rt.alloc(), &mut source));
    for (root, whole) in WHOLE {
        assert!(rt;
            leaves_below(rt.alloc(), &mut source, *root).is_some() == *whole,
            "root {root}"
        );
    }
    drop(source);
}
