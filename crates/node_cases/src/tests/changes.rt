// Two views of one volume whose trees share leaves, each leaf in a block of its own.
use blk_source::{BlockSource, MemSource};
use bt_keys::FsPlainKey;
use fs_name::Names;
use img_edit::node::{Item, NodeHead, Tree, node};
use obj_base::{Site, Stop};
use std::alloc::{AllocError, Global};
use std::process::Abort;
use view_change::{Changed, Changing, KeptView, Leaf, LeafTaker};
use view_facts::Facts;

const SITE: Site = Site {
    block_size: 4096,
    blocks: 5,
    max_xid: 9,
};

// The number of a record's kind stands above the 60 bits of its id.
const KIND: u64 = 1 << 60;

const INODE: u64 = 3;

const SIBLING_MAP: u64 = 12;

// The records of a leaf: an inode for each of some ids, or a sibling map.
fn items(alloc: Global, kind: u64, ids: &[u64]) -> Result<Vec<Item>, AllocError> {
    let size = if kind == INODE { 92 } else { 8 };
    let mut items: Vec<Item> = Vec::new(alloc);
    for id in ids {
        let key = Vec::from_slice(alloc, &(*id | kind.wrapping_mul(KIND)).to_le_bytes())?;
        items.push((key, vec![in alloc; 0u8; size]?))?;
    }
    Ok(items)
}

const SEVEN: Leaf = Leaf { oid: 7, block: 1 };

const EIGHT: Leaf = Leaf { oid: 8, block: 2 };

const NEW_EIGHT: Leaf = Leaf { oid: 8, block: 3 };

const NINE: Leaf = Leaf { oid: 9, block: 4 };

// The leaves: the id of each, and what it has for some ids. The leaf 8 has two states.
const LEAVES: &[(u64, u64, &[u64])] = &[
    (7, SIBLING_MAP, &[1, 2, 3]),
    (8, SIBLING_MAP, &[4, 5]),
    (8, SIBLING_MAP, &[4, 6]),
    (9, INODE, &[9, 10]),
];

// Adds the block of a leaf with these records.
fn add_leaf(
    alloc: Global,
    image: &mut Vec<u8>,
    oid: u64,
    items: &[Item],
) -> Result<(), AllocError> {
    let head = NodeHead {
        oid,
        xid: 1,
        level: 0,
        totals: None,
    };
    match node(alloc, 4096, &Tree::FILE_SYSTEM, &head, items)? {
        Some(block) => image.extend_from_slice(&block),
        None => Err(AllocError),
    }
}

// Adds the blocks of all leaves.
fn add_leaves(alloc: Global, image: &mut Vec<u8>) -> Result<(), AllocError> {
    for (oid, kind, ids) in LEAVES {
        add_leaf(alloc, image, *oid, &items(alloc, *kind, ids)?)?;
    }
    image.resize(20480, 0)
}

// Block 0 has nothing, and the blocks from 1 on the leaves.
fn source(alloc: Global) -> Result<MemSource, AllocError> {
    let mut image = vec![in alloc; 0u8; 4096]?;
    add_leaves(alloc, &mut image)?;
    Ok(MemSource::new(image, Vec::new(alloc)))
}

// Whether all of some leaves are taken.
fn take_all(
    source: &mut MemSource,
    changing: &mut Changing,
    leaves: &[Leaf],
) -> Result<bool, Stop<()>> {
    LeafTaker::<FsPlainKey>::foresee(changing, leaves);
    for leaf in leaves {
        if source.size() != 20480
            || LeafTaker::<FsPlainKey>::take(changing, source, &SITE, *leaf)?.is_none()
        {
            return Ok(false);
        }
    }
    Ok(true)
}

// The view with some leaves, and what has changed in it.
fn changed(
    rt: &impl Abort,
    alloc: Global,
    source: &mut MemSource,
    before: KeptView,
    leaves: &[Leaf],
) -> Changed {
    let mut changing = Changing::new::<FsPlainKey>(alloc, before);
    assert!(rt; take_all(source, &mut changing, leaves) == Ok(true));
    changing.finish::<FsPlainKey>().ok().expect(rt, "a view")
}

// The ids of the siblings and of the inodes among some facts.
fn ids(alloc: Global, facts: &Facts) -> Result<Vec<u64>, AllocError> {
    let mut ids = Vec::new(alloc);
    for sibling in &facts.siblings {
        ids.push(sibling.id())?;
    }
    for inode in &facts.inodes {
        ids.push(inode.id())?;
    }
    Ok(ids)
}

// Whether some facts have these ids.
fn has_ids(alloc: Global, facts: &Facts, wanted: &[u64]) -> bool {
    match ids(alloc, facts) {
        Ok(ids) => ids.as_slice() == wanted,
        Err(_) => false,
    }
}

// The leaves of a view, its ids, those that are gone and have come since the view before if that was followed, whether its facts are in order, and how many reads were made till then.
struct View {
    leaves: &'static [Leaf],
    ids: &'static [u64],
    change: Option<(&'static [u64], &'static [u64])>,
    in_order: bool,
    reads: u64,
}

// The last one shares one leaf of two; the leaves of the third aren't those of a tree in order.
const VIEWS: &[View] = &[
    View {
        leaves: &[SEVEN, EIGHT, NINE],
        ids: &[1, 2, 3, 4, 5, 9, 10],
        change: None,
        in_order: true,
        reads: 3,
    },
    View {
        leaves: &[SEVEN, NEW_EIGHT, NINE],
        ids: &[1, 2, 3, 4, 6, 9, 10],
        change: Some((&[5], &[6])),
        in_order: true,
        reads: 4,
    },
    View {
        leaves: &[SEVEN, EIGHT, NEW_EIGHT, NINE],
        ids: &[1, 2, 3, 4, 5, 4, 6, 9, 10],
        change: Some((&[], &[4, 5])),
        in_order: false,
        reads: 5,
    },
    View {
        leaves: &[SEVEN, NINE],
        ids: &[1, 2, 3, 9, 10],
        change: Some((&[4, 5, 4, 6], &[])),
        in_order: true,
        reads: 5,
    },
    View {
        leaves: &[EIGHT],
        ids: &[4, 5],
        change: None,
        in_order: true,
        reads: 6,
    },
];

// Whether what is gone and has come is what a row says, if that was followed.
fn is_change(alloc: Global, changed: &Changed, view: &View) -> bool {
    match (&changed.change, view.change) {
        (Some(change), Some((gone, come))) => {
            has_ids(alloc, &change.gone, gone) && has_ids(alloc, &change.come, come)
        }
        (None, None) => true,
        _ => false,
    }
}

// Whether a view has what a row says.
fn is_view(alloc: Global, changed: &Changed, view: &View) -> bool {
    (changed.after.records(), changed.after.is_in_order()) == (view.ids.len() as u64, view.in_order)
        && has_ids(alloc, changed.after.facts(), view.ids)
        && is_change(alloc, changed, view)
}

// The view with the leaves of a row, after another.
fn view_after(
    rt: &impl Abort,
    alloc: Global,
    source: &mut MemSource,
    before: KeptView,
    view: &View,
) -> KeptView {
    let changed = changed(rt, alloc, source, before, view.leaves);
    assert!(rt; is_view(alloc, &changed, view) && source.read_count() == view.reads);
    changed.after
}

#[test]
fn facts_of_leaves_that_both_views_have_are_the_same(rt: HostRuntime) {
    let mut source = source(rt.alloc()).ok().expect(&rt, "memory");
    let mut before = KeptView::none::<FsPlainKey>(rt.alloc(), Names::Exact);
    for view in VIEWS {
        before = view_after(&rt, rt.alloc(), &mut source, before, view);
    }
}

// The names of a volume, and the leaves of a view: one outside the container, one in the block of another, and one whose keys have no hashes, where names are
// hashed.
const OUT_OF_PLACE: &[(Names, &[Leaf])] = &[
    (Names::Exact, &[Leaf { oid: 7, block: 5 }]),
    (Names::Exact, &[Leaf { oid: 7, block: 4 }]),
    (Names::Normal, &[SEVEN]),
];

// Whether all leaves of a first view are taken.
fn takes_first(
    alloc: Global,
    source: &mut MemSource,
    names: Names,
    leaves: &[Leaf],
) -> Result<bool, Stop<()>> {
    let none = KeptView::none::<FsPlainKey>(alloc, names);
    let mut changing = Changing::new::<FsPlainKey>(alloc, none);
    let taken = take_all(source, &mut changing, leaves);
    drop(changing);
    taken
}

#[test]
fn a_leaf_out_of_place_is_not_taken(rt: HostRuntime) {
    let mut source = source(rt.alloc()).ok().expect(&rt, "memory");
    for (i, (names, leaves)) in OUT_OF_PLACE.iter().enumerate() {
        let taken = takes_first(rt.alloc(), &mut source, *names, leaves);
        assert!(rt; taken == Ok(false), "leaf {i}");
    }
}
