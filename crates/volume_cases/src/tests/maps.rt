// Maps in small containers that are written here.

mod image;

use blk_source::MemSource;
use bt_cursor::{Namer, WalkFault};
use image::{Entry, Map, Node, map_image};
use img_edit::node::Tree;
use img_make::table;
use obj_base::{Feature, HeadFault, Site, Stop};
use omap_map::{At, Omap, OmapFault, OmapRecord, Place};
use std::alloc::{AllocError, Global};

const SITE: Site = Site {
    block_size: 4096,
    blocks: 8,
    max_xid: 9,
};

const MAP: Map = Map {
    snap_count: 0,
    tree: 2,
    snap_tree: 0,
    revert: 0,
};

// The records of (7, 3), (7, 5) marked deleted, and (9, 2).
const THREE: &[Entry] = &[(7, 3, 0, 5), (7, 5, 1, 6), (9, 2, 0, 7)];

// A node of records, of a level, with the totals that a root has and its entries.
macro_rules! records {
    ($level:expr, $root:expr, $entries:expr) => {
        Node {
            tree: Tree::OBJECT_MAP,
            level: $level,
            root: $root,
            entries: $entries,
        }
    };
}

// The root of a tree of these records alone.
const WHOLE: Node = records!(0, Some((3, 1)), THREE);

// Loads the map in block 1, over a source of which a read fails, if any does.
fn load(alloc: Global, image: Vec<u8>, fails: u64) -> Result<Omap, Stop<OmapFault>> {
    if image.len() < 32768 {
        return Err(Stop::NoMemory);
    }
    let mut src = MemSource::new(image, vec![in alloc; fails]?);
    Omap::load(alloc, &mut src, 1, &SITE)
}

// A block that is said to be of a transaction.
macro_rules! place {
    ($block:expr, $xid:expr) => {
        Some(Place {
            block: $block,
            xid: $xid,
            flags: 0,
            size: 4096,
        })
    };
}

// An object, a transaction, and where the object is.
const PLACES: &[(u64, u64, Option<Place>)] = table! {
    7, 4, place!(5, 3);
    7, 5, None;
    7, 2, None;
    8, 9, None;
    9, 9, place!(7, 2);
};

fn has_places(omap: &Omap) -> bool {
    for (oid, xid, place) in PLACES {
        if omap.resolve(*oid, *xid) != *place {
            return false;
        }
    }
    true
}

// The record of (9, 2).
const LAST: OmapRecord = OmapRecord {
    oid: 9,
    xid: 2,
    flags: 0,
    size: 4096,
    paddr: 7,
};

// The block of the object 9, in a container of so many blocks.
fn block_of_nine(omap: &Omap, blocks: u64) -> Option<u64> {
    let at = At {
        omap,
        xid: 9,
        blocks,
    };
    at.block(9)
}

const LAST_OF_ALL: Option<&OmapRecord> = Some(&LAST);

fn has_nine(omap: &Omap) -> bool {
    omap.records().last() == LAST_OF_ALL
        && omap.record(9, 9) == Some(LAST)
        && (
            omap.records().len(),
            block_of_nine(omap, 8),
            block_of_nine(omap, 7),
        ) == (3, Some(7), None)
}

fn is_resolved(alloc: Global) -> Result<bool, Stop<OmapFault>> {
    let omap = load(alloc, map_image(alloc, MAP, &[WHOLE])?, 0)?;
    let is_right = has_places(&omap) && has_nine(&omap);
    drop(omap);
    Ok(is_right)
}

// A map with two snapshots, whose tree is in block 5.
const WITH_SNAPSHOTS: Map = Map {
    snap_count: 2,
    snap_tree: 5,
    ..MAP
};

// The root of the snapshots.
const SNAPSHOTS: Node = Node {
    tree: Tree::MAP_SNAPSHOTS,
    level: 0,
    root: Some((2, 1)),
    entries: &[(3, 0, 0, 0), (5, 0, 2, 0)],
};

// A root of records, its two children, and the snapshots.
const TWO_LEVELS: &[Node] = &[
    records!(1, Some((3, 3)), &[(7, 3, 0, 3), (9, 2, 0, 4)]),
    records!(0, None, &[(7, 3, 0, 5), (7, 5, 1, 6)]),
    records!(0, None, &[(9, 2, 0, 7)]),
    SNAPSHOTS,
];

const SNAPSHOT_STATES: &[(u64, u32)] = &[(3, 0), (5, 2)];

fn has_snapshots(omap: &Omap) -> bool {
    (
        omap.snap_count(),
        omap.block(),
        omap.tree(),
        omap.snap_tree(),
    ) == (2, 1, 2, 5)
        && (omap.steps().len(), omap.snap_steps().len()) == (2, 0)
        && omap.snapshots() == SNAPSHOT_STATES
}

fn is_of_two_levels(alloc: Global) -> Result<bool, Stop<OmapFault>> {
    let omap = load(alloc, map_image(alloc, WITH_SNAPSHOTS, TWO_LEVELS)?, 0)?;
    let is_right = has_places(&omap) && has_snapshots(&omap);
    drop(omap);
    Ok(is_right)
}

#[test]
fn maps_of_one_level_and_of_two_with_snapshots(rt: HostRuntime) {
    assert!(rt; is_resolved(rt.alloc()) == Ok(true));
    assert!(rt; is_of_two_levels(rt.alloc()) == Ok(true));
}

// A fault of the tree with this root.
macro_rules! tree {
    ($root:expr, $why:expr) => {
        Some(Stop::Found(OmapFault::Tree {
            root: $root,
            why: $why,
        }))
    };
}

// Maps without a tree of records, with a pending revert, and with a tree of snapshots past the last block.
const NO_TREE: Map = Map { tree: 0, ..MAP };

const REVERTING: Map = Map { revert: 4, ..MAP };

const SNAPPED: Map = Map {
    snap_tree: 8,
    ..MAP
};

// A map, the nodes after it, the number of the read that fails, if any does, and what stops it.
type Stopped = (Map, &'static [Node], u64, Option<Stop<OmapFault>>);

const STOPS: &[Stopped] = table! {
    NO_TREE, &[WHOLE], 0, tree!(0, WalkFault::Unnamed { oid: 0 });
    REVERTING, &[], 0, Some(Stop::Unsupported { feature: Feature::Revert, block: 1 });
    MAP, &[records!(0, Some((2, 1)), THREE)], 0, tree!(2, WalkFault::Counts);
    MAP, &[records!(0, Some((2, 1)), &[(9, 2, 0, 7), (7, 3, 0, 5)])], 0, tree!(2, WalkFault::Order { item: 1 });
    MAP, &[records!(0, Some((2, 1)), &[(7, 3, 0, 5), (7, 3, 0, 6)])], 0, tree!(2, WalkFault::Order { item: 1 });
    SNAPPED, &[WHOLE], 0, tree!(8, WalkFault::Unnamed { oid: 8 });
    MAP, &[WHOLE], 2, Some(Stop::ReadFault);
};

fn is_stopped(alloc: Global, row: &Stopped) -> Result<bool, AllocError> {
    let image = map_image(alloc, row.0, row.1)?;
    Ok(load(alloc, image, row.2).err() == row.3)
}

#[test]
fn what_stops_a_map(rt: HostRuntime) {
    for (i, row) in STOPS.iter().enumerate() {
        assert!(rt; is_stopped(rt.alloc(), row) == Ok(true), "row {i}");
    }
}

// Block 1 is blank.
const BLANK: Stop<OmapFault> = Stop::Found(OmapFault::Head {
    block: 1,
    why: HeadFault::BadSum,
});

#[test]
fn a_map_that_is_no_map(rt: HostRuntime) {
    let alloc = rt.alloc();
    let blank = vec![in alloc; 0u8; 32768].ok().expect(&rt, "memory");
    assert!(rt; load(alloc, blank, 0).err() == Some(BLANK));
}
