// Views that share objects: sets of views that split and meet again. Nodes of three levels stand in free blocks of the
// sample, and the map has other records. What is wanted was worked out by hand.
use super::{MAP, eight, open};
use blk_source::{BlockSource, MemSource};
use img_edit::node::{Item, NodeHead, Totals, Tree, node};
use img_make::cases::{DELETED, KEPT, MAP_ROOT};
use img_make::{Change, Record, Sample, image, table, write};
use obj_base::{Stop, Within};
use omap_map::OmapRecord;
use reach_rules::ReachFault;
use reach_rules::ReachFault::{NamedTwice, Unnamed};
use std::alloc::{AllocError, Global};
use std::test::Fail;
use view_sweep::{Used, reach_views};

// A node of a tree of files: its block, its id, its level, and the ids of its children, or one item at level 0. At level 2 it is
// a root.
type Made = (usize, u64, u16, &'static [u64]);

const NODES: [Made; 12] = [
    (100, 2000, 2, &[2001]),
    (101, 2000, 2, &[2001, 2002]),
    (102, 2000, 2, &[2001]),
    (103, 2010, 2, &[2001]),
    (104, 2011, 2, &[2002]),
    (105, 2001, 1, &[2003, 2004]),
    (106, 2001, 1, &[2003]),
    (107, 2001, 1, &[2003, 2004]),
    (108, 2002, 1, &[2003]),
    (109, 2003, 0, &[0]),
    (110, 2004, 0, &[0]),
    (111, 2004, 0, &[0]),
];

// The kind of an inode's key, above its id.
const INODE: u64 = 3 << 60;

// The items of a node.
fn items_of(alloc: Global, children: &[u64]) -> Result<Vec<Item>, AllocError> {
    let mut items = Vec::new(alloc);
    for child in children.iter() {
        let key = (INODE | *child).to_le_bytes().to_vec(alloc)?;
        items.push((key, child.to_le_bytes().to_vec(alloc)?))?;
    }
    Ok(items)
}

// What a root tells of its tree.
const TOTALS: Totals = Totals {
    keys: 1,
    nodes: 1,
    longest_key: 8,
    longest_value: 8,
};

// Writes a node in its block.
fn put(alloc: Global, image: &mut [u8], made: &Made) -> Result<(), Fail> {
    let (block, oid, level, children) = *made;
    let items = items_of(alloc, children)?;
    let head = NodeHead {
        oid,
        xid: 1,
        level,
        totals: (level == 2).then_some(TOTALS),
    };
    let Some(bytes) = node(alloc, 4096, &Tree::FILE_SYSTEM, &head, &items)? else {
        return Err(Fail::from("the items have no room"));
    };
    if !write(image, 4096, block, 0, &bytes) {
        return Err(Fail::from("no such block"));
    }
    Ok(())
}

// A case: the records of the map, the roots of the views of even transactions and of odd ones, whether two volumes have the map
// and the views in turn, and what is wrong. Where nothing is, each record is used that isn't marked deleted.
type Case = (&'static [Record], [u64; 2], bool, Option<ReachFault>);

// What a sweep answers, and how many reads it takes.
#[derive(Drop)]
struct Swept {
    told: Result<Vec<Used>, Stop<ReachFault>>,
    reads: u64,
}

// The sweep of the eight views of a case.
fn sweep(alloc: Global, case: &Case) -> Result<Swept, Fail> {
    let (records, roots, in_turn, _) = *case;
    let base = (Sample::V2, [].as_slice(), [].as_slice());
    let mut bytes = image(alloc, &base, &[Change::Records(MAP_ROOT, records)])?;
    for made in NODES.iter() {
        put(alloc, &mut bytes, made)?;
    }
    let mut src = MemSource::new(bytes, Vec::new(alloc));
    let first = open(alloc, &mut src)?;
    let second = open(alloc, &mut src)?;
    let heads = eight(alloc, if in_turn { 2 } else { 1 }, roots)?;
    let volumes = [first.volume, second.volume];
    let before = src.read_count();
    let told = reach_views(alloc, &mut src, &second.site, &volumes, &heads);
    Ok(Swept {
        told,
        reads: src.read_count().saturating_sub(before),
    })
}

// A record of the map as it is used, where it isn't marked deleted.
fn used_of(record: &Record) -> Option<Used> {
    let ([oid, xid], value) = *record;
    let [flags, paddr] = *value else {
        return None;
    };
    let mapping = OmapRecord {
        oid,
        xid,
        flags: 0,
        size: 4096,
        paddr,
    };
    (flags == KEPT).then_some(Used { map: MAP, mapping })
}

// The records that are used where nothing is wrong.
fn wanted(alloc: Global, records: &[Record]) -> Result<Vec<Used>, AllocError> {
    records.iter().filter_map(used_of).collect(alloc)
}

// A child that differs in a middle snapshot alone.
const MIDDLE: &[Record] = &[
    ([2000, 1], &[KEPT, 100]),
    ([2001, 1], &[KEPT, 105]),
    ([2001, 4], &[KEPT, 106]),
    ([2001, 5], &[KEPT, 107]),
    ([2003, 1], &[KEPT, 109]),
    ([2004, 1], &[KEPT, 110]),
];

const CASES: &[Case] = table! {
    MIDDLE, [2000, 2000], false, None;
    // two volumes that share a map
    MIDDLE, [2000, 2000], true, None;
    // every second snapshot has another root over the same nodes
    &[([2000, 1], &[KEPT, 100]), ([2001, 1], &[KEPT, 105]), ([2003, 1], &[KEPT, 109]), ([2004, 1], &[KEPT, 110]), ([2010, 1], &[KEPT, 103])],
        [2000, 2010], false, None;
    // a leaf's record is marked deleted between two snapshots, where no node names it
    &[([2000, 1], &[KEPT, 100]), ([2001, 1], &[KEPT, 105]), ([2001, 3], &[KEPT, 106]), ([2001, 5], &[KEPT, 107]), ([2003, 1], &[KEPT, 109]),
        ([2004, 1], &[KEPT, 110]), ([2004, 3], &[DELETED, 0]), ([2004, 5], &[KEPT, 111])],
        [2000, 2000], false, None;
    // the last snapshot still names it
    &[([2000, 1], &[KEPT, 100]), ([2001, 1], &[KEPT, 105]), ([2003, 1], &[KEPT, 109]), ([2004, 1], &[KEPT, 110]), ([2004, 8], &[DELETED, 0])],
        [2000, 2000], false, Some(Unnamed { within: Within::Volume(0), oid: 2004, xid: 8 });
    // two parents name a leaf, each in the views of one root
    &[([2000, 1], &[KEPT, 100]), ([2001, 1], &[KEPT, 106]), ([2002, 1], &[KEPT, 108]), ([2003, 1], &[KEPT, 109]), ([2011, 1], &[KEPT, 104])],
        [2000, 2011], false, None;
    // both name it in one view alone, whose root names both
    &[([2000, 1], &[KEPT, 100]), ([2000, 5], &[KEPT, 101]), ([2000, 6], &[KEPT, 102]), ([2001, 1], &[KEPT, 106]), ([2002, 1], &[KEPT, 108]), ([2003, 1], &[KEPT, 109])],
        [2000, 2000], false, Some(NamedTwice { within: Within::Volume(0), oid: 2003, xid: 5 });
};

// Whether these records are used, in any order, and each was read once.
fn are_used(swept: &Swept, used: &[Used], wanted: &[Used]) -> bool {
    wanted.iter().all(|one| used.contains(one))
        && (used.len(), swept.reads) == (wanted.len(), wanted.len() as u64)
}

// Whether the sweep of a case answers what is said.
fn is_as_said(alloc: Global, case: &Case) -> Result<bool, Fail> {
    let swept = sweep(alloc, case)?;
    Ok(match (&swept.told, case.3) {
        (Ok(used), None) => are_used(&swept, used, &wanted(alloc, case.0)?),
        (Err(stop), Some(fault)) => *stop == Stop::Found(fault),
        _ => false,
    })
}

#[test]
fn sets_of_views_split_and_meet(rt: HostRuntime) -> Result<(), Fail> {
    for (number, case) in CASES.iter().enumerate() {
        assert!(rt; is_as_said(rt.alloc(), case)?, "case {number}");
    }
    Ok(())
}
