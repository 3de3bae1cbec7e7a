// Objects that aren't sound, ids that don't resolve or are named twice, records that nothing uses, and trees out of order.

use super::{Case, Numbers, SMALL_NUMBERS, assert_cases, sum};
use apfs_layout::container::{FS_OID, REAPER_OID};
use apfs_layout::jumpstart;
use apfs_layout::node::{FLAGS, KEY_COUNT, TABLE};
use apfs_layout::object::{SUBTYPE, SUM, TYPE};
use apfs_layout::reaping::REAPER_HEAD;
use apfs_layout::space_manager::MAIN_QUEUE_TREE;
use apfs_layout::volume::EXTENTS_ROOT;
use bt_node::NodeFault;
use img_make::Change::*;
use img_make::cases::{
    DELETED, END, EXTENTS, FILES, JUMP, KEPT, MAP_ROOT, SHARED, SNAPSHOTS, SUPER, WITH_A_DELETED,
    WITH_AN_IDLE, WITH_AN_IDLE_VOLUME,
};
use img_make::places::{CONTAINER_MAP_ROOT, MAIN_QUEUE, REAPER, SPACE_MANAGER, SUPERBLOCK};
use img_make::{Change, SMALL, Sample, image, table};
use obj_base::{HeadFault, Stop, Within};
use reach_rules::ReachFault::*;
use reach_rules::Why;
use std::test::Fail;

const UNSOUND: &[Case] = table! {
    SMALL, &[Bare(EXTENTS, 4000, &[1])], Err(Unsound { block: 55, why: Why::Node(NodeFault::Head(HeadFault::BadSum)) });
    SMALL, &[Put(EXTENTS, TYPE, &[3])], Err(Unsound { block: 55, why: Why::Node(NodeFault::Head(HeadFault::BadKind)) });
    SMALL, &[Put(FILES, SUBTYPE, &[0x0f])], Err(Unsound { block: 54, why: Why::Node(NodeFault::Head(HeadFault::BadSubtype)) });
    SMALL, &[Bare(FILES, SUM, &[0, 0, 0, 0, 0, 0, 0, 0])], Err(Unsound { block: 54, why: Why::Node(NodeFault::Head(HeadFault::BadSum)) });
    SMALL, &[Put(EXTENTS, FLAGS, &[2])], Err(Unsound { block: 55, why: Why::Node(NodeFault::Flags) });
    // A leaf of all three views, and the extent references of a snapshot.
    SNAPSHOTS, &[Put(59, SUBTYPE, &[0x0f])], Err(Unsound { block: 59, why: Why::Node(NodeFault::Head(HeadFault::BadSubtype)) });
    SNAPSHOTS, &[Put(61, TYPE, &[3])], Err(Unsound { block: 61, why: Why::Node(NodeFault::Head(HeadFault::BadKind)) });
    JUMP, &[Put(57, jumpstart::MAGIC, &[0])], Err(Unsound { block: 57, why: Why::Magic });
};

#[test]
fn objects_that_are_not_sound(rt: HostRuntime) -> Result<(), Fail> {
    assert_cases(&rt, rt.alloc(), UNSOUND)
}

// The ids 1099, which nothing has, 1029, which the pool's queue has, and 1026, which the first volume has.
const NAMED: &[Case] = table! {
    SMALL, &[Put(SUPER, EXTENTS_ROOT, &[0, 1])], Err(Unnamed { within: Within::Physical, oid: 256, xid: 1 });
    SMALL, &[Put(SUPERBLOCK, REAPER_OID, &[0x4b, 0x04])], Err(Unnamed { within: Within::Ephemeral, oid: 1099, xid: 1 });
    SMALL, &[Put(REAPER, REAPER_HEAD, &[0x4b, 0x04])], Err(Unnamed { within: Within::Ephemeral, oid: 1099, xid: 1 });
    // The record of the root of the files is marked deleted.
    SMALL, &[Put(MAP_ROOT, END - 16, &[1])], Err(Unnamed { within: Within::Volume(0), oid: 1028, xid: 1 });
    SMALL, &[Put(SUPERBLOCK, FS_OID + 8, &[0x02, 0x04])], Err(NamedTwice { within: Within::Container, oid: 1026, xid: 1 });
    SMALL, &[Put(SPACE_MANAGER, MAIN_QUEUE_TREE, &[0x05, 0x04])], Err(NamedTwice { within: Within::Ephemeral, oid: 1029, xid: 1 });
    // No reaper and no queue are no fault.
    SMALL, &[Put(SUPERBLOCK, REAPER_OID, &[0, 0])], Ok(Numbers { objects: 13, ..SMALL_NUMBERS });
    SMALL, &[Put(SPACE_MANAGER, MAIN_QUEUE_TREE, &[0, 0])], Ok(Numbers { objects: 13, ..SMALL_NUMBERS });
};

#[test]
fn ids(rt: HostRuntime) -> Result<(), Fail> {
    assert_cases(&rt, rt.alloc(), NAMED)
}

const UNUSED: &[Case] = table! {
    SNAPSHOTS, &[Records(MAP_ROOT, WITH_AN_IDLE)], Err(UnusedMapping { within: Within::Volume(0), oid: 1031, xid: 3 });
    SNAPSHOTS, &[Records(MAP_ROOT, WITH_A_DELETED)], Ok(Numbers { objects: 22, owned: 65 });
    SMALL, &[Records(CONTAINER_MAP_ROOT, WITH_AN_IDLE_VOLUME)], Err(UnusedMapping { within: Within::Container, oid: 1099, xid: 1 });
};

#[test]
fn records_that_nothing_uses(rt: HostRuntime) -> Result<(), Fail> {
    assert_cases(&rt, rt.alloc(), UNUSED)
}

// Both entries of the root of the files name 1031, and the record of 1032 is marked deleted.
const TWICE: &[Change] = &[
    Put(FILES, END - 16, &[0x07, 0x04]),
    Records(
        MAP_ROOT,
        &[
            ([1028, 1], &[KEPT, 54]),
            ([1031, 1], &[KEPT, 57]),
            ([1031, 4], &[KEPT, 58]),
            ([1032, 1], &[DELETED, 59]),
        ],
    ),
];

// It is so in each of the three views, whose transactions these are.
const XIDS: [u64; 3] = [2, 4, 5];

#[test]
fn a_leaf_that_is_named_twice(rt: HostRuntime) -> Result<(), Fail> {
    let alloc = rt.alloc();
    let found = sum(alloc, image(alloc, &SNAPSHOTS, TWICE)?)?;
    let Err(Stop::Found(NamedTwice { within, oid, xid })) = found else {
        panic!(rt; "another answer");
    };
    assert!(rt;
        (within, oid) == (Within::Volume(0), 1031) && XIDS.contains(&xid),
        "{xid}"
    );
    Ok(())
}

const TREES: &[Case] = table! {
    (Sample::C, &[(58, 1), (57, 1)], &[]), &[], Err(Tree { root: 55, item: Some(1) });
    SMALL, &[Put(EXTENTS, END + KEY_COUNT, &[1])], Err(Tree { root: 55, item: None });
    SMALL, &[Put(MAIN_QUEUE, END + KEY_COUNT, &[1])], Err(Tree { root: 12, item: None });
    // The length of the only value, in the table.
    SHARED, &[Put(EXTENTS, TABLE + 6, &[19])], Err(Value { root: 55, item: 0 });
};

#[test]
fn trees(rt: HostRuntime) -> Result<(), Fail> {
    assert_cases(&rt, rt.alloc(), TREES)
}
