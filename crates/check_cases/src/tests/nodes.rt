// Ids that are named twice, records that nothing uses, nodes and records that can't be read, and the reaper.
use crate::tests::rows::Said::*;
use crate::tests::rows::Wrong::*;
use crate::tests::rows::{BOTH, Numbers, Row, SMALL_NUMBERS, SMALL_REPORT, Said, assert_rows};
use apfs_layout::container::{FS_OID, REAPER_OID};
use apfs_layout::key::{HASHED_NAME, LEN_AND_HASH};
use apfs_layout::node::{FLAGS, TABLE, VARIABLE_ENTRY_LEN};
use apfs_layout::reaping::REAPER_FLAGS;
use apfs_layout::space_manager::MAIN_QUEUE_TREE;
use bt_node::NodeFault;
use fs_record::RecFault;
use img_make::Change::*;
use img_make::cases::{
    END, EXTENTS, FILES, HELLO, MAP_ROOT, SHARED, SNAPSHOTS, WITH_A_DELETED, WITH_AN_IDLE,
    WITH_AN_IDLE_VOLUME,
};
use img_make::places::{CONTAINER_MAP_ROOT, REAPER, SPACE_MANAGER, SUPERBLOCK};
use img_make::{SMALL, table};
use obj_base::{Feature, Within};
use std::test::Fail;

// The first volume has the id 1026, and the pool's queue 1029.
const IDS: &[Row] = table! {
    "fault_named_twice_volume", SMALL, &[Put(SUPERBLOCK, FS_OID + 8, &[0x02, 0x04])], BOTH, Fault(NamedTwice(Within::Container, 1026, 1));
    "fault_named_twice_queue", SMALL, &[Put(SPACE_MANAGER, MAIN_QUEUE_TREE, &[0x05, 0x04])], BOTH, Fault(NamedTwice(Within::Ephemeral, 1029, 1));
    "clean_no_queue", SMALL, &[Put(SPACE_MANAGER, MAIN_QUEUE_TREE, &[0, 0])], BOTH, Clean(Numbers { objects: 13, ..SMALL_NUMBERS }, &[]);
    "fault_unused_mapping_files", SNAPSHOTS, &[Records(MAP_ROOT, WITH_AN_IDLE)], BOTH, Fault(UnusedMapping(Within::Volume(0), 1031, 3));
    "clean_deleted_mapping", SNAPSHOTS, &[Records(MAP_ROOT, WITH_A_DELETED)], BOTH,
        Clean(Numbers { xid: 5, views: 3, objects: 22, records: 18, used: 65, free: 191, ..SMALL_NUMBERS }, &[]);
    "fault_unused_mapping_volume", SMALL, &[Records(CONTAINER_MAP_ROOT, WITH_AN_IDLE_VOLUME)], BOTH, Fault(UnusedMapping(Within::Container, 1099, 1));
};

#[test]
fn ids_are_as_said(rt: HostRuntime) -> Result<(), Fail> {
    assert_rows(&rt, rt.alloc(), IDS)
}

// The reaper has flag 1, and one besides.
const REAPERS: &[Row] = table! {
    "feature_reaper", SMALL, &[Put(REAPER, REAPER_FLAGS, &[3])], BOTH, Said::Feature(Feature::Reaper, 10);
    "clean_reaper_other_flag", SMALL, &[Put(REAPER, REAPER_FLAGS, &[5])], BOTH, SMALL_REPORT;
    "clean_no_reaper", SMALL, &[Put(SUPERBLOCK, REAPER_OID, &[0, 0])], BOTH, Clean(Numbers { objects: 13, ..SMALL_NUMBERS }, &[]);
};

#[test]
fn reapers_are_as_said(rt: HostRuntime) -> Result<(), Fail> {
    assert_rows(&rt, rt.alloc(), REAPERS)
}

// Where the first key of the small container's files stands, behind the four entries of the table: that of the entry
// `private-dir`, whose name has 12 bytes with its zero.
const FIRST_KEY: usize = TABLE + 4 * VARIABLE_ENTRY_LEN;

// Where the extended fields of the file `hello.txt` stand: its value is the sixth from the end, of 140 bytes, of which 92 are
// fixed; before it are those of two entries, a directory, an entry and a directory.
const HELLO_FIELDS: usize = END - (18 + 18 + 92 + 18 + 92 + 140) + 92;

const READ: &[Row] = table! {
    // A leaf below a root of level 1 stands at level 1.
    "fault_node_level", SNAPSHOTS, &[Put(59, FLAGS, &[0, 0, 1])], BOTH, Fault(Unsound(59, NodeFault::Level));
    // The name is longer than its key.
    "fault_node_key", SMALL, &[Put(FILES, FIRST_KEY + LEN_AND_HASH, &[13])], BOTH, Fault(Unsound(54, NodeFault::Key));
    // The name has a zero in place of its first letter.
    "fault_record_name", SMALL, &[Put(FILES, FIRST_KEY + HASHED_NAME, &[0])], BOTH, Fault(Record(0, RecFault::Name));
    // The size of the only field goes past the value.
    "fault_record_fields", HELLO, &[Put(FILES, HELLO_FIELDS + 6, &[41])], BOTH, Fault(Record(5, RecFault::Fields));
    // The length of the only value, in the table.
    "fault_tree_record", SHARED, &[Put(EXTENTS, TABLE + 6, &[19])], BOTH, Fault(TreeRecord(55, 0));
};

#[test]
fn nodes_and_records_are_as_said(rt: HostRuntime) -> Result<(), Fail> {
    assert_rows(&rt, rt.alloc(), READ)
}
