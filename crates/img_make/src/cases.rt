// What the cases of several crates have in common: samples, the blocks of the first volume of each, and changes.

use crate::Sample;
use crate::images::{Base, Change, Record};
use crate::places::POOL_QUEUE;
use apfs_layout::node::{FLAGS, INFO_LEN, NODE_COUNT, NODE_SIZE};
use apfs_layout::object::{OID, TYPE, XID};
use apfs_layout::volume::EXTENTS_ROOT;

/// The sample with a file, that with two snapshots, that with two files which share their data, and that with a jumpstart.
pub const HELLO: Base = (Sample::H, &[], &[]);

pub const SNAPSHOTS: Base = (Sample::V, &[], &[]);

pub const SHARED: Base = (Sample::C, &[], &[]);

pub const JUMP: Base = (Sample::J, &[], &[]);

/// The small container, whose main queue has block 60.
pub const QUEUED: Base = (Sample::S, &[], &[(60, 1)]);

/// Of the first volume: the superblock, and the roots of its map, of its files and of its extent references.
pub const SUPER: usize = 51;

pub const MAP_ROOT: usize = 53;

pub const FILES: usize = 54;

pub const EXTENTS: usize = 55;

/// Where the values of a root end.
pub const END: usize = 4096 - INFO_LEN;

/// Where the space manager has the index of the first block of the pool's current bitmap.
pub const RING_INDEX: usize = 2520;

/// The volume's extent references are an empty tree in a block of the pool: its oid, its transaction, its kind and subtype, the flags
/// of a root at level 0, and the size and the number of its nodes. No block has the old tree.
pub const TREE_IN_THE_POOL: &[Change] = &[
    Change::Put(46, OID, &[46]),
    Change::Put(46, XID, &[1]),
    Change::Put(46, TYPE, &[2, 0, 0, 0x40, 0x0f]),
    Change::Put(46, FLAGS, &[3]),
    Change::Put(46, END + NODE_SIZE + 1, &[0x10]),
    Change::Put(46, END + NODE_COUNT, &[1]),
    Change::Put(SUPER, EXTENTS_ROOT, &[46]),
    Change::Free(EXTENTS),
];

/// The same in a block that nothing else has.
pub const TREE_PAST_THE_POOL: &[Change] = &[
    Change::Put(60, OID, &[60]),
    Change::Put(60, XID, &[1]),
    Change::Put(60, TYPE, &[2, 0, 0, 0x40, 0x0f]),
    Change::Put(60, FLAGS, &[3]),
    Change::Put(60, END + NODE_SIZE + 1, &[0x10]),
    Change::Put(60, END + NODE_COUNT, &[1]),
    Change::Put(SUPER, EXTENTS_ROOT, &[60]),
    Change::Free(EXTENTS),
    Change::Mark(60),
];

/// Block 45 of the pool waits in the pool's queue.
pub const WAITING: Change = Change::Records(POOL_QUEUE, &[([1, 45], &[1])]);

/// The flags of a record of an object map with the size above them, of one that is kept and of one that is marked deleted.
pub const KEPT: u64 = 4096 << 32;

pub const DELETED: u64 = KEPT + 1;

/// The records of the map of the volume with two snapshots, and a further one of 1031 at transaction 3, which no view asks for.
pub const WITH_AN_IDLE: &[Record] = &[
    ([1028, 1], &[KEPT, 54]),
    ([1031, 1], &[KEPT, 57]),
    ([1031, 3], &[KEPT, 70]),
    ([1031, 4], &[KEPT, 58]),
    ([1032, 1], &[KEPT, 59]),
];

/// The same, and the further one is marked deleted.
pub const WITH_A_DELETED: &[Record] = &[
    ([1028, 1], &[KEPT, 54]),
    ([1031, 1], &[KEPT, 57]),
    ([1031, 3], &[DELETED, 70]),
    ([1031, 4], &[KEPT, 58]),
    ([1032, 1], &[KEPT, 59]),
];

/// The records of the container's map, and a further one of a volume that no slot names.
pub const WITH_AN_IDLE_VOLUME: &[Record] = &[([1026, 1], &[KEPT, 51]), ([1099, 1], &[KEPT, 70])];
