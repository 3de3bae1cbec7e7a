// What is wrong with a container, by the texts of the table of faults.

use apfs_model::Bytes;
use fs_record::RecFault;
use obj_base::Within;
use reach_rules::Why;
use view_rules::{IdAt, NamedAt};

/// What is wrong with a container.
#[derive(Drop)]
pub enum Fault {
    /// Block 0 isn't right.
    BlockZero,
    /// The image has fewer whole blocks than block 0 tells of.
    Truncated {
        have: u64,
        need: u64,
    },
    /// No candidate is valid.
    NoCheckpoint,
    /// A named object in this block fails a test.
    Unsound {
        block: u64,
        why: Why,
    },
    /// An id that is named doesn't resolve.
    Unnamed {
        within: Within,
        oid: u64,
        xid: u64,
    },
    /// An id is named by two.
    NamedTwice {
        within: Within,
        oid: u64,
        xid: u64,
    },
    /// Two owners have the block.
    OwnedTwice {
        block: u64,
    },
    /// An owner begins at the block and leaves the container.
    Outside {
        block: u64,
    },
    /// Nothing that is named resolves to the record of an object map.
    UnusedMapping {
        within: Within,
        oid: u64,
        xid: u64,
    },
    /// The block is marked and has no owner.
    Leaked {
        block: u64,
    },
    /// The block has an owner and isn't marked.
    Missing {
        block: u64,
    },
    /// The block of the pool is marked and has no owner.
    PoolLeaked {
        block: u64,
    },
    /// The block of the pool has an owner and isn't marked.
    PoolMissing {
        block: u64,
    },
    /// The space manager's sizes and numbers aren't those of the container.
    SpaceGeometry,
    /// The index or the count of a chunk-info address block isn't what its place says.
    SpaceCab {
        index: u32,
    },
    /// The index or the count of a chunk-info block isn't what its place says.
    SpaceCib {
        index: u32,
    },
    /// The address or the blocks of a chunk aren't what its place says.
    SpaceIndex {
        chunk: u64,
    },
    /// A block that tells of chunks, or a bitmap, isn't in the pool, or isn't in the container.
    SpacePlace {
        block: u64,
    },
    /// A chunk's free count isn't the number of its free blocks.
    SpaceFreeCount {
        chunk: u64,
    },
    /// The device's free count isn't the sum of the chunks'.
    SpaceFreeTotal,
    /// The pool's bitmap is too small, or the pool, its ring or its indexes leave what they lie in.
    PoolCount,
    /// An index of the pool's bitmap is outside the ring, or equals an earlier one.
    PoolIndex {
        at: u32,
    },
    /// An entry of the pool's queue begins at the block and leaves the pool.
    PoolPlace {
        block: u64,
    },
    /// A record of a snapshot, or of a snapshot's name, of the volume in this slot can't be read.
    SnapRecord {
        slot: u32,
    },
    /// The volume in this slot doesn't have as many snapshots as it counts.
    SnapCount {
        slot: u32,
    },
    /// The snapshots and their names don't agree in the volume in this slot.
    SnapName {
        slot: u32,
    },
    /// The snapshots of the volume in this slot aren't those of its object map.
    OmapSnaps {
        slot: u32,
    },
    /// In the tree whose root stands in this block the item of this number is out of order.
    TreeOrder {
        root: u64,
        item: u64,
    },
    /// The numbers of keys and nodes of the root in this block are wrong.
    TreeCounts {
        root: u64,
    },
    /// The item of this number of a view's Line is out of order.
    Order {
        slot: u32,
        xid: u64,
        item: u64,
    },
    /// The numbers of keys and nodes of a view's root are wrong.
    Counts {
        slot: u32,
        xid: u64,
    },
    /// In the tree whose root stands in this block the value of the item of this number is too short.
    TreeRecord {
        root: u64,
        item: u64,
    },
    /// The record of the item of this number of a view's Line can't be read.
    Record {
        slot: u32,
        xid: u64,
        item: u64,
        why: RecFault,
    },
    /// Two entries of a directory, or two attributes of a file, have this name.
    DupName(NamedAt),
    /// The name of an entry is ASCII, and its key has another hash.
    Hash(NamedAt),
    /// No directory has the id of an entry's directory.
    NoParent(NamedAt),
    /// The file of an entry has no inode; without a name, inode 2 isn't there, or it isn't a directory.
    NoInode {
        slot: u32,
        xid: u64,
        id: u64,
        name: Option<Bytes>,
    },
    /// An entry has another kind than the inode of its file.
    KindMismatch(NamedAt),
    /// A directory hasn't exactly one entry, that of its parent id; or inode 2 has an entry.
    DirNames(IdAt),
    /// From a directory parent ids never lead to an id below 16.
    Unreached(IdAt),
    /// A directory has another number of entries than its inode says.
    Children(IdAt),
    /// A regular file has another number of entries than its inode says.
    Links(IdAt),
    /// An entry, a link or a map of a sibling lacks its fellow; or a file has two entries and one lacks a sibling.
    SiblingLost(IdAt),
    /// An extent has a wrong length or address, or overlaps another.
    ExtentOrder(IdAt),
    /// An extent leaves the container.
    ExtentPlace(IdAt),
    /// An extent isn't covered by the new ranges of the volume and its snapshots.
    ExtentUncovered(IdAt),
    /// A symbolic link has no target.
    LinkTarget(IdAt),
    /// A stream is too large.
    Stream(IdAt),
    /// An attribute's id has no inode.
    AttrOwner(IdAt),
    /// The name of an entry isn't ASCII, and its key has another hash. Under Strict alone.
    NameHash(NamedAt),
    /// No extent of any view reaches these blocks of new ranges. Under Strict alone.
    DataUnreached {
        slot: u32,
        block: u64,
        length: u64,
    },
    /// The new range from this block on stores another count than the number of streams that touch it. Under Strict alone.
    DataCount {
        slot: u32,
        block: u64,
        stored: i32,
        streams: u64,
    },
}
