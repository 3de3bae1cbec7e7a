// Namings: who names an object, where, what is expected of it, and how its id is looked up.

use omap_map::OmapRecord;
use space_pool::Queue;

/// A view of a volume.
#[derive(Clone, Copy, PartialEq, Eq, PartialOrd, Ord)]
pub struct ViewAt {
    /// The volume's slot.
    pub slot: u32,
    /// The view's place among the volume's views, which is 0 for the live one.
    pub place: u64,
    /// The transaction at which ids are looked up.
    pub xid: u64,
    /// The block of the volume's object map.
    pub map: u64,
    /// Whether the names in keys are hashed.
    pub hashed: bool,
}

/// How an id is looked up.
#[derive(Clone, Copy, PartialEq, Eq, PartialOrd, Ord)]
pub enum LookUp {
    /// A physical one is a block.
    ByBlock,
    /// An ephemeral one stands in the checkpoint's mappings.
    ByMapping,
    /// A virtual one of the container stands in the container's object map.
    InContainer,
    /// A virtual one of a volume stands in the volume's object map, at the transaction of a view.
    InView(ViewAt),
}

/// An object.
#[derive(Clone, Copy, PartialEq, Eq, PartialOrd, Ord)]
pub enum Object {
    /// The newest superblock.
    Newest,
    /// A physical one, by its block.
    InBlock(u64),
    /// An ephemeral one, by its id.
    OfId(u64),
    /// A virtual one, by its record in the object map of a block.
    OfRecord(u64, OmapRecord),
}

/// Who names.
#[derive(Clone, Copy, PartialEq, Eq, PartialOrd, Ord)]
pub enum Namer {
    /// An object.
    Whole(Object),
    /// The record of the snapshot that a view is of.
    Kept(ViewAt),
}

/// The kinds of trees.
#[derive(Clone, Copy, PartialEq, Eq, PartialOrd, Ord)]
pub enum TreeKind {
    /// An object map's records.
    MapRecords,
    /// Its snapshots.
    MapSnapshots,
    ExtentRefs,
    SnapMetadata,
    FreeQueue(Queue),
    /// The files of a view, whose names are hashed or not.
    Files(bool),
}

/// What is expected of an object that is named.
#[derive(Clone, Copy, PartialEq, Eq, PartialOrd, Ord)]
pub enum Expected {
    SpaceManager,
    ContainerMap,
    ReaperObject,
    ReapList,
    Jumpstart,
    /// The volume of a slot.
    VolumeIn(u32),
    VolumeMap,
    ExtendedMetadata,
    /// The superblock of a view's snapshot.
    SnapshotSuper(ViewAt),
    /// The chunk-info address block of an index.
    AddressBlock(u64),
    /// The chunk-info block of an index.
    InfoBlock(u64),
    TreeRoot(TreeKind),
    /// A node of a tree at a level.
    TreeNode(TreeKind, u16),
}

/// A naming.
#[derive(Clone, Copy, PartialEq, Eq, PartialOrd, Ord)]
pub struct Naming {
    pub namer: Namer,
    /// The position in the namer: the byte of a field, or the number of a node's entry.
    pub at: u64,
    pub expected: Expected,
    pub how: LookUp,
    pub oid: u64,
}
