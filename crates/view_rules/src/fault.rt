// What is wrong in the file-system tree of a view.

use apfs_model::Bytes;
use bt_node::NodeFault;
use fs_record::RecFault;

/// An object in a view.
#[derive(Clone, Copy, PartialEq, Eq)]
pub struct IdAt {
    /// The volume's slot.
    pub slot: u32,
    /// The view's transaction.
    pub xid: u64,
    pub id: u64,
}

/// A name of an object in a view.
#[derive(PartialEq, Drop)]
pub struct NamedAt {
    /// The volume's slot.
    pub slot: u32,
    /// The view's transaction.
    pub xid: u64,
    pub id: u64,
    pub name: Bytes,
}

/// What is wrong in the file-system tree of a view, by its row in the table of faults.
#[derive(PartialEq, Drop)]
pub enum TreeFault {
    Unsound {
        block: u64,
        why: NodeFault,
    },
    Unnamed {
        slot: u32,
        oid: u64,
        xid: u64,
    },
    Order {
        slot: u32,
        xid: u64,
        item: u64,
    },
    Counts {
        slot: u32,
        xid: u64,
    },
    Record {
        slot: u32,
        xid: u64,
        item: u64,
        why: RecFault,
    },
    DupName(NamedAt),
    Hash(NamedAt),
    NoParent(NamedAt),
    NoInode {
        slot: u32,
        xid: u64,
        id: u64,
        name: Option<Bytes>,
    },
    KindMismatch(NamedAt),
    DirNames(IdAt),
    Unreached(IdAt),
    Children(IdAt),
    Links(IdAt),
    SiblingLost(IdAt),
    ExtentOrder(IdAt),
    ExtentPlace(IdAt),
    ExtentUncovered(IdAt),
    LinkTarget(IdAt),
    Stream(IdAt),
    AttrOwner(IdAt),
    NameHash(NamedAt),
}
