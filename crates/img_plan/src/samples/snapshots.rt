// An empty file whose name is `old` before transaction 4, and `new` from it on and now: with the snapshots `s2` and `s4`,
// or with one at each transaction from 1 to 8.

use super::common::{SMALL, volume};
use crate::files::{FileTree, ROOT};
use crate::plan::{Leaf, Version, VolPlan};
use crate::records::{InodePlan, Item};
use fs_name::Names;
use std::alloc::{AllocError, Global};

// The two leaves, of which the second one holds the file's inode alone.
const FIRST_LEAF: u64 = 1031;

const SECOND_LEAF: u64 = 1032;

// A transaction, the snapshot that keeps it, and the file's name then.
pub(super) type Row = (u64, Option<&'static [u8]>, &'static str);

// Two snapshots, between which the file was renamed.
pub(super) const TWO: &[Row] = &[
    (1, None, "old"),
    (2, Some(b"s2"), "old"),
    (4, Some(b"s4"), "new"),
];

// Eight snapshots of a volume, whose tree has four nodes in all.
pub(super) const EIGHT: &[Row] = &[
    (1, Some(b"s1"), "old"),
    (2, Some(b"s2"), "old"),
    (3, Some(b"s3"), "old"),
    (4, Some(b"s4"), "new"),
    (5, Some(b"s5"), "new"),
    (6, Some(b"s6"), "new"),
    (7, Some(b"s7"), "new"),
    (8, Some(b"s8"), "new"),
];

// The records of a tree in which the file has a name.
fn items(alloc: Global, name: &str) -> Result<Vec<Item>, AllocError> {
    let mut tree = FileTree::new(alloc, Names::Folded)?;
    tree.add(alloc, InodePlan::file(16, ROOT), name)?;
    tree.items(alloc)
}

// Records in two leaves, of which the second one has the last record.
fn leaves(alloc: Global, mut items: Vec<Item>) -> Result<Vec<Leaf>, AllocError> {
    let mut last = Vec::new(alloc);
    if let Some(inode) = items.pop() {
        last.push(inode)?;
    }
    let first = Leaf {
        oid: FIRST_LEAF,
        items,
    };
    let second = Leaf {
        oid: SECOND_LEAF,
        items: last,
    };
    Ok(vec![in alloc; first, second]?)
}

// The tree of a transaction.
fn version(alloc: Global, row: &Row) -> Result<Version, AllocError> {
    let snapshot = match row.1 {
        None => None,
        Some(name) => Some(name.to_vec(alloc)?),
    };
    Ok(Version {
        xid: row.0,
        snapshot,
        leaves: leaves(alloc, items(alloc, row.2)?)?,
    })
}

// The volume with these transactions.
pub(super) fn volume_with(alloc: Global, rows: &[Row]) -> Result<VolPlan, AllocError> {
    let mut versions = Vec::new(alloc);
    for row in rows.iter() {
        versions.push(version(alloc, row)?)?;
    }
    volume(alloc, &SMALL, versions, &[], &[])
}
