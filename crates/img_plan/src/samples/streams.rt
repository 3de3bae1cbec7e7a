// Files with a stream.

use super::common::{Contents, Head, ROOT_OID, SMALL, one_version, volume};
use crate::files::{FileTree, ROOT};
use crate::plan::{NewRange, VolPlan};
use crate::records::InodePlan;
use std::alloc::{AllocError, Global};

// A file in the root: its size in bytes, and its extents as logical address and length in bytes and first block.
#[derive(Clone, Copy)]
pub(super) struct File {
    pub id: u64,
    pub name: &'static str,
    pub size: u64,
    pub extents: &'static [(u64, u64, u64)],
}

// A volume with files, whose records are in a leaf of an oid: the ranges that they own, and what these hold.
#[derive(Clone, Copy)]
pub(super) struct Files {
    pub head: Head,
    pub oid: u64,
    pub files: &'static [File],
    pub ranges: &'static [NewRange],
    pub contents: Contents,
}

// Block 57, which one stream has, and which two have.
const BLOCK: NewRange = NewRange {
    first: 57,
    length: 1,
    count: 1,
};

const SHARED_BLOCK: NewRange = NewRange {
    first: 57,
    length: 1,
    count: 2,
};

// The file `hello.txt` of five bytes in block 57.
pub(super) const HELLO: Files = Files {
    head: SMALL,
    oid: ROOT_OID,
    files: &[File {
        id: 16,
        name: "hello.txt",
        size: 5,
        extents: &[(0, 4096, 57)],
    }],
    ranges: &[BLOCK],
    contents: &[(57, b"hello")],
};

// The file `hole` of 5,000 bytes, of which the first 4,096 are a hole and the others are in block 57.
pub(super) const HOLE: Files = Files {
    head: SMALL,
    oid: ROOT_OID,
    files: &[File {
        id: 16,
        name: "hole",
        size: 5000,
        extents: &[(0, 4096, 0), (4096, 4096, 57)],
    }],
    ranges: &[BLOCK],
    contents: &[(57, &[b'A'; 4096])],
};

// Two files of 4,096 bytes, `a` and `b`, which have block 57 in common.
pub(super) const SHARED: Files = Files {
    head: SMALL,
    oid: ROOT_OID,
    files: &[
        File {
            id: 16,
            name: "a",
            size: 4096,
            extents: &[(0, 4096, 57)],
        },
        File {
            id: 17,
            name: "b",
            size: 4096,
            extents: &[(0, 4096, 57)],
        },
    ],
    ranges: &[SHARED_BLOCK],
    contents: &[],
};

// Adds a file.
fn add_file(alloc: Global, tree: &mut FileTree, file: &File) -> Result<(), AllocError> {
    let mut plan = InodePlan::file(file.id, ROOT);
    plan.stream = Some(file.size);
    tree.add(alloc, plan, file.name)?;
    tree.stream(alloc, file.id, file.extents)
}

// The volume with these files.
pub(super) fn volume_with(alloc: Global, has: &Files) -> Result<VolPlan, AllocError> {
    let mut tree = FileTree::new(alloc, has.head.names)?;
    for file in has.files.iter() {
        add_file(alloc, &mut tree, file)?;
    }
    let versions = one_version(alloc, has.oid, tree)?;
    volume(alloc, &has.head, versions, has.ranges, has.contents)
}
