// What all samples have in common: a container of 256 blocks with volumes of their own.
ghost use Rattle.std.specs.Prelude.{◌≡◌, IfOk, vec_len};

use crate::files::FileTree;
use crate::plan::{Leaf, NewRange, Plan, Version, VolPlan};
use fs_name::Names;
use std::alloc::{AllocError, Global};

// The oid of a root of a file-system tree.
pub(super) const ROOT_OID: u64 = img_edit::places::ROOT_OID;

// How a volume is told from others, and how it compares names.
#[derive(Clone, Copy)]
pub(super) struct Head {
    pub name: &'static [u8],
    pub uuid: [u8; 16],
    pub names: Names,
}

// The volume that each sample has. Its identifier is that of the container backwards.
pub(super) const SMALL: Head = Head {
    name: b"Small",
    uuid: [
        0xff, 0xee, 0xdd, 0xcc, 0xbb, 0xaa, 0x99, 0x88, 0x77, 0x66, 0x55, 0x44, 0x33, 0x22, 0x11,
        0x00,
    ],
    names: Names::Folded,
};

// Blocks of files, each as its number and what it starts with.
pub(super) type Contents = &'static [(u64, &'static [u8])];

// The contents of blocks.
fn copied(alloc: Global, contents: Contents) -> Result<Vec<(u64, Vec<u8>)>, AllocError> {
    let mut copies = Vec::new(alloc);
    for (block, bytes) in contents.iter() {
        copies.push((*block, bytes.to_vec(alloc)?))?;
    }
    Ok(copies)
}

// A volume with these versions, whose files have these ranges and contents.
pub(super) fn volume(
    alloc: Global,
    head: &Head,
    versions: Vec<Version>,
    extents: &[NewRange],
    contents: Contents,
) -> Result<VolPlan, AllocError> {
    Ok(VolPlan {
        name: head.name.to_vec(alloc)?,
        uuid: head.uuid,
        names: head.names,
        versions,
        extents: extents.to_vec(alloc)?,
        contents: copied(alloc, contents)?,
    })
}

// A container with one volume.
pub(super) fn container(alloc: Global, xid: u64, volume: VolPlan) -> Result<Plan, AllocError>
    ensures blocks { IfOk result (λ plan. plan.blocks ≡ 256) }
    ensures one_volume { IfOk result (λ plan. vec_len plan.volumes ≡ 1) }
{
    Ok(Plan {
        blocks: 256,
        xid,
        volumes: vec![in alloc; volume]?,
        queued: Vec::new(alloc),
        jumpstart: Vec::new(alloc),
    })
}

// The one version of a volume without snapshots, whose records fit one leaf.
pub(super) fn one_version(
    alloc: Global,
    oid: u64,
    tree: FileTree,
) -> Result<Vec<Version>, AllocError> {
    let leaf = Leaf {
        oid,
        items: tree.items(alloc)?,
    };
    let version = Version {
        xid: 1,
        snapshot: None,
        leaves: vec![in alloc; leaf]?,
    };
    Ok(vec![in alloc; version]?)
}
