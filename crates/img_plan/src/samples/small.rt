// The small container: one volume with nothing but its two directories.
ghost use Rattle.std.specs.Prelude.{◌≡◌, ◌≤◌, IfOk, length, vec_len};
ghost use Rattle.img_plan.specs.Plans.{IsBareLeaf, IsBareVersion, IsLeaf, IsSmall, IsSmallVolume, IsValid, IsVersion, IsVolume};

use super::common::{ROOT_OID, SMALL};
use crate::files::{ABOVE_ROOT, PRIVATE, ROOT};
use crate::plan::{Leaf, Plan, Version, VolPlan};
use crate::records::{EntryPlan, InodePlan, Item, entry, inode};
use fs_name::Names;
use std::alloc::{AllocError, Global};

// The kind of a directory, in an entry.
const DIRECTORY: u16 = 4;

// The entry of one of the two directories that each volume has.
fn top_entry(alloc: Global, file: u64, name: &str) -> Result<Item, AllocError>
    requires { length name.now ≤ 100 }
    ensures key { IfOk result (λ item. vec_len item.0 ≤ 113) }
    ensures value { IfOk result (λ item. vec_len item.1 ≡ 18) }
{
    let plan = EntryPlan {
        directory: ABOVE_ROOT,
        file,
        kind: DIRECTORY,
        sibling: None,
    };
    entry(alloc, Names::Folded, &plan, name)
}

// The inode of one of them.
fn top_inode(alloc: Global, id: u64) -> Result<Item, AllocError>
    ensures key { IfOk result (λ item. vec_len item.0 ≡ 8) }
    ensures value { IfOk result (λ item. vec_len item.1 ≡ 92) }
{
    inode(alloc, &InodePlan::directory(id, ABOVE_ROOT))
}

// The leaf of a volume without files: its records in their order.
fn bare_leaf(alloc: Global) -> Result<Leaf, AllocError>
    ensures fits { IfOk result IsLeaf }
    ensures bare { IfOk result IsBareLeaf }
{
    let private = top_entry(alloc, PRIVATE, "private-dir")?;
    let root = top_entry(alloc, ROOT, "root")?;
    let items = vec![in alloc;
        private,
        root,
        top_inode(alloc, ROOT)?,
        top_inode(alloc, PRIVATE)?,
    ]?;
    Ok(Leaf {
        oid: ROOT_OID,
        items,
    })
}

// The only version of a volume without files.
fn bare_version(alloc: Global) -> Result<Version, AllocError>
    ensures valid { IfOk result IsVersion }
    ensures bare { IfOk result IsBareVersion }
{
    Ok(Version {
        xid: 1,
        snapshot: None,
        leaves: vec![in alloc; bare_leaf(alloc)?]?,
    })
}

// The volume of the small container.
pub(super) fn small_volume(alloc: Global) -> Result<VolPlan, AllocError>
    ensures valid { IfOk result IsVolume }
    ensures small { IfOk result IsSmallVolume }
{
    Ok(VolPlan {
        name: SMALL.name.to_vec(alloc)?,
        uuid: SMALL.uuid,
        names: Names::Folded,
        versions: vec![in alloc; bare_version(alloc)?]?,
        extents: Vec::new(alloc),
        contents: Vec::new(alloc),
    })
}

// The plan of the small container.
pub(super) fn small(alloc: Global) -> Result<Plan, AllocError>
    ensures valid { IfOk result IsValid }
    ensures small { IfOk result IsSmall }
{
    Ok(Plan {
        blocks: 256,
        xid: 1,
        volumes: vec![in alloc; small_volume(alloc)?]?,
        queued: Vec::new(alloc),
        jumpstart: Vec::new(alloc),
    })
}
