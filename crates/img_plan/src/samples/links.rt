// An empty file of two names, `a` and `b`.

use super::common::{ROOT_OID, SMALL, one_version, volume};
use crate::files::{FileTree, ROOT};
use crate::plan::VolPlan;
use crate::records::InodePlan;
use fs_name::Names;
use std::alloc::{AllocError, Global};

// Adds the file.
fn add_file(alloc: Global, tree: &mut FileTree) -> Result<(), AllocError> {
    let mut file = InodePlan::file(16, ROOT);
    file.children_or_links = 0;
    tree.inode(file)?;
    tree.link(alloc, 16, 17, ROOT, "a")?;
    tree.link(alloc, 16, 18, ROOT, "b")
}

// The volume with a file of two names.
pub(super) fn links(alloc: Global) -> Result<VolPlan, AllocError> {
    let mut tree = FileTree::new(alloc, Names::Folded)?;
    add_file(alloc, &mut tree)?;
    volume(alloc, &SMALL, one_version(alloc, ROOT_OID, tree)?, &[], &[])
}
