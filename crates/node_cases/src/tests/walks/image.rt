// Containers of eight blocks: nothing in block 0, and a node of a tree in each block from 1 on.
ghost use Rattle.std.specs.Prelude.{◌≡◌, ◌≤◌, ◌%◌};

use img_edit::node::{Item, NodeHead, Totals, Tree, node};
use std::alloc::{AllocError, Global};

/// A tree, and what follows the first word in a key of an entry of a directory (kind 9).
#[derive(Clone, Copy)]
pub struct Form {
    pub tree: Tree,
    pub name: &'static [u8],
}

/// A node: how far it stands above the leaves, the totals that a root tells, and for each entry the first word of its key,
/// and its value, which is a child's oid above the leaves.
#[derive(Clone, Copy)]
pub struct Node {
    pub level: u16,
    pub root: Option<Totals>,
    pub entries: &'static [(u64, u64)],
}

// The kind of a directory's entry stands in the high four bits of its key's first word.
const ENTRY: u64 = 9 << 60;

// An entry's key and value: the first word, a directory entry's name, and zeros up to the size that all keys have.
fn item(alloc: Global, form: Form, entry: &(u64, u64)) -> Result<Item, AllocError> {
    let mut key = Vec::from_slice(alloc, &entry.0.to_le_bytes())?;
    if entry.0 >= ENTRY {
        key.extend_from_slice(form.name)?;
    }
    key.resize(key.len().max(form.tree.key_size as usize), 0)?;
    Ok((key, Vec::from_slice(alloc, &entry.1.to_le_bytes())?))
}

// The block of a node.
fn block(
    alloc: Global,
    size: usize,
    form: Form,
    oid: u64,
    plan: &Node,
) -> Result<Vec<u8>, AllocError>
    requires whole { size % 4 ≡ 0 }
    requires most { size ≤ 65536 }
{
    let mut items = Vec::new(alloc);
    for entry in plan.entries.iter() {
        items.push(item(alloc, form, entry)?)?;
    }
    let head = NodeHead {
        oid,
        xid: 1,
        level: plan.level,
        totals: plan.root,
    };
    node(alloc, size, &form.tree, &head, &items)?.ok_or(AllocError)
}

/// The container of blocks of this size with these nodes in the blocks from 1 on.
pub(super) fn tree_image(
    alloc: Global,
    size: usize,
    form: Form,
    nodes: &[Node],
) -> Result<Vec<u8>, AllocError>
    requires whole { size % 4 ≡ 0 }
    requires most { size ≤ 65536 }
{
    let mut image = vec![in alloc; 0u8; size]?;
    for oid in 1..8u64 {
        let bytes = match nodes.get((oid - 1) as usize) {
            Some(plan) => block(alloc, size, form, oid, plan)?,
            None => vec![in alloc; 0u8; size]?,
        };
        image.extend_from_slice(&bytes)?;
    }
    Ok(image)
}
