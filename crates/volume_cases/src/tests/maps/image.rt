// Containers of eight blocks of 4,096 bytes: nothing in block 0, an object map in block 1, and nodes from block 2 on.

use apfs_layout::kind;
use apfs_layout::object_map::{REVERT_MIN, SNAP_COUNT, SNAP_TREE, TREE};
use img_edit::header::{Head, block_with};
use img_edit::node::{Item, NodeHead, Totals, Tree, node};
use img_edit::{put_u32, put_u64, reseal};
use std::alloc::{AllocError, Global};

/// The fields of an object map that are read.
#[derive(Clone, Copy)]
pub struct Map {
    pub snap_count: u32,
    pub tree: u64,
    pub snap_tree: u64,
    pub revert: u64,
}

/// An entry: the two words of its key, its flags, and its block, which is a child's above the leaves.
pub type Entry = (u64, u64, u32, u64);

/// A node of a tree of records or of snapshots, and the numbers of keys and nodes that a root tells.
#[derive(Clone, Copy)]
pub struct Node {
    pub tree: Tree,
    pub level: u16,
    pub root: Option<(u64, u64)>,
    pub entries: &'static [Entry],
}

fn map_block(alloc: Global, map: Map) -> Result<Vec<u8>, AllocError> {
    let head = Head::physical(1, 1, kind::OBJECT_MAP);
    let mut block = block_with(alloc, 4096, &head)?;
    put_u32(&mut block, SNAP_COUNT, map.snap_count);
    put_u64(&mut block, TREE, map.tree);
    put_u64(&mut block, SNAP_TREE, map.snap_tree);
    put_u64(&mut block, REVERT_MIN, map.revert);
    reseal(&mut block);
    Ok(block)
}

// The key of an entry, of one word or of two.
fn key(alloc: Global, tree: Tree, entry: &Entry) -> Result<Vec<u8>, AllocError> {
    let mut key = Vec::from_slice(alloc, &entry.0.to_le_bytes())?;
    if tree.key_size == 16 {
        key.extend_from_slice(&entry.1.to_le_bytes())?;
    }
    Ok(key)
}

// The value of an entry: its flags, the bytes of a block, and its block; above the leaves a child alone.
fn value(alloc: Global, level: u16, entry: &Entry) -> Result<Vec<u8>, AllocError> {
    let mut value = Vec::new(alloc);
    if level == 0 {
        value.extend_from_slice(&entry.2.to_le_bytes())?;
        value.extend_from_slice(&4096u32.to_le_bytes())?;
    }
    value.extend_from_slice(&entry.3.to_le_bytes())?;
    Ok(value)
}

fn items(alloc: Global, plan: &Node) -> Result<Vec<Item>, AllocError> {
    let mut items = Vec::new(alloc);
    for entry in plan.entries.iter() {
        let item = (
            key(alloc, plan.tree, entry)?,
            value(alloc, plan.level, entry)?,
        );
        items.push(item)?;
    }
    Ok(items)
}

// Adds the block of a node with these entries.
fn add_node(
    alloc: Global,
    image: &mut Vec<u8>,
    oid: u64,
    plan: &Node,
    items: &[Item],
) -> Result<(), AllocError> {
    let head = NodeHead {
        oid,
        xid: 1,
        level: plan.level,
        totals: plan.root.map(|(keys, nodes)| Totals {
            keys,
            nodes,
            longest_key: 0,
            longest_value: 0,
        }),
    };
    match node(alloc, 4096, &plan.tree, &head, items)? {
        Some(block) => image.extend_from_slice(&block),
        None => Err(AllocError),
    }
}

// Adds the block of a map, those of some nodes, and zeros up to eight blocks.
fn add_blocks(
    alloc: Global,
    image: &mut Vec<u8>,
    map: Map,
    nodes: &[Node],
) -> Result<(), AllocError> {
    image.extend_from_slice(&map_block(alloc, map)?)?;
    for (i, plan) in nodes.iter().enumerate() {
        let oid = (i as u64).saturating_add(2);
        add_node(alloc, image, oid, plan, &items(alloc, plan)?)?;
    }
    image.resize(image.len().max(32768), 0)
}

/// The container with this map in block 1 and these nodes in the blocks from 2 on.
pub fn map_image(alloc: Global, map: Map, nodes: &[Node]) -> Result<Vec<u8>, AllocError> {
    let mut image = vec![in alloc; 0u8; 4096]?;
    add_blocks(alloc, &mut image, map, nodes)?;
    Ok(image)
}
