//! Nodes of trees (B-Trees, btree_node_phys_t and btree_info_t).
ghost use Rattle.std.specs.Prelude.{◌≡◌, ◌≤◌, ◌<◌, ◌+◌, ◌-◌, ◌*◌, ◌%◌, ◌++◌, MatchOption, IfOk, IfSome, OnOk, length, replicate, vec_len};
ghost use Rattle.img_edit.specs.Nodes as spec;

use crate::growing::{add_u16, add_u32, add_u64, add_zeros};
use crate::header::{EPHEMERAL, Head, PHYSICAL, VIRTUAL, add_head};
use crate::seal::reseal;
use apfs_layout::kind;
use apfs_layout::node::{FIXED, FIXED_ENTRY_LEN, LEAF, NO_VALUE, ROOT, TABLE, VARIABLE_ENTRY_LEN};
use std::alloc::{AllocError, Global};

/// A key and its value.
pub type Item = (Vec<u8>, Vec<u8>);

// A list of free room is empty.
const NO_OFFSET: u16 = NO_VALUE;

/// What the nodes of a tree have in common.
#[derive(Clone, Copy)]
pub struct Tree {
    pub storage: u32,
    pub subtype: u16,
    /// The sizes of all keys and of all values; 0 where they differ.
    pub key_size: u32,
    pub value_size: u32,
    /// The flags of the tree (B-Trees, B-Tree Flags).
    pub flags: u32,
}

impl Tree {
    /// The tree of an object map, which is physical.
    pub const OBJECT_MAP: Tree = Tree {
        storage: PHYSICAL,
        subtype: kind::OBJECT_MAP,
        key_size: 16,
        value_size: 16,
        flags: 0x10,
    };

    /// A free queue, which is ephemeral and may have keys without values.
    pub const QUEUE: Tree = Tree {
        storage: EPHEMERAL,
        subtype: kind::FREE_QUEUE,
        key_size: 16,
        value_size: 8,
        flags: 0xc,
    };

    /// A file-system tree, which is virtual.
    pub const FILE_SYSTEM: Tree = Tree {
        storage: VIRTUAL,
        subtype: kind::FILE_SYSTEM,
        key_size: 0,
        value_size: 0,
        flags: 0x40,
    };

    /// An extent reference tree, which is physical.
    pub const EXTENTS: Tree = Tree {
        storage: PHYSICAL,
        subtype: kind::EXTENT_REFERENCES,
        key_size: 0,
        value_size: 0,
        flags: 0x50,
    };

    /// A snapshot metadata tree, which is physical.
    pub const SNAPSHOTS: Tree = Tree {
        storage: PHYSICAL,
        subtype: kind::SNAPSHOT_METADATA,
        key_size: 0,
        value_size: 0,
        flags: 0x50,
    };

    /// The snapshot tree of an object map, which is physical.
    pub const MAP_SNAPSHOTS: Tree = Tree {
        storage: PHYSICAL,
        subtype: kind::MAP_SNAPSHOTS,
        key_size: 8,
        value_size: 16,
        flags: 0x10,
    };

    // Whether all keys and all values have one size.
    fn is_fixed(&self) -> bool
        ensures { result ≡ spec.is_fixed self.now }
    {
        self.key_size != 0
    }

    // The bytes of a table entry.
    fn entry_len(&self) -> usize
        ensures { result ≡ spec.entry_len self.now }
    {
        if self.is_fixed() {
            FIXED_ENTRY_LEN
        } else {
            VARIABLE_ENTRY_LEN
        }
    }
}

/// What a root says of its tree.
#[derive(Clone, Copy)]
pub struct Totals {
    pub keys: u64,
    pub nodes: u64,
    pub longest_key: u32,
    pub longest_value: u32,
}

/// A node, but for its items.
#[derive(Clone, Copy)]
pub struct NodeHead {
    pub oid: u64,
    pub xid: u64,
    pub level: u16,
    /// Some at a root.
    pub totals: Option<Totals>,
}

impl NodeHead {
    // The header of a node of a tree.
    fn header(&self, tree: &Tree) -> Head
        ensures { result ≡ spec.head_of tree.now self.now }
    {
        let kind = if self.totals.is_some() {
            kind::TREE_ROOT
        } else {
            kind::TREE_NODE
        };
        Head {
            oid: self.oid,
            xid: self.xid,
            storage: tree.storage,
            kind,
            subtype: tree.subtype,
        }
    }

    // The flags of a node of a tree.
    fn flags(&self, tree: &Tree) -> u16
        ensures { result ≡ spec.flags_of tree.now self.now }
    {
        let root = if self.totals.is_some() { ROOT } else { 0 };
        let leaf = if self.level == 0 { LEAF } else { 0 };
        let fixed = if tree.is_fixed() { FIXED } else { 0 };
        root + leaf + fixed
    }
}

// How many bytes the parts of a node take.
#[derive(Clone, Copy)]
struct Lengths {
    table: usize,
    keys: usize,
    free: usize,
}

// The keys, one after another.
fn keys_of(alloc: Global, items: &[Item]) -> Result<Vec<u8>, AllocError>
    ensures { IfOk result (λ keys. keys.items ≡ spec.keys_of items.now) }
{
    let mut keys = Vec::new(alloc);
    'items: for item in items.iter() {
        keys.extend_from_slice(&item.0)?;
    }
    Ok(keys)
}

// The values, the first one last.
fn values_of(alloc: Global, items: &[Item]) -> Result<Vec<u8>, AllocError>
    ensures { IfOk result (λ values. values.items ≡ spec.values_of items.now) }
{
    let mut values = Vec::new(alloc);
    'items: for item in items.iter().rev() {
        values.extend_from_slice(&item.1)?;
    }
    Ok(values)
}

// What a root tells of its tree, and nothing at another node.
#[tactic(auto, unfolding(crate::specs::Nodes::info_of))]
fn info_of(
    alloc: Global,
    size: usize,
    tree: &Tree,
    totals: &Option<Totals>,
) -> Result<Vec<u8>, AllocError>
    requires { size ≤ 65536 }
    ensures { IfOk result (λ info. info.items ≡ spec.info_of size tree.now totals.now) }
{
    let mut info = Vec::new(alloc);
    if let Some(totals) = totals {
        add_u32(&mut info, tree.flags)?;
        add_u32(&mut info, size as u32)?;
        add_u32(&mut info, tree.key_size)?;
        add_u32(&mut info, tree.value_size)?;
        add_u32(&mut info, totals.longest_key.max(tree.key_size))?;
        add_u32(&mut info, totals.longest_value.max(tree.value_size))?;
        add_u64(&mut info, totals.keys)?;
        add_u64(&mut info, totals.nodes)?;
    }
    Ok(info)
}

// An empty list of free room.
#[tactic(auto, unfolding(crate::specs::Nodes::no_list))]
fn add_no_list(block: &mut Vec<u8>) -> Result<(), AllocError>
    ensures { OnOk result (block.new.items ≡ block.old.items ++ spec.no_list) }
{
    add_u16(block, NO_OFFSET)?;
    add_u16(block, 0)
}

// What a node says of its room.
fn add_spaces(block: &mut Vec<u8>, lengths: &Lengths) -> Result<(), AllocError>
    requires table { lengths.now.table < 65536 }
    requires keys { lengths.now.keys < 65536 }
    requires free { lengths.now.free < 65536 }
    ensures { OnOk result (block.new.items ≡ block.old.items ++ spec.spaces_of lengths.now.table lengths.now.keys lengths.now.free) }
{
    add_u16(block, 0)?;
    add_u16(block, lengths.table as u16)?;
    add_u16(block, lengths.keys as u16)?;
    add_u16(block, lengths.free as u16)?;
    add_no_list(block)?;
    add_no_list(block)
}

// The fields of a node ahead of its table.
fn add_fields(
    block: &mut Vec<u8>,
    tree: &Tree,
    head: &NodeHead,
    count: usize,
    lengths: &Lengths,
) -> Result<(), AllocError>
    requires count { count < 65536 }
    requires table { lengths.now.table < 65536 }
    requires keys { lengths.now.keys < 65536 }
    requires free { lengths.now.free < 65536 }
    ensures { OnOk result (block.new.items ≡ block.old.items ++ spec.fields_of tree.now head.now count lengths.now.table lengths.now.keys lengths.now.free) }
{
    add_u16(block, head.flags(tree))?;
    add_u16(block, head.level)?;
    add_u32(block, count as u32)?;
    add_spaces(block, lengths)
}

// A table entry: the offsets of an item's key and value, and where sizes differ their lengths too.
fn add_entry(
    block: &mut Vec<u8>,
    fixed: bool,
    key: usize,
    value: usize,
    item: &Item,
) -> Result<(), AllocError>
    requires key { key < 65536 }
    requires key_len { vec_len item.now.0 < 65536 }
    requires value { value < 65536 }
    requires value_len { vec_len item.now.1 < 65536 }
    ensures { OnOk result (block.new.items ≡ block.old.items ++ spec.entry_of fixed key value item.now) }
{
    add_u16(block, key as u16)?;
    if !fixed {
        add_u16(block, item.0.len() as u16)?;
    }
    add_u16(block, value as u16)?;
    if !fixed {
        add_u16(block, item.1.len() as u16)?;
    }
    Ok(())
}

// The table of contents.
fn add_table(block: &mut Vec<u8>, fixed: bool, items: &[Item]) -> Result<(), AllocError>
    requires keys { length (spec.keys_of items.now) < 65536 }
    requires values { length (spec.values_of items.now) < 65536 }
    ensures { OnOk result (block.new.items ≡ block.old.items ++ spec.table_of fixed 0 0 items.now) }
{
    let mut key = 0usize;
    let mut value = 0usize;
    'items: for item in items.iter() {
        value += item.1.len();
        add_entry(block, fixed, key, value, item)?;
        key += item.0.len();
    }
    Ok(())
}

// A node with its items in their order and zeros for its sum; None where the size has no room for them.
fn unsealed(
    alloc: Global,
    size: usize,
    tree: &Tree,
    head: &NodeHead,
    items: &[Item],
) -> Result<Option<Vec<u8>>, AllocError>
    requires { size ≤ 65536 }
    ensures { IfOk result (λ node. MatchOption node (size < spec.taken_by size tree.now head.now items.now) (λ block. spec.IsUnsealed size tree.now head.now items.now block.items)) }
{
    let keys = keys_of(alloc, items)?;
    let values = values_of(alloc, items)?;
    let info = info_of(alloc, size, tree, &head.totals)?;
    let table = items.len().saturating_mul(tree.entry_len());
    let taken = TABLE
        .saturating_add(table)
        .saturating_add(keys.len())
        .saturating_add(values.len())
        .saturating_add(info.len());
    if taken > size {
        return Ok(None);
    }
    let lengths = Lengths {
        table,
        keys: keys.len(),
        free: size - taken,
    };
    let mut block = Vec::with_capacity(alloc, size)?;
    add_head(&mut block, &head.header(tree))?;
    add_fields(&mut block, tree, head, items.len(), &lengths)?;
    add_table(&mut block, tree.is_fixed(), items)?;
    block.extend_from_slice(&keys)?;
    add_zeros(&mut block, lengths.free)?;
    block.extend_from_slice(&values)?;
    block.extend_from_slice(&info)?;
    Ok(Some(block))
}

/// A node with its items in their order; None where the size has no room for them.
#[tactic(auto, using(crate::proofs::Nodes::node_long, crate::proofs::Nodes::behind_sum))]
pub fn node(
    alloc: Global,
    size: usize,
    tree: &Tree,
    head: &NodeHead,
    items: &[Item],
) -> Result<Option<Vec<u8>>, AllocError>
    requires whole { size % 4 ≡ 0 }
    requires most { size ≤ 65536 }
    ensures laid { IfOk result (λ node. MatchOption node (size < spec.taken_by size tree.now head.now items.now) (λ block. spec.IsWhole size (spec.node_of size tree.now head.now items.now) block.items)) }
    ensures header { IfOk result (λ node. IfSome node (λ block. spec.HasHead (spec.head_of tree.now head.now) block.items)) }
    ensures items { IfOk result (λ node. IfSome node (λ block. spec.HasItems size tree.now head.now items.now block.items)) }
{
    let Some(mut block) = unsealed(alloc, size, tree, head, items)? else {
        return Ok(None);
    };
    reseal(&mut block);
    Ok(Some(block))
}
