// Roots of trees that are leaves.
ghost use Rattle.std.specs.Prelude.{◌≡◌, ◌++◌, OnOk, bit_or};
ghost use Rattle.img_format.specs.Tables.{object};
ghost use Rattle.img_format.specs.Steps.{empty_fields};
ghost use Rattle.img_format.specs.Blocks as is;

use crate::field::BLOCK;
use crate::field::Value::{U16, U32, U64};
use crate::object::{EPHEMERAL, Head, PHYSICAL, add_object};
use crate::places::{EXTENTS, MAIN_QUEUE_ID, POOL_QUEUE_ID, SNAPSHOTS, XID};
use apfs_layout::kind::{EXTENT_REFERENCES, FREE_QUEUE, OBJECT_MAP, SNAPSHOT_METADATA, TREE_ROOT};
use apfs_layout::node::{
    COUNT, FIXED, FIXED_ENTRY_LEN, FLAGS, INFO_LEN, KEY_COUNT, LEAF, LEVEL, NODE_COUNT, NODE_SIZE,
    ROOT, TABLE, TABLE_LENGTH, TABLE_OFFSET,
};
use apfs_layout::{key, value};
use std::alloc::{AllocError, Global};

/// Where the values end: before what a root tells of its tree.
pub(crate) const END: usize = BLOCK - INFO_LEN;

// The flags of a root that is a leaf, with keys and values of one size each.
const FIXED_ROOT: u16 = ROOT + LEAF + FIXED;

/// Those of one whose keys and values differ in size.
pub(crate) const VARIABLE_ROOT: u16 = ROOT + LEAF;

// Adds the root of a tree without entries.
fn add_empty(front: &mut Vec<u8>, alloc: Global, head: &Head, flags: u16) -> Result<(), AllocError>
    ensures { OnOk result (front.new.items ≡ front.old.items ++ object head.now.oid (bit_or head.now.storage head.now.kind) head.now.subtype (empty_fields flags)) }
{
    let fields = [
        (FLAGS, U16(flags)),
        (LEVEL, U16(0)),
        (COUNT, U32(0)),
        (TABLE_OFFSET, U16(0)),
        (TABLE_LENGTH, U16(0)),
        (END + NODE_SIZE, U32(BLOCK as u32)),
        (END + KEY_COUNT, U64(0)),
        (END + NODE_COUNT, U64(1)),
    ];
    add_object(front, alloc, head, &fields)
}

/// Adds the root of the pool's free queue.
pub(crate) fn add_pool_queue(front: &mut Vec<u8>, alloc: Global) -> Result<(), AllocError>
    ensures { OnOk result (front.new.items ≡ front.old.items ++ is.pool_queue) }
{
    let head = Head {
        oid: POOL_QUEUE_ID,
        storage: EPHEMERAL,
        kind: TREE_ROOT,
        subtype: FREE_QUEUE,
    };
    add_empty(front, alloc, &head, FIXED_ROOT)
}

/// Adds the root of the main device's free queue.
pub(crate) fn add_main_queue(front: &mut Vec<u8>, alloc: Global) -> Result<(), AllocError>
    ensures { OnOk result (front.new.items ≡ front.old.items ++ is.main_queue) }
{
    let head = Head {
        oid: MAIN_QUEUE_ID,
        storage: EPHEMERAL,
        kind: TREE_ROOT,
        subtype: FREE_QUEUE,
    };
    add_empty(front, alloc, &head, FIXED_ROOT)
}

/// Adds the root of the extent references.
pub(crate) fn add_extents(front: &mut Vec<u8>, alloc: Global) -> Result<(), AllocError>
    ensures { OnOk result (front.new.items ≡ front.old.items ++ is.extents) }
{
    let head = Head {
        oid: EXTENTS,
        storage: PHYSICAL,
        kind: TREE_ROOT,
        subtype: EXTENT_REFERENCES,
    };
    add_empty(front, alloc, &head, VARIABLE_ROOT)
}

/// Adds the root of the snapshot metadata.
pub(crate) fn add_snapshots(front: &mut Vec<u8>, alloc: Global) -> Result<(), AllocError>
    ensures { OnOk result (front.new.items ≡ front.old.items ++ is.snapshots) }
{
    let head = Head {
        oid: SNAPSHOTS,
        storage: PHYSICAL,
        kind: TREE_ROOT,
        subtype: SNAPSHOT_METADATA,
    };
    add_empty(front, alloc, &head, VARIABLE_ROOT)
}

// Where the one record of an object map lies in its root.
const RECORD_KEY: usize = TABLE + FIXED_ENTRY_LEN;

const RECORD_VALUE: usize = END - value::OMAP_LEN;

/// Adds the root of an object map's tree in a block, with one record: the object of an id is in a block.
pub(crate) fn add_map_tree(
    front: &mut Vec<u8>,
    alloc: Global,
    block: u64,
    oid: u64,
    at: u64,
) -> Result<(), AllocError>
    ensures { OnOk result (front.new.items ≡ front.old.items ++ is.map_tree block oid at) }
{
    let fields = [
        (FLAGS, U16(FIXED_ROOT)),
        (LEVEL, U16(0)),
        (COUNT, U32(1)),
        (TABLE_OFFSET, U16(0)),
        (TABLE_LENGTH, U16(FIXED_ENTRY_LEN as u16)),
        (TABLE, U16(0)),
        (TABLE + 2, U16(value::OMAP_LEN as u16)),
        (RECORD_KEY + key::OMAP_OID, U64(oid)),
        (RECORD_KEY + key::OMAP_XID, U64(XID)),
        (RECORD_VALUE + value::OMAP_FLAGS, U32(0)),
        (RECORD_VALUE + value::OMAP_SIZE, U32(BLOCK as u32)),
        (RECORD_VALUE + value::OMAP_PADDR, U64(at)),
        (END + NODE_SIZE, U32(BLOCK as u32)),
        (END + KEY_COUNT, U64(1)),
        (END + NODE_COUNT, U64(1)),
    ];
    let head = Head {
        oid: block,
        storage: PHYSICAL,
        kind: TREE_ROOT,
        subtype: OBJECT_MAP,
    };
    add_object(front, alloc, &head, &fields)
}
