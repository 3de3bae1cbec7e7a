// Object maps (Object Maps, omap_phys_t).
use crate::geometry::Geometry;
use crate::objects::fields::{Field, put_fields};
use apfs_layout::kind;
use apfs_layout::object_map::{
    FLAGS, LATEST_SNAP, MANUALLY_MANAGED, SNAP_COUNT, SNAP_TREE, SNAP_TREE_TYPE, TREE, TREE_TYPE,
};
use img_edit::header::{Head, PHYSICAL, block_with, type_of};
use img_edit::reseal;
use std::alloc::{AllocError, Global};

/// A record of an object map: an object of a transaction, in a block.
#[derive(Clone, Copy)]
pub(crate) struct Placed {
    pub oid: u64,
    pub xid: u64,
    pub block: usize,
}

/// An object map, but for its trees' contents.
#[derive(Clone, Copy)]
pub(crate) struct MapPlan {
    pub block: usize,
    pub xid: u64,
    /// It is the container's, which can't have snapshots.
    pub is_container: bool,
    /// The block of its tree's root.
    pub tree: usize,
    /// The block of its snapshot tree's root; 0 where it has no snapshots.
    pub snap_tree: usize,
    /// How many snapshots it has.
    pub snapshots: usize,
    /// The transaction of the latest one.
    pub latest: u64,
}

/// An object map.
pub(crate) fn object_map(
    alloc: Global,
    geometry: Geometry,
    plan: &MapPlan,
) -> Result<Vec<u8>, AllocError> {
    let head = Head::physical(plan.block, plan.xid, kind::OBJECT_MAP);
    let mut map = block_with(alloc, geometry.size, &head)?;
    let flags = if plan.is_container {
        MANUALLY_MANAGED
    } else {
        0
    };
    let fields = [
        Field::U32(FLAGS, flags),
        Field::U32(SNAP_COUNT, (plan.snapshots % 0x1_0000_0000) as u32),
        Field::U32(TREE_TYPE, type_of(PHYSICAL, kind::TREE_ROOT)),
        Field::U32(SNAP_TREE_TYPE, type_of(PHYSICAL, kind::TREE_ROOT)),
        Field::U64(TREE, plan.tree as u64),
        Field::U64(SNAP_TREE, plan.snap_tree as u64),
        Field::U64(LATEST_SNAP, plan.latest),
    ];
    put_fields(&mut map, &fields);
    reseal(&mut map);
    Ok(map)
}
