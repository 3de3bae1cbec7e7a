// The checkpoint map (Container, checkpoint_map_phys_t).
ghost use Rattle.std.specs.Prelude.{◌≡◌, ◌≤◌, length, IfOk, vec_len};

use crate::geometry::Geometry;
use crate::objects::fields::{Field, put_fields};
use apfs_layout::checkpoint_map::{
    COUNT, FLAGS, LAST_MAP, MAPPING_LEN, MAPPING_OID, MAPPING_PADDR, MAPPING_SIZE, MAPPING_SUBTYPE,
    MAPPING_TYPE, MAPPINGS,
};
use apfs_layout::kind;
use img_edit::header::{EPHEMERAL, Head, block_with, type_of};
use img_edit::places::CHECKPOINT_MAP;
use img_edit::reseal;
use std::alloc::{AllocError, Global};

/// An ephemeral object of one block, which the map finds.
#[derive(Clone, Copy)]
pub(crate) struct Mapping {
    pub kind: u16,
    pub subtype: u16,
    pub oid: u64,
    pub block: usize,
}

// A mapping in the bytes that are its own.
fn put_mapping(part: &mut [u8], geometry: Geometry, mapping: &Mapping) {
    let fields = [
        Field::U32(MAPPING_TYPE, type_of(EPHEMERAL, mapping.kind)),
        Field::U32(MAPPING_SUBTYPE, u32::from(mapping.subtype)),
        Field::U32(MAPPING_SIZE, geometry.size as u32),
        Field::U64(MAPPING_OID, mapping.oid),
        Field::U64(MAPPING_PADDR, mapping.block as u64),
    ];
    put_fields(part, &fields);
}

// The mappings, those that the block has room for.
fn put_mappings(block: &mut [u8], geometry: Geometry, mappings: &[Mapping])
    requires { 40 ≤ length block.old }
{
    let parts = block[MAPPINGS..].chunks_exact_mut(MAPPING_LEN);
    for (part, mapping) in parts.zip(mappings.iter()) {
        put_mapping(part, geometry, mapping);
    }
}

/// The checkpoint map with its mappings by ascending oid.
pub(crate) fn checkpoint_map(
    alloc: Global,
    geometry: Geometry,
    xid: u64,
    mappings: &[Mapping],
) -> Result<Vec<u8>, AllocError> {
    let head = Head::physical(CHECKPOINT_MAP, xid, kind::CHECKPOINT_MAP);
    let mut block = block_with(alloc, geometry.size, &head)?;
    let fields = [
        Field::U32(FLAGS, LAST_MAP),
        Field::U32(COUNT, (mappings.len() % 0x1_0000_0000) as u32),
    ];
    put_fields(&mut block, &fields);
    put_mappings(&mut block, geometry, mappings);
    reseal(&mut block);
    Ok(block)
}
