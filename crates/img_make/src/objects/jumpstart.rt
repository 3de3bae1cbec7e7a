// An EFI jumpstart (EFI Jumpstart, nx_efi_jumpstart_t).
ghost use Rattle.std.specs.Prelude.{◌≡◌, ◌≤◌, length};

use crate::geometry::Geometry;
use crate::objects::fields::{Field, put_fields};
use apfs_layout::jumpstart::{COUNT, DRIVER_LEN, EXTENT_LEN, EXTENTS, JUMP_MAGIC, MAGIC, VERSION};
use apfs_layout::kind;
use img_edit::header::{Head, block_with};
use img_edit::reseal;
use std::alloc::{AllocError, Global};

// The only version.
const VERSION_1: u32 = 1;

// The bytes of the extents, as many as a number of 32 bits can tell.
fn driver_len(geometry: Geometry, extents: &[(u64, u64)]) -> u32 {
    let mut bytes = 0u64;
    for (_, length) in extents.iter() {
        bytes = bytes.saturating_add(length.saturating_mul(geometry.size as u64));
    }
    bytes.min(u64::from(u32::MAX)) as u32
}

// The extents, those that the block has room for.
fn put_extents(block: &mut [u8], extents: &[(u64, u64)])
    requires { 176 ≤ length block.old }
{
    let parts = block[EXTENTS..].chunks_exact_mut(EXTENT_LEN);
    for (part, (first, length)) in parts.zip(extents.iter()) {
        put_fields(part, &[Field::U64(0, *first), Field::U64(8, *length)]);
    }
}

/// The jumpstart in a block, with the extents of its driver.
pub(crate) fn jumpstart(
    alloc: Global,
    geometry: Geometry,
    at: usize,
    xid: u64,
    extents: &[(u64, u64)],
) -> Result<Vec<u8>, AllocError> {
    let head = Head::physical(at, xid, kind::JUMPSTART);
    let mut block = block_with(alloc, geometry.size, &head)?;
    let fields = [
        Field::U32(MAGIC, JUMP_MAGIC),
        Field::U32(VERSION, VERSION_1),
        Field::U32(DRIVER_LEN, driver_len(geometry, extents)),
        Field::U32(COUNT, (extents.len() % 0x1_0000_0000) as u32),
    ];
    put_fields(&mut block, &fields);
    put_extents(&mut block, extents);
    reseal(&mut block);
    Ok(block)
}
