// The reaper (Reaper, nx_reaper_phys_t).
use crate::geometry::Geometry;
use crate::objects::fields::{Field, put_fields};
use apfs_layout::kind;
use apfs_layout::reaping::{REAPER_BUFFER, REAPER_BUFFER_SIZE, REAPER_FLAGS, REAPER_NEXT_ID};
use img_edit::header::{Head, block_with};
use img_edit::places::REAPER_OID;
use img_edit::reseal;
use std::alloc::{AllocError, Global};

// This flag is always set (Reaper, Volume Reaper Flags).
const ALWAYS_SET: u32 = 1;

/// The reaper, which has nothing to do.
pub(crate) fn reaper(alloc: Global, geometry: Geometry, xid: u64) -> Result<Vec<u8>, AllocError> {
    let head = Head::ephemeral(REAPER_OID, xid, kind::REAPER);
    let mut block = block_with(alloc, geometry.size, &head)?;
    let buffer = geometry.size - REAPER_BUFFER;
    let fields = [
        Field::U64(REAPER_NEXT_ID, 1),
        Field::U32(REAPER_FLAGS, ALWAYS_SET),
        Field::U32(REAPER_BUFFER_SIZE, buffer as u32),
    ];
    put_fields(&mut block, &fields);
    reseal(&mut block);
    Ok(block)
}
