// Streams of files (Data Streams, j_dstream_id_val_t and j_file_extent_val_t).
ghost use Rattle.std.specs.Prelude.{◌≡◌, IfOk, length};
ghost use Rattle.apfs_model.specs.Bytes as number;
ghost use Rattle.img_plan.specs.Records.{IsExtentValue, IsLongKey, IsShortKey, IsStreamValue};

use super::keys::{Item, key, key_with, zeros};
use apfs_layout::key::{FILE_EXTENT, RECORD_LEN, STREAM_ID};
use apfs_layout::record::{EXTENT_BLOCK, EXTENT_LEN, EXTENT_LENGTH, STREAM_COUNT, STREAM_ID_LEN};
use img_edit::{put_u32, put_u64};
use std::alloc::{AllocError, Global};

// One more than the greatest length of an extent: the high 8 bits are flags.
const FLAGS_UNIT: u64 = 1 << 56;

/// The record that there is a stream, which one file has.
pub fn stream_id(alloc: Global, stream: u64) -> Result<Item, AllocError>
    ensures key { IfOk result (λ item. IsShortKey stream 6 item.0.items) }
    ensures value { IfOk result (λ item. IsStreamValue item.1.items) }
{
    let key = key(alloc, stream, STREAM_ID, RECORD_LEN)?;
    let mut value = zeros(alloc, STREAM_ID_LEN)?;
    put_u32(&mut value, STREAM_COUNT, 1);
    Ok((key, value))
}

// The value of an extent, in bytes that are zeros.
fn put_extent(value: &mut [u8], bytes: u64, block: u64)
    requires len { length value.old ≡ 24 }
    requires key { number.u64_at value.old 16 ≡ 0 }
    ensures { IsExtentValue bytes block value.new }
{
    put_u64(value, EXTENT_LENGTH, bytes % FLAGS_UNIT);
    put_u64(value, EXTENT_BLOCK, block);
}

/// The record of an extent of a stream: its logical address and its length in bytes, and its first block, or 0 where
/// it is a hole.
pub fn file_extent(
    alloc: Global,
    stream: u64,
    address: u64,
    length: u64,
    block: u64,
) -> Result<Item, AllocError>
    ensures key { IfOk result (λ item. IsLongKey stream 8 address item.0.items) }
    ensures value { IfOk result (λ item. IsExtentValue length block item.1.items) }
{
    let key = key_with(alloc, stream, FILE_EXTENT, address)?;
    let mut value = zeros(alloc, EXTENT_LEN)?;
    put_extent(&mut value, length, block);
    Ok((key, value))
}
