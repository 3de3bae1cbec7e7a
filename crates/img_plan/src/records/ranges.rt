// Ranges of blocks: those that files own (Snapshot Metadata, j_phys_ext_key_t and j_phys_ext_val_t), and those that are
// freed (Space Manager, spaceman_free_queue_entry_t).
ghost use Rattle.std.specs.Prelude.{◌≡◌, IfOk, length};
ghost use Rattle.apfs_model.specs.Bytes as number;
ghost use Rattle.img_plan.specs.Records.{IsNumberValue, IsPairKey, IsRangeValue, IsShortKey};

use super::keys::{Item, both, key, number, pair, zeros};
use crate::plan::{NewRange, QueueEntry};
use apfs_layout::key::{EXTENT, KIND_UNIT, RECORD_LEN};
use apfs_layout::value;
use img_edit::{put_u32, put_u64};
use std::alloc::{AllocError, Global};

// The value of a range, in bytes that are zeros: its length with its kind, and how many streams have it.
fn put_range(value: &mut [u8], blocks: u64, count: i32)
    requires len { length value.old ≡ 20 }
    requires owner { number.u64_at value.old 8 ≡ 0 }
    ensures { IsRangeValue blocks count value.new }
{
    let word = blocks % KIND_UNIT + u64::from(value::EXT_NEW) * KIND_UNIT;
    put_u64(value, value::EXT_LENGTH_AND_KIND, word);
    put_u32(value, value::EXT_COUNT, count.cast_unsigned());
}

/// The record of a range of blocks that files own.
pub fn range_record(alloc: Global, range: &NewRange) -> Result<Item, AllocError>
    ensures key { IfOk result (λ item. IsShortKey range.now.first 2 item.0.items) }
    ensures value { IfOk result (λ item. IsRangeValue range.now.length range.now.count item.1.items) }
{
    let first = key(alloc, range.first, EXTENT, RECORD_LEN)?;
    let mut owned = zeros(alloc, value::EXT_LEN)?;
    put_range(&mut owned, range.length, range.count);
    Ok((first, owned))
}

/// The record of a range of blocks that are freed with a transaction.
pub fn queue_record(alloc: Global, entry: &QueueEntry) -> Result<Item, AllocError>
    ensures key { IfOk result (λ item. IsPairKey entry.now.xid entry.now.paddr item.0.items) }
    ensures value { IfOk result (λ item. IsNumberValue entry.now.length item.1.items) }
{
    both(
        pair(alloc, entry.xid, entry.paddr),
        number(alloc, entry.length),
    )
}
