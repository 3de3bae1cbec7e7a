// Records of object maps (Object Maps, omap_key_t, omap_val_t and omap_snapshot_t), and of nodes above the leaves.
ghost use Rattle.std.specs.Prelude.{◌≡◌, IfOk, length, replicate};
ghost use Rattle.apfs_model.specs.Bytes as number;
ghost use Rattle.img_plan.specs.Records.{IsMapValue, IsNumberKey, IsNumberValue, IsPairKey};

use super::keys::{Item, both, number, pair, zeros};
use apfs_layout::value;
use img_edit::{put_u32, put_u64};
use std::alloc::{AllocError, Global};

// The value of a mapping, in bytes that are zeros.
fn put_map_value(map_value: &mut [u8], bytes: u32, block: u64)
    requires len { length map_value.old ≡ 16 }
    requires flags { number.u32_at map_value.old 0 ≡ 0 }
    ensures { IsMapValue bytes block map_value.new }
{
    put_u32(map_value, value::OMAP_SIZE, bytes);
    put_u64(map_value, value::OMAP_PADDR, block);
}

/// The record by which an object map finds an object of so many bytes, at a transaction, in a block.
pub fn map_record(
    alloc: Global,
    oid: u64,
    xid: u64,
    bytes: u32,
    block: u64,
) -> Result<Item, AllocError>
    ensures key { IfOk result (λ item. IsPairKey oid xid item.0.items) }
    ensures value { IfOk result (λ item. IsMapValue bytes block item.1.items) }
{
    let map_key = pair(alloc, oid, xid)?;
    let mut map_value = zeros(alloc, value::OMAP_LEN)?;
    put_map_value(&mut map_value, bytes, block);
    Ok((map_key, map_value))
}

/// The record by which an object map tells of a snapshot's transaction.
pub fn map_snapshot(alloc: Global, xid: u64) -> Result<Item, AllocError>
    ensures key { IfOk result (λ item. IsNumberKey xid item.0.items) }
    ensures value { IfOk result (λ item. item.1.items ≡ replicate 16 0) }
{
    both(number(alloc, xid), zeros(alloc, value::MAP_SNAPSHOT_LEN))
}

/// The item by which a node names its child.
pub fn child(alloc: Global, first_key: &[u8], oid: u64) -> Result<Item, AllocError>
    ensures key { IfOk result (λ item. item.0.items ≡ first_key.now) }
    ensures value { IfOk result (λ item. IsNumberValue oid item.1.items) }
{
    both(first_key.to_vec(alloc), number(alloc, oid))
}
