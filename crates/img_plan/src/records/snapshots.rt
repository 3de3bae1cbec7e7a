// Snapshots (Snapshot Metadata, j_snap_metadata_val_t and j_snap_name_val_t).
ghost use Rattle.std.specs.Prelude.{◌≡◌, ◌≤◌, ◌-◌, ◌^◌, IfOk, length, take, drop, replicate};
ghost use Rattle.img_plan.specs.Records.{IsNamedKey, IsNumberValue, IsShortKey, IsSnapshotFront, IsSnapshotValue};

use super::keys::{Item, both, key, key_named, number};
use super::names::zeros_and_name;
use apfs_layout::key::{KIND_UNIT, RECORD_LEN, SNAPSHOT, SNAPSHOT_NAME as NAME_KIND};
use apfs_layout::value::{
    SNAPSHOT_EXTENTS, SNAPSHOT_EXTENTS_TYPE, SNAPSHOT_NAME_LEN, SNAPSHOT_SUPERBLOCK,
};
use img_edit::{put_u32, put_u64};
use std::alloc::{AllocError, Global};

// A physical tree (Objects, Object Types and Object Type Flags).
const PHYSICAL_TREE: u32 = 0x4000_0002;

// The id of all snapshot names.
const NAMES_ID: u64 = KIND_UNIT - 1;

// The numbers before a snapshot's name, in bytes that start with zeros.
fn put_snapshot(value: &mut [u8], extents: u64, superblock: u64)
    requires len { 48 ≤ length value.old }
    requires zeros { take 48 value.old ≡ replicate 48 0 }
    ensures numbers { IsSnapshotFront extents superblock value.new }
    ensures same { drop 48 value.new ≡ drop 48 value.old }
{
    put_u64(value, SNAPSHOT_EXTENTS, extents);
    put_u64(value, SNAPSHOT_SUPERBLOCK, superblock);
    put_u32(value, SNAPSHOT_EXTENTS_TYPE, PHYSICAL_TREE);
}

/// The record of a snapshot of a transaction: the block of its extent reference tree's root, that of its volume
/// superblock, and its name.
pub fn snapshot_record(
    alloc: Global,
    xid: u64,
    extents: u64,
    superblock: u64,
    name: &[u8],
) -> Result<Item, AllocError>
    requires { length name.now ≤ 1022 }
    ensures key { IfOk result (λ item. IsShortKey xid 1 item.0.items) }
    ensures value { IfOk result (λ item. IsSnapshotValue extents superblock name.now item.1.items) }
{
    let key = key(alloc, xid, SNAPSHOT, RECORD_LEN)?;
    let mut value = zeros_and_name(alloc, SNAPSHOT_NAME_LEN, name)?;
    put_snapshot(&mut value, extents, superblock);
    Ok((key, value))
}

/// The record that leads from a snapshot's name to its transaction.
pub fn snapshot_name(alloc: Global, xid: u64, name: &[u8]) -> Result<Item, AllocError>
    requires { length name.now ≤ 1022 }
    ensures key { IfOk result (λ item. IsNamedKey (2 ^ 60 - 1) 11 name.now item.0.items) }
    ensures value { IfOk result (λ item. IsNumberValue xid item.1.items) }
{
    both(
        key_named(alloc, NAMES_ID, NAME_KIND, name),
        number(alloc, xid),
    )
}
