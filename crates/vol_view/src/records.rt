// The records of a snapshot metadata tree (Snapshot Metadata, j_snap_metadata_val_t and j_snap_name_val_t).
ghost use Rattle.std.specs.Prelude.{◌≡◌, ◌≤◌, ◌+◌, true, length, option_map, IfOk};
ghost use Rattle.bt_keys.specs.RecordKey.{has_plain_name, plain_name_of};
ghost use Rattle.vol_view.specs.Gathered.{named_in_value, snapshot_read, name_read};

use apfs_layout::{key, value as layout};
use blk_source::{Bytes, NoMemory};
use fs_name::stored_name;
use obj_base::{u16_at, u32_at, u64_at};
use std::alloc::Global;

/// What a snapshot's record tells.
#[derive(Drop)]
pub(crate) struct SnapshotRecord {
    pub xid: u64,
    pub created: u64,
    pub name: Bytes,
    pub super_block: u64,
    pub extents_root: u64,
    pub flags: u32,
}

/// What the record of a snapshot's name tells.
#[derive(Drop)]
pub(crate) struct NameRecord {
    pub xid: u64,
    pub name: Bytes,
}

// The name in a snapshot's record, where the record is long enough for it and it is proper.
#[tactic(auto, unfolding(crate::specs::SnapRecords::snap_name_len, crate::specs::SnapRecords::snap_name_bytes))]
fn snapshot_name(value: &[u8]) -> Option<&str>
    ensures { option_map (λ name. name.now) result ≡ named_in_value value.now }
{
    if value.len() < layout::SNAPSHOT_NAME {
        return None;
    }
    let end = layout::SNAPSHOT_NAME + usize::from(u16_at(value, layout::SNAPSHOT_NAME_LEN));
    if value.len() < end {
        return None;
    }
    stored_name(&value[layout::SNAPSHOT_NAME..end])
}

/// What a snapshot's record tells; None where it is too short or has no proper name.
#[tactic(auto, unfolding(crate::specs::SnapRecords::snap_extents_of, crate::specs::SnapRecords::snap_super_of, crate::specs::SnapRecords::snap_created_of, crate::specs::SnapRecords::snap_flags_of))]
pub(crate) fn snapshot_record(
    alloc: Global,
    xid: u64,
    value: &[u8],
) -> Result<Option<SnapshotRecord>, NoMemory>
    ensures { IfOk result (λ told. told ≡ snapshot_read xid value.now) }
{
    let Some(name) = snapshot_name(value) else {
        return Ok(None);
    };
    let name = Bytes::from_slice(alloc, name.as_bytes())?;
    Ok(Some(SnapshotRecord {
        xid,
        created: u64_at(value, layout::SNAPSHOT_CREATED),
        name,
        super_block: u64_at(value, layout::SNAPSHOT_SUPERBLOCK),
        extents_root: u64_at(value, layout::SNAPSHOT_EXTENTS),
        flags: u32_at(value, layout::SNAPSHOT_FLAGS),
    }))
}

// The name in a key, with its final zero.
#[tactic(auto, unfolding(bt_keys::specs::RecordKey::plain_name_len, bt_keys::specs::RecordKey::plain_name_of))]
fn plain_name(key: &[u8]) -> &[u8]
    requires { has_plain_name key.now ≡ true }
    ensures { result.now ≡ plain_name_of key.now }
{
    &key[key::PLAIN_NAME..key::PLAIN_NAME + usize::from(u16_at(key, key::NAME_LEN))]
}

/// What the record of a snapshot's name tells; None where it is too short or has no proper name.
pub(crate) fn name_record(
    alloc: Global,
    key: &[u8],
    value: &[u8],
) -> Result<Option<NameRecord>, NoMemory>
    requires { has_plain_name key.now ≡ true }
    ensures { IfOk result (λ told. told ≡ name_read key.now value.now) }
{
    if value.len() < layout::SNAPSHOT_NAME_XID + size_of::<u64>() {
        return Ok(None);
    }
    let Some(name) = stored_name(plain_name(key)) else {
        return Ok(None);
    };
    let name = Bytes::from_slice(alloc, name.as_bytes())?;
    Ok(Some(NameRecord {
        xid: u64_at(value, layout::SNAPSHOT_NAME_XID),
        name,
    }))
}
