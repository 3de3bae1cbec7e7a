// The values of the trees whose keys and values have fixed lengths.
ghost use Rattle.std.specs.Prelude.{◌≡◌, ◌≤◌, ◌+◌, length, option_map};
ghost use Rattle.apfs_model.specs.Bytes.{i32_at};
ghost use Rattle.bt_keys.specs.Values as spec;

use apfs_layout::key::KIND_UNIT;
use apfs_layout::value as layout;
use obj_base::{u32_at, u64_at};

/// Where a version of an object lies (Object Maps, `omap_val_t`).
#[derive(Clone, Copy, PartialEq, Eq)]
pub struct OmapValue {
    pub flags: u32,
    /// The object's size in bytes.
    pub size: u32,
    /// The object's first block.
    pub paddr: u64,
}

/// What an extent reference tree says of a range of blocks (File-System Objects, `j_phys_ext_val_t`).
#[derive(Clone, Copy, PartialEq, Eq)]
pub struct ExtValue {
    /// The length in blocks.
    pub length: u64,
    /// 1 for a new range, 2 for an update of one.
    pub kind: u8,
    /// The id of the stream that owns the range.
    pub owner: u64,
    /// How many streams refer to the range.
    pub count: i32,
}

/// The value of an object map's record; None where it is shorter than 16 bytes.
#[tactic(auto, unfolding(crate::specs::Values::omap_value_of))]
pub fn omap_value(value: &[u8]) -> Option<OmapValue>
    ensures { result ≡ spec.omap_value_of value.now }
{
    if value.len() < layout::OMAP_LEN {
        return None;
    }
    Some(OmapValue {
        flags: u32_at(value, layout::OMAP_FLAGS),
        size: u32_at(value, layout::OMAP_SIZE),
        paddr: u64_at(value, layout::OMAP_PADDR),
    })
}

/// The flags of an object map's snapshot; None where the value is shorter than 16 bytes.
#[tactic(auto, unfolding(crate::specs::Values::omap_snap_flags_of))]
pub fn omap_snap_flags(value: &[u8]) -> Option<u32>
    ensures { result ≡ spec.omap_snap_flags_of value.now }
{
    if value.len() < layout::MAP_SNAPSHOT_LEN {
        return None;
    }
    Some(u32_at(value, layout::MAP_SNAPSHOT_FLAGS))
}

/// The length in blocks of a free queue's entry: 1 without a value, and None where the value is shorter than 8 bytes
/// (Space Manager, `spaceman_free_queue_val_t`).
#[tactic(auto, unfolding(crate::specs::Values::queue_length_of))]
pub fn queue_length(value: Option<&[u8]>) -> Option<u64>
    ensures { result ≡ spec.queue_length_of (option_map (λ v. v.now) value.entry) }
{
    let Some(value) = value else {
        return Some(layout::GHOST_LENGTH);
    };
    if value.len() < layout::QUEUE_LEN {
        return None;
    }
    Some(u64_at(value, layout::QUEUE_LENGTH))
}

#[tactic(auto, unfolding(apfs_model::specs::Bytes::i32_at))]
fn i32_in(bytes: &[u8], at: usize) -> i32
    requires { at + 4 ≤ length bytes.now }
    ensures { result ≡ i32_at bytes.now at }
{
    u32_at(bytes, at).cast_signed()
}

/// What an extent's value says; None where it is shorter than 20 bytes.
#[tactic(auto, unfolding(crate::specs::Values::ext_value_of))]
pub fn ext_value(value: &[u8]) -> Option<ExtValue>
    ensures { result ≡ spec.ext_value_of value.now }
{
    if value.len() < layout::EXT_LEN {
        return None;
    }
    let word = u64_at(value, layout::EXT_LENGTH_AND_KIND);
    Some(ExtValue {
        length: word % KIND_UNIT,
        kind: (word / KIND_UNIT) as u8,
        owner: u64_at(value, layout::EXT_OWNER),
        count: i32_in(value, layout::EXT_COUNT),
    })
}
