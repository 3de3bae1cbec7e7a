// The parts of a record's key (File-System Objects, j_key_t).
ghost use Rattle.std.specs.Prelude.{◌≡◌, ◌≤◌, ◌<◌, length, true};
ghost use Rattle.bt_keys.specs.RecordKey as spec;

use apfs_layout::key as layout;
use obj_base::{u16_at, u32_at, u64_at};

#[tactic(auto, unfolding(crate::specs::RecordKey::id_of))]
pub(crate) fn id(key: &[u8]) -> u64
    requires { 8 ≤ length key.now }
    ensures { result ≡ spec.id_of key.now }
{
    u64_at(key, layout::ID_AND_KIND) % layout::KIND_UNIT
}

#[tactic(auto, unfolding(crate::specs::RecordKey::record_kind_of))]
pub(crate) fn kind(key: &[u8]) -> u8
    requires { 8 ≤ length key.now }
    ensures { result ≡ spec.record_kind_of key.now }
{
    (u64_at(key, layout::ID_AND_KIND) / layout::KIND_UNIT) as u8
}

#[tactic(auto, unfolding(crate::specs::RecordKey::len_and_hash_of))]
fn len_and_hash(key: &[u8]) -> u32
    requires { 12 ≤ length key.now }
    ensures { result ≡ spec.len_and_hash_of key.now }
{
    u32_at(key, layout::LEN_AND_HASH)
}

#[tactic(auto, unfolding(crate::specs::RecordKey::plain_name_len))]
fn plain_name_len(key: &[u8]) -> usize
    requires { 10 ≤ length key.now }
    ensures len { result ≡ spec.plain_name_len key.now }
    ensures small { result < 65536 }
{
    usize::from(u16_at(key, layout::NAME_LEN))
}

fn has_second(kind: u8) -> bool
    ensures { result ≡ spec.has_second kind }
{
    kind == layout::SIBLING_LINK || kind == layout::FILE_EXTENT
}

// Whether a hashed name lies inside its key.
fn has_hashed_name(key: &[u8]) -> bool
    ensures { result ≡ spec.has_hashed_name key.now }
{
    key.len() >= layout::HASHED_NAME
        && layout::HASHED_NAME + (len_and_hash(key) % layout::HASH_UNIT) as usize <= key.len()
}

// Whether another name lies inside its key.
pub(crate) fn has_plain_name(key: &[u8]) -> bool
    ensures { result ≡ spec.has_plain_name key.now }
{
    key.len() >= layout::PLAIN_NAME && layout::PLAIN_NAME + plain_name_len(key) <= key.len()
}

// Whether what the key's kind adds lies inside the key.
fn has_rest(hashed: bool, key: &[u8]) -> bool
    requires { 8 ≤ length key.now }
    ensures { result ≡ spec.has_rest hashed (spec.record_kind_of key.now) key.now }
{
    match kind(key) {
        layout::SIBLING_LINK | layout::FILE_EXTENT => key.len() >= layout::SECOND_LEN,
        layout::ENTRY if hashed => has_hashed_name(key),
        layout::ENTRY | layout::ATTRIBUTE => has_plain_name(key),
        _ => true,
    }
}

// Whether a key of a file-system tree is whole.
#[tactic(auto, unfolding(crate::specs::RecordKey::is_fs_key))]
pub(crate) fn is_fs_key(hashed: bool, key: &[u8]) -> bool
    ensures { result ≡ spec.is_fs_key hashed key.now }
{
    key.len() >= layout::RECORD_LEN && has_rest(hashed, key)
}

// Whether a key of a snapshot metadata tree is whole.
#[tactic(auto, unfolding(crate::specs::RecordKey::is_snap_key))]
pub(crate) fn is_snap_key(key: &[u8]) -> bool
    ensures { result ≡ spec.is_snap_key key.now }
{
    key.len() >= layout::RECORD_LEN
        && (kind(key) == layout::SNAPSHOT
            || (kind(key) == layout::SNAPSHOT_NAME && has_plain_name(key)))
}

// Whether a key of an extent reference tree is whole.
#[tactic(auto, unfolding(crate::specs::RecordKey::is_ext_key))]
pub(crate) fn is_ext_key(key: &[u8]) -> bool
    ensures { result ≡ spec.is_ext_key key.now }
{
    key.len() >= layout::RECORD_LEN && kind(key) == layout::EXTENT
}

// What orders the records of one id and kind.
#[tactic(auto, unfolding(crate::specs::RecordKey::sub_of, crate::specs::RecordKey::is_fs_key, crate::specs::RecordKey::second_of))]
pub(crate) fn sub(hashed: bool, key: &[u8]) -> u64
    requires { spec.is_fs_key hashed key.now ≡ true }
    ensures { result ≡ spec.sub_of hashed key.now }
{
    let kind = kind(key);
    if has_second(kind) {
        u64_at(key, layout::SECOND)
    } else if hashed && kind == layout::ENTRY {
        u64::from(len_and_hash(key) / layout::HASH_UNIT)
    } else {
        0
    }
}

// Whether an id has one record of this kind for each sub.
pub(crate) fn is_strict(kind: u8) -> bool
    ensures { result ≡ spec.is_strict_kind kind }
{
    matches!(
        kind,
        layout::INODE | layout::SIBLING_LINK | layout::FILE_EXTENT | layout::SIBLING_MAP
    )
}
