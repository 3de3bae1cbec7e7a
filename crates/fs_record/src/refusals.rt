// Records that their readers refuse.
ghost use Rattle.std.specs.Prelude.{◌≡◌, ◌≤◌, length, true, Some, option_map};
ghost use Rattle.bt_node.specs.Entries.{bytes_in};
ghost use Rattle.bt_keys.specs.RecordKey.{is_fs_key, record_kind_of};
ghost use Rattle.fs_name.specs.Normal.{are_hashed};
ghost use Rattle.fs_record.specs.Facts as facts;
ghost use Rattle.fs_record.specs.declared.fault.RecFault.{RecFault};

use crate::{RecFault, attr, entry, file_ext, inode, sibling_link, sibling_map};
use apfs_layout::key as kinds;
use bt_keys::FsTreeKey;
use bt_node::Entry;
use fs_name::Names;

// Why an answer is a refusal, if it is one.
fn fault<T: Drop>(read: Result<T, RecFault>) -> Option<RecFault>
    ensures { result ≡ facts.fault_of read }
{
    match read {
        Ok(_) => None,
        Err(why) => Some(why),
    }
}

// The bytes of a value, none where there is no value.
fn bytes(value: Option<&[u8]>) -> &[u8]
    ensures { result.now ≡ bytes_in (option_map (λ v. v.now) value.entry) }
{
    value.unwrap_or(&[])
}

// The same, by the kind of the record.
#[tactic(auto, using(bt_keys::proofs::FsKeys::entry_named, bt_keys::proofs::FsKeys::attribute_named, bt_keys::proofs::FsKeys::link_long, bt_keys::proofs::FsKeys::extent_long), unfolding(crate::specs::Facts::refused))]
fn refused_by(names: Names, kind: u8, key: &[u8], value: Option<&[u8]>) -> Option<RecFault>
    requires whole { is_fs_key (are_hashed names) key.now ≡ true }
    requires kind { kind ≡ record_kind_of key.now }
    ensures { result ≡ facts.refused names (record { key = key.now; value = option_map (λ v. v.now) value.entry }) }
{
    let value = bytes(value);
    match kind {
        kinds::INODE => fault(inode(value)),
        kinds::ATTRIBUTE => fault(attr(key, value)),
        kinds::SIBLING_LINK => fault(sibling_link(key, value)),
        kinds::FILE_EXTENT => fault(file_ext(key, value)),
        kinds::ENTRY => fault(entry(names, key, value)),
        kinds::SIBLING_MAP => fault(sibling_map(value)),
        _ => None,
    }
}

/// The part for which the reader of a record refuses it, if it does. Records of other kinds aren't looked into.
#[tactic(auto, using(bt_keys::proofs::FsKeys::kind_read))]
pub fn refused<K: FsTreeKey>(names: Names, item: &Entry<'_, K>) -> Option<RecFault>
    requires hashed { are_hashed names ≡ K.HASHED }
    requires read { K.shape.read item.now.key_bytes.now ≡ Some item.now.key }
    ensures { result ≡ facts.refused names (record { key = item.now.key_bytes.now; value = option_map (λ v. v.now) item.now.value }) }
{
    refused_by(names, item.key.kind(), item.key_bytes, item.value)
}
