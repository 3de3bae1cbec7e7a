// Directory entries (File-System Objects, j_drec_key_t, j_drec_hashed_key_t and j_drec_val_t).
ghost use Rattle.std.specs.Prelude.{◌≡◌, ◌≤◌, ◌+◌, length, true, IfSome, option_map};
ghost use Rattle.apfs_model.specs.Bytes as numbers;
ghost use Rattle.bt_keys.specs.RecordKey.{has_hashed_name, hash_of, hashed_name_of};
ghost use Rattle.fs_record.specs.Entries.{entry_of, entry_name_bytes, entry_hash};
ghost use Rattle.fs_record.specs.Reading.{has_entry_name};

use crate::RecFault;
use crate::attributes::plain_name;
use crate::fields::find;
use apfs_layout::{key as keys, record as layout};
use fs_name::{Names, stored_name};
use obj_base::{u16_at, u32_at, u64_at};
use std::marker::Model;

/// A directory entry.
#[derive(Drop)]
pub struct DirEntry<'a> {
    name: &'a str,
    hash: u32,
    file_id: u64,
    kind: u16,
    sibling: Option<u64>,
}

impl<'a> Model for DirEntry<'a> {
    ghost use Rattle.fs_record.specs.Entries.{Entry};

    ghost Value = { Entry };

    ghost view = { λ a. record { name = a.name.now; hash = a.hash; file_id = a.file_id; kind = a.kind; sibling = a.sibling } };
}

impl<'a> DirEntry<'a> {
    /// The name, without its final zero.
    pub fn name(&self) -> &'a str
        ensures { result.now ≡ self.now.name }
    {
        self.name
    }

    /// The stored hash of the name; 0 where names aren't hashed.
    pub fn hash(&self) -> u32
        ensures { result ≡ self.now.hash }
    {
        self.hash
    }

    /// The id of the file.
    pub fn file_id(&self) -> u64
        ensures { result ≡ self.now.file_id }
    {
        self.file_id
    }

    /// The kind of the file, as in its inode.
    pub fn kind(&self) -> u16
        ensures { result ≡ self.now.kind }
    {
        self.kind
    }

    /// The id of the sibling, where the entry has one.
    pub fn sibling(&self) -> Option<u64>
        ensures { result ≡ self.now.sibling }
    {
        self.sibling
    }
}

// The name in a key with a hashed name, with its final zero.
#[tactic(auto, unfolding(bt_keys::specs::RecordKey::len_and_hash_of, bt_keys::specs::RecordKey::hashed_name_of))]
fn hashed_name(key: &[u8]) -> &[u8]
    requires { has_hashed_name key.now ≡ true }
    ensures { result.now ≡ hashed_name_of key.now }
{
    let len = (u32_at(key, keys::LEN_AND_HASH) % keys::HASH_UNIT) as usize;
    &key[keys::HASHED_NAME..keys::HASHED_NAME + len]
}

// The hash in a key with a hashed name.
#[tactic(auto, unfolding(bt_keys::specs::RecordKey::len_and_hash_of))]
fn stored_hash(key: &[u8]) -> u32
    requires { has_hashed_name key.now ≡ true }
    ensures { result ≡ hash_of key.now }
{
    u32_at(key, keys::LEN_AND_HASH) / keys::HASH_UNIT
}

// The name in a key, with its final zero.
fn name_bytes(names: Names, key: &[u8]) -> &[u8]
    requires { has_entry_name names key.now ≡ true }
    ensures { result.now ≡ entry_name_bytes names key.now }
{
    match names {
        Names::Exact => plain_name(key),
        Names::Normal | Names::Folded => hashed_name(key),
    }
}

// The hash in a key; 0 where names aren't hashed.
fn hash(names: Names, key: &[u8]) -> u32
    requires { has_entry_name names key.now ≡ true }
    ensures { result ≡ entry_hash names key.now }
{
    match names {
        Names::Exact => 0,
        Names::Normal | Names::Folded => stored_hash(key),
    }
}

// The id of the sibling whose field is at this place, if there is one.
fn sibling(value: &[u8], place: Option<usize>) -> Option<u64>
    requires { IfSome place (λ at. at + 8 ≤ length value.now) }
    ensures { result ≡ option_map (numbers.u64_at value.now) place }
{
    match place {
        Some(at) => Some(u64_at(value, at)),
        None => None,
    }
}

/// The entry of a record, whose key has its name. `Length` where the value is shorter than 18 bytes; otherwise `Fields`
/// where its extended fields don't fit it or that of its sibling has fewer than 8 bytes; otherwise `Name` where the key's
/// isn't a proper name.
#[tactic(auto, using(crate::proofs::Readings::entry_short, crate::proofs::Readings::entry_bad, crate::proofs::Readings::entry_unnamed, crate::proofs::Readings::entry_read))]
pub fn entry<'a>(names: Names, key: &'a [u8], value: &'a [u8]) -> Result<DirEntry<'a>, RecFault>
    requires { has_entry_name names key.now ≡ true }
    ensures { result ≡ entry_of names key.now value.now }
{
    if value.len() < layout::ENTRY_LEN {
        return Err(RecFault::Length);
    }
    let place = find(
        value,
        layout::ENTRY_LEN,
        layout::FIELD_SIBLING,
        layout::FIELD_SIBLING_LEN,
    )?;
    let Some(name) = stored_name(name_bytes(names, key)) else {
        return Err(RecFault::Name);
    };
    Ok(DirEntry {
        name,
        hash: hash(names, key),
        file_id: u64_at(value, layout::ENTRY_FILE_ID),
        kind: u16_at(value, layout::ENTRY_FLAGS) % layout::ENTRY_KINDS,
        sibling: sibling(value, place),
    })
}
