// Siblings: the names of a file that has several (Siblings, j_sibling_key_t, j_sibling_val_t and j_sibling_map_val_t).
ghost use Rattle.std.specs.Prelude.{◌≡◌, ◌≤◌, length, false};
ghost use Rattle.fs_record.specs.Siblings.{link_of, link_name_bytes, is_link_short, sibling_file_of};

use crate::RecFault;
use apfs_layout::{key as keys, record as layout};
use fs_name::stored_name;
use obj_base::{u16_at, u64_at};
use std::marker::Model;

/// A sibling link: one of the names of a file.
#[derive(Drop)]
pub struct Sibling<'a> {
    file: u64,
    sibling: u64,
    parent: u64,
    name: &'a str,
}

impl<'a> Model for Sibling<'a> {
    ghost use Rattle.fs_record.specs.Siblings.{Link};

    ghost Value = { Link };

    ghost view = { λ a. record { file = a.file; sibling = a.sibling; parent = a.parent; name = a.name.now } };
}

impl<'a> Sibling<'a> {
    /// The id of the file.
    pub fn file(&self) -> u64
        ensures { result ≡ self.now.file }
    {
        self.file
    }

    /// The id of the sibling.
    pub fn sibling(&self) -> u64
        ensures { result ≡ self.now.sibling }
    {
        self.sibling
    }

    /// The id of the directory that has the name.
    pub fn parent(&self) -> u64
        ensures { result ≡ self.now.parent }
    {
        self.parent
    }

    /// The name, without its final zero.
    pub fn name(&self) -> &'a str
        ensures { result.now ≡ self.now.name }
    {
        self.name
    }
}

// Whether a link's value is too short for its name.
#[tactic(auto, unfolding(crate::specs::Siblings::is_link_short, crate::specs::Siblings::link_name_len))]
fn is_short(value: &[u8]) -> bool
    ensures short { result ≡ is_link_short value.now }
    ensures long { result ≡ false → 10 ≤ length value.now }
{
    value.len() < layout::LINK_NAME
        || value.len() < layout::LINK_NAME + usize::from(u16_at(value, layout::LINK_NAME_LEN))
}

// A link's name, with its final zero.
#[tactic(auto, unfolding(crate::specs::Siblings::is_link_short, crate::specs::Siblings::link_name_len, crate::specs::Siblings::link_name_bytes))]
fn name_bytes(value: &[u8]) -> &[u8]
    requires { is_link_short value.now ≡ false }
    ensures { result.now ≡ link_name_bytes value.now }
{
    &value[layout::LINK_NAME..layout::LINK_NAME + usize::from(u16_at(value, layout::LINK_NAME_LEN))]
}

/// The sibling link of a record, whose key has the file and the sibling. `Length` where the value is too short for its
/// name, otherwise `Name` where that isn't a proper name.
#[tactic(auto, unfolding(crate::specs::Siblings::link_of, bt_keys::specs::RecordKey::id_of, bt_keys::specs::RecordKey::second_of, fs_name::specs::Steps::name_of))]
pub fn sibling_link<'a>(key: &[u8], value: &'a [u8]) -> Result<Sibling<'a>, RecFault>
    requires { 16 ≤ length key.now }
    ensures { result ≡ link_of key.now value.now }
{
    if is_short(value) {
        return Err(RecFault::Length);
    }
    match stored_name(name_bytes(value)) {
        Some(name) => Ok(Sibling {
            file: u64_at(key, keys::ID_AND_KIND) % keys::KIND_UNIT,
            sibling: u64_at(key, keys::SECOND),
            parent: u64_at(value, layout::LINK_PARENT),
            name,
        }),
        None => Err(RecFault::Name),
    }
}

/// The file of a sibling, by the value of its record. `Length` exactly where that is shorter than 8 bytes.
#[tactic(auto, unfolding(crate::specs::Siblings::sibling_file_of))]
pub fn sibling_map(value: &[u8]) -> Result<u64, RecFault>
    ensures { result ≡ sibling_file_of value.now }
{
    if value.len() < layout::MAP_LEN {
        return Err(RecFault::Length);
    }
    Ok(u64_at(value, layout::MAP_FILE))
}
