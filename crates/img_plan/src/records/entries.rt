// Entries of directories (File-System Objects, j_drec_hashed_key_t and j_drec_val_t).
ghost use Rattle.std.specs.Prelude.{◌≡◌, ◌≤◌, ◌+◌, ◌<◌, ◌^◌, [], ◌∷◌, IfOk, IsNone, drop, length, take, vec_len};
ghost use Rattle.apfs_model.specs.Bytes as number;
ghost use Rattle.img_plan.specs.Records.{IsEntryFront, IsEntryKey, IsEntryValue, IsHashedKey, IsSiblingField};

use super::fields::{ONE_FIELD, put_field_at};
use super::keys::{Item, both, key_named, put_start, zeros};
use apfs_layout::key::{ENTRY, HASH_UNIT, HASHED_NAME, LEN_AND_HASH};
use apfs_layout::record::{
    ENTRY_FILE_ID, ENTRY_FLAGS, ENTRY_LEN, FIELD_SIBLING, FIELD_SIBLING_LEN,
};
use fs_name::{Names, name_hash};
use img_edit::{put_bytes, put_u16, put_u32, put_u64};
use std::alloc::{AllocError, Global};

/// What an entry says beside its name.
#[derive(Clone, Copy)]
pub struct EntryPlan {
    /// The directory that has the entry.
    pub directory: u64,
    /// The inode that it names.
    pub file: u64,
    /// The kind of the inode: 4 for a directory, 8 for a regular file, 10 for a symbolic link.
    pub kind: u16,
    /// The sibling id, where the file has several names.
    pub sibling: Option<u64>,
}

// The key of an entry whose name is hashed, in bytes of which the last is zero.
fn put_hashed(key: &mut [u8], directory: u64, name: &[u8], hash: u32)
    requires short { length name.now ≤ 1022 }
    requires whole { length key.old ≡ 13 + length name.now }
    requires last { drop (12 + length name.now) key.old ≡ 0 ∷ [] }
    ensures { IsHashedKey directory hash name.now key.new }
{
    put_start(key, directory, ENTRY);
    let word = (hash % 0x40_0000) * HASH_UNIT + name.len() as u32 + 1;
    put_u32(key, LEN_AND_HASH, word);
    put_bytes(key, HASHED_NAME, name);
}

// The key of an entry whose name is hashed.
fn hashed_key(alloc: Global, directory: u64, name: &[u8], hash: u32) -> Result<Vec<u8>, AllocError>
    requires { length name.now ≤ 1022 }
    ensures len { IfOk result (λ key. vec_len key ≡ 13 + length name.now) }
    ensures key { IfOk result (λ key. IsHashedKey directory hash name.now key.items) }
{
    let mut key = zeros(alloc, HASHED_NAME + name.len() + 1)?;
    put_hashed(&mut key, directory, name, hash);
    Ok(key)
}

// The key of an entry on a volume of these names: its name is hashed, save where only equal bytes make equal names.
fn entry_key(alloc: Global, names: Names, directory: u64, name: &str) -> Result<Vec<u8>, AllocError>
    requires { length name.now ≤ 1022 }
    ensures len { IfOk result (λ key. vec_len key ≤ 13 + length name.now) }
    ensures key { IfOk result (λ key. IsEntryKey names directory name.now key.items) }
{
    if names == Names::Exact {
        return key_named(alloc, directory, ENTRY, name.as_bytes());
    }
    match name_hash(alloc, names, name) {
        Ok(hash) => hashed_key(alloc, directory, name.as_bytes(), hash),
        Err(_) => Err(AllocError),
    }
}

// The fixed part of an entry's value, in bytes that are zeros.
fn put_entry(value: &mut [u8], file: u64, kind: u16)
    requires len { 18 ≤ length value.old }
    requires added { number.u64_at value.old 8 ≡ 0 }
    ensures { IsEntryFront file kind value.new }
{
    put_u64(value, ENTRY_FILE_ID, file);
    put_u16(value, ENTRY_FLAGS, kind);
}

// The fixed part of an entry's value, with so many bytes after it.
fn entry_front(alloc: Global, plan: &EntryPlan, more: usize) -> Result<Vec<u8>, AllocError>
    requires { more ≤ 100 }
    ensures len { IfOk result (λ value. vec_len value ≡ 18 + more) }
    ensures front { IfOk result (λ value. IsEntryFront plan.now.file plan.now.kind value.items) }
{
    let mut value = zeros(alloc, ENTRY_LEN + more)?;
    put_entry(&mut value, plan.file, plan.kind);
    Ok(value)
}

// A sibling id in the bytes after the fixed part of an entry's value.
fn put_sibling(value: &mut [u8], sibling: u64)
    requires { length value.old ≡ 34 }
    ensures field { IsSiblingField sibling (drop 18 value.new) }
    ensures front { take 18 value.new ≡ take 18 value.old }
{
    let mut number = [0u8; FIELD_SIBLING_LEN];
    put_u64(&mut number, 0, sibling);
    put_field_at(value, ENTRY_LEN, FIELD_SIBLING, &number);
}

// The value of an entry.
fn entry_value(alloc: Global, plan: &EntryPlan) -> Result<Vec<u8>, AllocError>
    ensures value { IfOk result (λ value. IsEntryValue plan.now value.items) }
    ensures len { IsNone plan.now.sibling → IfOk result (λ value. vec_len value ≡ 18) }
{
    let Some(sibling) = plan.sibling else {
        return entry_front(alloc, plan, 0);
    };
    let mut value = entry_front(alloc, plan, ONE_FIELD + FIELD_SIBLING_LEN)?;
    put_sibling(&mut value, sibling);
    Ok(value)
}

/// The record of an entry with a name, on a volume of these names.
pub fn entry(alloc: Global, names: Names, plan: &EntryPlan, name: &str) -> Result<Item, AllocError>
    requires { length name.now ≤ 1022 }
    ensures key { IfOk result (λ item. IsEntryKey names plan.now.directory name.now item.0.items) }
    ensures value { IfOk result (λ item. IsEntryValue plan.now item.1.items) }
    ensures key_len { IfOk result (λ item. vec_len item.0 ≤ 13 + length name.now) }
    ensures value_len { IsNone plan.now.sibling → IfOk result (λ item. vec_len item.1 ≡ 18) }
{
    both(
        entry_key(alloc, names, plan.directory, name),
        entry_value(alloc, plan),
    )
}
