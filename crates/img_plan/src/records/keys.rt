// The keys of records (File-System Objects, j_key_t), and what an item takes in a node.
ghost use Rattle.std.specs.Prelude.{◌≡◌, ◌≤◌, ◌<◌, ◌+◌, ◌-◌, ◌%◌, ◌^◌, min, IfOk, Ok, drop, length, replicate, vec_len};
ghost use Rattle.apfs_model.specs.Bytes as number;
ghost use Rattle.img_plan.specs.Nodes.{bytes_in_node};
ghost use Rattle.img_plan.specs.Records.{IsLongKey, IsNamedKey, IsNumberValue, IsPairKey, id_and_kind, id_of, kind_of, rank_of, sub_of};

use super::names::zeros_and_name;
use apfs_layout::key::{
    ENTRY, FILE_EXTENT, ID_AND_KIND, KIND_UNIT, LEN_AND_HASH, NAME_LEN, RECORD_LEN, SECOND,
    SECOND_LEN, SIBLING_LINK,
};
use apfs_layout::node::VARIABLE_ENTRY_LEN;
pub use img_edit::node::Item;
use img_edit::put_u64;
use obj_base::{u32_at, u64_at};
use std::alloc::{AllocError, Global};

/// The bytes that an item takes in a node whose keys and values differ in size; as many as a number can tell.
pub fn node_bytes(item: &Item) -> usize
    ensures { result ≡ min (bytes_in_node (vec_len item.now.0) (vec_len item.now.1)) (2 ^ 64 - 1) }
{
    item.0
        .len()
        .saturating_add(item.1.len())
        .saturating_add(VARIABLE_ENTRY_LEN)
}

// An item of a key and a value that were made.
pub(crate) fn both(
    key: Result<Vec<u8>, AllocError>,
    value: Result<Vec<u8>, AllocError>,
) -> Result<Item, AllocError>
    ensures key { IfOk result (λ item. key ≡ Ok item.0) }
    ensures value { IfOk result (λ item. value ≡ Ok item.1) }
{
    Ok((key?, value?))
}

// So many zeros.
pub(crate) fn zeros(alloc: Global, len: usize) -> Result<Vec<u8>, AllocError>
    ensures len { IfOk result (λ bytes. vec_len bytes ≡ len) }
    ensures zeros { IfOk result (λ bytes. bytes.items ≡ replicate len 0) }
{
    Ok(vec![in alloc; 0u8; len]?)
}

// The bytes of a number of 64 bits.
const NUMBER_LEN: usize = 8;

// A key or a value that is a number.
pub(crate) fn number(alloc: Global, number: u64) -> Result<Vec<u8>, AllocError>
    ensures { IfOk result (λ bytes. IsNumberValue number bytes.items) }
{
    let mut bytes = zeros(alloc, NUMBER_LEN)?;
    put_u64(&mut bytes, 0, number);
    Ok(bytes)
}

// Two numbers in the bytes of both.
fn put_pair(pair: &mut [u8], first: u64, second: u64)
    requires { length pair.old ≡ 16 }
    ensures { IsPairKey first second pair.new }
{
    put_u64(pair, 0, first);
    put_u64(pair, NUMBER_LEN, second);
}

// A key that is two numbers.
pub(crate) fn pair(alloc: Global, first: u64, second: u64) -> Result<Vec<u8>, AllocError>
    ensures { IfOk result (λ key. IsPairKey first second key.items) }
{
    let mut pair = zeros(alloc, 2 * NUMBER_LEN)?;
    put_pair(&mut pair, first, second);
    Ok(pair)
}

// The start of a key: an id, of which the low 60 bits count, and a kind.
pub(super) fn put_start(key: &mut [u8], id: u64, kind: u8)
    requires { 8 ≤ length key.old }
    ensures start { number.u64_at key.new 0 ≡ id_and_kind id (kind % 16) }
    ensures same { drop 8 key.new ≡ drop 8 key.old }
{
    let word = id % KIND_UNIT + u64::from(kind % 16) * KIND_UNIT;
    put_u64(key, ID_AND_KIND, word);
}

// A key of so many bytes that starts with an id, of which the low 60 bits count, and a kind.
pub(crate) fn key(alloc: Global, id: u64, kind: u8, len: usize) -> Result<Vec<u8>, AllocError>
    requires { 8 ≤ len }
    ensures len { IfOk result (λ key. vec_len key ≡ len) }
    ensures start { IfOk result (λ key. number.u64_at key.items 0 ≡ id_and_kind id (kind % 16)) }
{
    let mut key = zeros(alloc, len)?;
    put_start(&mut key, id, kind);
    Ok(key)
}

// The second number of a key.
fn put_second(key: &mut [u8], second: u64)
    requires { length key.old ≡ 16 }
    ensures start { number.u64_at key.new 0 ≡ number.u64_at key.old 0 }
    ensures second { number.u64_at key.new 8 ≡ second }
{
    put_u64(key, SECOND, second);
}

// A key of an id, a kind and a second number.
pub(crate) fn key_with(alloc: Global, id: u64, kind: u8, second: u64) -> Result<Vec<u8>, AllocError>
    ensures { IfOk result (λ key. IsLongKey id (kind % 16) second key.items) }
{
    let mut key = key(alloc, id, kind, SECOND_LEN)?;
    put_second(&mut key, second);
    Ok(key)
}

// A key of an id, a kind and a name, which it ends with a zero.
pub(crate) fn key_named(
    alloc: Global,
    id: u64,
    kind: u8,
    name: &[u8],
) -> Result<Vec<u8>, AllocError>
    requires { length name.now ≤ 1022 }
    ensures len { IfOk result (λ key. vec_len key ≡ 11 + length name.now) }
    ensures named { IfOk result (λ key. IsNamedKey id (kind % 16) name.now key.items) }
{
    let mut key = zeros_and_name(alloc, NAME_LEN, name)?;
    put_start(&mut key, id, kind);
    Ok(key)
}

/// Where a record of a file-system tree stands: its id, its kind, and the hash of an entry's name, the id of a
/// sibling link or the logical address of an extent. A key that is too short for it stands first.
#[tactic(auto, unfolding(crate::specs::Records::rank_of))]
pub fn rank(key: &[u8]) -> (u64, u64, u64)
    ensures value { result ≡ rank_of key.now }
    ensures short { length key.now < 8 → result ≡ (0, 0, 0) }
    ensures id { 8 ≤ length key.now → result.0 ≡ id_of key.now }
    ensures kind { 8 ≤ length key.now → result.1 ≡ kind_of key.now }
    ensures sub { 8 ≤ length key.now → result.2 ≡ sub_of key.now }
{
    if key.len() < RECORD_LEN {
        return (0, 0, 0);
    }
    let word = u64_at(key, ID_AND_KIND);
    let kind = word / KIND_UNIT;
    let has_number = kind == u64::from(SIBLING_LINK) || kind == u64::from(FILE_EXTENT);
    let third = if kind == u64::from(ENTRY) && key.len() >= LEN_AND_HASH + 4 {
        u64::from(u32_at(key, LEN_AND_HASH) / 0x400)
    } else if has_number && key.len() >= SECOND_LEN {
        u64_at(key, SECOND)
    } else {
        0
    };
    (word % KIND_UNIT, kind, third)
}
