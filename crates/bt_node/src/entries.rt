// The entries of a node, lent from its bytes.
ghost use Rattle.std.specs.Prelude.{◌≡◌, ◌+◌, ◌*◌, ◌≤◌, length, false, option_map};
ghost use Rattle.apfs_model.specs.Bytes as numbers;
ghost use Rattle.bt_node.specs.Node as fields;
ghost use Rattle.bt_node.specs.Entries as spec;

use crate::{TreeKey, node};
use apfs_layout::node as layout;
use obj_base::{u16_at, u64_at};

// Where an entry of the table says that a key and a value lie.
#[derive(Clone, Copy, PartialEq, Eq)]
pub(crate) struct Place {
    pub(crate) key_offset: u16,
    pub(crate) key_len: usize,
    pub(crate) value_offset: u16,
    pub(crate) value_len: usize,
}

fn key_len<K: TreeKey>() -> usize
    ensures { result ≡ K.shape.key_len }
{
    K::KEY_LEN
}

fn fixed_value_len<K: TreeKey>(bytes: &[u8]) -> usize
    requires { 96 ≤ length bytes.now }
    ensures { result ≡ spec.fixed_value_len K.shape bytes.now }
{
    if node::level(bytes) == 0 {
        K::VALUE_LEN
    } else {
        layout::CHILD_LEN
    }
}

#[tactic(auto, unfolding(crate::specs::Entries::fixed_place))]
pub(crate) fn fixed_place<K: TreeKey>(bytes: &[u8], at: usize) -> Place
    requires long { 96 ≤ length bytes.now }
    requires inside { at + 4 ≤ length bytes.now }
    ensures { result ≡ spec.fixed_place K.shape bytes.now at }
{
    Place {
        key_offset: u16_at(bytes, at),
        key_len: key_len::<K>(),
        value_offset: u16_at(bytes, at + 2),
        value_len: fixed_value_len::<K>(bytes),
    }
}

#[tactic(auto, unfolding(crate::specs::Entries::variable_place))]
pub(crate) fn variable_place(bytes: &[u8], at: usize) -> Place
    requires { at + 8 ≤ length bytes.now }
    ensures { result ≡ spec.variable_place bytes.now at }
{
    Place {
        key_offset: u16_at(bytes, at),
        key_len: usize::from(u16_at(bytes, at + 2)),
        value_offset: u16_at(bytes, at + 4),
        value_len: usize::from(u16_at(bytes, at + 6)),
    }
}

// The bytes of each table entry.
pub(crate) fn place_len(bytes: &[u8]) -> usize
    requires { 96 ≤ length bytes.now }
    ensures { result ≡ spec.place_len bytes.now }
{
    if node::is_fixed(bytes) {
        layout::FIXED_ENTRY_LEN
    } else {
        layout::VARIABLE_ENTRY_LEN
    }
}

// Table entry `i`.
#[tactic(auto, unfolding(crate::specs::Entries::place_of))]
pub(crate) fn place_at<K: TreeKey>(bytes: &[u8], i: usize) -> Place
    requires long { 96 ≤ length bytes.now }
    requires inside { fields.table_begin bytes.now + (i + 1) * spec.place_len bytes.now ≤ length bytes.now }
    ensures { result ≡ spec.place_of K.shape bytes.now i }
{
    let start = node::table_begin(bytes);
    if node::is_fixed(bytes) {
        fixed_place::<K>(bytes, start + layout::FIXED_ENTRY_LEN * i)
    } else {
        variable_place(bytes, start + layout::VARIABLE_ENTRY_LEN * i)
    }
}

pub(crate) fn is_ghost(place: Place) -> bool
    ensures { result ≡ spec.is_ghost place }
{
    place.value_offset == layout::NO_VALUE
}

// The key's bytes.
#[tactic(auto, unfolding(crate::specs::Entries::key_in))]
pub(crate) fn key_in(bytes: &[u8], place: Place) -> &[u8]
    requires long { 96 ≤ length bytes.now }
    requires ends { fields.keys_begin bytes.now + place.key_offset + place.key_len ≤ fields.end_of bytes.now }
    ensures { result.now ≡ spec.key_in bytes.now place }
{
    let _end = node::end(bytes);
    let at = node::keys_begin(bytes) + usize::from(place.key_offset);
    &bytes[at..at + place.key_len]
}

// The value's bytes, where there is one.
#[tactic(auto, unfolding(crate::specs::Entries::value_in))]
pub(crate) fn value_in(bytes: &[u8], place: Place) -> Option<&[u8]>
    requires long { 96 ≤ length bytes.now }
    requires begins { spec.is_ghost place ≡ false → fields.keys_begin bytes.now + place.value_offset ≤ fields.end_of bytes.now }
    requires ends { spec.is_ghost place ≡ false → place.value_len ≤ place.value_offset }
    ensures { option_map (λ value. value.now) result ≡ spec.value_in bytes.now place }
{
    if is_ghost(place) {
        return None;
    }
    let start = node::end(bytes) - usize::from(place.value_offset);
    Some(&bytes[start..start + place.value_len])
}

// The oid at the start of the value.
#[tactic(auto, unfolding(crate::specs::Entries::value_in))]
pub(crate) fn child_in(bytes: &[u8], place: Place) -> u64
    requires long { 96 ≤ length bytes.now }
    requires begins { fields.keys_begin bytes.now + place.value_offset ≤ fields.end_of bytes.now }
    requires ends { place.value_len ≤ place.value_offset }
    requires fits { 8 ≤ place.value_len }
    requires valued { spec.is_ghost place ≡ false }
    ensures { result ≡ numbers.u64_at (spec.bytes_in (spec.value_in bytes.now place)) 0 }
{
    let at = node::end(bytes) - usize::from(place.value_offset);
    u64_at(&bytes[at..at + place.value_len], 0)
}
