// The fields of a node (B-Trees, btree_node_phys_t), and what is expected of one.
ghost use Rattle.std.specs.Prelude.{◌≡◌, ◌+◌, ◌≤◌, ◌<◌, ◌^◌, length};
ghost use Rattle.bt_node.specs.Node as fields;
ghost use Rattle.bt_node.specs.SoundNode as sound_node;

use apfs_layout::node as layout;
use obj_base::{u16_at, u32_at, u64_at};

/// What is expected of a node.
#[derive(Clone, Copy, PartialEq, Eq)]
pub struct NodeAt {
    pub oid: u64,
    pub root: bool,
    /// The level, where one is expected; the leaves have level 0.
    pub level: Option<u16>,
}

/// What a root tells of its tree (B-Trees, `btree_info_t`).
#[derive(Clone, Copy, PartialEq, Eq)]
pub struct RootInfo {
    /// The bytes of each node.
    pub node_size: u32,
    /// The number of keys at level 0.
    pub key_count: u64,
    /// The number of nodes, the root among them.
    pub node_count: u64,
}

#[tactic(auto, unfolding(crate::specs::Node::flags_of))]
fn flags(bytes: &[u8]) -> u16
    requires { 96 ≤ length bytes.now }
    ensures { result ≡ fields.flags_of bytes.now }
{
    u16_at(bytes, layout::FLAGS)
}

pub(crate) fn is_root(bytes: &[u8]) -> bool
    requires { 96 ≤ length bytes.now }
    ensures { result ≡ fields.is_root bytes.now }
{
    flags(bytes) & layout::ROOT == layout::ROOT
}

pub(crate) fn is_leaf(bytes: &[u8]) -> bool
    requires { 96 ≤ length bytes.now }
    ensures { result ≡ fields.is_leaf bytes.now }
{
    flags(bytes) & layout::LEAF == layout::LEAF
}

pub(crate) fn is_fixed(bytes: &[u8]) -> bool
    requires { 96 ≤ length bytes.now }
    ensures { result ≡ fields.is_fixed bytes.now }
{
    flags(bytes) & layout::FIXED == layout::FIXED
}

pub(crate) fn is_hashed(bytes: &[u8]) -> bool
    requires { 96 ≤ length bytes.now }
    ensures { result ≡ fields.is_hashed bytes.now }
{
    flags(bytes) & layout::HASHED == layout::HASHED
}

pub(crate) fn lacks_header(bytes: &[u8]) -> bool
    requires { 96 ≤ length bytes.now }
    ensures { result ≡ fields.lacks_header bytes.now }
{
    flags(bytes) & layout::NO_HEADER == layout::NO_HEADER
}

#[tactic(auto, unfolding(crate::specs::Node::level_of))]
pub(crate) fn level(bytes: &[u8]) -> u16
    requires { 96 ≤ length bytes.now }
    ensures { result ≡ fields.level_of bytes.now }
{
    u16_at(bytes, layout::LEVEL)
}

#[tactic(auto, unfolding(crate::specs::Node::count_of))]
pub(crate) fn count(bytes: &[u8]) -> usize
    requires { 96 ≤ length bytes.now }
    ensures count { result ≡ fields.count_of bytes.now }
    ensures small { result < 2 ^ 32 }
{
    u32_at(bytes, layout::COUNT) as usize
}

#[tactic(auto, unfolding(crate::specs::Node::table_begin, crate::specs::Node::table_offset_of))]
pub(crate) fn table_begin(bytes: &[u8]) -> usize
    requires { 96 ≤ length bytes.now }
    ensures start { result ≡ fields.table_begin bytes.now }
    ensures small { result < 56 + 2 ^ 16 }
{
    layout::TABLE + usize::from(u16_at(bytes, layout::TABLE_OFFSET))
}

#[tactic(auto, unfolding(crate::specs::Node::table_length_of))]
pub(crate) fn table_length(bytes: &[u8]) -> usize
    requires { 96 ≤ length bytes.now }
    ensures len { result ≡ fields.table_length_of bytes.now }
    ensures small { result < 2 ^ 16 }
{
    usize::from(u16_at(bytes, layout::TABLE_LENGTH))
}

// Where the table ends and the keys begin.
#[tactic(auto, unfolding(crate::specs::Node::keys_begin))]
pub(crate) fn keys_begin(bytes: &[u8]) -> usize
    requires { 96 ≤ length bytes.now }
    ensures start { result ≡ fields.keys_begin bytes.now }
    ensures small { result < 56 + 2 ^ 17 }
{
    table_begin(bytes) + table_length(bytes)
}

// Where the values end.
#[tactic(auto, unfolding(crate::specs::Node::end_of))]
pub(crate) fn end(bytes: &[u8]) -> usize
    requires { 96 ≤ length bytes.now }
    ensures end { result ≡ fields.end_of bytes.now }
    ensures inside { result ≤ length bytes.now }
{
    let info = if is_root(bytes) { layout::INFO_LEN } else { 0 };
    bytes.len() - info
}

#[tactic(auto, unfolding(crate::specs::Node::node_size_of))]
pub(crate) fn node_size(bytes: &[u8]) -> u32
    requires { 96 ≤ length bytes.now }
    ensures { result ≡ fields.node_size_of bytes.now }
{
    u32_at(bytes, bytes.len() - layout::INFO_LEN + layout::NODE_SIZE)
}

#[tactic(auto, unfolding(crate::specs::Node::node_size_of, crate::specs::Node::key_count_of, crate::specs::Node::node_count_of))]
pub(crate) fn info(bytes: &[u8]) -> Option<RootInfo>
    requires { 96 ≤ length bytes.now }
    ensures { result ≡ sound_node.info_of bytes.now }
{
    if !is_root(bytes) {
        return None;
    }
    let info = bytes.len() - layout::INFO_LEN;
    Some(RootInfo {
        node_size: u32_at(bytes, info + layout::NODE_SIZE),
        key_count: u64_at(bytes, info + layout::KEY_COUNT),
        node_count: u64_at(bytes, info + layout::NODE_COUNT),
    })
}
