// The tests of a node, in their order.
//
// Tests: the header, the flags, the level, the size, the table of contents, and each entry's place, value and key.
// Gives: the first test that fails.
// Rests on: the bytes of one block alone, and what is expected of its node.
ghost use Rattle.std.specs.Prelude.{◌≡◌, ◌≤◌, ◌<◌, ◌%◌, ◌&&◌, ◌==◌, length, true, MatchResult};
ghost use Rattle.bt_node.specs.Node as fields;
ghost use Rattle.bt_node.specs.Soundness as spec;
ghost use Rattle.bt_node.specs.SoundNode as sound_node;

use crate::table::Table;
use crate::{Layout, NodeAt, NodeFault, Site, TreeKey, entries, node};
use apfs_layout::{kind, node as layout};
use obj_base::{Bad, Expect, Feature, HeadFault, sound};

fn subtype<K: TreeKey>() -> u32
    ensures { result ≡ K.shape.subtype }
{
    K::SUBTYPE
}

fn layout<K: TreeKey>() -> Layout
    ensures { result ≡ K.shape.layout }
{
    K::LAYOUT
}

fn has_ghosts<K: TreeKey>() -> bool
    ensures { result ≡ K.shape.ghosts }
{
    K::GHOSTS
}

// The header that is expected of a node.
fn expect<K: TreeKey>(at: &NodeAt, site: &Site) -> Expect
    ensures { result ≡ spec.node_expect K.shape at.now site.now }
{
    Expect {
        kind: if at.root {
            kind::TREE_ROOT
        } else {
            kind::TREE_NODE
        },
        subtype: Some(subtype::<K>()),
        oid: Some(at.oid),
        max_xid: site.max_xid,
    }
}

fn has_layout(layout: Layout, bytes: &[u8]) -> bool
    requires { 96 ≤ length bytes.now }
    ensures { result ≡ spec.has_layout layout bytes.now }
{
    match layout {
        Layout::Fixed => node::is_fixed(bytes),
        Layout::Variable => !node::is_fixed(bytes),
        Layout::Either => true,
    }
}

fn is_alike(a: bool, b: bool) -> bool
    ensures { result ≡ spec.is_alike a b }
{
    a == b
}

#[tactic(auto, unfolding(crate::specs::Soundness::has_right_flags))]
fn has_right_flags(layout: Layout, at: &NodeAt, bytes: &[u8]) -> bool
    requires { 96 ≤ length bytes.now }
    ensures { result ≡ spec.has_right_flags layout at.now bytes.now }
{
    is_alike(at.root, node::is_root(bytes))
        && is_alike(node::is_leaf(bytes), node::level(bytes) == 0)
        && has_layout(layout, bytes)
}

fn has_level(expected: Option<u16>, bytes: &[u8]) -> bool
    requires { 96 ≤ length bytes.now }
    ensures { result ≡ spec.has_level expected bytes.now }
{
    match expected {
        None => true,
        Some(level) => level == node::level(bytes),
    }
}

#[tactic(auto, unfolding(crate::specs::Soundness::is_empty))]
fn is_empty(bytes: &[u8]) -> bool
    requires { 96 ≤ length bytes.now }
    ensures { result ≡ spec.is_empty bytes.now }
{
    node::count(bytes) == 0 && !(node::is_root(bytes) && node::level(bytes) == 0)
}

// Whether the table of contents holds its entries, and ends by where the values end.
#[tactic(auto, unfolding(crate::specs::Soundness::is_table_inside))]
fn is_table_inside(bytes: &[u8]) -> bool
    requires { 96 ≤ length bytes.now }
    ensures { result ≡ spec.is_table_inside bytes.now }
{
    node::count(bytes) * entries::place_len(bytes) <= node::table_length(bytes)
        && node::keys_begin(bytes) <= node::end(bytes)
}

// Whether an entry may have no value.
fn may_lack_values<K: TreeKey>(bytes: &[u8]) -> bool
    requires { 96 ≤ length bytes.now }
    ensures { result ≡ (K.shape.ghosts && (fields.level_of bytes.now == 0)) }
{
    has_ghosts::<K>() && node::level(bytes) == 0
}

// The tests of the entries. Bounds comes before Ghost, and Ghost before Key, whichever entry fails it; so what lacks is
// only noted until each entry is seen to lie inside.
#[tactic(auto, unfolding(crate::specs::Soundness::has_values, crate::specs::Soundness::has_keys), using(crate::proofs::Places::place_inside))]
fn test_entries<K: TreeKey>(bytes: &[u8]) -> Option<NodeFault>
    requires long { 96 ≤ length bytes.now }
    requires table { spec.is_table_inside bytes.now ≡ true }
    ensures { result ≡ sound_node.entries_fault K.shape bytes.now }
{
    let table = Table::new(bytes);
    let mut valued = true;
    let mut keyed = true;
    for i in 0..node::count(bytes) {
        let place = table.place::<K>(i);
        if !table.is_inside(place) {
            return Some(NodeFault::Bounds);
        }
        if entries::is_ghost(place) {
            valued = false;
        }
        if !table.has_key::<K>(place) {
            keyed = false;
        }
    }
    if !valued && !may_lack_values::<K>(bytes) {
        return Some(NodeFault::Ghost);
    }
    if !keyed {
        return Some(NodeFault::Key);
    }
    None
}

// The tests that follow that of the header.
#[tactic(auto, unfolding(crate::specs::Soundness::after_head, crate::specs::Soundness::is_bounded))]
fn test_node<K: TreeKey>(bytes: &[u8], at: &NodeAt, site: &Site) -> Result<(), Bad<NodeFault>>
    requires { 96 ≤ length bytes.now }
    ensures { MatchResult result (λ _. spec.after_head K.shape at.now site.now bytes.now ≡ Ok bytes.now) (λ bad. spec.after_head K.shape at.now site.now bytes.now ≡ Err bad) }
{
    if node::is_hashed(bytes) {
        return Err(Bad::Unsupported(Feature::Sealed));
    }
    if node::lacks_header(bytes) {
        return Err(Bad::Unsupported(Feature::NoHeader));
    }
    if !has_right_flags(layout::<K>(), at, bytes) {
        return Err(Bad::Found(NodeFault::Flags));
    }
    if at.root && node::level(bytes) > layout::MAX_LEVEL {
        return Err(Bad::Unsupported(Feature::Deep));
    }
    if !has_level(at.level, bytes) {
        return Err(Bad::Found(NodeFault::Level));
    }
    if at.root && node::node_size(bytes) != site.block_size {
        return Err(Bad::Unsupported(Feature::Size));
    }
    if is_empty(bytes) {
        return Err(Bad::Found(NodeFault::Empty));
    }
    if !is_table_inside(bytes) {
        return Err(Bad::Found(NodeFault::Bounds));
    }
    match test_entries::<K>(bytes) {
        Some(fault) => Err(Bad::Found(fault)),
        None => Ok(()),
    }
}

// A fault of the header as one of the node.
fn of_header(bad: Bad<HeadFault>) -> Bad<NodeFault>
    ensures { result ≡ spec.of_header bad }
{
    match bad {
        Bad::Found(fault) => Bad::Found(NodeFault::Head(fault)),
        Bad::Unsupported(feature) => Bad::Unsupported(feature),
    }
}

// All the tests of a node.
#[tactic(auto, unfolding(crate::specs::Soundness::node_of))]
pub(crate) fn test<K: TreeKey>(bytes: &[u8], at: &NodeAt, site: &Site) -> Result<(), Bad<NodeFault>>
    requires whole { length bytes.now % 4 ≡ 0 }
    requires long { 96 ≤ length bytes.now }
    ensures { MatchResult result (λ _. spec.node_of K.shape at.now site.now bytes.now ≡ Ok bytes.now) (λ bad. spec.node_of K.shape at.now site.now bytes.now ≡ Err bad) }
{
    match sound(bytes, &expect::<K>(at, site)) {
        Ok(_) => test_node::<K>(bytes, at, site),
        Err(bad) => Err(of_header(bad)),
    }
}
