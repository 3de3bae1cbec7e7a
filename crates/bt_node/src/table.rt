// The table of contents of a node, with the fields that all its entries need, each read once a node.
ghost use Rattle.std.specs.Prelude.{◌≡◌, ◌+◌, ◌*◌, ◌≤◌, ◌&&◌, length, true, is_some};
ghost use Rattle.bt_node.specs.Node as fields;
ghost use Rattle.bt_node.specs.Entries as entry;
ghost use Rattle.bt_node.specs.Soundness as spec;

use crate::entries::{self, Place};
use crate::{TreeKey, node};
use apfs_layout::node as layout;
use std::marker::Model;

#[derive(Drop)]
pub(crate) struct Table<'a> {
    bytes: &'a [u8],
    fixed: bool,
    begin: usize,
    keys_begin: usize,
    end: usize,
    level: u16,
}

impl<'a> Model for Table<'a> {
    ghost use Rattle.std.specs.Prelude.{ℕ, List};
    ghost use Rattle.bt_node.specs.Table.{HasFields};

    ghost Value = { List ℕ };

    ghost view = { λ t. t.bytes.now };

    ghost invariant = { λ t. HasFields t.bytes.now t.fixed t.begin t.keys_begin t.end t.level };
}

impl<'a> Table<'a> {
    pub(crate) fn new(bytes: &'a [u8]) -> Table<'a>
        requires { 96 ≤ length bytes.now }
        ensures { result ≡ bytes.now }
    {
        Table {
            bytes,
            fixed: node::is_fixed(bytes),
            begin: node::table_begin(bytes),
            keys_begin: node::keys_begin(bytes),
            end: node::end(bytes),
            level: node::level(bytes),
        }
    }

    // Table entry `i`.
    #[tactic(auto, unfolding(crate::specs::Entries::place_of))]
    pub(crate) fn place<K: TreeKey>(&self, i: usize) -> Place
        requires { fields.table_begin self.now + (i + 1) * entry.place_len self.now ≤ length self.now }
        ensures { result ≡ entry.place_of K.shape self.now i }
    {
        if self.fixed {
            entries::fixed_place::<K>(self.bytes, self.begin + layout::FIXED_ENTRY_LEN * i)
        } else {
            entries::variable_place(self.bytes, self.begin + layout::VARIABLE_ENTRY_LEN * i)
        }
    }

    // Whether a key lies between where the keys begin and where the values end.
    #[tactic(auto, unfolding(crate::specs::Soundness::is_key_inside))]
    fn is_key_inside(&self, place: Place) -> bool
        ensures { result ≡ spec.is_key_inside self.now place }
    {
        let start = self.keys_begin + usize::from(place.key_offset);
        start <= self.end && place.key_len <= self.end - start
    }

    // Whether a value does, and has room for a child's oid above level 0.
    #[tactic(auto, unfolding(crate::specs::Soundness::is_value_inside))]
    fn is_value_inside(&self, place: Place) -> bool
        ensures { result ≡ spec.is_value_inside self.now place }
    {
        let offset = usize::from(place.value_offset);
        entries::is_ghost(place)
            || (self.keys_begin + offset <= self.end
                && place.value_len <= offset
                && (self.level == 0 || layout::CHILD_LEN <= place.value_len))
    }

    // Whether the key and the value of an entry lie inside.
    pub(crate) fn is_inside(&self, place: Place) -> bool
        ensures { result ≡ (spec.is_key_inside self.now place && spec.is_value_inside self.now place) }
    {
        self.is_key_inside(place) && self.is_value_inside(place)
    }

    // Whether the key of an entry can be read.
    #[tactic(auto, unfolding(crate::specs::Soundness::is_key_inside, crate::specs::Entries::key_in))]
    pub(crate) fn has_key<K: TreeKey>(&self, place: Place) -> bool
        requires { spec.is_key_inside self.now place ≡ true }
        ensures { result ≡ is_some (K.shape.read (entry.key_in self.now place)) }
    {
        let at = self.keys_begin + usize::from(place.key_offset);
        K::read(&self.bytes[at..at + place.key_len]).is_some()
    }
}
