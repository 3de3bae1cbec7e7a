// Counts of facts by numbers and a name.
ghost use Rattle.std.specs.Prelude.{◌≡◌, ◌+◌, Option, IfOk, OnOk, if◌then◌else◌};
ghost use Rattle.rule_index.specs.Keys as spec;

use crate::ids::is_system_id;
use crate::key::KeyRef;
use crate::key_counts::KeyCounts;
use blk_source::NoMemory;
use std::alloc::Global;
use view_facts::{AttributeFact, EntryFact, LinkFact, SiblingFact};

/// By what items are counted.
pub trait KeyOf<T> {
    ghost key: { T → Option spec.Key };

    /// The key of an item, where it has one.
    fn key<'a>(item: &'a T) -> Option<KeyRef<'a>>
        ensures { result ≡ key item.now };
}

/// Adds one more key.
#[tactic(auto, unfolding(crate::specs::Keys::key_count))]
pub fn add<'a>(keys: &mut Vec<KeyRef<'a>>, key: KeyRef<'a>) -> Result<(), NoMemory>
    ensures { OnOk result ((q : spec.Key) → spec.key_count keys.new.items q ≡ spec.key_count keys.old.items q + (if spec.is_same_key key.entry q then 1 else 0)) }
{
    keys.push(key)?;
    Ok(())
}

// The keys of the items, in their order.
fn listed<'a, T, B: KeyOf<T>>(alloc: Global, items: &'a [T]) -> Result<Vec<KeyRef<'a>>, NoMemory>
    ensures { IfOk result (λ keys. spec.CountsKeys B.key items.now keys.items) }
{
    let mut keys = Vec::new(alloc);
    for item in items {
        if let Some(key) = B::key(item) {
            add(&mut keys, key)?;
        }
    }
    Ok(keys)
}

/// Counts the items of each key.
pub fn tally<'a, T, B: KeyOf<T>>(alloc: Global, items: &'a [T]) -> Result<KeyCounts<'a>, NoMemory>
    ensures { IfOk result (spec.CountsKeys B.key items.now) }
{
    let keys = listed::<T, B>(alloc, items)?;
    Ok(KeyCounts::of(keys))
}

/// The key of a name in a directory, or among the attributes of a file.
pub fn place_ref<'a>(id: u64, name: &'a str) -> KeyRef<'a>
    ensures { result ≡ spec.place_key id name.now }
{
    KeyRef {
        first: id,
        second: 0,
        third: 0,
        name,
    }
}

/// What an entry and its link have in common: the file, the sibling, the directory and the name.
pub fn fellow_ref<'a>(file: u64, sibling: u64, parent: u64, name: &'a str) -> KeyRef<'a>
    ensures { result ≡ spec.fellow_key file sibling parent name.now }
{
    KeyRef {
        first: file,
        second: sibling,
        third: parent,
        name,
    }
}

/// A sibling of a file.
pub fn sibling_ref<'a>(file: u64, sibling: u64) -> KeyRef<'a>
    ensures { result ≡ spec.sibling_key file sibling }
{
    KeyRef {
        first: file,
        second: sibling,
        third: 0,
        name: "",
    }
}

/// Entries by directory and name.
pub struct ByEntry;

impl KeyOf<EntryFact> for ByEntry {
    ghost key = { spec.entry_key };

    fn key<'a>(e: &'a EntryFact) -> Option<KeyRef<'a>> {
        Some(place_ref(e.id(), e.name()))
    }
}

/// Attributes by file and name.
pub struct ByAttribute;

impl KeyOf<AttributeFact> for ByAttribute {
    ghost key = { spec.attribute_key };

    fn key<'a>(a: &'a AttributeFact) -> Option<KeyRef<'a>> {
        Some(place_ref(a.id(), a.name()))
    }
}

/// Entries with a sibling's id, by what they have in common with their links.
pub struct ByFellow;

impl KeyOf<EntryFact> for ByFellow {
    ghost key = { spec.entry_fellow };

    fn key<'a>(e: &'a EntryFact) -> Option<KeyRef<'a>> {
        match e.sibling() {
            Some(sibling) => Some(fellow_ref(e.file_id(), sibling, e.id(), e.name())),
            None => None,
        }
    }
}

/// Links, by what they have in common with their entries.
pub struct ByLink;

impl KeyOf<LinkFact> for ByLink {
    ghost key = { spec.link_fellow };

    fn key<'a>(l: &'a LinkFact) -> Option<KeyRef<'a>> {
        Some(fellow_ref(l.file(), l.sibling(), l.parent(), l.name()))
    }
}

/// Maps, by their sibling.
pub struct ByMap;

impl KeyOf<SiblingFact> for ByMap {
    ghost key = { spec.map_sibling };

    fn key<'a>(m: &'a SiblingFact) -> Option<KeyRef<'a>> {
        Some(sibling_ref(m.file(), m.id()))
    }
}

/// Entries of the private directory, by their sibling.
pub struct ByPrivate;

impl KeyOf<EntryFact> for ByPrivate {
    ghost key = { spec.private_sibling };

    fn key<'a>(e: &'a EntryFact) -> Option<KeyRef<'a>> {
        if e.id() != 3 {
            return None;
        }
        match e.sibling() {
            Some(sibling) => Some(sibling_ref(e.file_id(), sibling)),
            None => None,
        }
    }
}

/// Links whose parent is the private directory or reserved, by their sibling.
pub struct BySystemLink;

impl KeyOf<LinkFact> for BySystemLink {
    ghost key = { spec.system_sibling };

    fn key<'a>(l: &'a LinkFact) -> Option<KeyRef<'a>> {
        if !is_system_id(l.parent()) {
            return None;
        }
        Some(sibling_ref(l.file(), l.sibling()))
    }
}
