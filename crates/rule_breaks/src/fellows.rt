// The rules on siblings: entries, links and maps that go together.
ghost use Rattle.std.specs.Prelude.{◌≡◌, ◌&&◌, ◌||◌, not, find, IfOk};
ghost use Rattle.std.specs.List.{list_any};
ghost use Rattle.std.specs.Option.{option_copied};
ghost use Rattle.view_rules.specs.Facts as rules;
ghost use Rattle.view_rules.specs.Siblings as spec;
ghost use Rattle.rule_index.specs.Keys as keys;

use blk_source::NoMemory;
use rule_index::ids::is_system_id;
use rule_index::keys::{
    ByFellow, ByLink, ByMap, ByPrivate, BySystemLink, add, fellow_ref, sibling_ref, tally,
};
use rule_index::{KeyCounts, KeyRef};
use std::alloc::Global;
use view_facts::{EntryFact, Facts, LinkFact, SiblingFact};

/// The facts of a view whose links and maps of siblings are counted by what they share with their fellows.
#[derive(Drop)]
pub struct Fellows<'a> {
    pub facts: &'a Facts,
    links: KeyCounts<'a>,
    maps: KeyCounts<'a>,
    ghost links_right: { keys.CountsKeys keys.link_fellow facts.now.links links },
    ghost maps_right: { keys.CountsKeys keys.map_sibling facts.now.siblings maps },
}

impl<'a> Fellows<'a> {
    /// Counts the links and the maps of some facts.
    pub fn of(alloc: Global, facts: &'a Facts) -> Result<Fellows<'a>, NoMemory>
        ensures { IfOk result (λ fellows. fellows.facts.now ≡ facts.now) }
    {
        let links = tally::<_, ByLink>(alloc, &facts.links)?;
        let maps = tally::<_, ByMap>(alloc, &facts.siblings)?;
        Ok(Fellows { facts, links, maps })
    }
}

// Whether an entry has its link.
#[tactic(auto, using(crate::proofs::FellowLooks::has_link_some, crate::proofs::FellowLooks::has_link_none))]
fn has_link<'a>(facts: &'a Facts, links: &KeyCounts<'a>, e: &'a EntryFact) -> bool
    requires { keys.CountsKeys keys.link_fellow facts.now.links links.now }
    ensures { result ≡ spec.has_link facts.now e.now }
{
    match e.sibling() {
        Some(sibling) => {
            let key = fellow_ref(e.file_id(), sibling, e.id(), e.name());
            links.has(key)
        }
        None => false,
    }
}

// Whether a link has its entry.
#[tactic(auto, using(crate::proofs::FellowLooks::has_entry_counts))]
fn has_entry<'a>(facts: &'a Facts, entries: &KeyCounts<'a>, l: &'a LinkFact) -> bool
    requires { keys.CountsKeys keys.entry_fellow facts.now.entries entries.now }
    ensures { result ≡ spec.has_entry facts.now l.now }
{
    let key = fellow_ref(l.file(), l.sibling(), l.parent(), l.name());
    entries.has(key)
}

// Whether a sibling of a file has its map.
#[tactic(auto, using(crate::proofs::FellowLooks::has_map_counts))]
fn has_map<'a>(facts: &'a Facts, maps: &KeyCounts<'a>, file: u64, sibling: u64) -> bool
    requires { keys.CountsKeys keys.map_sibling facts.now.siblings maps.now }
    ensures { result ≡ spec.has_map facts.now file sibling }
{
    maps.has(sibling_ref(file, sibling))
}

// Whether an entry of a sibling has its link and its map.
fn has_both<'a>(
    facts: &'a Facts,
    links: &KeyCounts<'a>,
    maps: &KeyCounts<'a>,
    e: &'a EntryFact,
    sibling: u64,
) -> bool
    requires links { keys.CountsKeys keys.link_fellow facts.now.links links.now }
    requires maps { keys.CountsKeys keys.map_sibling facts.now.siblings maps.now }
    ensures { result ≡ (spec.has_link facts.now e.now && spec.has_map facts.now e.now.what.file_id sibling) }
{
    has_link(facts, links, e) && has_map(facts, maps, e.file_id(), sibling)
}

// Whether an entry of a sibling needs its link and its map, and lacks one of them.
fn is_twin_lost<'a>(
    facts: &'a Facts,
    links: &KeyCounts<'a>,
    maps: &KeyCounts<'a>,
    e: &'a EntryFact,
    sibling: u64,
) -> bool
    requires links { keys.CountsKeys keys.link_fellow facts.now.links links.now }
    requires maps { keys.CountsKeys keys.map_sibling facts.now.siblings maps.now }
    ensures { result ≡ (not (rules.is_system_id e.now.id) && not (spec.has_link facts.now e.now && spec.has_map facts.now e.now.what.file_id sibling)) }
{
    !is_system_id(e.id()) && !has_both(facts, links, maps, e, sibling)
}

// Whether an entry lacks its link or its map.
#[tactic(auto, using(crate::proofs::FellowLooks::lost_some, crate::proofs::FellowLooks::lost_none))]
fn is_entry_lost<'a>(
    facts: &'a Facts,
    links: &KeyCounts<'a>,
    maps: &KeyCounts<'a>,
    e: &'a EntryFact,
) -> bool
    requires links { keys.CountsKeys keys.link_fellow facts.now.links links.now }
    requires maps { keys.CountsKeys keys.map_sibling facts.now.siblings maps.now }
    ensures { result ≡ spec.is_entry_lost facts.now e.now }
{
    match e.sibling() {
        Some(sibling) => is_twin_lost(facts, links, maps, e, sibling),
        None => false,
    }
}

// Whether a link lacks its entry or its map.
#[tactic(auto, unfolding(view_rules::specs::Siblings::is_link_lost))]
fn is_link_lost<'a>(
    facts: &'a Facts,
    entries: &KeyCounts<'a>,
    maps: &KeyCounts<'a>,
    l: &'a LinkFact,
) -> bool
    requires entries { keys.CountsKeys keys.entry_fellow facts.now.entries entries.now }
    requires maps { keys.CountsKeys keys.map_sibling facts.now.siblings maps.now }
    ensures { result ≡ spec.is_link_lost facts.now l.now }
{
    let fine = has_entry(facts, entries, l) && has_map(facts, maps, l.file(), l.sibling());
    !is_system_id(l.parent()) && !fine
}

// The first entry that lacks its link or its map.
fn lost_entry_by<'a>(
    facts: &'a Facts,
    links: &KeyCounts<'a>,
    maps: &KeyCounts<'a>,
) -> Option<&'a EntryFact>
    requires links { keys.CountsKeys keys.link_fellow facts.now.links links.now }
    requires maps { keys.CountsKeys keys.map_sibling facts.now.siblings maps.now }
    ensures { option_copied result ≡ find (spec.is_entry_lost facts.now) facts.now.entries }
{
    for e in &facts.entries {
        if is_entry_lost(facts, links, maps, e) {
            return Some(e);
        }
    }
    None
}

/// The first entry that lacks its link or its map.
pub fn lost_entry<'a>(fellows: &Fellows<'a>) -> Option<&'a EntryFact>
    ensures { option_copied result ≡ find (spec.is_entry_lost fellows.now.facts.now) fellows.now.facts.now.entries }
{
    lost_entry_by(fellows.facts, &fellows.links, &fellows.maps)
}

// The first link that lacks its entry or its map.
fn lost_link_by<'a>(
    facts: &'a Facts,
    entries: &KeyCounts<'a>,
    maps: &KeyCounts<'a>,
) -> Option<&'a LinkFact>
    requires entries { keys.CountsKeys keys.entry_fellow facts.now.entries entries.now }
    requires maps { keys.CountsKeys keys.map_sibling facts.now.siblings maps.now }
    ensures { option_copied result ≡ find (spec.is_link_lost facts.now) facts.now.links }
{
    for l in &facts.links {
        if is_link_lost(facts, entries, maps, l) {
            return Some(l);
        }
    }
    None
}

/// The first link that lacks its entry or its map.
pub fn lost_link<'a>(alloc: Global, fellows: &Fellows<'a>) -> Result<Option<&'a LinkFact>, NoMemory>
    ensures { IfOk result (λ first. option_copied first ≡ find (spec.is_link_lost fellows.now.facts.now) fellows.now.facts.now.links) }
{
    let facts = fellows.facts;
    if facts.links.is_empty() {
        return Ok(None);
    }
    let entries = tally::<_, ByFellow>(alloc, &facts.entries)?;
    Ok(lost_link_by(facts, &entries, &fellows.maps))
}

// The sibling of an entry that needs its fellows and has its link.
#[tactic(auto, using(crate::proofs::FellowLooks::linked_some, crate::proofs::FellowLooks::linked_none))]
fn linked_key<'a>(facts: &'a Facts, links: &KeyCounts<'a>, e: &'a EntryFact) -> Option<KeyRef<'a>>
    requires { keys.CountsKeys keys.link_fellow facts.now.links links.now }
    ensures { result ≡ keys.linked_sibling facts.now e.now }
{
    let sibling = e.sibling()?;
    if is_system_id(e.id()) || !has_link(facts, links, e) {
        return None;
    }
    Some(sibling_ref(e.file_id(), sibling))
}

// The siblings of the entries that need their fellows and have their links.
fn linked_keys<'a>(
    alloc: Global,
    facts: &'a Facts,
    links: &KeyCounts<'a>,
) -> Result<Vec<KeyRef<'a>>, NoMemory>
    requires { keys.CountsKeys keys.link_fellow facts.now.links links.now }
    ensures { IfOk result (λ linked. keys.CountsKeys (keys.linked_sibling facts.now) facts.now.entries linked.items) }
{
    let mut linked = Vec::new(alloc);
    for e in &facts.entries {
        if let Some(key) = linked_key(facts, links, e) {
            add(&mut linked, key)?;
        }
    }
    Ok(linked)
}

// Counts the entries that need their fellows and have their links, by their siblings.
fn linked_by<'a>(
    alloc: Global,
    facts: &'a Facts,
    links: &KeyCounts<'a>,
) -> Result<KeyCounts<'a>, NoMemory>
    requires { keys.CountsKeys keys.link_fellow facts.now.links links.now }
    ensures { IfOk result (keys.CountsKeys (keys.linked_sibling facts.now) facts.now.entries) }
{
    let linked = linked_keys(alloc, facts, links)?;
    Ok(KeyCounts::of(linked))
}

// Whether a sibling of a file has an entry that needs its fellows and has its link.
#[tactic(auto, using(crate::proofs::FellowLooks::linked_counts))]
fn has_linked<'a>(facts: &'a Facts, linked: &KeyCounts<'a>, file: u64, sibling: u64) -> bool
    requires { keys.CountsKeys (keys.linked_sibling facts.now) facts.now.entries linked.now }
    ensures { result ≡ list_any (spec.is_linked_entry facts.now file sibling) facts.now.entries }
{
    linked.has(sibling_ref(file, sibling))
}

// Whether a sibling of a file has an entry in the private directory.
#[tactic(auto, using(crate::proofs::FellowLooks::private_counts))]
fn has_private<'a>(facts: &'a Facts, private: &KeyCounts<'a>, file: u64, sibling: u64) -> bool
    requires { keys.CountsKeys keys.private_sibling facts.now.entries private.now }
    ensures { result ≡ list_any (spec.is_private_entry file sibling) facts.now.entries }
{
    private.has(sibling_ref(file, sibling))
}

// Whether a sibling of a file has a link whose parent is the private directory or reserved.
#[tactic(auto, using(crate::proofs::FellowLooks::system_counts))]
fn has_system<'a>(facts: &'a Facts, system: &KeyCounts<'a>, file: u64, sibling: u64) -> bool
    requires { keys.CountsKeys keys.system_sibling facts.now.links system.now }
    ensures { result ≡ list_any (spec.is_system_link file sibling) facts.now.links }
{
    system.has(sibling_ref(file, sibling))
}

// Whether a map lacks its entry or its link.
#[tactic(auto, unfolding(view_rules::specs::Siblings::is_map_lost))]
fn is_map_lost<'a>(
    facts: &'a Facts,
    linked: &KeyCounts<'a>,
    private: &KeyCounts<'a>,
    system: &KeyCounts<'a>,
    m: &SiblingFact,
) -> bool
    requires linked { keys.CountsKeys (keys.linked_sibling facts.now) facts.now.entries linked.now }
    requires private { keys.CountsKeys keys.private_sibling facts.now.entries private.now }
    requires system { keys.CountsKeys keys.system_sibling facts.now.links system.now }
    ensures { result ≡ spec.is_map_lost facts.now m.now }
{
    !has_linked(facts, linked, m.file(), m.id())
        && !has_private(facts, private, m.file(), m.id())
        && !has_system(facts, system, m.file(), m.id())
}

// The first map that lacks its entry or its link.
fn lost_map_by<'a>(
    facts: &'a Facts,
    linked: &KeyCounts<'a>,
    private: &KeyCounts<'a>,
    system: &KeyCounts<'a>,
) -> Option<&'a SiblingFact>
    requires linked { keys.CountsKeys (keys.linked_sibling facts.now) facts.now.entries linked.now }
    requires private { keys.CountsKeys keys.private_sibling facts.now.entries private.now }
    requires system { keys.CountsKeys keys.system_sibling facts.now.links system.now }
    ensures { option_copied result ≡ find (spec.is_map_lost facts.now) facts.now.siblings }
{
    for m in &facts.siblings {
        if is_map_lost(facts, linked, private, system, m) {
            return Some(m);
        }
    }
    None
}

// The first map that lacks its entry or its link, where there may be maps.
fn lost_map_of<'a>(
    alloc: Global,
    fellows: &Fellows<'a>,
) -> Result<Option<&'a SiblingFact>, NoMemory>
    ensures { IfOk result (λ first. option_copied first ≡ find (spec.is_map_lost fellows.now.facts.now) fellows.now.facts.now.siblings) }
{
    let facts = fellows.facts;
    let linked = linked_by(alloc, facts, &fellows.links)?;
    let private = tally::<_, ByPrivate>(alloc, &facts.entries)?;
    let system = tally::<_, BySystemLink>(alloc, &facts.links)?;
    Ok(lost_map_by(facts, &linked, &private, &system))
}

/// The first map that lacks its entry or its link.
pub fn lost_map<'a>(
    alloc: Global,
    fellows: &Fellows<'a>,
) -> Result<Option<&'a SiblingFact>, NoMemory>
    ensures { IfOk result (λ first. option_copied first ≡ find (spec.is_map_lost fellows.now.facts.now) fellows.now.facts.now.siblings) }
{
    let facts = fellows.facts;
    if facts.siblings.is_empty() {
        return Ok(None);
    }
    lost_map_of(alloc, fellows)
}
