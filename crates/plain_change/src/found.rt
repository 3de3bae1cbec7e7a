// The fellows of entries, links and maps of siblings, looked up among few. A tree in order has one link and one map of a sibling of a file, so what follows from one look-up is one more.
ghost use Rattle.std.specs.Prelude.{◌≡◌, ◌⊎◌, true, false, filter, find, IfSome, IsTrue};
ghost use Rattle.std.specs.List.{list_any};
ghost use Rattle.std.specs.Option.{option_copied};
ghost use Rattle.fs_record.specs.Entries.{Entry};
ghost use Rattle.fs_record.specs.Facts.{Fact};
ghost use Rattle.view_rules.specs.Facts as rules;
ghost use Rattle.view_rules.specs.Siblings as spec;
ghost use Rattle.rule_changes.specs.Changes.{is_of, is_like, is_user_link};
ghost use Rattle.plain_change.specs.Lookups.{is_file_link};
ghost use Rattle.plain_change.specs.Fellows.{IsSettled};

use crate::lookups::After;
use rule_index::ids::is_system_id;
use rule_index::twins::go_together;
use view_facts::{EntryFact, LinkFact, SiblingFact};

/// The links of a file, where they are few.
pub(crate) fn few_links<'a>(after: &After<'a>, file: u64) -> Option<&'a [LinkFact]>
    ensures { IfSome result (λ links. links.now ≡ filter (is_file_link file) after.now.index.now.facts.now.links) }
{
    let links = after.links_of(file);
    if links.len() > after.most() {
        return None;
    }
    Some(links)
}

// The entries of a directory, where they are few.
fn few_entries<'a>(after: &After<'a>, directory: u64) -> Option<&'a [EntryFact]>
    ensures { IfSome result (λ entries. entries.now ≡ filter (is_of directory) after.now.index.now.facts.now.entries) }
{
    let entries = after.entries_of(directory);
    if entries.len() > after.most() {
        return None;
    }
    Some(entries)
}

// Whether a link goes together with one of some entries.
fn goes_with_entry(entries: &[EntryFact], l: &LinkFact) -> bool
    ensures { result ≡ list_any (λ (e : Fact Entry). spec.go_together e l.now) entries.now }
{
    entries.iter().any(|e| go_together(e, l))
}

// Whether an entry goes together with one of some links.
fn goes_with_link(links: &[LinkFact], e: &EntryFact) -> bool
    ensures { result ≡ list_any (spec.go_together e.now) links.now }
{
    links.iter().any(|l| go_together(e, l))
}

// Whether a link is of a sibling of a file.
fn is_link_of(l: &LinkFact, file: u64, sibling: u64) -> bool
    ensures { result ≡ spec.is_link_of file sibling l.now }
{
    l.file() == file && l.sibling() == sibling
}

// Whether a link has the file, the sibling, the directory and the name of another.
fn is_like_link(l: &LinkFact, other: &LinkFact) -> bool
    ensures { result ≡ is_like l.now other.now }
{
    is_link_of(other, l.file(), l.sibling())
        && other.parent() == l.parent()
        && other.name() == l.name()
}

// Whether one of some links is like another one.
fn is_among(links: &[LinkFact], l: &LinkFact) -> bool
    ensures { result ≡ list_any (is_like l.now) links.now }
{
    links.iter().any(|other| is_like_link(l, other))
}

// Whether one of some links is of a sibling of a file, in another directory than the private one and those reserved.
fn has_user_link(links: &[LinkFact], file: u64, sibling: u64) -> bool
    ensures { result ≡ list_any (is_user_link file sibling) links.now }
{
    links.iter().any(|l| is_link_of(l, file, sibling) && !is_system_id(l.parent()))
}

// The first of some links that is of a sibling of a file.
fn first_link(links: &[LinkFact], file: u64, sibling: u64) -> Option<&LinkFact>
    ensures { option_copied result ≡ find (spec.is_link_of file sibling) links.now }
{
    links.iter().find(|l| is_link_of(l, file, sibling))
}

// Whether it shows that a link has its entry.
fn has_entry(after: &After<'_>, l: &LinkFact) -> bool
    ensures { IsTrue result → spec.has_entry after.now.index.now.facts.now l.now ≡ true }
{
    match few_entries(after, l.parent()) {
        Some(entries) => goes_with_entry(entries, l),
        None => false,
    }
}

// Whether no entry names a file.
fn is_unnamed(after: &After<'_>, l: &LinkFact) -> bool
    ensures { IsTrue result → spec.has_entry after.now.index.now.facts.now l.now ≡ false }
{
    !after.index.is_named(l.file())
}

/// Whether it shows that a link has no entry.
pub(crate) fn lacks_entry(after: &After<'_>, l: &LinkFact) -> bool
    ensures { IsTrue result → spec.has_entry after.now.index.now.facts.now l.now ≡ false }
{
    if is_unnamed(after, l) {
        return true;
    }
    match few_entries(after, l.parent()) {
        Some(entries) => !goes_with_entry(entries, l),
        None => false,
    }
}

// Whether it shows that an entry has its link.
fn has_link(after: &After<'_>, e: &EntryFact) -> bool
    ensures { IsTrue result → spec.has_link after.now.index.now.facts.now e.now ≡ true }
{
    match few_links(after, e.file_id()) {
        Some(links) => goes_with_link(links, e),
        None => false,
    }
}

/// Whether it shows that a link has one like it.
pub(crate) fn has_like(after: &After<'_>, l: &LinkFact) -> bool
    ensures { IsTrue result → list_any (is_like l.now) after.now.index.now.facts.now.links ≡ true }
{
    match few_links(after, l.file()) {
        Some(links) => is_among(links, l),
        None => false,
    }
}

/// Whether it shows that a sibling of a file has no link that needs a map.
pub(crate) fn lacks_user_link(after: &After<'_>, file: u64, sibling: u64) -> bool
    ensures { IsTrue result → list_any (is_user_link file sibling) after.now.index.now.facts.now.links ≡ false }
{
    match few_links(after, file) {
        Some(links) => !has_user_link(links, file, sibling),
        None => false,
    }
}

// Whether one of some maps leads from a sibling to a file.
fn is_mapped_by(maps: &[SiblingFact], file: u64, sibling: u64) -> bool
    ensures { result ≡ list_any (spec.is_map_of file sibling) maps.now }
{
    maps.iter().any(|m| m.file() == file && m.id() == sibling)
}

/// Whether a sibling of a file has its map.
pub(crate) fn has_map(after: &After<'_>, file: u64, sibling: u64) -> bool
    ensures { result ≡ spec.has_map after.now.index.now.facts.now file sibling }
{
    is_mapped_by(after.maps_of(sibling), file, sibling)
}

// Whether it shows that an entry of a sibling has its link and its map.
fn has_both(after: &After<'_>, e: &EntryFact, sibling: u64) -> bool
    ensures { IsTrue result → (spec.has_link after.now.index.now.facts.now e.now ≡ true) × (spec.has_map after.now.index.now.facts.now e.now.what.file_id sibling ≡ true) }
{
    has_link(after, e) && has_map(after, e.file_id(), sibling)
}

// Whether it shows that an entry of a sibling has its link and its map, or needs none.
fn is_twin_found(after: &After<'_>, e: &EntryFact, sibling: u64) -> bool
    ensures { IsTrue result → (rules.is_system_id e.now.id ≡ true) ⊎ ((spec.has_link after.now.index.now.facts.now e.now ≡ true) × (spec.has_map after.now.index.now.facts.now e.now.what.file_id sibling ≡ true)) }
{
    is_system_id(e.id()) || has_both(after, e, sibling)
}

/// Whether it shows that an entry doesn't lack its fellows.
pub(crate) fn is_entry_found(after: &After<'_>, e: &EntryFact) -> bool
    ensures { IsTrue result → spec.is_entry_lost after.now.index.now.facts.now e.now ≡ false }
{
    match e.sibling() {
        Some(sibling) => is_twin_found(after, e, sibling),
        None => true,
    }
}

// Whether it shows that a link has its entry and its map.
fn has_pair(after: &After<'_>, l: &LinkFact) -> bool
    ensures { IsTrue result → (spec.has_entry after.now.index.now.facts.now l.now ≡ true) × (spec.has_map after.now.index.now.facts.now l.now.what.file l.now.what.sibling ≡ true) }
{
    has_entry(after, l) && has_map(after, l.file(), l.sibling())
}

// Whether it shows that a link has its entry and its map, or needs none.
fn is_paired(after: &After<'_>, l: &LinkFact) -> bool
    ensures { IsTrue result → (rules.is_system_id l.now.what.parent ≡ true) ⊎ ((spec.has_entry after.now.index.now.facts.now l.now ≡ true) × (spec.has_map after.now.index.now.facts.now l.now.what.file l.now.what.sibling ≡ true)) }
{
    is_system_id(l.parent()) || has_pair(after, l)
}

/// Whether it shows that a link doesn't lack its fellows.
#[tactic(auto, using(crate::proofs::Among::link_found))]
pub(crate) fn is_link_found(after: &After<'_>, l: &LinkFact) -> bool
    ensures { IsTrue result → spec.is_link_lost after.now.index.now.facts.now l.now ≡ false }
{
    is_paired(after, l)
}

// Whether it shows that a link of a sibling has its entry, or needs none.
fn is_fellow(after: &After<'_>, l: &LinkFact) -> bool
    ensures { IsTrue result → (rules.is_system_id l.now.what.parent ≡ true) ⊎ (spec.has_entry after.now.index.now.facts.now l.now ≡ true) }
{
    is_system_id(l.parent()) || has_entry(after, l)
}

// Whether it shows, by the links of a file, that a sibling of it has an entry and a link that go together, or a link that needs no entry.
fn is_first_fellow(after: &After<'_>, links: &[LinkFact], file: u64, sibling: u64) -> bool
    ensures { IsTrue result → links.now ≡ filter (is_file_link file) after.now.index.now.facts.now.links → spec.has_fellows after.now.index.now.facts.now file sibling ≡ true }
{
    match first_link(links, file, sibling) {
        Some(l) => is_fellow(after, l),
        None => false,
    }
}

/// Whether it shows that a sibling of a file has an entry and a link that go together, or a link that needs no entry. Of an entry in the private directory that has no link it doesn't.
pub(crate) fn has_fellows(after: &After<'_>, file: u64, sibling: u64) -> bool
    ensures { IsTrue result → spec.has_fellows after.now.index.now.facts.now file sibling ≡ true }
{
    match few_links(after, file) {
        Some(links) => is_first_fellow(after, links, file, sibling),
        None => false,
    }
}

/// Whether it shows that the maps of a sibling of a file don't lack their fellows.
pub(crate) fn is_settled(after: &After<'_>, file: u64, sibling: u64) -> bool
    ensures { IsTrue result → IsSettled after.now.index.now.facts.now file sibling }
{
    !has_map(after, file, sibling) || has_fellows(after, file, sibling)
}
