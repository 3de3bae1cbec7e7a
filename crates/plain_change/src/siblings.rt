// Siblings that are gone or have come, and those that these leave behind.
ghost use Rattle.std.specs.Prelude.{◌≡◌, [], true, false, All, IsTrue};
ghost use Rattle.std.specs.List.{list_any};
ghost use Rattle.view_rules.specs.Facts as facts;
ghost use Rattle.view_rules.specs.Siblings as spec;
ghost use Rattle.rule_changes.specs.Changes.{KeepsFellows};
ghost use Rattle.rule_changes.specs.Known.{is_marked, HasNoSiblings};
ghost use Rattle.plain_change.specs.Fellows.{LeavesLinks, IsLinkLetGo, IsLinkLeft, IsMapLetGo, IsEntrySettled, IsEntryLeft};

use crate::found::{
    few_links, has_fellows, has_like, has_map, is_entry_found, is_link_found, is_settled,
    lacks_entry, lacks_user_link,
};
use crate::lookups::After;
use rule_index::twins::go_together;
use view_facts::{EntryFact, Facts, LinkFact, SiblingFact};

// Whether there are no links of siblings.
fn has_no_links(facts: &Facts) -> bool
    ensures { IsTrue result → facts.now.links ≡ [] }
{
    facts.links.is_empty()
}

// Whether there are no maps of siblings.
fn has_no_maps(facts: &Facts) -> bool
    ensures { IsTrue result → facts.now.siblings ≡ [] }
{
    facts.siblings.is_empty()
}

/// Whether some entry has a sibling's id.
pub(crate) fn has_marks(facts: &Facts) -> bool
    ensures { result ≡ list_any is_marked facts.now.entries }
{
    facts.entries.iter().any(|e| e.sibling().is_some())
}

// Whether there is nothing of siblings.
fn are_none(facts: &Facts) -> bool
    ensures { IsTrue result → HasNoSiblings facts.now }
{
    if !has_no_links(facts) {
        return false;
    }
    has_no_maps(facts) && !has_marks(facts)
}

// Whether it shows that entries that have come have their links and their maps.
fn are_entries_found(after: &After<'_>, come: &Facts) -> bool
    ensures { IsTrue result → All (λ e. spec.is_entry_lost after.now.index.now.facts.now e ≡ false) come.now.entries }
{
    come.entries.iter().all(|e| is_entry_found(after, e))
}

// Whether it shows that links that have come have their entries and their maps.
fn are_links_found(after: &After<'_>, come: &Facts) -> bool
    ensures { IsTrue result → All (λ l. spec.is_link_lost after.now.index.now.facts.now l ≡ false) come.now.links }
{
    come.links.iter().all(|l| is_link_found(after, l))
}

// Whether it shows that a map has its entry and its link.
#[tactic(auto, using(crate::proofs::Among::map_found))]
fn is_map_found(after: &After<'_>, m: &SiblingFact) -> bool
    ensures { IsTrue result → spec.is_map_lost after.now.index.now.facts.now m.now ≡ false }
{
    has_fellows(after, m.file(), m.id())
}

// Whether it shows that maps that have come have their entries and their links.
fn are_maps_found(after: &After<'_>, come: &Facts) -> bool
    ensures { IsTrue result → All (λ m. spec.is_map_lost after.now.index.now.facts.now m ≡ false) come.now.siblings }
{
    come.siblings.iter().all(|m| is_map_found(after, m))
}

// Whether it shows that of some links each that goes together with an entry has its fellows.
fn leaves_those(after: &After<'_>, links: &[LinkFact], e: &EntryFact) -> bool
    ensures { IsTrue result → All (λ l. spec.go_together e.now l ≡ true → spec.is_link_lost after.now.index.now.facts.now l ≡ false) links.now }
{
    links
        .iter()
        .all(|l| !go_together(e, l) || is_link_found(after, l))
}

// Whether it shows that a link that goes together with an entry has its fellows.
fn leaves_links(after: &After<'_>, e: &EntryFact) -> bool
    ensures { IsTrue result → LeavesLinks after.now.index.now.facts.now e.now }
{
    match few_links(after, e.file_id()) {
        Some(links) => leaves_those(after, links, e),
        None => false,
    }
}

// Whether it shows that a link has one like it, or no entry.
fn is_link_let_go(after: &After<'_>, l: &LinkFact) -> bool
    ensures { IsTrue result → IsLinkLetGo after.now.index.now.facts.now l.now }
{
    has_like(after, l) || lacks_entry(after, l)
}

// The same, and that the maps of its sibling have their fellows.
fn is_link_left(after: &After<'_>, l: &LinkFact) -> bool
    ensures { IsTrue result → IsLinkLeft after.now.index.now.facts.now l.now }
{
    is_link_let_go(after, l) && is_settled(after, l.file(), l.sibling())
}

// Whether it shows so of each link that is gone.
fn are_links_left(after: &After<'_>, gone: &Facts) -> bool
    ensures { IsTrue result → All (IsLinkLeft after.now.index.now.facts.now) gone.now.links }
{
    gone.links.iter().all(|l| is_link_left(after, l))
}

// Whether it shows that a map has one like it, or no link that needs it.
fn is_map_let_go(after: &After<'_>, m: &SiblingFact) -> bool
    ensures { IsTrue result → IsMapLetGo after.now.index.now.facts.now m.now }
{
    has_map(after, m.file(), m.id()) || lacks_user_link(after, m.file(), m.id())
}

// Whether it shows that each map that is gone has one like it, or no link that needs it.
fn are_maps_let_go(after: &After<'_>, gone: &Facts) -> bool
    ensures { IsTrue result → All (IsMapLetGo after.now.index.now.facts.now) gone.now.siblings }
{
    gone.siblings.iter().all(|m| is_map_let_go(after, m))
}

// Whether it shows that the maps of an entry's sibling have their fellows.
fn is_entry_settled(after: &After<'_>, e: &EntryFact) -> bool
    ensures { IsTrue result → IsEntrySettled after.now.index.now.facts.now e.now }
{
    match e.sibling() {
        Some(sibling) => is_settled(after, e.file_id(), sibling),
        None => true,
    }
}

// Whether it shows that what goes together with an entry, and the maps of its sibling, have their fellows.
fn is_entry_left(after: &After<'_>, e: &EntryFact) -> bool
    ensures { IsTrue result → IsEntryLeft after.now.index.now.facts.now e.now }
{
    leaves_links(after, e) && is_entry_settled(after, e)
}

// Whether it shows so of each entry that is gone.
fn are_entries_left(after: &After<'_>, gone: &Facts) -> bool
    ensures { IsTrue result → All (IsEntryLeft after.now.index.now.facts.now) gone.now.entries }
{
    gone.entries.iter().all(|e| is_entry_left(after, e))
}

// Whether it shows that siblings that have come have their fellows, and so have those that are left behind.
fn are_found(after: &After<'_>, gone: &Facts, come: &Facts) -> bool
    ensures { IsTrue result → KeepsFellows after.now.index.now.facts.now gone.now come.now }
{
    if !are_entries_found(after, come) {
        return false;
    }
    if !are_links_found(after, come) {
        return false;
    }
    if !are_maps_found(after, come) {
        return false;
    }
    if !are_entries_left(after, gone) {
        return false;
    }
    if !are_links_left(after, gone) {
        return false;
    }
    are_maps_let_go(after, gone)
}

// Whether nothing of siblings is gone or has come, so that they have their fellows still.
fn are_left_alone(gone: &Facts, come: &Facts) -> bool
    ensures { IsTrue result → (after : facts.Facts) → KeepsFellows after gone.now come.now }
{
    are_none(gone) && are_none(come)
}

/// Whether it shows that siblings have their fellows still.
pub(crate) fn are_fellows_right(after: &After<'_>, gone: &Facts, come: &Facts) -> bool
    ensures { IsTrue result → KeepsFellows after.now.index.now.facts.now gone.now come.now }
{
    are_left_alone(gone, come) || are_found(after, gone, come)
}
