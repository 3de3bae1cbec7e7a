// Entries of siblings, their links and their maps. In the usual case each has its fellows and no two have the same, so they pair off, which shows in one pass
// over the three in one order.
ghost use Rattle.std.specs.Prelude.{◌≡◌, ◌++◌, [], ◌∷◌, true, filter, map, IfOk, OnOk, if◌then◌else◌};
ghost use Rattle.std.specs.List.Sorted.{IsPermutation};
ghost use Rattle.view_rules.specs.Siblings as spec;
ghost use Rattle.rule_index.specs.Twins.{sibling_pair, PairOff};

use crate::ids::is_system_id;
use blk_source::NoMemory;
use std::alloc::Global;
use std::marker::Model;
use view_facts::{EntryFact, Facts, LinkFact, SiblingFact};

/// An entry that needs its fellows, with the file and the sibling by which it is put in order.
#[derive(Drop)]
struct Twin<'a> {
    file: u64,
    sibling: u64,
    entry: &'a EntryFact,
}

impl<'a> Model for Twin<'a> {
    ghost use Rattle.fs_record.specs.Entries.{Entry};
    ghost use Rattle.fs_record.specs.Facts.{Fact};

    ghost Value = { Fact Entry };

    ghost view = { λ twin. twin.entry.now };
}

// Adds an entry, where it needs its fellows.
fn add<'a>(twins: &mut Vec<Twin<'a>>, e: &'a EntryFact) -> Result<(), NoMemory>
    ensures { OnOk result (twins.new.items ≡ twins.old.items ++ (if spec.is_twin e.now then e.now ∷ [] else [])) }
{
    let Some(sibling) = e.sibling() else {
        return Ok(());
    };
    if is_system_id(e.id()) {
        return Ok(());
    }
    twins.push(Twin {
        file: e.file_id(),
        sibling,
        entry: e,
    })?;
    Ok(())
}

// The entries that need their fellows, in their order.
fn listed<'a>(alloc: Global, entries: &'a [EntryFact]) -> Result<Vec<Twin<'a>>, NoMemory>
    ensures { IfOk result (λ twins. twins.items ≡ filter spec.is_twin entries.now) }
{
    let mut twins = Vec::new(alloc);
    for e in entries {
        add(&mut twins, e)?;
    }
    Ok(twins)
}

// Puts entries in the order of their files and siblings.
fn sort(twins: &mut Vec<Twin<'_>>)
    ensures { IsPermutation twins.old.items twins.new.items }
{
    twins.sort_unstable_by(|a, b| a.file.cmp(&b.file).then(a.sibling.cmp(&b.sibling)));
}

// The entries that need their fellows, in the order of their files and siblings.
fn twins_of<'a>(alloc: Global, entries: &'a [EntryFact]) -> Result<Vec<Twin<'a>>, NoMemory>
    ensures { IfOk result (λ twins. IsPermutation (filter spec.is_twin entries.now) twins.items) }
{
    let mut twins = listed(alloc, entries)?;
    sort(&mut twins);
    Ok(twins)
}

// The file and the sibling of each map.
fn mapped(alloc: Global, maps: &[SiblingFact]) -> Result<Vec<(u64, u64)>, NoMemory>
    ensures { IfOk result (λ pairs. pairs.items ≡ map sibling_pair maps.now) }
{
    let pairs = maps.iter().map(|m| (m.file(), m.id())).collect(alloc)?;
    Ok(pairs)
}

// The file and the sibling of each map, in order.
fn pairs_of(alloc: Global, maps: &[SiblingFact]) -> Result<Vec<(u64, u64)>, NoMemory>
    ensures { IfOk result (λ pairs. IsPermutation (map sibling_pair maps.now) pairs.items) }
{
    let mut pairs = mapped(alloc, maps)?;
    pairs.sort_unstable();
    Ok(pairs)
}

// Whether an entry is of a sibling of a file.
fn is_entry_of(e: &EntryFact, file: u64, sibling: u64) -> bool
    ensures { result ≡ spec.is_entry_of file sibling e.now }
{
    match e.sibling() {
        Some(id) => e.file_id() == file && id == sibling,
        None => false,
    }
}

/// Whether an entry and a link go together.
pub fn go_together(e: &EntryFact, l: &LinkFact) -> bool
    ensures { result ≡ spec.go_together e.now l.now }
{
    is_entry_of(e, l.file(), l.sibling()) && e.id() == l.parent() && e.name() == l.name()
}

// Whether an entry and a link go together, and a map is of their sibling.
fn are_fellows(twin: &Twin<'_>, l: &LinkFact, pair: (u64, u64)) -> bool
    ensures { result ≡ true → (spec.go_together twin.now l.now ≡ true) × (pair ≡ (l.now.what.file, l.now.what.sibling)) }
{
    go_together(twin.entry, l) && pair.0 == l.file() && pair.1 == l.sibling()
}

// Whether entries, links and maps are fellows one by one.
fn pair_off(twins: &[Twin<'_>], links: &[LinkFact], pairs: &[(u64, u64)]) -> bool
    ensures { result ≡ true → PairOff twins.now links.now pairs.now }
{
    if links.len() != twins.len() || pairs.len() != twins.len() {
        return false;
    }
    for i in 0..twins.len() {
        if !are_fellows(&twins[i], &links[i], pairs[i]) {
            return false;
        }
    }
    true
}

/// Whether it shows at once that no entry, link or map lacks its fellows.
pub fn are_together(alloc: Global, facts: &Facts) -> Result<bool, NoMemory>
    ensures { IfOk result (λ together. together ≡ true → spec.HasEntryFellows facts.now × (spec.HasLinkFellows facts.now × spec.HasMapFellows facts.now)) }
{
    let twins = twins_of(alloc, &facts.entries)?;
    let pairs = pairs_of(alloc, &facts.siblings)?;
    Ok(pair_off(&twins, &facts.links, &pairs))
}
