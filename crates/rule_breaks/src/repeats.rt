// The rules on names that are there twice. In the usual case none is, and the digests of names show it.
ghost use Rattle.std.specs.Prelude.{◌≡◌, true, None, find, IfOk};
ghost use Rattle.std.specs.Option.{option_copied};
ghost use Rattle.view_rules.specs.Names as spec;
ghost use Rattle.rule_index.specs.Keys as keys;

use crate::suspects::{are_ranked, suspects};
use blk_source::NoMemory;
use rule_index::counts::Counts;
use rule_index::digests::{ByAttributeDigest, ByEntryDigest};
use rule_index::keys::{ByAttribute, ByEntry, place_ref, tally};
use rule_index::{KeyCounts, ids};
use std::alloc::Global;
use view_facts::{AttributeFact, EntryFact, Facts};

// Whether an entry's name is there again in its directory.
#[tactic(auto, unfolding(view_rules::specs::Names::is_entry_repeated))]
fn is_entry_repeated<'a>(facts: &'a Facts, counts: &KeyCounts<'a>, e: &'a EntryFact) -> bool
    requires { keys.CountsKeys keys.entry_key facts.now.entries counts.now }
    ensures { result ≡ spec.is_entry_repeated facts.now e.now }
{
    counts.count(place_ref(e.id(), e.name())) > 1
}

// The first entry whose name is counted twice.
fn entry_counted_twice<'a>(facts: &'a Facts, counts: &KeyCounts<'a>) -> Option<&'a EntryFact>
    requires { keys.CountsKeys keys.entry_key facts.now.entries counts.now }
    ensures { option_copied result ≡ find (spec.is_entry_repeated facts.now) facts.now.entries }
{
    for e in &facts.entries {
        if is_entry_repeated(facts, counts, e) {
            return Some(e);
        }
    }
    None
}

// Whether it shows by the digests of the names that could be there twice that none is, where the hashes of ASCII names are right.
fn are_suspects_apart(alloc: Global, facts: &Facts) -> Result<bool, NoMemory>
    requires { spec.HasAsciiHashes facts.now }
    ensures { IfOk result (λ apart. apart ≡ true → find (spec.is_entry_repeated facts.now) facts.now.entries ≡ None) }
{
    if !facts.names.are_hashed() || !are_ranked(&facts.entries) {
        return Ok(false);
    }
    let digests = suspects(alloc, &facts.entries)?;
    Ok(Counts::of(digests).are_distinct())
}

// Whether it shows by the digests of names that none is there twice in a directory.
fn are_entries_apart(alloc: Global, facts: &Facts) -> Result<bool, NoMemory>
    ensures { IfOk result (λ apart. apart ≡ true → find (spec.is_entry_repeated facts.now) facts.now.entries ≡ None) }
{
    let digests = ids::tally::<_, ByEntryDigest>(alloc, &facts.entries)?;
    Ok(digests.are_distinct())
}

/// The first entry whose name is there again in its directory. `hashed` tells whether the hashes of ASCII names are known to be right.
pub fn repeated_entry(
    alloc: Global,
    facts: &Facts,
    hashed: bool,
) -> Result<Option<&EntryFact>, NoMemory>
    requires { hashed ≡ true → spec.HasAsciiHashes facts.now }
    ensures { IfOk result (λ first. option_copied first ≡ find (spec.is_entry_repeated facts.now) facts.now.entries) }
{
    if hashed && are_suspects_apart(alloc, facts)? {
        return Ok(None);
    }
    if are_entries_apart(alloc, facts)? {
        return Ok(None);
    }
    let counts = tally::<_, ByEntry>(alloc, &facts.entries)?;
    Ok(entry_counted_twice(facts, &counts))
}

// Whether an attribute's name is there again among those of its file.
#[tactic(auto, unfolding(view_rules::specs::Names::is_attribute_repeated))]
fn is_attribute_repeated<'a>(facts: &'a Facts, counts: &KeyCounts<'a>, a: &'a AttributeFact) -> bool
    requires { keys.CountsKeys keys.attribute_key facts.now.attributes counts.now }
    ensures { result ≡ spec.is_attribute_repeated facts.now a.now }
{
    counts.count(place_ref(a.id(), a.name())) > 1
}

// The first attribute whose name is counted twice.
fn attribute_counted_twice<'a>(
    facts: &'a Facts,
    counts: &KeyCounts<'a>,
) -> Option<&'a AttributeFact>
    requires { keys.CountsKeys keys.attribute_key facts.now.attributes counts.now }
    ensures { option_copied result ≡ find (spec.is_attribute_repeated facts.now) facts.now.attributes }
{
    for a in &facts.attributes {
        if is_attribute_repeated(facts, counts, a) {
            return Some(a);
        }
    }
    None
}

// Whether it shows by the digests of names that none is there twice among the attributes of a file.
fn are_attributes_apart(alloc: Global, facts: &Facts) -> Result<bool, NoMemory>
    ensures { IfOk result (λ apart. apart ≡ true → find (spec.is_attribute_repeated facts.now) facts.now.attributes ≡ None) }
{
    let digests = ids::tally::<_, ByAttributeDigest>(alloc, &facts.attributes)?;
    Ok(digests.are_distinct())
}

/// The first attribute whose name is there again among those of its file.
pub fn repeated_attribute(alloc: Global, facts: &Facts) -> Result<Option<&AttributeFact>, NoMemory>
    ensures { IfOk result (λ first. option_copied first ≡ find (spec.is_attribute_repeated facts.now) facts.now.attributes) }
{
    if are_attributes_apart(alloc, facts)? {
        return Ok(None);
    }
    let counts = tally::<_, ByAttribute>(alloc, &facts.attributes)?;
    Ok(attribute_counted_twice(facts, &counts))
}
