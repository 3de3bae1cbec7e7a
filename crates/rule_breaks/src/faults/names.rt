// Faults of names: those that are there twice, and hashes of ASCII ones.
ghost use Rattle.std.specs.Prelude.{◌≡◌, true, IfOk};
ghost use Rattle.view_rules.specs.Names as rules;
ghost use Rattle.rule_breaks.specs.Faults as spec;

use super::{Asked, either, named_at};
use crate::names::has_other_ascii_hash;
use crate::repeats::{repeated_attribute, repeated_entry};
use blk_source::NoMemory;
use std::alloc::Global;
use view_facts::Facts;
use view_rules::TreeFault;

// A name that is twice in a directory. `hashed` tells whether the hashes of ASCII names are known to be right.
#[tactic(auto, using(crate::proofs::Shown::entry_twice, crate::proofs::Shown::none_clear))]
fn entry_twice(
    alloc: Global,
    asked: &Asked<'_>,
    facts: &Facts,
    hashed: bool,
) -> Result<Option<TreeFault>, NoMemory>
    requires { hashed ≡ true → rules.HasAsciiHashes facts.now }
    ensures { IfOk result (spec.IsFirst asked.now facts.now (rules.HasDistinctEntries facts.now)) }
{
    let first = repeated_entry(alloc, facts, hashed)?;
    match first {
        Some(e) => {
            let at = named_at(alloc, asked.view, e.id(), e.name())?;
            Ok(Some(TreeFault::DupName(at)))
        }
        None => Ok(None),
    }
}

// A name that is twice among the attributes of a file.
#[tactic(auto, using(crate::proofs::Shown::attribute_twice, crate::proofs::Shown::none_clear))]
fn attribute_twice(
    alloc: Global,
    asked: &Asked<'_>,
    facts: &Facts,
) -> Result<Option<TreeFault>, NoMemory>
    ensures { IfOk result (spec.IsFirst asked.now facts.now (rules.HasDistinctAttributes facts.now)) }
{
    let first = repeated_attribute(alloc, facts)?;
    match first {
        Some(a) => {
            let at = named_at(alloc, asked.view, a.id(), a.name())?;
            Ok(Some(TreeFault::DupName(at)))
        }
        None => Ok(None),
    }
}

// An ASCII name whose key has another hash.
fn other_hash(
    alloc: Global,
    asked: &Asked<'_>,
    facts: &Facts,
) -> Result<Option<TreeFault>, NoMemory>
    ensures { IfOk result (spec.IsFirst asked.now facts.now (rules.HasAsciiHashes facts.now)) }
{
    for e in &facts.entries {
        if has_other_ascii_hash(facts, e) {
            let at = named_at(alloc, asked.view, e.id(), e.name())?;
            return Ok(Some(TreeFault::Hash(at)));
        }
    }
    Ok(None)
}

// A name that is twice, in a directory or among the attributes of a file.
fn name_twice(
    alloc: Global,
    asked: &Asked<'_>,
    facts: &Facts,
    hashed: bool,
) -> Result<Option<TreeFault>, NoMemory>
    requires { hashed ≡ true → rules.HasAsciiHashes facts.now }
    ensures { IfOk result (spec.IsFirst asked.now facts.now (rules.HasDistinctEntries facts.now × rules.HasDistinctAttributes facts.now)) }
{
    let entry = entry_twice(alloc, asked, facts, hashed)?;
    either(Ok(entry), attribute_twice(alloc, asked, facts))
}

/// A fault of a name, where one is there.
pub fn fault(alloc: Global, asked: &Asked<'_>, facts: &Facts) -> Result<Option<TreeFault>, NoMemory>
    ensures { IfOk result (spec.IsFirst asked.now facts.now (rules.HasDistinctEntries facts.now × (rules.HasDistinctAttributes facts.now × rules.HasAsciiHashes facts.now))) }
{
    let hash = other_hash(alloc, asked, facts)?;
    let twice = name_twice(alloc, asked, facts, hash.is_none());
    either(twice, Ok(hash))
}
