// The rules on the hashes of names, and on the marks of files with several names.
ghost use Rattle.std.specs.Prelude.{◌≡◌, IfOk};
ghost use Rattle.view_rules.specs.Names as spec;
ghost use Rattle.view_rules.specs.Siblings as siblings;

use blk_source::NoMemory;
use fs_name::{ascii_hash, name_hash};
use rule_index::Index;
use rule_index::ids::does_count;
use std::alloc::Global;
use view_facts::{EntryFact, Facts};

/// Whether an entry's name is ASCII, and its key has another hash.
#[tactic(auto, using(crate::proofs::Texts::ascii_name, crate::proofs::Texts::other_name), unfolding(view_rules::specs::Names::has_other_ascii_hash, view_rules::specs::Names::has_other_hash))]
pub fn has_other_ascii_hash(facts: &Facts, e: &EntryFact) -> bool
    ensures { result ≡ spec.has_other_ascii_hash facts.now e.now }
{
    if !e.is_ascii() {
        return false;
    }
    facts.names.are_hashed() && ascii_hash(facts.names, e.name().as_bytes()) != e.hash()
}

/// Whether an entry's name isn't ASCII, and its key has another hash.
#[tactic(auto, using(crate::proofs::Texts::ascii_name, crate::proofs::Texts::other_name), unfolding(view_rules::specs::Names::has_other_name_hash, view_rules::specs::Names::has_other_hash))]
pub fn has_other_name_hash(alloc: Global, facts: &Facts, e: &EntryFact) -> Result<bool, NoMemory>
    ensures { IfOk result (λ other. other ≡ spec.has_other_name_hash facts.now e.now) }
{
    if e.is_ascii() {
        return Ok(false);
    }
    if !facts.names.are_hashed() {
        return Ok(false);
    }
    let hash = name_hash(alloc, facts.names, e.name())?;
    Ok(hash != e.hash())
}

/// Whether an entry that counts has no sibling's id, and its file has two entries or more.
#[tactic(auto, unfolding(view_rules::specs::Siblings::is_unmarked))]
pub fn is_unmarked(index: &Index<'_>, e: &EntryFact) -> bool
    ensures { result ≡ siblings.is_unmarked index.now.facts.now e.now }
{
    does_count(e) && e.sibling().is_none() && index.entry_count(e.file_id()) > 1
}
