// Faults of siblings: entries, links and maps that lack their fellows.
ghost use Rattle.std.specs.Prelude.{◌≡◌, option_map, IfOk};
ghost use Rattle.view_rules.specs.Siblings as rules;
ghost use Rattle.view_rules.specs.declared.fault.TreeFault.TheVariants.{SiblingLost};
ghost use Rattle.rule_breaks.specs.Faults as spec;

use super::{Asked, either, id_at};
use crate::fellows;
use crate::fellows::Fellows;
use crate::names::is_unmarked;
use blk_source::NoMemory;
use rule_index::Index;
use rule_index::twins::are_together;
use std::alloc::Global;
use view_facts::{EntryFact, Facts};
use view_rules::TreeFault;

// The fault of an entry of a sibling that lacks its fellows; none of an entry without a sibling's id.
fn lost_twin(asked: &Asked<'_>, e: &EntryFact) -> Option<TreeFault>
    ensures { result ≡ option_map (λ s. SiblingLost (spec.id_at asked.now.view.now s)) e.now.what.sibling }
{
    match e.sibling() {
        Some(sibling) => Some(TreeFault::SiblingLost(id_at(asked.view, sibling))),
        None => None,
    }
}

// An entry that lacks its link or its map.
#[tactic(auto, using(crate::proofs::Shown::lost_entry, crate::proofs::Shown::none_clear))]
fn lost_entry(asked: &Asked<'_>, fellows: &Fellows<'_>) -> Option<TreeFault>
    ensures { spec.IsFirst asked.now fellows.now.facts.now (rules.HasEntryFellows fellows.now.facts.now) result }
{
    match fellows::lost_entry(fellows) {
        Some(e) => lost_twin(asked, e),
        None => None,
    }
}

// A link that lacks its entry or its map.
#[tactic(auto, using(crate::proofs::Shown::lost_link, crate::proofs::Shown::none_clear))]
fn lost_link(
    alloc: Global,
    asked: &Asked<'_>,
    fellows: &Fellows<'_>,
) -> Result<Option<TreeFault>, NoMemory>
    ensures { IfOk result (spec.IsFirst asked.now fellows.now.facts.now (rules.HasLinkFellows fellows.now.facts.now)) }
{
    let first = fellows::lost_link(alloc, fellows)?;
    match first {
        Some(l) => Ok(Some(TreeFault::SiblingLost(id_at(asked.view, l.sibling())))),
        None => Ok(None),
    }
}

// A map that lacks its entry or its link.
#[tactic(auto, using(crate::proofs::Shown::lost_map, crate::proofs::Shown::none_clear))]
fn lost_map(
    alloc: Global,
    asked: &Asked<'_>,
    fellows: &Fellows<'_>,
) -> Result<Option<TreeFault>, NoMemory>
    ensures { IfOk result (spec.IsFirst asked.now fellows.now.facts.now (rules.HasMapFellows fellows.now.facts.now)) }
{
    let first = fellows::lost_map(alloc, fellows)?;
    match first {
        Some(m) => Ok(Some(TreeFault::SiblingLost(id_at(asked.view, m.id())))),
        None => Ok(None),
    }
}

// An entry without a sibling's id, of a file with two entries or more.
fn unmarked(asked: &Asked<'_>, index: &Index<'_>) -> Option<TreeFault>
    ensures { spec.IsFirst asked.now index.now.facts.now (rules.HasMarks index.now.facts.now) result }
{
    if index.has_single_entries() {
        return None;
    }
    let facts = index.facts;
    for e in &facts.entries {
        if is_unmarked(index, e) {
            return Some(TreeFault::SiblingLost(id_at(asked.view, e.file_id())));
        }
    }
    None
}

// A fault of an entry, a link or a map that lacks its fellows, by what counts them.
fn lost_by(
    alloc: Global,
    asked: &Asked<'_>,
    fellows: &Fellows<'_>,
) -> Result<Option<TreeFault>, NoMemory>
    ensures { IfOk result (spec.IsFirst asked.now fellows.now.facts.now (rules.HasEntryFellows fellows.now.facts.now × (rules.HasLinkFellows fellows.now.facts.now × rules.HasMapFellows fellows.now.facts.now))) }
{
    let link = lost_link(alloc, asked, fellows)?;
    let rest = either(Ok(link), lost_map(alloc, asked, fellows));
    either(Ok(lost_entry(asked, fellows)), rest)
}

// A fault of an entry, a link or a map that lacks its fellows.
fn lost(alloc: Global, asked: &Asked<'_>, facts: &Facts) -> Result<Option<TreeFault>, NoMemory>
    ensures { IfOk result (spec.IsFirst asked.now facts.now (rules.HasEntryFellows facts.now × (rules.HasLinkFellows facts.now × rules.HasMapFellows facts.now))) }
{
    let fellows = Fellows::of(alloc, facts)?;
    lost_by(alloc, asked, &fellows)
}

/// A fault of a sibling, where one is there.
pub fn fault(
    alloc: Global,
    asked: &Asked<'_>,
    index: &Index<'_>,
) -> Result<Option<TreeFault>, NoMemory>
    ensures { IfOk result (spec.IsFirst asked.now index.now.facts.now (rules.HasEntryFellows index.now.facts.now × (rules.HasLinkFellows index.now.facts.now × (rules.HasMapFellows index.now.facts.now × rules.HasMarks index.now.facts.now)))) }
{
    let together = are_together(alloc, index.facts)?;
    if together {
        return Ok(unmarked(asked, index));
    }
    let lost = lost(alloc, asked, index.facts)?;
    Ok(lost.or(unmarked(asked, index)))
}
