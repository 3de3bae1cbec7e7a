// The rules of the facts that were gathered of a view.
ghost use Rattle.std.specs.Prelude.{◌≡◌, ◌<◌, ℕ, List, IfOk, IfErr, IsErrOf, OnOk};
ghost use Rattle.obj_base.specs.Stops.{Tells};
ghost use Rattle.obj_base.specs.declared.stop.Stop.TheVariants.{ReadFault};
ghost use Rattle.vol_view.specs.Views.{IsViewFeature};
ghost use Rattle.vol_view.specs.Volumes.{Loaded};
ghost use Rattle.view_rules.specs.Rules.{HasFactRules, HasTreeRules, IsTreeFault};
ghost use Rattle.view_facts.specs.Kept.{IsGatheredView};
ghost use Rattle.tree_rules.specs.Tallies.{IsTally, notes_of};

use crate::ViewTally;
use crate::faults::first_fault;
use crate::remarks::notes;
use obj_base::Stop;
use rule_breaks::faults::Asked;
use rule_index::Index;
use std::alloc::Global;
use view_facts::Facts;
use view_rules::TreeFault;

// The number of records and the notes of a view, by an index of its facts.
fn tally_by(
    alloc: Global,
    asked: &Asked<'_>,
    index: &Index<'_>,
    records: u64,
) -> Result<ViewTally, Stop<TreeFault>>
    requires { 0 < asked.now.site.now.block_size }
    ensures rules { OnOk result (HasFactRules asked.now.profile asked.now.site.now asked.now.ranges.now index.now.facts.now) }
    ensures noted { IfOk result (λ tally. tally.notes.items ≡ notes_of asked.now.profile asked.now.view.now index.now.facts.now) }
    ensures clear { (image : List ℕ) (volume : Loaded) → IsGatheredView image asked.now.site.now volume asked.now.view.now (record { facts = index.now.facts.now; records = records }) → OnOk result (HasTreeRules asked.now.profile image asked.now.site.now volume asked.now.view.now asked.now.ranges.now) }
    ensures value { (image : List ℕ) (volume : Loaded) → IsGatheredView image asked.now.site.now volume asked.now.view.now (record { facts = index.now.facts.now; records = records }) → IfOk result (IsTally asked.now.profile image asked.now.site.now volume asked.now.view.now) }
    ensures present { (image : List ℕ) (volume : Loaded) → IsGatheredView image asked.now.site.now volume asked.now.view.now (record { facts = index.now.facts.now; records = records }) → IfErr result (Tells (IsTreeFault asked.now.profile image asked.now.site.now volume asked.now.view.now asked.now.ranges.now) (IsViewFeature image asked.now.site.now volume asked.now.view.now)) }
    ensures no_read { IsErrOf result ReadFault → ⊥ }
{
    let first = first_fault(alloc, asked, index)?;
    if let Some(fault) = first {
        return Err(Stop::Found(fault));
    }
    let notes = notes(alloc, asked.profile, asked.view, index)?;
    Ok(ViewTally { records, notes })
}

/// The number of records and the notes of a view whose facts and whose number of records were gathered, where it meets its rules. A fault that is named is
/// there.
pub(crate) fn tally_of(
    alloc: Global,
    asked: &Asked<'_>,
    facts: &Facts,
    records: u64,
) -> Result<ViewTally, Stop<TreeFault>>
    requires { 0 < asked.now.site.now.block_size }
    ensures rules { OnOk result (HasFactRules asked.now.profile asked.now.site.now asked.now.ranges.now facts.now) }
    ensures noted { IfOk result (λ tally. tally.notes.items ≡ notes_of asked.now.profile asked.now.view.now facts.now) }
    ensures clear { (image : List ℕ) (volume : Loaded) → IsGatheredView image asked.now.site.now volume asked.now.view.now (record { facts = facts.now; records = records }) → OnOk result (HasTreeRules asked.now.profile image asked.now.site.now volume asked.now.view.now asked.now.ranges.now) }
    ensures value { (image : List ℕ) (volume : Loaded) → IsGatheredView image asked.now.site.now volume asked.now.view.now (record { facts = facts.now; records = records }) → IfOk result (IsTally asked.now.profile image asked.now.site.now volume asked.now.view.now) }
    ensures present { (image : List ℕ) (volume : Loaded) → IsGatheredView image asked.now.site.now volume asked.now.view.now (record { facts = facts.now; records = records }) → IfErr result (Tells (IsTreeFault asked.now.profile image asked.now.site.now volume asked.now.view.now asked.now.ranges.now) (IsViewFeature image asked.now.site.now volume asked.now.view.now)) }
    ensures no_read { IsErrOf result ReadFault → ⊥ }
{
    let index = Index::new(alloc, facts)?;
    tally_by(alloc, asked, &index, records)
}
