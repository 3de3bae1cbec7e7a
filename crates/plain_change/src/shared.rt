// Files that share one name with another: those whose only entry stays have no sibling's id there.
ghost use Rattle.std.specs.Prelude.{◌≡◌, ◌+◌, ◌==◌, nat_lt, All, IfOk, IsTrue};
ghost use Rattle.view_rules.specs.Facts as rules;
ghost use Rattle.plain_change.specs.Fellows as spec;
ghost use Rattle.plain_change.specs.Fellows.{IsSharedStill};

use crate::siblings::has_marks;
use blk_source::NoMemory;
use rule_index::Index;
use std::alloc::Global;
use view_facts::{EntryFact, Facts};

// Whether all entries of a file have come.
fn has_new_names(after: &Index<'_>, new: &Index<'_>, file: u64) -> bool
    ensures { result ≡ (rules.entry_count after.now.facts.now file == rules.entry_count new.now.facts.now file) }
{
    after.entry_count(file) == new.entry_count(file)
}

// Whether a file had two entries or more.
fn had_several(after: &Index<'_>, old: &Index<'_>, new: &Index<'_>, file: u64) -> bool
    ensures { result ≡ nat_lt (rules.entry_count new.now.facts.now file + 1) (rules.entry_count after.now.facts.now file + rules.entry_count old.now.facts.now file) }
{
    u128::from(new.entry_count(file)) + 1
        < u128::from(after.entry_count(file)) + u128::from(old.entry_count(file))
}

// Whether all entries of a file have come, or it had two or more.
#[tactic(auto, unfolding(crate::specs::Fellows::keeps_sharing))]
fn keeps_sharing(after: &Index<'_>, old: &Index<'_>, new: &Index<'_>, file: u64) -> bool
    ensures { result ≡ spec.keeps_sharing after.now.facts.now old.now.facts.now new.now.facts.now file }
{
    has_new_names(after, new, file) || had_several(after, old, new, file)
}

// Whether an entry has no sibling's id, or its file isn't one that keeps its only entry.
fn is_still_shared(after: &Index<'_>, old: &Index<'_>, new: &Index<'_>, e: &EntryFact) -> bool
    ensures { IsTrue result → IsSharedStill after.now.facts.now old.now.facts.now new.now.facts.now e.now }
{
    if e.sibling().is_none() {
        return true;
    }
    keeps_sharing(after, old, new, e.file_id())
}

// Whether no file that keeps its only entry gets another with a sibling's id, by what is gone and what has come.
fn are_shared_by(after: &Index<'_>, old: &Index<'_>, new: &Index<'_>, come: &Facts) -> bool
    ensures { IsTrue result → All (IsSharedStill after.now.facts.now old.now.facts.now new.now.facts.now) come.now.entries }
{
    come.entries
        .iter()
        .all(|e| is_still_shared(after, old, new, e))
}

// The same, where what has come isn't looked at yet.
fn are_shared_since(
    alloc: Global,
    after: &Index<'_>,
    old: &Index<'_>,
    come: &Facts,
) -> Result<bool, NoMemory>
    ensures { IfOk result (λ shared. IsTrue shared → All (IsSharedStill after.now.facts.now old.now.facts.now come.now) come.now.entries) }
{
    let new = Index::new(alloc, come)?;
    Ok(are_shared_by(after, old, &new, come))
}

// The same, where neither is.
fn are_shared_after(
    alloc: Global,
    after: &Index<'_>,
    gone: &Facts,
    come: &Facts,
) -> Result<bool, NoMemory>
    ensures { IfOk result (λ shared. IsTrue shared → All (IsSharedStill after.now.facts.now gone.now come.now) come.now.entries) }
{
    let old = Index::new(alloc, gone)?;
    are_shared_since(alloc, after, &old, come)
}

/// Whether no file that keeps its only entry gets another with a sibling's id.
pub(crate) fn are_still_shared(
    alloc: Global,
    after: &Index<'_>,
    gone: &Facts,
    come: &Facts,
) -> Result<bool, NoMemory>
    ensures { IfOk result (λ shared. IsTrue shared → All (IsSharedStill after.now.facts.now gone.now come.now) come.now.entries) }
{
    if !has_marks(come) {
        return Ok(true);
    }
    are_shared_after(alloc, after, gone, come)
}
