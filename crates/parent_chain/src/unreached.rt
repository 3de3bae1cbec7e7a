// The rule that parents lead from each directory below 16. In the usual case they lead from one directory to the next, so the directories alone show
// it, and no list of all inodes is made.
ghost use Rattle.std.specs.Prelude.{◌≡◌, ◌+◌, ◌<◌, ◌&&◌, ℕ, suc, true, false, Option, None, length, IfOk, IfSome};
ghost use Rattle.std.specs.Option.{option_copied};
ghost use Rattle.view_rules.specs.Directories as spec;
ghost use Rattle.parent_chain.specs.Ways.{left_at, met_at};
ghost use Rattle.parent_chain.specs.Climbs.{HasClimbed, IsFirstUnreached};
ghost use Rattle.parent_chain.specs.Directories.{Rise};

use crate::climbs::leads;
use crate::ways::Ways;
use blk_source::NoMemory;
use std::alloc::Global;
use view_facts::{Facts, InodeFact};

/// Whether an inode is a directory of 16 or more.
pub(crate) fn is_user_directory(f: &InodeFact) -> bool
    ensures { result ≡ spec.is_user_directory f.now }
{
    f.kind() == 4 && f.id() >= 16
}

// Whether an inode is a directory of 16 or more from which parents never lead below 16.
fn is_unreached(ways: &mut Ways, number: usize, f: &InodeFact) -> bool
    ensures yes { result ≡ true → (parent : ℕ → Option ℕ) → HasClimbed parent (left_at ways.old) (met_at ways.old) number → (spec.is_user_directory f.now ≡ true) × (spec.Leads parent f.now.id → ⊥) }
    ensures no { result ≡ false → (parent : ℕ → Option ℕ) → HasClimbed parent (left_at ways.old) (met_at ways.old) number → HasClimbed parent (left_at ways.new) (met_at ways.new) (number + 1) × (spec.is_user_directory f.now ≡ true → spec.Leads parent f.now.id) }
{
    if !is_user_directory(f) {
        return false;
    }
    let leads = leads(ways, number, f.id());
    !leads
}

/// Whether each of some inodes has a greater id than the one before it.
pub fn do_ids_rise(inodes: &[InodeFact]) -> bool
    ensures { result ≡ true → Rise inodes.now }
{
    for i in 1..inodes.len() {
        if inodes[i].id() <= inodes[i - 1].id() {
            return false;
        }
    }
    true
}

// Whether it shows by the parents of directories alone that parents lead below 16 from each directory of 16 or more.
fn do_directories_lead(alloc: Global, facts: &Facts) -> Result<bool, NoMemory>
    ensures { IfOk result (λ lead. lead ≡ true → spec.HasWays facts.now) }
{
    if !do_ids_rise(&facts.inodes) {
        return Ok(false);
    }
    let mut ways = Ways::of_directories(alloc, &facts.inodes)?;
    for (number, f) in facts.inodes.iter().enumerate() {
        if is_unreached(&mut ways, number, f) {
            return Ok(false);
        }
    }
    Ok(true)
}

// The first directory of 16 or more, in record order, from which parents never lead below 16, by the parents of all inodes.
fn first_among_all<'a>(alloc: Global, facts: &'a Facts) -> Result<Option<&'a InodeFact>, NoMemory>
    ensures clear { IfOk result (λ found. option_copied found ≡ None → spec.HasWays facts.now) }
    ensures present { IfOk result (λ found. IfSome found (λ f. spec.IsUnreached facts.now f.now.id)) }
    ensures first { IfOk result (λ found. IfSome found (λ f. IsFirstUnreached facts.now f.now)) }
{
    let mut ways = Ways::of(alloc, &facts.inodes)?;
    for (number, f) in facts.inodes.iter().enumerate() {
        if is_unreached(&mut ways, number, f) {
            return Ok(Some(f));
        }
    }
    Ok(None)
}

/// The first directory of 16 or more, in record order, from which parent ids never lead to an id below 16. Each id's parent is
/// followed once, so it takes n log n comparisons.
///
/// # Errors
///
/// `NoMemory`: an allocation failed.
pub fn first_unreached<'a>(
    alloc: Global,
    facts: &'a Facts,
) -> Result<Option<&'a InodeFact>, NoMemory>
    ensures clear { IfOk result (λ found. option_copied found ≡ None → spec.HasWays facts.now) }
    ensures present { IfOk result (λ found. IfSome found (λ f. spec.IsUnreached facts.now f.now.id)) }
    ensures first { IfOk result (λ found. IfSome found (λ f. IsFirstUnreached facts.now f.now)) }
{
    if do_directories_lead(alloc, facts)? {
        return Ok(None);
    }
    first_among_all(alloc, facts)
}
