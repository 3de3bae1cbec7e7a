// The parents of directories that have come.
ghost use Rattle.std.specs.Prelude.{◌≡◌, All, IsTrue};
ghost use Rattle.view_rules.specs.Directories as rules;
ghost use Rattle.rule_changes.specs.Changes as spec;
ghost use Rattle.plain_change.specs.Parts.{HasWay};

use crate::lookups::After;
use rule_breaks::directories::is_user_directory;
use rule_index::ordered::{ByInode, Ordered};
use view_facts::{Facts, InodeFact};

// Whether it shows that parents lead from an id to one below 16.
fn leads(after: &After<'_>, start: u64) -> bool
    ensures { IsTrue result → rules.Leads (rules.parent_at after.now.index.now.facts.now) start }
{
    let mut id = start;
    'climb: for _ in 0..after.most() {
        if id < 16 {
            return true;
        }
        let Some(f) = after.inode(id) else {
            return false;
        };
        id = f.parent();
    }
    false
}

// Whether a directory of the same id is gone, with the same parent.
fn stands_as_in(gone: &Facts, inodes: &Ordered<'_, InodeFact, ByInode>, f: &InodeFact) -> bool
    requires { inodes.now ≡ gone.now.inodes }
    ensures { result ≡ spec.stands_as_in gone.now f.now }
{
    match inodes.first(f.id()) {
        Some(before) => before.kind() == 4 && before.parent() == f.parent(),
        None => false,
    }
}

// Whether it shows that a directory of 16 or more has a way, or has it still.
fn has_way(
    after: &After<'_>,
    gone: &Facts,
    inodes: &Ordered<'_, InodeFact, ByInode>,
    f: &InodeFact,
) -> bool
    requires { inodes.now ≡ gone.now.inodes }
    ensures { IsTrue result → HasWay after.now.index.now.facts.now gone.now f.now }
{
    !is_user_directory(f) || stands_as_in(gone, inodes, f) || leads(after, f.id())
}

/// Whether it shows that each directory that has come has a way, or has it still.
pub(crate) fn have_ways(after: &After<'_>, gone: &Facts, come: &Facts) -> bool
    ensures { IsTrue result → All (HasWay after.now.index.now.facts.now gone.now) come.now.inodes }
{
    match Ordered::of(&gone.inodes) {
        Some(inodes) => come.inodes.iter().all(|f| has_way(after, gone, &inodes, f)),
        None => false,
    }
}
