// Faults of directories: each has one entry, in the directory of its parent, and the root has none.
ghost use Rattle.std.specs.Prelude.{◌≡◌, false};
ghost use Rattle.view_rules.specs.Directories as rules;
ghost use Rattle.rule_breaks.specs.Faults as spec;

use super::by_inode::InodeRule;
use super::{Asked, id_at};
use crate::directories;
use rule_index::Index;
use view_rules::TreeFault;

// A root with an entry.
#[tactic(auto, using(crate::proofs::Shown::root_name))]
fn named_root(asked: &Asked<'_>, index: &Index<'_>) -> Option<TreeFault>
    ensures { spec.IsFirst asked.now index.now.facts.now (rules.is_root_named index.now.facts.now ≡ false) result }
{
    if !directories::is_root_named(index) {
        return None;
    }
    Some(TreeFault::DirNames(id_at(asked.view, 2)))
}

/// A fault of the entries of directories, where one is there.
pub fn fault(asked: &Asked<'_>, index: &Index<'_>) -> Option<TreeFault>
    ensures { spec.IsFirst asked.now index.now.facts.now (rules.HasDirNames index.now.facts.now × (rules.is_root_named index.now.facts.now ≡ false)) result }
{
    let directory = InodeRule::Home.first(asked, index);
    directory.or(named_root(asked, index))
}
