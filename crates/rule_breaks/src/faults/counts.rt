// Faults of the numbers of children and of links.
ghost use Rattle.view_rules.specs.Counts as rules;
ghost use Rattle.rule_breaks.specs.Faults as spec;

use super::Asked;
use super::by_inode::InodeRule;
use rule_index::Index;
use view_rules::TreeFault;

/// A fault of a number, where one is there.
pub fn fault(asked: &Asked<'_>, index: &Index<'_>) -> Option<TreeFault>
    ensures { spec.IsFirst asked.now index.now.facts.now (rules.HasChildren index.now.facts.now × rules.HasLinks index.now.facts.now) result }
{
    let directory = InodeRule::ChildCount.first(asked, index);
    directory.or(InodeRule::LinkCount.first(asked, index))
}
