// The fault of directories from which parents never lead to the root.
ghost use Rattle.std.specs.Prelude.{IfOk};
ghost use Rattle.view_rules.specs.Directories as rules;
ghost use Rattle.rule_breaks.specs.Faults as spec;

use super::{Asked, id_at};
use blk_source::NoMemory;
use parent_chain::first_unreached;
use std::alloc::Global;
use view_facts::Facts;
use view_rules::TreeFault;

/// A directory from which parents never lead to an id below 16, where one is there.
pub fn fault(alloc: Global, asked: &Asked<'_>, facts: &Facts) -> Result<Option<TreeFault>, NoMemory>
    ensures { IfOk result (spec.IsFirst asked.now facts.now (rules.HasWays facts.now)) }
{
    match first_unreached(alloc, facts)? {
        Some(f) => Ok(Some(TreeFault::Unreached(id_at(asked.view, f.id())))),
        None => Ok(None),
    }
}
