// Faults of the hashes of names that aren't ASCII: they are faults under Strict alone.
ghost use Rattle.std.specs.Prelude.{◌≡◌, IfOk};
ghost use Rattle.rule_breaks.specs.Faults as spec;
ghost use Rattle.view_rules.specs.Names as rules;
ghost use Rattle.view_rules.specs.declared.profile.Profile.TheVariants.{Strict};

use crate::Profile;
use crate::remarks::{named_at, other_name_hash};
use blk_source::NoMemory;
use rule_breaks::faults::Asked;
use std::alloc::Global;
use view_facts::Facts;
use view_rules::TreeFault;

/// A name that isn't ASCII whose key has another hash, under Strict.
#[tactic(auto, using(rule_breaks::proofs::Shown::name_hash, rule_breaks::proofs::Shown::none_clear))]
pub(super) fn fault(
    alloc: Global,
    asked: &Asked<'_>,
    facts: &Facts,
) -> Result<Option<TreeFault>, NoMemory>
    ensures { IfOk result (spec.IsFirst asked.now facts.now (asked.now.profile ≡ Strict → rules.HasNameHashes facts.now)) }
{
    let Profile::Strict = asked.profile else {
        return Ok(None);
    };
    let first = other_name_hash(alloc, facts)?;
    match first {
        Some(e) => {
            let at = named_at(alloc, asked.view, e)?;
            Ok(Some(TreeFault::NameHash(at)))
        }
        None => Ok(None),
    }
}
