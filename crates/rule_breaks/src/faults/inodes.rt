// Faults of the targets of symbolic links, of the sizes of streams, and of the owners of attributes.
ghost use Rattle.view_rules.specs.Inodes as rules;
ghost use Rattle.rule_breaks.specs.Faults as spec;

use super::by_inode::InodeRule;
use super::{Asked, id_at};
use crate::inodes::{has_large_body, lacks_owner};
use rule_index::Index;
use view_facts::Facts;
use view_rules::TreeFault;

// An attribute whose stream is too large.
fn body(asked: &Asked<'_>, facts: &Facts) -> Option<TreeFault>
    ensures { spec.IsFirst asked.now facts.now (rules.HasBodySizes facts.now) result }
{
    for a in &facts.attributes {
        if has_large_body(a) {
            return Some(TreeFault::Stream(id_at(asked.view, a.id())));
        }
    }
    None
}

// An attribute of a file without an inode.
fn owner(asked: &Asked<'_>, index: &Index<'_>) -> Option<TreeFault>
    ensures { spec.IsFirst asked.now index.now.facts.now (rules.HasOwners index.now.facts.now) result }
{
    let facts = index.facts;
    for a in &facts.attributes {
        if lacks_owner(index, a) {
            return Some(TreeFault::AttrOwner(id_at(asked.view, a.id())));
        }
    }
    None
}

/// A fault of an inode or of an attribute, where one is there.
pub fn fault(asked: &Asked<'_>, index: &Index<'_>) -> Option<TreeFault>
    ensures { spec.IsFirst asked.now index.now.facts.now (rules.HasTargets index.now.facts.now × (rules.HasStreamSizes index.now.facts.now × (rules.HasBodySizes index.now.facts.now × rules.HasOwners index.now.facts.now))) result }
{
    let target = InodeRule::Target.first(asked, index);
    let stream = InodeRule::Size.first(asked, index);
    let body = body(asked, index.facts);
    let owner = owner(asked, index);
    target.or(stream.or(body.or(owner)))
}
