// The rules on each inode, and the fault that one shows which breaks them.
ghost use Rattle.std.specs.Prelude.{◌≡◌};
ghost use Rattle.view_rules.specs.Words.{IsClear};
ghost use Rattle.rule_breaks.specs.ByInode as spec;
ghost use Rattle.rule_breaks.specs.Faults.{IsFirst};

use super::{Asked, id_at};
use crate::directories::is_misnamed;
use crate::inodes::{has_large_stream, lacks_target};
use crate::links::{has_other_children, has_other_links};
use rule_index::Index;
use view_facts::InodeFact;
use view_rules::{IdAt, TreeFault};

/// A rule on each inode.
pub(super) enum InodeRule {
    /// A directory has exactly one entry, in the directory of its parent.
    Home,
    /// The number of a directory's children.
    ChildCount,
    /// The number of a file's links.
    LinkCount,
    /// A symbolic link has its target.
    Target,
    /// The size of a stream.
    Size,
}

impl InodeRule {
    // Whether an inode breaks the rule.
    fn is_broken(&self, index: &Index<'_>, f: &InodeFact) -> bool
        ensures { result ≡ spec.is_broken index.now.facts.now self.now f.now }
    {
        match self {
            InodeRule::Home => is_misnamed(index, f),
            InodeRule::ChildCount => has_other_children(index, f),
            InodeRule::LinkCount => has_other_links(index, f),
            InodeRule::Target => lacks_target(index, f),
            InodeRule::Size => has_large_stream(f),
        }
    }

    // The fault of an inode that breaks the rule.
    fn fault(&self, at: IdAt) -> TreeFault
        ensures { result ≡ spec.fault self.now at }
    {
        match self {
            InodeRule::Home => TreeFault::DirNames(at),
            InodeRule::ChildCount => TreeFault::Children(at),
            InodeRule::LinkCount => TreeFault::Links(at),
            InodeRule::Target => TreeFault::LinkTarget(at),
            InodeRule::Size => TreeFault::Stream(at),
        }
    }

    /// The fault of the first inode that breaks the rule.
    pub(super) fn first(&self, asked: &Asked<'_>, index: &Index<'_>) -> Option<TreeFault>
        ensures { IsFirst asked.now index.now.facts.now (IsClear (spec.is_broken index.now.facts.now self.now) index.now.facts.now.inodes) result }
    {
        let facts = index.facts;
        for f in &facts.inodes {
            if self.is_broken(index, f) {
                return Some(self.fault(id_at(asked.view, f.id())));
            }
        }
        None
    }
}
