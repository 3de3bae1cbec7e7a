// Faults of entries without their directory or their file, or of another kind; and of the root.
ghost use Rattle.std.specs.Prelude.{◌≡◌, true, IfOk};
ghost use Rattle.view_rules.specs.Words.{IsClear};
ghost use Rattle.view_rules.specs.Entries as rules;
ghost use Rattle.rule_breaks.specs.ByEntry as by_entry;
ghost use Rattle.rule_breaks.specs.Faults as spec;

use super::{Asked, either, named_at};
use crate::entries;
use blk_source::NoMemory;
use rule_index::Index;
use std::alloc::Global;
use view_facts::EntryFact;
use view_rules::{NamedAt, TreeFault};

// A rule on each entry.
enum EntryRule {
    // It stands in a directory.
    Directory,
    // Its file has an inode.
    File,
    // It has the kind of that inode.
    Kind,
}

impl EntryRule {
    // Whether an entry breaks the rule.
    fn is_broken(&self, index: &Index<'_>, e: &EntryFact) -> bool
        ensures { result ≡ by_entry.is_broken index.now.facts.now self.now e.now }
    {
        match self {
            EntryRule::Directory => entries::lacks_parent(index, e),
            EntryRule::File => entries::lacks_inode(index, e),
            EntryRule::Kind => entries::has_other_kind(index, e),
        }
    }

    // The fault of an entry that breaks the rule.
    fn fault(&self, at: NamedAt) -> TreeFault
        ensures { result ≡ by_entry.fault self.now at }
    {
        match self {
            EntryRule::Directory => TreeFault::NoParent(at),
            EntryRule::File => TreeFault::NoInode {
                slot: at.slot,
                xid: at.xid,
                id: at.id,
                name: Some(at.name),
            },
            EntryRule::Kind => TreeFault::KindMismatch(at),
        }
    }

    // The fault of the first entry that breaks the rule.
    fn first(
        &self,
        alloc: Global,
        asked: &Asked<'_>,
        index: &Index<'_>,
    ) -> Result<Option<TreeFault>, NoMemory>
        ensures { IfOk result (spec.IsFirst asked.now index.now.facts.now (IsClear (by_entry.is_broken index.now.facts.now self.now) index.now.facts.now.entries)) }
    {
        let facts = index.facts;
        for e in &facts.entries {
            if self.is_broken(index, e) {
                let at = named_at(alloc, asked.view, e.id(), e.name())?;
                return Ok(Some(self.fault(at)));
            }
        }
        Ok(None)
    }
}

// A root that isn't there, or is no directory.
#[tactic(auto, using(crate::proofs::Shown::root))]
fn no_root(asked: &Asked<'_>, index: &Index<'_>) -> Option<TreeFault>
    ensures { spec.IsFirst asked.now index.now.facts.now (rules.has_root index.now.facts.now ≡ true) result }
{
    if entries::has_root(index) {
        return None;
    }
    Some(TreeFault::NoInode {
        slot: asked.view.slot,
        xid: asked.view.xid,
        id: 2,
        name: None,
    })
}

// An entry in what is no directory, or of a file without an inode.
fn lacking(
    alloc: Global,
    asked: &Asked<'_>,
    index: &Index<'_>,
) -> Result<Option<TreeFault>, NoMemory>
    ensures { IfOk result (spec.IsFirst asked.now index.now.facts.now (rules.HasParents index.now.facts.now × rules.HasFiles index.now.facts.now)) }
{
    let parent = EntryRule::Directory.first(alloc, asked, index)?;
    either(Ok(parent), EntryRule::File.first(alloc, asked, index))
}

// A fault of the root, or an entry of another kind.
fn root_or_kind(
    alloc: Global,
    asked: &Asked<'_>,
    index: &Index<'_>,
) -> Result<Option<TreeFault>, NoMemory>
    ensures { IfOk result (spec.IsFirst asked.now index.now.facts.now ((rules.has_root index.now.facts.now ≡ true) × rules.HasKinds index.now.facts.now)) }
{
    let root = no_root(asked, index);
    either(Ok(root), EntryRule::Kind.first(alloc, asked, index))
}

/// A fault of an entry or of the root, where one is there.
pub fn fault(
    alloc: Global,
    asked: &Asked<'_>,
    index: &Index<'_>,
) -> Result<Option<TreeFault>, NoMemory>
    ensures { IfOk result (spec.IsFirst asked.now index.now.facts.now (rules.HasParents index.now.facts.now × (rules.HasFiles index.now.facts.now × ((rules.has_root index.now.facts.now ≡ true) × rules.HasKinds index.now.facts.now)))) }
{
    if entries::are_whole(index) {
        return Ok(no_root(asked, index));
    }
    let lacking = lacking(alloc, asked, index)?;
    either(Ok(lacking), root_or_kind(alloc, asked, index))
}
