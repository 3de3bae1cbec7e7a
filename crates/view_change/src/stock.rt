// The facts of two views: those of the view before that are left, and those of the view after.
ghost use Rattle.std.specs.Prelude.{◌≡◌, IfOk, IsTrue, OnOk};
ghost use Rattle.rule_index.specs.Order.{AreInOrder};
ghost use Rattle.view_change.specs.Numbers.{behind, joined, first_facts, no_facts_under, rest_facts};

use crate::kept::Numbers;
use crate::lazy_ring::LazyRing;
use apfs_model::NoMemory;
use fs_name::Names;
use rule_index::ordered::{ByFile, ByHash, ByInode, ByLinkedFile, BySibling, ByStream};
use std::alloc::Global;
use std::marker::Model;
use view_facts::{AttributeFact, EntryFact, ExtentFact, Facts, InodeFact, LinkFact, SiblingFact};

/// Those of each kind in a ring.
#[derive(Drop)]
pub(crate) struct Stock {
    names: Names,
    inodes: LazyRing<InodeFact, ByInode>,
    entries: LazyRing<EntryFact, ByHash>,
    attributes: LazyRing<AttributeFact, ByFile>,
    links: LazyRing<LinkFact, ByLinkedFile>,
    siblings: LazyRing<SiblingFact, BySibling>,
    extents: LazyRing<ExtentFact, ByStream>,
}

impl Model for Stock {
    ghost use Rattle.view_rules.specs.Facts as spec;

    ghost Value = { spec.Facts × spec.Facts };

    ghost view = { λ a. (record { names = a.names; inodes = a.inodes.0; entries = a.entries.0; attributes = a.attributes.0; links = a.links.0; siblings = a.siblings.0; extents = a.extents.0 }, record { names = a.names; inodes = a.inodes.1; entries = a.entries.1; attributes = a.attributes.1; links = a.links.1; siblings = a.siblings.1; extents = a.extents.1 }) };
}

impl Stock {
    /// The facts of a view before. They are in order where it is said so.
    pub(crate) fn new(facts: Facts, in_order: bool) -> Stock
        requires { IsTrue in_order → AreInOrder facts }
        ensures { result ≡ (facts, no_facts_under facts.names) }
    {
        Stock {
            names: facts.names,
            inodes: LazyRing::new(facts.inodes, in_order),
            entries: LazyRing::new(facts.entries, in_order),
            attributes: LazyRing::new(facts.attributes, in_order),
            links: LazyRing::new(facts.links, in_order),
            siblings: LazyRing::new(facts.siblings, in_order),
            extents: LazyRing::new(facts.extents, in_order),
        }
    }

    /// Makes the first facts of each kind that are left the last ones of the view after.
    pub(crate) fn keep(&mut self, numbers: &Numbers) -> ()
        ensures left { self.new.0 ≡ rest_facts numbers.now self.old.0 }
        ensures taken { self.new.1 ≡ joined self.old.1 (first_facts numbers.now self.old.0) }
    {
        self.inodes.keep(numbers.inodes);
        self.entries.keep(numbers.entries);
        self.attributes.keep(numbers.attributes);
        self.links.keep(numbers.links);
        self.siblings.keep(numbers.siblings);
        self.extents.keep(numbers.extents);
    }

    /// Moves the first facts of each kind that are left.
    pub(crate) fn pass(&mut self, numbers: &Numbers, to: &mut Facts) -> Result<(), NoMemory>
        ensures left { OnOk result (self.new.0 ≡ rest_facts numbers.now self.old.0) }
        ensures taken { OnOk result (self.new.1 ≡ self.old.1) }
        ensures moved { OnOk result (to.new ≡ joined to.old (first_facts numbers.now self.old.0)) }
    {
        self.inodes.pass(numbers.inodes, &mut to.inodes)?;
        self.entries.pass(numbers.entries, &mut to.entries)?;
        self.attributes
            .pass(numbers.attributes, &mut to.attributes)?;
        self.links.pass(numbers.links, &mut to.links)?;
        self.siblings.pass(numbers.siblings, &mut to.siblings)?;
        self.extents.pass(numbers.extents, &mut to.extents)
    }

    /// Moves facts behind those of the view after.
    pub(crate) fn put(&mut self, alloc: Global, facts: &mut Facts) -> Result<(), NoMemory>
        ensures left { OnOk result (self.new.0 ≡ self.old.0) }
        ensures taken { OnOk result (self.new.1 ≡ joined self.old.1 facts.old) }
        ensures none { OnOk result (facts.new ≡ no_facts_under facts.old.names) }
    {
        self.inodes.put(alloc, &mut facts.inodes)?;
        self.entries.put(alloc, &mut facts.entries)?;
        self.attributes.put(alloc, &mut facts.attributes)?;
        self.links.put(alloc, &mut facts.links)?;
        self.siblings.put(alloc, &mut facts.siblings)?;
        self.extents.put(alloc, &mut facts.extents)
    }

    /// Puts all facts before some; and tells whether it is known that all these are in order, where none is left of the view before.
    pub(crate) fn whole(&mut self, alloc: Global, facts: &mut Facts) -> Result<bool, NoMemory>
        ensures facts { OnOk result (facts.new ≡ behind (joined self.old.0 self.old.1) facts.old) }
        ensures order { IfOk result (λ known. IsTrue known → AreInOrder facts.new) }
    {
        let inodes = self.inodes.whole(alloc, &mut facts.inodes)?;
        let entries = self.entries.whole(alloc, &mut facts.entries)?;
        let attributes = self.attributes.whole(alloc, &mut facts.attributes)?;
        let links = self.links.whole(alloc, &mut facts.links)?;
        let siblings = self.siblings.whole(alloc, &mut facts.siblings)?;
        let extents = self.extents.whole(alloc, &mut facts.extents)?;
        Ok(inodes & entries & attributes & links & siblings & extents)
    }
}
