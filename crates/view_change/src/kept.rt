// What is kept of a view: its leaves, and the facts that their records say.
ghost use Rattle.std.specs.Prelude.{◌≡◌, ◌+◌, ◌++◌, [], ◌∷◌, ℕ, List, OnOk};
ghost use Rattle.apfs_model.specs.Counts.{given};
ghost use Rattle.obj_base.specs.declared.site.Site.{Site};
ghost use Rattle.view_change.specs.Numbers.{numbers_of, numbers_since, no_facts_under};
ghost use Rattle.view_change.specs.Kept.{IsHeld};

use crate::{Ends, Leaf};
use apfs_model::NoMemory;
use bt_node::TreeKey;
use fs_name::Names;
use std::alloc::Global;
use view_facts::Facts;

/// How many facts of each kind there are.
#[derive(Clone, Copy, PartialEq, Eq)]
pub struct Numbers {
    pub inodes: usize,
    pub entries: usize,
    pub attributes: usize,
    pub links: usize,
    pub siblings: usize,
    pub extents: usize,
}

impl Numbers {
    /// The numbers of some facts.
    pub(crate) fn of(facts: &Facts) -> Numbers
        ensures { result ≡ numbers_of facts.now }
    {
        Numbers {
            inodes: facts.inodes.len(),
            entries: facts.entries.len(),
            attributes: facts.attributes.len(),
            links: facts.links.len(),
            siblings: facts.siblings.len(),
            extents: facts.extents.len(),
        }
    }

    /// What is more than other numbers.
    pub(crate) fn since(&self, before: &Numbers) -> Numbers
        ensures { result ≡ numbers_since self.now before.now }
    {
        Numbers {
            inodes: self.inodes.saturating_sub(before.inodes),
            entries: self.entries.saturating_sub(before.entries),
            attributes: self.attributes.saturating_sub(before.attributes),
            links: self.links.saturating_sub(before.links),
            siblings: self.siblings.saturating_sub(before.siblings),
            extents: self.extents.saturating_sub(before.extents),
        }
    }
}

/// A leaf of a view, what the order and the counts of its tree need of it, and how many facts of each kind its records say.
#[derive(Clone, Copy, PartialEq, Eq)]
pub struct KeptLeaf {
    pub leaf: Leaf,
    pub ends: Ends,
    pub numbers: Numbers,
}

/// Leaves in the order of a tree, facts in the order of their records, and the number of these.
#[derive(Drop)]
pub struct Held {
    pub(crate) leaves: Vec<KeptLeaf>,
    pub(crate) facts: Facts,
    pub(crate) records: u64,
}

/// No facts, under names that are compared so.
pub(crate) fn no_facts(alloc: Global, names: Names) -> Facts
    ensures { result ≡ no_facts_under names }
{
    Facts {
        names,
        inodes: Vec::new(alloc),
        entries: Vec::new(alloc),
        attributes: Vec::new(alloc),
        links: Vec::new(alloc),
        siblings: Vec::new(alloc),
        extents: Vec::new(alloc),
    }
}

impl Held {
    /// No leaves.
    pub(crate) fn nothing<K: TreeKey>(alloc: Global, names: Names) -> Held
        ensures { (site : Site) (image : List ℕ) → IsHeld K.shape site image names [] result }
    {
        Held {
            leaves: Vec::new(alloc),
            facts: no_facts(alloc, names),
            records: 0,
        }
    }

    /// How names are compared.
    pub(crate) fn names(&self) -> Names
        ensures { result ≡ self.now.facts.names }
    {
        self.facts.names
    }

    /// The leaves and the facts.
    pub(crate) fn parts(self) -> (Vec<KeptLeaf>, Facts)
        ensures leaves { result.0 ≡ self.leaves }
        ensures facts { result.1 ≡ self.facts }
    {
        (self.leaves, self.facts)
    }

    /// Puts a leaf after the others. Its facts are put by the caller.
    pub(crate) fn put(&mut self, kept: KeptLeaf) -> Result<(), NoMemory>
        ensures leaves { OnOk result (self.new.leaves.items ≡ self.old.leaves.items ++ kept ∷ []) }
        ensures facts { self.new.facts ≡ self.old.facts }
        ensures records { OnOk result (self.new.records ≡ given (self.old.records + kept.ends.count)) }
    {
        self.leaves.push(kept)?;
        self.records = self.records.saturating_add(kept.ends.count);
        Ok(())
    }
}
