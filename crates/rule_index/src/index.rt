// What the rules look up in the facts of a view.
ghost use Rattle.std.specs.Prelude.{◌≡◌, IfOk, IfSome, not};
ghost use Rattle.std.specs.List.{list_any};
ghost use Rattle.rule_index.specs.Looks.{looked_at};
ghost use Rattle.rule_index.specs.Order.{AreInOrder};

use crate::counted::Counted;
use crate::looks::Looks;
use crate::near::Near;
use blk_source::NoMemory;
use std::alloc::Global;
use view_facts::Facts;

/// The facts of a view, with what is looked up in them by an id.
#[derive(Drop)]
pub struct Index<'a> {
    pub facts: &'a Facts,
    looks: Looks<'a>,
    ghost looks_right: { looked_at looks ≡ facts.now },
}

impl<'a> Index<'a> {
    ghost use Rattle.view_rules.specs.Facts as spec;
    ghost use Rattle.rule_index.specs.Homes.{is_named, IsOnlyHome};
    ghost use Rattle.fs_record.specs.Inodes.{inode_kind};
    ghost use Rattle.std.specs.Prelude.{◌≤◌, ℕ, true, option_map};
    ghost use Rattle.rule_index.specs.Lost.{is_lost};
    ghost use Rattle.view_rules.specs.Counts.{is_system_name};
    ghost use Rattle.view_rules.specs.Inodes.{gives_target};

    /// Looks at all facts.
    pub fn new(alloc: Global, facts: &'a Facts) -> Result<Index<'a>, NoMemory>
        ensures { IfOk result (λ index. index.facts.now ≡ facts.now) }
    {
        let counted = Counted::new(alloc, facts)?;
        Ok(Index {
            facts,
            looks: Looks::Counted(counted),
        })
    }

    /// Looks up in facts in order, after a change, by what is gone and what has come. All that is told is right of each id, and told soon of those of which these speak.
    ///
    /// # Errors
    ///
    /// `NoMemory`: an allocation failed.
    pub fn after(
        alloc: Global,
        facts: &'a Facts,
        gone: &Facts,
        come: &Facts,
    ) -> Result<Index<'a>, NoMemory>
        requires { AreInOrder facts.now }
        ensures { IfOk result (λ index. index.facts.now ≡ facts.now) }
    {
        let near = Near::of(alloc, facts, gone, come)?;
        Ok(Index {
            facts,
            looks: Looks::Near(near),
        })
    }

    /// The facts in order, where they are looked up so.
    pub fn as_near(&self) -> Option<&Near<'a>>
        ensures { IfSome result (λ near. near.now.facts.now ≡ self.now.facts.now) }
    {
        match &self.looks {
            Looks::Counted(_) => None,
            Looks::Near(near) => Some(near),
        }
    }

    // The facts with what is counted of all of them, where it is.
    fn as_counted(&self) -> Option<&Counted<'a>>
        ensures { IfSome result (λ counted. counted.now.facts.now ≡ self.now.facts.now) }
    {
        match &self.looks {
            Looks::Counted(counted) => Some(counted),
            Looks::Near(_) => None,
        }
    }

    /// Whether an id has an inode.
    pub fn has_inode(&self, id: u64) -> bool
        ensures { result ≡ spec.has_inode self.now.facts.now id }
    {
        match &self.looks {
            Looks::Counted(counted) => counted.has_inode(id),
            Looks::Near(near) => near.has_inode(id),
        }
    }

    /// Whether an id has an inode that is a directory.
    pub fn has_directory(&self, id: u64) -> bool
        ensures { result ≡ spec.has_directory self.now.facts.now id }
    {
        match &self.looks {
            Looks::Counted(counted) => counted.has_directory(id),
            Looks::Near(near) => near.has_directory(id),
        }
    }

    /// The kind of the inode of an id.
    pub fn kind(&self, id: u64) -> Option<u16>
        ensures { result ≡ option_map inode_kind (spec.inode_at self.now.facts.now id) }
    {
        match &self.looks {
            Looks::Counted(counted) => counted.kind(id),
            Looks::Near(near) => near.kind(id),
        }
    }

    /// Whether each entry that counts has its directory, and its file with its kind.
    pub fn has_whole_entries(&self) -> bool
        ensures { result ≡ not (list_any (is_lost self.now.facts.now) self.now.facts.now.entries) }
    {
        match &self.looks {
            Looks::Counted(counted) => counted.has_whole_entries(),
            Looks::Near(near) => near.has_whole_entries(),
        }
    }

    /// Whether it shows at once that no file has two entries: each that has one has an inode, and one alone in the inode's parent.
    pub fn has_single_entries(&self) -> bool
        ensures { result ≡ true → (id : ℕ) → spec.entry_count self.now.facts.now id ≤ 1 }
    {
        match self.as_counted() {
            Some(counted) => counted.has_single_entries(),
            None => false,
        }
    }

    /// How many entries a file has.
    pub fn entry_count(&self, id: u64) -> u64
        ensures { result ≡ spec.entry_count self.now.facts.now id }
    {
        match &self.looks {
            Looks::Counted(counted) => counted.entry_count(id),
            Looks::Near(near) => near.entry_count(id),
        }
    }

    /// Whether an entry names a file, be it one that counts or not.
    pub fn is_named(&self, id: u64) -> bool
        ensures { result ≡ list_any (is_named id) self.now.facts.now.entries }
    {
        self.entry_count(id) > 0 || self.has_system_name(id)
    }

    /// How many entries a directory has.
    pub fn child_count(&self, id: u64) -> u64
        ensures { result ≡ spec.child_count self.now.facts.now id }
    {
        match &self.looks {
            Looks::Counted(counted) => counted.child_count(id),
            Looks::Near(near) => near.child_count(id),
        }
    }

    /// Whether an entry of the private directory or of a reserved id names a file.
    pub fn has_system_name(&self, id: u64) -> bool
        ensures { result ≡ list_any (is_system_name id) self.now.facts.now.entries }
    {
        match &self.looks {
            Looks::Counted(counted) => counted.has_system_name(id),
            Looks::Near(near) => near.has_system_name(id),
        }
    }

    /// Whether an attribute gives the target of a file.
    pub fn has_target(&self, id: u64) -> bool
        ensures { result ≡ list_any (gives_target id) self.now.facts.now.attributes }
    {
        match &self.looks {
            Looks::Counted(counted) => counted.has_target(id),
            Looks::Near(near) => near.has_target(id),
        }
    }

    /// The directory of a file's only entry among those that count, where it has exactly one.
    pub fn only_home(&self, id: u64) -> Option<u64>
        ensures { IsOnlyHome self.now.facts.now.entries id result }
    {
        match &self.looks {
            Looks::Counted(counted) => counted.only_home(id),
            Looks::Near(near) => near.only_home(id),
        }
    }
}
