// Facts in order, in which few ids are looked up.
ghost use Rattle.std.specs.Prelude.{◌≡◌, IfOk};
ghost use Rattle.rule_index.specs.Namings.{AreNamings};
ghost use Rattle.rule_index.specs.Order.{AreInOrder};

use crate::all::{give_target, has_system_name, home};
use crate::homes::Home;
use crate::ids::does_count;
use crate::namings::{Marks, Namings};
use crate::ordered::{
    ByDirectory, ByFile, ByHash, ByInode, ByLinkedFile, BySibling, ByStream, Ordered,
};
use blk_source::NoMemory;
use std::alloc::Global;
use view_facts::{AttributeFact, EntryFact, ExtentFact, Facts, InodeFact, LinkFact, SiblingFact};

/// Facts in the order of their ids, with the entries of the files that are likely to be looked up.
#[derive(Drop)]
pub struct Near<'a> {
    pub facts: &'a Facts,
    namings: Namings,
    pub inodes: Ordered<'a, InodeFact, ByInode>,
    pub directories: Ordered<'a, EntryFact, ByDirectory>,
    pub hashes: Ordered<'a, EntryFact, ByHash>,
    pub attributes: Ordered<'a, AttributeFact, ByFile>,
    pub links: Ordered<'a, LinkFact, ByLinkedFile>,
    pub maps: Ordered<'a, SiblingFact, BySibling>,
    pub extents: Ordered<'a, ExtentFact, ByStream>,
    ghost namings_right: { AreNamings facts.now.entries namings },
    pub ghost inodes_right: { inodes ≡ facts.now.inodes },
    pub ghost directories_right: { directories ≡ facts.now.entries },
    pub ghost hashes_right: { hashes ≡ facts.now.entries },
    pub ghost attributes_right: { attributes ≡ facts.now.attributes },
    pub ghost links_right: { links ≡ facts.now.links },
    pub ghost maps_right: { maps ≡ facts.now.siblings },
    pub ghost extents_right: { extents ≡ facts.now.extents },
}

impl<'a> Near<'a> {
    ghost use Rattle.view_rules.specs.Facts as spec;
    ghost use Rattle.rule_index.specs.Homes.{IsOnlyHome, IsHomeOf};
    ghost use Rattle.fs_record.specs.Inodes.{Inode, inode_kind};
    ghost use Rattle.std.specs.Prelude.{◌==◌, not, option_map};
    ghost use Rattle.std.specs.List.{list_any};
    ghost use Rattle.apfs_model.specs.Lists.{passes};
    ghost use Rattle.rule_index.specs.Lost.{is_lost};
    ghost use Rattle.view_rules.specs.Counts.{is_system_name};
    ghost use Rattle.view_rules.specs.Inodes.{gives_target};

    /// Those after a change, by what is gone and what has come.
    pub(crate) fn of(
        alloc: Global,
        facts: &'a Facts,
        gone: &Facts,
        come: &Facts,
    ) -> Result<Near<'a>, NoMemory>
        requires { AreInOrder facts.now }
        ensures { IfOk result (λ near. near.facts.now ≡ facts.now) }
    {
        let marks = Marks::of(alloc, gone, come)?;
        let namings = Namings::of(alloc, &facts.entries, marks)?;
        Ok(Near::with(facts, namings))
    }

    // Those with the entries of some files.
    fn with(facts: &'a Facts, namings: Namings) -> Near<'a>
        requires namings { AreNamings facts.now.entries namings }
        requires order { AreInOrder facts.now }
        ensures { result.facts.now ≡ facts.now }
    {
        Near {
            facts,
            namings,
            inodes: Ordered::known(&facts.inodes),
            directories: Ordered::known(&facts.entries),
            hashes: Ordered::known(&facts.entries),
            attributes: Ordered::known(&facts.attributes),
            links: Ordered::known(&facts.links),
            maps: Ordered::known(&facts.siblings),
            extents: Ordered::known(&facts.extents),
        }
    }

    /// Whether an id has an inode.
    pub(crate) fn has_inode(&self, id: u64) -> bool
        ensures { result ≡ spec.has_inode self.now.facts.now id }
    {
        self.inodes.first(id).is_some()
    }

    /// Whether an id has an inode that is a directory.
    pub(crate) fn has_directory(&self, id: u64) -> bool
        ensures { result ≡ spec.has_directory self.now.facts.now id }
    {
        match self.inodes.first(id) {
            Some(f) => f.kind() == 4,
            None => false,
        }
    }

    /// The kind of the inode of an id.
    pub(crate) fn kind(&self, id: u64) -> Option<u16>
        ensures { result ≡ option_map inode_kind (spec.inode_at self.now.facts.now id) }
    {
        match self.inodes.first(id) {
            Some(f) => Some(f.kind()),
            None => None,
        }
    }

    // Whether an inode is of a kind.
    fn has_kind(&self, id: u64, kind: u16) -> bool
        ensures { result ≡ passes (spec.inode_at self.now.facts.now id) (λ (inode : Inode). inode_kind inode == kind) }
    {
        match self.inodes.first(id) {
            Some(f) => f.kind() == kind,
            None => false,
        }
    }

    // Whether an entry that counts lacks its directory, or its file with its kind.
    fn is_lost(&self, e: &EntryFact) -> bool
        ensures { result ≡ is_lost self.now.facts.now e.now }
    {
        does_count(e) && !(self.has_directory(e.id()) && self.has_kind(e.file_id(), e.kind()))
    }

    // Whether some entry that counts lacks its directory, or its file with its kind.
    fn has_lost(&self) -> bool
        ensures { result ≡ list_any (is_lost self.now.facts.now) self.now.facts.now.entries }
    {
        let facts = self.facts;
        facts.entries.iter().any(|e| self.is_lost(e))
    }

    /// Whether each entry that counts has its directory, and its file with its kind.
    pub(crate) fn has_whole_entries(&self) -> bool
        ensures { result ≡ not (list_any (is_lost self.now.facts.now) self.now.facts.now.entries) }
    {
        !self.has_lost()
    }

    // The entries of a file: how many, and the directory of one of them.
    fn home(&self, id: u64) -> Home
        ensures { IsHomeOf self.now.facts.now.entries id result }
    {
        if self.namings.has(id) {
            return self.namings.home(id);
        }
        let facts = self.facts;
        home(&facts.entries, id)
    }

    /// How many entries a file has.
    pub(crate) fn entry_count(&self, id: u64) -> u64
        ensures { result ≡ spec.entry_count self.now.facts.now id }
    {
        self.home(id).entries
    }

    /// How many entries a directory has.
    pub(crate) fn child_count(&self, id: u64) -> u64
        ensures { result ≡ spec.child_count self.now.facts.now id }
    {
        self.directories.count(id) as u64
    }

    /// Whether an entry of the private directory or of a reserved id names a file.
    pub(crate) fn has_system_name(&self, id: u64) -> bool
        ensures { result ≡ list_any (is_system_name id) self.now.facts.now.entries }
    {
        if self.namings.has(id) {
            return self.namings.has_system_name(id);
        }
        let facts = self.facts;
        has_system_name(&facts.entries, id)
    }

    /// Whether an attribute gives the target of a file.
    pub(crate) fn has_target(&self, id: u64) -> bool
        ensures { result ≡ list_any (gives_target id) self.now.facts.now.attributes }
    {
        give_target(self.attributes.run(id))
    }

    /// The directory of a file's only entry among those that count, where it has exactly one.
    pub(crate) fn only_home(&self, id: u64) -> Option<u64>
        ensures { IsOnlyHome self.now.facts.now.entries id result }
    {
        let home = self.home(id);
        if home.entries == 1 {
            Some(home.directory)
        } else {
            None
        }
    }
}
