// What the rules look up in the facts of a view, counted in a look at all of them.
ghost use Rattle.std.specs.Prelude.{◌≡◌, IfOk, not};
ghost use Rattle.std.specs.List.{list_any};
ghost use Rattle.rule_index.specs.Kins.{HasKins};
ghost use Rattle.rule_index.specs.Homes.{HasHomes, is_astray};
ghost use Rattle.rule_index.specs.Ids.{CountsIds, system_file, target_file};

use crate::counts::Counts;
use crate::homes::Homes;
use crate::ids::{ByDirectory, BySystemFile, ByTarget, tally};
use crate::kin::Kins;
use blk_source::NoMemory;
use id_lists::IdSlice;
use std::alloc::Global;
use view_facts::{EntryFact, Facts};

/// The facts of a view, with what all of them tell by an id.
#[derive(Drop)]
pub(crate) struct Counted<'a> {
    pub(crate) facts: &'a Facts,
    kins: Kins<'a>,
    homes: Homes,
    // Whether each entry that counts has its directory, and its file with its kind.
    whole: bool,
    directories: IdSlice<'a, EntryFact, ByDirectory>,
    system: Counts,
    targets: Counts,
    ghost kins_right: { HasKins facts.now.inodes kins },
    ghost homes_right: { HasHomes kins facts.now.entries homes },
    ghost whole_right: { whole ≡ not (list_any (is_astray kins) facts.now.entries) },
    ghost directories_right: { directories ≡ facts.now.entries },
    ghost system_right: { CountsIds system_file facts.now.entries system },
    ghost targets_right: { CountsIds target_file facts.now.attributes targets },
}

impl<'a> Counted<'a> {
    ghost use Rattle.view_rules.specs.Facts as spec;
    ghost use Rattle.rule_index.specs.Homes.{IsOnlyHome};
    ghost use Rattle.fs_record.specs.Inodes.{inode_kind};
    ghost use Rattle.std.specs.Prelude.{◌≤◌, ℕ, true, option_map};
    ghost use Rattle.rule_index.specs.Lost.{is_lost};
    ghost use Rattle.view_rules.specs.Counts.{is_system_name};
    ghost use Rattle.view_rules.specs.Inodes.{gives_target};

    /// Looks at all facts.
    pub(crate) fn new(alloc: Global, facts: &'a Facts) -> Result<Counted<'a>, NoMemory>
        ensures { IfOk result (λ made. made.facts.now ≡ facts.now) }
    {
        let system = tally::<_, BySystemFile>(alloc, &facts.entries)?;
        let targets = tally::<_, ByTarget>(alloc, &facts.attributes)?;
        let kins = Kins::of(alloc, &facts.inodes)?;
        let counted = Homes::of(alloc, &facts.entries, &kins)?;
        let directories = IdSlice::without_guesses(alloc, &facts.entries);
        Ok(Counted {
            facts,
            kins,
            homes: counted.0,
            whole: counted.1,
            directories,
            system,
            targets,
        })
    }

    /// Whether an id has an inode.
    pub(crate) fn has_inode(&self, id: u64) -> bool
        ensures { result ≡ spec.has_inode self.now.facts.now id }
    {
        self.kins.get(id).is_some()
    }

    /// Whether an id has an inode that is a directory.
    pub(crate) fn has_directory(&self, id: u64) -> bool
        ensures { result ≡ spec.has_directory self.now.facts.now id }
    {
        match self.kins.get(id) {
            Some(kin) => kin.kind == 4,
            None => false,
        }
    }

    /// The kind of the inode of an id.
    pub(crate) fn kind(&self, id: u64) -> Option<u16>
        ensures { result ≡ option_map inode_kind (spec.inode_at self.now.facts.now id) }
    {
        match self.kins.get(id) {
            Some(kin) => Some(kin.kind),
            None => None,
        }
    }

    /// Whether each entry that counts has its directory, and its file with its kind.
    pub(crate) fn has_whole_entries(&self) -> bool
        ensures { result ≡ not (list_any (is_lost self.now.facts.now) self.now.facts.now.entries) }
    {
        self.whole
    }

    /// Whether it shows at once that no file has two entries: each that has one has an inode, and one alone in the inode's parent.
    pub(crate) fn has_single_entries(&self) -> bool
        ensures { result ≡ true → (id : ℕ) → spec.entry_count self.now.facts.now id ≤ 1 }
    {
        self.homes.are_single()
    }

    /// How many entries a file has.
    pub(crate) fn entry_count(&self, id: u64) -> u64
        ensures { result ≡ spec.entry_count self.now.facts.now id }
    {
        self.homes.count(&self.kins, id)
    }

    /// How many entries a directory has.
    pub(crate) fn child_count(&self, id: u64) -> u64
        ensures { result ≡ spec.child_count self.now.facts.now id }
    {
        self.directories.count(id) as u64
    }

    /// Whether an entry of the private directory or of a reserved id names a file.
    #[tactic(auto, using(crate::proofs::Counting::system_counts))]
    pub(crate) fn has_system_name(&self, id: u64) -> bool
        ensures { result ≡ list_any (is_system_name id) self.now.facts.now.entries }
    {
        self.system.has(id)
    }

    /// Whether an attribute gives the target of a file.
    #[tactic(auto, using(crate::proofs::Counting::target_counts))]
    pub(crate) fn has_target(&self, id: u64) -> bool
        ensures { result ≡ list_any (gives_target id) self.now.facts.now.attributes }
    {
        self.targets.has(id)
    }

    /// The directory of a file's only entry among those that count, where it has exactly one.
    pub(crate) fn only_home(&self, id: u64) -> Option<u64>
        ensures { IsOnlyHome self.now.facts.now.entries id result }
    {
        self.homes.only(&self.kins, id)
    }
}
