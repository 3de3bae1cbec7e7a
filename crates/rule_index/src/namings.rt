// The entries of some files, gathered in one look at all entries.
ghost use Rattle.std.specs.Prelude.{◌≡◌, ◌+◌, ◌&&◌, ℕ, Bool, true, List, count_by, IfOk, OnOk, if◌then◌else◌};
ghost use Rattle.std.specs.List.{list_any};
ghost use Rattle.fs_record.specs.Entries.{Entry};
ghost use Rattle.fs_record.specs.Facts.{Fact};
ghost use Rattle.view_rules.specs.Counts.{is_system_name};
ghost use Rattle.rule_index.specs.Homes as homes;
ghost use Rattle.rule_index.specs.Homes.{IsHomeOf};
ghost use Rattle.rule_index.specs.Namings as spec;

use crate::homes::{Home, pair_of};
use crate::ids::{does_count, is_system_id};
use crate::pairs::Pairs;
use blk_source::NoMemory;
use std::alloc::Global;
use std::marker::Model;
use view_facts::{EntryFact, Facts};

/// How many marks there are: one for each number of 16 bits.
const MARKS: usize = 1 << 16;

/// Marks for the ids of files, each of which stands for all ids that are alike in 16 bits.
#[derive(Drop)]
pub(crate) struct Marks {
    marks: Vec<bool>,
}

impl Model for Marks {
    ghost use Rattle.std.specs.Prelude.{List, Bool};

    ghost Value = { List Bool };

    ghost view = { λ a. a.marks.items };
}

// The mark of a file.
fn is_marked(marks: &[bool], file: u64) -> bool
    ensures { result ≡ spec.is_marked marks.now file }
{
    match marks.get((file % (1 << 16)) as usize) {
        Some(mark) => *mark,
        None => false,
    }
}

impl Marks {
    // No file is marked.
    fn none(alloc: Global) -> Result<Marks, NoMemory> {
        let marks = vec![in alloc; false; MARKS]?;
        Ok(Marks { marks })
    }

    // Marks a file.
    fn add(&mut self, file: u64) {
        if let Some(mark) = self.marks.get_mut((file % (1 << 16)) as usize) {
            *mark = true;
        }
    }

    // Marks the files of inodes, entries and links.
    fn add_all(&mut self, facts: &Facts) {
        for f in &facts.inodes {
            self.add(f.id());
        }
        for e in &facts.entries {
            self.add(e.file_id());
        }
        for l in &facts.links {
            self.add(l.file());
        }
    }

    /// Marks the files that a change may speak of, and the root.
    pub(crate) fn of(alloc: Global, gone: &Facts, come: &Facts) -> Result<Marks, NoMemory> {
        let mut marks = Marks::none(alloc)?;
        marks.add(2);
        marks.add_all(gone);
        marks.add_all(come);
        Ok(marks)
    }

    /// Whether a file is marked.
    pub(crate) fn has(&self, file: u64) -> bool
        ensures { result ≡ spec.is_marked self.now file }
    {
        is_marked(&self.marks, file)
    }
}

/// The file and the directory of each entry of a marked file: of those that count, and of those of the private directory and of reserved ids.
#[derive(Drop)]
pub(crate) struct Namings {
    marks: Marks,
    counted: Pairs,
    system: Pairs,
}

impl Model for Namings {
    ghost use Rattle.std.specs.Prelude.{List, Bool, ℕ};

    ghost Value = { List Bool × (List (ℕ × ℕ) × List (ℕ × ℕ)) };

    ghost view = { λ namings. (namings.marks, (namings.counted, namings.system)) };
}

// Adds the file and the directory of an entry, if it is selected.
fn add(pairs: &mut Vec<(u64, u64)>, selected: bool, e: &EntryFact) -> Result<(), NoMemory>
    ensures { OnOk result ((test : ℕ × ℕ → Bool) → count_by test pairs.new.items ≡ count_by test pairs.old.items + (if selected && test (homes.pair_of e.now) then 1 else 0)) }
{
    if selected {
        pairs.push(pair_of(e))?;
    }
    Ok(())
}

// Those of the entries that count, and those of the private directory and of reserved ids.
fn listed(
    alloc: Global,
    entries: &[EntryFact],
    marks: &Marks,
) -> Result<(Vec<(u64, u64)>, Vec<(u64, u64)>), NoMemory>
    ensures counted { IfOk result (λ pairs. spec.AreListed (spec.is_counted marks.now) entries.now pairs.0.items) }
    ensures system { IfOk result (λ pairs. spec.AreListed (spec.is_system_one marks.now) entries.now pairs.1.items) }
{
    let mut counted = Vec::new(alloc);
    let mut system = Vec::new(alloc);
    for e in entries {
        let marked = marks.has(e.file_id());
        add(&mut counted, does_count(e) && marked, e)?;
        add(&mut system, is_system_id(e.id()) && marked, e)?;
    }
    Ok((counted, system))
}

impl Namings {
    /// Those of some entries.
    pub(crate) fn of(
        alloc: Global,
        entries: &[EntryFact],
        marks: Marks,
    ) -> Result<Namings, NoMemory>
        ensures { IfOk result (spec.AreNamings entries.now) }
    {
        let pairs = listed(alloc, entries, &marks)?;
        let counted = Pairs::of(alloc, pairs.0)?;
        let system = Pairs::of(alloc, pairs.1)?;
        Ok(Namings {
            marks,
            counted,
            system,
        })
    }

    /// Whether a file is marked.
    pub(crate) fn has(&self, file: u64) -> bool
        ensures { result ≡ spec.is_marked self.now.0 file }
    {
        self.marks.has(file)
    }

    /// The entries of a marked file among those that count: how many, and the directory of one of them.
    pub(crate) fn home(&self, file: u64) -> Home
        ensures { (entries : List (Fact Entry)) → spec.AreNamings entries self.now → spec.is_marked self.now.0 file ≡ true → IsHomeOf entries file result }
    {
        self.counted.home(file)
    }

    /// Whether an entry of the private directory or of a reserved id names a marked file.
    pub(crate) fn has_system_name(&self, file: u64) -> bool
        ensures { (entries : List (Fact Entry)) → spec.AreNamings entries self.now → spec.is_marked self.now.0 file ≡ true → result ≡ list_any (is_system_name file) entries }
    {
        self.system.home(file).entries > 0
    }
}
