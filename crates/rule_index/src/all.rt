// The entries of a file, where all entries are looked at.
ghost use Rattle.std.specs.Prelude.{◌≡◌, count_by, find};
ghost use Rattle.std.specs.List.{list_any};
ghost use Rattle.std.specs.Option.{option_copied};
ghost use Rattle.view_rules.specs.Facts as spec;
ghost use Rattle.view_rules.specs.Counts.{is_system_name};
ghost use Rattle.rule_index.specs.Homes.{IsHomeOf};
ghost use Rattle.rule_index.specs.Ids.{is_target};

use crate::homes::Home;
use crate::ids::{does_count, is_system_id};
use view_facts::{AttributeFact, EntryFact};

// Whether an entry that counts names a file.
fn names(e: &EntryFact, file: u64) -> bool
    ensures { result ≡ spec.names_file file e.now }
{
    does_count(e) && e.file_id() == file
}

// How many entries of a file there are, where all are looked at.
fn count(entries: &[EntryFact], file: u64) -> usize
    ensures { result ≡ count_by (spec.names_file file) entries.now }
{
    entries.iter().filter(|e| names(e, file)).count()
}

// The first entry of a file, where all are looked at.
fn first(entries: &[EntryFact], file: u64) -> Option<&EntryFact>
    ensures { option_copied result ≡ find (spec.names_file file) entries.now }
{
    entries.iter().find(|e| names(e, file))
}

/// The entries of a file, where all are looked at: how many, and the directory of one of them.
pub(crate) fn home(entries: &[EntryFact], file: u64) -> Home
    ensures { IsHomeOf entries.now file result }
{
    match first(entries, file) {
        Some(e) => Home {
            entries: count(entries, file) as u64,
            directory: e.id(),
        },
        None => Home {
            entries: 0,
            directory: 0,
        },
    }
}

/// Whether an entry of the private directory or of a reserved id names a file, where all are looked at.
pub(crate) fn has_system_name(entries: &[EntryFact], file: u64) -> bool
    ensures { result ≡ list_any (is_system_name file) entries.now }
{
    entries
        .iter()
        .any(|e| is_system_id(e.id()) && e.file_id() == file)
}

/// Whether some attribute gives a target.
pub(crate) fn give_target(attributes: &[AttributeFact]) -> bool
    ensures { result ≡ list_any is_target attributes.now }
{
    attributes.iter().any(|a| a.gives_target())
}
