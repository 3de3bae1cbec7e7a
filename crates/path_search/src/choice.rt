// The components of a path, and the entry of a directory that a name takes.
ghost use Rattle.std.specs.Prelude.{◌≡◌, ◌<◌, IfOk, IfSome, map, length, option_map, position};
ghost use Rattle.apfs_model.specs.Lists.{In};
ghost use Rattle.path_search.specs.Paths as paths;
ghost use Rattle.path_search.specs.Found.{entry_named, has_name, has_form, number_named};
ghost use Rattle.path_search.specs.Parts.{whats};

use apfs_model::NoMemory;
use fs_name::{Names, same_name};
use std::alloc::{AllocError, Global};
use view_facts::EntryFact;

/// The parts of a path between its slashes, the empty ones too.
pub fn parts(alloc: Global, path: &str) -> Result<Vec<&str>, AllocError>
    ensures { IfOk result (λ parts. map (λ part. part.now) parts.items ≡ paths.parts_of path.now) }
{
    path.split('/').collect(alloc)
}

/// The entry that a name takes, the first of the same bytes, otherwise the first of the same normal form.
#[tactic(auto, using(crate::proofs::Chosen::chosen_none))]
pub fn choose<'a>(
    alloc: Global,
    names: Names,
    name: &str,
    entries: &'a [EntryFact],
) -> Result<Option<&'a EntryFact>, NoMemory>
    ensures chosen { IfOk result (λ chosen. option_map (λ entry. entry.now.what) chosen ≡ entry_named names name.now (whats entries.now)) }
    ensures one { IfOk result (λ chosen. IfSome chosen (λ entry. In entry.now entries.now)) }
{
    let number = choose_number(alloc, names, name, entries)?;
    match number {
        None => Ok(None),
        Some(number) => Ok(Some(&entries[number])),
    }
}

/// The number of the entry that a name takes: the first of the same bytes, otherwise the first of the same normal form.
#[tactic(auto, unfolding(crate::specs::Found::number_named))]
pub fn choose_number(
    alloc: Global,
    names: Names,
    name: &str,
    entries: &[EntryFact],
) -> Result<Option<usize>, NoMemory>
    ensures named { IfOk result (λ number. number ≡ number_named names name.now (whats entries.now)) }
    ensures numbered { IfOk result (λ number. IfSome number (λ n. n < length entries.now)) }
{
    match first_same(name, entries) {
        Some(number) => Ok(Some(number)),
        None => first_alike(alloc, names, name, entries),
    }
}

// The number of the first entry of the same bytes.
fn first_same(name: &str, entries: &[EntryFact]) -> Option<usize>
    ensures first { result ≡ position (has_name name.now) (whats entries.now) }
    ensures inside { IfSome result (λ n. n < length entries.now) }
{
    for (number, entry) in entries.iter().enumerate() {
        if entry.name() == name {
            return Some(number);
        }
    }
    None
}

// The number of the first entry of the same normal form.
fn first_alike(
    alloc: Global,
    names: Names,
    name: &str,
    entries: &[EntryFact],
) -> Result<Option<usize>, NoMemory>
    ensures first { IfOk result (λ number. number ≡ position (has_form names name.now) (whats entries.now)) }
    ensures inside { IfOk result (λ number. IfSome number (λ n. n < length entries.now)) }
{
    for (number, entry) in entries.iter().enumerate() {
        if same_name(alloc, names, entry.name(), name)? {
            return Ok(Some(number));
        }
    }
    Ok(None)
}
