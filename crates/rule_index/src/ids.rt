// Counts of facts by a number.
ghost use Rattle.std.specs.Prelude.{◌≡◌, ◌+◌, ◌==◌, ℕ, Option, IfOk, OnOk, if◌then◌else◌};
ghost use Rattle.fs_record.specs.Facts as facts;
ghost use Rattle.view_rules.specs.Facts as rules;
ghost use Rattle.rule_index.specs.Ids as spec;

use crate::counts::Counts;
use blk_source::NoMemory;
use id_lists::OrderBy;
use std::alloc::Global;
use view_facts::{AttributeFact, EntryFact};

/// By what items are counted.
pub trait IdOf<T> {
    ghost id: { T → Option ℕ };

    /// The number of an item, where it has one.
    fn id(item: &T) -> Option<u64>
        ensures { result ≡ id item.now };
}

// Adds one more number.
#[tactic(auto, unfolding(crate::specs::Ids::count_in))]
fn add(ids: &mut Vec<u64>, id: u64) -> Result<(), NoMemory>
    ensures { OnOk result ((q : ℕ) → spec.count_in ids.new.items q ≡ spec.count_in ids.old.items q + (if id == q then 1 else 0)) }
{
    ids.push(id)?;
    Ok(())
}

// The numbers of the items, in their order.
#[tactic(auto, unfolding(crate::specs::Ids::count_in))]
fn listed<T, B: IdOf<T>>(alloc: Global, items: &[T]) -> Result<Vec<u64>, NoMemory>
    ensures { IfOk result (λ ids. spec.CountsIds B.id items.now ids.items) }
{
    let mut ids = Vec::new(alloc);
    for item in items {
        if let Some(id) = B::id(item) {
            add(&mut ids, id)?;
        }
    }
    Ok(ids)
}

/// Counts the items of each number.
pub fn tally<T, B: IdOf<T>>(alloc: Global, items: &[T]) -> Result<Counts, NoMemory>
    ensures { IfOk result (spec.CountsIds B.id items.now) }
{
    let ids = listed::<T, B>(alloc, items)?;
    Ok(Counts::of(ids))
}

// Whether an id is reserved.
fn is_reserved(id: u64) -> bool
    ensures { result ≡ facts.is_reserved id }
{
    id == 1 || (4 <= id && id <= 15)
}

/// Whether an id is that of the private directory, or reserved.
pub fn is_system_id(id: u64) -> bool
    ensures { result ≡ rules.is_system_id id }
{
    id == 3 || is_reserved(id)
}

/// Whether an entry counts.
pub fn does_count(e: &EntryFact) -> bool
    ensures { result ≡ rules.does_count e.now }
{
    !is_reserved(e.id())
}

/// By the directory of the entry.
pub(crate) struct ByDirectory;

impl OrderBy<EntryFact> for ByDirectory {
    ghost use Rattle.fs_record.specs.Entries.{Entry};

    ghost id = { λ (e : facts.Fact Entry). e.id };

    fn id(e: &EntryFact) -> u64 {
        e.id()
    }
}

/// Entries of the private directory and of reserved ids, by file.
pub(crate) struct BySystemFile;

impl IdOf<EntryFact> for BySystemFile {
    ghost id = { spec.system_file };

    fn id(e: &EntryFact) -> Option<u64> {
        if is_system_id(e.id()) {
            Some(e.file_id())
        } else {
            None
        }
    }
}

/// Attributes that are the targets of symbolic links, by file.
pub(crate) struct ByTarget;

impl IdOf<AttributeFact> for ByTarget {
    ghost id = { spec.target_file };

    fn id(a: &AttributeFact) -> Option<u64> {
        if a.gives_target() { Some(a.id()) } else { None }
    }
}
