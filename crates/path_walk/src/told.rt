// The entries of a view in memory, with what is told of their files.
ghost use Rattle.std.specs.Prelude.{◌≡◌, length, map, option_map, IfOk, IsErrOf, vec_len};
ghost use Rattle.obj_base.specs.declared.stop.Stop.TheVariants.{ReadFault};
ghost use Rattle.view_rules.specs.Facts.{Facts, inode_at};
ghost use Rattle.path_search.specs.Found.{entries_in};
ghost use Rattle.path_search.specs.Parts.{whats, kind_told, kind_by, Rises, Remembers, Tells, HasEntries, IsTargetKnown};

use crate::by_memory::lacking;
use crate::files::{Files, inode_in, part, run_at};
use apfs_model::NoMemory;
use obj_base::Stop;
use path_search::by_search::is_reserved;
use path_search::{FileKind, LentTarget, PathStop};
use std::alloc::Global;
use view_facts::{EntryFact, InodeFact};
use vol_view::View;

/// The entries of a view in record order, and what is told of the file of each.
#[derive(Drop)]
pub struct ToldFiles {
    pub entries: Vec<EntryFact>,
    pub kinds: Vec<FileKind>,
    ghost whole: { vec_len kinds ≡ vec_len entries },
}

/// Some entries, and what is told of the file of each.
#[derive(Drop)]
pub struct ToldRun<'a> {
    pub entries: &'a [EntryFact],
    pub kinds: &'a [FileKind],
    ghost whole: { length kinds.now ≡ length entries.now },
}

// What is told of the file of an id by its inode, the first where there are more.
fn kind_in(inodes: &[InodeFact], id: u64, shift: &mut u64) -> FileKind
    ensures { (facts : Facts) → inodes.now ≡ facts.inodes → Rises inodes.now → result ≡ option_map kind_told (inode_at facts id) }
{
    match inode_in(inodes, id, shift) {
        Some(inode) => FileKind::of(inode),
        None => FileKind::none(),
    }
}

// What is told of the file of each of some entries.
fn kinds_of(
    alloc: Global,
    inodes: &[InodeFact],
    entries: &[EntryFact],
) -> Result<Vec<FileKind>, NoMemory>
    ensures whole { IfOk result (λ kinds. vec_len kinds ≡ length entries.now) }
    ensures told { (facts : Facts) → inodes.now ≡ facts.inodes → Rises inodes.now → IfOk result (λ kinds. kinds.items ≡ map (kind_by facts) (whats entries.now)) }
{
    let mut kinds = Vec::with_capacity(alloc, entries.len())?;
    let mut shift = 0;
    for entry in entries {
        kinds.push(kind_in(inodes, entry.file_id(), &mut shift))?;
    }
    Ok(kinds)
}

/// What an entry's file is, as it is told, by the kind and the size that are kept of it.
pub fn target_told<'a>(
    alloc: Global,
    view: &View,
    entry: &'a EntryFact,
    kind: &FileKind,
) -> Result<LentTarget<'a>, Stop<PathStop>>
    ensures no_read { IsErrOf result ReadFault → ⊥ }
    ensures known { (facts : Facts) → kind.now ≡ kind_by facts entry.now.what → IsTargetKnown facts view.now entry.now result }
{
    match kind.told() {
        Some(kind) => Ok(LentTarget::with(entry, kind)),
        None => {
            let fault = lacking(alloc, view, entry)?;
            Err(Stop::Found(PathStop::Fault(fault)))
        }
    }
}

impl ToldFiles {
    /// The entries of a view, with the kinds and sizes of their files in place of all inodes: a quarter of the memory.
    pub fn of(alloc: Global, files: Files) -> Result<ToldFiles, NoMemory>
        ensures { (facts : Facts) → Remembers facts files.entries.items files.inodes.items → IfOk result (λ told. Tells facts told.entries.items told.kinds.items) }
    {
        let Files { entries, inodes } = files;
        let kinds = kinds_of(alloc, &inodes, &entries)?;
        Ok(ToldFiles { entries, kinds })
    }

    /// The entries of a directory that are followed and listed.
    #[tactic(auto, unfolding(path_search::specs::Found::entries_in))]
    pub fn directory(&self, id: u64) -> ToldRun<'_>
        ensures counted { (facts : Facts) → Tells facts self.now.entries.items self.now.kinds.items → HasEntries facts result.entries.now }
        ensures all { (facts : Facts) → Tells facts self.now.entries.items self.now.kinds.items → whats result.entries.now ≡ entries_in facts id }
        ensures kinds { (facts : Facts) → Tells facts self.now.entries.items self.now.kinds.items → result.kinds.now ≡ map (kind_by facts) (whats result.entries.now) }
    {
        if is_reserved(id) {
            return ToldRun {
                entries: &[],
                kinds: &[],
            };
        }
        let (from, count) = run_at(&self.entries, id);
        ToldRun {
            entries: part(&self.entries, from, count),
            kinds: part(&self.kinds, from, count),
        }
    }
}
