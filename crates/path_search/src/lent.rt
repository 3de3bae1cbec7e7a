// Targets whose names stand in the entries that lead to them.
ghost use Rattle.std.specs.Prelude.{◌≡◌, IfOk};
ghost use Rattle.path_search.specs.Places as spec;
ghost use Rattle.path_search.specs.Parts.{target_with};

use crate::kept::{KeptTarget, size};
use crate::kinds::KindAndSize;
use apfs_model::NoMemory;
use std::alloc::Global;
use std::marker::Model;
use view_facts::{EntryFact, InodeFact};

/// A target whose name isn't copied: it stands in the entry. Contracts see it as the target.
#[derive(Drop)]
pub struct LentTarget<'a> {
    entry: &'a EntryFact,
    size: u64,
    kind: u16,
}

impl<'a> Model for LentTarget<'a> {
    ghost use Rattle.path_search.specs.declared.target.Target as targets;

    ghost Value = { targets.Target };

    ghost view = { λ a. record { id = a.entry.now.what.file_id; name = a.entry.now.what.name; kind = a.kind; size = a.size } };
}

impl<'a> LentTarget<'a> {
    /// What an entry's file is, which has this inode.
    pub fn of(entry: &'a EntryFact, inode: &InodeFact) -> LentTarget<'a>
        ensures { result ≡ spec.target_of (spec.placed entry.now.what.file_id entry.now.what.name inode.now.what) }
    {
        LentTarget {
            entry,
            size: size(inode.stream()),
            kind: inode.kind(),
        }
    }

    /// What an entry's file is, which has this kind and this size.
    pub fn with(entry: &'a EntryFact, kind: KindAndSize) -> LentTarget<'a>
        ensures { result ≡ target_with entry.now kind }
    {
        LentTarget {
            entry,
            size: kind.size,
            kind: kind.kind,
        }
    }

    /// Its kind and its size.
    pub fn kind_and_size(&self) -> KindAndSize
        ensures kind_told { result.kind ≡ self.now.kind }
        ensures size_told { result.size ≡ self.now.size }
    {
        KindAndSize {
            size: self.size,
            kind: self.kind,
        }
    }

    /// A copy with a name of its own.
    pub fn kept(&self, alloc: Global) -> Result<KeptTarget, NoMemory>
        ensures { IfOk result (λ target. target ≡ self.now) }
    {
        KeptTarget::named(
            alloc,
            self.entry.file_id(),
            self.entry.name(),
            self.kind,
            self.size,
        )
    }
}
