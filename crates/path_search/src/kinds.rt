// What is told of an inode beside the name that leads to it.
ghost use Rattle.std.specs.Prelude.{◌≡◌, IfOk, Some, None};
ghost use Rattle.path_search.specs.Parts.{target_with, kind_told};

use crate::kept::{KeptTarget, size};
use apfs_model::NoMemory;
use std::alloc::Global;
use std::marker::Model;
use view_facts::{EntryFact, InodeFact};

/// The kind of an inode, and the size of its stream, 0 without one.
#[derive(Drop)]
pub struct KindAndSize {
    pub size: u64,
    pub kind: u16,
}

impl KindAndSize {
    /// The target of an entry whose file has this kind and this size, with a copy of its name.
    pub(crate) fn target(&self, alloc: Global, entry: &EntryFact) -> Result<KeptTarget, NoMemory>
        ensures { IfOk result (λ target. target ≡ target_with entry.now self.now) }
    {
        KeptTarget::named(alloc, entry.file_id(), entry.name(), self.kind, self.size)
    }
}

/// The kind and the size of a file, or that it has no inode, in 16 bytes. Contracts see it as the one or the other.
#[derive(Drop)]
pub struct FileKind {
    size: u64,
    kind: u16,
    found: bool,
}

impl Model for FileKind {
    ghost use Rattle.std.specs.Prelude.{Option, None, Some, if◌then◌else◌};
    ghost use Rattle.path_search.specs.declared.kinds.KindAndSize.{KindAndSize};

    ghost Value = { Option KindAndSize };

    ghost view = { λ a. if a.found then Some (record { size = a.size; kind = a.kind }) else None };
}

impl FileKind {
    /// What is told of a file with this inode.
    pub fn of(inode: &InodeFact) -> FileKind
        ensures { result ≡ Some (kind_told inode.now.what) }
    {
        FileKind {
            size: size(inode.stream()),
            kind: inode.kind(),
            found: true,
        }
    }

    /// What is told of a file without an inode.
    pub fn none() -> FileKind
        ensures { result ≡ None }
    {
        FileKind {
            size: 0,
            kind: 0,
            found: false,
        }
    }

    /// The kind and the size, where it has an inode.
    pub fn told(&self) -> Option<KindAndSize>
        ensures { result ≡ self.now }
    {
        if !self.found {
            return None;
        }
        Some(KindAndSize {
            size: self.size,
            kind: self.kind,
        })
    }
}
