// The kind of each inode, and the directory that it names as its parent.
ghost use Rattle.std.specs.Prelude.{◌≡◌, ◌<◌, ℕ, Some, length, IfOk};
ghost use Rattle.rule_index.specs.Kins.{kin_in, kin_place, parent_at, has_kind, HasKins};

use blk_source::NoMemory;
use id_lists::{IdSlice, OrderBy};
use std::alloc::Global;
use std::marker::Model;
use view_facts::InodeFact;

/// The kind of an inode, and the directory that it names as its parent.
#[derive(Clone, Copy)]
pub(crate) struct Kin {
    pub(crate) kind: u16,
    pub(crate) parent: u64,
}

/// By the id of the inode.
struct ByInode;

impl OrderBy<InodeFact> for ByInode {
    ghost use Rattle.fs_record.specs.Facts.{Fact};
    ghost use Rattle.fs_record.specs.Inodes.{Inode};

    ghost id = { λ (f : Fact Inode). f.id };

    fn id(f: &InodeFact) -> u64 {
        f.id()
    }
}

/// The inodes, which contracts see as those of all inodes after their ids. They come in the order of their ids from a tree in order, so that a search finds
/// that of an id, and no list of them is made.
#[derive(Drop)]
pub(crate) struct Kins<'a> {
    inodes: IdSlice<'a, InodeFact, ByInode>,
}

impl<'a> Model for Kins<'a> {
    ghost use Rattle.std.specs.Prelude.{List, ℕ, map};
    ghost use Rattle.rule_index.specs.declared.kin.Kin.{Kin};
    ghost use Rattle.rule_index.specs.Kins.{with_id};

    ghost Value = { List (ℕ × Kin) };

    ghost view = { λ kins. map with_id kins.inodes };
}

impl<'a> Kins<'a> {
    /// Those of each id, of its first inode.
    pub(crate) fn of(alloc: Global, inodes: &'a [InodeFact]) -> Result<Kins<'a>, NoMemory>
        ensures { IfOk result (HasKins inodes.now) }
    {
        let inodes = IdSlice::of(alloc, inodes)?;
        Ok(Kins { inodes })
    }

    /// Of how many inodes.
    pub(crate) fn len(&self) -> usize
        ensures { result ≡ length self.now }
    {
        self.inodes.len()
    }

    /// The place of those of an id.
    pub(crate) fn place(&self, id: u64) -> Option<usize>
        ensures { result ≡ kin_place self.now id }
    {
        self.inodes.place(id)
    }

    /// Those of an id, the first where there are more.
    pub(crate) fn get(&self, id: u64) -> Option<Kin>
        ensures { result ≡ kin_in self.now id }
    {
        let Some(at) = self.inodes.place(id) else {
            return None;
        };
        let inode = &self.inodes.as_slice()[at];
        Some(Kin {
            kind: inode.kind(),
            parent: inode.parent(),
        })
    }

    /// Whether the inode at the place of an id is of a kind.
    pub(crate) fn has_kind_at(&self, at: usize, kind: u16) -> bool
        requires { at < length self.now }
        ensures { (id : ℕ) → Some at ≡ kin_place self.now id → result ≡ has_kind self.now id kind }
    {
        self.inodes.as_slice()[at].kind() == kind
    }

    /// The directory that the inode at a place names as its parent.
    pub(crate) fn parent_at(&self, at: usize) -> u64
        requires { at < length self.now }
        ensures { result ≡ parent_at self.now at }
    {
        self.inodes.as_slice()[at].parent()
    }

    /// Whether an id has an inode of a kind.
    pub(crate) fn has_kind(&self, id: u64, kind: u16) -> bool
        ensures { result ≡ has_kind self.now id kind }
    {
        match self.get(id) {
            Some(kin) => kin.kind == kind,
            None => false,
        }
    }
}
