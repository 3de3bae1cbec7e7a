// What is kept of what names lead to: inodes, places and targets.
ghost use Rattle.std.specs.Prelude.{◌≡◌, IfOk};
ghost use Rattle.path_search.specs.Places as spec;
ghost use Rattle.view_rules.specs.Facts.{is_directory};

use crate::Target;
use apfs_layout::record as layout;
use apfs_model::{Bytes, NoMemory};
use fs_record::{Inode, KeptName, StreamSize};
use std::alloc::Global;
use std::marker::Model;
use view_facts::InodeFact;

// The kind of a directory (File System Constants, File Modes).
const DIRECTORY: u16 = 4;

/// An inode.
#[derive(Drop)]
pub struct KeptInode {
    parent: u64,
    private_id: u64,
    links: i32,
    bsd_flags: u32,
    mode: u16,
    stream: Option<StreamSize>,
}

impl Model for KeptInode {
    ghost use Rattle.fs_record.specs.Inodes as inodes;

    ghost Value = { inodes.Inode };

    ghost view = { λ a. record { parent = a.parent; private_id = a.private_id; links = a.links; bsd_flags = a.bsd_flags; mode = a.mode; stream = a.stream } };
}

impl KeptInode {
    ghost use Rattle.fs_record.specs.Inodes as inodes;

    /// A copy of an inode.
    pub fn of(inode: &Inode<'_>) -> KeptInode
        ensures { result ≡ inode.now }
    {
        KeptInode {
            parent: inode.parent(),
            private_id: inode.private_id(),
            links: inode.links(),
            bsd_flags: inode.bsd_flags(),
            mode: inode.mode(),
            stream: inode.stream(),
        }
    }

    /// A copy of an inode's fact.
    pub fn of_fact(fact: &InodeFact) -> KeptInode
        ensures { result ≡ fact.now.what }
    {
        KeptInode {
            parent: fact.parent(),
            private_id: fact.private_id(),
            links: fact.links(),
            bsd_flags: fact.bsd_flags(),
            mode: fact.mode(),
            stream: fact.stream(),
        }
    }

    /// The id of its stream.
    pub fn private_id(&self) -> u64
        ensures { result ≡ self.now.private_id }
    {
        self.private_id
    }

    /// The BSD flags.
    pub fn bsd_flags(&self) -> u32
        ensures { result ≡ self.now.bsd_flags }
    {
        self.bsd_flags
    }

    /// The kind of the file.
    pub fn kind(&self) -> u16
        ensures { result ≡ inodes.inode_kind self.now }
    {
        self.mode / layout::MODE_KIND_UNIT
    }

    /// The size of its stream, where it has one.
    pub fn stream(&self) -> Option<StreamSize>
        ensures { result ≡ self.now.stream }
    {
        self.stream
    }

    /// Whether it is a directory.
    pub fn is_directory(&self) -> bool
        ensures { result ≡ is_directory self.now }
    {
        self.kind() == DIRECTORY
    }
}

/// What a name leads to: an id, the name, and the inode.
#[derive(Drop)]
pub struct Place {
    pub(crate) id: u64,
    pub(crate) name: KeptName,
    pub(crate) inode: KeptInode,
}

impl Model for Place {
    ghost use Rattle.path_search.specs.Places as places;

    ghost Value = { places.Place };

    ghost view = { λ a. record { id = a.id; name = a.name; inode = a.inode } };
}

/// The size of a stream, 0 without one.
pub(crate) fn size(stream: Option<StreamSize>) -> u64
    ensures { result ≡ spec.size_of stream }
{
    match stream {
        None => 0,
        Some(stream) => stream.size,
    }
}

impl Place {
    /// The id.
    pub fn id(&self) -> u64
        ensures { result ≡ self.now.id }
    {
        self.id
    }

    /// The inode.
    pub fn inode(&self) -> &KeptInode
        ensures { result.now ≡ self.now.inode }
    {
        &self.inode
    }

    /// The place as it is told.
    pub fn target(self) -> KeptTarget
        ensures { result ≡ spec.target_of self }
    {
        let kind = self.inode.kind();
        let size = size(self.inode.stream());
        KeptTarget {
            id: self.id,
            name: self.name,
            kind,
            size,
        }
    }

    /// Whether it is a directory.
    pub fn is_directory(&self) -> bool
        ensures { result ≡ is_directory self.now.inode }
    {
        self.inode.is_directory()
    }
}

/// A target whose name is kept in place where it is short. Contracts see it as the target.
#[derive(Drop)]
pub struct KeptTarget {
    id: u64,
    name: KeptName,
    kind: u16,
    size: u64,
}

impl Model for KeptTarget {
    ghost use Rattle.path_search.specs.declared.target.Target as targets;

    ghost Value = { targets.Target };

    ghost view = { λ a. record { id = a.id; name = a.name; kind = a.kind; size = a.size } };
}

impl KeptTarget {
    /// A target with a copy of a name.
    pub(crate) fn named(
        alloc: Global,
        id: u64,
        name: &str,
        kind: u16,
        size: u64,
    ) -> Result<KeptTarget, NoMemory>
        ensures { IfOk result (λ target. target ≡ record { id = id; name = name.now; kind = kind; size = size }) }
    {
        let name = KeptName::of(alloc, name)?;
        Ok(KeptTarget {
            id,
            name,
            kind,
            size,
        })
    }

    /// The id.
    pub fn id(&self) -> u64
        ensures { result ≡ self.now.id }
    {
        self.id
    }

    /// The name.
    pub fn name(&self) -> &str
        ensures { result.now ≡ self.now.name }
    {
        self.name.as_str()
    }

    /// The kind of its inode.
    pub fn kind(&self) -> u16
        ensures { result ≡ self.now.kind }
    {
        self.kind
    }

    /// The size of its stream, 0 without one.
    pub fn size(&self) -> u64
        ensures { result ≡ self.now.size }
    {
        self.size
    }

    /// A copy as a target.
    pub fn target(&self, alloc: Global) -> Result<Target, NoMemory>
        ensures { IfOk result (λ target. target ≡ self.now) }
    {
        let name = Bytes::from_slice(alloc, self.name.as_str().as_bytes())?;
        Ok(Target {
            id: self.id,
            name,
            kind: self.kind,
            size: self.size,
        })
    }
}
