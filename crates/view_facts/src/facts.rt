// What is kept of the records of a view, those of each kind in record order.
ghost use Rattle.std.specs.Prelude.{◌≡◌, ◌&&◌, bytes_eq, IfOk};
ghost use Rattle.std.specs.Bool.{MatchBool};
ghost use Rattle.std.specs.Str.{IsAscii, IsNotAscii};
ghost use Rattle.view_rules.specs.Inodes as rules;
ghost use Rattle.fs_record.specs.Inodes.{inode_kind};

use crate::contents::{Contents, TARGET_NAME, holds_target, is_large};
use crate::text::Text;
use apfs_layout::record as layout;
use blk_source::NoMemory;
use fs_name::Names;
use fs_record::{DirEntry, FileExt, StreamSize};
use std::alloc::Global;
use std::marker::Model;

/// An inode, which contracts see as the fact of its record.
#[derive(Drop)]
pub struct InodeFact {
    // What look-ups ask of many inodes in turn stands side by side, since fields lie as they stand here.
    pub(crate) id: u64,
    pub(crate) bsd_flags: u32,
    pub(crate) mode: u16,
    pub(crate) has_stream: bool,
    pub(crate) parent: u64,
    pub(crate) private_id: u64,
    // The sizes of its stream, where it has one; no option, which would take eight bytes more for each inode.
    pub(crate) stream: StreamSize,
    pub(crate) links: i32,
}

impl Model for InodeFact {
    ghost use Rattle.fs_record.specs.Facts.{Fact};
    ghost use Rattle.fs_record.specs.Inodes.{Inode};
    ghost use Rattle.view_facts.specs.Options.{stream_of};

    ghost Value = { Fact Inode };

    ghost view = { λ a. record { id = a.id; what = record { parent = a.parent; private_id = a.private_id; links = a.links; bsd_flags = a.bsd_flags; mode = a.mode; stream = stream_of a.has_stream a.stream } } };
}

impl InodeFact {
    /// Its id.
    pub fn id(&self) -> u64
        ensures { result ≡ self.now.id }
    {
        self.id
    }

    /// The id of the directory that it stands in.
    pub fn parent(&self) -> u64
        ensures { result ≡ self.now.what.parent }
    {
        self.parent
    }

    /// The id of its stream.
    pub fn private_id(&self) -> u64
        ensures { result ≡ self.now.what.private_id }
    {
        self.private_id
    }

    /// The number of a directory's children, and of another inode's hard links.
    pub fn links(&self) -> i32
        ensures { result ≡ self.now.what.links }
    {
        self.links
    }

    /// The BSD flags.
    pub fn bsd_flags(&self) -> u32
        ensures { result ≡ self.now.what.bsd_flags }
    {
        self.bsd_flags
    }

    /// The mode: the kind, and who may do what.
    pub fn mode(&self) -> u16
        ensures { result ≡ self.now.what.mode }
    {
        self.mode
    }

    /// The kind: 4 for a directory, 8 for a regular file, 10 for a symbolic link (File Modes).
    pub fn kind(&self) -> u16
        ensures { result ≡ inode_kind self.now.what }
    {
        self.mode / layout::MODE_KIND_UNIT
    }

    /// The size of its stream, where it has one.
    pub fn stream(&self) -> Option<StreamSize>
        ensures { result ≡ self.now.what.stream }
    {
        if self.has_stream {
            Some(self.stream)
        } else {
            None
        }
    }
}

/// A directory's entry, which contracts see as the fact of its record.
#[derive(Drop)]
pub struct EntryFact {
    pub(crate) id: u64,
    pub(crate) file_id: u64,
    // The name and the sibling's id. Fields lie as they stand here, the small ones side by side, so that an entry takes 56 bytes.
    pub(crate) name: Text,
    pub(crate) hash: u32,
    pub(crate) kind: u16,
    // Whether the name is ASCII.
    pub(crate) ascii: bool,
}

impl Model for EntryFact {
    ghost use Rattle.std.specs.Bool.{MatchBool};
    ghost use Rattle.std.specs.Str.{IsAscii, IsNotAscii};
    ghost use Rattle.fs_record.specs.Facts.{Fact};
    ghost use Rattle.fs_record.specs.Entries.{Entry};
    ghost use Rattle.view_facts.specs.Texts.{bytes_of, sibling_of};

    ghost Value = { Fact Entry };

    ghost view = { λ a. record { id = a.id; what = record { name = bytes_of a.name; hash = a.hash; file_id = a.file_id; kind = a.kind; sibling = sibling_of a.name } } };

    ghost invariant = { λ a. MatchBool a.ascii (IsAscii (bytes_of a.name)) (IsNotAscii (bytes_of a.name)) };
}

impl EntryFact {
    /// The fact of an entry of a directory.
    pub fn of(alloc: Global, id: u64, entry: &DirEntry<'_>) -> Result<EntryFact, NoMemory>
        ensures { IfOk result (λ fact. fact ≡ record { id = id; what = entry.now }) }
    {
        let name = Text::with(alloc, entry.name(), entry.sibling())?;
        Ok(EntryFact {
            id,
            file_id: entry.file_id(),
            name,
            hash: entry.hash(),
            kind: entry.kind(),
            ascii: entry.name().is_ascii(),
        })
    }

    /// The id of its directory.
    pub fn id(&self) -> u64
        ensures { result ≡ self.now.id }
    {
        self.id
    }

    /// The name, without its final zero.
    pub fn name(&self) -> &str
        ensures { result.now ≡ self.now.what.name }
    {
        self.name.as_str()
    }

    /// Whether the name is ASCII, which was noted once where the entry was added.
    pub fn is_ascii(&self) -> bool
        ensures { MatchBool result (IsAscii self.now.what.name) (IsNotAscii self.now.what.name) }
    {
        self.ascii
    }

    /// The stored hash of the name; 0 where names aren't hashed.
    pub fn hash(&self) -> u32
        ensures { result ≡ self.now.what.hash }
    {
        self.hash
    }

    /// The id of the file.
    pub fn file_id(&self) -> u64
        ensures { result ≡ self.now.what.file_id }
    {
        self.file_id
    }

    /// The kind of the file, as in its inode.
    pub fn kind(&self) -> u16
        ensures { result ≡ self.now.what.kind }
    {
        self.kind
    }

    /// The id of the sibling, where the entry has one.
    pub fn sibling(&self) -> Option<u64>
        ensures { result ≡ self.now.what.sibling }
    {
        self.name.sibling()
    }
}

/// An attribute, which contracts see as the fact of its record.
#[derive(Drop)]
pub struct AttributeFact {
    pub(crate) id: u64,
    pub(crate) name: String,
    pub(crate) contents: Contents,
}

impl Model for AttributeFact {
    ghost use Rattle.std.specs.String.{string_bytes};
    ghost use Rattle.fs_record.specs.Facts.{Fact};
    ghost use Rattle.fs_record.specs.Attributes.{Attribute};
    ghost use Rattle.view_facts.specs.Contents.{body_of};

    ghost Value = { Fact Attribute };

    ghost view = { λ a. record { id = a.id; what = record { name = string_bytes a.name; body = body_of a.contents } } };
}

impl AttributeFact {
    /// The id of its file.
    pub fn id(&self) -> u64
        ensures { result ≡ self.now.id }
    {
        self.id
    }

    /// The name, without its final zero.
    pub fn name(&self) -> &str
        ensures { result.now ≡ self.now.what.name }
    {
        self.name.as_str()
    }

    /// Whether it is the target of a symbolic link: it stands in the record under the target's name, and its one zero is the
    /// last of two bytes or more.
    pub fn gives_target(&self) -> bool
        ensures { result ≡ (bytes_eq self.now.what.name rules.target_name && rules.holds_target self.now.what.body) }
    {
        self.name.as_str() == TARGET_NAME && holds_target(&self.contents)
    }

    /// Whether it is a stream of 2^63 bytes or more.
    pub fn has_large_body(&self) -> bool
        ensures { result ≡ rules.is_large_body self.now.what.body }
    {
        is_large(&self.contents)
    }
}

/// A sibling link, which contracts see as the fact of its record.
#[derive(Drop)]
pub struct LinkFact {
    pub(crate) id: u64,
    pub(crate) file: u64,
    pub(crate) sibling: u64,
    pub(crate) parent: u64,
    pub(crate) name: String,
}

impl Model for LinkFact {
    ghost use Rattle.std.specs.String.{string_bytes};
    ghost use Rattle.fs_record.specs.Facts.{Fact};
    ghost use Rattle.fs_record.specs.Siblings.{Link};

    ghost Value = { Fact Link };

    ghost view = { λ a. record { id = a.id; what = record { file = a.file; sibling = a.sibling; parent = a.parent; name = string_bytes a.name } } };
}

impl LinkFact {
    /// The id of the file.
    pub fn file(&self) -> u64
        ensures { result ≡ self.now.what.file }
    {
        self.file
    }

    /// The id of the sibling.
    pub fn sibling(&self) -> u64
        ensures { result ≡ self.now.what.sibling }
    {
        self.sibling
    }

    /// The id of the directory that has the name.
    pub fn parent(&self) -> u64
        ensures { result ≡ self.now.what.parent }
    {
        self.parent
    }

    /// The name, without its final zero.
    pub fn name(&self) -> &str
        ensures { result.now ≡ self.now.what.name }
    {
        self.name.as_str()
    }
}

/// A sibling map, which contracts see as the fact of its record.
#[derive(Drop)]
pub struct SiblingFact {
    pub(crate) id: u64,
    pub(crate) file: u64,
}

impl Model for SiblingFact {
    ghost use Rattle.std.specs.Prelude.{ℕ};
    ghost use Rattle.fs_record.specs.Facts.{Fact};

    ghost Value = { Fact ℕ };

    ghost view = { λ a. record { id = a.id; what = a.file } };
}

impl SiblingFact {
    /// The id of the sibling.
    pub fn id(&self) -> u64
        ensures { result ≡ self.now.id }
    {
        self.id
    }

    /// The id of the file.
    pub fn file(&self) -> u64
        ensures { result ≡ self.now.what }
    {
        self.file
    }
}

/// An extent, which contracts see as the fact of its record.
#[derive(Drop)]
pub struct ExtentFact {
    pub(crate) id: u64,
    pub(crate) extent: FileExt,
}

impl Model for ExtentFact {
    ghost use Rattle.fs_record.specs.Facts.{Fact};
    ghost use Rattle.fs_record.specs.declared.extents.FileExt.{FileExt};

    ghost Value = { Fact FileExt };

    ghost view = { λ a. record { id = a.id; what = a.extent } };
}

impl ExtentFact {
    /// The id of the stream.
    pub fn id(&self) -> u64
        ensures { result ≡ self.now.id }
    {
        self.id
    }

    /// The extent.
    pub fn extent(&self) -> FileExt
        ensures { result ≡ self.now.what }
    {
        self.extent
    }
}

/// The facts of a view.
#[derive(Drop)]
pub struct Facts {
    /// How names are compared.
    pub names: Names,
    pub inodes: Vec<InodeFact>,
    pub entries: Vec<EntryFact>,
    pub attributes: Vec<AttributeFact>,
    pub links: Vec<LinkFact>,
    pub siblings: Vec<SiblingFact>,
    pub extents: Vec<ExtentFact>,
}

impl Model for Facts {
    ghost use Rattle.view_rules.specs.Facts as spec;

    ghost Value = { spec.Facts };

    ghost view = { λ a. record { names = a.names; inodes = a.inodes.items; entries = a.entries.items; attributes = a.attributes.items; links = a.links.items; siblings = a.siblings.items; extents = a.extents.items } };
}
