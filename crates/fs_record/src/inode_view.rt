// What an inode's record says (File-System Objects, j_inode_val_t).
ghost use Rattle.std.specs.Prelude.{◌≡◌};
ghost use Rattle.fs_record.specs.Inodes.{inode_kind};

use apfs_layout::record as layout;
use obj_base::{u16_at, u32_at, u64_at};
use std::marker::Model;

/// The size of a stream, in bytes (Data Streams, `j_dstream_t`).
#[derive(Clone, Copy, PartialEq, Eq)]
pub struct StreamSize {
    pub size: u64,
    /// How many bytes its blocks have.
    pub allocated: u64,
}

/// An inode, over the bytes of its value. Contracts see its fields.
#[derive(Drop)]
pub struct Inode<'a> {
    pub(crate) value: &'a [u8],
    pub(crate) stream: Option<StreamSize>,
}

impl<'a> Model for Inode<'a> {
    ghost use Rattle.std.specs.Prelude.{◌≡◌, ◌≤◌, length};
    ghost use Rattle.fs_record.specs.Inodes as spec;

    ghost Value = { spec.Inode };

    ghost view = { λ a. record { parent = spec.parent_of a.value.now; private_id = spec.private_id_of a.value.now; links = spec.links_of a.value.now; bsd_flags = spec.bsd_flags_of a.value.now; mode = spec.mode_of a.value.now; stream = a.stream } };

    ghost invariant = { λ a. 92 ≤ length a.value.now };
}

#[tactic(auto, unfolding(crate::specs::Inodes::parent_of, crate::specs::Inodes::private_id_of, crate::specs::Inodes::links_of, crate::specs::Inodes::bsd_flags_of, crate::specs::Inodes::mode_of, apfs_model::specs::Bytes::i32_at))]
impl Inode<'_> {
    /// The id of the directory that it stands in.
    pub fn parent(&self) -> u64
        ensures { result ≡ self.now.parent }
    {
        u64_at(self.value, layout::INODE_PARENT)
    }

    /// The id of its stream.
    pub fn private_id(&self) -> u64
        ensures { result ≡ self.now.private_id }
    {
        u64_at(self.value, layout::INODE_PRIVATE_ID)
    }

    /// The number of a directory's children, and of another inode's hard links.
    pub fn links(&self) -> i32
        ensures { result ≡ self.now.links }
    {
        u32_at(self.value, layout::INODE_LINKS).cast_signed()
    }

    /// The BSD flags, which `chflags` sets: 0x20 for a compressed file, 0x40000000 for a dataless one.
    pub fn bsd_flags(&self) -> u32
        ensures { result ≡ self.now.bsd_flags }
    {
        u32_at(self.value, layout::INODE_BSD_FLAGS)
    }

    /// The kind and the permissions (File-System Constants, "File Modes").
    pub fn mode(&self) -> u16
        ensures { result ≡ self.now.mode }
    {
        u16_at(self.value, layout::INODE_MODE)
    }

    /// The kind: 4 for a directory, 8 for a regular file, 10 for a symbolic link.
    pub fn kind(&self) -> u16
        ensures { result ≡ inode_kind self.now }
    {
        self.mode() / layout::MODE_KIND_UNIT
    }

    /// The size of its stream, where it has one.
    pub fn stream(&self) -> Option<StreamSize>
        ensures { result ≡ self.now.stream }
    {
        self.stream
    }
}
